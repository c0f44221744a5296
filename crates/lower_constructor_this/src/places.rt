//! How what stands in the fields of a node stands, told before one of them changes. In `class A extends B { constructor() {} }` the method is a
//! member of a class that extends another, its function is a constructor, and `{}` is the body of one.
//!
//! The rule is `standing_in` of es_super_calls.
ghost use Rattle.std.specs.Prelude.{◌≡◌, ℕ};
ghost use Rattle.es_tree.specs.Tree.{fields_of, kind_of, label_of};
ghost use Rattle.es_super_calls.specs.Constructors.{standing_in};
ghost use Rattle.lower_constructor_this.specs.Parts.{standing_at};

use es_super_calls::standing::ClassStanding;
use es_tree::node::Node;

/// How what stands in the fields of a node stands: elsewhere, but for these two. Fields count from 0.
#[derive(Clone, Copy)]
pub(crate) struct Standings {
    at_1: ClassStanding,
    at_2: ClassStanding,
}

impl Standings {
    /// Of what stands in the fields of this node, which stands so.
    pub(crate) fn inside(node: &Node, standing: ClassStanding) -> Standings
        ensures { (i : ℕ) → standing_at result i ≡ standing_in standing (kind_of node.now) (label_of node.now) (fields_of node.now) i }
    {
        Standings {
            at_1: standing.inside(node, 1),
            at_2: standing.inside(node, 2),
        }
    }

    /// Of what stands in this field.
    pub(crate) fn at(self, index: usize) -> ClassStanding
        ensures { result ≡ standing_at self index }
    {
        match index {
            1 => self.at_1,
            2 => self.at_2,
            _ => ClassStanding::Elsewhere,
        }
    }
}
