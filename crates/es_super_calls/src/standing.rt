//! Where a node stands, as far as the constructors of classes that extend others ask (ECMA-262, 15.7.14). Fields count from 0.
ghost use Rattle.std.specs.Prelude.{◌≡◌};
ghost use Rattle.es_tree.specs.Tree.{fields_of, kind_of, label_of};
ghost use Rattle.es_super_calls.specs.Constructors.{standing_in};

use es_tree::kind::Kind;
use es_tree::node::Node;
use es_tree::operators::MethodDefinitionKind;

/// What a node is to the one that it stands in.
#[derive(Clone, Copy)]
pub enum ClassStanding {
    /// A member of a class that extends another.
    Member,
    /// The function of such a class's constructor.
    Constructor,
    /// The body of that function.
    Body,
    /// Anything else.
    Elsewhere,
}

impl ClassStanding {
    /// Of what stands in this field of a node that stands so.
    pub fn inside(self, node: &Node, index: usize) -> ClassStanding
        ensures { result ≡ standing_in self (kind_of node.now) (label_of node.now) (fields_of node.now) index }
    {
        match (self, &node.kind) {
            (_, Kind::ClassDeclaration { .. } | Kind::ClassExpression { .. })
                if index == 2 && node.child_at(1).is_some() => ClassStanding::Member,
            (
                ClassStanding::Member,
                Kind::MethodDefinition {
                    kind: MethodDefinitionKind::Constructor,
                    ..
                },
            ) if index == 1 => ClassStanding::Constructor,
            (ClassStanding::Constructor, Kind::FunctionExpression { .. }) if index == 2 => {
                ClassStanding::Body
            }
            _ => ClassStanding::Elsewhere,
        }
    }
}
