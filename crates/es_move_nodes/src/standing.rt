//! Names that stand in a tree: those of its bindings and references (ECMA-262, 13.1 and 8.2). Property names and labels are none.
ghost use Rattle.std.specs.Prelude.{◌≡◌, bytes_eq, true};
ghost use Rattle.es_tree.specs.Heads.{head_of, label};
ghost use Rattle.es_tree.specs.Names.{is_name_place};
ghost use Rattle.es_tree.specs.Tree.{kind_of, label_of, trees};
ghost use Rattle.es_tree.specs.Views.{plain_field};
ghost use Rattle.es_tree.specs.declared.ids.NodeId.{NodeId};
ghost use Rattle.es_tree.specs.declared.ids.Span.{Span};
ghost use Rattle.es_move_nodes.specs.AskedNames.{is_asked};
ghost use Rattle.es_pattern_moves.specs.PatternMoves.{declared_later, meets, meets_among, own_stands, stands, stands_among, stands_if, stands_in_field};

use crate::bound::binds_name;
use crate::declared::declared_later;
use es_scope::names::{is_first_name, is_second_name};
use es_tree::kind::Kind;
use es_tree::node::{Field, Node};

/// The names that are asked for.
#[derive(Clone, Copy)]
enum Names<'a> {
    /// Those that this pattern binds.
    BoundBy(&'a Node),
    /// Those that these parameters and a body of these statements bind.
    DeclaredLater {
        parameters: &'a [Node],
        statements: &'a [Node],
    },
    /// This one.
    Word(&'a str),
}

impl Names<'_> {
    /// Whether this is one of them.
    fn contain(&self, name: &str) -> bool
        ensures { result ≡ is_asked self.now name.now }
    {
        match self {
            Names::BoundBy(pattern) => binds_name(name, pattern),
            Names::DeclaredLater {
                parameters,
                statements,
            } => declared_later(parameters, statements, name),
            Names::Word(word) => name == *word,
        }
    }
}

/// Whether a name that the pattern binds stands in the tree.
pub fn meets(pattern: &Node, tree: &Node) -> bool
    ensures { result ≡ meets pattern.now tree.now }
{
    stands_if(&Names::BoundBy(pattern), tree, true)
}

/// Whether a name that the pattern binds stands in one of the nodes.
pub fn meets_among(pattern: &Node, nodes: &[Node]) -> bool
    ensures { result ≡ meets_among pattern.now (trees nodes.now) }
{
    stands_among(&Names::BoundBy(pattern), nodes)
}

/// Whether a name that these parameters or a body of these statements bind stands in the tree.
pub fn meets_declared(parameters: &[Node], statements: &[Node], tree: &Node) -> bool
    ensures { result ≡ stands (declared_later (trees parameters.now) (trees statements.now)) tree.now }
{
    let names = Names::DeclaredLater {
        parameters,
        statements,
    };
    stands_if(&names, tree, true)
}

/// Whether this name stands in the tree.
pub fn stands(name: &str, tree: &Node) -> bool
    ensures { result ≡ stands (λ x. bytes_eq x name.now) tree.now }
{
    stands_if(&Names::Word(name), tree, true)
}

fn stands_among(names: &Names, nodes: &[Node]) -> bool
    ensures { result ≡ stands_among (is_asked names.now) (trees nodes.now) }
{
    for node in nodes {
        if stands_if(names, node, true) {
            return true;
        }
    }
    false
}

/// Whether one of the names stands in the tree; an identifier that is the tree itself counts or not.
#[cycle(standing)]
fn stands_if(names: &Names, node: &Node, counts: bool) -> bool
    ensures { result ≡ stands_if (is_asked names.now) counts node.now }
{
    if own_stands(names, node, counts) {
        return true;
    }
    for (index, field) in node.fields.iter().enumerate() {
        if stands_in_field(names, field, is_name_place(&node.kind, index)) {
            return true;
        }
    }
    false
}

#[cycle(standing)]
fn stands_in_field(names: &Names, field: &Field, counts: bool) -> bool
    ensures { result ≡ stands_in_field (is_asked names.now) counts (plain_field field.now) }
{
    match field {
        Field::Missing => false,
        Field::One(node) => stands_if(names, node, counts),
        Field::Many(nodes) | Field::Statements(nodes) => {
            for node in nodes {
                if stands_if(names, node, true) {
                    return true;
                }
            }
            false
        }
    }
}

/// Whether the node is an identifier that counts, and one of the names.
fn own_stands(names: &Names, node: &Node, counts: bool) -> bool
    ensures { result ≡ own_stands (is_asked names.now) counts (kind_of node.now) (label_of node.now) }
{
    counts && is_one_of(names, node)
}

fn is_one_of(names: &Names, node: &Node) -> bool
    ensures { result ≡ own_stands (is_asked names.now) true (kind_of node.now) (label_of node.now) }
{
    match &node.kind {
        Kind::Identifier { name, .. } => names.contain(name.as_str()),
        _ => false,
    }
}

/// Whether an identifier that stands in this field of a node of this kind is a name.
fn is_name_place(kind: &Kind, index: usize) -> bool
    ensures { (id : NodeId) (span : Span) → result ≡ is_name_place (head_of kind.now).kind (label id span (head_of kind.now)) index }
{
    match index {
        0 => is_first_name(kind),
        1 => is_second_name(kind),
        _ => true,
    }
}
