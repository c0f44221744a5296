//! Whether a binding pattern binds a name (ECMA-262, 8.2.1), and whether a node is called by one.
ghost use Rattle.std.specs.Prelude.{◌≡◌};
ghost use Rattle.es_tree.specs.Views.{plain_field};
ghost use Rattle.es_move_nodes.specs.MoveFields.{binds_in_field};
ghost use Rattle.es_pattern_moves.specs.PatternMoves.{binds_let, is_called};
ghost use Rattle.es_rest_rows.specs.RestRows.{binds_name};

use es_tree::kind::Kind;
use es_tree::node::{Field, Node};

/// Whether the pattern binds this name. Property keys and default values bind nothing.
#[cycle(bound)]
pub fn binds_name(name: &str, pattern: &Node) -> bool
    ensures { result ≡ binds_name name.now pattern.now }
{
    match &pattern.kind {
        Kind::Identifier { .. } => is_called(name, pattern),
        Kind::ObjectPattern | Kind::AssignmentPattern | Kind::RestElement => {
            match pattern.fields.first() {
                Some(field) => binds_in_field(name, field),
                None => false,
            }
        }
        Kind::PatternProperty { .. } => match pattern.fields.get(1) {
            Some(value) => binds_in_field(name, value),
            None => false,
        },
        Kind::ArrayPattern => {
            for element in &pattern.fields {
                if binds_in_field(name, element) {
                    return true;
                }
            }
            false
        }
        _ => false,
    }
}

#[cycle(bound)]
fn binds_in_field(name: &str, field: &Field) -> bool
    ensures { result ≡ binds_in_field name.now (plain_field field.now) }
{
    match field {
        Field::Missing => false,
        Field::One(node) => binds_name(name, node),
        Field::Many(nodes) | Field::Statements(nodes) => {
            for node in nodes {
                if binds_name(name, node) {
                    return true;
                }
            }
            false
        }
    }
}

/// Whether the pattern binds `let`, which no `let` declaration does (14.3.1.1).
pub fn binds_let(pattern: &Node) -> bool
    ensures { result ≡ binds_let pattern.now }
{
    binds_name("let", pattern)
}

/// Whether the first text of the node, that of an identifier, is this name.
pub fn is_called(name: &str, node: &Node) -> bool
    ensures { result ≡ is_called name.now node.now }
{
    node.kind.text(0).unwrap_or("") == name
}
