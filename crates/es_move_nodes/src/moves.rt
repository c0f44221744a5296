//! The nodes out of which such a pattern moves.
ghost use Rattle.std.specs.Prelude.{◌≡◌};
ghost use Rattle.es_tree.specs.Tree.{fields_of, kind_of, label_of};
ghost use Rattle.es_tree.specs.Views.{plain_field, plain_fields};
ghost use Rattle.es_tree.specs.Walks.{any_in_field, any_node};
ghost use Rattle.es_pattern_moves.specs.PatternMoves.{moves_from_catch, moves_pattern};

use crate::bound::binds_let;
use crate::heads::moves_from_head;
use crate::parameters::{moves_from_arrow, moves_from_function};
use es_rest_nodes::patterns::is_plain_pattern;
use es_tree::kind::Kind;
use es_tree::node::{Field, Node};

/// Whether a pattern moves out of some node of the program. Takes no memory.
#[cycle(moves)]
pub fn has_moves(program: &Node) -> bool
    ensures { result ≡ any_node moves_pattern program.now }
{
    if moves_pattern(program) {
        return true;
    }
    for field in &program.fields {
        if has_moves_in_field(field) {
            return true;
        }
    }
    false
}

#[cycle(moves)]
fn has_moves_in_field(field: &Field) -> bool
    ensures { result ≡ any_in_field moves_pattern (plain_field field.now) }
{
    match field {
        Field::Missing => false,
        Field::One(node) => has_moves(node),
        Field::Many(nodes) | Field::Statements(nodes) => {
            for node in nodes {
                if has_moves(node) {
                    return true;
                }
            }
            false
        }
    }
}

/// Whether a pattern moves out of the node: out of a catch clause (ECMA-262, 14.15), the head of a loop (14.7.5) or the parameters of a
/// function (10.2.11).
pub fn moves_pattern(node: &Node) -> bool
    ensures { result ≡ moves_pattern (kind_of node.now) (label_of node.now) (fields_of node.now) }
{
    match &node.kind {
        Kind::CatchClause { .. } => moves_from_catch(node.fields.as_slice()),
        Kind::ForInStatement { .. } | Kind::ForOfStatement { .. } => {
            moves_from_head(node.fields.as_slice())
        }
        Kind::FunctionDeclaration { .. } | Kind::FunctionExpression { .. } => {
            moves_from_function(node.fields.as_slice())
        }
        Kind::ArrowFunctionExpression { .. } => moves_from_arrow(node.fields.as_slice()),
        _ => false,
    }
}

/// Whether a pattern moves out of a catch clause of these fields, to a `let` declaration in its block.
pub fn moves_from_catch(fields: &[Field]) -> bool
    ensures { result ≡ moves_from_catch (plain_fields fields.now) }
{
    match fields {
        [Field::One(pattern), Field::One(..)] => is_plain_pattern(pattern) && !binds_let(pattern),
        _ => false,
    }
}
