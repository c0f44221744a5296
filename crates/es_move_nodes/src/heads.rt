//! Heads of loops (ECMA-262, 14.7.5) out of which a pattern moves: `for (const { a, ...b } of e)`, `for ({ a, ...b } of e)`.
ghost use Rattle.std.specs.Prelude.{◌≡◌};
ghost use Rattle.es_tree.specs.Tree.{trees};
ghost use Rattle.es_tree.specs.Views.{plain_field, plain_fields};
ghost use Rattle.es_move_nodes.specs.MoveFields.{declarator_moves, head_moves, is_missing, list_moves, only_moves, parts_move, pattern_moves, three_move};
ghost use Rattle.es_pattern_moves.specs.PatternMoves.{moves_from_head};

use crate::declared::is_var_word;
use crate::standing::meets;
use es_rest_nodes::patterns::{bears_rest, is_plain_pattern};
use es_tree::kind::Kind;
use es_tree::node::{Field, Node};

/// Whether a pattern moves out of the head of a loop of these fields: it is declared alone, and none of its names is asked on the right side,
/// which would ask it before it is set; or it is assigned to, and has a rest of its own.
pub fn moves_from_head(fields: &[Field]) -> bool
    ensures { result ≡ moves_from_head (plain_fields fields.now) }
{
    three_move(fields)
}

fn three_move(fields: &[Field]) -> bool
    ensures { result ≡ three_move (plain_fields fields.now) }
{
    match fields {
        [Field::One(head), Field::One(source), Field::One(..)] => head_moves(head, source),
        _ => false,
    }
}

fn head_moves(head: &Node, source: &Node) -> bool
    ensures { result ≡ head_moves head.now source.now }
{
    match &head.kind {
        Kind::VariableDeclaration { kind } => {
            list_moves(head.fields.as_slice(), is_var_word(*kind), source)
        }
        Kind::ObjectTarget => bears_rest(head),
        _ => false,
    }
}

fn list_moves(fields: &[Field], by_var: bool, source: &Node) -> bool
    ensures { result ≡ list_moves (plain_fields fields.now) by_var source.now }
{
    match fields {
        [Field::Many(declarators)] => only_moves(declarators.as_slice(), by_var, source),
        _ => false,
    }
}

/// Whether the only one of these declarators moves.
fn only_moves(declarators: &[Node], by_var: bool, source: &Node) -> bool
    ensures { result ≡ only_moves (trees declarators.now) by_var source.now }
{
    match declarators {
        [declarator] => declarator_moves(declarator, by_var, source),
        _ => false,
    }
}

fn declarator_moves(declarator: &Node, by_var: bool, source: &Node) -> bool
    ensures { result ≡ declarator_moves declarator.now by_var source.now }
{
    match &declarator.kind {
        Kind::VariableDeclarator => parts_move(declarator.fields.as_slice(), by_var, source),
        _ => false,
    }
}

/// Whether the pattern of a declarator of these parts moves, beside which no value stands.
fn parts_move(fields: &[Field], by_var: bool, source: &Node) -> bool
    ensures { result ≡ parts_move (plain_fields fields.now) by_var source.now }
{
    match fields {
        [Field::One(pattern), value] => is_missing(value) && pattern_moves(pattern, by_var, source),
        _ => false,
    }
}

fn is_missing(field: &Field) -> bool
    ensures { result ≡ is_missing (plain_field field.now) }
{
    matches!(field, Field::Missing)
}

fn pattern_moves(pattern: &Node, by_var: bool, source: &Node) -> bool
    ensures { result ≡ pattern_moves pattern.now by_var source.now }
{
    is_plain_pattern(pattern) && (by_var || !meets(pattern, source))
}
