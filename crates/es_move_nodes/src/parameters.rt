//! Parameters of functions (ECMA-262, 10.2.11) out of which a pattern moves: `function f({ a, ...b } = c) { }`.
ghost use Rattle.std.specs.Prelude.{◌≡◌};
ghost use Rattle.es_tree.specs.Tree.{empty, trees};
ghost use Rattle.es_tree.specs.Views.{plain_fields};
ghost use Rattle.es_move_nodes.specs.MoveFields.{holds_plain_pattern, is_stuck, meets_value, moves_in_statements};
ghost use Rattle.es_pattern_moves.specs.PatternMoves.{all_may_move, all_move, are_later, default_apart, is_later, is_rest_parameter, may_move, moves_from_arrow, moves_from_function, moves_with_body, pattern_of};
ghost use Rattle.es_rest_shapes.specs.RestShapes.{any_tree};

use crate::bound::binds_let;
use crate::standing::{meets, meets_among, meets_declared};
use es_rest_nodes::patterns::{is_name, is_named_rest, is_plain_pattern};
use es_tree::kind::Kind;
use es_tree::node::{Field, Node};

/// Whether a pattern moves out of the parameters of a function of these fields, which begin with its name.
pub fn moves_from_function(fields: &[Field]) -> bool
    ensures { result ≡ moves_from_function (plain_fields fields.now) }
{
    match fields {
        [_, Field::Many(parameters), Field::One(body)] => {
            moves_with_body(parameters.as_slice(), body)
        }
        _ => false,
    }
}

/// Whether a pattern moves out of the parameters of an arrow function of these fields.
pub fn moves_from_arrow(fields: &[Field]) -> bool
    ensures { result ≡ moves_from_arrow (plain_fields fields.now) }
{
    match fields {
        [Field::Many(parameters), Field::One(body)] => moves_with_body(parameters.as_slice(), body),
        _ => false,
    }
}

/// Whether a pattern moves out of these parameters into this body, which an arrow function may have as an expression.
fn moves_with_body(parameters: &[Node], body: &Node) -> bool
    ensures { result ≡ moves_with_body (trees parameters.now) body.now }
{
    match &body.kind {
        Kind::FunctionBody { .. } => moves_in_statements(parameters, body.fields.as_slice()),
        _ => all_move(parameters, std::slice::from_ref(body)),
    }
}

fn moves_in_statements(parameters: &[Node], fields: &[Field]) -> bool
    ensures { result ≡ moves_in_statements (trees parameters.now) (plain_fields fields.now) }
{
    match fields {
        [Field::Many(..), Field::Statements(statements)] => {
            all_move(parameters, statements.as_slice())
        }
        _ => false,
    }
}

/// Whether some of these parameters are patterns with a rest, and all of those move into the body of these statements.
fn all_move(parameters: &[Node], statements: &[Node]) -> bool
    ensures { result ≡ all_move (trees parameters.now) (trees statements.now) }
{
    any_rest_parameter(parameters) && all_may_move(parameters, statements)
}

fn any_rest_parameter(parameters: &[Node]) -> bool
    ensures { result ≡ any_tree is_rest_parameter (trees parameters.now) }
{
    parameters
        .iter()
        .any(|parameter| is_rest_parameter(parameter))
}

/// Whether each of these parameters that is a pattern with a rest moves.
fn all_may_move(parameters: &[Node], statements: &[Node]) -> bool
    ensures { result ≡ all_may_move empty (trees parameters.now) (trees statements.now) }
{
    for (index, parameter) in parameters.iter().enumerate() {
        let earlier = &parameters[..index];
        let later = &parameters[index + 1..];
        if is_stuck(earlier, parameter, later, statements) {
            return false;
        }
    }
    true
}

/// Whether the parameter is a pattern with a rest that doesn't move.
fn is_stuck(earlier: &[Node], parameter: &Node, later: &[Node], statements: &[Node]) -> bool
    ensures { result ≡ is_stuck (trees earlier.now) parameter.now (trees later.now) (trees statements.now) }
{
    is_rest_parameter(parameter) && !may_move(earlier, parameter, later, statements)
}

/// Whether a parameter moves to a `let` declaration in a body of these statements, by what stands before it and after it: none of the other
/// parameters holds a name that it binds, it holds none that is bound after it, and it doesn't bind `let`.
pub fn may_move(earlier: &[Node], parameter: &Node, later: &[Node], statements: &[Node]) -> bool
    ensures { result ≡ may_move (trees earlier.now) parameter.now (trees later.now) (trees statements.now) }
{
    let pattern = pattern_of(parameter);
    are_later(later)
        && !meets_among(pattern, earlier)
        && !meets_among(pattern, later)
        && is_default_apart(parameter)
        && !binds_let(pattern)
        && !meets_declared(later, statements, pattern)
}

/// Whether the parameter is a plain pattern with a rest, alone or with a default value.
pub fn is_rest_parameter(node: &Node) -> bool
    ensures { result ≡ is_rest_parameter node.now }
{
    match &node.kind {
        Kind::AssignmentPattern => holds_plain_pattern(node.fields.as_slice()),
        _ => is_plain_pattern(node),
    }
}

/// Whether these are two, and the first of them is a plain pattern with a rest.
fn holds_plain_pattern(fields: &[Field]) -> bool
    ensures { result ≡ holds_plain_pattern (plain_fields fields.now) }
{
    match fields {
        [Field::One(pattern), Field::One(..)] => is_plain_pattern(pattern),
        _ => false,
    }
}

/// The pattern of a parameter, without its default value.
pub fn pattern_of(parameter: &Node) -> &Node
    ensures { result.now ≡ pattern_of parameter.now }
{
    match &parameter.kind {
        Kind::AssignmentPattern => match parameter.child_at(0) {
            Some(pattern) => pattern,
            None => parameter,
        },
        _ => parameter,
    }
}

/// Whether the default value holds none of the pattern's names.
fn is_default_apart(parameter: &Node) -> bool
    ensures { result ≡ default_apart parameter.now }
{
    match &parameter.kind {
        Kind::AssignmentPattern => !meets_value(parameter.fields.as_slice()),
        _ => true,
    }
}

fn meets_value(fields: &[Field]) -> bool
    ensures { result ≡ meets_value (plain_fields fields.now) }
{
    match fields {
        [Field::One(pattern), Field::One(value)] => meets(pattern, value),
        _ => false,
    }
}

fn are_later(parameters: &[Node]) -> bool
    ensures { result ≡ are_later (trees parameters.now) }
{
    parameters.iter().all(|parameter| is_later(parameter))
}

/// Whether the parameter may be bound before a pattern that stands before it is: nothing is evaluated for it, or it moves, too.
fn is_later(parameter: &Node) -> bool
    ensures { result ≡ is_later parameter.now }
{
    match &parameter.kind {
        Kind::RestElement => is_named_rest(parameter),
        _ => is_name(parameter) || is_plain_pattern(parameter),
    }
}
