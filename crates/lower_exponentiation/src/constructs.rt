//! Which exponentiations are lowered (ECMA-262, 13.6 and 13.15).
ghost use Rattle.std.specs.Prelude.{◌≡◌, [], ◌∷◌, false};
ghost use Rattle.es_tree.specs.Constructs.{is_big_int, is_private_name};
ghost use Rattle.es_tree.specs.Tree.{fields_of, kind_of, label_of};
ghost use Rattle.es_tree.specs.Views.{plain_fields};
ghost use Rattle.es_runs.specs.Exponentiation.{is_literal_key};
ghost use Rattle.lower_exponentiation.specs.Exponentiations.{has_exponentiation_key, has_exponentiation_member, has_operands, has_sides, is_evaluated_key, is_exponentiation_target, is_expression_key, is_lowerable_exponentiation};

use es_tree::kind::Kind;
use es_tree::node::{Field, Node};
use es_tree::operators::{AssignmentOperator, BinaryOperator};
use es_tree::parens::strip_parens;

/// Whether the node is an exponentiation with its operands, or its target and its right side.
pub(crate) fn is_lowerable(node: &Node) -> bool
    ensures { result ≡ is_lowerable_exponentiation (kind_of node.now) (label_of node.now) (fields_of node.now) }
{
    match &node.kind {
        Kind::BinaryExpression { operator } => {
            matches!(operator, BinaryOperator::Exponential) && has_operands(node.fields.as_slice())
        }
        Kind::AssignmentExpression { operator } => {
            matches!(operator, AssignmentOperator::Exponential) && has_sides(node.fields.as_slice())
        }
        _ => false,
    }
}

/// Whether these are the sides of a `**` without a BigInt literal.
fn has_operands(fields: &[Field]) -> bool
    ensures { result ≡ has_operands (plain_fields fields.now) }
{
    match fields {
        [Field::One(left), Field::One(right)] => !is_big_int(left) && !is_big_int(right),
        _ => false,
    }
}

/// Whether these are the target of a `**=`, and a right side that is no BigInt literal.
fn has_sides(fields: &[Field]) -> bool
    ensures { result ≡ has_sides (plain_fields fields.now) }
{
    match fields {
        [Field::One(target), Field::One(right)] => {
            !is_big_int(right) && is_target(strip_parens(target))
        }
        _ => false,
    }
}

/// Whether a target is a name or a member without an optional mark.
fn is_target(target: &Node) -> bool
    ensures { result ≡ is_exponentiation_target target.now }
{
    match &target.kind {
        Kind::Identifier { .. } => target.fields.is_empty(),
        Kind::MemberExpression { computed, optional } => {
            !*optional && is_object_with_key(*computed, target.fields.as_slice())
        }
        _ => false,
    }
}

/// Whether these are an object and the key of a member, which is a name or stands between brackets.
fn is_object_with_key(computed: bool, fields: &[Field]) -> bool
    ensures { result ≡ has_exponentiation_member (computed ∷ false ∷ []) (plain_fields fields.now) }
{
    match fields {
        [Field::One(..), Field::One(key)] => computed || is_name_key(key),
        _ => false,
    }
}

/// Whether a key without brackets is a name or a private name.
fn is_name_key(key: &Node) -> bool
    ensures { result ≡ has_exponentiation_key (false ∷ false ∷ []) key.now }
{
    match &key.kind {
        Kind::Identifier { .. } | Kind::PrivateIdentifier { .. } => key.fields.is_empty(),
        _ => false,
    }
}

/// Whether a key is evaluated: one between brackets that is no literal.
pub(crate) fn is_evaluated_key(computed: bool, key: &Node) -> bool
    ensures { result ≡ is_evaluated_key computed key.now }
{
    computed && !is_literal_key(key)
}

/// Whether a key stands between brackets in what is made: each but a private name.
pub(crate) fn is_expression_key(computed: bool, key: &Node) -> bool
    ensures { result ≡ is_expression_key computed key.now }
{
    computed || !is_private_name(key)
}

/// Whether a key between brackets is a literal that is written down again. A regular expression is none.
fn is_literal_key(key: &Node) -> bool
    ensures { result ≡ is_literal_key key.now }
{
    match &key.kind {
        Kind::NullLiteral
        | Kind::BooleanLiteral { .. }
        | Kind::NumericLiteral { .. }
        | Kind::BigIntLiteral { .. }
        | Kind::StringLiteral { .. } => key.fields.is_empty(),
        _ => false,
    }
}

fn is_big_int(node: &Node) -> bool
    ensures { result ≡ is_big_int (kind_of node.now) }
{
    match &node.kind {
        Kind::BigIntLiteral { .. } => true,
        _ => false,
    }
}

pub(crate) fn is_private_name(node: &Node) -> bool
    ensures { result ≡ is_private_name (kind_of node.now) }
{
    match &node.kind {
        Kind::PrivateIdentifier { .. } => true,
        _ => false,
    }
}
