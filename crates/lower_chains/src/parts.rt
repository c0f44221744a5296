//! Which nodes are chains with a mark, and which are lowered with one: what calls it, and what deletes it.
ghost use Rattle.std.specs.Prelude.{◌≡◌};
ghost use Rattle.es_tree.specs.Views.{plain_fields};
ghost use Rattle.lower_temporaries.specs.Parenthesized.{first_child};
ghost use Rattle.lower_chains.specs.Spines.{calls_chain, deletes_chain, has_chain, has_mark, is_call_pair, is_call_step, is_content, is_delete, is_marked_chain, is_member_step, is_optional, is_parenthesized, is_plain_call, is_plain_member, is_single, is_step};

use es_tree::kind::Kind;
use es_tree::node::{Field, Node};
use es_tree::operators::UnaryOperator;
use lower_temporaries::shapes::is_pair;

/// Whether these are one child and no more.
pub(crate) fn is_single(fields: &[Field]) -> bool
    ensures { result ≡ is_single (plain_fields fields.now) }
{
    matches!(fields, [Field::One(..)])
}

/// Whether these are a child and a list, as a callee and arguments.
pub(crate) fn is_call_pair(fields: &[Field]) -> bool
    ensures { result ≡ is_call_pair (plain_fields fields.now) }
{
    matches!(fields, [Field::One(..), Field::Many(..)])
}

/// Whether a node is a member with an object and a key.
pub(crate) fn is_member_step(node: &Node) -> bool
    ensures { result ≡ is_member_step node.now }
{
    match &node.kind {
        Kind::MemberExpression { .. } => is_pair(node.fields.as_slice()),
        _ => false,
    }
}

/// Whether a node is a call with a callee and arguments.
pub(crate) fn is_call_step(node: &Node) -> bool
    ensures { result ≡ is_call_step node.now }
{
    match &node.kind {
        Kind::CallExpression { .. } => is_call_pair(node.fields.as_slice()),
        _ => false,
    }
}

/// Whether a node is a step of a spine, with the fields of its kind.
fn is_step(node: &Node) -> bool
    ensures { result ≡ is_step node.now }
{
    match &node.kind {
        Kind::MemberExpression { .. } => is_pair(node.fields.as_slice()),
        Kind::CallExpression { .. } => is_call_pair(node.fields.as_slice()),
        _ => false,
    }
}

/// Whether a node has an optional mark.
fn is_optional(node: &Node) -> bool
    ensures { result ≡ is_optional node.now }
{
    match &node.kind {
        Kind::MemberExpression { optional, .. } => *optional,
        Kind::CallExpression { optional } => *optional,
        _ => false,
    }
}

/// Whether a node is a chain with a content.
pub(crate) fn is_content(node: &Node) -> bool
    ensures { result ≡ is_content node.now }
{
    match &node.kind {
        Kind::ChainExpression => is_single(node.fields.as_slice()),
        _ => false,
    }
}

/// Whether a node is an expression in parentheses.
pub(crate) fn is_parenthesized(node: &Node) -> bool
    ensures { result ≡ is_parenthesized node.now }
{
    match &node.kind {
        Kind::ParenthesizedExpression => is_single(node.fields.as_slice()),
        _ => false,
    }
}

/// Whether a node is a call with a callee and arguments, and without an optional mark.
fn is_plain_call(node: &Node) -> bool
    ensures { result ≡ is_plain_call node.now }
{
    match &node.kind {
        Kind::CallExpression { optional } => !*optional && is_call_pair(node.fields.as_slice()),
        _ => false,
    }
}

/// Whether a node is `delete` of an operand.
fn is_delete(node: &Node) -> bool
    ensures { result ≡ is_delete node.now }
{
    match &node.kind {
        Kind::UnaryExpression { operator } => {
            matches!(operator, UnaryOperator::Delete) && is_single(node.fields.as_slice())
        }
        _ => false,
    }
}

/// Whether a node is a member with an object and a key, and without an optional mark.
pub(crate) fn is_plain_member(node: &Node) -> bool
    ensures { result ≡ is_plain_member node.now }
{
    match &node.kind {
        Kind::MemberExpression { optional, .. } => !*optional && is_pair(node.fields.as_slice()),
        _ => false,
    }
}

/// The first child of a node, or the node itself: the object of a member, the callee of a call.
pub(crate) fn first_child(node: &Node) -> &Node
    ensures { result.now ≡ first_child node.now }
{
    match node.fields.first() {
        Some(Field::One(child)) => child,
        _ => node,
    }
}

/// Whether the spine from a node on has an optional mark.
fn has_mark(node: &Node) -> bool
    ensures { result ≡ has_mark node.now }
{
    let mut step = node;
    while is_step(step) {
        if is_optional(step) {
            return true;
        }
        step = first_child(step);
    }
    false
}

/// Whether a node is a chain with a mark.
pub(crate) fn is_marked_chain(node: &Node) -> bool
    ensures { result ≡ is_marked_chain node.now }
{
    is_content(node) && has_mark(first_child(node))
}

/// Whether a node is a chain with a mark, maybe in parentheses.
fn has_chain(node: &Node) -> bool
    ensures { result ≡ has_chain node.now }
{
    let mut inner = node;
    while is_parenthesized(inner) {
        inner = first_child(inner);
    }
    is_marked_chain(inner)
}

/// Whether a node is a call without a mark of such a chain.
pub(crate) fn calls_chain(node: &Node) -> bool
    ensures { result ≡ calls_chain node.now }
{
    is_plain_call(node) && has_chain(first_child(node))
}

/// Whether a node is `delete` of such a chain.
pub(crate) fn deletes_chain(node: &Node) -> bool
    ensures { result ≡ deletes_chain node.now }
{
    is_delete(node) && has_chain(first_child(node))
}
