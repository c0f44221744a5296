//! The static rules of labels and jumps.
ghost use Rattle.std.specs.Prelude.{◌≡◌, ◌&&◌, bytes_eq, option_copied};
ghost use Rattle.std.specs.List.{list_any};
ghost use Rattle.es_tree.specs.Ancestors.{has_loop_body, is_breakable, is_in_loop, is_labeled_loop, labels, leads_by};
ghost use Rattle.es_tree.specs.Scopes.{name_in, own_text};
ghost use Rattle.es_tree.specs.StaticRules.{is_duplicate_label, is_label, is_loop_label, is_missing_label};
ghost use Rattle.es_tree.specs.Tree.{fields_of};
ghost use Rattle.es_static_rules.specs.Outward.{outward, plain_ancestor};
ghost use Rattle.es_static_rules.specs.Parts.{has_break_target, has_continue_target};

use crate::ancestors::{Ancestor, is_boundary, is_loop, is_switch, split_parent, stands_in};
use es_tree::ast_type::AstType;
use es_tree::kind::Kind;
use es_tree::node::Node;

/// Whether the node is a `break` or a `continue` that leads nowhere (ECMA-262, 14.8.1, 14.9.1).
pub(crate) fn is_missing_label(ancestors: &[Ancestor], node: &Node) -> bool
    ensures { result ≡ is_missing_label (outward ancestors.now) node.now }
{
    match &node.kind {
        Kind::BreakStatement => !has_break_target(ancestors, node.child_at(0)),
        Kind::ContinueStatement => !has_continue_target(ancestors, node.child_at(0)),
        _ => false,
    }
}

fn has_break_target(ancestors: &[Ancestor], label: Option<&Node>) -> bool
    ensures { result ≡ has_break_target (outward ancestors.now) (option_copied label.entry) }
{
    match label {
        Some(label) => has_label(ancestors, own_text(label)),
        None => is_breakable(ancestors),
    }
}

fn has_continue_target(ancestors: &[Ancestor], label: Option<&Node>) -> bool
    ensures { result ≡ has_continue_target (outward ancestors.now) (option_copied label.entry) }
{
    match label {
        Some(label) => has_loop_label(ancestors, own_text(label)),
        None => is_in_loop(ancestors),
    }
}

/// Whether the node is a label inside a statement with the same label (ECMA-262, 14.13.1).
pub(crate) fn is_duplicate_label(ancestors: &[Ancestor], node: &Node) -> bool
    ensures { result ≡ is_duplicate_label (outward ancestors.now) node.now }
{
    match &node.kind {
        Kind::Identifier { name, .. } => {
            stands_in(ancestors, AstType::LabeledStatement, 0)
                && has_label(ancestors, name.as_str())
        }
        _ => false,
    }
}

/// Whether this label is around, in the same function or static block.
fn has_label(ancestors: &[Ancestor], label: &str) -> bool
    ensures { result ≡ list_any (is_label label.now) (labels (outward ancestors.now)) }
{
    match split_parent(ancestors) {
        Some((parent, outer)) => {
            !is_boundary(parent.kind()) && (is_labeled(parent, label) || has_label(outer, label))
        }
        None => false,
    }
}

/// Whether this label is around before a loop, in the same function or static block.
fn has_loop_label(ancestors: &[Ancestor], label: &str) -> bool
    ensures { result ≡ list_any (is_loop_label label.now) (labels (outward ancestors.now)) }
{
    match split_parent(ancestors) {
        Some((parent, outer)) => {
            !is_boundary(parent.kind())
                && ((is_labeled(parent, label) && has_loop_body(parent.node))
                    || has_loop_label(outer, label))
        }
        None => false,
    }
}

/// Whether the ancestor gives its body this label.
fn is_labeled(ancestor: &Ancestor, label: &str) -> bool
    ensures { result ≡ (leads_by AstType.LabeledStatement 1 (plain_ancestor ancestor.now) && bytes_eq (name_in (plain_ancestor ancestor.now).fields) label.now) }
{
    ancestor.leads_by(AstType::LabeledStatement, 1) && name_in(ancestor.node) == label
}

/// The name in the first field of a node, or the empty text.
fn name_in(node: &Node) -> &str
    ensures { result.now ≡ name_in (fields_of node.now) }
{
    match node.child_at(0) {
        Some(name) => own_text(name),
        None => "",
    }
}

/// The first text of a node, or the empty one.
pub(crate) fn own_text(node: &Node) -> &str
    ensures { result.now ≡ own_text node.now }
{
    node.kind.text(0).unwrap_or("")
}

/// Whether the body of a labeled statement is a loop, maybe with further labels.
#[cycle(labeled)]
fn has_loop_body(node: &Node) -> bool
    ensures { result ≡ has_loop_body (fields_of node.now) }
{
    match node.child_at(1) {
        Some(body) => is_labeled_loop(body),
        None => false,
    }
}

#[cycle(labeled)]
fn is_labeled_loop(node: &Node) -> bool
    ensures { result ≡ is_labeled_loop node.now }
{
    match &node.kind {
        Kind::LabeledStatement => has_loop_body(node),
        kind => is_loop(kind.ast_type()),
    }
}

/// Whether a loop is around, in the same function or static block.
fn is_in_loop(ancestors: &[Ancestor]) -> bool
    ensures { result ≡ is_in_loop (outward ancestors.now) }
{
    match split_parent(ancestors) {
        Some((parent, outer)) => {
            !is_boundary(parent.kind()) && (is_loop(parent.kind()) || is_in_loop(outer))
        }
        None => false,
    }
}

/// Whether a loop or a `switch` is around, in the same function or static block.
fn is_breakable(ancestors: &[Ancestor]) -> bool
    ensures { result ≡ is_breakable (outward ancestors.now) }
{
    match split_parent(ancestors) {
        Some((parent, outer)) => {
            !is_boundary(parent.kind())
                && (is_loop(parent.kind()) || is_switch(parent.kind()) || is_breakable(outer))
        }
        None => false,
    }
}
