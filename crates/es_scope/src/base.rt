//! The bases of fresh names: what a node or a text gives to a name that is made for it.
ghost use Rattle.std.specs.Prelude.{◌≡◌, ◌++◌, map, IfOk, OnOk, string_bytes};
ghost use Rattle.es_tree.specs.Fresh.{parts, without_underscores, first_characters, longest_base, without_last_digits, or_ref, text_base, node_base};

use es_tree::kind::Kind;
use es_tree::node::Node;
use std::alloc::{AllocError, Global};

/// The most characters that the base of a node keeps.
const LONGEST_BASE: usize = 20;

/// The base of the names that are made for a node: the names in it, joined by `$`, without leading
/// underscores, cut to 20 characters, without trailing digits; `ref` where nothing is left.
///
/// An identifier gives its name, `this` and `super` themselves, a member its object's names and its
/// property's, a call its callee's, an assignment its left side's, and other nodes give none.
/// Answers an error only for want of memory.
pub fn base_of_node(alloc: Global, node: &Node) -> Result<String, AllocError>
    ensures { IfOk result (λ base. string_bytes base ≡ node_base node.now) }
{
    let mut names = Vec::new(alloc);
    push_parts(&mut names, node)?;
    let joined = names.join(alloc, "$")?;
    let kept = first_characters(without_underscores(joined.as_str()));
    or_ref(alloc, without_last_digits(kept))
}

/// The base of the names that are made for a text: the text without leading underscores and trailing
/// digits; `ref` where nothing is left. Answers an error only for want of memory.
pub fn base_of_text(alloc: Global, text: &str) -> Result<String, AllocError>
    ensures { IfOk result (λ base. string_bytes base ≡ text_base text.now) }
{
    or_ref(alloc, without_last_digits(without_underscores(text)))
}

/// Appends the names that a node gives to its base.
fn push_parts<'a>(names: &mut Vec<&'a str>, node: &'a Node) -> Result<(), AllocError>
    ensures { OnOk result (map (λ t. t.now) names.new.items ≡ map (λ t. t.now) names.old.items ++ parts node.now) }
{
    match &node.kind {
        Kind::Identifier { name, .. } => names.push(name.as_str())?,
        Kind::PrivateIdentifier { name } => names.push(name.as_str())?,
        Kind::ThisExpression => names.push("this")?,
        Kind::Super => names.push("super")?,
        Kind::MemberExpression { .. } => {
            if let Some(object) = node.child_at(0) {
                push_parts(names, object)?;
            }
            if let Some(property) = node.child_at(1) {
                push_parts(names, property)?;
            }
        }
        Kind::CallExpression { .. }
        | Kind::NewExpression
        | Kind::AssignmentExpression { .. }
        | Kind::ParenthesizedExpression
        | Kind::ChainExpression => {
            if let Some(child) = node.child_at(0) {
                push_parts(names, child)?;
            }
        }
        _ => {}
    }
    Ok(())
}

fn without_underscores(text: &str) -> &str
    ensures { result.now ≡ without_underscores text.now }
{
    text.trim_start_matches('_')
}

fn without_last_digits(text: &str) -> &str
    ensures { result.now ≡ without_last_digits text.now }
{
    text.trim_end_matches(|c: char| c.is_ascii_digit())
}

/// At most the first 20 characters.
fn first_characters(text: &str) -> &str
    ensures { result.now ≡ first_characters longest_base text.now }
{
    let mut kept = 0;
    for index in 0..text.len() {
        if text.is_char_boundary(index) {
            if kept == LONGEST_BASE {
                return &text[..index];
            }
            kept += 1;
        }
    }
    text
}

/// The text, or `ref` where it is empty.
fn or_ref(alloc: Global, text: &str) -> Result<String, AllocError>
    ensures { IfOk result (λ base. string_bytes base ≡ or_ref text.now) }
{
    String::from_str(alloc, if text.is_empty() { "ref" } else { text })
}
