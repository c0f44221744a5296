//! Keys whose text stands in the program: literals, and templates without expressions (ECMA-262, 13.2.3 and 13.2.8).
ghost use Rattle.std.specs.Prelude.{◌≡◌, IfOk, option_copied, string_bytes};
ghost use Rattle.es_tree.specs.Tree.{trees};
ghost use Rattle.es_tree.specs.Views.{plain_field, plain_fields};
ghost use Rattle.es_runs.specs.Duplication.{has_no_fields};
ghost use Rattle.es_tree.specs.PropertyKeys.{boolean_text, is_literal_key, key_text, literal_text, template_text};
ghost use Rattle.es_rest_nodes.specs.RestFields.{element_text, lists_text, sole_text};

use es_tree::kind::Kind;
use es_tree::node::{Field, Node};
use std::alloc::{AllocError, Global};

/// The text of a literal as a key, or of a template without expressions: `"null"` for `null`, and `"16"` for `0x10`. None for any other node.
pub fn literal_text(literal: &Node) -> Option<&str>
    ensures { option_copied result ≡ literal_text literal.now }
{
    match &literal.kind {
        Kind::NullLiteral => return Some("null"),
        Kind::BooleanLiteral { value } => return Some(boolean_text(*value)),
        Kind::NumericLiteral { key, .. } | Kind::BigIntLiteral { key, .. } => Some(key.as_str()),
        Kind::StringLiteral { value } => Some(value.as_str()),
        Kind::TemplateLiteral => template_text(literal.fields.as_slice()),
        _ => None,
    }
}

/// The text of a key: that of a literal, `"16"` for `0x10`, or the one that it has, `"a"` for `a`.
pub fn key_text(key: &Node, alloc: Global) -> Result<String, AllocError>
    ensures { IfOk result (λ text. string_bytes text ≡ key_text key.now) }
{
    if let Some(text) = literal_text(key) {
        return String::from_str(alloc, text);
    }
    match key.kind.text(0) {
        Some(text) => String::from_str(alloc, text),
        None => Ok(String::new(alloc)),
    }
}

fn boolean_text(value: bool) -> &'static str
    ensures { result.now ≡ boolean_text value }
{
    if value { "true" } else { "false" }
}

/// Whether a key is a literal, or a template without expressions.
pub fn is_literal_key(key: &Node) -> bool
    ensures { result ≡ is_literal_key key.now }
{
    literal_text(key).is_some()
}

pub(crate) fn has_no_fields(fields: &[Field]) -> bool
    ensures { result ≡ has_no_fields (plain_fields fields.now) }
{
    matches!(fields, [])
}

/// The text of a template of these fields, as it is evaluated, where it has no expressions.
fn template_text(fields: &[Field]) -> Option<&str>
    ensures { option_copied result ≡ template_text (plain_fields fields.now) }
{
    match fields {
        [elements, expressions] => lists_text(elements, expressions),
        _ => None,
    }
}

/// The same of its two lists.
fn lists_text<'a>(elements: &'a Field, expressions: &Field) -> Option<&'a str>
    ensures { option_copied result ≡ lists_text (plain_field elements.now) (plain_field expressions.now) }
{
    match (elements, expressions) {
        (Field::Many(elements), Field::Many(expressions)) => {
            sole_text(elements.as_slice(), expressions.as_slice())
        }
        _ => None,
    }
}

/// The same of what stands in them.
fn sole_text<'a>(elements: &'a [Node], expressions: &[Node]) -> Option<&'a str>
    ensures { option_copied result ≡ sole_text (trees elements.now) (trees expressions.now) }
{
    match (elements, expressions) {
        ([element], []) => element_text(element),
        _ => None,
    }
}

/// The text of an element of a template, if it gives one.
fn element_text(element: &Node) -> Option<&str>
    ensures { option_copied result ≡ element_text element.now }
{
    match &element.kind {
        Kind::TemplateElement {
            cooked: Some(text),
            ..
        } => Some(text.as_str()),
        _ => None,
    }
}
