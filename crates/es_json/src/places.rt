//! What the fields of a JSON value ask of one another.
ghost use Rattle.std.specs.Prelude.{◌≡◌, option_map, codes};
ghost use Rattle.serde_json.specs.View.{view, items_view};
ghost use Rattle.es_json.specs.Values.{field_of, list_of, stands, is_word, is_in, is_computed, sort_in, counts_fit, value_agrees, sort_before};
ghost use Rattle.es_json.specs.Form.{elements_of};
ghost use Rattle.es_json.specs.Faults.{agrees_at};
ghost use Rattle.es_json.specs.Parts.{plain_place};

use crate::scalars::field_of;
use es_tree::ast_type::AstType;
use es_tree::table::{Content, Entry, FieldName, Often, Sort};
use serde_json::Value;

/// The list in a field, empty where absent.
pub(crate) fn list_of(value: &Value, name: FieldName) -> Option<&[Value]>
    ensures { option_map (λ s. items_view s.now) result ≡ list_of (field_of name (view value.now)) }
{
    match field_of(value, name) {
        None => Some(&[]),
        Some(found) => found.as_array().map(Vec::as_slice),
    }
}

/// Whether the field is neither absent nor null.
fn stands(value: &Value, name: FieldName) -> bool
    ensures { result ≡ stands (field_of name (view value.now)) }
{
    match field_of(value, name) {
        None => false,
        Some(found) => !found.is_null(),
    }
}

/// Whether the field holds this text.
fn is_word(value: &Value, name: FieldName, word: &str) -> bool
    ensures { result ≡ is_word word.now (field_of name (view value.now)) }
{
    match field_of(value, name).and_then(Value::as_str) {
        Some(text) => text == word,
        None => false,
    }
}

/// Whether the value says that its key or property is computed.
fn is_computed(value: &Value) -> bool
    ensures { result ≡ is_computed (view value.now) }
{
    field_of(value, FieldName::Computed).and_then(Value::as_bool) == Some(true)
}

/// The sort of a place in this value: a computed key or property is any expression, and a private
/// name stands only at the left of `in` (ECMA-262, 13.10).
pub(crate) fn sort_in(value: &Value, sort: Sort) -> Sort
    ensures { result ≡ sort_in (view value.now) sort }
{
    match sort {
        Sort::PropertyKey | Sort::MemberProperty if is_computed(value) => Sort::Expression,
        Sort::BinaryLeft if !is_word(value, FieldName::Operator, "in") => Sort::Expression,
        _ => sort,
    }
}

/// Whether there is one quasi more than expressions, where both are lists.
fn counts_fit(value: &Value) -> bool
    ensures { result ≡ counts_fit (list_of (field_of FieldName.Quasis (view value.now))) (list_of (field_of FieldName.Expressions (view value.now))) }
{
    match (
        list_of(value, FieldName::Quasis),
        list_of(value, FieldName::Expressions),
    ) {
        (Some(quasis), Some(expressions)) => quasis.len() == expressions.len() + 1,
        _ => true,
    }
}

/// Whether the fields of a node of this kind agree, where this is the field at which that is told: a
/// template has one quasi more than expressions (ECMA-262, 13.2.8), a `try` a handler or a finalizer
/// (14.15), and a meta property is one of the two.
pub(crate) fn agrees_at(value: &Value, ast_type: AstType, name: FieldName) -> bool
    ensures { result ≡ agrees_at ast_type name (view value.now) }
{
    match (ast_type, name) {
        (AstType::TemplateLiteral, FieldName::Quasis) => counts_fit(value),
        (AstType::TryStatement, FieldName::Handler) => stands(value, FieldName::Handler)
            || stands(value, FieldName::Finalizer),
        (AstType::MetaProperty, FieldName::Property) => is_meta_property(value),
        _ => true,
    }
}

/// Whether a meta property is `new.target` or `import.meta` (ECMA-262, 13.3.12).
fn is_meta_property(value: &Value) -> bool
    ensures { result ≡ value_agrees AstType.MetaProperty (view value.now) }
{
    is_word(value, FieldName::Meta, "new") && is_word(value, FieldName::Property, "target")
        || is_word(value, FieldName::Meta, "import") && is_word(value, FieldName::Property, "meta")
}

/// The elements of an array: their field, the sort of each, and the sort of the last.
#[derive(Clone, Copy)]
pub(crate) struct ElementsPlace {
    pub(crate) field: FieldName,
    pub(crate) sort: Sort,
    pub(crate) last: Sort,
}

/// The place of the elements where these fields are an array's.
pub(crate) fn elements_of(entries: &[Entry]) -> Option<ElementsPlace>
    ensures { option_map plain_place result ≡ elements_of entries.now }
{
    let [entry] = entries else {
        return None;
    };
    match entry.content {
        Content::Child(sort, Often::Elements) => Some(ElementsPlace {
            field: entry.field,
            sort,
            last: sort,
        }),
        Content::Child(sort, Often::ElementsWithRest) => {
            Some(ElementsPlace {
                field: entry.field,
                sort,
                last: sort.with_rest(),
            })
        }
        _ => None,
    }
}

/// The sort of the item before these.
pub(crate) fn sort_before(sort: Sort, last: Sort, rest: &[Value]) -> Sort
    ensures { result ≡ sort_before sort last (items_view rest.now) }
{
    match rest {
        [] => last,
        [_, ..] => sort,
    }
}
