//! What a node says by itself, read from the fields of a JSON value.
ghost use Rattle.std.specs.Prelude.{◌≡◌, IfOk, IfErr, option_map, true};
ghost use Rattle.serde_json.specs.View.{view};
ghost use Rattle.es_tree.specs.Attributes.{is_text, is_flag};
ghost use Rattle.es_tree.specs.Texts.{plain_text};
ghost use Rattle.es_json.specs.Values.{field_of, kind_here, IsOffset, TextIs, FlagIs};
ghost use Rattle.es_json.specs.declared.error.Step.{Step};
ghost use Rattle.es_json.specs.Faults.{here, under, offset_holds, content_holds, TellsFirst};

use crate::error::{ReadError, fault_at};
use es_tree::ast_type::AstType;
use es_tree::table::{Content, Entry, FieldName, Sort};
use serde_json::Value;
use std::alloc::Global;

/// The value of a field.
pub(crate) fn field_of(value: &Value, name: FieldName) -> Option<&Value>
    ensures { option_map (λ v. view v.now) result ≡ field_of name (view value.now) }
{
    value.get(name.as_str())
}

/// The kind that the value names, where a node of this sort may stand.
pub(crate) fn kind_here(value: &Value, sort: Sort) -> Option<AstType>
    ensures { result ≡ kind_here sort (view value.now) }
{
    let name = field_of(value, FieldName::Type)?.as_str()?;
    sort.kind_named(name)
}

/// An end of the node's span: a whole number below 2^32, 0 where absent.
pub(crate) fn read_offset(alloc: Global, value: &Value, name: FieldName) -> Result<u32, ReadError>
    ensures offset { IfOk result (λ n. IsOffset (field_of name (view value.now)) n) }
    ensures fault { IfErr result (λ e. TellsFirst e
        (under (Step.Field name) (here (offset_holds (field_of name (view value.now)))))) }
{
    let Some(found) = field_of(value, name) else {
        return Ok(0);
    };
    match found.as_u64() {
        Some(offset) if offset <= u64::from(u32::MAX) => Ok(offset as u32),
        _ => Err(fault_at(alloc, name)),
    }
}

/// The text of a field, or none where the field may be without.
pub(crate) fn read_text(
    alloc: Global,
    value: &Value,
    entry: Entry,
) -> Result<Option<&str>, ReadError>
    requires { is_text entry ≡ true }
    ensures text { IfOk result
        (λ t. TextIs entry.content (field_of entry.field (view value.now)) (plain_text t)) }
    ensures fault { IfErr result (λ e. TellsFirst e
        (under (Step.Field entry.field) (here (content_holds entry.content (field_of entry.field (view value.now)))))) }
{
    let found = field_of(value, entry.field);
    match entry.content {
        Content::Text(rule) => match found.and_then(Value::as_str) {
            Some(text) if rule.allows(text) => Ok(Some(text)),
            _ => Err(fault_at(alloc, entry.field)),
        },
        Content::OptionalText => match found {
            None => Ok(None),
            Some(found) if found.is_null() => Ok(None),
            Some(found) => match found.as_str() {
                Some(text) => Ok(Some(text)),
                None => Err(fault_at(alloc, entry.field)),
            },
        },
        _ => unreachable!(),
    }
}

/// The truth value of a field.
pub(crate) fn read_flag(alloc: Global, value: &Value, entry: Entry) -> Result<bool, ReadError>
    requires { is_flag entry ≡ true }
    ensures flag { IfOk result (λ b. FlagIs entry.content (field_of entry.field (view value.now)) b) }
    ensures fault { IfErr result (λ e. TellsFirst e
        (under (Step.Field entry.field) (here (content_holds entry.content (field_of entry.field (view value.now)))))) }
{
    let flag = match (entry.content, field_of(value, entry.field)) {
        (Content::Flag, None) => return Ok(false),
        (Content::RequiredFlag, None) => None,
        (Content::Flag | Content::RequiredFlag, Some(found)) => found.as_bool(),
        _ => unreachable!(),
    };
    match flag {
        Some(flag) => Ok(flag),
        None => Err(fault_at(alloc, entry.field)),
    }
}

/// Whether the field is absent, null or false.
fn is_absent(value: &Value, name: FieldName) -> bool
    ensures { result ≡ content_holds Content.Refused (field_of name (view value.now)) }
{
    match field_of(value, name) {
        None => true,
        Some(found) => found.is_null() || found.as_bool() == Some(false),
    }
}

/// Fails where something stands in a field that has no form.
pub(crate) fn refuse(alloc: Global, value: &Value, name: FieldName) -> Result<(), ReadError>
    ensures none { IfOk result (λ _. content_holds Content.Refused (field_of name (view value.now)) ≡ true) }
    ensures fault { IfErr result (λ e. TellsFirst e
        (under (Step.Field name) (here (content_holds Content.Refused (field_of name (view value.now)))))) }
{
    if is_absent(value, name) {
        return Ok(());
    }
    Err(fault_at(alloc, name))
}
