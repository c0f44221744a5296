//! The reader of the tree form: one recursion, driven by the table of fields.
ghost use Rattle.std.specs.Prelude.{◌≡◌, ◌+◌, Some, None, IfOk, IfErr, option_map, map, false};
ghost use Rattle.serde_json.specs.View.{view, items_view};
ghost use Rattle.es_tree.specs.Heads.{head_of};
ghost use Rattle.es_tree.specs.Order.{IsNumbered, IsUnmarked};
ghost use Rattle.es_tree.specs.Table.{entries};
ghost use Rattle.es_tree.specs.Tree.{tree_size, trees};
ghost use Rattle.es_tree.specs.Views.{plain_field, plain_fields};
ghost use Rattle.es_json.specs.Values.{field_of, list_of, IsOffset};
ghost use Rattle.es_json.specs.Form.{IsForm, IsElement, AreItems, AreElements, elements_of};
ghost use Rattle.es_json.specs.Faults.{faults, under, span_faults, fields_faults, unless_null, whole_list_faults, whole_child_faults, holds_elements, TellsFirst};
ghost use Rattle.es_json.specs.New.{IsNewField, AreNewFields, AreNewTrees};
ghost use Rattle.es_json.specs.Parts.{plain_place, IsChildOf, AreParts};

use crate::error::{ReadError, Step, fault_at};
use crate::places::{ElementsPlace, agrees_at, elements_of, list_of, sort_before, sort_in};
use crate::scalars::{field_of, kind_here, read_flag, read_offset, read_text, refuse};
use es_tree::ast_type::AstType;
use es_tree::builder::AstBuilder;
use es_tree::ids::{NodeId, Span};
use es_tree::kind::Kind;
use es_tree::node::{Field, Node};
use es_tree::table::{Content, Entry, FieldName, Often, Sort};
use serde_json::Value;
use std::alloc::Global;

/// The next id, where there is one.
fn new_id(ast: &mut AstBuilder) -> Result<NodeId, ReadError>
    ensures id { IfOk result (λ id. id.0 ≡ ast.old.next) }
    ensures counted { IfOk result (λ _. ast.new.next ≡ ast.old.next + 1) }
    ensures memory { IfErr result (λ e. e ≡ ReadError.OutOfMemory) }
{
    if ast.next == u32::MAX {
        return Err(ReadError::OutOfMemory);
    }
    Ok(ast.new_id())
}

/// The span of a node.
fn read_span(alloc: Global, value: &Value) -> Result<Span, ReadError>
    ensures start { IfOk result (λ span. IsOffset (field_of FieldName.Start (view value.now)) span.start) }
    ensures stop { IfOk result (λ span. IsOffset (field_of FieldName.End (view value.now)) span.end) }
    ensures fault { IfErr result (λ e. TellsFirst e (span_faults (view value.now))) }
{
    let start = read_offset(alloc, value, FieldName::Start)?;
    let end = read_offset(alloc, value, FieldName::End)?;
    Ok(Span { start, end })
}

/// Reads a node at a place of this sort. Its ids are the next of `ast`, in node order.
///
/// Fails with `Shape` and the first place that fails by itself, where there is one, and with
/// `OutOfMemory` where memory or ids run out.
#[cycle(read)]
pub fn read_node(value: &Value, sort: Sort, ast: &mut AstBuilder) -> Result<Node, ReadError>
    ensures form { IfOk result (λ node. IsForm sort (view value.now) node) }
    ensures order { IfOk result (λ node. IsNumbered ast.old.next node) }
    ensures marks { IfOk result (λ node. IsUnmarked node) }
    ensures counted { IfOk result (λ node. ast.new.next ≡ ast.old.next + tree_size node) }
    ensures fault { IfErr result (λ e. TellsFirst e (faults sort (view value.now))) }
{
    if !value.is_object() {
        return Err(ReadError::Shape(Vec::new(ast.alloc)));
    }
    let Some(ast_type) = kind_here(value, sort) else {
        return Err(fault_at(ast.alloc, FieldName::Type));
    };
    let id = new_id(ast)?;
    let span = read_span(ast.alloc, value)?;
    let (kind, fields) = read_parts(value, ast_type, ast)?;
    Ok(Node {
        id,
        span,
        kind,
        fields,
    })
}

/// The kind and the children of a node.
#[cycle(read)]
fn read_parts(
    value: &Value,
    ast_type: AstType,
    ast: &mut AstBuilder,
) -> Result<(Kind, Vec<Field>), ReadError>
    ensures form { IfOk result
        (λ parts. AreParts ast_type (view value.now) (head_of parts.0) (plain_fields parts.1.items)) }
    ensures new { IfOk result (λ parts. AreNewFields ast.old.next ast.new.next (plain_fields parts.1.items)) }
    ensures fault { IfErr result (λ e. TellsFirst e (fields_faults faults ast_type (view value.now) (entries ast_type))) }
{
    match elements_of(ast_type.entries()) {
        Some(place) => read_array(value, ast_type, place, ast),
        None => read_fields(value, ast_type, ast),
    }
}

/// The kind of an array and its elements.
#[cycle(read)]
fn read_array(
    value: &Value,
    ast_type: AstType,
    place: ElementsPlace,
    ast: &mut AstBuilder,
) -> Result<(Kind, Vec<Field>), ReadError>
    requires { elements_of (entries ast_type) ≡ Some (plain_place place) }
    ensures form { IfOk result
        (λ parts. AreParts ast_type (view value.now) (head_of parts.0) (plain_fields parts.1.items)) }
    ensures new { IfOk result (λ parts. AreNewFields ast.old.next ast.new.next (plain_fields parts.1.items)) }
    ensures fault { IfErr result (λ e. TellsFirst e (fields_faults faults ast_type (view value.now) (entries ast_type))) }
{
    let fields = match read_elements(value, place, ast) {
        Ok(fields) => fields,
        Err(error) => return Err(error.under(Step::Field(place.field))),
    };
    let kind = Kind::new(ast.alloc, ast_type, &[], &[])?;
    Ok((kind, fields))
}

/// The kind and the fields of a node that is no array.
#[cycle(read)]
fn read_fields(
    value: &Value,
    ast_type: AstType,
    ast: &mut AstBuilder,
) -> Result<(Kind, Vec<Field>), ReadError>
    requires { elements_of (entries ast_type) ≡ None }
    ensures form { IfOk result
        (λ parts. AreParts ast_type (view value.now) (head_of parts.0) (plain_fields parts.1.items)) }
    ensures new { IfOk result (λ parts. AreNewFields ast.old.next ast.new.next (plain_fields parts.1.items)) }
    ensures fault { IfErr result (λ e. TellsFirst e (fields_faults faults ast_type (view value.now) (entries ast_type))) }
{
    let alloc = ast.alloc;
    let mut texts = Vec::new(alloc);
    let mut flags = Vec::new(alloc);
    let mut fields = Vec::new(alloc);
    for entry in ast_type.entries() {
        if !agrees_at(value, ast_type, entry.field) {
            return Err(fault_at(alloc, entry.field));
        }
        match entry.content {
            Content::Text(_) | Content::OptionalText => texts.push(read_text(
                alloc, value, *entry,
            )?)?,
            Content::Flag | Content::RequiredFlag => flags.push(read_flag(alloc, value, *entry)?)?,
            Content::Refused => refuse(alloc, value, entry.field)?,
            Content::Child(sort, often) => fields.push(read_field(
                value,
                entry.field,
                sort,
                often,
                ast,
            )?)?,
        }
    }
    let kind = Kind::new(alloc, ast_type, texts.as_slice(), flags.as_slice())?;
    Ok((kind, fields))
}

/// What stands in a field for children. Where it fails, the steps begin at the node.
#[cycle(read)]
fn read_field(
    value: &Value,
    name: FieldName,
    sort: Sort,
    often: Often,
    ast: &mut AstBuilder,
) -> Result<Field, ReadError>
    requires { holds_elements often ≡ false }
    ensures form { IfOk result
        (λ f. IsChildOf (view value.now) sort often (field_of name (view value.now)) (plain_field f)) }
    ensures new { IfOk result (λ f. IsNewField ast.old.next ast.new.next (plain_field f)) }
    ensures fault { IfErr result (λ e. TellsFirst e (under (Step.Field name)
        (whole_child_faults faults (view value.now) sort often (field_of name (view value.now))))) }
{
    match read_child(value, name, sort, often, ast) {
        Ok(field) => Ok(field),
        Err(error) => Err(error.under(Step::Field(name))),
    }
}

/// What stands in a field for children, other than the elements of an array. Where it fails, the steps
/// begin at what stands there.
#[cycle(read)]
fn read_child(
    value: &Value,
    name: FieldName,
    sort: Sort,
    often: Often,
    ast: &mut AstBuilder,
) -> Result<Field, ReadError>
    requires { holds_elements often ≡ false }
    ensures form { IfOk result
        (λ f. IsChildOf (view value.now) sort often (field_of name (view value.now)) (plain_field f)) }
    ensures new { IfOk result (λ f. IsNewField ast.old.next ast.new.next (plain_field f)) }
    ensures fault { IfErr result (λ e. TellsFirst e
        (whole_child_faults faults (view value.now) sort often (field_of name (view value.now)))) }
{
    match often {
        Often::Required => match field_of(value, name) {
            None => Err(ReadError::Shape(Vec::new(ast.alloc))),
            Some(child) => Ok(Field::One(read_node(child, sort_in(value, sort), ast)?)),
        },
        Often::Optional => match field_of(value, name) {
            None => Ok(Field::Missing),
            Some(child) => read_element(child, sort_in(value, sort), ast),
        },
        Often::List => Ok(Field::Many(read_list(value, name, sort, sort, ast)?)),
        Often::NonEmptyList => {
            let nodes = read_list(value, name, sort, sort, ast)?;
            if nodes.is_empty() {
                return Err(ReadError::Shape(Vec::new(ast.alloc)));
            }
            Ok(Field::Many(nodes))
        }
        Often::ListWithRest => Ok(Field::Many(read_list(
            value,
            name,
            sort,
            sort.with_rest(),
            ast,
        )?)),
        Often::Statements => Ok(Field::Statements(read_list(value, name, sort, sort, ast)?)),
        Often::Elements | Often::ElementsWithRest => unreachable!(),
    }
}

/// The nodes of a list in a field, the last of a sort of its own.
#[cycle(read)]
fn read_list(
    value: &Value,
    name: FieldName,
    sort: Sort,
    last: Sort,
    ast: &mut AstBuilder,
) -> Result<Vec<Node>, ReadError>
    ensures form { IfOk result
        (λ nodes. AreItems sort last (list_of (field_of name (view value.now))) (trees nodes.items)) }
    ensures new { IfOk result (λ nodes. AreNewTrees ast.old.next ast.new.next (trees nodes.items)) }
    ensures fault { IfErr result (λ e. TellsFirst e
        (whole_list_faults faults sort last (list_of (field_of name (view value.now))))) }
{
    let Some(items) = list_of(value, name) else {
        return Err(ReadError::Shape(Vec::new(ast.alloc)));
    };
    let mut nodes = Vec::with_capacity(ast.alloc, items.len())?;
    for (i, item) in items.iter().enumerate() {
        let place = sort_before(sort, last, &items[i + 1..]);
        match read_node(item, place, ast) {
            Ok(node) => nodes.push(node)?,
            Err(error) => return Err(error.under(Step::Index(i))),
        }
    }
    Ok(nodes)
}

/// The elements of an array, the last of a sort of its own.
#[cycle(read)]
fn read_elements(
    value: &Value,
    place: ElementsPlace,
    ast: &mut AstBuilder,
) -> Result<Vec<Field>, ReadError>
    ensures form { IfOk result
        (λ fields. AreElements place.sort place.last (list_of (field_of place.field (view value.now))) (plain_fields fields.items)) }
    ensures new { IfOk result (λ fields. AreNewFields ast.old.next ast.new.next (plain_fields fields.items)) }
    ensures fault { IfErr result (λ e. TellsFirst e
        (whole_list_faults (unless_null faults) place.sort place.last (list_of (field_of place.field (view value.now))))) }
{
    let Some(elements) = list_of(value, place.field) else {
        return Err(ReadError::Shape(Vec::new(ast.alloc)));
    };
    let mut fields = Vec::with_capacity(ast.alloc, elements.len())?;
    for (i, element) in elements.iter().enumerate() {
        let sort = sort_before(place.sort, place.last, &elements[i + 1..]);
        match read_element(element, sort, ast) {
            Ok(field) => fields.push(field)?,
            Err(error) => return Err(error.under(Step::Index(i))),
        }
    }
    Ok(fields)
}

/// A node, or none where null stands.
#[cycle(read)]
fn read_element(element: &Value, sort: Sort, ast: &mut AstBuilder) -> Result<Field, ReadError>
    ensures form { IfOk result (λ f. IsElement sort (view element.now) (plain_field f)) }
    ensures new { IfOk result (λ f. IsNewField ast.old.next ast.new.next (plain_field f)) }
    ensures fault { IfErr result (λ e. TellsFirst e (unless_null faults sort (view element.now))) }
{
    if element.is_null() {
        return Ok(Field::Missing);
    }
    Ok(Field::One(read_node(element, sort, ast)?))
}
