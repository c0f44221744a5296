//! The writer: a tree in its canonical form.
ghost use Rattle.std.specs.Prelude.{◌≡◌, IfOk, OnOk, map, option_map, string_bytes};
ghost use Rattle.std.specs.Vec.Iter.{into_iter_items};
ghost use Rattle.es_tree.specs.Tree.{kind_of, label_of};
ghost use Rattle.es_tree.specs.Views.{plain_field};
ghost use Rattle.es_json.specs.Canonical.{canonical, field_value, common_members, node_members, text_value, child_value, children_after};
ghost use Rattle.serde_json.specs.View.{view, members_view};
ghost use Rattle.serde_json.specs.Written.{compact_text};

use es_tree::node::{Field, Node};
use es_tree::table::{Content, FieldName, Often};
use serde_json::{Map, Value, put};
use std::alloc::{AllocError, Global};
use std::mem;
use std::vec::IntoIter;

/// The program in the tree form: an object for each node, with its kind, its span, and every field that
/// the table of fields has for its kind. Fails only where memory runs out.
pub fn write_program(alloc: Global, program: &Node) -> Result<Value, AllocError>
    ensures { IfOk result (λ value. view value ≡ canonical program.now) }
{
    let value = write_node(program, alloc)?;
    Ok(value)
}

/// The text of the program in the tree form, as compact JSON. Fails only where memory runs out.
pub fn program_text(alloc: Global, program: &Node) -> Result<String, AllocError>
    ensures { IfOk result (λ text. string_bytes text ≡ compact_text (canonical program.now)) }
{
    let value = write_program(alloc, program)?;
    let text = value.to_string(alloc)?;
    Ok(text)
}

#[cycle(write)]
fn write_node(node: &Node, alloc: Global) -> Result<Value, AllocError>
    ensures { IfOk result (λ value. view value ≡ canonical node.now) }
{
    let mut values = Vec::with_capacity(alloc, node.fields.len())?;
    for field in &node.fields {
        values.push(write_field(field, alloc)?)?;
    }
    let members = write_members(alloc, node, values)?;
    Ok(Value::Object(members))
}

#[cycle(write)]
fn write_field(field: &Field, alloc: Global) -> Result<Value, AllocError>
    ensures { IfOk result (λ value. view value ≡ field_value (plain_field field.now)) }
{
    match field {
        Field::Missing => Ok(Value::Null),
        Field::One(node) => {
            let value = write_node(node, alloc)?;
            Ok(value)
        }
        Field::Many(nodes) | Field::Statements(nodes) => {
            let mut values = Vec::with_capacity(alloc, nodes.len())?;
            for node in nodes {
                values.push(write_node(node, alloc)?)?;
            }
            Ok(Value::Array(values))
        }
    }
}

/// The members that every node has: its kind and its span.
fn write_common_members(alloc: Global, node: &Node) -> Result<Map<String, Value>, AllocError>
    ensures { IfOk result (λ members. members_view members.entries ≡ common_members (kind_of node.now) (label_of node.now)) }
{
    let mut members = Map::new(alloc);
    let name = Value::try_from_str(alloc, node.kind.ast_type().name())?;
    put(&mut members, alloc, FieldName::Type.as_str(), name)?;
    let start = Value::from(node.span.start);
    put(&mut members, alloc, FieldName::Start.as_str(), start)?;
    let end = Value::from(node.span.end);
    put(&mut members, alloc, FieldName::End.as_str(), end)?;
    Ok(members)
}

/// The members of a node, whose children are written already.
fn write_members(
    alloc: Global,
    node: &Node,
    children: Vec<Value>,
) -> Result<Map<String, Value>, AllocError>
    ensures { IfOk result (λ members. members_view members.entries ≡ node_members (kind_of node.now) (label_of node.now) (map view children.items)) }
{
    let kind = &node.kind;
    let mut members = write_common_members(alloc, node)?;
    let mut children = children.into_iter();
    let mut texts = 0;
    let mut flags = 0;
    for entry in kind.ast_type().entries() {
        let value = match entry.content {
            Content::Refused => continue,
            Content::Text(_) | Content::OptionalText => {
                let text = kind.text(texts);
                texts += 1;
                write_text(alloc, text)?
            }
            Content::Flag | Content::RequiredFlag => {
                let flag = kind.flag(flags);
                flags += 1;
                Value::from(flag)
            }
            Content::Child(_, often) => next_child(&mut children, often, alloc)?,
        };
        put(&mut members, alloc, entry.field.as_str(), value)?;
    }
    Ok(members)
}

/// The value of a field for children, taken from the children that are left.
fn next_child(
    children: &mut IntoIter<Value>,
    often: Often,
    alloc: Global,
) -> Result<Value, AllocError>
    ensures value { IfOk result (λ value. view value ≡ child_value often (map view (into_iter_items children.old))) }
    ensures left { OnOk result (map view (into_iter_items children.new) ≡ children_after often (map view (into_iter_items children.old))) }
{
    match often {
        Often::Elements | Often::ElementsWithRest => {
            let elements = mem::replace(children, Vec::new(alloc).into_iter());
            Ok(Value::Array(elements.collect(alloc)?))
        }
        _ => Ok(children.next().unwrap_or(Value::Null)),
    }
}

/// The value of a field for a text, which may be none.
fn write_text(alloc: Global, text: Option<&str>) -> Result<Value, AllocError>
    ensures { IfOk result (λ value. view value ≡ text_value (option_map (λ s. s.now) text.entry)) }
{
    match text {
        Some(text) => Value::try_from_str(alloc, text),
        None => Ok(Value::Null),
    }
}
