//! The names of a program: those of its bindings and references (ECMA-262, 8.2 and 13.1).
ghost use Rattle.std.specs.Prelude.{◌≡◌, ◌||◌, true, OnOk};
ghost use Rattle.std.specs.HashSet.{contains_text};
ghost use Rattle.es_tree.specs.Fresh.{also, is_among};
ghost use Rattle.es_tree.specs.Heads.{head_of, label};
ghost use Rattle.es_tree.specs.Names.{is_name_place, is_reexport, names_if, names_in_field, names_of, own_name};
ghost use Rattle.es_tree.specs.Tree.{fields_of, kind_of};
ghost use Rattle.es_tree.specs.Views.{plain_field};
ghost use Rattle.es_tree.specs.Words.{Text};
ghost use Rattle.es_tree.specs.declared.ids.NodeId.{NodeId};
ghost use Rattle.es_tree.specs.declared.ids.Span.{Span};

use es_tree::kind::Kind;
use es_tree::node::{Field, Node};
use std::alloc::{AllocError, Global};
use std::collections::HashSet;

/// Puts each name of the tree into the set. Answers an error only for want of memory, and the set then
/// has some of them.
pub fn insert_names(
    alloc: Global,
    names: &mut HashSet<String>,
    tree: &Node,
) -> Result<(), AllocError>
    ensures { OnOk result ((x : Text) → contains_text names.new x ≡ (contains_text names.old x || is_among (names_of tree.now) x)) }
{
    insert_node(alloc, names, tree, true)
}

/// The names in a node; an identifier that is the node itself counts or not.
#[cycle(names)]
fn insert_node(
    alloc: Global,
    names: &mut HashSet<String>,
    node: &Node,
    counts: bool,
) -> Result<(), AllocError>
    ensures { OnOk result ((x : Text) → contains_text names.new x ≡ (contains_text names.old x || is_among (names_if counts node.now) x)) }
{
    if counts {
        insert_own_name(alloc, names, &node.kind)?;
    }
    if is_reexport(node) {
        return Ok(());
    }
    for (index, field) in node.fields.iter().enumerate() {
        insert_field(alloc, names, field, is_name_place(&node.kind, index))?;
    }
    Ok(())
}

#[cycle(names)]
fn insert_field(
    alloc: Global,
    names: &mut HashSet<String>,
    field: &Field,
    counts: bool,
) -> Result<(), AllocError>
    ensures { OnOk result ((x : Text) → contains_text names.new x ≡ (contains_text names.old x || is_among (names_in_field counts (plain_field field.now)) x)) }
{
    match field {
        Field::Missing => {}
        Field::One(node) => insert_node(alloc, names, node, counts)?,
        Field::Many(nodes) | Field::Statements(nodes) => {
            for node in nodes {
                insert_node(alloc, names, node, true)?;
            }
        }
    }
    Ok(())
}

/// Puts the name of an identifier into the set.
fn insert_own_name(
    alloc: Global,
    names: &mut HashSet<String>,
    kind: &Kind,
) -> Result<(), AllocError>
    ensures { OnOk result ((x : Text) (id : NodeId) (span : Span) → contains_text names.new x ≡ (contains_text names.old x || is_among (own_name true (head_of kind.now).kind (label id span (head_of kind.now))) x)) }
{
    match kind {
        Kind::Identifier { name, .. } => insert_name(alloc, names, name.as_str())?,
        _ => {}
    }
    Ok(())
}

/// Puts a name into the set, with a copy only where it is new.
fn insert_name(alloc: Global, names: &mut HashSet<String>, name: &str) -> Result<(), AllocError>
    ensures { OnOk result ((x : Text) → contains_text names.new x ≡ also name.now (contains_text names.old) x) }
{
    if !names.contains(name) {
        names.insert(String::from_str(alloc, name)?)?;
    }
    Ok(())
}

/// Whether an identifier that stands in this field of a node of this kind is a name.
fn is_name_place(kind: &Kind, index: usize) -> bool
    ensures { (id : NodeId) (span : Span) → result ≡ is_name_place (head_of kind.now).kind (label id span (head_of kind.now)) index }
{
    match index {
        0 => is_first_name(kind),
        1 => is_second_name(kind),
        _ => true,
    }
}

/// Whether an identifier that stands in the first field of a node of this kind is a name.
pub fn is_first_name(kind: &Kind) -> bool
    ensures { (id : NodeId) (span : Span) → result ≡ is_name_place (head_of kind.now).kind (label id span (head_of kind.now)) 0 }
{
    match kind {
        Kind::MethodDefinition { computed, .. } => *computed,
        Kind::PropertyDefinition { computed, .. } => *computed,
        Kind::ObjectProperty { computed, .. } => *computed,
        Kind::PatternProperty { computed, .. } => *computed,
        Kind::TargetProperty { computed, .. } => *computed,
        Kind::BreakStatement
        | Kind::ContinueStatement
        | Kind::LabeledStatement
        | Kind::ImportSpecifier
        | Kind::ExportAllDeclaration => false,
        _ => true,
    }
}

/// Whether an identifier that stands in the second field of a node of this kind is a name.
pub fn is_second_name(kind: &Kind) -> bool
    ensures { (id : NodeId) (span : Span) → result ≡ is_name_place (head_of kind.now).kind (label id span (head_of kind.now)) 1 }
{
    match kind {
        Kind::MemberExpression { computed, .. } => *computed,
        Kind::ExportSpecifier => false,
        _ => true,
    }
}

/// Whether a node is an export from another module, whose names refer to nothing here.
fn is_reexport(node: &Node) -> bool
    ensures { result ≡ is_reexport (kind_of node.now) (fields_of node.now) }
{
    match &node.kind {
        Kind::ExportNamedDeclaration => node.child_at(2).is_some(),
        _ => false,
    }
}
