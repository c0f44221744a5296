//! Uses of helpers: `babelHelpers.objectSpread2({}, a)` becomes `_objectSpread({}, a)` (ECMA-262, 13.3.6), and a helper that is handed on becomes a
//! name, too, as `[k].map(babelHelpers.toPropertyKey)` becomes `[k].map(_toPropertyKey)`.
ghost use Rattle.std.specs.Prelude.{◌≡◌, ◌∷◌, [], IfOk, OnOk};
ghost use Rattle.es_tree.specs.Tree.{fields_of, kind_of, label_of, trees};
ghost use Rattle.es_tree.specs.Views.{plain_field, plain_fields};
ghost use Rattle.es_helper_calls.specs.HelperCalls.{calling, calling_among, calling_by, calling_in, calls_one, handed_on, helper_of, helpers_called, helpers_in, helpers_in_field, in_its_place, is_called, lone_helper, named_helper, noted, passed_helper, used_helper};
ghost use Rattle.lower_helper_imports.specs.Parts.{callee_of, has_arguments, property_helper};

use crate::names::name_of;
use es_tree::helper::Helper;
use es_tree::ids::NodeId;
use es_tree::kind::Kind;
use es_tree::node::{Field, Node};
use lower_fresh_names::nodes::new_name;
use std::alloc::{AllocError, Global};

/// The id of made nodes.
pub const ID: NodeId = NodeId(0);

/// The helpers that the built lowerings call, or hand on.
static MADE_HELPERS: [Helper; 6] = [
    Helper::ObjectSpread2,
    Helper::Extends,
    Helper::ObjectDestructuringEmpty,
    Helper::ObjectWithoutProperties,
    Helper::ToPropertyKey,
    Helper::UsingCtx,
];

/// The helpers that a program uses, each once, in the order of their first uses, those in a call's arguments before its own. Fails only for
/// want of memory.
pub(crate) fn helpers_called(alloc: Global, program: &Node) -> Result<Vec<Helper>, AllocError>
    ensures { IfOk result (λ helpers. helpers.items ≡ helpers_called program.now) }
{
    let mut known = Vec::new(alloc);
    note_in(program, &mut known)?;
    Ok(known)
}

/// Adds the helpers that are used in a tree and aren't known yet.
#[cycle(note)]
fn note_in(node: &Node, known: &mut Vec<Helper>) -> Result<(), AllocError>
    ensures { OnOk result (known.new.items ≡ noted known.old.items (helpers_in node.now)) }
{
    for field in &node.fields {
        note_in_field(field, known)?;
    }
    if let Some(helper) = used_helper(node) {
        note(helper, known)?;
    }
    Ok(())
}

/// Adds those in a field.
#[cycle(note)]
fn note_in_field(field: &Field, known: &mut Vec<Helper>) -> Result<(), AllocError>
    ensures { OnOk result (known.new.items ≡ noted known.old.items (helpers_in_field (plain_field field.now))) }
{
    match field {
        Field::Missing => {}
        Field::One(node) => note_in(node, known)?,
        Field::Many(nodes) | Field::Statements(nodes) => {
            for node in nodes {
                note_in(node, known)?;
            }
        }
    }
    Ok(())
}

/// Adds a helper that isn't known yet.
fn note(helper: Helper, known: &mut Vec<Helper>) -> Result<(), AllocError>
    ensures { OnOk result (known.new.items ≡ noted known.old.items (helper ∷ [])) }
{
    if !known.contains(&helper) {
        known.push(helper)?;
    }
    Ok(())
}

/// The helper that a node calls, or hands on, if there is one.
pub(crate) fn used_helper(node: &Node) -> Option<Helper>
    ensures { result ≡ used_helper (kind_of node.now) (label_of node.now) (fields_of node.now) }
{
    match (&node.kind, node.fields.as_slice()) {
        (Kind::CallExpression { optional: false }, [Field::One(callee), arguments @ ..]) => {
            helper_of(callee).or(passed_helper(arguments))
        }
        _ => None,
    }
}

/// The helper that is the one argument, behind a callee, if it is one that is handed on.
fn passed_helper(arguments: &[Field]) -> Option<Helper>
    ensures { result ≡ passed_helper (plain_fields arguments.now) }
{
    match arguments {
        [Field::Many(nodes), ..] => lone_helper(nodes.as_slice()),
        _ => None,
    }
}

/// The helper that is handed on, if it is alone.
fn lone_helper(arguments: &[Node]) -> Option<Helper>
    ensures { result ≡ lone_helper (trees arguments.now) }
{
    match arguments {
        [argument] => handed_on(helper_of(argument)),
        _ => None,
    }
}

/// This helper, if it is one that is handed on: the one that makes a key of a value (7.1.19).
fn handed_on(helper: Option<Helper>) -> Option<Helper>
    ensures { result ≡ handed_on helper }
{
    match helper {
        Some(Helper::ToPropertyKey) => helper,
        _ => None,
    }
}

/// The helper that the expression is, as a property of `babelHelpers`.
pub fn helper_of(callee: &Node) -> Option<Helper>
    ensures { result ≡ helper_of callee.now }
{
    match (&callee.kind, callee.fields.as_slice()) {
        (
            Kind::MemberExpression {
                computed: false,
                optional: false,
            },
            [Field::One(object), Field::One(property)],
        ) => property_helper(object, property),
        _ => None,
    }
}

/// The helper of this name, where it is one of `babelHelpers`.
fn property_helper(object: &Node, property: &Node) -> Option<Helper>
    ensures { result ≡ property_helper object.now property.now }
{
    match &property.kind {
        Kind::Identifier { name, .. } if is_called(object, "babelHelpers") => named_helper(
            name.as_str(),
        ),
        _ => None,
    }
}

/// Whether the node is the identifier of this name.
fn is_called(node: &Node, text: &str) -> bool
    ensures { result ≡ is_called text.now node.now }
{
    match &node.kind {
        Kind::Identifier { name, .. } => name.as_str() == text,
        _ => false,
    }
}

/// The helper of this name, of those that the built lowerings call.
fn named_helper(name: &str) -> Option<Helper>
    ensures { result ≡ named_helper name.now }
{
    MADE_HELPERS
        .iter()
        .copied()
        .find(|helper| helper.name() == name)
}

/// Calls each of these helpers in a tree by its name, and hands it on by it.
#[cycle(call)]
pub(crate) fn call_by_names(
    node: &mut Node,
    helpers: &[Helper],
    names: &[String],
    alloc: Global,
) -> Result<(), AllocError>
    ensures { OnOk result (node.new ≡ calling (callee_of helpers.now names.now) node.old) }
{
    let helper = used_helper(node);
    call_in_fields(&mut node.fields, helpers, names, alloc)?;
    if let Some(helper) = helper {
        let name = new_name(ID, name_of(helper, helpers, names), alloc)?;
        put_in_place(&mut node.fields, name, alloc)?;
    }
    Ok(())
}

/// Puts a name where the helper stood: as the callee, where one is called, or else as the one argument.
fn put_in_place(fields: &mut Vec<Field>, name: Node, alloc: Global) -> Result<(), AllocError>
    ensures { OnOk result (plain_fields fields.new.items ≡ in_its_place name (plain_fields fields.old.items)) }
{
    if calls_one(fields) {
        fields[0] = Field::One(name);
    } else if has_arguments(fields) {
        fields[1] = Field::Many(Vec::from_array(alloc, [name])?);
    }
    Ok(())
}

/// Whether a helper is what is called.
fn calls_one(fields: &[Field]) -> bool
    ensures { result ≡ calls_one (plain_fields fields.now) }
{
    match fields {
        [Field::One(callee), ..] => helper_of(callee).is_some(),
        _ => false,
    }
}

/// Whether the second field is a list, as a call's arguments are.
fn has_arguments(fields: &[Field]) -> bool
    ensures { result ≡ has_arguments (plain_fields fields.now) }
{
    matches!(fields, [_, Field::Many(..), ..])
}

/// Calls them so in fields.
#[cycle(call)]
fn call_in_fields(
    fields: &mut Vec<Field>,
    helpers: &[Helper],
    names: &[String],
    alloc: Global,
) -> Result<(), AllocError>
    ensures { OnOk result (plain_fields fields.new.items ≡ calling_in (callee_of helpers.now names.now) (plain_fields fields.old.items)) }
{
    for index in 0..fields.len() {
        call_in_field(&mut fields[index], helpers, names, alloc)?;
    }
    Ok(())
}

/// Calls them so in a field.
#[cycle(call)]
fn call_in_field(
    field: &mut Field,
    helpers: &[Helper],
    names: &[String],
    alloc: Global,
) -> Result<(), AllocError>
    ensures { OnOk result (plain_field field.new ≡ calling_by (callee_of helpers.now names.now) (plain_field field.old)) }
{
    match field {
        Field::Missing => {}
        Field::One(node) => call_by_names(node, helpers, names, alloc)?,
        Field::Many(nodes) => call_in_list(nodes, helpers, names, alloc)?,
        Field::Statements(statements) => call_in_list(statements, helpers, names, alloc)?,
    }
    Ok(())
}

/// Calls them so in a list.
#[cycle(call)]
fn call_in_list(
    nodes: &mut Vec<Node>,
    helpers: &[Helper],
    names: &[String],
    alloc: Global,
) -> Result<(), AllocError>
    ensures { OnOk result (trees nodes.new.items ≡ calling_among (callee_of helpers.now names.now) (trees nodes.old.items)) }
{
    for index in 0..nodes.len() {
        call_by_names(&mut nodes[index], helpers, names, alloc)?;
    }
    Ok(())
}
