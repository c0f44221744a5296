//! The calls of `super` in a constructor, and the name for `this` that is set behind each.
//!
//! Before:
//!
//!     if (a) { super(a); } else { b ? super(b) : super(); }
//!
//! After:
//!
//!     if (a) { super(a); _this = this; } else { b ? (super(b), _this = this) : (super(), _this = this); }
//!
//! The rules are `after_super`, `up_to_super` and `with_this_set` of es_constructor_this.
ghost use Rattle.std.specs.Prelude.{◌≡◌, ◌++◌, ◌≤◌, OnOk, drop, length, map, take};
ghost use Rattle.std.specs.List.{position};
ghost use Rattle.es_tree.specs.Heads.{head_of};
ghost use Rattle.es_tree.specs.Tree.{fields_of, kind_of, trees};
ghost use Rattle.es_tree.specs.Views.{plain_field, plain_fields};
ghost use Rattle.es_set_this.specs.ConstructorThis.{after_super, after_super_among, after_super_by, after_super_in, in_arguments, is_closed, is_left, is_list, up_to_super, with_this_set};
ghost use Rattle.es_super_calls.specs.SuperCalls.{is_super_statement};
ghost use Rattle.lower_constructor_this.specs.Parts.{arguments_by, parts_passed, set_in_place};
ghost use Rattle.lower_fresh_names.specs.Names.{name_with};

use crate::made_nodes::{new_placeholder, new_sequence, new_setting};
use es_super_calls::calls::{is_super_call, is_super_statement};
use es_tree::kind::Kind;
use es_tree::node::{Field, Node};
use std::alloc::{AllocError, Global};
use std::mem;

/// `super(a); x = this;` for `super(a);`, which is the first of these statements that is such a call. What stands before it and in its arguments is
/// gone through.
#[cycle(calls)]
pub(crate) fn set_in_list(
    statements: &mut Vec<Node>,
    name: &str,
    alloc: Global,
) -> Result<(), AllocError>
    ensures { OnOk result (trees statements.new.items ≡ with_this_set (name_with 0 name.now) (up_to_super (name_with 0 name.now) (trees statements.old.items))) }
{
    match first_super(statements.as_slice()) {
        Some(index) => {
            walk_first(statements, index, name, alloc)?;
            walk_arguments(&mut statements[index], name, alloc)?;
            statements.insert(index + 1, new_setting(name, alloc)?)?;
            Ok(())
        }
        None => {
            let count = statements.len();
            walk_first(statements, count, name, alloc)
        }
    }
}

/// Goes through the arguments of a statement that is a call.
#[cycle(calls)]
fn walk_arguments(statement: &mut Node, name: &str, alloc: Global) -> Result<(), AllocError>
    ensures { OnOk result (statement.new ≡ in_arguments (name_with 0 name.now) statement.old) }
{
    if statement.fields.is_empty() {
        return Ok(());
    }
    walk_call(&mut statement.fields[0], name, alloc)
}

/// The same of the field that has the call.
#[cycle(calls)]
fn walk_call(field: &mut Field, name: &str, alloc: Global) -> Result<(), AllocError>
    ensures { OnOk result (plain_field field.new ≡ arguments_by (name_with 0 name.now) (plain_field field.old)) }
{
    match field {
        Field::One(call) => walk_parts(call, false, name, alloc),
        _ => Ok(()),
    }
}

/// Goes through the fields of a node, and leaves the node.
#[cycle(calls)]
fn walk_parts(node: &mut Node, lists: bool, name: &str, alloc: Global) -> Result<(), AllocError>
    ensures { OnOk result (node.new ≡ parts_passed (name_with 0 name.now) lists node.old) }
{
    walk_fields(&mut node.fields, lists, name, alloc)
}

/// Goes through a node, and sets the name behind it where it is a call.
#[cycle(calls)]
fn walk_node(node: &mut Node, name: &str, alloc: Global) -> Result<(), AllocError>
    ensures { OnOk result (node.new ≡ after_super (name_with 0 name.now) node.old) }
{
    if is_left(node) {
        return Ok(());
    }
    let lists = is_list(&node.kind);
    walk_parts(node, lists, name, alloc)?;
    set_in_place(node, name, alloc)
}

/// Goes through the fields of a node in their order. A list of statements among them is left where lists are none to set a name in.
#[cycle(calls)]
fn walk_fields(
    fields: &mut Vec<Field>,
    lists: bool,
    name: &str,
    alloc: Global,
) -> Result<(), AllocError>
    ensures { OnOk result (plain_fields fields.new.items ≡ after_super_in (name_with 0 name.now) lists (plain_fields fields.old.items)) }
{
    for index in 0..fields.len() {
        walk_field(&mut fields[index], lists, name, alloc)?;
    }
    Ok(())
}

/// Goes through what is in a field.
#[cycle(calls)]
fn walk_field(field: &mut Field, lists: bool, name: &str, alloc: Global) -> Result<(), AllocError>
    ensures { OnOk result (plain_field field.new ≡ after_super_by (name_with 0 name.now) lists (plain_field field.old)) }
{
    match field {
        Field::Missing => Ok(()),
        Field::One(node) => walk_node(node, name, alloc),
        Field::Many(nodes) => walk_nodes(nodes, name, alloc),
        Field::Statements(statements) => {
            if lists {
                set_in_list(statements, name, alloc)
            } else {
                Ok(())
            }
        }
    }
}

/// Goes through the nodes of a list in their order.
#[cycle(calls)]
fn walk_nodes(nodes: &mut Vec<Node>, name: &str, alloc: Global) -> Result<(), AllocError>
    ensures { OnOk result (trees nodes.new.items ≡ after_super_among (name_with 0 name.now) (trees nodes.old.items)) }
{
    let count = nodes.len();
    walk_first(nodes, count, name, alloc)
}

/// Goes through so many nodes of a list, from its first on.
#[cycle(calls)]
fn walk_first(
    nodes: &mut Vec<Node>,
    count: usize,
    name: &str,
    alloc: Global,
) -> Result<(), AllocError>
    requires { count ≤ length nodes.old.items }
    ensures { OnOk result (nodes.new.items ≡ map (after_super (name_with 0 name.now)) (take count nodes.old.items) ++ drop count nodes.old.items) }
{
    for index in 0..count {
        walk_node(&mut nodes[index], name, alloc)?;
    }
    Ok(())
}

/// `(super(a), x = this)` in the place of `super(a)`.
fn set_in_place(node: &mut Node, name: &str, alloc: Global) -> Result<(), AllocError>
    ensures { OnOk result (node.new ≡ set_in_place (name_with 0 name.now) node.old) }
{
    if is_super_call(node) {
        let call = mem::replace(node, new_placeholder(alloc));
        *node = new_sequence(call, name, alloc)?;
    }
    Ok(())
}

/// The place of the first of these statements that is a call of `super`.
fn first_super(statements: &[Node]) -> Option<usize>
    ensures { result ≡ position is_super_statement statements.now }
{
    statements
        .iter()
        .position(|statement| is_super_statement(statement))
}

/// Whether the node isn't gone through: a function, or a chain that is itself a call of `super`, which no program has.
fn is_left(node: &Node) -> bool
    ensures { result ≡ is_left (kind_of node.now) (fields_of node.now) }
{
    match (&node.kind, node.fields.as_slice()) {
        (Kind::ChainExpression, [Field::One(expression), ..]) => is_super_call(expression),
        (kind, _) => is_closed(kind),
    }
}

/// Whether a node of this kind is a function, or what one runs.
pub(crate) fn is_closed(kind: &Kind) -> bool
    ensures { result ≡ is_closed (head_of kind.now).kind }
{
    matches!(
        kind,
        Kind::FunctionDeclaration { .. }
            | Kind::FunctionExpression { .. }
            | Kind::ArrowFunctionExpression { .. }
            | Kind::FunctionBody { .. }
            | Kind::StaticBlock { .. }
            | Kind::Program { .. }
    )
}

/// Whether the statements in a node of this kind are a list to set a name in: those of a block or a case.
fn is_list(kind: &Kind) -> bool
    ensures { result ≡ is_list (head_of kind.now).kind }
{
    matches!(kind, Kind::BlockStatement { .. } | Kind::SwitchCase)
}
