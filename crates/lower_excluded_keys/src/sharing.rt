//! The walk: each node in node order, and a name takes the place of each list that is shared.
//!
//! Before:
//!
//!     { let { a } = _ref, b = babelHelpers.objectWithoutProperties(_ref, ["a"]); }
//!
//! After:
//!
//!     { let { a } = _ref, b = babelHelpers.objectWithoutProperties(_ref, _excluded); }
//!
//! The rules are `Shares`, `SharesIn`, `SharesBy` and `SharesAll` of es_excluded_keys.
ghost use Rattle.std.specs.Prelude.{◌≡◌, OnOk, length, true};
ghost use Rattle.es_tree.specs.Bare.{bare, bare_field, bare_fields, bare_trees};
ghost use Rattle.es_tree.specs.Tree.{trees};
ghost use Rattle.es_tree.specs.Views.{plain_field, plain_fields};
ghost use Rattle.es_excluded_keys.specs.ExcludedKeys.{Shares, SharesAll, SharesBy, SharesIn, has_key_list, is_below};
ghost use Rattle.lower_excluded_keys.specs.Sharing.{Becomes, SharesArguments, SharesCall};

use crate::constants::MadeConstants;
use crate::places::{is_below, leaves_out};
use es_tree::ast_type::AstType;
use es_tree::node::{Field, Node};
use std::alloc::AllocError;

/// Puts names for the lists of a node, which stands below the program's scope or doesn't (`deep`).
#[cycle(share)]
fn share_in(node: &mut Node, deep: bool, constants: &mut MadeConstants) -> Result<(), AllocError>
    ensures { OnOk result (Becomes (Shares deep node.old) bare constants.old constants.new node.new) }
{
    if deep && leaves_out(node) {
        return share_in_call(&mut node.fields, constants);
    }
    let kind = node.kind.ast_type();
    share_in_fields(&mut node.fields, kind, deep, constants)
}

/// `babelHelpers.objectWithoutProperties(b, _excluded)` for the fields of `babelHelpers.objectWithoutProperties(b, ["a"])`.
#[cycle(share)]
fn share_in_call(fields: &mut Vec<Field>, constants: &mut MadeConstants) -> Result<(), AllocError>
    requires { has_key_list (plain_fields fields.old.items) ≡ true }
    ensures { OnOk result (Becomes (SharesCall (plain_fields fields.old.items)) bare_fields constants.old constants.new (plain_fields fields.new.items)) }
{
    match &mut fields[1] {
        Field::Many(arguments) => share_in_arguments(arguments, constants),
        _ => Ok(()),
    }
}

/// `b, _excluded` for the arguments `b, ["a"]`, and for the lists in `b` names that are made before.
#[cycle(share)]
fn share_in_arguments(
    arguments: &mut Vec<Node>,
    constants: &mut MadeConstants,
) -> Result<(), AllocError>
    requires { length arguments.old.items ≡ 2 }
    ensures { OnOk result (Becomes (SharesArguments (trees arguments.old.items)) bare_trees constants.old constants.new (trees arguments.new.items)) }
{
    share_in(&mut arguments[0], true, constants)?;
    constants.share(&mut arguments[1])
}

/// Puts them so in the fields of a node of this kind, in their order.
#[cycle(share)]
fn share_in_fields(
    fields: &mut Vec<Field>,
    kind: AstType,
    deep: bool,
    constants: &mut MadeConstants,
) -> Result<(), AllocError>
    ensures { OnOk result (Becomes (SharesIn (is_below deep kind) (plain_fields fields.old.items)) bare_fields constants.old constants.new (plain_fields fields.new.items)) }
{
    for index in 0..fields.len() {
        share_in_field(&mut fields[index], is_below(deep, kind, index), constants)?;
    }
    Ok(())
}

/// Puts them so in a field.
#[cycle(share)]
fn share_in_field(
    field: &mut Field,
    deep: bool,
    constants: &mut MadeConstants,
) -> Result<(), AllocError>
    ensures { OnOk result (Becomes (SharesBy deep (plain_field field.old)) bare_field constants.old constants.new (plain_field field.new)) }
{
    match field {
        Field::Missing => {}
        Field::One(node) => share_in(node, deep, constants)?,
        Field::Many(nodes) => share_in_list(nodes, deep, constants)?,
        Field::Statements(statements) => share_in_list(statements, deep, constants)?,
    }
    Ok(())
}

/// Puts them so in the nodes of a list, in their order.
#[cycle(share)]
pub(crate) fn share_in_list(
    nodes: &mut Vec<Node>,
    deep: bool,
    constants: &mut MadeConstants,
) -> Result<(), AllocError>
    ensures { OnOk result (Becomes (SharesAll deep (trees nodes.old.items)) bare_trees constants.old constants.new (trees nodes.new.items)) }
{
    for index in 0..nodes.len() {
        share_in(&mut nodes[index], deep, constants)?;
    }
    Ok(())
}
