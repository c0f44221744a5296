//! The walk: each node in its place, and the name for `this` is set in a node when it was in its parts.
//!
//! Before:
//!
//!     class A extends B { constructor() { var _this = this; super(); } }
//!
//! After:
//!
//!     class A extends B { constructor() { var _this; super(); _this = this; } }
//!
//! The rules are `set_this`, `set_this_in`, `set_this_by` and `set_this_among` of es_constructor_this.
ghost use Rattle.std.specs.Prelude.{◌≡◌, OnOk};
ghost use Rattle.es_tree.specs.Fresh.{is_among};
ghost use Rattle.es_tree.specs.Tree.{trees};
ghost use Rattle.es_tree.specs.Views.{plain_field, plain_fields};
ghost use Rattle.es_scope.specs.Contexts.{made_of};
ghost use Rattle.es_set_this.specs.ConstructorThis.{set_this, set_this_among, set_this_by, set_this_in};
ghost use Rattle.lower_constructor_this.specs.Parts.{set_at, standing_at};

use crate::bodies::set_in_body;
use crate::places::Standings;
use es_scope::context::TraverseCtx;
use es_super_calls::standing::ClassStanding;
use es_tree::kind::Kind;
use es_tree::node::{Field, Node};
use std::alloc::AllocError;

/// Walks the parts of a node that stands so, and sets the name in it.
#[cycle(walk)]
pub(crate) fn walk_node<S>(
    node: &mut Node,
    standing: ClassStanding,
    ctx: &TraverseCtx<S>,
) -> Result<(), AllocError>
    ensures { OnOk result (node.new ≡ set_this (is_among (made_of ctx.now)) standing node.old) }
{
    let standings = Standings::inside(node, standing);
    walk_fields(&mut node.fields, standings, ctx)?;
    set_here(node, standing, ctx)
}

/// Walks the fields of a node in their order. What is in them stands so.
#[cycle(walk)]
fn walk_fields<S>(
    fields: &mut Vec<Field>,
    standings: Standings,
    ctx: &TraverseCtx<S>,
) -> Result<(), AllocError>
    ensures { OnOk result (plain_fields fields.new.items ≡ set_this_in (is_among (made_of ctx.now)) (standing_at standings) (plain_fields fields.old.items)) }
{
    for index in 0..fields.len() {
        walk_field(&mut fields[index], standings.at(index), ctx)?;
    }
    Ok(())
}

/// Walks what is in a field, each node of which stands so.
#[cycle(walk)]
fn walk_field<S>(
    field: &mut Field,
    standing: ClassStanding,
    ctx: &TraverseCtx<S>,
) -> Result<(), AllocError>
    ensures { OnOk result (plain_field field.new ≡ set_this_by (is_among (made_of ctx.now)) standing (plain_field field.old)) }
{
    match field {
        Field::Missing => {}
        Field::One(node) => walk_node(node, standing, ctx)?,
        Field::Many(nodes) => walk_list(nodes, standing, ctx)?,
        Field::Statements(statements) => walk_list(statements, standing, ctx)?,
    }
    Ok(())
}

/// Walks the nodes of a list in their order.
#[cycle(walk)]
fn walk_list<S>(
    nodes: &mut Vec<Node>,
    standing: ClassStanding,
    ctx: &TraverseCtx<S>,
) -> Result<(), AllocError>
    ensures { OnOk result (trees nodes.new.items ≡ set_this_among (is_among (made_of ctx.now)) standing (trees nodes.old.items)) }
{
    for index in 0..nodes.len() {
        walk_node(&mut nodes[index], standing, ctx)?;
    }
    Ok(())
}

/// Sets the name in a node that stands so, the parts of which were walked: where it is the body of such a constructor.
fn set_here<S>(
    node: &mut Node,
    standing: ClassStanding,
    ctx: &TraverseCtx<S>,
) -> Result<(), AllocError>
    ensures { OnOk result (node.new ≡ set_at (is_among (made_of ctx.now)) standing node.old) }
{
    match (standing, &node.kind) {
        (ClassStanding::Body, Kind::FunctionBody { .. }) => set_in_body(&mut node.fields, ctx),
        _ => Ok(()),
    }
}
