//! The walk: each node in node order, and `using` moves out of the head of a loop when its parts were walked.
//!
//! Before:
//!
//!     for (using a of b) for (using c of a) f(c);
//!
//! After, where the loop inside moves first:
//!
//!     for (const _a of b) { using a = _a; for (const _c of a) { using c = _c; f(c); } }
//!
//! The rule is `headed` of es_using_heads.
ghost use Rattle.std.specs.Prelude.{OnOk};
ghost use Rattle.es_tree.specs.Tree.{trees};
ghost use Rattle.es_tree.specs.Views.{plain_field, plain_fields};
ghost use Rattle.es_using_heads.specs.Heads.{headed, headed_among, headed_by, headed_in};
ghost use Rattle.lower_using_heads.specs.FreshHeads.{Fresh, FreshAmong, FreshBy, FreshIn};
ghost use Rattle.lower_using_heads.specs.Parts.{HeadsAs};

use crate::heads::move_out;
use es_scope::uids::UidGenerator;
use es_tree::node::{Field, Node};
use std::alloc::{AllocError, Global};

/// Walks the parts of a node, and moves `using` out of its head.
#[cycle(walk)]
pub(crate) fn walk_node(
    node: &mut Node,
    uids: &mut UidGenerator,
    alloc: Global,
) -> Result<(), AllocError>
    ensures { OnOk result (HeadsAs headed Fresh uids.old uids.new node.old node.new) }
{
    walk_fields(&mut node.fields, uids, alloc)?;
    move_out(node, uids, alloc)
}

/// Walks the fields of a node in their order.
#[cycle(walk)]
fn walk_fields(
    fields: &mut Vec<Field>,
    uids: &mut UidGenerator,
    alloc: Global,
) -> Result<(), AllocError>
    ensures { OnOk result (HeadsAs headed_in FreshIn uids.old uids.new (plain_fields fields.old.items) (plain_fields fields.new.items)) }
{
    for index in 0..fields.len() {
        walk_field(&mut fields[index], uids, alloc)?;
    }
    Ok(())
}

/// Walks what stands in a field.
#[cycle(walk)]
fn walk_field(field: &mut Field, uids: &mut UidGenerator, alloc: Global) -> Result<(), AllocError>
    ensures { OnOk result (HeadsAs headed_by FreshBy uids.old uids.new (plain_field field.old) (plain_field field.new)) }
{
    match field {
        Field::Missing => {}
        Field::One(node) => walk_node(node, uids, alloc)?,
        Field::Many(nodes) => walk_list(nodes, uids, alloc)?,
        Field::Statements(statements) => walk_list(statements, uids, alloc)?,
    }
    Ok(())
}

/// Walks the nodes of a list in their order.
#[cycle(walk)]
fn walk_list(
    nodes: &mut Vec<Node>,
    uids: &mut UidGenerator,
    alloc: Global,
) -> Result<(), AllocError>
    ensures { OnOk result (HeadsAs headed_among FreshAmong uids.old uids.new (trees nodes.old.items) (trees nodes.new.items)) }
{
    for index in 0..nodes.len() {
        walk_node(&mut nodes[index], uids, alloc)?;
    }
    Ok(())
}
