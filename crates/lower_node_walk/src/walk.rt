//! The walk: each node in node order, and it is lowered when its parts were walked.
ghost use Rattle.std.specs.Prelude.{◌+◌, ◌-◌, ◌<◌, ◌^◌, ℕ, OnOk, Option};
ghost use Rattle.es_tree.specs.Tree.{field_size, fields_size, trees, trees_size};
ghost use Rattle.es_tree.specs.Views.{plain_field, plain_fields};
ghost use Rattle.es_tree.specs.Words.{Text};
ghost use Rattle.es_resolution.specs.Seen.{seen_by, seen_in};
ghost use Rattle.es_traverse.specs.Laws.{Seen, SeenAmong};
ghost use Rattle.lower_nodes.specs.Nodes.{Alike, AlikeAmong, AlikeBy, AlikeIn, Paid, PaidTree, owed, owed_among, owed_by, owed_in};
ghost use Rattle.lower_temporaries.specs.Takings.{moment_of};
ghost use Rattle.lower_node_walk.specs.Walks.{Walked, WalkedField, WalkedFields, WalkedTrees};

use es_scope::context::TraverseCtx;
use es_tree::node::{Field, Node};
use lower_nodes::NodeLowering;
use lower_temporaries::state::TransformState;
use std::alloc::AllocError;

/// Walks the nodes of a list in their order.
#[cycle(walk)]
pub(crate) fn walk_list<T: NodeLowering>(
    lowering: &T,
    nodes: &mut Vec<Node>,
    ctx: &mut TraverseCtx<TransformState>,
) -> Result<(), AllocError>
    requires suited { T.suits lowering.now ctx.old.options }
    requires room { ctx.old.ast.next + owed_among (T.profile ctx.old.options).owes (trees nodes.old.items) < 2 ^ 32 - 1 }
    ensures paid { OnOk result (Paid (moment_of ctx.old) (owed_among (T.profile ctx.old.options).owes (trees nodes.old.items)) (trees_size (trees nodes.old.items)) (moment_of ctx.new) (owed_among (T.profile ctx.old.options).owes (trees nodes.new.items)) (trees_size (trees nodes.new.items))) }
    ensures alike { OnOk result (AlikeAmong (T.profile ctx.old.options).changes (trees nodes.old.items) (trees nodes.new.items)) }
    ensures walked { OnOk result (SeenAmong (λ ts us. WalkedTrees (T.profile ctx.old.options) (moment_of ctx.old) ts (moment_of ctx.new) us) (trees nodes.old.items) (trees nodes.new.items)) }
{
    for index in 0..nodes.len() {
        walk_node(lowering, &mut nodes[index], ctx)?;
    }
    Ok(())
}

/// Walks the parts of a node, and lowers it.
#[cycle(walk)]
fn walk_node<T: NodeLowering>(
    lowering: &T,
    node: &mut Node,
    ctx: &mut TraverseCtx<TransformState>,
) -> Result<(), AllocError>
    requires suited { T.suits lowering.now ctx.old.options }
    requires room { ctx.old.ast.next + owed (T.profile ctx.old.options).owes node.old < 2 ^ 32 - 1 }
    ensures paid { OnOk result (PaidTree (T.profile ctx.old.options).owes (moment_of ctx.old) node.old (moment_of ctx.new) node.new) }
    ensures alike { OnOk result (Alike (T.profile ctx.old.options).changes node.old node.new) }
    ensures walked { OnOk result (Seen (λ t u. Walked (T.profile ctx.old.options) (moment_of ctx.old) t (moment_of ctx.new) u) node.old node.new) }
{
    walk_fields(lowering, &mut node.fields, ctx)?;
    lowering.lower(node, ctx)
}

/// Walks the fields of a node in their order.
#[cycle(walk)]
fn walk_fields<T: NodeLowering>(
    lowering: &T,
    fields: &mut Vec<Field>,
    ctx: &mut TraverseCtx<TransformState>,
) -> Result<(), AllocError>
    requires suited { T.suits lowering.now ctx.old.options }
    requires room { ctx.old.ast.next + owed_in (T.profile ctx.old.options).owes (plain_fields fields.old.items) < 2 ^ 32 - 1 }
    ensures paid { OnOk result (Paid (moment_of ctx.old) (owed_in (T.profile ctx.old.options).owes (plain_fields fields.old.items)) (fields_size (plain_fields fields.old.items)) (moment_of ctx.new) (owed_in (T.profile ctx.old.options).owes (plain_fields fields.new.items)) (fields_size (plain_fields fields.new.items))) }
    ensures alike { OnOk result (AlikeIn (T.profile ctx.old.options).changes (plain_fields fields.old.items) (plain_fields fields.new.items)) }
    ensures walked { OnOk result ((names : ℕ → Text → Option ℕ) → WalkedFields (T.profile ctx.old.options) (moment_of ctx.old) (seen_in names (plain_fields fields.old.items)) (moment_of ctx.new) (seen_in names (plain_fields fields.new.items))) }
{
    for index in 0..fields.len() {
        walk_field(lowering, &mut fields[index], ctx)?;
    }
    Ok(())
}

/// Walks what stands in a field.
#[cycle(walk)]
fn walk_field<T: NodeLowering>(
    lowering: &T,
    field: &mut Field,
    ctx: &mut TraverseCtx<TransformState>,
) -> Result<(), AllocError>
    requires suited { T.suits lowering.now ctx.old.options }
    requires room { ctx.old.ast.next + owed_by (T.profile ctx.old.options).owes (plain_field field.old) < 2 ^ 32 - 1 }
    ensures paid { OnOk result (Paid (moment_of ctx.old) (owed_by (T.profile ctx.old.options).owes (plain_field field.old)) (field_size (plain_field field.old)) (moment_of ctx.new) (owed_by (T.profile ctx.old.options).owes (plain_field field.new)) (field_size (plain_field field.new))) }
    ensures alike { OnOk result (AlikeBy (T.profile ctx.old.options).changes (plain_field field.old) (plain_field field.new)) }
    ensures walked { OnOk result ((names : ℕ → Text → Option ℕ) → WalkedField (T.profile ctx.old.options) (moment_of ctx.old) (seen_by names (plain_field field.old)) (moment_of ctx.new) (seen_by names (plain_field field.new))) }
{
    match field {
        Field::Missing => {}
        Field::One(node) => walk_node(lowering, node, ctx)?,
        Field::Many(nodes) => walk_list(lowering, nodes, ctx)?,
        Field::Statements(statements) => walk_list(lowering, statements, ctx)?,
    }
    Ok(())
}
