//! The walk: each node in node order, and `using` is lowered at it when it was in its parts.
ghost use Rattle.std.specs.Prelude.{OnOk};
ghost use Rattle.es_tree.specs.Tree.{trees};
ghost use Rattle.es_tree.specs.Views.{plain_field, plain_fields};
ghost use Rattle.lower_using.specs.Parts.{walked, walked_among, walked_by, walked_in};
ghost use Rattle.lower_using.specs.Uses.{UsesAs};

use crate::nodes::use_here;
use crate::places::standing_in;
use es_scope::uids::UidGenerator;
use es_tree::ast_type::AstType;
use es_tree::node::{Field, Node};
use es_using_rows::standing::Standing;
use std::alloc::{AllocError, Global};

/// Walks the parts of a node that stands so, and lowers `using` at it.
#[cycle(walk)]
pub(crate) fn walk_node(
    node: &mut Node,
    standing: Standing,
    uids: &mut UidGenerator,
    alloc: Global,
) -> Result<(), AllocError>
    ensures { OnOk result (UsesAs (walked standing) uids.old uids.new node.old node.new) }
{
    let kind = node.kind.ast_type();
    walk_fields(&mut node.fields, kind, uids, alloc)?;
    use_here(node, standing, uids, alloc)
}

/// Walks the fields of a node of this kind in their order.
#[cycle(walk)]
fn walk_fields(
    fields: &mut Vec<Field>,
    kind: AstType,
    uids: &mut UidGenerator,
    alloc: Global,
) -> Result<(), AllocError>
    ensures { OnOk result (UsesAs (walked_in kind) uids.old uids.new (plain_fields fields.old.items) (plain_fields fields.new.items)) }
{
    for index in 0..fields.len() {
        let standing = standing_in(kind, index);
        walk_field(&mut fields[index], standing, uids, alloc)?;
    }
    Ok(())
}

/// Walks what stands in a field, each node of which stands so.
#[cycle(walk)]
fn walk_field(
    field: &mut Field,
    standing: Standing,
    uids: &mut UidGenerator,
    alloc: Global,
) -> Result<(), AllocError>
    ensures { OnOk result (UsesAs (walked_by standing) uids.old uids.new (plain_field field.old) (plain_field field.new)) }
{
    match field {
        Field::Missing => {}
        Field::One(node) => walk_node(node, standing, uids, alloc)?,
        Field::Many(nodes) => walk_list(nodes, standing, uids, alloc)?,
        Field::Statements(statements) => walk_list(statements, standing, uids, alloc)?,
    }
    Ok(())
}

/// Walks the nodes of a list in their order.
#[cycle(walk)]
fn walk_list(
    nodes: &mut Vec<Node>,
    standing: Standing,
    uids: &mut UidGenerator,
    alloc: Global,
) -> Result<(), AllocError>
    ensures { OnOk result (UsesAs (walked_among standing) uids.old uids.new (trees nodes.old.items) (trees nodes.new.items)) }
{
    for index in 0..nodes.len() {
        walk_node(&mut nodes[index], standing, uids, alloc)?;
    }
    Ok(())
}
