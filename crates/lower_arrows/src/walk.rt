//! The walk: each node in node order, and an arrow becomes a function when its parts were walked.
ghost use Rattle.std.specs.Prelude.{◌≡◌, ◌+◌, ◌-◌, ◌<◌, ◌^◌, ℕ, None, OnOk, Option, false};
ghost use Rattle.es_tree.specs.HasForm.{same_type};
ghost use Rattle.es_tree.specs.Tree.{field_size, fields_size, kind_of, tree_size, trees, trees_size};
ghost use Rattle.es_tree.specs.Views.{plain_field, plain_fields};
ghost use Rattle.es_tree.specs.Words.{Text};
ghost use Rattle.es_tree.specs.declared.ast_type.AstType.TheVariants.{ArrowFunctionExpression, ThisExpression};
ghost use Rattle.es_resolution.specs.Seen.{seen_in};
ghost use Rattle.es_runs.specs.Weights.{field_weight, fields_weight, trees_weight, weight};
ghost use Rattle.es_traverse.specs.Laws.{Seen, SeenAmong};
ghost use Rattle.lower_temporaries.specs.Takings.{moment_of};
ghost use Rattle.lower_arrows.specs.Functions.{SeenField};
ghost use Rattle.lower_arrows.specs.Names.{IsName, due, name_in};
ghost use Rattle.lower_arrows.specs.Walks.{Paid, Walked, WalkedField, WalkedFields, WalkedTarget, WalkedTrees, belongs_at, is_target_at, may_belong};

use crate::declarations::declare;
use crate::functions::become_function;
use crate::target::{Target, name_this};
use es_scope::context::TraverseCtx;
use es_scope::outer_scopes::scope_of;
use es_tree::ast_type::AstType;
use es_tree::ids::ScopeId;
use es_tree::kind::Kind;
use es_tree::node::{Field, Node};
use es_tree::sorts::Statement;
use lower_temporaries::state::TransformState;
use std::alloc::AllocError;

/// What the parts of a node are told of it.
#[derive(Clone, Copy)]
struct Parent {
    kind: AstType,
    /// The scope that it is marked with.
    scope: Option<ScopeId>,
    /// Whether a `this` in its place belongs to an arrow.
    belongs: bool,
}

/// Walks the list of a target, and declares there the name that stands for its `this`, if it needs one.
#[cycle(walk)]
pub(crate) fn lower_list(
    statements: &mut Vec<Statement>,
    scope: Option<ScopeId>,
    ctx: &mut TraverseCtx<TransformState>,
) -> Result<(), AllocError>
    requires room { ctx.old.ast.next + trees_weight (trees statements.old.items) < 2 ^ 32 - 1 }
    ensures paid { OnOk result (Paid false (moment_of ctx.old) None (trees_weight (trees statements.old.items)) (trees_size (trees statements.old.items)) (moment_of ctx.new) None (trees_weight (trees statements.new.items)) (trees_size (trees statements.new.items))) }
    ensures walked { OnOk result (SeenAmong (λ ts us. WalkedTarget (moment_of ctx.old) ts (moment_of ctx.new) us) (trees statements.old.items) (trees statements.new.items)) }
{
    let mut target = Target { scope, name: None };
    walk_nodes(statements, false, &mut target, ctx)?;
    declare(target, statements, ctx)?;
    Ok(())
}

/// Walks the nodes of a list in their order.
#[cycle(walk)]
fn walk_nodes(
    nodes: &mut Vec<Node>,
    belongs: bool,
    target: &mut Target,
    ctx: &mut TraverseCtx<TransformState>,
) -> Result<(), AllocError>
    requires named { IsName target.old.name }
    requires room { ctx.old.ast.next + due belongs target.old.name + trees_weight (trees nodes.old.items) < 2 ^ 32 - 1 }
    ensures named { OnOk result (IsName target.new.name) }
    ensures paid { OnOk result (Paid belongs (moment_of ctx.old) target.old.name (trees_weight (trees nodes.old.items)) (trees_size (trees nodes.old.items)) (moment_of ctx.new) target.new.name (trees_weight (trees nodes.new.items)) (trees_size (trees nodes.new.items))) }
    ensures walked { OnOk result (SeenAmong (λ ts us. WalkedTrees belongs (moment_of ctx.old) (name_in target.old.name) ts (moment_of ctx.new) (name_in target.new.name) us) (trees nodes.old.items) (trees nodes.new.items)) }
{
    for index in 0..nodes.len() {
        walk_node(&mut nodes[index], belongs, target, ctx)?;
    }
    Ok(())
}

/// Walks a node: a `this` that belongs to an arrow becomes a name, an arrow a function.
#[cycle(walk)]
fn walk_node(
    node: &mut Node,
    belongs: bool,
    target: &mut Target,
    ctx: &mut TraverseCtx<TransformState>,
) -> Result<(), AllocError>
    requires named { IsName target.old.name }
    requires room { ctx.old.ast.next + due belongs target.old.name + weight node.old < 2 ^ 32 - 1 }
    ensures named { OnOk result (IsName target.new.name) }
    ensures paid { OnOk result (Paid belongs (moment_of ctx.old) target.old.name (weight node.old) (tree_size node.old) (moment_of ctx.new) target.new.name (weight node.new) (tree_size node.new)) }
    ensures walked { OnOk result (Seen (λ t u. Walked belongs (moment_of ctx.old) (name_in target.old.name) t (moment_of ctx.new) (name_in target.new.name) u) node.old node.new) }
{
    if belongs && is_this(node) {
        return name_this(node, target, ctx);
    }
    let kind = node.kind.ast_type();
    let scope = scope_of(&node.kind);
    let parent = Parent {
        kind,
        scope,
        belongs,
    };
    walk_fields(&mut node.fields, parent, target, ctx)?;
    if is_arrow(node) {
        become_function(node, &mut ctx.ast)?;
    }
    Ok(())
}

fn is_this(node: &Node) -> bool
    ensures { result ≡ same_type (kind_of node.now) ThisExpression }
{
    matches!(node.kind, Kind::ThisExpression)
}

fn is_arrow(node: &Node) -> bool
    ensures { result ≡ same_type (kind_of node.now) ArrowFunctionExpression }
{
    matches!(node.kind, Kind::ArrowFunctionExpression { .. })
}

/// Walks the fields of a node in their order.
#[cycle(walk)]
fn walk_fields(
    fields: &mut Vec<Field>,
    parent: Parent,
    target: &mut Target,
    ctx: &mut TraverseCtx<TransformState>,
) -> Result<(), AllocError>
    requires named { IsName target.old.name }
    requires room { ctx.old.ast.next + due (may_belong parent.belongs parent.kind) target.old.name + fields_weight (plain_fields fields.old.items) < 2 ^ 32 - 1 }
    ensures named { OnOk result (IsName target.new.name) }
    ensures paid { OnOk result (Paid (may_belong parent.belongs parent.kind) (moment_of ctx.old) target.old.name (fields_weight (plain_fields fields.old.items)) (fields_size (plain_fields fields.old.items)) (moment_of ctx.new) target.new.name (fields_weight (plain_fields fields.new.items)) (fields_size (plain_fields fields.new.items))) }
    ensures walked { OnOk result ((names : ℕ → Text → Option ℕ) → WalkedFields parent.belongs parent.kind (moment_of ctx.old) (name_in target.old.name) (seen_in names (plain_fields fields.old.items)) (moment_of ctx.new) (name_in target.new.name) (seen_in names (plain_fields fields.new.items))) }
{
    for index in 0..fields.len() {
        walk_field(&mut fields[index], parent, index, target, ctx)?;
    }
    Ok(())
}

/// Walks what stands in a field.
#[cycle(walk)]
fn walk_field(
    field: &mut Field,
    parent: Parent,
    index: usize,
    target: &mut Target,
    ctx: &mut TraverseCtx<TransformState>,
) -> Result<(), AllocError>
    requires named { IsName target.old.name }
    requires room { ctx.old.ast.next + due (belongs_at parent.belongs parent.kind index) target.old.name + field_weight (plain_field field.old) < 2 ^ 32 - 1 }
    ensures named { OnOk result (IsName target.new.name) }
    ensures paid { OnOk result (Paid (belongs_at parent.belongs parent.kind index) (moment_of ctx.old) target.old.name (field_weight (plain_field field.old)) (field_size (plain_field field.old)) (moment_of ctx.new) target.new.name (field_weight (plain_field field.new)) (field_size (plain_field field.new))) }
    ensures walked { OnOk result (SeenField (λ f g. WalkedField parent.belongs parent.kind index (moment_of ctx.old) (name_in target.old.name) f (moment_of ctx.new) (name_in target.new.name) g) (plain_field field.old) (plain_field field.new)) }
{
    let belongs = belongs_at(parent, index);
    match field {
        Field::Missing => {}
        Field::One(node) => walk_node(node, belongs, target, ctx)?,
        Field::Many(nodes) => walk_nodes(nodes, belongs, target, ctx)?,
        Field::Statements(statements) => {
            if is_target(parent, index) {
                lower_list(statements, parent.scope, ctx)?;
            } else {
                walk_nodes(statements, belongs, target, ctx)?;
            }
        }
    }
    Ok(())
}

/// Whether a `this` in this field of the parent belongs to an arrow; fields count from 0. A function that is no arrow, a static block and
/// the value of a class field have a `this` of their own.
fn belongs_at(parent: Parent, index: usize) -> bool
    ensures { result ≡ belongs_at parent.belongs parent.kind index }
{
    match (parent.kind, index) {
        (AstType::FunctionDeclaration, _)
        | (AstType::FunctionExpression, _)
        | (AstType::StaticBlock, _)
        | (AstType::PropertyDefinition, 1) => false,
        (AstType::ArrowFunctionExpression, _) => true,
        _ => parent.belongs,
    }
}

/// Whether the list in this field is that of a target: of a static block, or of the body of a function that is no arrow.
fn is_target(parent: Parent, index: usize) -> bool
    ensures { result ≡ is_target_at parent.belongs parent.kind index }
{
    match (parent.kind, index) {
        (AstType::StaticBlock, 0) => true,
        (AstType::FunctionBody, 1) => !parent.belongs,
        _ => false,
    }
}
