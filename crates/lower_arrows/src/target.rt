//! The target of arrows: what their `this` belongs to (ECMA-262, 9.4.4), with the name that stands for it in its list.
ghost use Rattle.std.specs.Prelude.{◌≡◌, ◌+◌, ◌-◌, ◌<◌, ◌^◌, ℕ, IfOk, OnOk, Option, Some, true};
ghost use Rattle.es_tree.specs.HasForm.{same_type};
ghost use Rattle.es_tree.specs.Tree.{kind_of, label_of, tree_size};
ghost use Rattle.es_tree.specs.Words.{Text};
ghost use Rattle.es_tree.specs.declared.ast_type.AstType.TheVariants.{ThisExpression};
ghost use Rattle.es_resolution.specs.Seen.{seen};
ghost use Rattle.es_runs.specs.Weights.{weight};
ghost use Rattle.es_steps.specs.Nodes.{placed};
ghost use Rattle.es_traverse.specs.Laws.{Seen};
ghost use Rattle.lower_temporaries.specs.Takings.{moment_of};
ghost use Rattle.lower_arrows.specs.Names.{IsName, NameMade, name_in};
ghost use Rattle.lower_arrows.specs.Walks.{Paid, Walked};

use es_scope::context::TraverseCtx;
use es_scope::flags::SymbolFlags;
use es_traverse::site::scope_inside;
use es_tree::ids::ScopeId;
use es_tree::node::Node;
use lower_temporaries::state::TransformState;
use lower_temporaries::temporaries::new_bound_name;
use std::alloc::{AllocError, Global};

/// The flags of a name that `var` binds.
const VARIABLE: SymbolFlags = SymbolFlags {
    function_scoped: true,
    block_scoped: false,
    constant: false,
    import: false,
    catch_variable: false,
    class: false,
};

/// A target whose list is being walked.
#[derive(Drop)]
pub(crate) struct Target {
    /// The scope that its node is marked with.
    pub(crate) scope: Option<ScopeId>,
    /// The name that stands for `this` there, as its binding, if one was made.
    pub(crate) name: Option<Node>,
}

/// A `this` that belongs to an arrow becomes the name of its target, which is made at the first of them.
pub(crate) fn name_this(
    node: &mut Node,
    target: &mut Target,
    ctx: &mut TraverseCtx<TransformState>,
) -> Result<(), AllocError>
    requires this { same_type (kind_of node.old) ThisExpression ≡ true }
    requires named { IsName target.old.name }
    requires room { ctx.old.ast.next < 2 ^ 32 - 1 }
    ensures named { OnOk result (IsName target.new.name) }
    ensures paid { OnOk result (Paid true (moment_of ctx.old) target.old.name (weight node.old) (tree_size node.old) (moment_of ctx.new) target.new.name (weight node.new) (tree_size node.new)) }
    ensures walked { OnOk result (Seen (λ t u. Walked true (moment_of ctx.old) (name_in target.old.name) t (moment_of ctx.new) (name_in target.new.name) u) node.old node.new) }
{
    make_name(target, ctx)?;
    if let Some(name) = &target.name {
        *node = read_in_place(name, node, ctx.ast.alloc)?;
    }
    Ok(())
}

/// Makes the name of a target, `_this` or the like, if there is none.
fn make_name(target: &mut Target, ctx: &mut TraverseCtx<TransformState>) -> Result<(), AllocError>
    requires { ctx.old.ast.next < 2 ^ 32 - 1 }
    ensures { OnOk result (NameMade target.old.name (moment_of ctx.old) target.new.name (moment_of ctx.new)) }
{
    if target.name.is_some() {
        return Ok(());
    }
    let scope = scope_inside(ctx, target.scope);
    let name = new_bound_name("this", scope, VARIABLE, ctx)?;
    target.name = Some(name);
    Ok(())
}

/// A name, once more, as it is read in the place of a node, whose id and place in the source it takes. It has no reference of its own: no
/// lowering comes after this walk, so the scope table isn't asked again what refers to a name.
fn read_in_place(name: &Node, node: &Node, alloc: Global) -> Result<Node, AllocError>
    requires { IsName (Some name.now) }
    ensures { IfOk result (λ read. (names : ℕ → Text → Option ℕ) → seen names read ≡ placed (label_of node.now) (seen names name.now)) }
{
    let kind = name.kind.clone_kind(alloc)?;
    Ok(Node {
        id: node.id,
        span: node.span,
        kind,
        fields: Vec::new(alloc),
    })
}
