//! An expression as the call of an arrow, which has a list of its own: `e` becomes `(() => e)()`.
ghost use Rattle.std.specs.Prelude.{◌+◌, ◌-◌, ◌<◌, ◌^◌, IfOk, OnOk};
ghost use Rattle.lower_temporaries.specs.Takings.{ReadsMore};
ghost use Rattle.lower_writing.specs.Wrapping.{IsCallOf};

use es_expressions::composites::ArrowFunctionExpression;
use es_expressions::members::new_call_expression;
use es_scope::context::TraverseCtx;
use es_scope::flags::ScopeFlags;
use es_tree::ids::ScopeId;
use es_tree::node::Node;
use lower_temporaries::declarations::MADE;
use lower_temporaries::state::TransformState;
use std::alloc::AllocError;

/// `(() => e)()` in the place of `e`. The arrow has a scope of its own in that of the place, and takes the outermost
/// scopes in `e`.
pub(crate) fn called_arrow(
    expression: Node,
    ctx: &mut TraverseCtx<TransformState>,
) -> Result<Node, AllocError>
    requires room { ctx.old.ast.next + 1 < 2 ^ 32 - 1 }
    ensures called { IfOk result (λ call. IsCallOf expression call) }
    ensures reads { OnOk result (ReadsMore 2 ctx.old ctx.new) }
{
    let alloc = ctx.ast.alloc;
    let span = expression.span;
    let scope = insert_arrow_scope(&expression, ctx)?;
    let arrow = ArrowFunctionExpression {
        id: ctx.ast.new_id(),
        span: MADE,
        scope: Some(scope),
        params: Vec::new(alloc),
        body: expression,
    };
    let callee = arrow.close(alloc)?;
    let call = new_call_expression(&mut ctx.ast, span, false, callee, Vec::new(alloc))?;
    Ok(call)
}

/// A new scope for an arrow around this expression, in the scope of the place.
fn insert_arrow_scope(
    expression: &Node,
    ctx: &mut TraverseCtx<TransformState>,
) -> Result<ScopeId, AllocError>
    ensures { OnOk result (ReadsMore 0 ctx.old ctx.new) }
{
    let parent = ctx.current_scope_id();
    let around = ctx.scoping().scope_flags(parent);
    let flags = ScopeFlags {
        function: true,
        arrow: true,
        top: false,
        class_static_block: false,
        catch_clause: false,
        constructor: false,
        derived: false,
        strict: around.strict,
    };
    let scope = ctx.insert_scope_below_node(parent, expression, flags)?;
    Ok(scope)
}
