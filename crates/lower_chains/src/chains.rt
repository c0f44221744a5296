//! A chain as a conditional (ECMA-262, 13.3.9), one that is called, and `delete` of one (13.5.1).
ghost use Rattle.std.specs.Prelude.{◌≡◌, ◌<◌, IfOk, false, length, true};
ghost use Rattle.es_changes.specs.Changes.{HasRoom};
ghost use Rattle.es_resolution.specs.Seen.{seen};
ghost use Rattle.es_traverse.specs.Loads.{load};
ghost use Rattle.lower_temporaries.specs.Takings.{moment_of};
ghost use Rattle.lower_chains.specs.Chains.{LowersAt, LowersInside, anywhere_at, takes_by};
ghost use Rattle.lower_chains.specs.Spines.{deletes_chain, has_chain, is_marked_chain};
ghost use Rattle.lower_chains.specs.Ways.{Names};

use crate::choices::{choose_callee, choose_deleted, choose_value};
use crate::parts::is_parenthesized;
use crate::walk::walk;
use es_expressions::members::ChainExpression;
use es_expressions::operations::{ParenthesizedExpression, UnaryExpression};
use es_scope::context::TraverseCtx;
use es_tree::node::Node;
use lower_temporaries::parens::take_from_parens;
use lower_temporaries::state::TransformState;
use std::alloc::AllocError;

/// `tests ? void 0 : current` of a chain whose value is taken.
pub(crate) fn lower_chain(
    node: Node,
    no_document_all: bool,
    ctx: &mut TraverseCtx<TransformState>,
) -> Result<Node, AllocError>
    requires chain { is_marked_chain node ≡ true }
    requires there { 0 < length ctx.old.state.var_declarations }
    requires room { HasRoom (moment_of ctx.old) (load node) }
    ensures { IfOk result (λ made. (names : Names) → LowersAt (takes_by false) no_document_all (moment_of ctx.old) (seen names node) (moment_of ctx.new) (seen names made)) }
{
    let ChainExpression {
        id: _id,
        span,
        expression,
    } = ChainExpression::open(node);
    let way = walk(expression, no_document_all, ctx)?;
    let made = choose_value(span, way, ctx)?;
    Ok(made)
}

/// `tests ? void 0 : current` of a chain that is called, `current` being bound to its receiver.
fn lower_callee(
    node: Node,
    no_document_all: bool,
    ctx: &mut TraverseCtx<TransformState>,
) -> Result<Node, AllocError>
    requires chain { is_marked_chain node ≡ true }
    requires there { 0 < length ctx.old.state.var_declarations }
    requires room { HasRoom (moment_of ctx.old) (load node) }
    ensures { IfOk result (λ made. (names : Names) → LowersAt (takes_by true) no_document_all (moment_of ctx.old) (seen names node) (moment_of ctx.new) (seen names made)) }
{
    let ChainExpression {
        id: _id,
        span,
        expression,
    } = ChainExpression::open(node);
    let way = walk(expression, no_document_all, ctx)?;
    let made = choose_callee(span, way, ctx)?;
    Ok(made)
}

/// A chain that is called, maybe in parentheses, which stay: `(tests ? void 0 : current)`.
pub(crate) fn lower_inside(
    node: Node,
    no_document_all: bool,
    ctx: &mut TraverseCtx<TransformState>,
) -> Result<Node, AllocError>
    requires chain { has_chain node ≡ true }
    requires there { 0 < length ctx.old.state.var_declarations }
    requires room { HasRoom (moment_of ctx.old) (load node) }
    ensures { IfOk result (λ made. (names : Names) → LowersInside no_document_all (moment_of ctx.old) (seen names node) (moment_of ctx.new) (seen names made)) }
{
    if !is_parenthesized(&node) {
        let made = lower_callee(node, no_document_all, ctx)?;
        return Ok(made);
    }
    let ParenthesizedExpression {
        id,
        span,
        expression,
    } = ParenthesizedExpression::open(node);
    let expression = lower_inside(expression, no_document_all, ctx)?;
    let kept = ParenthesizedExpression {
        id,
        span,
        expression,
    };
    let made = kept.close(ctx.ast.alloc)?;
    Ok(made)
}

/// `tests ? true : delete current` of `delete` of a chain, through parentheses.
pub(crate) fn lower_delete(
    node: Node,
    no_document_all: bool,
    ctx: &mut TraverseCtx<TransformState>,
) -> Result<Node, AllocError>
    requires deletes { deletes_chain node ≡ true }
    requires there { 0 < length ctx.old.state.var_declarations }
    requires room { HasRoom (moment_of ctx.old) (load node) }
    ensures { IfOk result (λ made. (names : Names) → LowersAt anywhere_at no_document_all (moment_of ctx.old) (seen names node) (moment_of ctx.new) (seen names made)) }
{
    let UnaryExpression {
        id: _id,
        span,
        operator: _operator,
        argument,
    } = UnaryExpression::open(node);
    let ChainExpression {
        id: _chain_id,
        span: _chain_span,
        expression,
    } = ChainExpression::open(take_from_parens(argument));
    let way = walk(expression, no_document_all, ctx)?;
    let made = choose_deleted(span, way, ctx)?;
    Ok(made)
}
