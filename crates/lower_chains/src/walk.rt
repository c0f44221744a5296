//! The walk along the spine of a chain, from its base outwards (ECMA-262, 13.3.9).
ghost use Rattle.std.specs.Prelude.{◌≡◌, ◌+◌, ◌-◌, ◌^◌, ◌<◌, IfOk, false, length, true};
ghost use Rattle.es_expressions.specs.MembersPlain.{plain_call_expression, plain_member_expression};
ghost use Rattle.es_resolution.specs.Seen.{seen};
ghost use Rattle.es_traverse.specs.Loads.{load};
ghost use Rattle.lower_chains.specs.Spines.{has_mark};
ghost use Rattle.lower_chains.specs.Ways.{ContinuesTo, IsHeld, Names, WalksTo};

use crate::parts::{is_call_step, is_content, is_member_step};
use crate::steps::{call_current, test_current};
use crate::way::Way;
use es_expressions::members::{CallExpression, ChainExpression, MemberExpression};
use es_scope::context::TraverseCtx;
use es_tree::ids::{NodeId, Span};
use es_tree::node::Node;
use es_tree::parens::strip_parens;
use lower_temporaries::parens::take_from_parens;
use lower_temporaries::state::TransformState;
use std::alloc::{AllocError, Global};

/// The way whose current expression is this member of what was current, without a mark.
fn access(
    way: Way,
    id: NodeId,
    span: Span,
    computed: bool,
    property: Node,
    alloc: Global,
) -> Result<Way, AllocError>
    ensures tests { IfOk result (λ r. r.tests ≡ way.tests) }
    ensures holder { IfOk result (λ r. r.holder ≡ way.holder) }
    ensures current { IfOk result (λ r. r.current ≡ plain_member_expression (record { id = id; span = span; computed = computed; optional = false; object = way.current; property = property })) }
{
    let Way {
        tests,
        current: object,
        holder,
    } = way;
    let member = MemberExpression {
        id,
        span,
        computed,
        optional: false,
        object,
        property,
    };
    let current = member.close(alloc)?;
    Ok(Way {
        tests,
        current,
        holder,
    })
}

/// The way whose current expression is a call of what was current, without a mark.
fn call(
    way: Way,
    id: NodeId,
    span: Span,
    arguments: Vec<Node>,
    alloc: Global,
) -> Result<Way, AllocError>
    ensures tests { IfOk result (λ r. r.tests ≡ way.tests) }
    ensures holder { IfOk result (λ r. r.holder ≡ way.holder) }
    ensures current { IfOk result (λ r. r.current ≡ plain_call_expression (record { id = id; span = span; optional = false; callee = way.current; arguments = arguments })) }
{
    let Way {
        tests,
        current: callee,
        holder,
    } = way;
    let call = CallExpression {
        id,
        span,
        optional: false,
        callee,
        arguments,
    };
    let current = call.close(alloc)?;
    Ok(Way {
        tests,
        current,
        holder,
    })
}

/// The way along a spine that ends in this member.
#[cycle(walk)]
fn walk_member(
    member: MemberExpression,
    no_document_all: bool,
    ctx: &mut TraverseCtx<TransformState>,
) -> Result<Way, AllocError>
    requires there { 0 < length ctx.old.state.var_declarations }
    requires room { ctx.old.ast.next + load (plain_member_expression member) < 2 ^ 32 - 1 }
    ensures walked { IfOk result (λ way. (names : Names) → WalksTo names no_document_all ctx.old ctx.new (seen names (plain_member_expression member)) way) }
    ensures marked { IfOk result (λ way. has_mark (plain_member_expression member) ≡ true → 0 < length way.tests.items) }
    ensures kept { IfOk result (λ way. IsHeld ctx.new way.holder) }
{
    let MemberExpression {
        id,
        span,
        computed,
        optional,
        object,
        property,
    } = member;
    if optional {
        let before = continue_spine(object, no_document_all, ctx)?;
        let tested = test_current(before, no_document_all, ctx)?;
        let way = access(tested, id, span, computed, property, ctx.ast.alloc)?;
        return Ok(way);
    }
    let before = walk(object, no_document_all, ctx)?;
    let way = access(before, id, span, computed, property, ctx.ast.alloc)?;
    Ok(way)
}

/// The way along a spine that ends in this call.
#[cycle(walk)]
fn walk_call(
    call_expression: CallExpression,
    no_document_all: bool,
    ctx: &mut TraverseCtx<TransformState>,
) -> Result<Way, AllocError>
    requires there { 0 < length ctx.old.state.var_declarations }
    requires room { ctx.old.ast.next + load (plain_call_expression call_expression) < 2 ^ 32 - 1 }
    ensures walked { IfOk result (λ way. (names : Names) → WalksTo names no_document_all ctx.old ctx.new (seen names (plain_call_expression call_expression)) way) }
    ensures marked { IfOk result (λ way. has_mark (plain_call_expression call_expression) ≡ true → 0 < length way.tests.items) }
    ensures kept { IfOk result (λ way. IsHeld ctx.new way.holder) }
{
    let CallExpression {
        id,
        span,
        optional,
        callee,
        arguments,
    } = call_expression;
    if optional {
        let before = continue_spine(callee, no_document_all, ctx)?;
        let way = call_current(before, id, span, arguments, no_document_all, ctx)?;
        return Ok(way);
    }
    let before = walk(callee, no_document_all, ctx)?;
    let way = call(before, id, span, arguments, ctx.ast.alloc)?;
    Ok(way)
}

/// The way before a marked step, where a chain in parentheses is gone on with.
#[cycle(walk)]
fn continue_spine(
    node: Node,
    no_document_all: bool,
    ctx: &mut TraverseCtx<TransformState>,
) -> Result<Way, AllocError>
    requires there { 0 < length ctx.old.state.var_declarations }
    requires room { ctx.old.ast.next + load node < 2 ^ 32 - 1 }
    ensures continued { IfOk result (λ way. (names : Names) → ContinuesTo names no_document_all ctx.old ctx.new (seen names node) way) }
    ensures kept { IfOk result (λ way. IsHeld ctx.new way.holder) }
{
    if !is_content(strip_parens(&node)) {
        let way = walk(node, no_document_all, ctx)?;
        return Ok(way);
    }
    let chain = ChainExpression::open(take_from_parens(node));
    let way = walk(chain.expression, no_document_all, ctx)?;
    Ok(way)
}

/// The way along a spine: what it becomes, step by step from its base.
#[cycle(walk)]
pub(crate) fn walk(
    node: Node,
    no_document_all: bool,
    ctx: &mut TraverseCtx<TransformState>,
) -> Result<Way, AllocError>
    requires there { 0 < length ctx.old.state.var_declarations }
    requires room { ctx.old.ast.next + load node < 2 ^ 32 - 1 }
    ensures walked { IfOk result (λ way. (names : Names) → WalksTo names no_document_all ctx.old ctx.new (seen names node) way) }
    ensures marked { IfOk result (λ way. has_mark node ≡ true → 0 < length way.tests.items) }
    ensures kept { IfOk result (λ way. IsHeld ctx.new way.holder) }
{
    if is_member_step(&node) {
        let way = walk_member(MemberExpression::open(node), no_document_all, ctx)?;
        return Ok(way);
    }
    if is_call_step(&node) {
        let way = walk_call(CallExpression::open(node), no_document_all, ctx)?;
        return Ok(way);
    }
    Ok(Way {
        tests: Vec::new(ctx.ast.alloc),
        current: node,
        holder: None,
    })
}
