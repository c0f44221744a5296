//! The marked steps of a spine: what stands before one is stored and tested (ECMA-262, 13.3.9).
ghost use Rattle.std.specs.Prelude.{◌+◌, ◌-◌, ◌^◌, ◌<◌, IfOk, length};
ghost use Rattle.es_resolution.specs.Seen.{seen_among};
ghost use Rattle.es_steps.specs.OptionalChaining.{Way as SpecWay};
ghost use Rattle.es_tree.specs.Tree.{trees};
ghost use Rattle.lower_chains.specs.Ways.{CallsTo, Ctx, IsHeld, IsWay, Names, TestsTo};

use crate::calls::{Call, call_member, call_name, call_value};
use crate::names::may_stand;
use crate::null_checks::{choose_target, test_name, test_stored};
use crate::parts::is_plain_member;
use crate::way::Way;
use es_scope::context::TraverseCtx;
use es_tree::ids::{NodeId, Span};
use es_tree::node::Node;
use lower_temporaries::parens::take_from_parens;
use lower_temporaries::state::TransformState;
use std::alloc::AllocError;

/// The way after what is current was tested before a marked member. A name that is bound is tested as it is, where
/// nothing was tested before; all else is assigned to the temporary that is held, or to a new one. Where it is
/// assumed that no value is `document.all`, one loose test tells.
pub(crate) fn test_current(
    way: Way,
    no_document_all: bool,
    ctx: &mut TraverseCtx<TransformState>,
) -> Result<Way, AllocError>
    requires there { 0 < length ctx.old.state.var_declarations }
    requires held { IsHeld ctx.old way.holder }
    requires room { ctx.old.ast.next + 12 < 2 ^ 32 - 1 }
    ensures tested { IfOk result (λ r. (names : Names) (begin : Ctx) (w : SpecWay) (h : IsWay names begin ctx.old way w) → TestsTo names no_document_all begin ctx.new w h.ids r) }
    ensures some { IfOk result (λ r. 0 < length r.tests.items) }
    ensures kept { IfOk result (λ r. IsHeld ctx.new r.holder) }
{
    let Way {
        tests,
        current,
        holder,
    } = way;
    let current = take_from_parens(current);
    if may_stand(tests.as_slice(), &current) {
        let tests = test_name(tests, &current, no_document_all, ctx)?;
        Ok(Way {
            tests,
            current,
            holder,
        })
    } else {
        let target = choose_target(&current, holder, ctx)?;
        let way = test_stored(tests, current, target, no_document_all, ctx)?;
        Ok(way)
    }
}

/// The way after what is current was tested and called, at a marked call with this id, this span and these
/// arguments. A callee that is a member keeps its object as receiver, by `call`.
pub(crate) fn call_current(
    way: Way,
    id: NodeId,
    span: Span,
    arguments: Vec<Node>,
    no_document_all: bool,
    ctx: &mut TraverseCtx<TransformState>,
) -> Result<Way, AllocError>
    requires there { 0 < length ctx.old.state.var_declarations }
    requires held { IsHeld ctx.old way.holder }
    requires room { ctx.old.ast.next + 19 < 2 ^ 32 - 1 }
    ensures called { IfOk result (λ r. (names : Names) (begin : Ctx) (w : SpecWay) (h : IsWay names begin ctx.old way w) → CallsTo names no_document_all begin ctx.new span (seen_among names (trees arguments.items)) w h.ids r) }
    ensures some { IfOk result (λ r. 0 < length r.tests.items) }
    ensures kept { IfOk result (λ r. IsHeld ctx.new r.holder) }
{
    let Way {
        tests,
        current,
        holder,
    } = way;
    let callee = take_from_parens(current);
    let call = Call {
        id,
        span,
        arguments,
    };
    if may_stand(tests.as_slice(), &callee) {
        let way = call_name(tests, callee, holder, call, no_document_all, ctx)?;
        Ok(way)
    } else if is_plain_member(&callee) {
        let way = call_member(tests, callee, &holder, call, no_document_all, ctx)?;
        Ok(way)
    } else {
        let way = call_value(tests, callee, call, no_document_all, ctx)?;
        Ok(way)
    }
}
