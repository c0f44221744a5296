//! Marked calls (ECMA-262, 13.3.9): the callee is stored and tested, and then called.
ghost use Rattle.std.specs.Prelude.{◌≡◌, ◌+◌, ◌-◌, ◌^◌, ◌<◌, ◌∷◌, ◌++◌, IfOk, OnOk, false, length, map, true};
ghost use Rattle.es_resolution.specs.Seen.{seen, seen_among};
ghost use Rattle.es_runs.specs.OptionalChaining.{call_at, null_checks};
ghost use Rattle.es_steps.specs.OptionalChaining.{call_method};
ghost use Rattle.es_tree.specs.Tree.{◌before◌, tree_size, trees};
ghost use Rattle.lower_temporaries.specs.Takings.{ReadsMore};
ghost use Rattle.lower_chains.specs.Spines.{is_plain_member};
ghost use Rattle.lower_chains.specs.WayParts.{CallsMember, CallsStored, IsOwn, WritesCallee, has_none, test_nodes};
ghost use Rattle.lower_chains.specs.Ways.{IsHeld, Names, call_label, held};

use crate::members::new_method;
use crate::null_checks::{test_name, test_stored};
use crate::parts::first_child;
use crate::receivers::{choose_receiver, write_member};
use crate::way::Way;
use es_expressions::members::CallExpression;
use es_scope::context::TraverseCtx;
use es_scope::context_names::BoundIdentifier;
use es_tree::ids::{NodeId, Span};
use es_tree::node::Node;
use lower_temporaries::state::TransformState;
use lower_temporaries::temporaries::{Temporary, new_temporary};
use std::alloc::{AllocError, Global};

/// A marked call without its callee.
#[derive(Drop)]
pub(crate) struct Call {
    pub(crate) id: NodeId,
    pub(crate) span: Span,
    pub(crate) arguments: Vec<Node>,
}

impl Call {
    /// The call of this callee, without the mark.
    fn of(self, callee: Node, alloc: Global) -> Result<Node, AllocError>
        ensures { IfOk result (λ node. (names : Names) → seen names node ≡ call_at (call_label self.span) (seen names callee) (seen_among names (trees self.arguments.items))) }
    {
        let Call {
            id,
            span,
            arguments,
        } = self;
        let call = CallExpression {
            id,
            span,
            optional: false,
            callee,
            arguments,
        };
        call.close(alloc)
    }

    /// The same call with a receiver in front of its arguments.
    fn with_receiver(self, receiver: Node) -> Result<Call, AllocError>
        ensures arguments { IfOk result (λ r. r.arguments.items ≡ receiver ∷ self.arguments.items) }
        ensures span { IfOk result (λ r. r.span ≡ self.span) }
    {
        let Call {
            id,
            span,
            mut arguments,
        } = self;
        arguments.insert(0, receiver)?;
        Ok(Call {
            id,
            span,
            arguments,
        })
    }
}

/// The way after a name that is read as it stands was tested and called.
pub(crate) fn call_name(
    tests: Vec<Node>,
    name: Node,
    holder: Option<BoundIdentifier>,
    call: Call,
    no_document_all: bool,
    ctx: &mut TraverseCtx<TransformState>,
) -> Result<Way, AllocError>
    requires alone { tree_size name ≡ 1 }
    requires room { ctx.old.ast.next + 7 < 2 ^ 32 - 1 }
    ensures tests { IfOk result (λ r. (names : Names) → map (seen names) r.tests.items ≡ map (seen names) tests.items ++ null_checks no_document_all (seen names name) (seen names name)) }
    ensures some { IfOk result (λ r. 0 < length r.tests.items) }
    ensures current { IfOk result (λ r. (names : Names) → seen names r.current ≡ call_at (call_label call.span) (seen names name) (seen_among names (trees call.arguments.items))) }
    ensures holder { IfOk result (λ r. r.holder ≡ holder) }
    ensures reads { OnOk result (ReadsMore (1 + test_nodes no_document_all) ctx.old ctx.new) }
{
    let tests = test_name(tests, &name, no_document_all, ctx)?;
    let current = call.of(name, ctx.ast.alloc)?;
    Ok(Way {
        tests,
        current,
        holder,
    })
}

/// The way after a callee that is no member was stored, tested and called.
pub(crate) fn call_value(
    tests: Vec<Node>,
    callee: Node,
    call: Call,
    no_document_all: bool,
    ctx: &mut TraverseCtx<TransformState>,
) -> Result<Way, AllocError>
    requires there { 0 < length ctx.old.state.var_declarations }
    requires room { ctx.old.ast.next + 11 < 2 ^ 32 - 1 }
    ensures called { IfOk result (λ r. (names : Names) → CallsStored names no_document_all ctx.old ctx.new (call_label call.span) (seen_among names (trees call.arguments.items)) (map (seen names) tests.items) (seen names callee) r) }
    ensures some { IfOk result (λ r. 0 < length r.tests.items) }
    ensures kept { IfOk result (λ r. IsHeld ctx.new r.holder) }
{
    let temporary = new_temporary(&callee, ctx)?;
    let Way {
        tests,
        current,
        holder,
    } = test_stored(tests, callee, temporary, no_document_all, ctx)?;
    let current = call.of(current, ctx.ast.alloc)?;
    Ok(Way {
        tests,
        current,
        holder,
    })
}

/// A callee that is a member as it is written, its receiver as it is read, and the temporary of the callee: that
/// of the member as it stands, or, where the receiver comes first, as it is written.
fn write_callee(
    callee: Node,
    callee_first: bool,
    holder: &Option<BoundIdentifier>,
    ctx: &mut TraverseCtx<TransformState>,
) -> Result<(Node, Node, Temporary), AllocError>
    requires member { is_plain_member callee ≡ true }
    requires there { 0 < length ctx.old.state.var_declarations }
    requires room { ctx.old.ast.next + 8 < 2 ^ 32 - 1 }
    ensures written { IfOk result (λ r. (names : Names) → WritesCallee callee_first ctx.old ctx.new (held holder.now) (seen names callee) (seen names r.0) (seen names r.1) r.2) }
    ensures own { IfOk result (λ r. IsOwn ctx.new r.2) }
{
    if callee_first {
        let temporary = new_temporary(&callee, ctx)?;
        let receiver = choose_receiver(first_child(&callee), true, holder, ctx)?;
        let (written, read) = write_member(callee, receiver, ctx)?;
        Ok((written, read, temporary))
    } else {
        let receiver = choose_receiver(first_child(&callee), true, holder, ctx)?;
        let (written, read) = write_member(callee, receiver, ctx)?;
        let temporary = new_temporary(&written, ctx)?;
        Ok((written, read, temporary))
    }
}

/// What is current, called as a method with its receiver: `current.call(receiver, ..)`.
fn call_with(
    way: Way,
    receiver: Node,
    call: Call,
    ctx: &mut TraverseCtx<TransformState>,
) -> Result<Way, AllocError>
    requires room { ctx.old.ast.next + 2 < 2 ^ 32 - 1 }
    ensures tests { IfOk result (λ r. r.tests ≡ way.tests) }
    ensures current { IfOk result (λ r. (names : Names) → seen names r.current ≡ call_at (call_label call.span) (call_method (seen names way.current)) (seen names receiver before seen_among names (trees call.arguments.items))) }
    ensures holder { IfOk result (λ r. r.holder ≡ way.holder) }
    ensures reads { OnOk result (ReadsMore 2 ctx.old ctx.new) }
{
    let Way {
        tests,
        current,
        holder,
    } = way;
    let method = new_method(current, "call", &mut ctx.ast)?;
    let call = call.with_receiver(receiver)?;
    let current = call.of(method, ctx.ast.alloc)?;
    Ok(Way {
        tests,
        current,
        holder,
    })
}

/// The way after a callee that is a member was stored with its receiver, tested and called. With no test so
/// far the callee's name is made before the receiver's, and else after it, of the member with the receiver in it.
pub(crate) fn call_member(
    tests: Vec<Node>,
    callee: Node,
    holder: &Option<BoundIdentifier>,
    call: Call,
    no_document_all: bool,
    ctx: &mut TraverseCtx<TransformState>,
) -> Result<Way, AllocError>
    requires member { is_plain_member callee ≡ true }
    requires there { 0 < length ctx.old.state.var_declarations }
    requires room { ctx.old.ast.next + 19 < 2 ^ 32 - 1 }
    ensures called { IfOk result (λ r. (names : Names) → CallsMember names no_document_all (has_none tests.items) ctx.old ctx.new (call_label call.span) (seen_among names (trees call.arguments.items)) (map (seen names) tests.items) (held holder.now) (seen names callee) r) }
    ensures some { IfOk result (λ r. 0 < length r.tests.items) }
    ensures kept { IfOk result (λ r. IsHeld ctx.new r.holder) }
{
    let (callee, receiver, temporary) = write_callee(callee, tests.is_empty(), holder, ctx)?;
    let way = test_stored(tests, callee, temporary, no_document_all, ctx)?;
    let way = call_with(way, receiver, call, ctx)?;
    Ok(way)
}
