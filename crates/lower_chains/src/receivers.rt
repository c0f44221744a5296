//! Receivers: what a call has as `this` where its callee was a member (ECMA-262, 13.3.6.1).
ghost use Rattle.std.specs.Prelude.{◌≡◌, ◌+◌, ◌-◌, ◌^◌, ◌<◌, IfOk, OnOk, length, true};
ghost use Rattle.es_resolution.specs.Seen.{seen};
ghost use Rattle.es_steps.specs.OptionalChaining.{bind_node};
ghost use Rattle.lower_temporaries.specs.Parenthesized.{first_child};
ghost use Rattle.lower_temporaries.specs.Takings.{ReadsMore};
ghost use Rattle.lower_chains.specs.Spines.{is_plain_member};
ghost use Rattle.lower_chains.specs.WayParts.{ChoosesReceiver, IsMeant, WritesMember, nodes_for, read_for, written_for};
ghost use Rattle.lower_chains.specs.Ways.{BindsTo, Names, held, to_this};

use crate::members::new_method;
use crate::names::is_kept_name;
use crate::null_checks::store;
use crate::parts::{first_child, is_plain_member};
use es_expressions::literals::new_this_expression;
use es_expressions::members::{MemberExpression, new_call_expression};
use es_scope::context::TraverseCtx;
use es_scope::context_names::BoundIdentifier;
use es_tree::builder::AstBuilder;
use es_tree::kind::Kind;
use es_tree::node::Node;
use lower_temporaries::declarations::MADE;
use lower_temporaries::readings::read_once_more;
use lower_temporaries::state::TransformState;
use lower_temporaries::temporaries::{Temporary, new_temporary};
use std::alloc::AllocError;

/// What is read as the receiver of an object.
#[derive(Drop)]
pub(crate) enum Receiver {
    /// `this`.
    This,
    /// The object, which is a name, once more.
    Again,
    /// The temporary that the object is assigned to.
    Stored(Temporary),
}

/// Whether the receiver of an object is `this`: that of `super` is, and, where `with_this` is set, that of
/// `this`.
fn is_to_this(object: &Node, with_this: bool) -> bool
    ensures { result ≡ to_this with_this object.now }
{
    match &object.kind {
        Kind::Super => object.fields.is_empty(),
        Kind::ThisExpression => with_this && object.fields.is_empty(),
        _ => false,
    }
}

/// How an object is read as the receiver: `this` for `super`, and, where `with_this` is set, for `this`; the temporary
/// that is held, or a name that no reference writes, is read again; all else takes a temporary, whose name is made here.
pub(crate) fn choose_receiver(
    object: &Node,
    with_this: bool,
    holder: &Option<BoundIdentifier>,
    ctx: &mut TraverseCtx<TransformState>,
) -> Result<Receiver, AllocError>
    requires there { 0 < length ctx.old.state.var_declarations }
    requires room { ctx.old.ast.next + 3 < 2 ^ 32 - 1 }
    ensures chosen { IfOk result (λ r. (names : Names) → ChoosesReceiver with_this ctx.old ctx.new (held holder.now) (seen names object.now) r) }
    ensures meant { IfOk result (λ r. IsMeant r object.now) }
{
    if is_to_this(object, with_this) {
        Ok(Receiver::This)
    } else if is_kept_name(object, holder, ctx) {
        Ok(Receiver::Again)
    } else {
        let temporary = new_temporary(object, ctx)?;
        Ok(Receiver::Stored(temporary))
    }
}

/// An object as it is written in its member, and as it is read as the receiver.
fn write_receiver(
    object: Node,
    receiver: Receiver,
    ctx: &mut TraverseCtx<TransformState>,
) -> Result<(Node, Node), AllocError>
    requires meant { IsMeant receiver object }
    requires room { ctx.old.ast.next + 2 < 2 ^ 32 - 1 }
    ensures written { IfOk result (λ r. (names : Names) → seen names r.0 ≡ written_for receiver (seen names object)) }
    ensures read { IfOk result (λ r. (names : Names) → seen names r.1 ≡ read_for receiver (seen names object)) }
    ensures reads { OnOk result (ReadsMore (nodes_for receiver) ctx.old ctx.new) }
{
    match receiver {
        Receiver::This => {
            let read = new_this_expression(&mut ctx.ast, MADE)?;
            Ok((object, read))
        }
        Receiver::Again => {
            let read = read_once_more(&object, ctx)?;
            Ok((object, read))
        }
        Receiver::Stored(
            Temporary {
                name,
                symbol_id,
                target,
            },
        ) => {
            let (written, read) = store(object, target, name.as_str(), symbol_id, ctx)?;
            Ok((written, read))
        }
    }
}

/// A member over its object as it is written, and the receiver as it is read.
pub(crate) fn write_member(
    member: Node,
    receiver: Receiver,
    ctx: &mut TraverseCtx<TransformState>,
) -> Result<(Node, Node), AllocError>
    requires member { is_plain_member member ≡ true }
    requires meant { IsMeant receiver (first_child member) }
    requires room { ctx.old.ast.next + 2 < 2 ^ 32 - 1 }
    ensures written { IfOk result (λ r. (names : Names) → WritesMember receiver (seen names member) (seen names r.0) (seen names r.1)) }
    ensures reads { OnOk result (ReadsMore (nodes_for receiver) ctx.old ctx.new) }
{
    let MemberExpression {
        id,
        span,
        computed,
        optional: _optional,
        object,
        property,
    } = MemberExpression::open(member);
    let (object, read) = write_receiver(object, receiver, ctx)?;
    let written = MemberExpression {
        id,
        span,
        computed,
        optional: false,
        object,
        property,
    };
    let written = written.close(ctx.ast.alloc)?;
    Ok((written, read))
}

/// `member.bind(receiver)`
fn new_bind(member: Node, receiver: Node, ast: &mut AstBuilder) -> Result<Node, AllocError>
    requires room { ast.old.next + 3 < 2 ^ 32 - 1 }
    ensures made { IfOk result (λ node. (names : Names) → seen names node ≡ bind_node (seen names member) (seen names receiver)) }
    ensures counted { IfOk result (λ _. ast.new.next ≡ ast.old.next + 3) }
{
    let method = new_method(member, "bind", ast)?;
    let arguments = Vec::from_array(ast.alloc, [receiver])?;
    let node = new_call_expression(ast, MADE, false, method, arguments)?;
    Ok(node)
}

/// A member as the callee of a call: `(r = o).p.bind(r)`.
fn bind_member(
    member: Node,
    holder: &Option<BoundIdentifier>,
    ctx: &mut TraverseCtx<TransformState>,
) -> Result<Node, AllocError>
    requires member { is_plain_member member ≡ true }
    requires there { 0 < length ctx.old.state.var_declarations }
    requires room { ctx.old.ast.next + 9 < 2 ^ 32 - 1 }
    ensures { IfOk result (λ d. (names : Names) → BindsTo ctx.old ctx.new (held holder.now) (seen names member) (seen names d)) }
{
    let receiver = choose_receiver(first_child(&member), false, holder, ctx)?;
    let (written, read) = write_member(member, receiver, ctx)?;
    let node = new_bind(written, read, &mut ctx.ast)?;
    Ok(node)
}

/// What a chain ends in, as the callee of a call: `o.p` becomes `(r = o).p.bind(r)`, and what is no member
/// stays.
pub(crate) fn bind_callee(
    current: Node,
    holder: &Option<BoundIdentifier>,
    ctx: &mut TraverseCtx<TransformState>,
) -> Result<Node, AllocError>
    requires there { 0 < length ctx.old.state.var_declarations }
    requires room { ctx.old.ast.next + 9 < 2 ^ 32 - 1 }
    ensures { IfOk result (λ d. (names : Names) → BindsTo ctx.old ctx.new (held holder.now) (seen names current) (seen names d)) }
{
    if is_plain_member(&current) {
        let node = bind_member(current, holder, ctx)?;
        Ok(node)
    } else {
        Ok(current)
    }
}
