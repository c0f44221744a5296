//! An exponentiation as a call of `Math.pow` (ECMA-262, 13.6 and 13.15).
ghost use Rattle.std.specs.Prelude.{◌≡◌, ◌+◌, ◌-◌, ◌^◌, ◌<◌, ℕ, IfOk, OnOk, Option, length, map, true};
ghost use Rattle.es_tree.specs.Tree.{fields_of, kind_of, label_of};
ghost use Rattle.es_tree.specs.Words.{Text};
ghost use Rattle.es_tree.specs.declared.ast_type.AstType.TheVariants.{AssignmentExpression as AnyAssignment, BinaryExpression as AnyOperation};
ghost use Rattle.es_resolution.specs.Seen.{seen};
ghost use Rattle.es_steps.specs.Exponentiation.{assigned_power, power_at};
ghost use Rattle.es_changes.specs.Changes.{HasRoom};
ghost use Rattle.es_traverse.specs.Laws.{Seen};
ghost use Rattle.es_traverse.specs.Loads.{load};
ghost use Rattle.lower_temporaries.specs.Shapes.{at_span};
ghost use Rattle.lower_temporaries.specs.Takings.{ReadsMore, moment_of};
ghost use Rattle.lower_exponentiation.specs.Exponentiations.{is_lowerable_exponentiation};
ghost use Rattle.lower_exponentiation.specs.Targets.{Lowers, nodes_around};

use crate::targets::{Twice, use_target};
use es_expressions::literals::new_identifier;
use es_expressions::members::{new_call_expression, new_member_expression};
use es_expressions::operations::{
    AssignmentExpression, BinaryExpression, new_assignment_expression, new_sequence_expression,
};
use es_scope::context::TraverseCtx;
use es_tree::ids::Span;
use es_tree::kind::Kind;
use es_tree::node::Node;
use es_tree::operators::AssignmentOperator;
use lower_temporaries::declarations::MADE;
use lower_temporaries::parens::take_from_parens;
use lower_temporaries::state::TransformState;
use lower_temporaries::temporaries::read_name;
use std::alloc::AllocError;

/// What becomes of an exponentiation. Fails only for want of memory.
pub(crate) fn lower_exponentiation(
    node: Node,
    ctx: &mut TraverseCtx<TransformState>,
) -> Result<Node, AllocError>
    requires on { ctx.old.options.es2016.exponentiation_operator ≡ true }
    requires lowerable { is_lowerable_exponentiation (kind_of node) (label_of node) (fields_of node) ≡ true }
    requires there { 0 < length ctx.old.state.var_declarations }
    requires room { HasRoom (moment_of ctx.old) (load node) }
    ensures { IfOk result (λ made. Seen (Lowers ctx.old ctx.new) node made) }
{
    let is_operation = matches!(&node.kind, Kind::BinaryExpression { .. });
    if is_operation {
        let made = lower_operation(node, ctx)?;
        Ok(made)
    } else {
        let made = lower_assignment(node, ctx)?;
        Ok(made)
    }
}

/// `l ** r` as `Math.pow(l, r)`.
fn lower_operation(node: Node, ctx: &mut TraverseCtx<TransformState>) -> Result<Node, AllocError>
    requires on { ctx.old.options.es2016.exponentiation_operator ≡ true }
    requires lowerable { is_lowerable_exponentiation (kind_of node) (label_of node) (fields_of node) ≡ true }
    requires operation { kind_of node ≡ AnyOperation }
    requires room { HasRoom (moment_of ctx.old) (load node) }
    ensures { IfOk result (λ made. Seen (Lowers ctx.old ctx.new) node made) }
{
    let BinaryExpression {
        id: _id,
        span,
        operator: _operator,
        left,
        right,
    } = BinaryExpression::open(node);
    let made = new_power(span, left, right, ctx)?;
    Ok(made)
}

/// `t **= r` as `t = Math.pow(t, r)`, with what stands in `t` evaluated once, in front.
fn lower_assignment(node: Node, ctx: &mut TraverseCtx<TransformState>) -> Result<Node, AllocError>
    requires on { ctx.old.options.es2016.exponentiation_operator ≡ true }
    requires lowerable { is_lowerable_exponentiation (kind_of node) (label_of node) (fields_of node) ≡ true }
    requires assignment { kind_of node ≡ AnyAssignment }
    requires there { 0 < length ctx.old.state.var_declarations }
    requires room { HasRoom (moment_of ctx.old) (load node) }
    ensures { IfOk result (λ made. Seen (Lowers ctx.old ctx.new) node made) }
{
    let AssignmentExpression {
        id: _id,
        span,
        operator: _operator,
        left,
        right,
    } = AssignmentExpression::open(node);
    let used = use_target(take_from_parens(left), ctx)?;
    let made = new_power_assignment(span, used, right, ctx)?;
    Ok(made)
}

/// `target = Math.pow(read, right)`, or behind what goes in front `(first, target = Math.pow(read, right))`, where the parentheses are
/// for reading. With this span is the sequence, or the assignment where nothing goes in front.
fn new_power_assignment(
    span: Span,
    used: Twice,
    right: Node,
    ctx: &mut TraverseCtx<TransformState>,
) -> Result<Node, AllocError>
    requires room { ctx.old.ast.next + 6 < 2 ^ 32 - 1 }
    ensures made { IfOk result (λ node. (names : ℕ → Text → Option ℕ) → seen names node ≡ assigned_power (at_span span) (map (seen names) used.first.items) (seen names used.written) (seen names used.read) (seen names right)) }
    ensures reads { OnOk result (ReadsMore (nodes_around used.first.items) ctx.old ctx.new) }
{
    let Twice {
        first,
        written,
        read,
    } = used;
    let value = new_power(MADE, read, right, ctx)?;
    let assign = AssignmentOperator::Assign;
    if first.is_empty() {
        let node = new_assignment_expression(&mut ctx.ast, span, assign, written, value)?;
        return Ok(node);
    }
    let last = new_assignment_expression(&mut ctx.ast, MADE, assign, written, value)?;
    let mut expressions = first;
    expressions.push(last)?;
    let node = new_sequence_expression(&mut ctx.ast, span, expressions)?;
    Ok(node)
}

/// `Math.pow(left, right)` with this span.
fn new_power(
    span: Span,
    left: Node,
    right: Node,
    ctx: &mut TraverseCtx<TransformState>,
) -> Result<Node, AllocError>
    requires room { ctx.old.ast.next + 4 < 2 ^ 32 - 1 }
    ensures made { IfOk result (λ node. (names : ℕ → Text → Option ℕ) → seen names node ≡ power_at (at_span span) (seen names left) (seen names right)) }
    ensures reads { OnOk result (ReadsMore 4 ctx.old ctx.new) }
{
    let object = read_name("Math", None, ctx)?;
    let alloc = ctx.ast.alloc;
    let name = String::from_str(alloc, "pow")?;
    let property = new_identifier(&mut ctx.ast, MADE, name)?;
    let callee = new_member_expression(&mut ctx.ast, MADE, false, false, object, property)?;
    let operands = Vec::from_array(alloc, [left, right])?;
    let node = new_call_expression(&mut ctx.ast, span, false, callee, operands)?;
    Ok(node)
}
