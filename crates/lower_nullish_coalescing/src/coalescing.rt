//! A `??` as a conditional (ECMA-262, 13.13).
ghost use Rattle.std.specs.Prelude.{◌≡◌, ◌+◌, ◌-◌, ◌^◌, ◌<◌, ℕ, IfOk, OnOk, Option, length, true};
ghost use Rattle.es_tree.specs.Constructs.{is_nullish_coalescing};
ghost use Rattle.es_tree.specs.Tree.{fields_of, kind_of, label_of};
ghost use Rattle.es_tree.specs.Words.{Text};
ghost use Rattle.es_tree.specs.declared.ast_type.AstType.TheVariants.{ConditionalExpression as AnyConditionalExpression, LogicalExpression as AnyLogicalExpression};
ghost use Rattle.es_resolution.specs.Seen.{seen};
ghost use Rattle.es_scope.specs.ContextSymbols.{steady_symbols_of};
ghost use Rattle.es_runs.specs.Duplication.{has_no_fields};
ghost use Rattle.es_runs.specs.Rules.{tested};
ghost use Rattle.es_steps.specs.NullishCoalescing.{NullishCoalescingRule, reads_again};
ghost use Rattle.es_changes.specs.Changes.{HasRoom};
ghost use Rattle.es_traverse.specs.Laws.{Seen, anything};
ghost use Rattle.es_traverse.specs.Loads.{load};
ghost use Rattle.lower_temporaries.specs.Replacings.{Replaces};
ghost use Rattle.lower_temporaries.specs.Shapes.{at_span};
ghost use Rattle.lower_temporaries.specs.Takings.{ReadsMore, moment_of};
ghost use Rattle.lower_nullish_coalescing.specs.Coalescings.{ByTemporary, is_lowerable_coalescing};

use es_expressions::operations::{
    LogicalExpression, new_assignment_expression, new_conditional_expression,
    new_logical_expression,
};
use es_scope::context::TraverseCtx;
use es_tree::builder::AstBuilder;
use es_tree::ids::Span;
use es_tree::kind::Kind;
use es_tree::node::Node;
use es_tree::operators::{AssignmentOperator, BinaryOperator, LogicalOperator};
use lower_temporaries::declarations::MADE;
use lower_temporaries::made_nodes::{new_null_test, new_undefined_test};
use lower_temporaries::readings::{is_steady, read_once_more};
use lower_temporaries::shapes::is_pair;
use lower_temporaries::state::TransformState;
use lower_temporaries::temporaries::{Temporary, new_temporary, read_name};
use std::alloc::AllocError;

/// Whether the node is a `??`.
fn is_coalescing(node: &Node) -> bool
    ensures { result ≡ is_nullish_coalescing (kind_of node.now) (label_of node.now) (fields_of node.now) }
{
    match &node.kind {
        Kind::LogicalExpression { operator } => matches!(operator, LogicalOperator::Coalesce),
        _ => false,
    }
}

/// Whether the node is a `??` with its sides.
pub(crate) fn is_lowerable(node: &Node) -> bool
    ensures { result ≡ is_lowerable_coalescing (kind_of node.now) (label_of node.now) (fields_of node.now) }
{
    is_coalescing(node) && is_pair(node.fields.as_slice())
}

/// Whether a left side is read twice as it stands: `this`, and a name with a symbol that no reference writes.
fn reads_again(left: &Node, ctx: &TraverseCtx<TransformState>) -> bool
    ensures seen { (names : ℕ → Text → Option ℕ) → result ≡ reads_again (steady_symbols_of ctx.now) (seen names left.now) }
    ensures alone { result ≡ true → has_no_fields (fields_of left.now) ≡ true }
{
    match &left.kind {
        Kind::ThisExpression => left.fields.is_empty(),
        Kind::Identifier { symbol, .. } => is_steady(*symbol, ctx) && left.fields.is_empty(),
        _ => false,
    }
}

/// `first !== null && again !== void 0 ? value : right`, with this span. The first three are read in this order, and
/// `right` where one of the tests fails.
fn new_tested(
    ast: &mut AstBuilder,
    span: Span,
    first: Node,
    again: Node,
    value: Node,
    right: Node,
) -> Result<Node, AllocError>
    requires room { ast.old.next + 7 < 2 ^ 32 - 1 }
    requires same { Seen (λ t u. u ≡ t) again value }
    ensures made { IfOk result (λ node. (names : ℕ → Text → Option ℕ) → seen names node ≡ tested (at_span span) (seen names first) (seen names again) (seen names right)) }
    ensures counted { IfOk result (λ _. ast.new.next ≡ ast.old.next + 7) }
{
    let unequal = BinaryOperator::StrictInequality;
    let is_not_null = new_null_test(ast, unequal, first)?;
    let is_not_undefined = new_undefined_test(ast, unequal, again)?;
    let test = new_logical_expression(
        ast,
        MADE,
        LogicalOperator::And,
        is_not_null,
        is_not_undefined,
    )?;
    let node = new_conditional_expression(ast, span, test, value, right)?;
    Ok(node)
}

/// `left ?? right` where `left` is read again: `left !== null && left !== void 0 ? left : right`.
fn lower_by_reading(
    span: Span,
    left: Node,
    right: Node,
    ctx: &mut TraverseCtx<TransformState>,
) -> Result<Node, AllocError>
    requires alone { has_no_fields (fields_of left) ≡ true }
    requires room { ctx.old.ast.next + 9 < 2 ^ 32 - 1 }
    ensures made { IfOk result (λ node. (names : ℕ → Text → Option ℕ) → seen names node ≡ tested (at_span span) (seen names left) (seen names left) (seen names right)) }
    ensures reads { OnOk result (ReadsMore 9 ctx.old ctx.new) }
{
    let again = read_once_more(&left, ctx)?;
    let value = read_once_more(&left, ctx)?;
    let node = new_tested(&mut ctx.ast, span, left, again, value, right)?;
    Ok(node)
}

/// `left ?? right` where `left` takes a temporary, which is declared in the innermost statement list:
/// `(x = left) !== null && x !== void 0 ? x : right`.
fn lower_by_temporary(
    span: Span,
    left: Node,
    right: Node,
    ctx: &mut TraverseCtx<TransformState>,
) -> Result<Node, AllocError>
    requires there { 0 < length ctx.old.state.var_declarations }
    requires room { ctx.old.ast.next + 13 < 2 ^ 32 - 1 }
    ensures { IfOk result (λ node. ByTemporary ctx.old ctx.new span left right node) }
{
    let Temporary {
        name,
        symbol_id,
        target,
    } = new_temporary(&left, ctx)?;
    let again = read_name(name.as_str(), Some(symbol_id), ctx)?;
    let value = read_name(name.as_str(), Some(symbol_id), ctx)?;
    let assign = AssignmentOperator::Assign;
    let first = new_assignment_expression(&mut ctx.ast, MADE, assign, target, left)?;
    let node = new_tested(&mut ctx.ast, span, first, again, value, right)?;
    Ok(node)
}

/// The conditional of a `??`. Fails only for want of memory.
pub(crate) fn lower_coalescing(
    node: Node,
    ctx: &mut TraverseCtx<TransformState>,
) -> Result<Node, AllocError>
    requires lowerable { is_lowerable_coalescing (kind_of node) (label_of node) (fields_of node) ≡ true }
    requires room { HasRoom (moment_of ctx.old) (load node) }
    requires there { 0 < length ctx.old.state.var_declarations }
    ensures replaced { IfOk result (λ made. Seen (λ t u. Replaces anything NullishCoalescingRule (moment_of ctx.old) t (moment_of ctx.new) u) node made) }
    ensures kinds { IfOk result (λ made. Seen (λ t u. (kind_of t ≡ AnyLogicalExpression) × (kind_of u ≡ AnyConditionalExpression)) node made) }
{
    let LogicalExpression {
        id: _id,
        span,
        operator: _operator,
        left,
        right,
    } = LogicalExpression::open(node);
    if reads_again(&left, ctx) {
        let made = lower_by_reading(span, left, right, ctx)?;
        Ok(made)
    } else {
        let made = lower_by_temporary(span, left, right, ctx)?;
        Ok(made)
    }
}
