//! The choice that a lowered chain becomes, by its tests.
ghost use Rattle.std.specs.Prelude.{◌≡◌, ◌+◌, ◌-◌, ◌^◌, ◌<◌, IfOk, length, map};
ghost use Rattle.es_resolution.specs.Seen.{seen};
ghost use Rattle.es_runs.specs.OptionalChaining.{joined_by_or, where_short};
ghost use Rattle.lower_temporaries.specs.Shapes.{at_span};
ghost use Rattle.lower_chains.specs.Parts.{ChoosesCallee, ChoosesDeleted, ChoosesValue};
ghost use Rattle.lower_chains.specs.Ways.{Names};

use crate::receivers::bind_callee;
use crate::way::Way;
use es_expressions::literals::new_boolean_literal;
use es_expressions::operations::{
    new_conditional_expression, new_logical_expression, new_unary_expression,
};
use es_scope::context::TraverseCtx;
use es_tree::builder::AstBuilder;
use es_tree::ids::Span;
use es_tree::node::Node;
use es_tree::operators::{LogicalOperator, UnaryOperator};
use lower_temporaries::declarations::MADE;
use lower_temporaries::made_nodes::new_void_zero;
use lower_temporaries::state::TransformState;
use std::alloc::AllocError;

/// `first || other || ..`
fn join_by_or(ast: &mut AstBuilder, first: Node, others: Vec<Node>) -> Result<Node, AllocError>
    requires room { ast.old.next + length others.items < 2 ^ 32 - 1 }
    ensures joined { IfOk result (λ node. (names : Names) → seen names node ≡ joined_by_or (seen names first) (map (seen names) others.items)) }
    ensures counted { IfOk result (λ _. ast.new.next ≡ ast.old.next + length others.items) }
{
    let mut joined = first;
    for other in others {
        joined = new_logical_expression(ast, MADE, LogicalOperator::Or, joined, other)?;
    }
    Ok(joined)
}

/// `tests ? short : long` with this span.
fn new_choice(
    ast: &mut AstBuilder,
    span: Span,
    tests: Vec<Node>,
    short: Node,
    long: Node,
) -> Result<Node, AllocError>
    requires some { 0 < length tests.items }
    requires room { ast.old.next + length tests.items < 2 ^ 32 - 1 }
    ensures made { IfOk result (λ node. (names : Names) → seen names node ≡ where_short (at_span span) (map (seen names) tests.items) (seen names short) (seen names long)) }
    ensures counted { IfOk result (λ _. ast.new.next ≡ ast.old.next + length tests.items) }
{
    let mut others = tests;
    let first = others.remove(0);
    let test = join_by_or(ast, first, others)?;
    let node = new_conditional_expression(ast, span, test, short, long)?;
    Ok(node)
}

/// `tests ? void 0 : current`
pub(crate) fn choose_value(
    span: Span,
    way: Way,
    ctx: &mut TraverseCtx<TransformState>,
) -> Result<Node, AllocError>
    requires some { 0 < length way.tests.items }
    requires room { ctx.old.ast.next + length way.tests.items + 2 < 2 ^ 32 - 1 }
    ensures { IfOk result (λ node. (names : Names) → ChoosesValue names span way ctx.old ctx.new (seen names node)) }
{
    let Way {
        tests,
        current,
        holder: _holder,
    } = way;
    let undefined = new_void_zero(&mut ctx.ast)?;
    let node = new_choice(&mut ctx.ast, span, tests, undefined, current)?;
    Ok(node)
}

/// `tests ? void 0 : current`, `current` being bound to its receiver.
pub(crate) fn choose_callee(
    span: Span,
    way: Way,
    ctx: &mut TraverseCtx<TransformState>,
) -> Result<Node, AllocError>
    requires some { 0 < length way.tests.items }
    requires there { 0 < length ctx.old.state.var_declarations }
    requires room { ctx.old.ast.next + length way.tests.items + 11 < 2 ^ 32 - 1 }
    ensures { IfOk result (λ node. (names : Names) → ChoosesCallee names span way ctx.old ctx.new (seen names node)) }
{
    let Way {
        tests,
        current,
        holder,
    } = way;
    let callee = bind_callee(current, &holder, ctx)?;
    let undefined = new_void_zero(&mut ctx.ast)?;
    let node = new_choice(&mut ctx.ast, span, tests, undefined, callee)?;
    Ok(node)
}

/// `tests ? true : delete current`
pub(crate) fn choose_deleted(
    span: Span,
    way: Way,
    ctx: &mut TraverseCtx<TransformState>,
) -> Result<Node, AllocError>
    requires some { 0 < length way.tests.items }
    requires room { ctx.old.ast.next + length way.tests.items + 2 < 2 ^ 32 - 1 }
    ensures { IfOk result (λ node. (names : Names) → ChoosesDeleted names span way ctx.old ctx.new (seen names node)) }
{
    let Way {
        tests,
        current,
        holder: _holder,
    } = way;
    let deleted = new_unary_expression(&mut ctx.ast, MADE, UnaryOperator::Delete, current)?;
    let yes = new_boolean_literal(&mut ctx.ast, MADE, true)?;
    let node = new_choice(&mut ctx.ast, span, tests, yes, deleted)?;
    Ok(node)
}
