//! A logical assignment as a logical expression (ECMA-262, 13.15).
ghost use Rattle.std.specs.Prelude.{◌≡◌, ◌+◌, ◌-◌, ◌^◌, ◌<◌, ℕ, IfOk, Option, length, true};
ghost use Rattle.es_tree.specs.Tree.{fields_of, kind_of, label_of};
ghost use Rattle.es_tree.specs.Views.{plain_fields};
ghost use Rattle.es_tree.specs.Words.{Text, assignment_operator_text, logical_operator_text};
ghost use Rattle.es_tree.specs.declared.ast_type.AstType.TheVariants.{AssignmentExpression as AnyAssignmentExpression, LogicalExpression as AnyLogicalExpression};
ghost use Rattle.es_resolution.specs.Seen.{seen};
ghost use Rattle.es_runs.specs.Core.{without_last};
ghost use Rattle.es_runs.specs.LogicalAssignment.{is_logical_assignment_operator};
ghost use Rattle.es_steps.specs.LogicalAssignment.{LogicalAssignmentRule};
ghost use Rattle.es_changes.specs.Changes.{HasRoom};
ghost use Rattle.es_traverse.specs.Laws.{Seen, anything};
ghost use Rattle.es_traverse.specs.Loads.{load};
ghost use Rattle.lower_temporaries.specs.Replacings.{Replaces};
ghost use Rattle.lower_temporaries.specs.Takings.{moment_of};
ghost use Rattle.lower_logical_assignment.specs.Assignments.{assigned_at, has_target, is_lowerable_assignment};

use crate::targets::{duplicate_target, is_target};
use es_expressions::operations::{
    AssignmentExpression, new_assignment_expression, new_logical_expression,
};
use es_scope::context::TraverseCtx;
use es_tree::builder::AstBuilder;
use es_tree::ids::Span;
use es_tree::kind::Kind;
use es_tree::node::{Field, Node};
use es_tree::operators::{AssignmentOperator, LogicalOperator};
use es_tree::parens::strip_parens;
use lower_temporaries::declarations::MADE;
use lower_temporaries::parens::take_from_parens;
use lower_temporaries::state::TransformState;
use std::alloc::AllocError;

/// Whether the operator is `||=`, `&&=` or `??=`.
fn is_logical(operator: AssignmentOperator) -> bool
    ensures { result ≡ is_logical_assignment_operator (assignment_operator_text operator) }
{
    matches!(
        operator,
        AssignmentOperator::LogicalOr
            | AssignmentOperator::LogicalAnd
            | AssignmentOperator::LogicalNullish
    )
}

/// Whether these are two sides, of which the first one is a target that is lowered, maybe in parentheses.
fn has_target(fields: &[Field]) -> bool
    ensures { result ≡ has_target (plain_fields fields.now) }
{
    match fields {
        [Field::One(target), Field::One(..)] => is_target(strip_parens(target)),
        _ => false,
    }
}

/// Whether the node is a logical assignment that is lowered.
pub(crate) fn is_lowerable(node: &Node) -> bool
    ensures { result ≡ is_lowerable_assignment (kind_of node.now) (label_of node.now) (fields_of node.now) }
{
    match &node.kind {
        Kind::AssignmentExpression { operator } => {
            is_logical(*operator) && has_target(node.fields.as_slice())
        }
        _ => false,
    }
}

/// The operator of the test: that of the assignment without its `=`.
fn test_operator(operator: AssignmentOperator) -> LogicalOperator
    requires { is_logical_assignment_operator (assignment_operator_text operator) ≡ true }
    ensures { logical_operator_text result ≡ without_last (assignment_operator_text operator) }
{
    match operator {
        AssignmentOperator::LogicalOr => LogicalOperator::Or,
        AssignmentOperator::LogicalAnd => LogicalOperator::And,
        AssignmentOperator::LogicalNullish => LogicalOperator::Coalesce,
        _ => unreachable!(),
    }
}

/// `read op (written = right)`, with this span.
fn new_assigned(
    ast: &mut AstBuilder,
    span: Span,
    operator: LogicalOperator,
    read: Node,
    written: Node,
    right: Node,
) -> Result<Node, AllocError>
    requires room { ast.old.next + 2 < 2 ^ 32 - 1 }
    ensures made { IfOk result (λ node. (names : ℕ → Text → Option ℕ) → seen names node ≡ assigned_at span (logical_operator_text operator) (seen names read) (seen names written) (seen names right)) }
    ensures counted { IfOk result (λ _. ast.new.next ≡ ast.old.next + 2) }
{
    let assign = AssignmentOperator::Assign;
    let assignment = new_assignment_expression(ast, MADE, assign, written, right)?;
    let node = new_logical_expression(ast, span, operator, read, assignment)?;
    Ok(node)
}

/// The logical expression of a logical assignment. Fails only for want of memory.
pub(crate) fn lower_assignment(
    node: Node,
    ctx: &mut TraverseCtx<TransformState>,
) -> Result<Node, AllocError>
    requires lowerable { is_lowerable_assignment (kind_of node) (label_of node) (fields_of node) ≡ true }
    requires room { HasRoom (moment_of ctx.old) (load node) }
    requires there { 0 < length ctx.old.state.var_declarations }
    ensures replaced { IfOk result (λ made. Seen (λ t u. Replaces anything LogicalAssignmentRule (moment_of ctx.old) t (moment_of ctx.new) u) node made) }
    ensures kinds { IfOk result (λ made. Seen (λ t u. (kind_of t ≡ AnyAssignmentExpression) × (kind_of u ≡ AnyLogicalExpression)) node made) }
{
    let AssignmentExpression {
        id: _id,
        span,
        operator,
        left,
        right,
    } = AssignmentExpression::open(node);
    let target = take_from_parens(left);
    let (read, written) = duplicate_target(target, ctx)?;
    let operator = test_operator(operator);
    let made = new_assigned(&mut ctx.ast, span, operator, read, written, right)?;
    Ok(made)
}
