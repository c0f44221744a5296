//! An assignment to a pattern with a rest, as a sequence (ECMA-262, 13.15.5): each part of it is moved.
ghost use Rattle.std.specs.Prelude.{◌≡◌, ◌+◌, ◌-◌, ◌^◌, ◌<◌, ◌≤◌, IfOk, is_some, length, true};
ghost use Rattle.es_tree.specs.Tree.{fields_of, kind_of, label_of};
ghost use Rattle.es_scope.specs.Contexts.{around_of};
ghost use Rattle.es_changes.specs.Changes.{HasRoom};
ghost use Rattle.es_traverse.specs.Laws.{Seen};
ghost use Rattle.es_traverse.specs.Loads.{load};
ghost use Rattle.lower_temporaries.specs.Declarators.{bound_as};
ghost use Rattle.lower_temporaries.specs.Takings.{moment_of};
ghost use Rattle.lower_rest_assignments.specs.Assignments.{is_lowerable_assignment};
ghost use Rattle.lower_rest_assignments.specs.Rows.{AddsValue, Lowers};
ghost use Rattle.lower_rest_assignments.specs.Unused.{is_parenthesis, is_statement, is_unused};

use crate::groups::add_pattern;
use crate::values::{Stored, read, store};
use es_expressions::operations::{AssignmentExpression, new_sequence_expression};
use es_scope::ancestor::Ancestor;
use es_scope::context::TraverseCtx;
use es_scope::context_names::BoundIdentifier;
use es_tree::ast_type::AstType;
use es_tree::node::Node;
use lower_temporaries::state::TransformState;
use std::alloc::AllocError;

/// `{ a, ...b } = e` as `(_e = e, { a } = _e, b = babelHelpers.objectWithoutProperties(_e, ["a"]), _e)`, with the place of the assignment, and
/// without the last where its value isn't used. Fails only for want of memory.
pub(crate) fn lower_assignment(
    node: Node,
    ctx: &mut TraverseCtx<TransformState>,
) -> Result<Node, AllocError>
    requires on { is_some ctx.old.options.es2018.object_rest_spread ≡ true }
    requires lowerable { is_lowerable_assignment (kind_of node) (label_of node) (fields_of node) ≡ true }
    requires room { HasRoom (moment_of ctx.old) (load node) }
    requires there { 0 < length ctx.old.state.var_declarations }
    ensures { IfOk result (λ made. Seen (Lowers ctx.old ctx.new) node made) }
{
    let unused = is_unused(ctx);
    let AssignmentExpression {
        id: _id,
        span,
        operator: _operator,
        left,
        right,
    } = AssignmentExpression::open(node);
    let Stored { name, assignment } = store(right, ctx)?;
    let first = Vec::from_array(ctx.ast.alloc, [assignment])?;
    let assignments = add_pattern(left, &name, first, ctx)?;
    let expressions = add_value(assignments, &name, unused, ctx)?;
    let sequence = new_sequence_expression(&mut ctx.ast, span, expressions)?;
    Ok(sequence)
}

/// The value `_e` behind these assignments, unless it isn't used.
fn add_value(
    assignments: Vec<Node>,
    name: &BoundIdentifier,
    unused: bool,
    ctx: &mut TraverseCtx<TransformState>,
) -> Result<Vec<Node>, AllocError>
    requires room { ctx.old.ast.next + 1 ≤ 2 ^ 32 - 1 }
    ensures { IfOk result (λ all. AddsValue (bound_as name.now) unused ctx.old ctx.new assignments.items all.items) }
{
    let mut expressions = assignments;
    if unused {
        return Ok(expressions);
    }
    let value = read(name, ctx)?;
    expressions.push(value)?;
    Ok(expressions)
}

/// Whether the value of the expression at this place isn't used: it is a statement, maybe in parentheses.
fn is_unused(ctx: &TraverseCtx<TransformState>) -> bool
    ensures { result ≡ is_unused (around_of ctx.now) }
{
    for place in 0..usize::MAX {
        let Some(ancestor) = ctx.ancestor(place) else {
            return false;
        };
        if is_statement(ancestor) {
            return true;
        }
        if !is_parenthesis(ancestor) {
            return false;
        }
    }
    false
}

/// Whether this field of an ancestor has the expression that it is as a statement.
fn is_statement(ancestor: Ancestor) -> bool
    ensures { result ≡ is_statement ancestor }
{
    matches!(ancestor.kind, AstType::ExpressionStatement) && ancestor.field == 0
}

/// Whether this field of an ancestor has the expression that stands in its parentheses.
fn is_parenthesis(ancestor: Ancestor) -> bool
    ensures { result ≡ is_parenthesis ancestor }
{
    matches!(ancestor.kind, AstType::ParenthesizedExpression) && ancestor.field == 0
}
