//! What is stored under a fresh name, and the assignments of what is stored: the whole, and what is left of it for a rest.
//!
//! A call answers an error only for want of memory, and the context is then of no more use.
ghost use Rattle.std.specs.Prelude.{◌≡◌, ◌+◌, ◌-◌, ◌^◌, ◌<◌, ◌≤◌, ◌∷◌, [], ℕ, IfOk, OnOk, Option, length};
ghost use Rattle.es_tree.specs.Views.{plain_fields};
ghost use Rattle.es_tree.specs.Words.{Text};
ghost use Rattle.es_resolution.specs.Seen.{seen, seen_in};
ghost use Rattle.es_steps.specs.Nodes.{assign_node, call_node, identifier};
ghost use Rattle.es_steps.specs.ObjectRest.{whole_value};
ghost use Rattle.lower_temporaries.specs.Declarators.{bound_as};
ghost use Rattle.lower_temporaries.specs.Helpers.{keys_value, mapped_ids, rest_helper};
ghost use Rattle.lower_temporaries.specs.SeenTrees.{IsSeenAs};
ghost use Rattle.lower_temporaries.specs.Takings.{ReadsMore};
ghost use Rattle.lower_rest_assignments.specs.Stored.{Stores};

use es_expressions::operations::new_assignment_expression;
use es_scope::context::TraverseCtx;
use es_scope::context_names::BoundIdentifier;
use es_tree::node::{Field, Node};
use es_tree::operators::AssignmentOperator;
use lower_temporaries::declarations::MADE;
use lower_temporaries::helpers::{new_rest_value, new_whole_value};
use lower_temporaries::state::TransformState;
use lower_temporaries::temporaries::{Temporary, new_temporary, read_name};
use std::alloc::AllocError;

/// An expression that is stored.
#[derive(Drop)]
pub(crate) struct Stored {
    /// The fresh name.
    pub(crate) name: BoundIdentifier,
    /// `_e = e`
    pub(crate) assignment: Node,
}

/// `_e = e`, with a fresh name that `var` declares at the head of the innermost statement list.
pub(crate) fn store(
    expression: Node,
    ctx: &mut TraverseCtx<TransformState>,
) -> Result<Stored, AllocError>
    requires there { 0 < length ctx.old.state.var_declarations }
    requires room { ctx.old.ast.next + 4 < 2 ^ 32 - 1 }
    ensures { IfOk result (λ stored. Stores ctx.old ctx.new expression stored) }
{
    let Temporary {
        name,
        symbol_id,
        target,
    } = new_temporary(&expression, ctx)?;
    let assign = AssignmentOperator::Assign;
    let assignment = new_assignment_expression(&mut ctx.ast, MADE, assign, target, expression)?;
    Ok(Stored {
        name: BoundIdentifier { name, symbol_id },
        assignment,
    })
}

/// The name of what is stored, as it is read.
pub(crate) fn read(
    name: &BoundIdentifier,
    ctx: &mut TraverseCtx<TransformState>,
) -> Result<Node, AllocError>
    requires room { ctx.old.ast.next + 1 ≤ 2 ^ 32 - 1 }
    ensures made { IfOk result (λ node. IsSeenAs node (identifier (bound_as name.now))) }
    ensures reads { OnOk result (ReadsMore 1 ctx.old ctx.new) }
{
    let node = read_name(name.name.as_str(), Some(name.symbol_id), ctx)?;
    Ok(node)
}

/// `{ a } = s` for the pattern `{ a }` and a stored source `s`.
pub(crate) fn assign_source(
    pattern: Node,
    source: &BoundIdentifier,
    ctx: &mut TraverseCtx<TransformState>,
) -> Result<Node, AllocError>
    requires room { ctx.old.ast.next + 2 < 2 ^ 32 }
    ensures made { IfOk result (λ node. (names : ℕ → Text → Option ℕ) → seen names node ≡ assign_node (seen names pattern) (identifier (bound_as source.now))) }
    ensures reads { OnOk result (ReadsMore 2 ctx.old ctx.new) }
{
    let value = read(source, ctx)?;
    let assign = AssignmentOperator::Assign;
    let node = new_assignment_expression(&mut ctx.ast, MADE, assign, pattern, value)?;
    Ok(node)
}

/// `b = babelHelpers.objectWithoutProperties(s, ["a"])` for the target `b`, a stored source `s` and these keys, and
/// `b = babelHelpers.objectWithoutProperties(s, ["a", _k].map(babelHelpers.toPropertyKey))` where one of them is read.
pub(crate) fn assign_rest(
    target: Node,
    source: &BoundIdentifier,
    keys: Vec<Field>,
    is_read: bool,
    ctx: &mut TraverseCtx<TransformState>,
) -> Result<Node, AllocError>
    requires room { ctx.old.ast.next + 13 < 2 ^ 32 }
    ensures made { IfOk result (λ node. (names : ℕ → Text → Option ℕ) → seen names node ≡ assign_node (seen names target) (call_node rest_helper (identifier (bound_as source.now) ∷ keys_value is_read (seen_in names (plain_fields keys.items)) ∷ []))) }
    ensures reads { OnOk result (ReadsMore (7 + mapped_ids is_read) ctx.old ctx.new) }
{
    let again = read(source, ctx)?;
    let value = new_rest_value(again, keys, is_read, ctx)?;
    let assign = AssignmentOperator::Assign;
    let node = new_assignment_expression(&mut ctx.ast, MADE, assign, target, value)?;
    Ok(node)
}

/// `b = babelHelpers.extends({}, (babelHelpers.objectDestructuringEmpty(s), s))` for the target `b` and a stored source `s`.
pub(crate) fn assign_whole(
    target: Node,
    source: &BoundIdentifier,
    ctx: &mut TraverseCtx<TransformState>,
) -> Result<Node, AllocError>
    requires room { ctx.old.ast.next + 13 < 2 ^ 32 }
    ensures made { IfOk result (λ node. (names : ℕ → Text → Option ℕ) → seen names node ≡ assign_node (seen names target) (whole_value (identifier (bound_as source.now)))) }
    ensures reads { OnOk result (ReadsMore 13 ctx.old ctx.new) }
{
    let asked = read(source, ctx)?;
    let again = read(source, ctx)?;
    let value = new_whole_value(asked, again, ctx)?;
    let assign = AssignmentOperator::Assign;
    let node = new_assignment_expression(&mut ctx.ast, MADE, assign, target, value)?;
    Ok(node)
}
