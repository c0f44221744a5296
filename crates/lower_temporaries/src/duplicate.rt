//! Duplication: an expression that is read more than once. What gives the same each time is written down again,
//! and all else takes a temporary, to which its first use assigns it.
//!
//! The expression goes in by value. What comes out is the expression at its first use, and as many further
//! uses as were asked for, all to be evaluated after the first. A call answers an error only for want of
//! memory, and the context is then of no more use.
ghost use Rattle.std.specs.Prelude.{◌≡◌, ◌+◌, ◌*◌, ◌-◌, ◌^◌, ◌<◌, ◌≤◌, [], ◌∷◌, ℕ, IfOk, OnOk, Option, length, map};
ghost use Rattle.es_tree.specs.Tree.{tree_size};
ghost use Rattle.es_tree.specs.Words.{Text};
ghost use Rattle.es_changes.specs.Moments.{whole_at};
ghost use Rattle.es_resolution.specs.Seen.{seen};
ghost use Rattle.es_runs.specs.Duplication.{duplicate_base};
ghost use Rattle.es_steps.specs.Duplication.{IsNext};
ghost use Rattle.lower_temporaries.specs.Declarators.{bound_as};
ghost use Rattle.lower_temporaries.specs.Duplicates.{Duplicates};
ghost use Rattle.lower_temporaries.specs.FurtherUses.{DuplicatedSoFar, read_by};
ghost use Rattle.lower_temporaries.specs.Takings.{ReadsMore, moment_of};
ghost use Rattle.lower_temporaries.specs.UidVars.{DeclaresVar};

use crate::declarations::{MADE, VarDeclarationsStore};
use crate::readings::{WRITES, is_read_again, read_once_more};
use crate::state::TransformState;
use crate::temporaries::read_name;
use es_expressions::operations::new_assignment_expression;
use es_scope::context::TraverseCtx;
use es_scope::context_names::BoundIdentifier;
use es_tree::kind::Kind;
use es_tree::operators::AssignmentOperator;
use es_tree::sorts::Expression;
use std::alloc::AllocError;

/// How an expression is read again after its first use.
#[derive(Drop)]
enum Again {
    /// By a copy of the first use.
    ByCopy,
    /// By the temporary that the first use assigns it to.
    ByTemporary(BoundIdentifier),
}

/// The expression with one further use. It is that expression twice where it can be read again, and else
/// `t = expression` and `t` (ECMA-262, 13.15), with a fresh name `t` that `var` declares at the head of the
/// innermost statement list.
///
/// Where `mutated_symbol_needs_temp_var` is set, a name that some reference writes takes a temporary, and
/// else each name that has a symbol is read again. Answers an error only for want of memory.
pub fn duplicate_expression(
    expression: Expression,
    mutated_symbol_needs_temp_var: bool,
    ctx: &mut TraverseCtx<TransformState>,
) -> Result<(Expression, Expression), AllocError>
    requires there { 0 < length ctx.old.state.var_declarations }
    requires room { ctx.old.ast.next + 6 < 2 ^ 32 - 1 }
    ensures duplicated { IfOk result (λ r. (names : ℕ → Text → Option ℕ) → Duplicates mutated_symbol_needs_temp_var 1 ctx.old ctx.new (seen names expression) (seen names r.0) (seen names r.1 ∷ [])) }
{
    let (first, again) = first_use(expression, mutated_symbol_needs_temp_var, ctx)?;
    let second = further_use(&first, &again, ctx)?;
    Ok((first, second))
}

/// The expression with two further uses, as by `duplicate_expression`. Answers an error only for want of
/// memory.
pub fn duplicate_expression_twice(
    expression: Expression,
    mutated_symbol_needs_temp_var: bool,
    ctx: &mut TraverseCtx<TransformState>,
) -> Result<(Expression, Expression, Expression), AllocError>
    requires there { 0 < length ctx.old.state.var_declarations }
    requires room { ctx.old.ast.next + 8 < 2 ^ 32 - 1 }
    ensures duplicated { IfOk result (λ r. (names : ℕ → Text → Option ℕ) → Duplicates mutated_symbol_needs_temp_var 2 ctx.old ctx.new (seen names expression) (seen names r.0) (seen names r.1 ∷ seen names r.2 ∷ [])) }
{
    let (first, again) = first_use(expression, mutated_symbol_needs_temp_var, ctx)?;
    let second = further_use(&first, &again, ctx)?;
    let third = further_use(&first, &again, ctx)?;
    Ok((first, second, third))
}

/// The expression with `N` further uses, as by `duplicate_expression`. Answers an error only for want of
/// memory.
pub fn duplicate_expression_multiple<const N: usize>(
    expression: Expression,
    mutated_symbol_needs_temp_var: bool,
    ctx: &mut TraverseCtx<TransformState>,
) -> Result<(Expression, Vec<Expression>), AllocError>
    requires there { 0 < length ctx.old.state.var_declarations }
    requires room { ctx.old.ast.next + 2 * N + 4 < 2 ^ 32 - 1 }
    ensures duplicated { IfOk result (λ r. (names : ℕ → Text → Option ℕ) → Duplicates mutated_symbol_needs_temp_var N ctx.old ctx.new (seen names expression) (seen names r.0) (map (seen names) r.1.items)) }
{
    let (first, again) = first_use(expression, mutated_symbol_needs_temp_var, ctx)?;
    let mut others = Vec::with_capacity(ctx.ast.alloc, N)?;
    for _ in 0..N {
        others.push(further_use(&first, &again, ctx)?)?;
    }
    Ok((first, others))
}

/// The expression as it stands at its first use, and how it is read again.
fn first_use(
    expression: Expression,
    mutated_symbol_needs_temp_var: bool,
    ctx: &mut TraverseCtx<TransformState>,
) -> Result<(Expression, Again), AllocError>
    requires there { 0 < length ctx.old.state.var_declarations }
    requires room { ctx.old.ast.next + 4 < 2 ^ 32 - 1 }
    ensures begun { IfOk result (λ r. (names : ℕ → Text → Option ℕ) → DuplicatedSoFar mutated_symbol_needs_temp_var 0 ctx.old ctx.new (seen names expression) (seen names r.0) r.1 []) }
{
    if is_read_again(&expression, mutated_symbol_needs_temp_var, ctx) {
        return Ok((expression, Again::ByCopy));
    }
    let temporary = create_temporary(&expression, ctx)?;
    let name = temporary.name.as_str();
    let target = ctx.create_bound_ident_expr(MADE, name, temporary.symbol_id, WRITES)?;
    let assign = AssignmentOperator::Assign;
    let first = new_assignment_expression(&mut ctx.ast, MADE, assign, target, expression)?;
    Ok((first, Again::ByTemporary(temporary)))
}

/// A temporary for an expression: that of a name has the base that its text gives, and all others that of
/// the node.
fn create_temporary(
    expression: &Expression,
    ctx: &mut TraverseCtx<TransformState>,
) -> Result<BoundIdentifier, AllocError>
    requires there { 0 < length ctx.old.state.var_declarations }
    requires room { ctx.old.ast.next + 2 < 2 ^ 32 }
    ensures next { IfOk result (λ b. IsNext (whole_at (moment_of ctx.old)) (duplicate_base expression.now) (bound_as b)) }
    ensures declared { IfOk result (λ b. DeclaresVar ctx.old ctx.new b) }
{
    match &expression.kind {
        Kind::Identifier { name, .. } => {
            let temporary = VarDeclarationsStore::create_uid_var(name.as_str(), ctx)?;
            Ok(temporary)
        }
        _ => {
            let temporary = VarDeclarationsStore::create_uid_var_based_on_node(expression, ctx)?;
            Ok(temporary)
        }
    }
}

/// One further use of an expression with this first use.
fn further_use(
    first: &Expression,
    again: &Again,
    ctx: &mut TraverseCtx<TransformState>,
) -> Result<Expression, AllocError>
    requires room { ctx.old.ast.next + tree_size (read_by first.now again.now) ≤ 2 ^ 32 - 1 }
    ensures written { IfOk result (λ node. (names : ℕ → Text → Option ℕ) → seen names node ≡ read_by (seen names first.now) again.now) }
    ensures reads { OnOk result (ReadsMore (tree_size (read_by first.now again.now)) ctx.old ctx.new) }
{
    match again {
        Again::ByCopy => {
            let node = read_once_more(first, ctx)?;
            Ok(node)
        }
        Again::ByTemporary(temporary) => {
            let name = temporary.name.as_str();
            let node = read_name(name, Some(temporary.symbol_id), ctx)?;
            Ok(node)
        }
    }
}
