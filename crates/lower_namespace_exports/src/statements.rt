//! The statements of a program, with two in the place of each export of a namespace.
ghost use Rattle.std.specs.Prelude.{◌≡◌, IfOk, OnOk};
ghost use Rattle.es_tree.specs.Tree.{trees};
ghost use Rattle.es_runs.specs.Weights.{trees_weight, weight};
ghost use Rattle.es_changes.specs.Changes.{HasRoom};
ghost use Rattle.lower_temporaries.specs.Takings.{moment_of};
ghost use Rattle.lower_namespace_exports.specs.Lowered.{Lowered, PutsLowered};

use crate::exports::{import_and_export, is_lowerable};
use es_scope::context::TraverseCtx;
use es_tree::sorts::Statement;
use lower_temporaries::state::TransformState;
use std::alloc::AllocError;

/// These statements, each export of a namespace lowered.
pub(crate) fn lower_statements(
    statements: Vec<Statement>,
    ctx: &mut TraverseCtx<TransformState>,
) -> Result<Vec<Statement>, AllocError>
    requires room { HasRoom (moment_of ctx.old) (trees_weight (trees statements.items)) }
    ensures lowered { IfOk result (λ lowered. Lowered (moment_of ctx.old) (trees statements.items) (moment_of ctx.new) (trees lowered.items)) }
{
    let mut lowered = Vec::with_capacity(ctx.ast.alloc, statements.len())?;
    for statement in statements {
        lower_statement(statement, &mut lowered, ctx)?;
    }
    Ok(lowered)
}

/// Puts this statement behind what is lowered, or the two that an export of a namespace becomes.
fn lower_statement(
    statement: Statement,
    lowered: &mut Vec<Statement>,
    ctx: &mut TraverseCtx<TransformState>,
) -> Result<(), AllocError>
    requires room { HasRoom (moment_of ctx.old) (weight statement) }
    ensures put { OnOk result (PutsLowered (moment_of ctx.old) statement (moment_of ctx.new) lowered.old.items lowered.new.items) }
{
    if !is_lowerable(&statement) {
        lowered.push(statement)?;
        return Ok(());
    }
    let (import, export) = import_and_export(statement, ctx)?;
    lowered.push(import)?;
    lowered.push(export)?;
    Ok(())
}
