//! The removal of `debugger;` from a whole program, by one visit.
ghost use Rattle.std.specs.Prelude.{◌≡◌, ◌∷◌, [], OnOk, ℕ, Option, false};
ghost use Rattle.es_changes.specs.Changes.{HasRoom};
ghost use Rattle.es_changes.specs.Fits.{Fits};
ghost use Rattle.es_resolution.specs.Seen.{seen};
ghost use Rattle.es_scope.specs.Contexts.{around_of};
ghost use Rattle.es_statements.specs.ProgramPlain.{plain_program};
ghost use Rattle.es_steps.specs.Open.{nothing_pending};
ghost use Rattle.es_steps.specs.Steps.{the_program};
ghost use Rattle.es_traverse.specs.Laws.{Seen, no_ending};
ghost use Rattle.es_traverse.specs.Loads.{load};
ghost use Rattle.es_traverse.specs.Visits.{VisitedProgram};
ghost use Rattle.es_tree.specs.Tree.{trees};
ghost use Rattle.es_tree.specs.Walks.{any_in_trees};
ghost use Rattle.es_tree.specs.Words.{Text};
ghost use Rattle.visit_example.specs.Moments.{moment_of};
ghost use Rattle.visit_example.specs.Removals.{is_debugger, removal};

use crate::debugger_removal::DebuggerRemoval;
use es_scope::context::TraverseCtx;
use es_statements::program::Program;
use es_traverse::lowering::Additions;
use es_traverse::walk::traverse;
use es_visit::steps::Steps;
use std::alloc::AllocError;
use std::sync::ledger::Ledger;

/// The state of a visit in which nothing is ever written later.
#[derive(Drop)]
pub struct NothingPending {}

impl Additions for NothingPending {
    ghost pending = { λ s. nothing_pending ∷ [] };
}

/// Makes each `debugger;` of a program an empty statement. The context is at the program, and has room for ids. Fails
/// only for want of memory; the program is then in no stated shape.
///
/// Where the program fits, steps of `Removing` lead to what is left (`visited`), and no `debugger;` is left (`none`).
pub fn remove_debuggers<L: Ledger>(
    program: &mut Program,
    ctx: &mut TraverseCtx<NothingPending>,
    steps: &mut Steps<L>,
) -> Result<(), AllocError>
    requires top { around_of ctx.old ≡ [] }
    requires room { HasRoom (moment_of ctx.old) (load (plain_program program.old)) }
    ensures visited { OnOk result (Seen (λ p q. VisitedProgram removal no_ending (moment_of ctx.old) p (moment_of ctx.new) q) (plain_program program.old) (plain_program program.new)) }
    ensures none { OnOk result ((names : ℕ → Text → Option ℕ) → Fits (moment_of ctx.old) the_program (seen names (plain_program program.old)) → any_in_trees is_debugger (trees program.new.body.items) ≡ false) }
{
    traverse(&mut DebuggerRemoval {}, program, ctx, steps)?;
    Ok(())
}
