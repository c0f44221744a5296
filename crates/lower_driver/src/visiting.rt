//! The one visit of a run, and the walks over arrows and over object rests after it.
ghost use Rattle.std.specs.Prelude.{◌≡◌, ◌+◌, ◌-◌, ◌<◌, ◌^◌, ◌∷◌, [], OnOk, is_some, length, true};
ghost use Rattle.es_tree.specs.HasForm.{has_form};
ghost use Rattle.es_tree.specs.declared.table.Sort.TheVariants.{Program as s-Program};
ghost use Rattle.es_arrow_steps.specs.ThisFits.{each_this_fits};
ghost use Rattle.es_changes.specs.Changes.{HasRoom};
ghost use Rattle.es_changes.specs.Moments.{top as first_pending};
ghost use Rattle.es_scope.specs.Contexts.{around_of};
ghost use Rattle.es_statements.specs.ProgramPlain.{plain_program};
ghost use Rattle.es_steps.specs.Open.{nothing_pending};
ghost use Rattle.es_traverse.specs.ContextMoments.{moment};
ghost use Rattle.es_traverse.specs.Laws.{CanVisit, IsReady, KeptVisited, Seen};
ghost use Rattle.es_traverse.specs.Loads.{load};
ghost use Rattle.es_traverse.specs.Visits.{VisitedProgram};
ghost use Rattle.lower_temporaries.specs.Takings.{moment_of};
ghost use Rattle.es_runs.specs.Weights.{weight};
ghost use Rattle.lower_nodes.specs.Nodes.{owed};
ghost use Rattle.lower_object_rest.specs.Profile.{rest_owes};
ghost use Rattle.lower_driver.specs.Visits.{AreTaken, IsWalked, visit_ending, visit_profile};

use es_scope::context::TraverseCtx;
use es_statements::program::Program;
use es_traverse::both::Both;
use es_traverse::lowering::Additions;
use es_traverse::traverse::Traverse;
use es_traverse::walk::traverse;
use es_visit::steps::Steps;
use lower_arrows::lower_arrows;
use lower_editions::es2016::ES2016;
use lower_editions::es2018::ES2018;
use lower_editions::es2019::ES2019;
use lower_editions::es2020::ES2020;
use lower_editions::es2021::ES2021;
use lower_node_walk::walk_nodes;
use lower_object_rest::ObjectRest;
use lower_temporaries::state::TransformState;
use lower_writing::common::Common;
use std::alloc::AllocError;
use std::marker::Brand;
use std::sync::ledger::{Blank, Ledger};

/// Visits a program, its own list pending, by the lowerings that the context's options ask for. Fails only where memory
/// runs out; the program is then in no stated shape.
pub fn visit(program: &mut Program, ctx: &mut TraverseCtx<TransformState>) -> Result<(), AllocError>
    requires top { around_of ctx.old ≡ [] }
    requires pair { 0 < length (moment_of ctx.old).lists }
    requires room { HasRoom (moment_of ctx.old) (load (plain_program program.old)) }
    ensures kept { OnOk result (KeptVisited 0 (moment_of ctx.old) (plain_program program.old) (moment_of ctx.new) (plain_program program.new)) }
    ensures visited { OnOk result (Seen (λ p q. VisitedProgram (visit_profile ctx.old.options) (visit_ending ctx.old.options) (moment_of ctx.old) p (moment_of ctx.new) q) (plain_program program.old) (plain_program program.new)) }
    ensures finished { OnOk result (first_pending (moment_of ctx.new).lists ≡ nothing_pending) }
{
    let es2021 = ES2021::lowerings(&ctx.options);
    let es2020 = ES2020::lowerings(&ctx.options);
    let es2019 = ES2019::lowerings(&ctx.options);
    let es2018 = ES2018::lowerings(&ctx.options);
    let es2016 = ES2016::lowerings(&ctx.options);
    let values = Both::new(es2018, es2016);
    let last = Both::new(es2019, values);
    let editions = Both::new(es2021, Both::new(es2020, last));
    let mut all = Both::new(Common::new(), editions);
    visit_by::<_, _, Brand>(&mut all, program, ctx, Blank::new(1))?;
    Ok(())
}

/// Makes functions of the arrows of a visited program, where the context's options ask for it. Fails only where memory runs
/// out; the program is then in no stated shape.
pub fn walk(program: &mut Program, ctx: &mut TraverseCtx<TransformState>) -> Result<(), AllocError>
    requires fits { is_some ctx.old.options.es2015.arrow_function ≡ true → each_this_fits (plain_program program.old) ≡ true }
    requires formed { has_form s-Program (plain_program program.old) ≡ true }
    requires pending { (moment_of ctx.old).lists ≡ nothing_pending ∷ [] }
    requires room { HasRoom (moment_of ctx.old) (weight (plain_program program.old)) }
    ensures walked { OnOk result (IsWalked (is_some ctx.old.options.es2015.arrow_function) ctx.old program.old ctx.new program.new) }
{
    if ctx.options.es2015.arrow_function.is_some() {
        lower_arrows(program, ctx)?;
    }
    Ok(())
}

/// Takes the object rests of a program in which nothing is pending, where the context's options ask for it. Fails only where memory runs
/// out; the program is then in no stated shape.
pub fn take_rests(
    program: &mut Program,
    ctx: &mut TraverseCtx<TransformState>,
) -> Result<(), AllocError>
    requires room { ctx.old.ast.next + owed rest_owes (plain_program program.old) < 2 ^ 32 - 1 }
    ensures taken { OnOk result (AreTaken (is_some ctx.old.options.es2018.object_rest_spread) ctx.old program.old ctx.new program.new) }
{
    if ctx.options.es2018.object_rest_spread.is_some() {
        let rests = ObjectRest::new(&ctx.options);
        walk_nodes(&rests, program, ctx)?;
    }
    Ok(())
}

/// The visit by a lowering, whose hooks are counted in a ledger of their own.
fn visit_by<T: Traverse<S>, S: Additions, L: Ledger>(
    lowering: &mut T,
    program: &mut Program,
    ctx: &mut TraverseCtx<S>,
    blank: Blank,
) -> Result<(), AllocError>
    requires name { blank.name ≡ L.name }
    requires parts { blank.parts ≡ L.parts }
    requires some { 0 < blank.parts }
    requires can { CanVisit S.pending T.keeps (T.profile ctx.old.options) }
    requires ready { IsReady T.suits lowering.old (moment S.pending ctx.old) (load (plain_program program.old)) }
    requires top { around_of ctx.old ≡ [] }
    ensures kept { OnOk result (KeptVisited 0 (moment S.pending ctx.old) (plain_program program.old) (moment S.pending ctx.new) (plain_program program.new)) }
    ensures visited { OnOk result (Seen (λ p q. VisitedProgram (T.profile ctx.old.options) (T.ending ctx.old.options) (moment S.pending ctx.old) p (moment S.pending ctx.new) q) (plain_program program.old) (plain_program program.new)) }
    ensures finished { OnOk result (first_pending (moment S.pending ctx.new).lists ≡ nothing_pending) }
{
    let mut steps: Steps<L> = Steps::new(blank);
    traverse(lowering, program, ctx, &mut steps)?;
    Ok(())
}
