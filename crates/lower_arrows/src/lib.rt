//! The lowering of arrow functions (ECMA-262, 15.3): each arrow becomes a function, and a `this` in it a name that stands for the `this`
//! of the function, static block or program around. It is one walk over the tree, after the visit of the other lowerings.
//!
//! Before:
//!
//!     function counter() {
//!         return () => this.count;
//!     }
//!
//! After:
//!
//!     function counter() {
//!         var _this = this;
//!         return function () {
//!             return _this.count;
//!         };
//!     }
//!
//! The rule: a `this` in an arrow is that of the nearest function that is no arrow, static block or program around (9.4.4), its target, in
//! whose list the name is declared, before the first statement that is no import; and a body that is an expression becomes one of
//! statements, which returns it.
//!
//! Its rule is `ArrowWalkRule` of es_arrow_steps.
#![tactic(auto)]

ghost use Rattle.std.specs.Prelude.{◌≡◌, ◌∷◌, [], OnOk, false, true};
ghost use Rattle.es_tree.specs.Constructs.{is_arrow};
ghost use Rattle.es_tree.specs.HasForm.{has_form};
ghost use Rattle.es_tree.specs.Walks.{any_node};
ghost use Rattle.es_tree.specs.declared.table.Sort.TheVariants.{Program as s-Program};
ghost use Rattle.es_runs.specs.Weights.{weight};
ghost use Rattle.es_statements.specs.ProgramPlain.{plain_program};
ghost use Rattle.es_steps.specs.Open.{nothing_pending};
ghost use Rattle.es_arrow_steps.specs.ThisFits.{each_this_fits};
ghost use Rattle.es_changes.specs.Changes.{HasRoom};
ghost use Rattle.es_traverse.specs.Laws.{KeptTree, Seen};
ghost use Rattle.lower_temporaries.specs.Takings.{moment_of};
ghost use Rattle.lower_arrows.specs.Lowered.{ArrowsLowered};

mod declarations;
mod functions;
mod target;
mod walk;

use crate::walk::lower_list;
use es_scope::context::TraverseCtx;
use es_statements::program::Program;
use lower_temporaries::state::TransformState;
use std::alloc::AllocError;

/// Lowers each arrow of a program in which nothing is pending. Fails only for want of memory; the program is then in no stated shape.
pub fn lower_arrows(
    program: &mut Program,
    ctx: &mut TraverseCtx<TransformState>,
) -> Result<(), AllocError>
    requires fits { each_this_fits (plain_program program.old) ≡ true }
    requires formed { has_form s-Program (plain_program program.old) ≡ true }
    requires room { HasRoom (moment_of ctx.old) (weight (plain_program program.old)) }
    requires pending { (moment_of ctx.old).lists ≡ nothing_pending ∷ [] }
    ensures kept { OnOk result (KeptTree (moment_of ctx.old) (plain_program program.old) (moment_of ctx.new) (plain_program program.new)) }
    ensures lowered { OnOk result (Seen (λ t u. ArrowsLowered (moment_of ctx.old) t (moment_of ctx.new) u) (plain_program program.old) (plain_program program.new)) }
    ensures lists { OnOk result ((moment_of ctx.new).lists ≡ (moment_of ctx.old).lists) }
    ensures options { OnOk result ((moment_of ctx.new).options ≡ (moment_of ctx.old).options) }
    ensures none { OnOk result (any_node is_arrow (plain_program program.new) ≡ false) }
{
    let scope = ctx.scoping().root_scope_id();
    lower_list(&mut program.body, Some(scope), ctx)?;
    Ok(())
}
