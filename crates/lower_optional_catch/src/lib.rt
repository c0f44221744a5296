//! The lowering of optional catch bindings (ECMA-262, 14.15): a `catch` without a parameter gets one, a fresh name that the
//! clause itself binds.
//!
//! Before:
//!
//!     try { f(); } catch { g(); }
//!
//! After:
//!
//!     try { f(); } catch (_unused) { g(); }
//!
//! Its rule is `CatchRule` of es_steps.
#![tactic(auto)]

ghost use Rattle.std.specs.Prelude.{◌≡◌, ◌&&◌, false, refl};
ghost use Rattle.es_tree.specs.Tree.{fields_of, kind_of, label_of};
ghost use Rattle.es_visit.specs.declared.hook.Hook.TheVariants.{CatchClause};
ghost use Rattle.lower_optional_catch.specs.Catches.{is_lowerable_catch};
ghost use Rattle.lower_optional_catch.specs.Lawful.{optional_catch_lawful, optional_catch_only};
ghost use Rattle.lower_optional_catch.specs.Profile.{optional_catch_profile};
ghost use Rattle.es_traverse.specs.Laws.{no_ending};

mod clauses;

use crate::clauses::{CATCH_PARAMETER, is_lowerable, set_parameter};
use es_scope::context::TraverseCtx;
use es_scope::outer_scopes::scope_of;
use es_traverse::entering::Enters;
use es_traverse::lowering::Lowering;
use es_traverse::site::scope_inside;
use es_tree::node::Node;
use es_tree::options::EnvOptions;
use es_visit::hook::Hook;
use lower_temporaries::state::TransformState;
use lower_temporaries::temporaries::new_bound_name;
use std::alloc::AllocError;

/// The lowering of optional catch bindings.
#[derive(Clone, Copy, Debug)]
pub struct OptionalCatchBinding {
    /// Whether the options ask for it.
    pub is_on: bool,
}

impl OptionalCatchBinding {
    /// The lowering, as these options ask for it. It takes no memory.
    pub fn new(options: &EnvOptions) -> OptionalCatchBinding
        ensures { result.is_on ≡ options.now.es2019.optional_catch_binding }
    {
        OptionalCatchBinding {
            is_on: options.es2019.optional_catch_binding,
        }
    }

    /// Whether it is on, and the node is a `catch` without a parameter.
    fn lowers(&self, node: &Node) -> bool
        ensures { result ≡ (self.now.is_on && is_lowerable_catch (kind_of node.now) (label_of node.now) (fields_of node.now)) }
    {
        self.is_on && is_lowerable(node)
    }
}

impl Lowering for OptionalCatchBinding {
    ghost profile = { optional_catch_profile };

    ghost ending = { λ o. no_ending };

    ghost keeps = { false };

    ghost suits = { λ x o. x.is_on ≡ o.es2019.optional_catch_binding };

    ghost tally = { λ x h id. 0 };

    ghost entries = { λ x h. 0 };
}

impl Enters<TransformState> for OptionalCatchBinding {
    const HOOK: Hook = Hook::CatchClause;

    ghost HOOK = { CatchClause };

    /// `catch { .. }` becomes `catch (_unused) { .. }`, with a name that is bound in the scope of the clause; the body is
    /// visited afterwards.
    fn enter(
        &self,
        node: &mut Node,
        ctx: &mut TraverseCtx<TransformState>,
    ) -> Result<(), AllocError> {
        if !self.lowers(node) {
            return Ok(());
        }
        let scope = scope_inside(ctx, scope_of(&node.kind));
        let parameter = new_bound_name("unused", scope, CATCH_PARAMETER, ctx)?;
        set_parameter(node, parameter);
        Ok(())
    }

    ghost alone = { refl };

    ghost only = { optional_catch_only };

    ghost none_late = { λ o k l fs. refl };

    ghost passes = { λ o no n t known. known };

    ghost lawful = { λ x o. optional_catch_lawful o };
}
