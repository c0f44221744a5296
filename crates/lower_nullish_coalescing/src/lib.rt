//! The lowering of nullish coalescing (ECMA-262, 13.13): `l ?? r` becomes `(x = l) !== null && x !== void 0 ? x : r` with a
//! temporary `x`, and `l !== null && l !== void 0 ? l : r` where `l` is `this` or a name with a symbol that no reference
//! writes.
//!
//! Before:
//!
//!     const port = config.port ?? 8080;
//!     let size = port ?? 1;
//!
//! After:
//!
//!     var _config$port;
//!     const port = (_config$port = config.port) !== null && _config$port !== void 0 ? _config$port : 8080;
//!     let size = port !== null && port !== void 0 ? port : 1;
//!
//! Its rule is `NullishCoalescingRule` of es_steps.
#![tactic(auto)]

ghost use Rattle.std.specs.Prelude.{◌≡◌, ◌&&◌, false, refl};
ghost use Rattle.es_tree.specs.Tree.{fields_of, kind_of, label_of};
ghost use Rattle.lower_nullish_coalescing.specs.Coalescings.{is_lowerable_coalescing};
ghost use Rattle.lower_nullish_coalescing.specs.Lawful.{nullish_coalescing_lawful, nullish_coalescing_only};
ghost use Rattle.lower_nullish_coalescing.specs.Profile.{nullish_coalescing_profile};
ghost use Rattle.es_visit.specs.declared.hook.Hook.TheVariants.{Expression};
ghost use Rattle.es_traverse.specs.Laws.{acts_there, no_ending};

mod coalescing;

use crate::coalescing::{is_lowerable, lower_coalescing};
use es_scope::context::TraverseCtx;
use es_traverse::entering::Enters;
use es_traverse::lowering::Lowering;
use es_tree::node::Node;
use es_tree::options::EnvOptions;
use es_tree::sorts::Expression;
use es_visit::hook::Hook;
use lower_temporaries::made_nodes::new_placeholder;
use lower_temporaries::state::TransformState;
use std::alloc::AllocError;
use std::mem;

/// The lowering of nullish coalescing.
#[derive(Clone, Copy, Debug)]
pub struct NullishCoalescingOperator {
    is_on: bool,
}

impl NullishCoalescingOperator {
    /// The lowering, as these options ask for it. It takes no memory.
    pub fn new(options: &EnvOptions) -> NullishCoalescingOperator
        ensures { result.is_on ≡ options.now.es2020.nullish_coalescing_operator }
    {
        NullishCoalescingOperator {
            is_on: options.es2020.nullish_coalescing_operator,
        }
    }

    /// Whether it is on, and the node is a `??`.
    fn lowers(&self, node: &Node) -> bool
        ensures { result ≡ (self.now.is_on && is_lowerable_coalescing (kind_of node.now) (label_of node.now) (fields_of node.now)) }
    {
        self.is_on && is_lowerable(node)
    }
}

impl Lowering for NullishCoalescingOperator {
    ghost profile = { nullish_coalescing_profile };

    ghost ending = { λ o. no_ending };

    ghost keeps = { false };

    ghost suits = { λ x o. x.is_on ≡ o.es2020.nullish_coalescing_operator };

    ghost tally = { λ x h id. 0 };

    ghost entries = { λ x h. 0 };
}

impl Enters<TransformState> for NullishCoalescingOperator {
    const HOOK: Hook = Hook::Expression;

    ghost HOOK = { Expression };

    /// Lowers a `??`; its sides are visited afterwards, in the conditional.
    fn enter(
        &self,
        expression: &mut Expression,
        ctx: &mut TraverseCtx<TransformState>,
    ) -> Result<(), AllocError> {
        if !self.lowers(expression) {
            return Ok(());
        }
        let taken = mem::replace(expression, new_placeholder(ctx.ast.alloc));
        *expression = lower_coalescing(taken, ctx)?;
        Ok(())
    }

    ghost alone = { refl };

    ghost only = { nullish_coalescing_only };

    ghost none_late = { λ o k l fs. refl };

    ghost passes = { λ o. acts_there (nullish_coalescing_profile o) };

    ghost lawful = { λ x o. nullish_coalescing_lawful o };
}
