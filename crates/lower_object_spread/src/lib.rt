//! The lowering of object spread (ECMA-262, 13.2.5): a literal with spreads becomes calls of a helper that copies.
//!
//! | source | written |
//! |---|---|
//! | `({ ...a })` | `babelHelpers.objectSpread2({}, a)` |
//! | `({ a, ...b })` | `babelHelpers.objectSpread2({ a }, b)` |
//! | `({ ...a, ...b })` | `babelHelpers.objectSpread2(babelHelpers.objectSpread2({}, a), b)` |
//! | `({ ...a, b })` | `babelHelpers.objectSpread2(babelHelpers.objectSpread2({}, a), {}, { b })` |
//! | `({ ...a, b, ...c })` | `babelHelpers.objectSpread2(babelHelpers.objectSpread2({}, a), {}, { b }, c)` |
//!
//! Before:
//!
//!     settings = { size: 1, ...defaults(), name };
//!
//! After:
//!
//!     settings = babelHelpers.objectSpread2(babelHelpers.objectSpread2({ size: 1 }, defaults()), {}, { name });
//!
//! The properties keep their order, and each is evaluated once, so that no temporary is taken. The outermost call has the place of the
//! literal. `babelHelpers` is bound nowhere that such a literal stands.
//!
//! Its rule is `SpreadRule` of es_steps.
#![tactic(auto)]

ghost use Rattle.std.specs.Prelude.{◌≡◌, ◌&&◌, false, is_some, refl};
ghost use Rattle.es_tree.specs.Tree.{fields_of, kind_of, label_of};
ghost use Rattle.lower_object_spread.specs.Literals.{is_lowerable_literal};
ghost use Rattle.lower_object_spread.specs.Lawful.{object_spread_lawful, object_spread_only};
ghost use Rattle.lower_object_spread.specs.Profile.{object_spread_profile};
ghost use Rattle.es_visit.specs.declared.hook.Hook.TheVariants.{Expression};
ghost use Rattle.es_traverse.specs.Laws.{acts_there, no_ending};

mod constructs;
mod copies;

use crate::constructs::is_lowerable;
use crate::copies::lower_literal;
use es_scope::context::TraverseCtx;
use es_traverse::entering::Enters;
use es_traverse::lowering::Lowering;
use es_tree::options::EnvOptions;
use es_tree::sorts::Expression;
use es_visit::hook::Hook;
use lower_temporaries::made_nodes::new_placeholder;
use lower_temporaries::state::TransformState;
use std::alloc::AllocError;
use std::mem;

/// The lowering of object spread.
#[derive(Clone, Copy, Debug)]
pub struct ObjectSpread {
    is_on: bool,
}

impl ObjectSpread {
    /// The lowering, as these options ask for it. It takes no memory.
    pub fn new(options: &EnvOptions) -> ObjectSpread
        ensures { result.is_on ≡ is_some options.now.es2018.object_rest_spread }
    {
        ObjectSpread {
            is_on: options.es2018.object_rest_spread.is_some(),
        }
    }

    /// Whether it lowers this expression.
    fn lowers(&self, expression: &Expression) -> bool
        ensures { result ≡ (self.now.is_on && is_lowerable_literal (kind_of expression.now) (label_of expression.now) (fields_of expression.now)) }
    {
        self.is_on && is_lowerable(expression)
    }
}

impl Lowering for ObjectSpread {
    ghost profile = { object_spread_profile };

    ghost ending = { λ o. no_ending };

    ghost keeps = { false };

    ghost suits = { λ x o. x.is_on ≡ is_some o.es2018.object_rest_spread };

    ghost tally = { λ x h id. 0 };

    ghost entries = { λ x h. 0 };
}

impl Enters<TransformState> for ObjectSpread {
    const HOOK: Hook = Hook::Expression;

    ghost HOOK = { Expression };

    /// Lowers a literal with spreads; its properties are visited afterwards, in the calls.
    fn enter(
        &self,
        expression: &mut Expression,
        ctx: &mut TraverseCtx<TransformState>,
    ) -> Result<(), AllocError> {
        if !self.lowers(expression) {
            return Ok(());
        }
        let taken = mem::replace(expression, new_placeholder(ctx.ast.alloc));
        *expression = lower_literal(taken, ctx)?;
        Ok(())
    }

    ghost alone = { refl };

    ghost only = { object_spread_only };

    ghost none_late = { λ o k l fs. refl };

    ghost passes = { λ o. acts_there (object_spread_profile o) };

    ghost lawful = { λ x o. object_spread_lawful o };
}
