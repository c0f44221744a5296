//! The lowering of exponentiation (ECMA-262, 13.6 and 13.15): `**` and `**=` become calls of `Math.pow`.
//!
//! | source | written |
//! |---|---|
//! | `l ** r` | `Math.pow(l, r)` |
//! | `x **= v`, where `x` is bound | `x = Math.pow(x, v)` |
//! | `x **= v` otherwise | `_x = x, x = Math.pow(_x, v)` |
//! | `o.k **= v`, where `o` is bound | `o["k"] = Math.pow(o["k"], v)` |
//! | `f().k **= v` | `_f = f(), _f["k"] = Math.pow(_f["k"], v)` |
//! | `o[k] **= v` | `_o = o, _k = k, _o[_k] = Math.pow(_o[_k], v)` |
//! | `o[1] **= v`, where `o` is bound | `o[1] = Math.pow(o[1], v)` |
//!
//! Before:
//!
//!     area = side ** 2;
//!     cells.at(0).size **= 3;
//!
//! After:
//!
//!     var _cells$at;
//!     area = Math.pow(side, 2);
//!     _cells$at = cells.at(0), _cells$at["size"] = Math.pow(_cells$at["size"], 3);
//!
//! A name is bound where it has a symbol. An exponentiation with a BigInt literal directly at a side stays, since `Math.pow` takes
//! none: directly means with no parentheses between. `Math` is bound nowhere that an exponentiation stands. A regular expression
//! as a key takes a temporary, since it is a new object each time. Parentheses around a target are dropped.
//!
//! Its rule is `ExponentiationRule` of es_steps.
#![tactic(auto)]

ghost use Rattle.std.specs.Prelude.{◌≡◌, ◌&&◌, false, refl};
ghost use Rattle.es_tree.specs.Tree.{fields_of, kind_of, label_of};
ghost use Rattle.lower_exponentiation.specs.Exponentiations.{is_lowerable_exponentiation};
ghost use Rattle.lower_exponentiation.specs.Lawful.{exponentiation_lawful, exponentiation_only};
ghost use Rattle.lower_exponentiation.specs.Profile.{exponentiation_profile};
ghost use Rattle.es_visit.specs.declared.hook.Hook.TheVariants.{Expression};
ghost use Rattle.es_traverse.specs.Laws.{acts_there, no_ending};

mod constructs;
mod exponentiation;
mod targets;

use crate::constructs::is_lowerable;
use crate::exponentiation::lower_exponentiation;
use es_scope::context::TraverseCtx;
use es_traverse::entering::Enters;
use es_traverse::lowering::Lowering;
use es_tree::options::EnvOptions;
use es_tree::sorts::Expression;
use es_visit::hook::Hook;
use lower_temporaries::made_nodes::new_placeholder;
use lower_temporaries::state::TransformState;
use std::alloc::AllocError;
use std::mem;

/// The lowering of exponentiation.
#[derive(Clone, Copy, Debug)]
pub struct ExponentiationOperator {
    is_on: bool,
}

impl ExponentiationOperator {
    /// The lowering, as these options ask for it. It takes no memory.
    pub fn new(options: &EnvOptions) -> ExponentiationOperator
        ensures { result.is_on ≡ options.now.es2016.exponentiation_operator }
    {
        ExponentiationOperator {
            is_on: options.es2016.exponentiation_operator,
        }
    }

    /// Whether it lowers this expression.
    fn lowers(&self, expression: &Expression) -> bool
        ensures { result ≡ (self.now.is_on && is_lowerable_exponentiation (kind_of expression.now) (label_of expression.now) (fields_of expression.now)) }
    {
        self.is_on && is_lowerable(expression)
    }
}

impl Lowering for ExponentiationOperator {
    ghost profile = { exponentiation_profile };

    ghost ending = { λ o. no_ending };

    ghost keeps = { false };

    ghost suits = { λ x o. x.is_on ≡ o.es2016.exponentiation_operator };

    ghost tally = { λ x h id. 0 };

    ghost entries = { λ x h. 0 };
}

impl Enters<TransformState> for ExponentiationOperator {
    const HOOK: Hook = Hook::Expression;

    ghost HOOK = { Expression };

    /// Lowers a `**` or `**=`; its operands are visited afterwards, in the call.
    fn enter(
        &self,
        expression: &mut Expression,
        ctx: &mut TraverseCtx<TransformState>,
    ) -> Result<(), AllocError> {
        if !self.lowers(expression) {
            return Ok(());
        }
        let taken = mem::replace(expression, new_placeholder(ctx.ast.alloc));
        *expression = lower_exponentiation(taken, ctx)?;
        Ok(())
    }

    ghost alone = { refl };

    ghost only = { exponentiation_only };

    ghost none_late = { λ o k l fs. refl };

    ghost passes = { λ o. acts_there (exponentiation_profile o) };

    ghost lawful = { λ x o. exponentiation_lawful o };
}
