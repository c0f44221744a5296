//! The lowering of object rests in assignments (ECMA-262, 13.15.5): the value is stored, the pattern is left without its rest, and the rest gets
//! what a helper answers that copies all but the keys before. One that stands alone gets what another copies, once a third has asked that there is
//! something to take apart.
//!
//! | source | written |
//! |---|---|
//! | `x = ({ a, ...b } = c)` | `x = (_c = c, { a } = _c, b = babelHelpers.objectWithoutProperties(_c, ["a"]), _c)` |
//! | `({ a, ...b } = c);` | `(_c = c, { a } = _c, b = babelHelpers.objectWithoutProperties(_c, ["a"]));` |
//! | `({ "a": x.y = 1, 0x10: z, ...b } = c);` | `(_c = c, { "a": x.y = 1, 0x10: z } = _c, b = babelHelpers.objectWithoutProperties(_c, ["a", "16"]));` |
//! | `({ a, [k()]: b, ...d } = c);` | `(_c = c, { a } = _c, _k = k(), { [_k]: b } = _c, d = babelHelpers.objectWithoutProperties(_c, ["a", _k].map(babelHelpers.toPropertyKey)));` |
//! | `({ [k]: a, ...d } = c);` | `(_c = c, {} = _c, _k = k, { [_k]: a } = _c, d = babelHelpers.objectWithoutProperties(_c, [_k].map(babelHelpers.toPropertyKey)));` |
//! | `({ ...b } = c);` | `(_c = c, b = babelHelpers.extends({}, (babelHelpers.objectDestructuringEmpty(_c), _c)));` |
//! | `({ ...f().b } = c);` | `(_c = c, {} = _c, f().b = babelHelpers.extends({}, (babelHelpers.objectDestructuringEmpty(_c), _c)));` |
//!
//! Before:
//!
//!     ({ size, ...others } = settings());
//!
//! After:
//!
//!     var _settings;
//!     (_settings = settings(), { size } = _settings, others = babelHelpers.objectWithoutProperties(_settings, ["size"]));
//!
//! The value comes first, as in the source, and each target is evaluated where it stood. A computed key that is no literal and no template without
//! expressions is read once, where it stood, and has a name from there on. The value stands at the end, unless the assignment is a statement, maybe
//! in parentheses. The sequence has the place of the assignment. `babelHelpers` is bound nowhere that such an assignment stands.
//!
//! Its rule is `RestAssignmentRule` of es_steps.
#![tactic(auto)]

ghost use Rattle.std.specs.Prelude.{◌≡◌, ◌&&◌, false, is_some, refl};
ghost use Rattle.es_tree.specs.Tree.{fields_of, kind_of, label_of};
ghost use Rattle.lower_rest_assignments.specs.Assignments.{is_lowerable_assignment};
ghost use Rattle.lower_rest_assignments.specs.Lawful.{rest_assignment_lawful, rest_assignment_only};
ghost use Rattle.lower_rest_assignments.specs.Profile.{rest_assignment_profile};
ghost use Rattle.es_visit.specs.declared.hook.Hook.TheVariants.{Expression};
ghost use Rattle.es_traverse.specs.Laws.{acts_there, no_ending};

mod assignments;
mod constructs;
mod groups;
mod values;

use crate::assignments::lower_assignment;
use crate::constructs::is_lowerable;
use es_scope::context::TraverseCtx;
use es_traverse::entering::Enters;
use es_traverse::lowering::Lowering;
use es_tree::options::EnvOptions;
use es_tree::sorts::Expression;
use es_visit::hook::Hook;
use lower_temporaries::made_nodes::new_placeholder;
use lower_temporaries::state::TransformState;
use std::alloc::AllocError;
use std::mem;

/// The lowering of object rests in assignments.
#[derive(Clone, Copy, Debug)]
pub struct RestAssignment {
    is_on: bool,
}

impl RestAssignment {
    /// The lowering, as these options ask for it. It takes no memory.
    pub fn new(options: &EnvOptions) -> RestAssignment
        ensures { result.is_on ≡ is_some options.now.es2018.object_rest_spread }
    {
        RestAssignment {
            is_on: options.es2018.object_rest_spread.is_some(),
        }
    }

    /// Whether it lowers this expression.
    fn lowers(&self, expression: &Expression) -> bool
        ensures { result ≡ (self.now.is_on && is_lowerable_assignment (kind_of expression.now) (label_of expression.now) (fields_of expression.now)) }
    {
        self.is_on && is_lowerable(expression)
    }
}

impl Lowering for RestAssignment {
    ghost profile = { rest_assignment_profile };

    ghost ending = { λ o. no_ending };

    ghost keeps = { false };

    ghost suits = { λ x o. x.is_on ≡ is_some o.es2018.object_rest_spread };

    ghost tally = { λ x h id. 0 };

    ghost entries = { λ x h. 0 };
}

impl Enters<TransformState> for RestAssignment {
    const HOOK: Hook = Hook::Expression;

    ghost HOOK = { Expression };

    /// Lowers an assignment to a pattern with a rest; its parts are visited afterwards, in the sequence.
    fn enter(
        &self,
        expression: &mut Expression,
        ctx: &mut TraverseCtx<TransformState>,
    ) -> Result<(), AllocError> {
        if !self.lowers(expression) {
            return Ok(());
        }
        let taken = mem::replace(expression, new_placeholder(ctx.ast.alloc));
        *expression = lower_assignment(taken, ctx)?;
        Ok(())
    }

    ghost alone = { refl };

    ghost only = { rest_assignment_only };

    ghost none_late = { λ o k l fs. refl };

    ghost passes = { λ o. acts_there (rest_assignment_profile o) };

    ghost lawful = { λ x o. rest_assignment_lawful o };
}
