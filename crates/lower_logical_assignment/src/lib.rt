//! The lowering of logical assignment (ECMA-262, 13.15): `t op= r`, with `op` one of `||`, `&&` and `??`, becomes
//! `t op (t = r)`. What stands in `t` is evaluated once, in its order: an object and a key between brackets are each
//! assigned to a temporary where they are first read, unless they are `this`, `super`, a literal, or a name with a symbol
//! that no reference writes. An assignment to a private member stays as it is.
//!
//! Before:
//!
//!     obj.a.b ||= c;
//!
//! After:
//!
//!     var _obj$a;
//!     (_obj$a = obj.a).b || (_obj$a.b = c);
//!
//! Its rule is `LogicalAssignmentRule` of es_steps.
#![tactic(auto)]

ghost use Rattle.std.specs.Prelude.{◌≡◌, ◌&&◌, false, refl};
ghost use Rattle.es_tree.specs.Tree.{fields_of, kind_of, label_of};
ghost use Rattle.lower_logical_assignment.specs.Assignments.{is_lowerable_assignment};
ghost use Rattle.lower_logical_assignment.specs.Lawful.{logical_assignment_lawful, logical_assignment_only};
ghost use Rattle.lower_logical_assignment.specs.Profile.{logical_assignment_profile};
ghost use Rattle.es_visit.specs.declared.hook.Hook.TheVariants.{Expression};
ghost use Rattle.es_traverse.specs.Laws.{acts_there, no_ending};

mod assignments;
mod targets;

use crate::assignments::{is_lowerable, lower_assignment};
use es_scope::context::TraverseCtx;
use es_traverse::entering::Enters;
use es_traverse::lowering::Lowering;
use es_tree::node::Node;
use es_tree::options::EnvOptions;
use es_tree::sorts::Expression;
use es_visit::hook::Hook;
use lower_temporaries::made_nodes::new_placeholder;
use lower_temporaries::state::TransformState;
use std::alloc::AllocError;
use std::mem;

/// The lowering of logical assignment.
#[derive(Clone, Copy, Debug)]
pub struct LogicalAssignmentOperators {
    is_on: bool,
}

impl LogicalAssignmentOperators {
    /// The lowering, as these options ask for it. It takes no memory.
    pub fn new(options: &EnvOptions) -> LogicalAssignmentOperators
        ensures { result.is_on ≡ options.now.es2021.logical_assignment_operators }
    {
        LogicalAssignmentOperators {
            is_on: options.es2021.logical_assignment_operators,
        }
    }

    /// Whether it is on, and the node is a logical assignment that is lowered.
    fn lowers(&self, node: &Node) -> bool
        ensures { result ≡ (self.now.is_on && is_lowerable_assignment (kind_of node.now) (label_of node.now) (fields_of node.now)) }
    {
        self.is_on && is_lowerable(node)
    }
}

impl Lowering for LogicalAssignmentOperators {
    ghost profile = { logical_assignment_profile };

    ghost ending = { λ o. no_ending };

    ghost keeps = { false };

    ghost suits = { λ x o. x.is_on ≡ o.es2021.logical_assignment_operators };

    ghost tally = { λ x h id. 0 };

    ghost entries = { λ x h. 0 };
}

impl Enters<TransformState> for LogicalAssignmentOperators {
    const HOOK: Hook = Hook::Expression;

    ghost HOOK = { Expression };

    /// Lowers a logical assignment; what stands in it is visited afterwards, in the logical expression.
    fn enter(
        &self,
        expression: &mut Expression,
        ctx: &mut TraverseCtx<TransformState>,
    ) -> Result<(), AllocError> {
        if !self.lowers(expression) {
            return Ok(());
        }
        let taken = mem::replace(expression, new_placeholder(ctx.ast.alloc));
        *expression = lower_assignment(taken, ctx)?;
        Ok(())
    }

    ghost alone = { refl };

    ghost only = { logical_assignment_only };

    ghost none_late = { λ o k l fs. refl };

    ghost passes = { λ o. acts_there (logical_assignment_profile o) };

    ghost lawful = { λ x o. logical_assignment_lawful o };
}
