//! The lowering of optional chaining (ECMA-262, 13.3.9). What stands before a `?.` is evaluated once, into a fresh
//! name unless it is a name that is bound, and tested for null and undefined; where a test holds, the chain is cut
//! short. A call in a chain keeps its receiver by `call`, and a chain that is called by `bind`. `delete` of a chain
//! deletes what the chain ends in, or answers true.
//!
//! Before:
//!
//!     f().g?.(1);
//!
//! After:
//!
//!     var _f$g, _f;
//!     (_f$g = (_f = f()).g) === null || _f$g === void 0 ? void 0 : _f$g.call(_f, 1);
//!
//! Its rule is `OptionalChainingRule` of es_steps, specs/OptionalChaining.antt. Where it is assumed that no value is
//! `document.all`, one test by `== null` stands in place of the two.
//!
//! It differs from the lowering of oxc_transformer in that the name `eval` takes a temporary as any value does, that a
//! chain in parentheses before a step without a mark, as in `(a?.b).c`, is lowered by itself, and that parentheses
//! around what is stored or tested are dropped.
ghost use Rattle.std.specs.Prelude.{◌≡◌, ◌<◌, IfOk, false, length, refl, true};
ghost use Rattle.es_changes.specs.Changes.{HasRoom};
ghost use Rattle.es_tree.specs.declared.options.EnvOptions.{EnvOptions as Options};
ghost use Rattle.es_resolution.specs.Seen.{seen};
ghost use Rattle.es_traverse.specs.Loads.{load};
ghost use Rattle.lower_temporaries.specs.Takings.{moment_of};
ghost use Rattle.lower_chains.specs.Hooks.{LowersNode};
ghost use Rattle.lower_chains.specs.Lawful.{chain_lawful, chain_only};
ghost use Rattle.lower_chains.specs.Profiles.{Suits, chain_profile};
ghost use Rattle.lower_chains.specs.Spines.{calls_chain};
ghost use Rattle.lower_chains.specs.Ways.{Names};
ghost use Rattle.es_visit.specs.declared.hook.Hook.TheVariants.{Expression};
ghost use Rattle.es_traverse.specs.Laws.{acts_there, no_ending};

use crate::chains::{lower_chain, lower_delete, lower_inside};
use crate::parts::{calls_chain, deletes_chain, is_marked_chain};
use es_expressions::members::CallExpression;
use es_scope::context::TraverseCtx;
use es_traverse::entering::Enters;
use es_traverse::lowering::Lowering;
use es_tree::node::Node;
use es_tree::sorts::Expression;
use es_visit::hook::Hook;
use lower_temporaries::made_nodes::new_placeholder;
use lower_temporaries::state::TransformState;
use std::alloc::AllocError;
use std::mem;

/// The lowering of optional chaining, where the options ask for it.
#[derive(Clone, Copy, Debug)]
pub struct OptionalChaining {
    is_on: bool,
    no_document_all: bool,
}

impl OptionalChaining {
    ghost use Rattle.lower_chains.specs.Profiles.{assumes, is_asked};

    /// The lowering, where it is asked for or not, and where it is assumed or not that no value is `document.all`.
    pub fn new(is_on: bool, no_document_all: bool) -> OptionalChaining
        ensures on { is_asked result ≡ is_on }
        ensures assumed { assumes result ≡ no_document_all }
    {
        OptionalChaining {
            is_on,
            no_document_all,
        }
    }
}

impl Lowering for OptionalChaining {
    ghost profile = { chain_profile };

    ghost ending = { λ o. no_ending };

    ghost keeps = { false };

    ghost suits = { Suits };

    ghost tally = { λ x h id. 0 };

    ghost entries = { λ x h. 0 };
}

impl Enters<TransformState> for OptionalChaining {
    const HOOK: Hook = Hook::Expression;

    ghost HOOK = { Expression };

    /// Lowers a chain, and one that is called or deleted before it is entered itself; what stands in it is visited
    /// afterwards. Answers an error only for want of memory.
    fn enter(
        &self,
        expression: &mut Expression,
        ctx: &mut TraverseCtx<TransformState>,
    ) -> Result<(), AllocError> {
        if !self.is_on {
            return Ok(());
        }
        let taken = mem::replace(expression, new_placeholder(ctx.ast.alloc));
        *expression = lower_node(taken, self.no_document_all, ctx)?;
        Ok(())
    }

    ghost alone = { refl };

    ghost only = { λ o. chain_only o };

    ghost none_late = { λ o k l fs. refl };

    ghost passes = { λ o. acts_there (chain_profile o) };

    ghost lawful = { λ x o. chain_lawful o };
}

/// What becomes of a chain, of `delete` of one, and of a call of one; all else stays.
fn lower_node(
    node: Node,
    no_document_all: bool,
    ctx: &mut TraverseCtx<TransformState>,
) -> Result<Node, AllocError>
    requires there { 0 < length ctx.old.state.var_declarations }
    requires room { HasRoom (moment_of ctx.old) (load node) }
    ensures { IfOk result (λ made. (names : Names) → LowersNode no_document_all (moment_of ctx.old) (seen names node) (moment_of ctx.new) (seen names made)) }
{
    if is_marked_chain(&node) {
        let made = lower_chain(node, no_document_all, ctx)?;
        Ok(made)
    } else if deletes_chain(&node) {
        let made = lower_delete(node, no_document_all, ctx)?;
        Ok(made)
    } else if calls_chain(&node) {
        let made = lower_called(node, no_document_all, ctx)?;
        Ok(made)
    } else {
        Ok(node)
    }
}

/// A call with its callee lowered, which is a chain, maybe in parentheses: `(a?.b)(c)` becomes
/// `(_a === null || .. ? void 0 : _a.b.bind(_a))(c)`.
fn lower_called(
    node: Node,
    no_document_all: bool,
    ctx: &mut TraverseCtx<TransformState>,
) -> Result<Node, AllocError>
    requires calls { calls_chain node ≡ true }
    requires there { 0 < length ctx.old.state.var_declarations }
    requires room { HasRoom (moment_of ctx.old) (load node) }
    ensures { IfOk result (λ made. (names : Names) → LowersNode no_document_all (moment_of ctx.old) (seen names node) (moment_of ctx.new) (seen names made)) }
{
    let CallExpression {
        id,
        span,
        optional,
        callee,
        arguments,
    } = CallExpression::open(node);
    let callee = lower_inside(callee, no_document_all, ctx)?;
    let call = CallExpression {
        id,
        span,
        optional,
        callee,
        arguments,
    };
    let made = call.close(ctx.ast.alloc)?;
    Ok(made)
}
