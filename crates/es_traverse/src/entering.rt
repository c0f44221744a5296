//! Types that act at one hook alone, before the children of a node: their nine other hooks do nothing.
ghost use Rattle.std.specs.Prelude.{◌≡◌, OnOk, false};
ghost use Rattle.es_tree.specs.Tree.{Fields, Label};
ghost use Rattle.es_tree.specs.declared.ast_type.AstType.{AstType};
ghost use Rattle.es_tree.specs.declared.options.EnvOptions.{EnvOptions as Options};
ghost use Rattle.es_traverse.specs.ContextMoments.{moment};
ghost use Rattle.es_traverse.specs.Laws.{EnteredWhere, IsLawful, IsReady, KeptLoad, OnlyAt, PassesOn, Seen, anywhere, no_ending};
ghost use Rattle.es_traverse.specs.Loads.{load};
ghost use Rattle.es_visit.specs.declared.hook.Hook.{Hook as AnyHook};
ghost use Rattle.es_visit.specs.declared.hook.Hook.TheVariants.{Expression};

use crate::lowering::{Additions, Lowering};
use crate::site::Site;
use crate::traverse::Traverse;
use es_scope::context::TraverseCtx;
use es_statements::program::Program;
use es_tree::node::Node;
use es_tree::sorts::{ArrowFunctionBody, BindingPattern, Statement};
use es_visit::hook::Hook;
use std::alloc::AllocError;

/// A lowering that acts before the children of the nodes that get one hook, and nowhere else. It keeps no pairs, has no
/// constructs but such nodes, and counts no hooks.
pub trait Enters<S: Additions>: Lowering {
    /// The hook.
    const HOOK: Hook;

    ghost HOOK: { AnyHook };

    /// Before the children of such a node. Fails only for want of memory, and leaves the node in no stated shape then.
    fn enter(&self, node: &mut Node, ctx: &mut TraverseCtx<S>) -> Result<(), AllocError>
        requires ready { IsReady Self.suits self.now (moment S.pending ctx.old) (load node.old) }
        ensures kept { OnOk result (KeptLoad 0 (moment S.pending ctx.old) node.old (moment S.pending ctx.new) node.new) }
        ensures entered { OnOk result (Seen (λ t u. EnteredWhere (Self.profile ctx.old.options) Self.HOOK anywhere (moment S.pending ctx.old) t (moment S.pending ctx.new) u) node.old node.new) };

    /// It keeps no pairs.
    ghost alone: { Self.keeps ≡ false };

    /// It removes nothing at other hooks.
    ghost only: { (o : Options) → OnlyAt Self.HOOK (Self.profile o) };

    /// It removes nothing after nodes.
    ghost none_late: { (o : Options) (k : AstType) (l : Label) (fs : Fields) → (Self.profile o).late_constructs k l fs ≡ false };

    /// At another hook than that of expressions it leaves expressions as it finds them.
    ghost passes: { (o : Options) → (Self.HOOK ≡ Expression → ⊥) → PassesOn (Self.profile o) };

    /// The laws of the type itself.
    ghost lawful: { (x : Self) (o : Options) → IsLawful (Self.profile o) };
}

/// A type that acts on the entry of the nodes of a hook, as one that takes part in a visit.
#[derive(Drop)]
pub struct OnEntry<T> {
    pub lowering: T,
}

impl<T: Lowering> Lowering for OnEntry<T> {
    ghost profile = { T.profile };

    ghost ending = { λ o. no_ending };

    ghost keeps = { T.keeps };

    ghost suits = { λ x o. T.suits x.lowering o };

    ghost tally = { λ x h j. 0 };

    ghost entries = { λ x h. 0 };
}

impl<S: Additions, T: Enters<S>> Traverse<S> for OnEntry<T> {
    fn enter_program(
        &mut self,
        _program: &Program,
        _ctx: &mut TraverseCtx<S>,
    ) -> Result<(), AllocError> {
        Ok(())
    }

    fn exit_program(
        &mut self,
        _program: &mut Program,
        _ctx: &mut TraverseCtx<S>,
    ) -> Result<(), AllocError> {
        Ok(())
    }

    fn enter_statements(
        &mut self,
        _statements: &mut Vec<Statement>,
        _ctx: &mut TraverseCtx<S>,
    ) -> Result<(), AllocError> {
        Ok(())
    }

    fn exit_statements(
        &mut self,
        _statements: &mut Vec<Statement>,
        _ctx: &mut TraverseCtx<S>,
    ) -> Result<(), AllocError> {
        Ok(())
    }

    fn enter_formal_parameters(
        &mut self,
        _parameters: &mut Vec<BindingPattern>,
        _ctx: &mut TraverseCtx<S>,
    ) -> Result<(), AllocError> {
        Ok(())
    }

    fn exit_formal_parameters(
        &mut self,
        _parameters: &mut Vec<BindingPattern>,
        _ctx: &mut TraverseCtx<S>,
    ) -> Result<(), AllocError> {
        Ok(())
    }

    fn enter_arrow_function_body(
        &mut self,
        _body: &ArrowFunctionBody,
        _ctx: &mut TraverseCtx<S>,
    ) -> Result<(), AllocError> {
        Ok(())
    }

    fn exit_arrow_function_body(
        &mut self,
        _body: &mut ArrowFunctionBody,
        _ctx: &mut TraverseCtx<S>,
    ) -> Result<(), AllocError> {
        Ok(())
    }

    fn enter_node(
        &mut self,
        hook: Hook,
        _site: Site,
        node: &mut Node,
        ctx: &mut TraverseCtx<S>,
    ) -> Result<(), AllocError> {
        if hook == T::HOOK {
            self.lowering.enter(node, ctx)?;
        }
        Ok(())
    }

    fn exit_node(
        &mut self,
        _hook: Hook,
        _node: &mut Node,
        _ctx: &mut TraverseCtx<S>,
    ) -> Result<(), AllocError> {
        Ok(())
    }

    ghost lawful = { λ x o. T.lawful x.lowering o };
}
