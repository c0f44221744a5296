//! Fresh names that are declared by `var` at the head of the innermost statement list.
ghost use Rattle.std.specs.Prelude.{◌≡◌, ◌+◌, ◌<◌, ◌^◌, IfOk, OnErr, length, true};
ghost use Rattle.es_tree.specs.Fresh.{node_base, text_base};
ghost use Rattle.es_changes.specs.Moments.{whole_at};
ghost use Rattle.es_steps.specs.Duplication.{IsNext};
ghost use Rattle.lower_temporaries.specs.Declarators.{bound_as};
ghost use Rattle.lower_temporaries.specs.SeenTrees.{is_inert, seen_alone};
ghost use Rattle.lower_temporaries.specs.Takings.{moment_of};
ghost use Rattle.lower_temporaries.specs.UidVars.{DeclaresVar, DeclaresVarWith};

use crate::declarations::VarDeclarationsStore;
use crate::state::TransformState;
use es_scope::context::TraverseCtx;
use es_scope::context_names::BoundIdentifier;
use es_tree::sorts::Expression;
use std::alloc::AllocError;

impl VarDeclarationsStore {
    /// A fresh name of the base that this text gives, bound where `var` declares here, and declared at the head of the
    /// innermost statement list.
    pub fn create_uid_var(
        name: &str,
        ctx: &mut TraverseCtx<TransformState>,
    ) -> Result<BoundIdentifier, AllocError>
        requires there { 0 < length ctx.old.state.var_declarations }
        requires room { ctx.old.ast.next + 2 < 2 ^ 32 }
        ensures next { IfOk result (λ b. IsNext (whole_at (moment_of ctx.old)) (text_base name.now) (bound_as b)) }
        ensures declared { IfOk result (λ b. DeclaresVar ctx.old ctx.new b) }
        ensures kept { OnErr result (ctx.new.state.var_declarations ≡ ctx.old.state.var_declarations) }
    {
        let bound = ctx.generate_uid_in_current_hoist_scope(name)?;
        ctx.state.var_declarations.insert_var(&bound, &mut ctx.ast)?;
        Ok(bound)
    }

    /// The same with an initialiser, which is inert.
    pub fn create_uid_var_with_init(
        name: &str,
        expression: Expression,
        ctx: &mut TraverseCtx<TransformState>,
    ) -> Result<BoundIdentifier, AllocError>
        requires there { 0 < length ctx.old.state.var_declarations }
        requires inert { is_inert expression ≡ true }
        requires room { ctx.old.ast.next + 2 < 2 ^ 32 }
        ensures next { IfOk result (λ b. IsNext (whole_at (moment_of ctx.old)) (text_base name.now) (bound_as b)) }
        ensures declared { IfOk result (λ b. DeclaresVarWith ctx.old ctx.new b (seen_alone expression)) }
        ensures kept { OnErr result (ctx.new.state.var_declarations ≡ ctx.old.state.var_declarations) }
    {
        let bound = ctx.generate_uid_in_current_hoist_scope(name)?;
        ctx.state
            .var_declarations
            .insert_var_with_init(&bound, expression, &mut ctx.ast)?;
        Ok(bound)
    }

    /// A fresh name of the base that this node gives, bound where `var` declares here, and declared at the head of the
    /// innermost statement list.
    pub fn create_uid_var_based_on_node(
        node: &Expression,
        ctx: &mut TraverseCtx<TransformState>,
    ) -> Result<BoundIdentifier, AllocError>
        requires there { 0 < length ctx.old.state.var_declarations }
        requires room { ctx.old.ast.next + 2 < 2 ^ 32 }
        ensures next { IfOk result (λ b. IsNext (whole_at (moment_of ctx.old)) (node_base node.now) (bound_as b)) }
        ensures declared { IfOk result (λ b. DeclaresVar ctx.old ctx.new b) }
        ensures kept { OnErr result (ctx.new.state.var_declarations ≡ ctx.old.state.var_declarations) }
    {
        let bound = ctx.generate_uid_in_current_hoist_scope_based_on_node(node)?;
        ctx.state.var_declarations.insert_var(&bound, &mut ctx.ast)?;
        Ok(bound)
    }
}
