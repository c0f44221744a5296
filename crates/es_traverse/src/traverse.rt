//! The hooks of a lowering, and what each promises. A hook gets its node as it stands, and a node that an enter hook made
//! is visited as it stands after the hook. A hook fails only for want of memory, and leaves the tree in no stated shape
//! then.
//!
//! Hooks that remove constructs or keep pairs have no default body: a type that states constructs for a hook and does
//! nothing there is refused when it is proved.
ghost use Rattle.std.specs.Prelude.{◌≡◌, ◌+◌, OnOk};
ghost use Rattle.es_tree.specs.Tree.{label_of, tree_size, trees};
ghost use Rattle.es_tree.specs.declared.options.EnvOptions.{EnvOptions as Options};
ghost use Rattle.es_runs.specs.Weights.{trees_weight, weight};
ghost use Rattle.es_statements.specs.ProgramPlain.{plain_program};
ghost use Rattle.es_visit.specs.Calls.{Goes, GoesOut, GoesOutOfList, KeepsAllIds, KeepsIds};
ghost use Rattle.es_visit.specs.declared.hook.Hook.TheVariants.{ArrowFunctionBody, FormalParameters};
ghost use Rattle.es_visit.specs.declared.hook.Hook.TheVariants.{Program as WholeProgram, Statements as StatementList};
ghost use Rattle.es_traverse.specs.ContextMoments.{moment};
ghost use Rattle.es_changes.specs.Changes.{Kept};
ghost use Rattle.es_traverse.specs.Laws.{EnteredAs, EnteredList, EnteredParameters, Exited, ExitedBody, ExitedList, ExitedParameters, ExitedProgram, IsLawful, IsReady, KeptLoad, KeptLoads, KeptTree, KeptTrees, Seen, SeenAmong, opens_body, opens_list};
ghost use Rattle.es_traverse.specs.Loads.{load, trees_load, wrapping_by, writing_by};

use crate::lowering::{Additions, Lowering};
use crate::site::Site;
use es_scope::context::TraverseCtx;
use es_statements::program::Program;
use es_tree::node::Node;
use es_tree::sorts::{ArrowFunctionBody, BindingPattern, Statement};
use es_visit::hook::Hook;
use std::alloc::AllocError;

/// A lowering: a type with a hook before and one after the children of each node, by the node's sort and by its kind,
/// and before and after each statement list, each list of parameters and each body of an arrow.
pub trait Traverse<S: Additions>: Lowering {
    /// Before the program, which stays as it is.
    fn enter_program(
        &mut self,
        program: &Program,
        ctx: &mut TraverseCtx<S>,
    ) -> Result<(), AllocError>
        requires ready { IsReady Self.suits self.old (moment S.pending ctx.old) (load (plain_program program.now)) }
        ensures same { OnOk result (moment S.pending ctx.new ≡ moment S.pending ctx.old) }
        ensures goes { OnOk result (Goes Self.suits Self.tally Self.entries ctx.old.options WholeProgram self.old self.new) };

    /// After the program. A type that keeps pairs writes what is pending, and leaves nothing. What a type takes away
    /// of the program's statements here, no statement of the list is any more.
    fn exit_program(
        &mut self,
        program: &mut Program,
        ctx: &mut TraverseCtx<S>,
    ) -> Result<(), AllocError>
        requires ready { IsReady Self.suits self.old (moment S.pending ctx.old) (weight (plain_program program.old)) }
        ensures kept { OnOk result (KeptTree (moment S.pending ctx.old) (plain_program program.old) (moment S.pending ctx.new) (plain_program program.new)) }
        ensures exited { OnOk result (Seen (λ t u. ExitedProgram (Self.profile ctx.old.options) (Self.ending ctx.old.options) Self.keeps (moment S.pending ctx.old) t (moment S.pending ctx.new) u) (plain_program program.old) (plain_program program.new)) }
        ensures ids { OnOk result (KeepsIds (plain_program program.old) (plain_program program.new)) }
        ensures goes { OnOk result (GoesOut Self.suits Self.tally Self.entries ctx.old.options WholeProgram program.old.id.0 self.old self.new) };

    /// Before the statements of a list. A type that keeps pairs opens one, but for the list of the program.
    fn enter_statements(
        &mut self,
        statements: &mut Vec<Statement>,
        ctx: &mut TraverseCtx<S>,
    ) -> Result<(), AllocError>
        requires ready { IsReady Self.suits self.old (moment S.pending ctx.old) (trees_load (trees statements.old.items)) }
        ensures kept { OnOk result (KeptLoads (opens_list Self.keeps (moment S.pending ctx.old)) (trees statements.old.items) (moment S.pending ctx.new) (trees statements.new.items)) }
        ensures entered { OnOk result (SeenAmong (λ ts us. EnteredList (Self.profile ctx.old.options) Self.keeps (moment S.pending ctx.old) ts (moment S.pending ctx.new) us) (trees statements.old.items) (trees statements.new.items)) }
        ensures goes { OnOk result (Goes Self.suits Self.tally Self.entries ctx.old.options StatementList self.old self.new) };

    /// After the statements of a list. A type that keeps pairs writes what is pending, and closes the pair.
    fn exit_statements(
        &mut self,
        statements: &mut Vec<Statement>,
        ctx: &mut TraverseCtx<S>,
    ) -> Result<(), AllocError>
        requires ready { IsReady Self.suits self.old (moment S.pending ctx.old) (trees_weight (trees statements.old.items)) }
        ensures kept { OnOk result (KeptTrees (moment S.pending ctx.old) (trees statements.old.items) (opens_list Self.keeps (moment S.pending ctx.new)) (trees statements.new.items)) }
        ensures exited { OnOk result (SeenAmong (λ ts us. ExitedList (Self.profile ctx.old.options) Self.keeps (moment S.pending ctx.old) ts (moment S.pending ctx.new) us) (trees statements.old.items) (trees statements.new.items)) }
        ensures ids { OnOk result (KeepsAllIds (trees statements.old.items) (trees statements.new.items)) }
        ensures goes { OnOk result (GoesOutOfList Self.suits Self.tally Self.entries ctx.old.options self.old self.new) };

    /// Before the parameters of a function or an arrow.
    fn enter_formal_parameters(
        &mut self,
        parameters: &mut Vec<BindingPattern>,
        ctx: &mut TraverseCtx<S>,
    ) -> Result<(), AllocError>
        requires ready { IsReady Self.suits self.old (moment S.pending ctx.old) (trees_load (trees parameters.old.items)) }
        ensures kept { OnOk result (KeptLoads (moment S.pending ctx.old) (trees parameters.old.items) (moment S.pending ctx.new) (trees parameters.new.items)) }
        ensures entered { OnOk result (SeenAmong (λ ts us. EnteredParameters (Self.profile ctx.old.options) (moment S.pending ctx.old) ts (moment S.pending ctx.new) us) (trees parameters.old.items) (trees parameters.new.items)) }
        ensures goes { OnOk result (Goes Self.suits Self.tally Self.entries ctx.old.options FormalParameters self.old self.new) };

    /// After the parameters of a function or an arrow.
    fn exit_formal_parameters(
        &mut self,
        parameters: &mut Vec<BindingPattern>,
        ctx: &mut TraverseCtx<S>,
    ) -> Result<(), AllocError>
        requires ready { IsReady Self.suits self.old (moment S.pending ctx.old) (trees_weight (trees parameters.old.items)) }
        ensures kept { OnOk result (KeptTrees (moment S.pending ctx.old) (trees parameters.old.items) (moment S.pending ctx.new) (trees parameters.new.items)) }
        ensures exited { OnOk result (SeenAmong (λ ts us. ExitedParameters (Self.profile ctx.old.options) (moment S.pending ctx.old) ts (moment S.pending ctx.new) us) (trees parameters.old.items) (trees parameters.new.items)) }
        ensures ids { OnOk result (KeepsAllIds (trees parameters.old.items) (trees parameters.new.items)) }
        ensures goes { OnOk result (GoesOutOfList Self.suits Self.tally Self.entries ctx.old.options self.old self.new) };

    /// Before the body of an arrow, as such. A type that keeps pairs opens one where the body is an expression.
    fn enter_arrow_function_body(
        &mut self,
        body: &ArrowFunctionBody,
        ctx: &mut TraverseCtx<S>,
    ) -> Result<(), AllocError>
        requires ready { IsReady Self.suits self.old (moment S.pending ctx.old) (load body.now) }
        ensures opened { OnOk result (moment S.pending ctx.new ≡ opens_body Self.keeps body.now (moment S.pending ctx.old)) }
        ensures goes { OnOk result (Goes Self.suits Self.tally Self.entries ctx.old.options ArrowFunctionBody self.old self.new) };

    /// After the body of an arrow, as such. A type that keeps pairs writes what is pending for a body that is an
    /// expression, and closes its pair.
    fn exit_arrow_function_body(
        &mut self,
        body: &mut ArrowFunctionBody,
        ctx: &mut TraverseCtx<S>,
    ) -> Result<(), AllocError>
        requires ready { IsReady Self.suits self.old (moment S.pending ctx.old) (weight body.old + writing_by Self.keeps) }
        ensures kept { OnOk result (Kept (moment S.pending ctx.old) (weight body.old + writing_by Self.keeps) (tree_size body.old) (opens_body Self.keeps body.old (moment S.pending ctx.new)) (weight body.new) (tree_size body.new)) }
        ensures exited { OnOk result (Seen (λ t u. ExitedBody (Self.profile ctx.old.options) Self.keeps (moment S.pending ctx.old) t (moment S.pending ctx.new) u) body.old body.new) }
        ensures ids { OnOk result (KeepsIds body.old body.new) }
        ensures goes { OnOk result (GoesOut Self.suits Self.tally Self.entries ctx.old.options ArrowFunctionBody (label_of body.old).id self.old self.new) };

    /// Before the children of a node, by its sort (`Hook::Expression`, `Hook::Statement`: ECMA-262, 13 and 14 to 16),
    /// and then by its kind. The site tells what may stand at its place.
    fn enter_node(
        &mut self,
        hook: Hook,
        site: Site,
        node: &mut Node,
        ctx: &mut TraverseCtx<S>,
    ) -> Result<(), AllocError>
        requires ready { IsReady Self.suits self.old (moment S.pending ctx.old) (load node.old + wrapping_by Self.keeps hook site) }
        ensures kept { OnOk result (KeptLoad (wrapping_by Self.keeps hook site) (moment S.pending ctx.old) node.old (moment S.pending ctx.new) node.new) }
        ensures entered { OnOk result (Seen (λ t u. EnteredAs (Self.profile ctx.old.options) hook site (moment S.pending ctx.old) t (moment S.pending ctx.new) u) node.old node.new) }
        ensures goes { OnOk result (Goes Self.suits Self.tally Self.entries ctx.old.options hook self.old self.new) };

    /// After the children of a node, by its kind, and then by its sort. By its kind it leaves no construct of those that the
    /// type removes after nodes.
    fn exit_node(
        &mut self,
        hook: Hook,
        node: &mut Node,
        ctx: &mut TraverseCtx<S>,
    ) -> Result<(), AllocError>
        requires ready { IsReady Self.suits self.old (moment S.pending ctx.old) (weight node.old) }
        ensures kept { OnOk result (KeptTree (moment S.pending ctx.old) node.old (moment S.pending ctx.new) node.new) }
        ensures exited { OnOk result (Seen (λ t u. Exited (Self.profile ctx.old.options) hook (moment S.pending ctx.old) t (moment S.pending ctx.new) u) node.old node.new) }
        ensures ids { OnOk result (KeepsIds node.old node.new) }
        ensures goes { OnOk result (GoesOut Self.suits Self.tally Self.entries ctx.old.options hook (label_of node.old).id self.old self.new) };

    /// The laws of the type itself.
    ghost lawful: { (x : Self) (o : Options) → IsLawful (Self.profile o) };
}
