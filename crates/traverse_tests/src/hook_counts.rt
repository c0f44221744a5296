//! A type that counts the calls of its hooks and changes nothing, and the state of its visit.
ghost use Rattle.std.specs.Prelude.{◌≡◌, ◌+◌, ◌-◌, ◌<◌, OnOk, replicate, true};
ghost use Rattle.es_steps.specs.Open.{is_statement_body, nothing_pending};
ghost use Rattle.traverse_tests.specs.Quiet.{quiet, quiet_lawful};
ghost use Rattle.es_traverse.specs.Laws.{no_ending};

use es_scope::context::TraverseCtx;
use es_statements::program::Program;
use es_traverse::lowering::{Additions, Lowering};
use es_traverse::site::Site;
use es_traverse::traverse::Traverse;
use es_tree::kind::Kind;
use es_tree::node::Node;
use es_tree::sorts::{ArrowFunctionBody, BindingPattern, Statement};
use es_visit::hook::Hook;
use std::alloc::AllocError;

/// How many hooks there are.
const HOOKS: usize = 19;

/// How many pairs are open: one for the program, and one for each other statement list and each body of an arrow that
/// is an expression around the place.
#[derive(Drop)]
pub(crate) struct OpenPairs {
    pub pairs: u32,
}

impl Additions for OpenPairs {
    ghost pending = { λ s. replicate s.pairs nothing_pending };
}

/// How often each hook was called, by the number of the hook, and the greatest number of pairs that were open.
#[derive(Drop)]
pub(crate) struct HookCounts {
    entered: [u32; HOOKS],
    left: [u32; HOOKS],
    pub deepest: u32,
}

impl HookCounts {
    /// No hook was called yet.
    pub fn new() -> HookCounts {
        HookCounts {
            entered: [0; HOOKS],
            left: [0; HOOKS],
            deepest: 0,
        }
    }

    /// The calls of this hook on the way in.
    pub fn entered(&self, hook: Hook) -> u32 {
        self.entered[number(hook)]
    }

    /// The calls of this hook on the way out.
    pub fn left(&self, hook: Hook) -> u32 {
        self.left[number(hook)]
    }

    /// One pair more.
    fn open(&mut self, state: &mut OpenPairs) -> Result<(), AllocError>
        ensures { OnOk result (state.new.pairs ≡ state.old.pairs + 1) }
    {
        let Some(pairs) = state.pairs.checked_add(1) else {
            // The count of pairs has passed its end.
            return Err(AllocError);
        };
        state.pairs = pairs;
        self.deepest = self.deepest.max(pairs);
        Ok(())
    }
}

/// The number of a hook.
fn number(hook: Hook) -> usize
    ensures { result < 19 }
{
    hook as usize
}

/// One call more of this hook.
fn count(calls: &mut [u32; HOOKS], hook: Hook) -> Result<(), AllocError> {
    let number = number(hook);
    let Some(more) = calls[number].checked_add(1) else {
        // The count of calls has passed its end.
        return Err(AllocError);
    };
    calls[number] = more;
    Ok(())
}

/// Whether the body of an arrow is a function body, and no expression.
fn is_statement_body(body: &Node) -> bool
    ensures { result ≡ is_statement_body body.now }
{
    matches!(body.kind, Kind::FunctionBody { .. })
}

impl Lowering for HookCounts {
    ghost profile = { λ o. quiet };

    ghost ending = { λ o. no_ending };

    ghost keeps = { true };

    ghost suits = { λ x o. Unit {0} };

    ghost tally = { λ x h j. 0 };

    ghost entries = { λ x h. 0 };
}

impl Traverse<OpenPairs> for HookCounts {
    fn enter_program(
        &mut self,
        _program: &Program,
        ctx: &mut TraverseCtx<OpenPairs>,
    ) -> Result<(), AllocError> {
        self.deepest = self.deepest.max(ctx.state.pairs);
        count(&mut self.entered, Hook::Program)?;
        Ok(())
    }

    fn exit_program(
        &mut self,
        _program: &mut Program,
        _ctx: &mut TraverseCtx<OpenPairs>,
    ) -> Result<(), AllocError> {
        count(&mut self.left, Hook::Program)?;
        Ok(())
    }

    fn enter_statements(
        &mut self,
        _statements: &mut Vec<Statement>,
        ctx: &mut TraverseCtx<OpenPairs>,
    ) -> Result<(), AllocError> {
        count(&mut self.entered, Hook::Statements)?;
        let Some(_around) = ctx.ancestor(1) else {
            return Ok(());
        };
        self.open(&mut ctx.state)?;
        Ok(())
    }

    fn exit_statements(
        &mut self,
        _statements: &mut Vec<Statement>,
        ctx: &mut TraverseCtx<OpenPairs>,
    ) -> Result<(), AllocError> {
        count(&mut self.left, Hook::Statements)?;
        let Some(_around) = ctx.ancestor(1) else {
            return Ok(());
        };
        ctx.state.pairs -= 1;
        Ok(())
    }

    fn enter_formal_parameters(
        &mut self,
        _parameters: &mut Vec<BindingPattern>,
        _ctx: &mut TraverseCtx<OpenPairs>,
    ) -> Result<(), AllocError> {
        count(&mut self.entered, Hook::FormalParameters)?;
        Ok(())
    }

    fn exit_formal_parameters(
        &mut self,
        _parameters: &mut Vec<BindingPattern>,
        _ctx: &mut TraverseCtx<OpenPairs>,
    ) -> Result<(), AllocError> {
        count(&mut self.left, Hook::FormalParameters)?;
        Ok(())
    }

    fn enter_arrow_function_body(
        &mut self,
        body: &ArrowFunctionBody,
        ctx: &mut TraverseCtx<OpenPairs>,
    ) -> Result<(), AllocError> {
        count(&mut self.entered, Hook::ArrowFunctionBody)?;
        if is_statement_body(body) {
            return Ok(());
        }
        self.open(&mut ctx.state)?;
        Ok(())
    }

    fn exit_arrow_function_body(
        &mut self,
        body: &mut ArrowFunctionBody,
        ctx: &mut TraverseCtx<OpenPairs>,
    ) -> Result<(), AllocError> {
        count(&mut self.left, Hook::ArrowFunctionBody)?;
        if is_statement_body(body) {
            return Ok(());
        }
        ctx.state.pairs -= 1;
        Ok(())
    }

    fn enter_node(
        &mut self,
        hook: Hook,
        _site: Site,
        _node: &mut Node,
        _ctx: &mut TraverseCtx<OpenPairs>,
    ) -> Result<(), AllocError> {
        count(&mut self.entered, hook)?;
        Ok(())
    }

    fn exit_node(
        &mut self,
        hook: Hook,
        _node: &mut Node,
        _ctx: &mut TraverseCtx<OpenPairs>,
    ) -> Result<(), AllocError> {
        count(&mut self.left, hook)?;
        Ok(())
    }

    ghost lawful = { λ x o. quiet_lawful };
}
