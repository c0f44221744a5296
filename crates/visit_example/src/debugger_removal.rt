//! `debugger;` becomes `;` (ECMA-262, 14.16 and 14.4): `a; debugger; b;` becomes `a; ; b;`. The node keeps its id and its
//! span.
ghost use Rattle.std.specs.Prelude.{◌≡◌, false};
ghost use Rattle.visit_example.specs.Lawful.{removal_lawful};
ghost use Rattle.visit_example.specs.Removals.{removal, without_debugger};
ghost use Rattle.es_traverse.specs.Laws.{no_ending};

use es_scope::context::TraverseCtx;
use es_statements::program::Program;
use es_traverse::lowering::{Additions, Lowering};
use es_traverse::site::Site;
use es_traverse::traverse::Traverse;
use es_tree::kind::Kind;
use es_tree::node::Node;
use es_tree::sorts::{ArrowFunctionBody, BindingPattern, Statement};
use es_visit::hook::Hook;
use std::alloc::AllocError;

/// Makes a `debugger;` a `;`, and leaves other statements.
fn remove_debugger(statement: &mut Statement)
    ensures { statement.new ≡ without_debugger statement.old }
{
    match statement.kind {
        Kind::DebuggerStatement => statement.kind = Kind::EmptyStatement,
        _ => {}
    }
}

/// The lowering: it acts before statements alone, keeps no pairs, and counts no hooks.
#[derive(Drop)]
pub struct DebuggerRemoval {}

impl Lowering for DebuggerRemoval {
    ghost profile = { λ o. removal };

    ghost ending = { λ o. no_ending };

    ghost keeps = { false };

    ghost suits = { λ x o. Unit {0} };

    ghost tally = { λ x h j. 0 };

    ghost entries = { λ x h. 0 };
}

impl<S: Additions> Traverse<S> for DebuggerRemoval {
    fn enter_program(
        &mut self,
        _program: &Program,
        _ctx: &mut TraverseCtx<S>,
    ) -> Result<(), AllocError> {
        Ok(())
    }

    fn exit_program(
        &mut self,
        _program: &mut Program,
        _ctx: &mut TraverseCtx<S>,
    ) -> Result<(), AllocError> {
        Ok(())
    }

    fn enter_statements(
        &mut self,
        _statements: &mut Vec<Statement>,
        _ctx: &mut TraverseCtx<S>,
    ) -> Result<(), AllocError> {
        Ok(())
    }

    fn exit_statements(
        &mut self,
        _statements: &mut Vec<Statement>,
        _ctx: &mut TraverseCtx<S>,
    ) -> Result<(), AllocError> {
        Ok(())
    }

    fn enter_formal_parameters(
        &mut self,
        _parameters: &mut Vec<BindingPattern>,
        _ctx: &mut TraverseCtx<S>,
    ) -> Result<(), AllocError> {
        Ok(())
    }

    fn exit_formal_parameters(
        &mut self,
        _parameters: &mut Vec<BindingPattern>,
        _ctx: &mut TraverseCtx<S>,
    ) -> Result<(), AllocError> {
        Ok(())
    }

    fn enter_arrow_function_body(
        &mut self,
        _body: &ArrowFunctionBody,
        _ctx: &mut TraverseCtx<S>,
    ) -> Result<(), AllocError> {
        Ok(())
    }

    fn exit_arrow_function_body(
        &mut self,
        _body: &mut ArrowFunctionBody,
        _ctx: &mut TraverseCtx<S>,
    ) -> Result<(), AllocError> {
        Ok(())
    }

    fn enter_node(
        &mut self,
        hook: Hook,
        _site: Site,
        node: &mut Node,
        _ctx: &mut TraverseCtx<S>,
    ) -> Result<(), AllocError> {
        match hook {
            Hook::Statement => remove_debugger(node),
            _ => {}
        }
        Ok(())
    }

    fn exit_node(
        &mut self,
        _hook: Hook,
        _node: &mut Node,
        _ctx: &mut TraverseCtx<S>,
    ) -> Result<(), AllocError> {
        Ok(())
    }

    ghost lawful = { λ x o. removal_lawful };
}
