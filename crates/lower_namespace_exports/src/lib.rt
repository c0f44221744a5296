//! The lowering of exports of a namespace (ECMA-262, 16.2.3): `export * as n from "m"` becomes an import of the namespace, under a
//! fresh name that the program binds, and an export of that name.
//!
//! Before:
//!
//!     export * as shapes from "./shapes.json" with { type: "json" };
//!
//! After:
//!
//!     import * as _shapes from "./shapes.json" with { type: "json" };
//!     export { _shapes as shapes };
//!
//! The two stand in the place of the export. They are put there after the program's statements were visited, since nothing of them
//! is to be lowered.
//!
//! Its rule is `NamespaceRule` of es_steps.
#![tactic(auto)]

ghost use Rattle.std.specs.Prelude.{◌≡◌, false};
ghost use Rattle.lower_namespace_exports.specs.Lawful.{namespace_lawful};
ghost use Rattle.lower_namespace_exports.specs.Profile.{namespace_ending, namespace_profile};

mod exports;
mod names;
mod nodes;
mod statements;

use crate::statements::lower_statements;
use es_scope::context::TraverseCtx;
use es_statements::program::Program;
use es_traverse::lowering::Lowering;
use es_traverse::site::Site;
use es_traverse::traverse::Traverse;
use es_tree::node::Node;
use es_tree::options::EnvOptions;
use es_tree::sorts::{ArrowFunctionBody, BindingPattern, Statement};
use es_visit::hook::Hook;
use lower_temporaries::state::TransformState;
use std::alloc::AllocError;
use std::mem;

/// The lowering of exports of a namespace.
#[derive(Clone, Copy, Debug)]
pub struct ExportNamespaceFrom {
    /// Whether the options ask for it.
    pub is_on: bool,
}

impl ExportNamespaceFrom {
    /// The lowering, as these options ask for it. It takes no memory.
    pub fn new(options: &EnvOptions) -> ExportNamespaceFrom
        ensures { result.is_on ≡ options.now.es2020.export_namespace_from }
    {
        ExportNamespaceFrom {
            is_on: options.es2020.export_namespace_from,
        }
    }
}

impl Lowering for ExportNamespaceFrom {
    ghost profile = { namespace_profile };

    ghost ending = { namespace_ending };

    ghost keeps = { false };

    ghost suits = { λ x o. x.is_on ≡ o.es2020.export_namespace_from };

    ghost tally = { λ x h id. 0 };

    ghost entries = { λ x h. 0 };
}

impl Traverse<TransformState> for ExportNamespaceFrom {
    fn enter_program(
        &mut self,
        _program: &Program,
        _ctx: &mut TraverseCtx<TransformState>,
    ) -> Result<(), AllocError> {
        Ok(())
    }

    /// Each `export * as n from "m"` of the program becomes `import * as _n from "m"` and `export { _n as n }`.
    fn exit_program(
        &mut self,
        program: &mut Program,
        ctx: &mut TraverseCtx<TransformState>,
    ) -> Result<(), AllocError> {
        if !self.is_on {
            return Ok(());
        }
        let statements = mem::replace(&mut program.body, Vec::new(ctx.ast.alloc));
        let lowered = lower_statements(statements, ctx)?;
        program.body = lowered;
        Ok(())
    }

    fn enter_statements(
        &mut self,
        _statements: &mut Vec<Statement>,
        _ctx: &mut TraverseCtx<TransformState>,
    ) -> Result<(), AllocError> {
        Ok(())
    }

    fn exit_statements(
        &mut self,
        _statements: &mut Vec<Statement>,
        _ctx: &mut TraverseCtx<TransformState>,
    ) -> Result<(), AllocError> {
        Ok(())
    }

    fn enter_formal_parameters(
        &mut self,
        _parameters: &mut Vec<BindingPattern>,
        _ctx: &mut TraverseCtx<TransformState>,
    ) -> Result<(), AllocError> {
        Ok(())
    }

    fn exit_formal_parameters(
        &mut self,
        _parameters: &mut Vec<BindingPattern>,
        _ctx: &mut TraverseCtx<TransformState>,
    ) -> Result<(), AllocError> {
        Ok(())
    }

    fn enter_arrow_function_body(
        &mut self,
        _body: &ArrowFunctionBody,
        _ctx: &mut TraverseCtx<TransformState>,
    ) -> Result<(), AllocError> {
        Ok(())
    }

    fn exit_arrow_function_body(
        &mut self,
        _body: &mut ArrowFunctionBody,
        _ctx: &mut TraverseCtx<TransformState>,
    ) -> Result<(), AllocError> {
        Ok(())
    }

    fn enter_node(
        &mut self,
        _hook: Hook,
        _site: Site,
        _node: &mut Node,
        _ctx: &mut TraverseCtx<TransformState>,
    ) -> Result<(), AllocError> {
        Ok(())
    }

    fn exit_node(
        &mut self,
        _hook: Hook,
        _node: &mut Node,
        _ctx: &mut TraverseCtx<TransformState>,
    ) -> Result<(), AllocError> {
        Ok(())
    }

    ghost lawful = { λ x o. namespace_lawful o };
}
