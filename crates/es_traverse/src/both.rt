//! Two lowerings as one.
ghost use Rattle.std.specs.Prelude.{◌≡◌, false};
ghost use Rattle.es_tree.specs.declared.options.EnvOptions.{EnvOptions as Options};
ghost use Rattle.es_visit.specs.Calls.{most};
ghost use Rattle.es_traverse.specs.Laws.{AreApart, EndsApart, both_endings, both_profile};
ghost use Rattle.es_traverse.specs.Together.{both_lawful};

use crate::lowering::{Additions, Lowering};
use crate::site::Site;
use crate::traverse::Traverse;
use es_scope::context::TraverseCtx;
use es_statements::program::Program;
use es_tree::node::Node;
use es_tree::sorts::{ArrowFunctionBody, BindingPattern, Statement};
use es_visit::hook::Hook;
use std::alloc::AllocError;

/// `first` and then `second` on the way in, `second` and then `first` on the way out.
#[derive(Drop)]
pub struct Both<A: Lowering, B: Lowering> {
    pub first: A,
    pub second: B,
    ghost apart: { (o : Options) → AreApart (A.profile o) (B.profile o) },
    ghost ends: { (o : Options) → EndsApart (A.profile o) (B.ending o) },
    ghost alone: { B.keeps ≡ false },
}

impl<A: Lowering, B: Lowering> Both<A, B> {
    /// The two as one. They have the same conditions, the second counts on what the first leaves, makes and writes no
    /// construct of the first, and keeps no pairs; and the first writes no construct of the second, neither one that it
    /// takes away after the program.
    pub fn new(first: A, second: B) -> Self
        requires apart { (o : Options) → AreApart (A.profile o) (B.profile o) }
        requires ends { (o : Options) → EndsApart (A.profile o) (B.ending o) }
        requires alone { B.keeps ≡ false }
        ensures first { result.first ≡ first }
        ensures second { result.second ≡ second }
    {
        Both { first, second }
    }
}

impl<A: Lowering, B: Lowering> Lowering for Both<A, B> {
    ghost profile = { λ o. both_profile (A.profile o) (B.profile o) };

    ghost ending = { λ o. both_endings (A.ending o) (B.ending o) };

    ghost keeps = { A.keeps };

    ghost suits = { λ x o. A.suits x.first o × B.suits x.second o };

    ghost tally = { λ x h j. most (A.tally x.first h j) (B.tally x.second h j) };

    ghost entries = { λ x h. most (A.entries x.first h) (B.entries x.second h) };
}

impl<S: Additions, A: Traverse<S>, B: Traverse<S>> Traverse<S> for Both<A, B> {
    fn enter_program(
        &mut self,
        program: &Program,
        ctx: &mut TraverseCtx<S>,
    ) -> Result<(), AllocError> {
        self.first.enter_program(program, ctx)?;
        self.second.enter_program(program, ctx)?;
        Ok(())
    }

    fn exit_program(
        &mut self,
        program: &mut Program,
        ctx: &mut TraverseCtx<S>,
    ) -> Result<(), AllocError> {
        self.second.exit_program(program, ctx)?;
        self.first.exit_program(program, ctx)?;
        Ok(())
    }

    fn enter_statements(
        &mut self,
        statements: &mut Vec<Statement>,
        ctx: &mut TraverseCtx<S>,
    ) -> Result<(), AllocError> {
        self.first.enter_statements(statements, ctx)?;
        self.second.enter_statements(statements, ctx)?;
        Ok(())
    }

    fn exit_statements(
        &mut self,
        statements: &mut Vec<Statement>,
        ctx: &mut TraverseCtx<S>,
    ) -> Result<(), AllocError> {
        self.second.exit_statements(statements, ctx)?;
        self.first.exit_statements(statements, ctx)?;
        Ok(())
    }

    fn enter_formal_parameters(
        &mut self,
        parameters: &mut Vec<BindingPattern>,
        ctx: &mut TraverseCtx<S>,
    ) -> Result<(), AllocError> {
        self.first.enter_formal_parameters(parameters, ctx)?;
        self.second.enter_formal_parameters(parameters, ctx)?;
        Ok(())
    }

    fn exit_formal_parameters(
        &mut self,
        parameters: &mut Vec<BindingPattern>,
        ctx: &mut TraverseCtx<S>,
    ) -> Result<(), AllocError> {
        self.second.exit_formal_parameters(parameters, ctx)?;
        self.first.exit_formal_parameters(parameters, ctx)?;
        Ok(())
    }

    fn enter_arrow_function_body(
        &mut self,
        body: &ArrowFunctionBody,
        ctx: &mut TraverseCtx<S>,
    ) -> Result<(), AllocError> {
        self.first.enter_arrow_function_body(body, ctx)?;
        self.second.enter_arrow_function_body(body, ctx)?;
        Ok(())
    }

    fn exit_arrow_function_body(
        &mut self,
        body: &mut ArrowFunctionBody,
        ctx: &mut TraverseCtx<S>,
    ) -> Result<(), AllocError> {
        self.second.exit_arrow_function_body(body, ctx)?;
        self.first.exit_arrow_function_body(body, ctx)?;
        Ok(())
    }

    fn enter_node(
        &mut self,
        hook: Hook,
        site: Site,
        node: &mut Node,
        ctx: &mut TraverseCtx<S>,
    ) -> Result<(), AllocError> {
        self.first.enter_node(hook, site, node, ctx)?;
        self.second.enter_node(hook, site, node, ctx)?;
        Ok(())
    }

    fn exit_node(
        &mut self,
        hook: Hook,
        node: &mut Node,
        ctx: &mut TraverseCtx<S>,
    ) -> Result<(), AllocError> {
        self.second.exit_node(hook, node, ctx)?;
        self.first.exit_node(hook, node, ctx)?;
        Ok(())
    }

    ghost lawful = { λ x o. both_lawful (A.profile o) (B.profile o) (A.lawful x.first o) (B.lawful x.second o) (x.apart o) };
}
