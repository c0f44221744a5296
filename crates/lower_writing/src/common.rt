//! The lowering that writes what is pending, and wraps slots. It stands before all others.
//!
//! What lowerings declare is pending for the innermost statement list around, or for the innermost body of an arrow that is
//! an expression; it is written when that is left. Before:
//!
//!     function area(o, side = o.a.b ?? 1) {
//!         return side ** 2;
//!     }
//!     const first = list => list.next.first ?? 1;
//!
//! Where `??` is lowered, after (the declarations and the two arrows' bodies are written here):
//!
//!     function area(o, side = (() => {
//!         var _o$a$b;
//!         return (_o$a$b = o.a.b) !== null && _o$a$b !== void 0 ? _o$a$b : 1;
//!     })()) {
//!         return side ** 2;
//!     }
//!     const first = list => {
//!         var _list$next$first;
//!         return (_list$next$first = list.next.first) !== null && _list$next$first !== void 0 ? _list$next$first : 1;
//!     };
//!
//! The rule: what is pending for a list stands before its first statement that is no import (ECMA-262, 16.2); a body that
//! is an expression and for which something is pending becomes one of statements, which returns it (15.3); and an
//! expression in a slot, that is the value of a class field, or a default value or a computed key in a parameter (15.1,
//! 15.7), becomes `(() => e)()` where it holds a construct whose lowering may take a temporary.
ghost use Rattle.std.specs.Prelude.{◌≡◌, ◌+◌, ◌-◌, ◌<◌, ◌^◌, IfOk, None, OnOk, length, true};
ghost use Rattle.es_tree.specs.Tree.{trees};
ghost use Rattle.es_scope.specs.Contexts.{around_of};
ghost use Rattle.es_steps.specs.Open.{is_statement_body, no_additions, whole_list, written_body};
ghost use Rattle.es_visit.specs.Calls.{KeepsAllIds, KeepsIds};
ghost use Rattle.es_changes.specs.Moments.{top};
ghost use Rattle.es_traverse.specs.Laws.{Seen, SeenAmong, is_outermost, no_ending};
ghost use Rattle.lower_temporaries.specs.Declarators.{declarations_written};
ghost use Rattle.lower_temporaries.specs.Store.{is_inert_pending};
ghost use Rattle.lower_temporaries.specs.Takings.{moment_of};
ghost use Rattle.lower_writing.specs.Wrapping.{is_slot_hook, is_to_wrap};
ghost use Rattle.lower_writing.specs.Writing.{IsBodyOf, after_writing, common_profile, ids_for_body};

use crate::lists::{imports_before, put_at};
use crate::slots::is_slot;
use crate::wrapping::called_arrow;
use es_scope::context::TraverseCtx;
use es_slots::wrapped::holds;
use es_statements::control::new_return_statement;
use es_statements::functions::FunctionBody;
use es_statements::program::Program;
use es_traverse::lowering::Lowering;
use es_traverse::site::Site;
use es_traverse::traverse::Traverse;
use es_tree::builder::AstBuilder;
use es_tree::kind::Kind;
use es_tree::node::Node;
use es_tree::sorts::{ArrowFunctionBody, BindingPattern, Statement};
use es_visit::hook::Hook;
use lower_temporaries::declarations::MADE;
use lower_temporaries::made_nodes::new_placeholder;
use lower_temporaries::state::TransformState;
use std::alloc::AllocError;
use std::mem;

/// Keeps what is pending for each statement list, and for each body of an arrow that is an expression, while it is
/// visited; writes it there when that ends; and wraps slots.
#[derive(Clone, Copy, Debug)]
pub struct Common;

impl Common {
    /// The lowering, which is the same under all options. Takes no memory.
    pub fn new() -> Common {
        Common
    }
}

impl Lowering for Common {
    ghost profile = { common_profile };

    ghost ending = { λ o. no_ending };

    ghost keeps = { true };

    ghost suits = { λ x o. Unit {0} };

    ghost tally = { λ x h j. 0 };

    ghost entries = { λ x h. 0 };
}

impl Traverse<TransformState> for Common {
    ghost use Rattle.lower_writing.specs.Lawful.{common_lawful};

    fn enter_program(
        &mut self,
        _program: &Program,
        _ctx: &mut TraverseCtx<TransformState>,
    ) -> Result<(), AllocError> {
        Ok(())
    }

    fn exit_program(
        &mut self,
        program: &mut Program,
        ctx: &mut TraverseCtx<TransformState>,
    ) -> Result<(), AllocError> {
        write_pending(&mut program.body, ctx)?;
        ctx.state.var_declarations.record_entering_statements()?;
        Ok(())
    }

    fn enter_statements(
        &mut self,
        _statements: &mut Vec<Statement>,
        ctx: &mut TraverseCtx<TransformState>,
    ) -> Result<(), AllocError> {
        if is_outermost(ctx) {
            return Ok(());
        }
        ctx.state.var_declarations.record_entering_statements()?;
        Ok(())
    }

    fn exit_statements(
        &mut self,
        statements: &mut Vec<Statement>,
        ctx: &mut TraverseCtx<TransformState>,
    ) -> Result<(), AllocError> {
        if is_outermost(ctx) {
            return Ok(());
        }
        write_pending(statements, ctx)?;
        Ok(())
    }

    fn enter_formal_parameters(
        &mut self,
        _parameters: &mut Vec<BindingPattern>,
        _ctx: &mut TraverseCtx<TransformState>,
    ) -> Result<(), AllocError> {
        Ok(())
    }

    fn exit_formal_parameters(
        &mut self,
        _parameters: &mut Vec<BindingPattern>,
        _ctx: &mut TraverseCtx<TransformState>,
    ) -> Result<(), AllocError> {
        Ok(())
    }

    fn enter_arrow_function_body(
        &mut self,
        body: &ArrowFunctionBody,
        ctx: &mut TraverseCtx<TransformState>,
    ) -> Result<(), AllocError> {
        if is_statement_body(body) {
            return Ok(());
        }
        ctx.state.var_declarations.record_entering_statements()?;
        Ok(())
    }

    fn exit_arrow_function_body(
        &mut self,
        body: &mut ArrowFunctionBody,
        ctx: &mut TraverseCtx<TransformState>,
    ) -> Result<(), AllocError> {
        if is_statement_body(body) {
            return Ok(());
        }
        write_body(body, ctx)?;
        Ok(())
    }

    /// Wraps an expression in a slot that holds what it is wrapped for.
    fn enter_node(
        &mut self,
        hook: Hook,
        site: Site,
        node: &mut Node,
        ctx: &mut TraverseCtx<TransformState>,
    ) -> Result<(), AllocError> {
        if !is_slot_hook(hook, site) {
            return Ok(());
        }
        if !is_to_wrap(node, ctx) {
            return Ok(());
        }
        let taken = mem::replace(node, new_placeholder(ctx.ast.alloc));
        *node = called_arrow(taken, ctx)?;
        Ok(())
    }

    fn exit_node(
        &mut self,
        _hook: Hook,
        _node: &mut Node,
        _ctx: &mut TraverseCtx<TransformState>,
    ) -> Result<(), AllocError> {
        Ok(())
    }

    ghost lawful = { λ x o. common_lawful o };
}

/// Whether the statement list at this place is that of the program, around which there is nothing else.
fn is_outermost(ctx: &TraverseCtx<TransformState>) -> bool
    ensures { result ≡ is_outermost (around_of ctx.now) }
{
    ctx.ancestor(1).is_none()
}

/// Whether the body of an arrow is one of statements, and no expression.
fn is_statement_body(body: &Node) -> bool
    ensures { result ≡ is_statement_body body.now }
{
    matches!(body.kind, Kind::FunctionBody { .. })
}

/// Whether it is the hook of an expression, where a slot may stand.
fn is_slot_hook(hook: Hook, site: Site) -> bool
    ensures { result ≡ is_slot_hook hook site }
{
    matches!((hook, site), (Hook::Expression, Site::Slot))
}

/// Whether an expression at a place where a slot may stand is one that is to be wrapped.
fn is_to_wrap(expression: &Node, ctx: &TraverseCtx<TransformState>) -> bool
    ensures { result ≡ is_to_wrap ctx.now.options (around_of ctx.now) expression.now }
{
    is_slot(ctx) && !is_statement_body(expression) && holds(expression, &ctx.options)
}

/// Writes what is pending for the innermost list before the first of these statements that is no import, and closes its
/// pair.
fn write_pending(
    statements: &mut Vec<Statement>,
    ctx: &mut TraverseCtx<TransformState>,
) -> Result<(), AllocError>
    requires there { 0 < length ctx.old.state.var_declarations }
    requires room { ctx.old.ast.next + declarations_written (top ctx.old.state.var_declarations) < 2 ^ 32 }
    ensures written { OnOk result (SeenAmong (λ ts us. us ≡ whole_list (top ctx.old.state.var_declarations) None no_additions ts) (trees statements.old.items) (trees statements.new.items)) }
    ensures inert { OnOk result (is_inert_pending (top ctx.old.state.var_declarations) ≡ true) }
    ensures moment { OnOk result (moment_of ctx.new ≡ after_writing 0 (moment_of ctx.old)) }
    ensures ids { OnOk result (KeepsAllIds (trees statements.old.items) (trees statements.new.items)) }
{
    let (by_var, by_let) = ctx.state.var_declarations.get_var_statement(&mut ctx.ast)?;
    let place = imports_before(statements);
    put_at(statements, place, by_let)?;
    put_at(statements, place, by_var)?;
    Ok(())
}

/// Writes what is pending for the body of an arrow that is an expression, and closes its pair: where there is something,
/// `e` becomes `{ var ..; return e; }`. The body keeps its id.
fn write_body(body: &mut Node, ctx: &mut TraverseCtx<TransformState>) -> Result<(), AllocError>
    requires there { 0 < length ctx.old.state.var_declarations }
    requires room { ctx.old.ast.next + declarations_written (top ctx.old.state.var_declarations) + 2 < 2 ^ 32 - 1 }
    ensures written { OnOk result (Seen (λ t u. u ≡ written_body (top ctx.old.state.var_declarations) t) body.old body.new) }
    ensures inert { OnOk result (is_inert_pending (top ctx.old.state.var_declarations) ≡ true) }
    ensures moment { OnOk result (moment_of ctx.new ≡ after_writing (ids_for_body (top ctx.old.state.var_declarations)) (moment_of ctx.old)) }
    ensures ids { OnOk result (KeepsIds body.old body.new) }
{
    let (by_var, by_let) = ctx.state.var_declarations.get_var_statement(&mut ctx.ast)?;
    if by_var.is_none() && by_let.is_none() {
        return Ok(());
    }
    let expression = mem::replace(body, new_placeholder(ctx.ast.alloc));
    *body = statement_body(expression, by_var, by_let, &mut ctx.ast)?;
    Ok(())
}

/// `{ var ..; let ..; return e; }` with the id of `e`, which gets another.
fn statement_body(
    mut expression: Node,
    by_var: Option<Statement>,
    by_let: Option<Statement>,
    ast: &mut AstBuilder,
) -> Result<Node, AllocError>
    requires room { ast.old.next + 2 < 2 ^ 32 - 1 }
    ensures made { IfOk result (λ body. IsBodyOf expression by_var by_let body) }
    ensures counted { OnOk result (ast.new.next ≡ ast.old.next + 2) }
    ensures ids { IfOk result (λ body. KeepsIds expression body) }
{
    let id = expression.id;
    expression.id = ast.new_id();
    let returned = new_return_statement(ast, MADE, Some(expression))?;
    let mut body = Vec::from_array(ast.alloc, [returned])?;
    put_at(&mut body, 0, by_let)?;
    put_at(&mut body, 0, by_var)?;
    let made = FunctionBody {
        id,
        span: MADE,
        scope: None,
        directives: Vec::new(ast.alloc),
        body,
    };
    made.close(ast.alloc)
}
