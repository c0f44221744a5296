//! The `try` around the statements in which a context is used, with the context before them (Explicit Resource Management, 14.3.1).
//!
//! Before:
//!
//!     const a = _usingCtx.u(b); f(a);
//!
//! After:
//!
//!     try { var _usingCtx = babelHelpers.usingCtx(); const a = _usingCtx.u(b); f(a); } catch (_) { _usingCtx.e = _; } finally { _usingCtx.d(); }
//!
//! The rule is `tried` of es_using_rows.
ghost use Rattle.std.specs.Prelude.{◌≡◌, IfOk};
ghost use Rattle.es_tree.specs.Tree.{trees};
ghost use Rattle.es_using_rows.specs.Used.{finalizer, handler, new_context, notes_error, tried};
ghost use Rattle.lower_using.specs.Parts.{making, of_id};

use crate::made_nodes::{
    new_block, new_call, new_member, new_method_call, new_statement, new_variable,
};
use es_expressions::operations::AssignmentExpression;
use es_statements::control::{CatchClause, TryStatement};
use es_tree::ids::NodeId;
use es_tree::node::Node;
use es_tree::operators::AssignmentOperator;
use lower_fresh_names::nodes::{MADE, new_name};
use std::alloc::{AllocError, Global};

/// The parameter of the made `catch`.
const ERROR: &str = "_";

/// `try { var _usingCtx = babelHelpers.usingCtx(); ts } catch (_) { _usingCtx.e = _; } finally { _usingCtx.d(); }`. Fails only for want
/// of memory.
pub fn new_try(
    id: NodeId,
    context: &str,
    statements: Vec<Node>,
    alloc: Global,
) -> Result<Node, AllocError>
    ensures { IfOk result (λ made. made ≡ tried (making context.now) 0 (of_id id.0) (trees statements.items)) }
{
    let mut rest = statements;
    let mut body = Vec::from_array(alloc, [new_context(id, context, alloc)?])?;
    body.append(&mut rest)?;
    let handler = new_handler(id, context, alloc)?;
    let finalizer = new_finalizer(id, context, alloc)?;
    let tried = TryStatement {
        id,
        span: MADE,
        block: new_block(id, body, alloc)?,
        handler: Some(handler),
        finalizer: Some(finalizer),
    };
    tried.close(alloc)
}

/// `var _usingCtx = babelHelpers.usingCtx();`
fn new_context(id: NodeId, context: &str, alloc: Global) -> Result<Node, AllocError>
    ensures { IfOk result (λ made. made ≡ new_context (making context.now) 0 (of_id id.0)) }
{
    let binding = new_name(id, context, alloc)?;
    let helpers = new_name(id, "babelHelpers", alloc)?;
    let helper = new_member(id, helpers, "usingCtx", alloc)?;
    let value = new_call(id, helper, Vec::new(alloc), alloc)?;
    new_variable(id, binding, value, alloc)
}

/// `catch (_) { _usingCtx.e = _; }`
fn new_handler(id: NodeId, context: &str, alloc: Global) -> Result<Node, AllocError>
    ensures { IfOk result (λ made. made ≡ handler (making context.now) 0 (of_id id.0)) }
{
    let error = new_name(id, ERROR, alloc)?;
    let noted = note_error(id, context, alloc)?;
    let body = new_block(id, Vec::from_array(alloc, [noted])?, alloc)?;
    let clause = CatchClause {
        id,
        span: MADE,
        scope: None,
        param: Some(error),
        body,
    };
    clause.close(alloc)
}

/// `_usingCtx.e = _;`
fn note_error(id: NodeId, context: &str, alloc: Global) -> Result<Node, AllocError>
    ensures { IfOk result (λ made. made ≡ notes_error (making context.now) 0 (of_id id.0)) }
{
    let object = new_name(id, context, alloc)?;
    let left = new_member(id, object, "e", alloc)?;
    let right = new_name(id, ERROR, alloc)?;
    let assignment = AssignmentExpression {
        id,
        span: MADE,
        operator: AssignmentOperator::Assign,
        left,
        right,
    };
    let assigned = assignment.close(alloc)?;
    new_statement(id, assigned, alloc)
}

/// `{ _usingCtx.d(); }`
fn new_finalizer(id: NodeId, context: &str, alloc: Global) -> Result<Node, AllocError>
    ensures { IfOk result (λ made. made ≡ finalizer (making context.now) 0 (of_id id.0)) }
{
    let called = new_method_call(id, context, "d", Vec::new(alloc), alloc)?;
    let disposed = new_statement(id, called, alloc)?;
    new_block(id, Vec::from_array(alloc, [disposed])?, alloc)
}
