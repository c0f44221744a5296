//! The body of a function, or a static block of a class, directly in which `using` stands (Explicit Resource Management, 14.3.1).
//!
//! Before:
//!
//!     function f() { "use strict"; using a = b; return a; }
//!
//! After:
//!
//!     function f() { "use strict"; try { var _usingCtx = babelHelpers.usingCtx(); const a = _usingCtx.u(b); return a; } catch (_) { _usingCtx.e = _; } finally { _usingCtx.d(); } }
//!
//! Directives stay in front of the `try` (ECMA-262, 11.2.1), and what is made has the id of the body. Functions at the top become those of a
//! block (14.2.1). Before:
//!
//!     function f() { using a = b; g(a); function g(x) {} }
//!
//! After:
//!
//!     function f() { try { var _usingCtx = babelHelpers.usingCtx(); const a = _usingCtx.u(b); g(a); function g(x) {} } catch (_) { _usingCtx.e = _; } finally { _usingCtx.d(); } }
//!
//! Where one can't, as in `function f(g) { using a = b; function g() {} }`, the body stays.
//!
//! A static block is a body without directives. Before:
//!
//!     class A { static { using a = b; f(a); } }
//!
//! After:
//!
//!     class A { static { try { var _usingCtx = babelHelpers.usingCtx(); const a = _usingCtx.u(b); f(a); } catch (_) { _usingCtx.e = _; } finally { _usingCtx.d(); } } }
//!
//! The rules are `used_function`, `used_arrow`, `used_body` and `used_static_block` of es_using_rows.
ghost use Rattle.std.specs.Prelude.{◌≡◌, IfOk, true};
ghost use Rattle.es_tree.specs.Tree.{fields_of};
ghost use Rattle.es_tree.specs.Views.{plain_fields};
ghost use Rattle.es_using_rows.specs.UsingPlaces.{uses_in_arrow, uses_in_function};
ghost use Rattle.es_using_rows.specs.Used.{used_arrow, used_body, used_function};
ghost use Rattle.lower_using.specs.Parts.{BecomesBy, UsesInBody, UsesInStaticBlock, used_with, with_fields};

use crate::constants::make_constants;
use crate::tries::new_try;
use es_statements::functions::{FunctionBody, StaticBlock};
use es_tree::node::{Field, Node, exactly};
use es_using_rows::standing::Standing;
use std::alloc::{AllocError, Global};
use std::mem;

/// `function f() { try { .. const a = _usingCtx.u(b); return a; } .. }` for `function f() { using a = b; return a; }`, also without a name.
pub(crate) fn use_function(node: Node, context: &str, alloc: Global) -> Result<Node, AllocError>
    requires { uses_in_function (fields_of node) ≡ true }
    ensures { IfOk result (λ used. BecomesBy context.now (with_fields used_function) node used) }
{
    let mut used = node;
    let fields = mem::replace(&mut used.fields, Vec::new(alloc));
    used.fields = use_in_function(fields, context, alloc)?;
    Ok(used)
}

fn use_in_function(
    fields: Vec<Field>,
    context: &str,
    alloc: Global,
) -> Result<Vec<Field>, AllocError>
    requires { uses_in_function (plain_fields fields.items) ≡ true }
    ensures { IfOk result (λ used. BecomesBy context.now used_function (plain_fields fields.items) (plain_fields used.items)) }
{
    let [name, params, body]: [Field; 3] = exactly(fields);
    let made = use_body(body.into_node(), context, alloc)?;
    let used = Vec::from_array(alloc, [name, params, Field::One(made)])?;
    Ok(used)
}

/// `() => { try { .. const a = _usingCtx.u(b); return a; } .. }` for `() => { using a = b; return a; }`.
pub(crate) fn use_arrow(node: Node, context: &str, alloc: Global) -> Result<Node, AllocError>
    requires { uses_in_arrow (fields_of node) ≡ true }
    ensures { IfOk result (λ used. BecomesBy context.now (with_fields used_arrow) node used) }
{
    let mut used = node;
    let fields = mem::replace(&mut used.fields, Vec::new(alloc));
    used.fields = use_in_arrow(fields, context, alloc)?;
    Ok(used)
}

fn use_in_arrow(fields: Vec<Field>, context: &str, alloc: Global) -> Result<Vec<Field>, AllocError>
    requires { uses_in_arrow (plain_fields fields.items) ≡ true }
    ensures { IfOk result (λ used. BecomesBy context.now used_arrow (plain_fields fields.items) (plain_fields used.items)) }
{
    let [params, body]: [Field; 2] = exactly(fields);
    let made = use_body(body.into_node(), context, alloc)?;
    let used = Vec::from_array(alloc, [params, Field::One(made)])?;
    Ok(used)
}

/// `{ try { .. const a = _usingCtx.u(b); return a; } .. }` for `{ using a = b; return a; }`.
fn use_body(body: Node, context: &str, alloc: Global) -> Result<Node, AllocError>
    requires { UsesInBody body }
    ensures { IfOk result (λ used. BecomesBy context.now used_body body used) }
{
    let FunctionBody {
        id,
        span,
        scope,
        directives,
        body: statements,
    } = FunctionBody::open(body);
    let constants = make_constants(statements, context, alloc)?;
    let tried = new_try(id, context, constants, alloc)?;
    let around = FunctionBody {
        id,
        span,
        scope,
        directives,
        body: Vec::from_array(alloc, [tried])?,
    };
    let made = around.close(alloc)?;
    Ok(made)
}

/// `static { try { .. const a = _usingCtx.u(b); f(a); } .. }` for `static { using a = b; f(a); }`, which stands so.
pub(crate) fn use_static_block(
    block: Node,
    standing: Standing,
    context: &str,
    alloc: Global,
) -> Result<Node, AllocError>
    requires { UsesInStaticBlock block }
    ensures { IfOk result (λ used. BecomesBy context.now (used_with standing) block used) }
{
    let StaticBlock {
        id,
        span,
        scope,
        body,
    } = StaticBlock::open(block);
    let constants = make_constants(body, context, alloc)?;
    let tried = new_try(id, context, constants, alloc)?;
    let around = StaticBlock {
        id,
        span,
        scope,
        body: Vec::from_array(alloc, [tried])?,
    };
    let made = around.close(alloc)?;
    Ok(made)
}
