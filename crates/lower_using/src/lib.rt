//! `using` becomes a `try` with a context that disposes of its values at the end (Explicit Resource Management, 14.3.1).
//!
//! | source | written |
//! |---|---|
//! | `{ using a = b; f(a); }` | `try { var _usingCtx = babelHelpers.usingCtx(); const a = _usingCtx.u(b); f(a); } catch (_) { _usingCtx.e = _; } finally { _usingCtx.d(); }` |
//! | `function f() { using a = b; return a; }` | `function f() { try { var _usingCtx = babelHelpers.usingCtx(); const a = _usingCtx.u(b); return a; } catch (_) { .. } finally { .. } }` |
//! | `class A { static { using a = b; f(a); } }` | `class A { static { try { var _usingCtx = babelHelpers.usingCtx(); const a = _usingCtx.u(b); f(a); } catch (_) { .. } finally { .. } } }` |
//! | `try { using a = b; f(a); } finally { g(); }` | `try { try { var _usingCtx = babelHelpers.usingCtx(); .. } .. } finally { g(); }` |
//! | `switch (a) { case 1: using b = c; f(b); }` | `try { var _usingCtx = babelHelpers.usingCtx(); switch (a) { case 1: const b = _usingCtx.u(c); f(b); } } ..` |
//! | `for (using a = b; c; d) f(a);` | `try { var _usingCtx = babelHelpers.usingCtx(); for (const a = _usingCtx.u(b); c; d) f(a); } ..` |
//! | `e: for (using a = b; c; d) f(a);` | `try { var _usingCtx = babelHelpers.usingCtx(); e: for (const a = _usingCtx.u(b); c; d) f(a); } ..` |
//!
//! Before:
//!
//!     { using file = open(path); read(file); }
//!
//! After:
//!
//!     try { var _usingCtx = babelHelpers.usingCtx(); const file = _usingCtx.u(open(path)); read(file); } catch (_) { _usingCtx.e = _; } finally { _usingCtx.d(); }
//!
//! In the body of a function directives stay in front of the `try`, and functions at the top go into it:
//! `function f() { using a = b; g(a); function g(x) {} }` becomes
//! `function f() { try { var _usingCtx = babelHelpers.usingCtx(); const a = _usingCtx.u(b); g(a); function g(x) {} } catch (_) { .. } finally { .. } }`.
//! A body stays that has a function at its top whose name a parameter, a `var` or another function there declares, too: that function can't
//! become one of a block. So it is with a static block of a class, which has no parameters.
//!
//! The program is as it was read, and so is what it becomes: what is made has no marks of the scope tables. The call of a value has the id of
//! the value, and all else that of the node at which the `try` is made, so that a refusal that is told at a made node names a node of the
//! source.
//!
//! Its rule is `used` of es_using_rows.
#![tactic(auto)]

ghost use Rattle.std.specs.Prelude.{IfOk, map, string_bytes};
ghost use Rattle.es_steps.specs.CoreBridge.{first_whole};
ghost use Rattle.es_using_rows.specs.Used.{UsesTo};

mod bodies;
pub mod constants;
pub mod made_nodes;
mod nodes;
pub mod places;
pub mod tries;
mod walk;

use crate::walk::walk_node;
use es_tree::node::Node;
use es_using_rows::standing::Standing;
use lower_fresh_names::new_generator;
use std::alloc::{AllocError, Global};

/// The program with its `using` lowered, and the names of the contexts in the order made. Fails only for want of memory.
pub fn lower_using(alloc: Global, program: Node) -> Result<(Node, Vec<String>), AllocError>
    ensures { IfOk result (λ lowered. UsesTo (first_whole program).in_use program lowered.0 (map string_bytes lowered.1.items)) }
{
    let mut uids = new_generator(alloc, &program)?;
    let mut lowered = program;
    walk_node(&mut lowered, Standing::Anywhere, &mut uids, alloc)?;
    Ok((lowered, uids.into_made()))
}
