//! Patterns with an object rest move to a declaration of their own, with a fresh name in their place, so that the lowering of declared
//! rests takes them apart there: out of catch clauses (ECMA-262, 14.15), heads of loops (14.7.5) and parameters of functions (10.2.11). A
//! pattern with a rest that the head of a loop assigns to moves to an assignment of its own.
//!
//! | source | written |
//! |---|---|
//! | `catch ({ a, ...b }) { f(b); }` | `catch (_ref) { let { a, ...b } = _ref; { f(b); } }` |
//! | `for (const { a, ...b } of c) f(b);` | `for (const _ref of c) { const { a, ...b } = _ref; f(b); }` |
//! | `for ({ a, ...b } of c) f(b);` | `for (var _ref of c) { { a, ...b } = _ref; f(b); }` |
//! | `function f({ a, ...b } = c) { g(b); }` | `function f(_ref = c) { let { a, ...b } = _ref; g(b); }` |
//! | `(a, { ...b }) => { g(b); }` | `(a, _ref) => { let { ...b } = _ref; g(b); }` |
//! | `(a, { ...b }) => g(b)` | `(a, _ref) => { let { ...b } = _ref; return g(b); }` |
//!
//! Before:
//!
//!     function draw({ size, ...others }) { paint(size, others); }
//!
//! After:
//!
//!     function draw(_ref) { let { size, ...others } = _ref; paint(size, others); }
//!
//! The program is as it was read, and so is what it becomes: what is made has no marks of the scope tables. It has the id of its pattern, or
//! of the value that it returns, so that a refusal that is told at a made node names a node of the source.
//!
//! Its rule is `moved` of es_pattern_moves.
#![tactic(auto)]

ghost use Rattle.std.specs.Prelude.{IfOk, map, string_bytes};
ghost use Rattle.es_steps.specs.CoreBridge.{first_whole};
ghost use Rattle.es_pattern_moves.specs.Moved.{MovesTo};

mod blocks;
mod made_nodes;
mod nodes;
mod parameters;
mod walk;

use crate::walk::walk_node;
use es_tree::node::Node;
use lower_fresh_names::new_generator;
use std::alloc::{AllocError, Global};

/// The program with its patterns moved, and the fresh names in the order made. Fails only for want of memory.
pub fn move_patterns(alloc: Global, program: Node) -> Result<(Node, Vec<String>), AllocError>
    ensures { IfOk result (λ moved. MovesTo (first_whole program).in_use program moved.0 (map string_bytes moved.1.items)) }
{
    let mut uids = new_generator(alloc, &program)?;
    let mut moved = program;
    walk_node(&mut moved, &mut uids, alloc)?;
    Ok((moved, uids.into_made()))
}
