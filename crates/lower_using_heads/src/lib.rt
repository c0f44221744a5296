//! `using` in the head of a `for`-`of` moves into the body of the loop, with a constant of a fresh name in its place, so that the lowering of
//! `using` in blocks disposes of it there (Explicit Resource Management, 14.7.5).
//!
//! | source | written |
//! |---|---|
//! | `for (using a of b) f(a);` | `for (const _a of b) { using a = _a; f(a); }` |
//! | `for (using a of b) { f(a); }` | `for (const _a of b) { using a = _a; { f(a); } }` |
//! | `for (using a of a.b) f(a);` | as it is: the right side would ask `a` before it is set |
//!
//! Before:
//!
//!     for (using file of files) read(file);
//!
//! After:
//!
//!     for (const _file of files) { using file = _file; read(file); }
//!
//! The program is as it was read, and so is what it becomes: what is made has no marks of the scope tables. It has the id of the name that
//! moves, so that a refusal that is told at a made node names a node of the source.
//!
//! Its rule is `headed` of es_using_heads.
#![tactic(auto)]

ghost use Rattle.std.specs.Prelude.{IfOk, map, string_bytes};
ghost use Rattle.es_steps.specs.CoreBridge.{first_whole};
ghost use Rattle.es_using_heads.specs.Heads.{HeadsTo};

mod blocks;
mod heads;
mod walk;

use crate::walk::walk_node;
use es_tree::node::Node;
use lower_fresh_names::new_generator;
use std::alloc::{AllocError, Global};

/// The program with `using` moved out of the heads of its loops, and the fresh names in the order made. Fails only for want of memory.
pub fn move_heads(alloc: Global, program: Node) -> Result<(Node, Vec<String>), AllocError>
    ensures { IfOk result (λ moved. HeadsTo (first_whole program).in_use program moved.0 (map string_bytes moved.1.items)) }
{
    let mut uids = new_generator(alloc, &program)?;
    let mut moved = program;
    walk_node(&mut moved, &mut uids, alloc)?;
    Ok((moved, uids.into_made()))
}
