//! The generator of fresh names that a lowering of a whole program begins with: the names of the program are in use, and those that the
//! lowerings write of themselves.
//!
//! | in use | as |
//! |---|---|
//! | the names of the program | `a` in `f(a)` |
//! | names that are written | `Math`, `babelHelpers`, `require` |
#![tactic(auto)]

ghost use Rattle.std.specs.Prelude.{◌≡◌, [], IfOk};
ghost use Rattle.es_tree.specs.Words.{Text};
ghost use Rattle.es_scope.specs.Uids.{made, uses};
ghost use Rattle.es_steps.specs.CoreBridge.{first_whole};

pub mod nodes;

use es_scope::uids::UidGenerator;
use es_tree::node::Node;
use std::alloc::{AllocError, Global};

/// A generator of fresh names for the program. The names that the lowerings write of themselves are in use, too. Fails only for want of memory.
pub fn new_generator(alloc: Global, program: &Node) -> Result<UidGenerator, AllocError>
    ensures in_use { IfOk result (λ uids. (x : Text) → uses uids x ≡ (first_whole program.now).in_use x) }
    ensures none_made { IfOk result (λ uids. made uids ≡ []) }
{
    let mut uids = UidGenerator::new(alloc, program)?;
    uids.use_name("Math")?;
    uids.use_name("babelHelpers")?;
    uids.use_name("require")?;
    Ok(uids)
}
