//! Constant lists of the keys that object rests leave out (ECMA-262, 14.3.3), made once for the whole program, when all else is lowered and helpers
//! are still members of `babelHelpers`.
//!
//! Before:
//!
//!     function f(_ref) { let { a } = _ref, b = babelHelpers.objectWithoutProperties(_ref, ["a"]); }
//!
//! After:
//!
//!     const _excluded = ["a"];
//!     function f(_ref) { let { a } = _ref, b = babelHelpers.objectWithoutProperties(_ref, _excluded); }
//!
//! Its rule is `SharesTo` of es_excluded_keys. What is made has no place in the source, and the id 0: nothing asks for ids any more.
#![tactic(auto)]

ghost use Rattle.std.specs.Prelude.{◌≡◌, IfOk, map, string_bytes, true};
ghost use Rattle.es_tree.specs.HasForm.{has_form};
ghost use Rattle.es_tree.specs.declared.table.Sort.TheVariants.{Program as s-Program};
ghost use Rattle.es_steps.specs.CoreBridge.{first_whole};
ghost use Rattle.es_excluded_keys.specs.ExcludedKeys.{SharesTo};

mod constants;
mod finding;
mod places;
mod sharing;

use crate::constants::{MadeConstants, declare};
pub use crate::finding::{names_itself, shares_keys};
use crate::sharing::share_in_list;
use es_statements::program::Program;
use es_tree::node::Node;
use std::alloc::{AllocError, Global};

/// The program in which names stand for its lists of excluded keys, and the names that were made. Fails only for want of memory.
pub fn share_keys(alloc: Global, program: Node) -> Result<(Node, Vec<String>), AllocError>
    requires form { has_form s-Program program ≡ true }
    ensures shares { IfOk result (λ made. SharesTo (first_whole program).in_use program made.0 (map string_bytes made.1.items)) }
{
    let mut constants = MadeConstants::new(alloc, &program)?;
    let mut program = Program::open(program);
    share_in_list(&mut program.directives, false, &mut constants)?;
    share_in_list(&mut program.body, false, &mut constants)?;
    let MadeConstants {
        alloc: _alloc,
        uids,
        declarators,
    } = constants;
    declare(declarators, &mut program, alloc)?;
    let program = program.close(alloc)?;
    Ok((program, uids.into_made()))
}
