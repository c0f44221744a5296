//! What comes when constructs are lowered, while helpers are still properties of `babelHelpers`: names stand for the lists of keys that object rests leave
//! out.
ghost use Rattle.std.specs.Prelude.{◌≡◌, IfOk, map, string_bytes, true};
ghost use Rattle.es_tree.specs.HasForm.{has_form};
ghost use Rattle.es_tree.specs.declared.table.Sort.TheVariants.{Program as s-Program};
ghost use Rattle.lower_driver.specs.SharesKeys.{SharesKeys};

use es_tree::node::Node;
use std::alloc::{AllocError, Global};

/// The program with such lists as constants, where that is asked for. Answers the names that were made. Fails only for want of memory.
pub(crate) fn share_keys(
    alloc: Global,
    program: Node,
    asked: bool,
) -> Result<(Node, Vec<String>), AllocError>
    requires form { has_form s-Program program ≡ true }
    ensures shares { IfOk result (λ made. SharesKeys asked program made.0 (map string_bytes made.1.items)) }
{
    if !asked {
        return Ok((program, Vec::new(alloc)));
    }
    lower_excluded_keys::share_keys(alloc, program)
}
