//! The fresh names by which helpers are called.
ghost use Rattle.std.specs.Prelude.{◌≡◌, IfOk, map, string_bytes};
ghost use Rattle.es_steps.specs.CoreBridge.{first_whole};
ghost use Rattle.es_helper_calls.specs.HelperCalls.{bound_of};
ghost use Rattle.es_helper_imports.specs.Imported.{AreFresh, unmarked};

use es_tree::helper::Helper;
use es_tree::node::Node;
use lower_fresh_names::new_generator;
use std::alloc::{AllocError, Global};

/// A fresh name for each of these helpers, in their order, of the program. Fails only for want of memory.
pub(crate) fn fresh_names(
    alloc: Global,
    program: &Node,
    helpers: &[Helper],
) -> Result<Vec<String>, AllocError>
    ensures { IfOk result (λ names. AreFresh (first_whole program.now).in_use helpers.now (map string_bytes names.items)) }
{
    let mut uids = new_generator(alloc, program)?;
    for helper in helpers {
        uids.generate_from_text(helper.name())?;
    }
    Ok(uids.into_made())
}

/// The name of a helper among these, or none.
pub(crate) fn name_of<'a>(helper: Helper, helpers: &[Helper], names: &'a [String]) -> &'a str
    ensures { result.now ≡ (bound_of helpers.now (unmarked (map string_bytes names.now)) helper).name }
{
    for (known, name) in helpers.iter().zip(names) {
        if *known == helper {
            return name.as_str();
        }
    }
    ""
}
