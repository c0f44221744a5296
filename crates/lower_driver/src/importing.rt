//! What comes once lists of excluded keys are constants: helpers that are no properties of `babelHelpers` are imported, or required by a script.
ghost use Rattle.std.specs.Prelude.{◌≡◌, IfOk, map, string_bytes, true};
ghost use Rattle.es_tree.specs.HasForm.{has_form};
ghost use Rattle.es_tree.specs.declared.table.Sort.TheVariants.{Program as s-Program};
ghost use Rattle.lower_driver.specs.Imports.{Imports};

use es_tree::node::Node;
use es_tree::options::EnvOptions;
use std::alloc::{AllocError, Global};

/// The program with its helpers imported of the module that the options name, where that is asked for. Answers the names that were made. Fails only
/// for want of memory.
pub(crate) fn import_helpers(
    alloc: Global,
    program: Node,
    options: &EnvOptions,
    asked: bool,
) -> Result<(Node, Vec<String>), AllocError>
    requires form { has_form s-Program program ≡ true }
    ensures imports { IfOk result (λ made. Imports asked (string_bytes options.now.helper_loader.module_name) program made.0 (map string_bytes made.1.items)) }
{
    if !asked {
        return Ok((program, Vec::new(alloc)));
    }
    let module_name = options.helper_loader.module_name.as_str();
    lower_helper_imports::import_helpers(alloc, program, module_name)
}
