//! Helpers that are imported. The lowerings call a helper as a property of `babelHelpers`; where helpers come from a module, each such call
//! becomes one of a fresh name, which the program imports at its top, behind the imports that it has. A script requires it. A helper that is handed on
//! to a call becomes such a name, too.
//!
//! Before:
//!
//!     x = babelHelpers.objectSpread2({}, a);
//!
//! After, in a module and in a script:
//!
//!     import _objectSpread from "@oxc-project/runtime/helpers/objectSpread2";
//!     x = _objectSpread({}, a);
//!
//!     var _objectSpread = require("@oxc-project/runtime/helpers/objectSpread2");
//!     x = _objectSpread({}, a);
//!
//! Its rule is `imported_as` of es_helper_imports. What is made has no place in the source, and the id 0: nothing asks for ids any more.
#![tactic(auto)]

ghost use Rattle.std.specs.Prelude.{◌≡◌, IfOk, map, string_bytes, true};
ghost use Rattle.es_tree.specs.HasForm.{has_form};
ghost use Rattle.es_tree.specs.declared.table.Sort.TheVariants.{Program as s-Program};
ghost use Rattle.es_helper_imports.specs.Imported.{ImportsTo};
ghost use Rattle.es_steps.specs.CoreBridge.{first_whole};

pub mod calls;
mod finding;
mod names;
pub mod statements;

use crate::calls::{call_by_names, helpers_called};
pub use crate::finding::{HelperImports, own_call};
use crate::names::fresh_names;
use crate::statements::import_all;
use es_tree::node::Node;
use std::alloc::{AllocError, Global};

/// The program with its helpers imported of this module, such as `@oxc-project/runtime`, and the fresh names in the order made. Fails only for
/// want of memory.
pub fn import_helpers(
    alloc: Global,
    program: Node,
    module_name: &str,
) -> Result<(Node, Vec<String>), AllocError>
    requires { has_form s-Program program ≡ true }
    ensures { IfOk result (λ made. ImportsTo (first_whole program).in_use module_name.now program made.0 (map string_bytes made.1.items)) }
{
    let helpers = helpers_called(alloc, &program)?;
    let names = fresh_names(alloc, &program, helpers.as_slice())?;
    let mut program = program;
    call_by_names(&mut program, helpers.as_slice(), names.as_slice(), alloc)?;
    let program = import_all(
        alloc,
        program,
        module_name,
        helpers.as_slice(),
        names.as_slice(),
    )?;
    Ok((program, names))
}
