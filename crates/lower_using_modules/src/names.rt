//! The fresh names of a module: that of a default export that takes one, and the context's.
//!
//! | source | names |
//! |---|---|
//! | `using a = b; export default c;` | `_default`, `_usingCtx` |
//! | `using a = b; f(a);` | `_usingCtx` |
ghost use Rattle.std.specs.Prelude.{◌≡◌, [], IfOk, map, string_bytes};
ghost use Rattle.es_scope.specs.Uids.{made, uses};
ghost use Rattle.es_pattern_moves.specs.Moved.{name_of};
ghost use Rattle.es_tree.specs.Words.{Text};
ghost use Rattle.es_using_modules.specs.ModuleTops.{AreFresh, context_name, default_local};
ghost use Rattle.lower_using.specs.Parts.{of_id};
ghost use Rattle.lower_using_modules.specs.Parts.{making};

use crate::kinds::class_name;
use es_scope::uids::UidGenerator;
use es_tree::ids::NodeId;
use es_tree::node::Node;
use lower_export_splits::specifiers::name_again;
use lower_fresh_names::nodes::new_name;
use std::alloc::{AllocError, Global};

/// The base of the name of a default export: `_default`, `_default2` and so on.
const DEFAULT: &str = "default";

/// The base of the name of the context: `_usingCtx`, `_usingCtx2` and so on.
const CONTEXT: &str = "usingCtx";

/// The names in the order made.
pub(crate) fn make_names(
    mut uids: UidGenerator,
    has_default: bool,
) -> Result<Vec<String>, AllocError>
    requires { made uids ≡ [] }
    ensures { IfOk result (λ names. AreFresh (uses uids) has_default (map string_bytes names.items)) }
{
    if has_default {
        let _default = uids.generate(DEFAULT)?;
        let _context = uids.generate(CONTEXT)?;
        return Ok(uids.into_made());
    }
    let _context = uids.generate(CONTEXT)?;
    Ok(uids.into_made())
}

/// The name of the context, the last of them.
pub(crate) fn context_name(names: &[String], has_default: bool) -> &str
    ensures { result.now ≡ context_name has_default (map string_bytes names.now) }
{
    if has_default {
        name_at(names, 1)
    } else {
        name_at(names, 0)
    }
}

/// The name of this number.
pub(crate) fn name_at(names: &[String], index: usize) -> &str
    ensures { result.now ≡ name_of (map string_bytes names.now) index }
{
    match names.get(index) {
        Some(name) => name.as_str(),
        None => "",
    }
}

/// The name in the `try` of what is exported as default: `C` of `class C {}`, and otherwise the fresh name, with this id.
pub(crate) fn local_name(
    id: NodeId,
    exported: &Node,
    default: &str,
    alloc: Global,
) -> Result<Node, AllocError>
    ensures { IfOk result (λ made. (context : Text) → made ≡ default_local (making default.now context) (of_id id.0) exported.now) }
{
    match class_name(exported) {
        Some(name) => name_again(name, alloc),
        None => new_name(id, default, alloc),
    }
}
