//! The name under which a namespace is imported.
ghost use Rattle.std.specs.Prelude.{◌-◌, ◌<◌, ◌^◌, IfOk};
ghost use Rattle.es_tree.specs.Fresh.{node_base};
ghost use Rattle.lower_temporaries.specs.Temporaries.{TakesBoundName};
ghost use Rattle.lower_namespace_exports.specs.Exports.{import_flags};

use es_scope::context::TraverseCtx;
use es_scope::flags::SymbolFlags;
use es_tree::node::Node;
use lower_temporaries::state::TransformState;
use lower_temporaries::temporaries::new_bound_name_based_on_node;
use std::alloc::AllocError;

/// The flags of a name that an import binds.
const IMPORT: SymbolFlags = SymbolFlags {
    function_scoped: false,
    block_scoped: false,
    constant: false,
    import: true,
    catch_variable: false,
    class: false,
};

/// A fresh name of the base that the exported name gives, bound in the program's scope, as the import is to bind it.
pub(crate) fn new_import_name(
    exported: &Node,
    ctx: &mut TraverseCtx<TransformState>,
) -> Result<Node, AllocError>
    requires { ctx.old.ast.next < 2 ^ 32 - 1 }
    ensures { IfOk result (λ node. TakesBoundName (node_base exported.now) 0 import_flags ctx.old ctx.new node) }
{
    let scope = ctx.scoping().root_scope_id();
    let node = new_bound_name_based_on_node(exported, scope, IMPORT, ctx)?;
    Ok(node)
}
