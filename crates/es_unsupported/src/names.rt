//! Whether a name is bound anywhere.
ghost use Rattle.std.specs.Prelude.{◌≡◌, ◌<◌, ◌^◌, List};
ghost use Rattle.es_rest_shapes.specs.HelperNames.{binds_name};
ghost use Rattle.es_scope.specs.Tables.{scope_count};
ghost use Rattle.es_semantic.specs.SymbolsOf.{Declared};
ghost use Rattle.es_semantic.specs.Walks.{Binds};

use es_scope::scoping::Scoping;
use es_tree::ids::ScopeId;

/// Whether a scope of the table binds the name.
pub(crate) fn binds_anywhere(scoping: &Scoping, name: &str) -> bool
    requires few { scope_count scoping.now < 2 ^ 32 }
    ensures { (ds : List Declared) → Binds ds scoping.now → result ≡ binds_name name.now ds }
{
    let Ok(count) = u32::try_from(scoping.scope_count()) else {
        unreachable!();
    };
    for number in 0..count {
        if scoping.get_binding(ScopeId(number), name).is_some() {
            return true;
        }
    }
    false
}
