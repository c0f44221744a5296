//! The scope in which a declaration binds its name (ECMA-262, 8.2.6 and 10.2.11).
ghost use Rattle.std.specs.Prelude.{◌≡◌, ◌<◌, List};
ghost use Rattle.es_scope.specs.Tables.{scope_count};
ghost use Rattle.es_semantic.specs.Places.{Place as PlainPlace};
ghost use Rattle.es_semantic.specs.SymbolsOf.{Declared, hoist_scope, hoists, scope_for};
ghost use Rattle.es_semantic.specs.Walks.{Binds, IsKnown, StandsAs};

use crate::place::{Binding, Place};
use es_scope::scoping::Scoping;
use es_tree::ids::ScopeId;

/// The scope in which a declaration at this place binds its name.
pub(crate) fn scope_for(scoping: &Scoping, place: Place, binding: Binding, name: &str) -> ScopeId
    requires known { IsKnown place (scope_count scoping.now) }
    ensures known { result.0 < scope_count scoping.now }
    ensures scope { (p : PlainPlace) (ds : List Declared) → StandsAs place p → Binds ds scoping.now → result.0 ≡ scope_for ds p binding name.now }
{
    if hoists(binding) {
        hoist_scope(scoping, place, name)
    } else {
        place.scope
    }
}

/// The scope in which a `var` at this place binds its name: that of the parameters where one has the name.
fn hoist_scope(scoping: &Scoping, place: Place, name: &str) -> ScopeId
    requires known { IsKnown place (scope_count scoping.now) }
    ensures known { result.0 < scope_count scoping.now }
    ensures scope { (p : PlainPlace) (ds : List Declared) → StandsAs place p → Binds ds scoping.now → result.0 ≡ hoist_scope ds p name.now }
{
    let Some(parameters) = place.parameters else {
        return place.hoist;
    };
    if scoping.get_binding(parameters, name).is_none() {
        return place.hoist;
    }
    parameters
}

/// Whether a declaration is one of `var` (ECMA-262, 8.2.6).
fn hoists(binding: Binding) -> bool
    ensures { result ≡ hoists binding }
{
    matches!(binding, Binding::Variable | Binding::TopFunction)
}
