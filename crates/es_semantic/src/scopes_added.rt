//! The scopes that a node adds to a table by itself (ECMA-262, 8.2 and 9.1).
//!
//! Each call answers an error only for want of memory, or of numbers.
ghost use Rattle.std.specs.Prelude.{◌≡◌, ◌+◌, ◌++◌, ◌<◌, ◌≤◌, ◌||◌, [], ◌∷◌, IfOk, List, None, OnOk, Some, if◌then◌else◌, length, ℕ};
ghost use Rattle.es_scope.specs.Tables.{scope_count};
ghost use Rattle.es_tree.specs.Heads.{scope};
ghost use Rattle.es_tree.specs.Tree.{fields_of, kind_of, label_of};
ghost use Rattle.es_semantic.specs.Places.{Place as PlainPlace, is_strict_by_itself, visit};
ghost use Rattle.es_semantic.specs.ScopesOf.{ScopeRow, scopes_made};
ghost use Rattle.es_semantic.specs.SymbolsOf.{Declared};
ghost use Rattle.es_semantic.specs.Walks.{AreKnown, AreOwn, Holds, StandsAs};

use crate::place::{OwnScopes, Place};
use crate::places::{has_name_scope, makes_scope, name_scope_flags, scope_flags};
use es_scope::flags::ScopeFlags;
use es_scope::scoping::Scoping;
use es_tree::ids::ScopeId;
use es_tree::node::Node;
use std::alloc::{AllocError, Global};

/// Adds the scopes that a node at this place makes by itself.
pub(crate) fn open_scopes(
    scoping: &mut Scoping,
    alloc: Global,
    node: &Node,
    place: Place,
    strict: bool,
) -> Result<OwnScopes, AllocError>
    requires known { place.scope.0 < scope_count scoping.old }
    requires strict { strict ≡ (place.strict || is_strict_by_itself (kind_of node.now) (label_of node.now) (fields_of node.now)) }
    ensures kept { OnOk result (scope_count scoping.old ≤ scope_count scoping.new) }
    ensures known { IfOk result (λ own. AreKnown own (scope_count scoping.new)) }
    ensures own { IfOk result (λ own. AreOwn own (scope_count scoping.old) (kind_of node.now) (fields_of node.now)) }
    ensures opened { OnOk result ((p : PlainPlace) (rows : List ScopeRow) (ds : List Declared) → StandsAs place p → Holds rows ds scoping.old → Holds (rows ++ scopes_made (visit p (length rows) (kind_of node.now) (label_of node.now) (fields_of node.now))) ds scoping.new) }
{
    let name_flags = name_scope_flags(strict);
    let name = open_scope(
        scoping,
        alloc,
        has_name_scope(node),
        place.scope,
        name_flags,
    )?;
    let flags = scope_flags(strict, place.role, &node.kind);
    let up = name.unwrap_or(place.scope);
    let own = open_scope(scoping, alloc, makes_scope(&node.kind), up, flags)?;
    Ok(OwnScopes { name, own })
}

/// Adds a scope, where a node makes one.
fn open_scope(
    scoping: &mut Scoping,
    alloc: Global,
    is_made: bool,
    parent: ScopeId,
    flags: ScopeFlags,
) -> Result<Option<ScopeId>, AllocError>
    requires known { parent.0 < scope_count scoping.old }
    ensures number { IfOk result (λ made. scope made ≡ (if is_made then Some (scope_count scoping.old) else None)) }
    ensures count { OnOk result (scope_count scoping.new ≡ scope_count scoping.old + (if is_made then 1 else 0)) }
    ensures opened { OnOk result ((around outer : List ℕ) (rows : List ScopeRow) (ds : List Declared) → around ≡ parent.0 ∷ outer → Holds rows ds scoping.old → Holds (rows ++ (if is_made then record { around = around; flags = flags } ∷ [] else [])) ds scoping.new) }
{
    if !is_made {
        return Ok(None);
    }
    let made = scoping.add_scope(alloc, parent, flags)?;
    Ok(Some(made))
}
