//! The marks of an identifier: the reference that it is, and the symbol that it declares or refers to (ECMA-262, 13.1).
ghost use Rattle.std.specs.Prelude.{◌≡◌, ℕ, List, [], ◌∷◌, Some, IfOk, OnOk};
ghost use Rattle.es_tree.specs.Heads.{reference as reference_number, symbol as symbol_number};
ghost use Rattle.es_scope.specs.Tables.{reference_count, scope_count};
ghost use Rattle.es_scope.specs.TableChanges.{HasReferenceMore};
ghost use Rattle.es_semantic.specs.Places.{Place as PlainPlace};
ghost use Rattle.es_semantic.specs.Referring.{HasNames, HasReferencesMore, IsChain};
ghost use Rattle.es_semantic.specs.ReferencesOf.{identifier_marks, reference, referred, referring};
ghost use Rattle.es_semantic.specs.ScopesOf.{ScopeRow};
ghost use Rattle.es_semantic.specs.SymbolsOf.{Declared, find, symbol_in, scope_for};
ghost use Rattle.es_semantic.specs.Walks.{IsKnown, StandsAs};

use crate::place::{Binding, Place, Role};
use crate::scopes_for::scope_for;
use es_scope::flags::ReferenceFlags;
use es_scope::scoping::{Reference, Scoping};
use es_tree::ids::{NodeId, ReferenceId, SymbolId};
use std::alloc::AllocError;

const READS: ReferenceFlags = ReferenceFlags {
    read: true,
    write: false,
};

/// The reference that an identifier is, and the symbol that it declares or refers to.
#[derive(Clone, Copy)]
pub(crate) struct IdentifierMarks {
    pub(crate) reference: Option<ReferenceId>,
    pub(crate) symbol: Option<SymbolId>,
}

/// The marks of an identifier of this id and name that stands here. One that refers is added to the table's references.
pub(crate) fn mark_identifier(
    scoping: &mut Scoping,
    node: NodeId,
    place: Place,
    name: &str,
) -> Result<IdentifierMarks, AllocError>
    requires known { IsKnown place (scope_count scoping.old) }
    ensures kept { OnOk result (scope_count scoping.new ≡ scope_count scoping.old) }
    ensures marks { IfOk result (λ marks. (p : PlainPlace) (rows : List ScopeRow) (ds : List Declared) → StandsAs place p → HasNames rows ds scoping.old → IsChain rows p.around → reference_number marks.reference ∷ symbol_number marks.symbol ∷ [] ≡ identifier_marks ds p (reference_count scoping.old) p.role name.now) }
    ensures referred { OnOk result ((p : PlainPlace) (rows : List ScopeRow) (ds : List Declared) → StandsAs place p → HasNames rows ds scoping.old → IsChain rows p.around → HasReferencesMore scoping.old scoping.new (referred (referring p.role) node.0 (find ds p.around name.now))) }
{
    match place.role {
        Role::Nothing => Ok(IdentifierMarks {
            reference: None,
            symbol: None,
        }),
        Role::Binds(binding) => Ok(IdentifierMarks {
            reference: None,
            symbol: declared_symbol(scoping, place, binding, name),
        }),
        Role::Refers(flags) => Ok(refer(scoping, node, place, name, flags)?),
        _ => Ok(refer(scoping, node, place, name, READS)?),
    }
}

/// The symbol of a name that is declared here.
fn declared_symbol(
    scoping: &Scoping,
    place: Place,
    binding: Binding,
    name: &str,
) -> Option<SymbolId>
    requires known { IsKnown place (scope_count scoping.now) }
    ensures { (p : PlainPlace) (rows : List ScopeRow) (ds : List Declared) → StandsAs place p → HasNames rows ds scoping.now → symbol_number result ≡ symbol_in ds (scope_for ds p binding name.now) name.now }
{
    let scope = scope_for(scoping, place, binding, name);
    scoping.get_binding(scope, name)
}

/// Adds the reference of a node to a name.
fn refer(
    scoping: &mut Scoping,
    node: NodeId,
    place: Place,
    name: &str,
    flags: ReferenceFlags,
) -> Result<IdentifierMarks, AllocError>
    requires known { IsKnown place (scope_count scoping.old) }
    ensures number { IfOk result (λ marks. reference_number marks.reference ≡ Some (reference_count scoping.old)) }
    ensures symbol { IfOk result (λ marks. (p : PlainPlace) (rows : List ScopeRow) (ds : List Declared) → StandsAs place p → HasNames rows ds scoping.old → IsChain rows p.around → symbol_number marks.symbol ≡ find ds p.around name.now) }
    ensures kept { OnOk result (scope_count scoping.new ≡ scope_count scoping.old) }
    ensures referred { OnOk result ((p : PlainPlace) (rows : List ScopeRow) (ds : List Declared) → StandsAs place p → HasNames rows ds scoping.old → IsChain rows p.around → HasReferenceMore scoping.old scoping.new (reference node.0 (find ds p.around name.now) flags.read flags.write)) }
{
    let symbol = scoping.find_binding(place.scope, name);
    let reference = scoping.add_reference(Reference {
        node,
        symbol,
        flags,
    })?;
    Ok(IdentifierMarks {
        reference: Some(reference),
        symbol,
    })
}
