//! The walk over a tree that adds its scopes and symbols to a table, in node order (ECMA-262, 8.2 and 9.1).
//!
//! Each call answers an error only for want of memory, or of numbers.
ghost use Rattle.std.specs.Prelude.{◌≡◌, ◌<◌, ◌≤◌, ◌||◌, IfOk, List, OnOk, ℕ};
ghost use Rattle.es_scope.specs.Tables.{scope_count};
ghost use Rattle.es_tree.specs.Scopes.{own_text};
ghost use Rattle.es_tree.specs.Tree.{fields_of, kind_of, label_of, trees};
ghost use Rattle.es_tree.specs.Views.{plain_field};
ghost use Rattle.es_semantic.specs.Places.{Place as PlainPlace, is_strict_by_itself, outermost, place_in, visits, visits_in_field, visits_in_fields, visits_in_trees};
ghost use Rattle.es_semantic.specs.ScopesOf.{ScopeRow, scopes_of};
ghost use Rattle.es_semantic.specs.SymbolsOf.{Declared, symbols_of, with_class, with_identifier, with_node};
ghost use Rattle.es_semantic.specs.Walks.{Adds, AreKnown, AreOwn, Holds, IsKnown, StandsAs};

use crate::building::{is_strict, program_flags};
use crate::place::{Binding, OwnScopes, Place, Role};
use crate::places::{is_strict_in, place_in};
use crate::scopes_added::open_scopes;
use crate::scopes_for::scope_for;
use crate::symbols_added::declare_name;
use es_scope::flags::ReferenceFlags;
use es_scope::scoping::Scoping;
use es_tree::ids::ScopeId;
use es_tree::kind::Kind;
use es_tree::node::{Field, Node};
use std::alloc::{AllocError, Global};

/// The table of a program's scopes and symbols.
pub(crate) fn declare_program(alloc: Global, program: &Node) -> Result<Scoping, AllocError>
    ensures { IfOk result (λ s. Holds (scopes_of program.now) (symbols_of program.now) s) }
{
    let mut scoping = Scoping::with_root(alloc, program_flags(program))?;
    declare_node(&mut scoping, alloc, program, outermost(program))?;
    Ok(scoping)
}

/// The place of a program, inside its own scope.
pub(crate) fn outermost(program: &Node) -> Place
    ensures stands { StandsAs result (outermost program.now) }
    ensures known { IsKnown result 1 }
{
    Place {
        role: Role::Refers(ReferenceFlags {
            read: true,
            write: false,
        }),
        scope: ScopeId(0),
        hoist: ScopeId(0),
        parameters: None,
        strict: is_strict(program),
    }
}

/// Adds the scopes and symbols of a tree at this place.
#[cycle(declare)]
pub(crate) fn declare_node(
    scoping: &mut Scoping,
    alloc: Global,
    node: &Node,
    place: Place,
) -> Result<(), AllocError>
    requires known { IsKnown place (scope_count scoping.old) }
    ensures kept { OnOk result (scope_count scoping.old ≤ scope_count scoping.new) }
    ensures declared { OnOk result ((p : PlainPlace) → StandsAs place p → Adds scoping.old scoping.new (λ n. visits p n node.now)) }
{
    let strict = is_strict_in(place, node);
    let own = open_scopes(scoping, alloc, node, place, strict)?;
    declare_own(scoping, alloc, node, place, own)?;
    declare_fields(scoping, alloc, node, place, own, strict)?;
    Ok(())
}

/// Adds those of the fields of a node that makes these scopes by itself.
#[cycle(declare)]
fn declare_fields(
    scoping: &mut Scoping,
    alloc: Global,
    node: &Node,
    place: Place,
    own: OwnScopes,
    strict: bool,
) -> Result<(), AllocError>
    requires known { IsKnown place (scope_count scoping.old) }
    requires own_known { AreKnown own (scope_count scoping.old) }
    requires strict { strict ≡ (place.strict || is_strict_by_itself (kind_of node.now) (label_of node.now) (fields_of node.now)) }
    ensures kept { OnOk result (scope_count scoping.old ≤ scope_count scoping.new) }
    ensures declared { OnOk result ((p : PlainPlace) (n : ℕ) → StandsAs place p → AreOwn own n (kind_of node.now) (fields_of node.now) → Adds scoping.old scoping.new (λ m. visits_in_fields (place_in p n (kind_of node.now) (label_of node.now) (fields_of node.now)) m (fields_of node.now))) }
{
    for (index, field) in node.fields.iter().enumerate() {
        let inner = place_in(place, node, own, strict, index);
        declare_field(scoping, alloc, field, inner)?;
    }
    Ok(())
}

#[cycle(declare)]
fn declare_field(
    scoping: &mut Scoping,
    alloc: Global,
    field: &Field,
    place: Place,
) -> Result<(), AllocError>
    requires known { IsKnown place (scope_count scoping.old) }
    ensures kept { OnOk result (scope_count scoping.old ≤ scope_count scoping.new) }
    ensures declared { OnOk result ((p : PlainPlace) → StandsAs place p → Adds scoping.old scoping.new (λ n. visits_in_field p n (plain_field field.now))) }
{
    match field {
        Field::Missing => {}
        Field::One(node) => declare_node(scoping, alloc, node, place)?,
        Field::Many(nodes) => declare_nodes(scoping, alloc, nodes, place)?,
        Field::Statements(nodes) => declare_nodes(scoping, alloc, nodes, place)?,
    }
    Ok(())
}

#[cycle(declare)]
fn declare_nodes(
    scoping: &mut Scoping,
    alloc: Global,
    nodes: &[Node],
    place: Place,
) -> Result<(), AllocError>
    requires known { IsKnown place (scope_count scoping.old) }
    ensures kept { OnOk result (scope_count scoping.old ≤ scope_count scoping.new) }
    ensures declared { OnOk result ((p : PlainPlace) → StandsAs place p → Adds scoping.old scoping.new (λ n. visits_in_trees p n (trees nodes.now))) }
{
    for node in nodes {
        declare_node(scoping, alloc, node, place)?;
    }
    Ok(())
}

/// Adds what a node declares by itself.
fn declare_own(
    scoping: &mut Scoping,
    alloc: Global,
    node: &Node,
    place: Place,
    own: OwnScopes,
) -> Result<(), AllocError>
    requires known { IsKnown place (scope_count scoping.old) }
    requires own_known { AreKnown own (scope_count scoping.old) }
    ensures kept { OnOk result (scope_count scoping.new ≡ scope_count scoping.old) }
    ensures declared { OnOk result ((p : PlainPlace) (n : ℕ) (rows : List ScopeRow) (ds : List Declared) → StandsAs place p → AreOwn own n (kind_of node.now) (fields_of node.now) → Holds rows ds scoping.old → Holds rows (with_node ds p n (kind_of node.now) (label_of node.now) (fields_of node.now)) scoping.new) }
{
    match &node.kind {
        Kind::Identifier { name, .. } => declare_identifier(scoping, alloc, name, place)?,
        Kind::ClassDeclaration { .. } | Kind::ClassExpression { .. } => {
            if let Some(scope) = own.own {
                declare_class(scoping, alloc, node, scope)?;
            }
        }
        _ => {}
    }
    Ok(())
}

/// Adds the name of an identifier, where it is declared.
fn declare_identifier(
    scoping: &mut Scoping,
    alloc: Global,
    name: &str,
    place: Place,
) -> Result<(), AllocError>
    requires known { IsKnown place (scope_count scoping.old) }
    ensures kept { OnOk result (scope_count scoping.new ≡ scope_count scoping.old) }
    ensures declared { OnOk result ((p : PlainPlace) (rows : List ScopeRow) (ds : List Declared) → StandsAs place p → Holds rows ds scoping.old → Holds rows (with_identifier ds p p.role name.now) scoping.new) }
{
    if let Role::Binds(binding) = place.role {
        let scope = scope_for(scoping, place, binding, name);
        declare_name(scoping, alloc, scope, name, binding)?;
    }
    Ok(())
}

/// Adds the name that a class binds for itself.
fn declare_class(
    scoping: &mut Scoping,
    alloc: Global,
    class: &Node,
    scope: ScopeId,
) -> Result<(), AllocError>
    requires known { scope.0 < scope_count scoping.old }
    ensures kept { OnOk result (scope_count scoping.new ≡ scope_count scoping.old) }
    ensures declared { OnOk result ((rows : List ScopeRow) (ds : List Declared) → Holds rows ds scoping.old → Holds rows (with_class ds scope.0 (fields_of class.now)) scoping.new) }
{
    if let Some(name) = class.child_at(0) {
        declare_name(scoping, alloc, scope, own_text(name), Binding::Class)?;
    }
    Ok(())
}

/// The first text of a node, or the empty one.
fn own_text(node: &Node) -> &str
    ensures { result.now ≡ own_text node.now }
{
    node.kind.text(0).unwrap_or("")
}
