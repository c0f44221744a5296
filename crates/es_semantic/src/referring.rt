//! The walk over a program that adds its references to its table, which has all scopes and symbols already, and writes
//! its marks, in node order (ECMA-262, 13.1).
//!
//! Each call answers an error only for want of memory or of numbers; the marks of the tree are then in no stated state.
ghost use Rattle.std.specs.Prelude.{◌≡◌, ℕ, ◌+◌, ◌≤◌, List, [], ◌∷◌, Some, None, IfOk, OnOk, if◌then◌else◌};
ghost use Rattle.es_tree.specs.Heads.{head_of, label, scope};
ghost use Rattle.es_tree.specs.Tree.{Fields, fields_of, kind_of, trees};
ghost use Rattle.es_tree.specs.Views.{plain_field, plain_fields};
ghost use Rattle.es_tree.specs.declared.ids.Span.{Span};
ghost use Rattle.es_scope.specs.Tables.{reference_count, scope_count};
ghost use Rattle.es_semantic.specs.FieldPlaces.{held_at};
ghost use Rattle.es_semantic.specs.Places.{Place as PlainPlace, makes_scope, own_scope_count, scope_count_in, scope_count_in_field, scope_count_in_fields, scope_count_in_trees, visits, visits_in_field, visits_in_fields, visits_in_trees};
ghost use Rattle.es_semantic.specs.Referring.{AreAt, HasNames, HasReferencesMore, IsAt, IsChain};
ghost use Rattle.es_semantic.specs.ReferencesOf.{marked_in_field, marked_in_fields, marked_in_trees, marked_program, marked_tree, own_marks_of, own_reference, references_among};
ghost use Rattle.es_semantic.specs.ScopesOf.{ScopeRow, scopes_of};
ghost use Rattle.es_semantic.specs.SymbolsOf.{Declared, symbols_of};
ghost use Rattle.es_semantic.specs.TableOf.{IsTableOf};
ghost use Rattle.es_semantic.specs.Walks.{AreOwn, Holds, IsKnown, StandsAs};

use crate::building::mark_scope as mark_program;
use crate::declaring::outermost;
use crate::field_places::FieldPlaces;
use crate::marks::mark_identifier;
use crate::place::{OwnScopes, Place};
use crate::places::{has_name_scope, makes_scope};
use es_scope::scoping::Scoping;
use es_tree::ids::{NodeId, ScopeId};
use es_tree::kind::Kind;
use es_tree::node::{Field, Node};
use std::alloc::AllocError;

/// Adds the references of a program to the table of its scopes and symbols, and writes the program's marks.
pub(crate) fn refer_program(scoping: &mut Scoping, program: &mut Node) -> Result<(), AllocError>
    requires names { Holds (scopes_of program.old) (symbols_of program.old) scoping.old }
    ensures table { OnOk result (IsTableOf program.old scoping.new) }
    ensures marks { OnOk result (program.new ≡ marked_program program.old) }
{
    let place = outermost(program);
    let mut next = 1;
    mark_node(scoping, program, place, &mut next)?;
    mark_program(program);
    Ok(())
}

/// Writes the marks of a tree that stands here, and adds its references. The number of the next scope is counted up
/// by the scopes of the tree, which are of the table.
#[cycle(refer)]
pub(crate) fn mark_node(
    scoping: &mut Scoping,
    node: &mut Node,
    place: Place,
    next: &mut u32,
) -> Result<(), AllocError>
    requires known { IsKnown place (scope_count scoping.old) }
    requires room { next.old + scope_count_in node.old ≤ scope_count scoping.old }
    ensures kept { OnOk result (scope_count scoping.new ≡ scope_count scoping.old) }
    ensures counted { OnOk result (next.new ≡ next.old + scope_count_in node.old) }
    ensures marked { OnOk result ((p : PlainPlace) (rows : List ScopeRow) (ds : List Declared) → IsAt place p rows ds scoping.old next.old (visits p next.old node.old) → node.new ≡ marked_tree ds p next.old (reference_count scoping.old) node.old) }
    ensures referred { OnOk result ((p : PlainPlace) (rows : List ScopeRow) (ds : List Declared) → IsAt place p rows ds scoping.old next.old (visits p next.old node.old) → HasReferencesMore scoping.old scoping.new (references_among ds (visits p next.old node.old))) }
{
    let own = number_scopes(node, next)?;
    let places = FieldPlaces::of_node(place, node, own);
    mark_kind(scoping, &mut node.kind, node.id, place, own)?;
    mark_fields(scoping, &mut node.fields, places, next)?;
    Ok(())
}

#[cycle(refer)]
fn mark_fields(
    scoping: &mut Scoping,
    fields: &mut [Field],
    places: FieldPlaces,
    next: &mut u32,
) -> Result<(), AllocError>
    requires known { (i : ℕ) → IsKnown (held_at places i) (scope_count scoping.old) }
    requires room { next.old + scope_count_in_fields (plain_fields fields.old) ≤ scope_count scoping.old }
    ensures kept { OnOk result (scope_count scoping.new ≡ scope_count scoping.old) }
    ensures counted { OnOk result (next.new ≡ next.old + scope_count_in_fields (plain_fields fields.old)) }
    ensures marked { OnOk result ((ps : ℕ → PlainPlace) (rows : List ScopeRow) (ds : List Declared) → AreAt places ps rows ds scoping.old next.old (visits_in_fields ps next.old (plain_fields fields.old)) → plain_fields fields.new ≡ marked_in_fields ds ps next.old (reference_count scoping.old) (plain_fields fields.old)) }
    ensures referred { OnOk result ((ps : ℕ → PlainPlace) (rows : List ScopeRow) (ds : List Declared) → AreAt places ps rows ds scoping.old next.old (visits_in_fields ps next.old (plain_fields fields.old)) → HasReferencesMore scoping.old scoping.new (references_among ds (visits_in_fields ps next.old (plain_fields fields.old)))) }
{
    for (index, field) in fields.iter_mut().enumerate() {
        mark_field(scoping, field, places.at(index), next)?;
    }
    Ok(())
}

#[cycle(refer)]
fn mark_field(
    scoping: &mut Scoping,
    field: &mut Field,
    place: Place,
    next: &mut u32,
) -> Result<(), AllocError>
    requires known { IsKnown place (scope_count scoping.old) }
    requires room { next.old + scope_count_in_field (plain_field field.old) ≤ scope_count scoping.old }
    ensures kept { OnOk result (scope_count scoping.new ≡ scope_count scoping.old) }
    ensures counted { OnOk result (next.new ≡ next.old + scope_count_in_field (plain_field field.old)) }
    ensures marked { OnOk result ((p : PlainPlace) (rows : List ScopeRow) (ds : List Declared) → IsAt place p rows ds scoping.old next.old (visits_in_field p next.old (plain_field field.old)) → plain_field field.new ≡ marked_in_field ds p next.old (reference_count scoping.old) (plain_field field.old)) }
    ensures referred { OnOk result ((p : PlainPlace) (rows : List ScopeRow) (ds : List Declared) → IsAt place p rows ds scoping.old next.old (visits_in_field p next.old (plain_field field.old)) → HasReferencesMore scoping.old scoping.new (references_among ds (visits_in_field p next.old (plain_field field.old)))) }
{
    match field {
        Field::Missing => {}
        Field::One(node) => mark_node(scoping, node, place, next)?,
        Field::Many(nodes) => mark_nodes(scoping, nodes, place, next)?,
        Field::Statements(nodes) => mark_nodes(scoping, nodes, place, next)?,
    }
    Ok(())
}

#[cycle(refer)]
fn mark_nodes(
    scoping: &mut Scoping,
    nodes: &mut [Node],
    place: Place,
    next: &mut u32,
) -> Result<(), AllocError>
    requires known { IsKnown place (scope_count scoping.old) }
    requires room { next.old + scope_count_in_trees (trees nodes.old) ≤ scope_count scoping.old }
    ensures kept { OnOk result (scope_count scoping.new ≡ scope_count scoping.old) }
    ensures counted { OnOk result (next.new ≡ next.old + scope_count_in_trees (trees nodes.old)) }
    ensures marked { OnOk result ((p : PlainPlace) (rows : List ScopeRow) (ds : List Declared) → IsAt place p rows ds scoping.old next.old (visits_in_trees p next.old (trees nodes.old)) → trees nodes.new ≡ marked_in_trees ds p next.old (reference_count scoping.old) (trees nodes.old)) }
    ensures referred { OnOk result ((p : PlainPlace) (rows : List ScopeRow) (ds : List Declared) → IsAt place p rows ds scoping.old next.old (visits_in_trees p next.old (trees nodes.old)) → HasReferencesMore scoping.old scoping.new (references_among ds (visits_in_trees p next.old (trees nodes.old)))) }
{
    for node in nodes {
        mark_node(scoping, node, place, next)?;
    }
    Ok(())
}

/// The scopes that a node makes by itself, by their numbers.
fn number_scopes(node: &Node, next: &mut u32) -> Result<OwnScopes, AllocError>
    ensures own { IfOk result (λ own. AreOwn own next.old (kind_of node.now) (fields_of node.now)) }
    ensures counted { OnOk result (next.new ≡ next.old + own_scope_count (kind_of node.now) (fields_of node.now)) }
{
    let name = number_if(has_name_scope(node), next)?;
    let own = number_if(makes_scope(&node.kind), next)?;
    Ok(OwnScopes { name, own })
}

/// The number of the next scope, if there is one.
fn number_if(is_made: bool, next: &mut u32) -> Result<Option<ScopeId>, AllocError>
    ensures number { IfOk result (λ id. scope id ≡ (if is_made then Some next.old else None)) }
    ensures counted { OnOk result (next.new ≡ next.old + (if is_made then 1 else 0)) }
{
    if !is_made {
        return Ok(None);
    }
    let number = *next;
    let Some(following) = number.checked_add(1) else {
        // The numbers of scopes have passed their end.
        return Err(AllocError);
    };
    *next = following;
    Ok(Some(ScopeId(number)))
}

/// Writes the marks of a node by itself, of this id, and adds the reference that it is.
fn mark_kind(
    scoping: &mut Scoping,
    kind: &mut Kind,
    node: NodeId,
    place: Place,
    own: OwnScopes,
) -> Result<(), AllocError>
    requires known { IsKnown place (scope_count scoping.old) }
    ensures kept { OnOk result (scope_count scoping.new ≡ scope_count scoping.old) }
    ensures same { OnOk result ((head_of kind.new).kind ≡ (head_of kind.old).kind) }
    ensures marked { OnOk result ((p : PlainPlace) (rows : List ScopeRow) (ds : List Declared) (n : ℕ) (fs : Fields) (span : Span) → StandsAs place p → HasNames rows ds scoping.old → IsChain rows p.around → AreOwn own n (head_of kind.old).kind fs → label node span (head_of kind.new) ≡ record (label node span (head_of kind.old)) { marks = own_marks_of ds p n (reference_count scoping.old) (head_of kind.old).kind (label node span (head_of kind.old)) fs }) }
    ensures referred { OnOk result ((p : PlainPlace) (rows : List ScopeRow) (ds : List Declared) (span : Span) → StandsAs place p → HasNames rows ds scoping.old → IsChain rows p.around → HasReferencesMore scoping.old scoping.new (own_reference ds p (head_of kind.old).kind (label node span (head_of kind.old)))) }
{
    match kind {
        Kind::Identifier {
            name,
            reference,
            symbol,
        } => {
            let marks = mark_identifier(scoping, node, place, name.as_str())?;
            *reference = marks.reference;
            *symbol = marks.symbol;
        }
        _ => mark_scope(kind, own.own),
    }
    Ok(())
}

/// Writes the mark of a node that makes a scope.
fn mark_scope(kind: &mut Kind, own: Option<ScopeId>)
    ensures same { (head_of kind.new).kind ≡ (head_of kind.old).kind }
    ensures texts { (head_of kind.new).texts ≡ (head_of kind.old).texts }
    ensures flags { (head_of kind.new).flags ≡ (head_of kind.old).flags }
    ensures marks { (head_of kind.new).marks ≡ (if makes_scope (head_of kind.old).kind then scope own ∷ [] else (head_of kind.old).marks) }
{
    match kind {
        Kind::BlockStatement { scope } => *scope = own,
        Kind::StaticBlock { scope } => *scope = own,
        Kind::FunctionDeclaration { scope } => *scope = own,
        Kind::FunctionExpression { scope } => *scope = own,
        Kind::FunctionBody { scope } => *scope = own,
        Kind::ArrowFunctionExpression { scope } => *scope = own,
        Kind::ClassDeclaration { scope } => *scope = own,
        Kind::ClassExpression { scope } => *scope = own,
        Kind::ForStatement { scope } => *scope = own,
        Kind::ForInStatement { scope } => *scope = own,
        Kind::ForOfStatement { scope } => *scope = own,
        Kind::SwitchStatement { scope } => *scope = own,
        Kind::CatchClause { scope } => *scope = own,
        _ => {}
    }
}
