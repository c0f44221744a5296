//! The first node of a program that a run doesn't take, and why.
//!
//! The shapes that a node and its scopes tell are the rows of one table, asked in order at each node. A shape more is a row
//! of `specs/Shapes.antt`, and a test in `shapes.rt`. After them comes what the places around tell, too (`specs/NodePlaces.antt`,
//! `node_places.rt`): that a pattern stands inside another (`specs/PatternPlaces.antt`), and then what stands in the way of arrows
//! (`specs/ArrowShapes.antt`).
ghost use Rattle.std.specs.Prelude.{◌≡◌, ℕ, ◌<◌, ◌^◌, List, true, option_map};
ghost use Rattle.es_tree.specs.Tree.{Tree, trees};
ghost use Rattle.es_tree.specs.Views.{plain_field, plain_fields};
ghost use Rattle.es_tree.specs.Walks.{all_nodes, all_in_field};
ghost use Rattle.es_scope.specs.Tables.{scope_count};
ghost use Rattle.es_semantic.specs.Places.{first};
ghost use Rattle.es_semantic.specs.SymbolsOf.{Declared};
ghost use Rattle.es_semantic.specs.Walks.{Binds};
ghost use Rattle.es_unsupported.specs.FirstUnsupported.{IsBuilt, first_unsupported};
ghost use Rattle.es_unsupported.specs.MarkedWalk.{LooksUp, LooksUpInField, first_at, first_in_field, has_known_scope};
ghost use Rattle.es_unsupported.specs.Shapes.{plain_found};
ghost use Rattle.es_unsupported.specs.Wanted.{IsWanted};

use crate::node_places::NodePlace;
use crate::scopes::{asked_arguments, field_scopes};
use crate::shapes::{Wanted, find_shape};
use es_scope::scoping::Scoping;
use es_tree::error::UnsupportedKind;
use es_tree::ids::{NodeId, ScopeId};
use es_tree::node::{Field, Node};
use es_tree::options::EnvOptions;

/// The first node of the program, in node order, that has a shape which a run with these options doesn't take, and that
/// shape: at one node the first of the table. None where the run takes all. The table and the program's marks are those
/// that `build_scoping` makes, and the table has fewer than 2^32 scopes. It takes no memory.
pub fn find_unsupported(
    program: &Node,
    scoping: &Scoping,
    options: &EnvOptions,
) -> Option<(UnsupportedKind, NodeId)>
    requires built { (p : Tree) × IsBuilt p program.now scoping.now }
    requires few { scope_count scoping.now < 2 ^ 32 }
    ensures first { (p : Tree) → IsBuilt p program.now scoping.now → option_map plain_found result ≡ first_unsupported options.now p }
{
    let wanted = Wanted::of_program(scoping, options);
    if !wanted.any() {
        return None;
    }
    let place = NodePlace::of_program();
    find_in(
        program,
        scoping.root_scope_id(),
        place,
        scoping,
        options,
        wanted,
    )
}

/// The first in a tree that stands in this scope and at this place.
#[cycle(find)]
fn find_in(
    node: &Node,
    scope: ScopeId,
    place: NodePlace,
    scoping: &Scoping,
    options: &EnvOptions,
    wanted: Wanted,
) -> Option<(UnsupportedKind, NodeId)>
    requires scope { scope.0 < scope_count scoping.now }
    requires marks { all_nodes (has_known_scope (scope_count scoping.now)) node.now ≡ true }
    ensures { (ds : List Declared) (up : List ℕ) → IsWanted wanted options.now ds → Binds ds scoping.now → scope.0 ≡ first up → LooksUp scoping.now ds up node.now → option_map plain_found result ≡ first_at options.now ds up place node.now }
{
    if let Some(shape) = find_shape(node, scope, place, scoping, wanted) {
        return Some((shape, node.id));
    }
    let scopes = field_scopes(node, scope);
    let binds = asked_arguments(wanted.arrows, node, scoping);
    for (index, field) in node.fields.iter().enumerate() {
        let inside = place.inside(node, index, field, binds, options);
        if let Some(found) = find_in_field(
            field,
            scopes.at(index),
            inside,
            scoping,
            options,
            wanted,
        ) {
            return Some(found);
        }
    }
    None
}

/// The first in a field of which what stands in it stands in this scope and at this place.
#[cycle(find)]
fn find_in_field(
    field: &Field,
    scope: ScopeId,
    place: NodePlace,
    scoping: &Scoping,
    options: &EnvOptions,
    wanted: Wanted,
) -> Option<(UnsupportedKind, NodeId)>
    requires scope { scope.0 < scope_count scoping.now }
    requires marks { all_in_field (has_known_scope (scope_count scoping.now)) (plain_field field.now) ≡ true }
    ensures { (ds : List Declared) (up : List ℕ) → IsWanted wanted options.now ds → Binds ds scoping.now → scope.0 ≡ first up → LooksUpInField scoping.now ds up (plain_field field.now) → option_map plain_found result ≡ first_in_field options.now ds up place (plain_field field.now) }
{
    match field {
        Field::Missing => None,
        Field::One(node) => find_in(node, scope, place, scoping, options, wanted),
        Field::Many(nodes) | Field::Statements(nodes) => {
            for node in nodes {
                if let Some(found) = find_in(node, scope, place, scoping, options, wanted) {
                    return Some(found);
                }
            }
            None
        }
    }
}
