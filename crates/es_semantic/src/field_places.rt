//! The places of what stands in the fields of a node, which count from 0. They are told before a walk changes the node.
ghost use Rattle.std.specs.Prelude.{◌≡◌, ℕ, ◌+◌, ◌≤◌};
ghost use Rattle.es_tree.specs.Tree.{fields_of, kind_of, label_of};
ghost use Rattle.es_semantic.specs.FieldPlaces.{held_at};
ghost use Rattle.es_semantic.specs.Places.{Place as PlainPlace, own_scope_count, place_in};
ghost use Rattle.es_semantic.specs.Walks.{AreOwn, IsKnown, StandsAs};

use crate::place::{OwnScopes, Place};
use crate::places::{is_strict_in, place_in};
use es_tree::node::Node;

/// The places of the first three fields, and that of all later ones.
#[derive(Clone, Copy)]
pub(crate) struct FieldPlaces {
    pub(crate) first: Place,
    pub(crate) second: Place,
    pub(crate) third: Place,
    pub(crate) later: Place,
}

impl FieldPlaces {
    /// Those of a node that stands here, and makes these scopes by itself.
    pub(crate) fn of_node(place: Place, node: &Node, own: OwnScopes) -> FieldPlaces
        ensures stands { (p : PlainPlace) (n : ℕ) → StandsAs place p → AreOwn own n (kind_of node.now) (fields_of node.now) → (i : ℕ) → StandsAs (held_at result i) (place_in p n (kind_of node.now) (label_of node.now) (fields_of node.now) i) }
        ensures known { (n count : ℕ) → IsKnown place count → AreOwn own n (kind_of node.now) (fields_of node.now) → n + own_scope_count (kind_of node.now) (fields_of node.now) ≤ count → (i : ℕ) → IsKnown (held_at result i) count }
    {
        let strict = is_strict_in(place, node);
        FieldPlaces {
            first: place_in(place, node, own, strict, 0),
            second: place_in(place, node, own, strict, 1),
            third: place_in(place, node, own, strict, 2),
            later: place_in(place, node, own, strict, 3),
        }
    }

    /// The place of what stands in this field.
    pub(crate) fn at(self, index: usize) -> Place
        ensures { result ≡ held_at self index }
    {
        match index {
            0 => self.first,
            1 => self.second,
            2 => self.third,
            _ => self.later,
        }
    }
}
