//! What is known of places, and what they tell of the nodes there. Fields count from 0.
ghost use Rattle.std.specs.Prelude.{◌≡◌, is_some};
ghost use Rattle.es_tree.specs.Tree.{fields_of, kind_of, label_of};
ghost use Rattle.es_tree.specs.Views.{plain_field};
ghost use Rattle.es_tree.specs.declared.options.EnvOptions.{EnvOptions as PlainOptions};
ghost use Rattle.es_unsupported.specs.MarkedWalk.{refers_by_mark};
ghost use Rattle.es_unsupported.specs.NodePlaces.{node_place_in, place_shape, program_place};

use crate::arrow_places::ArrowPlace;
use crate::arrow_shapes::arrow_shape;
use crate::pattern_places::{PatternPlace, pattern_shape};
use es_tree::error::UnsupportedKind;
use es_tree::node::{Field, Node};
use es_tree::options::EnvOptions;

/// What is known of a place.
#[derive(Clone, Copy)]
pub struct NodePlace {
    /// As far as arrows that become functions ask.
    pub arrows: ArrowPlace,
    /// As far as patterns around ask.
    pub pattern: PatternPlace,
}

impl NodePlace {
    /// Of a program.
    pub(crate) fn of_program() -> NodePlace
        ensures { result ≡ program_place }
    {
        NodePlace {
            arrows: ArrowPlace::outside(),
            pattern: PatternPlace::Outside,
        }
    }

    /// Of what stands in this field of a node of which this is known, and whether its scope binds `arguments`.
    pub(crate) fn inside(
        self,
        node: &Node,
        index: usize,
        field: &Field,
        binds: bool,
        options: &EnvOptions,
    ) -> NodePlace
        ensures { result ≡ node_place_in options.now binds self (kind_of node.now) (label_of node.now) (fields_of node.now) index (plain_field field.now) }
    {
        NodePlace {
            arrows: self.arrows.inside(node, index, field, binds, options),
            pattern: self.pattern.inside(node),
        }
    }
}

/// The shape that its place tells of a node, where object rests are lowered or not, and arrows are or not.
pub(crate) fn place_shape(
    node: &Node,
    place: NodePlace,
    rests: bool,
    arrows: bool,
) -> Option<UnsupportedKind>
    ensures { (o : PlainOptions) → rests ≡ is_some o.es2018.object_rest_spread → arrows ≡ is_some o.es2015.arrow_function → result ≡ place_shape o place (refers_by_mark (label_of node.now).marks) (kind_of node.now) (label_of node.now) (fields_of node.now) }
{
    match pattern_shape(node, place.pattern, rests) {
        Some(shape) => Some(shape),
        None => arrow_shape(node, place.arrows, arrows),
    }
}
