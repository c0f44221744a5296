//! Object patterns with a rest inside other patterns (ECMA-262, 14.3.3, 13.15.5), told at their own nodes and what is known of their places.
ghost use Rattle.std.specs.Prelude.{◌≡◌, is_some};
ghost use Rattle.es_tree.specs.Tree.{fields_of, kind_of, label_of};
ghost use Rattle.es_tree.specs.declared.options.EnvOptions.{EnvOptions as PlainOptions};
ghost use Rattle.es_unsupported.specs.PatternPlaces.{nested_shape, nests_patterns, pattern_place_in, pattern_shape};

use es_nodes::construct::is_object_rest;
use es_tree::error::UnsupportedKind;
use es_tree::kind::Kind;
use es_tree::node::Node;

/// What is known of a place, as far as patterns around ask.
#[derive(Clone, Copy)]
pub enum PatternPlace {
    /// None of those below is around.
    Outside,
    /// An array pattern is, or the rest of a pattern.
    InArray,
    /// A pattern that is assigned to is.
    InTarget,
}

impl PatternPlace {
    /// Of what stands in a node of which this is known.
    pub(crate) fn inside(self, node: &Node) -> PatternPlace
        ensures { result ≡ pattern_place_in self (kind_of node.now) }
    {
        match &node.kind {
            Kind::ArrayPattern | Kind::RestElement => PatternPlace::InArray,
            Kind::ObjectTarget
            | Kind::TargetProperty { .. }
            | Kind::ArrayTarget
            | Kind::TargetWithDefault
            | Kind::TargetRest => PatternPlace::InTarget,
            Kind::ObjectPattern | Kind::PatternProperty { .. } | Kind::AssignmentPattern => self,
            _ => PatternPlace::Outside,
        }
    }

    /// The name by which a pattern with a rest is refused there, if it is.
    fn nested_shape(self) -> Option<UnsupportedKind>
        ensures { result ≡ nested_shape self }
    {
        match self {
            PatternPlace::Outside => None,
            PatternPlace::InArray => Some(UnsupportedKind::RestInArray),
            PatternPlace::InTarget => Some(UnsupportedKind::RestNested),
        }
    }
}

/// What a node at such a place has of that. Where no object rest is to be lowered it has nothing.
pub(crate) fn pattern_shape(
    node: &Node,
    place: PatternPlace,
    rests: bool,
) -> Option<UnsupportedKind>
    ensures { (o : PlainOptions) → rests ≡ is_some o.es2018.object_rest_spread → result ≡ pattern_shape o place (kind_of node.now) (label_of node.now) (fields_of node.now) }
{
    if rests && is_object_rest(node) {
        place.nested_shape()
    } else {
        None
    }
}

/// Whether the patterns with a rest that the node holds are told so, wherever it stands.
pub(crate) fn nests_patterns(node: &Node) -> bool
    ensures { result ≡ nests_patterns (kind_of node.now) }
{
    PatternPlace::Outside.inside(node).nested_shape().is_some()
}
