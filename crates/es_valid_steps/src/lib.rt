//! What steps of rules write is a program: the static rules that it keeps. The functions do nothing: their contracts are laws over the
//! definitions.
#![tactic(auto)]

ghost use Rattle.es_valid_steps.specs.Laws.{LawAmong, LawCorePlaces, LawFurtherForm, LawFurtherPlaces, LawNamespacePlaces, LawPlaceSteps, LawPlaces, LawPlacesReached};

/// None of the rules of places is broken exactly where each node, with its ancestors, keeps each of them.
pub fn law_places()
    ensures { LawPlaces }
{}

/// A program that breaks none of the nineteen static rules breaks none of those of places.
pub fn law_among()
    ensures { LawAmong }
{}

/// Whatever steps of the core rules that options ask for are taken from a program that has form and breaks no rule of places, at whatever
/// places and in whatever order: with all that is pending written it breaks none.
pub fn law_place_steps()
    ensures { LawPlaceSteps }
{}

/// Nor does what they reach.
pub fn law_places_reached()
    ensures { LawPlacesReached }
{}

/// And so it is with all core rules together.
pub fn law_core_places()
    ensures { LawCorePlaces }
{}

/// Steps of these and of optional catch, namespace exports and object spread, and of rests in assignments keep form.
pub fn law_further_form()
    ensures { LawFurtherForm }
{}

/// And they break no rule of places that wasn't broken.
pub fn law_further_places()
    ensures { LawFurtherPlaces }
{}

/// In a program that has form and breaks none of them, namespace exports stand in the program's own list alone.
pub fn law_namespace_places()
    ensures { LawNamespacePlaces }
{}
