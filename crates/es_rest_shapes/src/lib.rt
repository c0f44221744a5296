//! Which object patterns with a rest are lowered. The functions do nothing: their contracts are laws over the definitions.
#![tactic(auto)]

ghost use Rattle.es_rest_shapes.specs.Laws.{LawAssignedRests, LawBareRests, LawDeclaredRests, LawNoneLeft, LawQuiet};

/// Where no pattern with a rest is declared or assigned to, and none stands where it isn't lowered, there is none.
pub fn law_none_left()
    ensures { LawNoneLeft }
{}

/// Where there is none, none is declared.
pub fn law_declared_rests()
    ensures { LawDeclaredRests }
{}

/// Nor is one assigned to.
pub fn law_assigned_rests()
    ensures { LawAssignedRests }
{}

/// Ids and marks mean nothing to them.
pub fn law_bare_rests()
    ensures { LawBareRests }
{}

/// Nor does a node hold one where it isn't lowered.
pub fn law_quiet()
    ensures { LawQuiet }
{}
