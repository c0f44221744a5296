//! What becomes of an object rest that is declared. The functions do nothing: their contracts are laws over the definitions.
#![tactic(auto)]

ghost use Rattle.es_rest_rows.specs.Laws.{LawHelpersUnbound, LawNoneDeclared, LawRestRows, LawRestsMakeNone, LawStraysNotMade};

/// A row at a node is steps of the rules of object rests there.
pub fn law_rest_rows()
    ensures { LawRestRows }
{}

/// No step of the built lowerings brings a pattern with a rest where it isn't lowered.
pub fn law_strays_not_made()
    ensures { LawStraysNotMade }
{}

/// Where none stands where it isn't lowered, and no declaration declares one, none is declared.
pub fn law_none_declared()
    ensures { LawNoneDeclared }
{}

/// Where a program binds no `babelHelpers`, what the built lowerings reach from it binds none.
pub fn law_helpers_unbound()
    ensures { LawHelpersUnbound }
{}

/// They make no other construct.
pub fn law_rests_make_none()
    ensures { LawRestsMakeNone }
{}
