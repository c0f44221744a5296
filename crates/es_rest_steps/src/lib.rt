//! A walk that takes object rests, over a whole program. The functions do nothing: their contracts are laws over the definitions.
#![tactic(auto)]

ghost use Rattle.es_rest_steps.specs.Laws.{LawRestParts, LawRestWalks, LawWalkParts};

/// Steps of a walk from a program that has form are steps of the parts that rows are made of.
pub fn law_walk_parts()
    ensures { LawWalkParts }
{}

/// Steps of a walk from a program that binds no `babelHelpers` are steps of the rows.
pub fn law_rest_walks()
    ensures { LawRestWalks }
{}

/// They are steps of the rules of object rests.
pub fn law_rest_parts()
    ensures { LawRestParts }
{}
