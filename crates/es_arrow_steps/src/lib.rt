//! The steps of a walk that lowers arrows, and that each puts a name where it is found. The functions do nothing: their contracts are laws
//! over the definitions.
#![tactic(auto)]

ghost use Rattle.es_arrow_steps.specs.ArrowWalks.{LawArrowWalks, LawFirstUses};

/// Where steps begin, from a program that has form and breaks no static rule, the names of the program's symbols are in use.
pub fn law_first_uses()
    ensures { LawFirstUses }
{}

/// Steps of a walk that lowers arrows, among steps of all rules, from a program whose names are bound, are steps of the rules: the name
/// that is pending for a target is found wherever a `this` belongs to that target.
pub fn law_arrow_walks()
    ensures { LawArrowWalks }
{}
