//! The rules of lowerings one by one: each is lawful alone, and steps make no node above them a construct. The functions
//! do nothing: their contracts are laws over the definitions.
#![tactic(auto)]

ghost use Rattle.es_row_laws.specs.Laws.{LawLawfulRows, LawStable, LawStableRows};

/// Each rule of a lowering is lawful alone.
pub fn law_lawful_rows()
    ensures { LawLawfulRows }
{}

/// Steps of the core rules that options ask for make no node a construct.
pub fn law_stable()
    ensures { LawStable }
{}

/// Nor do steps of each rule.
pub fn law_stable_rows()
    ensures { LawStableRows }
{}
