//! The runs of programs whose object rests are taken where they are declared. The functions do nothing: their contracts are laws over the definitions.
#![tactic(auto)]

ghost use Rattle.es_rest_results.specs.Laws.{LawNoneTaken, LawRestWalkRuns, LawRestsAlone};

/// A program runs as what it becomes by steps of a walk that takes object rests, of whatever rows and at whatever declarations.
pub fn law_rest_walk_runs()
    ensures { LawRestWalkRuns }
{}

/// A program in which object rests alone are lowered runs as what is written of it once they are taken.
pub fn law_rests_alone()
    ensures { LawRestsAlone }
{}

/// And where none is taken, as what is written of it.
pub fn law_none_taken()
    ensures { LawNoneTaken }
{}
