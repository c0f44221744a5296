//! The runs of programs in which names stand for lists of excluded keys. The function does nothing: its contract is a law over the definitions.
#![tactic(auto)]

ghost use Rattle.es_constant_runs.specs.Laws.{LawSharedRuns};

/// A program in which object rests are taken runs as it does where each list of keys that they leave out is a constant of the program.
pub fn law_shared_runs()
    ensures { LawSharedRuns }
{}
