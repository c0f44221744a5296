//! Runs in which no stack of `using` arises. The function does nothing: its contract is a law over the definitions.
#![tactic(auto)]

ghost use Rattle.es_stackless_runs.specs.Laws.{LawStackless};

/// A program that calls no helper but that of object spread runs with the object of all helpers as it runs where that is the only one.
pub fn law_stackless()
    ensures { LawStackless }
{}
