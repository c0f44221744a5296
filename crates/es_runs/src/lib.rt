//! The runs of core programs: what a program of the core grammar asks its host, in which order, and how it ends. The
//! functions do nothing: their contracts are laws over the definitions.
#![tactic(auto)]

ghost use Rattle.es_runs.specs.OpenLaws.{LawCoreRules, LawReached, LawReachedBindings};
ghost use Rattle.es_runs.specs.Runs.{LawFresh, LawPlace};
ghost use Rattle.es_runs.specs.StaticLaws.{LawReachedRules, LawStaticRules};

/// Replacing an expression by one that evaluates alike, at what its place takes of it, keeps the runs.
pub fn law_place()
    ensures { LawPlace }
{}

/// A `var` of a name that stands nowhere keeps the runs.
pub fn law_fresh()
    ensures { LawFresh }
{}

/// Whatever steps of the rules of core programs are taken from a core program without optional marks outside chains, at
/// whatever places and in whatever order: source and open program run alike.
pub fn law_core_rules()
    ensures { LawCoreRules }
{}

/// Such a program and what is reached from it run alike.
pub fn law_reached()
    ensures { LawReached }
{}

/// A name of a core program is bound in what is reached from it exactly where it was bound before.
pub fn law_reached_bindings()
    ensures { LawReachedBindings }
{}

/// Whatever steps of the rules of core programs are taken from a core program that keeps the static rules: with everything
/// pending written, the program keeps them.
pub fn law_static_rules()
    ensures { LawStaticRules }
{}

/// What is reached from a core program that keeps the static rules keeps them.
pub fn law_reached_rules()
    ensures { LawReachedRules }
{}
