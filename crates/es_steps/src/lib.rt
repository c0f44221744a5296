//! Steps of rules on resolved open programs, where names are known by the symbols that they refer to. The functions do nothing:
//! their contracts are laws over the definitions.
#![tactic(auto)]

ghost use Rattle.es_steps.specs.CoreBridge.{LawFirstWhole, LawKeptBySymbols, LawReachedByName, LawRunsBySymbols, LawStepsByName};
ghost use Rattle.es_steps.specs.CoreLaws.{LawCoreBindings, LawCoreReached, LawCoreSteps, LawRulesUnder, LawSlots};
ghost use Rattle.es_steps.specs.DerivedPrograms.{LawDerivedPrograms};
ghost use Rattle.es_steps.specs.FormLaws.{LawCoreForm, LawForm, LawFormReached};
ghost use Rattle.es_steps.specs.Laws.{LawBindings, LawReached, LawStart, LawSteps};
ghost use Rattle.es_steps.specs.RowExamples.{LawRowExamples};
ghost use Rattle.es_steps.specs.Sites.{LawAlike, LawAlikeOnFewer, LawCoreLocal, LawCoreSites, LawCoreStepsLocal, LawInwards, LawLocal, LawRowsInside, LawRowsWithoutArrows, LawSites, LawStepsLocal, LawStepsWithoutArrows};
ghost use Rattle.es_steps.specs.SourceSites.{LawSourceSites, LawTableSites};

/// A source is well bound: each of its names is resolved and in use, and each of its symbols is bound by one scope and has one name.
pub fn law_start()
    ensures { LawStart }
{}

/// Whatever steps are taken from a well bound program, at whatever places and in whatever order: with all that is pending written it
/// is well bound.
pub fn law_steps()
    ensures { LawSteps }
{}

/// What is reached from a well bound program is well bound.
pub fn law_reached()
    ensures { LawReached }
{}

/// The names of what is reached are those of the source, with the symbols that they had, and made ones; each is bound by exactly one
/// scope, which is what looking it up finds, and a name without a symbol is unbound.
pub fn law_bindings()
    ensures { LawBindings }
{}

/// Whatever steps of the core lowerings are taken, at whatever places and in whatever order: with all that is pending written
/// the program is well bound.
pub fn law_core_steps()
    ensures { LawCoreSteps }
{}

/// What they reach from a well bound program is well bound.
pub fn law_core_reached()
    ensures { LawCoreReached }
{}

/// And each name of it is one of the source, with the symbol that it had, or made; each is bound by exactly one scope.
pub fn law_core_bindings()
    ensures { LawCoreBindings }
{}

/// Steps of the core lowerings that options ask for keep form: with all that is pending written the program has form.
pub fn law_form()
    ensures { LawForm }
{}

/// What they reach from a program that has form has form.
pub fn law_form_reached()
    ensures { LawFormReached }
{}

/// And steps of all core rules keep form.
pub fn law_core_form()
    ensures { LawCoreForm }
{}

/// The rules that options ask for are among the core rules.
pub fn law_rules_under()
    ensures { LawRulesUnder }
{}

/// In a slot that isn't wrapped nothing is declared.
pub fn law_slots()
    ensures { LawSlots }
{}

/// Programs that are lowered step by step, each to what is expected.
pub fn law_derived_programs()
    ensures { LawDerivedPrograms }
{}

/// Rows with private members, `super`, calls in a row, callees and `delete` give what is expected.
pub fn law_row_examples()
    ensures { LawRowExamples }
{}

/// Whatever steps of the core lowerings are taken from a core program, by symbols, at whatever places and in whatever order: by names
/// they are steps of es_runs.
pub fn law_steps_by_name()
    ensures { LawStepsByName }
{}

/// What they reach from a core program, by symbols, is reached by names, with the same names made.
pub fn law_reached_by_name()
    ensures { LawReachedByName }
{}

/// Such a program, without optional marks outside chains, and what is reached from it by symbols run alike.
pub fn law_runs_by_symbols()
    ensures { LawRunsBySymbols }
{}

/// Names of such a program are bound in what is reached from it by symbols exactly where they were, and the static rules that it
/// keeps are kept.
pub fn law_kept_by_symbols()
    ensures { LawKeptBySymbols }
{}

/// Such steps can begin at each program, where the names that rules write of themselves are in use.
pub fn law_first_whole()
    ensures { LawFirstWhole }
{}

/// To be alike is an equivalence of sites.
pub fn law_alike()
    ensures { LawAlike }
{}

/// Sites that are alike on some names are alike on fewer.
pub fn law_alike_on_fewer()
    ensures { LawAlikeOnFewer }
{}

/// In each field of a node alike sites have alike sites, and in the body of an arrow.
pub fn law_inwards()
    ensures { LawInwards }
{}

/// A step inside the fields of a node leaves the site of each field alike on the names that were in use.
pub fn law_sites()
    ensures { LawSites }
{}

/// So does a step of the core rules that options ask for.
pub fn law_core_sites()
    ensures { LawCoreSites }
{}

/// A core rule that acts at a site acts at each that is alike on `Math`.
pub fn law_core_local()
    ensures { LawCoreLocal }
{}

/// A rule that acts at a site acts at each that is alike on the names that rules write themselves and on the name that is pending for
/// `this`.
pub fn law_local()
    ensures { LawLocal }
{}

/// A step of the core rules at a site is one at each that is alike on `Math`.
pub fn law_core_steps_local()
    ensures { LawCoreStepsLocal }
{}

/// A step of any rules at a site is one at each that is alike on the names in use.
pub fn law_steps_local()
    ensures { LawStepsLocal }
{}

/// Where a node of a program stands in its source, each name finds what it finds among the program's symbols.
pub fn law_source_sites()
    ensures { LawSourceSites }
{}

/// So each name finds what look-up in the program's scope table finds from there.
pub fn law_table_sites()
    ensures { LawTableSites }
{}

/// Steps of the core rules in a row inside the fields of a node, at the sites as they were before the first, are steps of the node, and
/// leave the site of each field alike.
pub fn law_rows_inside()
    ensures { LawRowsInside }
{}

/// A step of any rules but those of arrows at a site is one at each that is alike on the names that rules write.
pub fn law_steps_without_arrows()
    ensures { LawStepsWithoutArrows }
{}

/// Steps of any rules but those of arrows in a row inside the fields of a node are steps of the node, too.
pub fn law_rows_without_arrows()
    ensures { LawRowsWithoutArrows }
{}
