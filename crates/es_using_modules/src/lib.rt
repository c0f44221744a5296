//! `using` at the top of a module (Explicit Resource Management, 14.3.1; ECMA-262, 16.2), all of which but functions, imports and exports moves into a `try`:
//! what a program becomes by it, and what is known of that. The functions do nothing: their contracts are laws over the definitions.
#![tactic(auto)]

ghost use Rattle.es_using_modules.specs.Laws.{LawOneTopped, LawTopped, LawToppedAloneWeighs, LawToppedWeighs};

/// What a program becomes is one: neither its names nor the program can be others.
pub fn law_one_topped()
    ensures { LawOneTopped }
{}

/// What a program becomes weighs at most twenty for each of its nodes, with all that is done of `using` before, and its exports split.
pub fn law_topped_weighs()
    ensures { LawToppedWeighs }
{}

/// And so where no export is split.
pub fn law_topped_alone_weighs()
    ensures { LawToppedAloneWeighs }
{}

/// What a program becomes that has form, breaks no static rule and declares by `using` at its top is reached by a step of the rule, each name keeps its
/// binding, and it is such a program, the same to other modules.
pub fn law_topped()
    ensures { LawTopped }
{}
