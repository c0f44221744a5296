//! Exports of declarations with an object rest (ECMA-262, 16.2.3), of which the declaration stands by itself afterwards: what a program becomes by it, and
//! what is known of that. The functions do nothing: their contracts are laws over the definitions.
#![tactic(auto)]

ghost use Rattle.es_export_splits.specs.Laws.{LawElsewhere, LawSplit, LawSplitWeighs, LawSplitWeighsUsed, LawStays};

/// Where no such export stands a program stays as it is.
pub fn law_stays()
    ensures { LawStays }
{}

/// A test that neither exports nor names pass, nor a program because of its statements, is passed exactly where it was before.
pub fn law_elsewhere()
    ensures { LawElsewhere }
{}

/// What a program becomes weighs at most eight for each of its nodes.
pub fn law_split_weighs()
    ensures { LawSplitWeighs }
{}

/// And at most twenty, once its `using` moved out of heads and is lowered, too.
pub fn law_split_weighs_used()
    ensures { LawSplitWeighsUsed }
{}

/// What a program becomes that has form and breaks no static rule is reached by steps of the rule, each name keeps its binding, and it is such a program, the
/// same to other modules.
pub fn law_split()
    ensures { LawSplit }
{}
