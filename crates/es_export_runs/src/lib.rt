//! The runs of programs whose exports of declarations with an object rest are split. The functions do nothing: their contracts are laws over the definitions.
#![tactic(auto)]

ghost use Rattle.es_export_runs.specs.Laws.{LawSplitClass, LawSplitHelpers, LawSplitRuns, LawSplitTop};

/// What a valid program of the class becomes is one.
pub fn law_split_class()
    ensures { LawSplitClass }
{}

/// What becomes of a program that uses no helper itself uses none.
pub fn law_split_helpers()
    ensures { LawSplitHelpers }
{}

/// The top of what a valid program of the class becomes declares the same names.
pub fn law_split_top()
    ensures { LawSplitTop }
{}

/// A valid program of the class that uses no helper itself runs as what it becomes, with whatever helpers.
pub fn law_split_runs()
    ensures { LawSplitRuns }
{}
