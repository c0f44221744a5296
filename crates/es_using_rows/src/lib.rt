//! `using` in bodies of functions, static blocks and blocks, in the parts of a `try`, in `switch` and in the head of `for` (Explicit Resource
//! Management, 14.3.1): where it is lowered, and what a program becomes by it. The functions do nothing: their contracts are laws over the definitions.
#![tactic(auto)]

ghost use Rattle.es_using_rows.specs.Laws.{LawOneUsed, LawStays, LawUsedSize, LawUsedSteps};

pub mod standing;

/// What a program becomes is one: neither its names nor the program can be others.
pub fn law_one_used()
    ensures { LawOneUsed }
{}

/// Where no `using` stands a tree stays as it is.
pub fn law_stays()
    ensures { LawStays }
{}

/// A program becomes at most eight times as large, also once patterns moved in it.
pub fn law_used_size()
    ensures { LawUsedSize }
{}

/// It is reached from the program with symbols by steps of the rules of `using`, but for ids and marks.
pub fn law_used_steps()
    ensures { LawUsedSteps }
{}
