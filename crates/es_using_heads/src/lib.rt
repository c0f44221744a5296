//! `using` in the head of a `for`-`of` (Explicit Resource Management, 14.7.5), which moves into the body of the loop: what a program becomes by it, and
//! that steps of the rules of `using` reach it. The functions do nothing: their contracts are laws over the definitions.
#![tactic(auto)]

ghost use Rattle.es_using_heads.specs.Laws.{LawHeadedSize, LawHeadedSteps, LawOneHeaded, LawStays, LawWeighed};

/// Where no `using` stands a tree stays as it is.
pub fn law_stays()
    ensures { LawStays }
{}

/// What a program becomes is one: neither its names nor the program can be others.
pub fn law_one_headed()
    ensures { LawOneHeaded }
{}

/// A tree becomes at most twice as large.
pub fn law_headed_size()
    ensures { LawHeadedSize }
{}

/// Once its `using` is lowered, too, a program weighs at most twenty for each of its nodes.
pub fn law_weighed()
    ensures { LawWeighed }
{}

/// What a program becomes that has form and breaks no static rule is reached from the program with symbols by steps of the rules of `using`, but for ids
/// and marks.
pub fn law_headed_steps()
    ensures { LawHeadedSteps }
{}
