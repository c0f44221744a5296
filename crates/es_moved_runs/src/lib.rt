//! The runs of programs in which object patterns with rests move to declarations of their own. The functions do nothing: their contracts are laws over the
//! definitions.
#![tactic(auto)]

ghost use Rattle.es_moved_runs.specs.Laws.{LawCatchMoves, LawHeadMoves, LawMovedRuns, LawMovesInRow};

/// A program runs as what it becomes where a pattern with a rest moves out of a catch clause.
pub fn law_catch_moves()
    ensures { LawCatchMoves }
{}

/// A program runs as what it becomes where a pattern with a rest moves out of the head of a loop by for-in or for-of, which declares by `let` or `const`.
pub fn law_head_moves()
    ensures { LawHeadMoves }
{}

/// A valid program of the class that uses no helper itself, whose names are bound and in use, runs as what any number of such steps make of it, which is such
/// a program again.
pub fn law_moves_in_row()
    ensures { LawMovesInRow }
{}

/// Such a program whose patterns move by these rows alone runs as what it becomes by moving, which is such a program again.
pub fn law_moved_runs()
    ensures { LawMovedRuns }
{}
