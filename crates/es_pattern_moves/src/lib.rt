//! Object patterns with a rest that move to a declaration of their own, in which their rest is taken: which of them move, the rows by which
//! they do, and what a program becomes by it. The functions do nothing: their contracts are laws over the definitions.
#![tactic(auto)]

ghost use Rattle.es_pattern_moves.specs.Laws.{LawBareMoves, LawMoveRows, LawMoveWalks, LawMovedSize, LawMovedSteps, LawMovesAreRests, LawOneMoved, LawStays};

/// Each row is a step of the rules of object rests, or of that of bodies, of which it is proved that what they leave is a program.
pub fn law_move_rows()
    ensures { LawMoveRows }
{}

/// Steps of a walk, which tells by tests of the tree that names are apart, are steps of the rows, from a program that has form,
/// breaks no static rule, and whose names are bound.
pub fn law_move_walks()
    ensures { LawMoveWalks }
{}

/// Where no pattern with a rest stands none moves.
pub fn law_moves_are_rests()
    ensures { LawMovesAreRests }
{}

/// Ids and marks mean nothing to the test that says which patterns move.
pub fn law_bare_moves()
    ensures { LawBareMoves }
{}

/// What a program becomes by moving is one: neither its names nor the program can be others.
pub fn law_one_moved()
    ensures { LawOneMoved }
{}

/// Where no pattern moves it is the program itself.
pub fn law_stays()
    ensures { LawStays }
{}

/// It is at most three and a half times as large.
pub fn law_moved_size()
    ensures { LawMovedSize }
{}

/// It is reached from the program with symbols by steps of the rows, but for ids and marks.
pub fn law_moved_steps()
    ensures { LawMovedSteps }
{}
