//! What a lowering of a program means, of whatever kind the program is, and that the steps of a visit lead to it. The functions do
//! nothing: their contracts are laws over the definitions.
#![tactic(auto)]

ghost use Rattle.es_reached.specs.BareTrees.{LawBarePlaces, LawBareSeen, LawBareSource};
ghost use Rattle.es_reached.specs.NoRests.{LawNoDeclaredRests, LawNoUsings};
ghost use Rattle.es_reached.specs.Reached.{LawCoreResult, LawFirst, LawResult};
ghost use Rattle.es_reached.specs.Unmade.{LawNoneMade};
ghost use Rattle.es_reached.specs.Walks.{LawWalkMakesNone};

/// What steps of the built lowerings that options ask for reach from a program that has form and breaks no static rule, with nothing
/// pending, is what the program becomes, however it is written: names keep their bindings, and the written program has form, breaks no
/// static rule, and is to other modules what the source is. Where arrows are lowered each of the program can become a function.
pub fn law_result()
    ensures { LawResult }
{}

/// If the program is a core program, the written one is reached by names, runs alike, and binds its names where they were bound.
pub fn law_core_result()
    ensures { LawCoreResult }
{}

/// What is known of a whole before the first step tells which one it is.
pub fn law_first()
    ensures { LawFirst }
{}

/// What is seen of a tree with the marks of a scope table is the tree, but for ids and marks.
pub fn law_bare_seen()
    ensures { LawBareSeen }
{}

/// So is the source of a program the program.
pub fn law_bare_source()
    ensures { LawBareSource }
{}

/// No rule of places asks for ids or marks.
pub fn law_bare_places()
    ensures { LawBarePlaces }
{}

/// No step of the built lowerings makes an object pattern with a rest that is declared.
pub fn law_no_declared_rests()
    ensures { LawNoDeclaredRests }
{}

/// Nor a declaration by `using`.
pub fn law_no_usings()
    ensures { LawNoUsings }
{}

/// Nor an object literal with a spread, an optional chain, a logical assignment or a power: each is as absent as it was.
pub fn law_none_made()
    ensures { LawNoneMade }
{}

/// A walk that lowers arrows makes none of the other constructs that options ask to lower.
pub fn law_walk_makes_none()
    ensures { LawWalkMakesNone }
{}
