//! What a program becomes by all lowerings that are built: as its `using` is lowered and its patterns move, by the rules of the others, and as its
//! constructors set their name for `this`. The functions do nothing: their contracts are laws over the definitions.
#![tactic(auto)]

ghost use Rattle.es_lowered.specs.Lowered.{LawIdle, LawLowered, LawLoweredAlone};
ghost use Rattle.es_lowered.specs.Moved.{LawMoved, LawUnmoved};
ghost use Rattle.es_lowered.specs.Set.{LawSet, LawUnset};
ghost use Rattle.es_lowered.specs.Used.{LawHeaded, LawUnused, LawUsed};

/// What the rows of object rests lead to, after the steps of the other lowerings, from a program that has form and breaks no static rule:
/// names keep their bindings, and the written program has form, breaks no static rule, and is to other modules what the source is.
pub fn law_lowered()
    ensures { LawLowered }
{}

/// Where they take no step, what the others reach is what the program becomes.
pub fn law_lowered_alone()
    ensures { LawLoweredAlone }
{}

/// Where no pattern with a rest is declared, a walk that takes them changes nothing.
pub fn law_idle()
    ensures { LawIdle }
{}

/// What a program that has form and breaks no static rule becomes as its patterns with a rest move: names keep their bindings, and it has form,
/// breaks no static rule, and is to other modules what the source is.
pub fn law_moved()
    ensures { LawMoved }
{}

/// So it is of a program that stays as it is.
pub fn law_unmoved()
    ensures { LawUnmoved }
{}

/// What a program that has form and breaks no static rule becomes as its `using` moves out of heads of loops: names keep their bindings, and it has form,
/// breaks no static rule, and is to other modules what the source is.
pub fn law_headed()
    ensures { LawHeaded }
{}

/// What a program that has form and breaks no static rule becomes as its `using` is lowered: names keep their bindings, and it has form, breaks no
/// static rule, and is to other modules what the source is.
pub fn law_used()
    ensures { LawUsed }
{}

/// So it is of a program that stays as it is.
pub fn law_unused()
    ensures { LawUnused }
{}

/// What a program that has form and breaks no static rule becomes as its constructors set their name for `this`, whatever names count as made: names
/// keep their bindings, and it has form, breaks no static rule, and is to other modules what the source is.
pub fn law_set()
    ensures { LawSet }
{}

/// So it is of a program that stays as it is.
pub fn law_unset()
    ensures { LawUnset }
{}
