//! What becomes of `using`, in blocks, bodies, loops and switches: what steps write is a program, and to other modules it is the same. The
//! functions do nothing: their contracts are laws over the definitions.
#![tactic(auto)]

ghost use Rattle.es_valid_using.specs.Examples.{LawUsingExamples};
ghost use Rattle.es_valid_using.specs.Laws.{LawUsingForm, LawUsingOutside, LawUsingPlaces, LawUsingReached, LawUsingRules};

/// Whatever steps of the core rules, of optional catch, namespace exports, object spread and `using` are taken, as options ask for them, from
/// a program that has form, at whatever places and in whatever order: with all that is pending written it has form.
pub fn law_using_form()
    ensures { LawUsingForm }
{}

/// What such steps leave of a program that has form and breaks no rule of places breaks none.
pub fn law_using_places()
    ensures { LawUsingPlaces }
{}

/// What such steps leave of a program that has form asks for the same modules and exports the same names.
pub fn law_using_outside()
    ensures { LawUsingOutside }
{}

/// What steps of these rules leave of a program that breaks none of the nineteen static rules, with its names bound and in use, breaks none.
pub fn law_using_rules()
    ensures { LawUsingRules }
{}

/// So it is with what they reach, which has form, and is the same to other modules.
pub fn law_using_reached()
    ensures { LawUsingReached }
{}

/// Programs with `using` in a block, a `try`, a switch and a loop, and what becomes of them, have form and break no static rule; at the top
/// of a script it breaks one.
pub fn law_using_examples()
    ensures { LawUsingExamples }
{}
