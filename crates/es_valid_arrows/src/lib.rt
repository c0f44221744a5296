//! Arrows that become functions, and the `this` in them: what steps write is a program, and to other modules it is the same. The functions
//! do nothing: their contracts are laws over the definitions.
#![tactic(auto)]

ghost use Rattle.es_valid_arrows.specs.Examples.{LawArrowExamples};
ghost use Rattle.es_valid_arrows.specs.Laws.{LawArrowForm, LawArrowOutside, LawArrowPlaces, LawArrowRules, LawArrowsFit, LawArrowsReached, LawBareFits, LawThisFits};

/// Whatever steps of the core rules, of optional catch, namespace exports, object spread and arrows are taken, as options ask for them, from
/// a program that has form, at whatever places and in whatever order: with all that is pending written it has form.
pub fn law_arrow_form()
    ensures { LawArrowForm }
{}

/// Where each arrow of a program can become a function, each of what such steps leave still can.
pub fn law_arrows_fit()
    ensures { LawArrowsFit }
{}

/// What such steps leave of a program that has form asks for the same modules and exports the same names.
pub fn law_arrow_outside()
    ensures { LawArrowOutside }
{}

/// Where each arrow of a program that breaks no rule of places can become a function, what such steps leave breaks none.
pub fn law_arrow_places()
    ensures { LawArrowPlaces }
{}

/// Where each arrow of a program that breaks none of the nineteen static rules can become a function, and its names are bound and in use,
/// what such steps leave breaks none.
pub fn law_arrow_rules()
    ensures { LawArrowRules }
{}

/// So it is with what they reach, which has form, and is the same to other modules.
pub fn law_arrows_reached()
    ensures { LawArrowsReached }
{}

/// Of two programs that are equal but for ids and marks the arrows of both can become functions, or of neither.
pub fn law_bare_fits()
    ensures { LawBareFits }
{}

/// Where each arrow of a program that breaks no rule of places can become a function, each `this` that belongs to one is read, and reaches
/// the list where a name for it can be declared.
pub fn law_this_fits()
    ensures { LawThisFits }
{}

/// Programs with an arrow that can become a function, and with one that can't, since a rule is broken where it does.
pub fn law_arrow_examples()
    ensures { LawArrowExamples }
{}
