//! In the constructor of a class that extends another the name for `this` is set behind `super(..)` (ECMA-262, 13.3.7.1): what a program becomes by it,
//! that steps of one row reach it, and what they keep. The functions do nothing: their contracts are laws over the definitions.
#![tactic(auto)]

ghost use Rattle.es_constructor_this.specs.Laws.{LawSetBindings, LawSetBound, LawSetForm, LawSetNone, LawSetOutside, LawSetRules, LawSetSize, LawSetStays, LawSetSteps};

/// Whatever steps of the row and of the other lowerings' rules are taken, as options ask for them, from a program that has form, at whatever places and
/// in whatever order: with all that is pending written it has form.
pub fn law_set_form()
    ensures { LawSetForm }
{}

/// What such steps leave of a program that has form asks for the same modules and exports the same names.
pub fn law_set_outside()
    ensures { LawSetOutside }
{}

/// And where the program breaks none of the nineteen static rules, and its names are bound and in use, what such steps leave breaks none.
pub fn law_set_rules()
    ensures { LawSetRules }
{}

/// Where each name of a program is bound to what looking it up finds, each is bound so in what steps of the row alone reach from it.
pub fn law_set_bound()
    ensures { LawSetBound }
{}

/// The names of what is reached are those of the source, with the symbols that they had there; and each is bound.
pub fn law_set_bindings()
    ensures { LawSetBindings }
{}

/// What a program that has form and breaks no static rule becomes is reached by steps of the row, with no name made.
pub fn law_set_steps()
    ensures { LawSetSteps }
{}

/// A tree becomes at most twice as large.
pub fn law_set_size()
    ensures { LawSetSize }
{}

/// A program without constructs that options ask to lower has none afterwards.
pub fn law_set_none()
    ensures { LawSetNone }
{}

/// Where no name was made a tree stays as it is.
pub fn law_set_stays()
    ensures { LawSetStays }
{}
