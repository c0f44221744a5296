//! Arrows whose body is an expression get a body of statements: what steps of that rule and of those of object rests write is a program, whose
//! names keep their bindings. The functions do nothing: their contracts are laws over the definitions.
#![tactic(auto)]

ghost use Rattle.es_arrow_bodies.specs.Examples.{LawBodyExamples};
ghost use Rattle.es_arrow_bodies.specs.Laws.{LawBodyBindings, LawBodyBound, LawBodyForm, LawBodyOutside, LawBodyRules};

/// Whatever steps of the rules of object rests of which all is proved, of this one and of the other lowerings' are taken, as options ask for
/// them, from a program that has form, at whatever places and in whatever order: with all that is pending written it has form.
pub fn law_body_form()
    ensures { LawBodyForm }
{}

/// What such steps leave of a program that has form asks for the same modules and exports the same names.
pub fn law_body_outside()
    ensures { LawBodyOutside }
{}

/// And where the program breaks none of the nineteen static rules, and its names are bound and in use, what such steps leave breaks none.
pub fn law_body_rules()
    ensures { LawBodyRules }
{}

/// Where each name of a program is bound to what looking it up finds, each is bound so in what steps of these rules alone reach from it.
pub fn law_body_bound()
    ensures { LawBodyBound }
{}

/// The names of what is reached are those of the source, with the symbols that they had there, and new ones; and each is bound.
pub fn law_body_bindings()
    ensures { LawBodyBindings }
{}

/// An arrow that gets a body, and whose pattern with a rest moves into it then.
pub fn law_body_examples()
    ensures { LawBodyExamples }
{}
