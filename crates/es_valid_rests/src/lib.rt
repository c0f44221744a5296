//! Object rests: what steps of their rules write is a program. The functions do nothing: their contracts are laws over the definitions.
#![tactic(auto)]

ghost use Rattle.es_valid_rests.specs.ExportExamples.{LawExportedRest};
ghost use Rattle.es_valid_rests.specs.Examples.{LawRestExamples};
ghost use Rattle.es_valid_rests.specs.Laws.{LawRestForm, LawRestOutside, LawRestPlaces, LawRestRules};

/// Whatever steps of the core rules, of optional catch, namespace exports, object spread and object rests are taken, as options ask for
/// them, from a program that has form, at whatever places and in whatever order: with all that is pending written it has form.
pub fn law_rest_form()
    ensures { LawRestForm }
{}

/// Where the program breaks no rule of places, what such steps leave breaks none.
pub fn law_rest_places()
    ensures { LawRestPlaces }
{}

/// Where no exported declaration splits, what such steps leave of a program that has form asks for the same modules and exports the same
/// names.
pub fn law_rest_outside()
    ensures { LawRestOutside }
{}

/// And where the program breaks none of the nineteen static rules, and its names are bound and in use, what such steps leave breaks none.
pub fn law_rest_rules()
    ensures { LawRestRules }
{}

/// A catch clause and a function whose patterns move, a rest that stands alone, one beside a computed key, and, of the rule as it stands, a
/// step that a tool has to refuse, since it leaves no program.
pub fn law_rest_examples()
    ensures { LawRestExamples }
{}

/// And one in an exported declaration: the temporary is exported, too, and a module that exports another name so breaks a rule.
pub fn law_exported_rest()
    ensures { LawExportedRest }
{}
