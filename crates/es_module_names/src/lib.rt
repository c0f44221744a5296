//! What steps of rules write asks for the same modules and exports the same names. The functions do nothing: their contracts are laws
//! over the definitions.
#![tactic(auto)]

ghost use Rattle.es_module_names.specs.Examples.{LawExamples};
ghost use Rattle.es_module_names.specs.Laws.{LawOutside, LawOutsideBare, LawOutsideReached};

/// Whatever steps of the core rules, optional catch, namespace exports and object spread, and of rests in assignments are taken from a
/// program that has form, at whatever places and in whatever order: with all that is pending written it has the same module requests and
/// exported names.
pub fn law_outside()
    ensures { LawOutside }
{}

/// And so has what they reach.
pub fn law_outside_reached()
    ensures { LawOutsideReached }
{}

/// Programs that differ in ids and marks alone have the same module requests and exported names.
pub fn law_outside_bare()
    ensures { LawOutsideBare }
{}

/// In a module with each kind of import and export these are the module requests and exported names.
pub fn law_examples()
    ensures { LawExamples }
{}
