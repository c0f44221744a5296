//! The laws of programs that are taken. The functions do nothing: their contracts are laws over the definitions.
ghost use Rattle.es_unsupported.specs.Examples.{LawShapeExamples};
ghost use Rattle.es_unsupported.specs.Laws.{LawArrowsTaken, LawBuilt, LawHelpersFree, LawStraysTaken};

/// Where arrows are to become functions, each arrow of a program that is taken can.
pub fn law_arrows_taken()
    ensures { LawArrowsTaken }
{}

/// In a program that is taken no construct stands that no lowering takes.
pub fn law_built()
    ensures { LawBuilt }
{}

/// Where object rests are taken, none stands in a program that has form and is taken where it isn't lowered.
pub fn law_strays_taken()
    ensures { LawStraysTaken }
{}

/// And where one is declared there, the program binds no `babelHelpers`.
pub fn law_helpers_free()
    ensures { LawHelpersFree }
{}

/// What is found in programs with arrows, classes, parameters and rests.
pub fn law_shape_examples()
    ensures { LawShapeExamples }
{}
