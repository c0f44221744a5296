//! What a visit does to a program between two moments: steps of rules on its parts as steps of the whole. The functions do nothing: their
//! contracts are laws over the definitions.
#![tactic(auto)]

ghost use Rattle.es_changes.specs.Laws.{LawBody, LawExpression, LawField, LawFields, LawLawful, LawProgram, LawStillFits, LawTrees};

/// What has the form of an expression is no body and no import, and declares nothing around it.
pub fn law_expression()
    ensures { LawExpression }
{}

/// A part fits after steps of a lawful rule, where it did before.
pub fn law_still_fits()
    ensures { LawStillFits }
{}

/// What stands in a field of a node fits, and steps there are steps of the node.
pub fn law_fields()
    ensures { LawFields }
{}

/// What stands in a field fits there, and its steps are steps in the field.
pub fn law_field()
    ensures { LawField }
{}

/// The body of an arrow that is an expression fits with a pair of its own, and its steps are steps of the body with what is pending for it.
pub fn law_body()
    ensures { LawBody }
{}

/// The nodes of a list fit, and their steps are steps of the list.
pub fn law_trees()
    ensures { LawTrees }
{}

/// The statements of a program fit, and steps of their list are steps of the program.
pub fn law_program()
    ensures { LawProgram }
{}

/// The rules of the lowerings that options ask for are lawful.
pub fn law_lawful()
    ensures { LawLawful }
{}
