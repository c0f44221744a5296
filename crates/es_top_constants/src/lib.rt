//! A `const` statement of fresh names at the top of a program, for lists of texts. The function does nothing: its contract is a law over the
//! definitions.
#![tactic(auto)]

ghost use Rattle.es_top_constants.specs.Laws.{LawConstantsMore};

/// A program that has form, breaks no static rule and whose names are bound stays so where it declares constants of new names for lists of texts; its
/// names keep their bindings, and to other modules it is what it was.
pub fn law_constants_more()
    ensures { LawConstantsMore }
{}
