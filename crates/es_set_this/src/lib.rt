//! In the constructor of a class that extends another the name for `this` is set behind `super(..)` (ECMA-262, 13.3.7.1): what a program becomes by it. The
//! function does nothing: its contract is a law over the definitions.
#![tactic(auto)]

ghost use Rattle.es_set_this.specs.Examples.{LawSetExamples};

/// A constructor and what becomes of it, one that calls no `super`, one of a class that extends none, and one whose first name wasn't made.
pub fn law_set_examples()
    ensures { LawSetExamples }
{}
