//! Helpers that are called, or handed on, by names which a program declares at its top: names keep their bindings. The function does nothing: its
//! contract is a law over the definitions.
#![tactic(auto)]

ghost use Rattle.es_helper_names.specs.CallNames.{LawCallNames};

/// Where a program declares new names at its top and calls its helpers by them, its other names keep their bindings, and each of the new ones
/// is bound to what looking it up finds.
pub fn law_call_names()
    ensures { LawCallNames }
{}
