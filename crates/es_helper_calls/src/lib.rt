//! Uses of helpers: which helper a node calls or hands on, what a program becomes in which names stand for them, and whether a program has to
//! import them. The functions do nothing: their contracts are laws over the definitions.
#![tactic(auto)]

ghost use Rattle.es_helper_calls.specs.Laws.{LawCallsKept};

/// Where helpers are called, or handed on, by names that aren't empty, a program that has form, breaks no static rule and whose names are bound has
/// form again and breaks none, asks for the same modules and exports under the same names.
pub fn law_calls_kept()
    ensures { LawCallsKept }
{}
