//! Constant lists of the keys that object rests leave out: which lists they are, what a program becomes in which names stand for them, and what is
//! known of it. The functions do nothing: their contracts are laws over the definitions.
#![tactic(auto)]

ghost use Rattle.es_excluded_keys.specs.Laws.{LawKeysShared, LawNoConstructs, LawSharedSize};

/// A program that has form and breaks no static rule stays so where names stand for its lists of excluded keys; its names keep their bindings, and to
/// other modules it is what it was.
pub fn law_keys_shared()
    ensures { LawKeysShared }
{}

/// No construct that options ask to lower stands in it that stood not there before.
pub fn law_no_constructs()
    ensures { LawNoConstructs }
{}

/// It is at most half as large again.
pub fn law_shared_size()
    ensures { LawSharedSize }
{}
