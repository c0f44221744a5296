//! What steps of the lowerings leave as it is at the top of a program. The functions do nothing: their contracts are laws over the definitions.
#![tactic(auto)]

ghost use Rattle.es_top_names.specs.TopNames.{LawRequireFree, LawSameSort};

/// What the lowerings make of a module is a module, and of a script a script.
pub fn law_same_sort()
    ensures { LawSameSort }
{}

/// Where a script's own scope binds no `require`, nor does that of what they make of it.
pub fn law_require_free()
    ensures { LawRequireFree }
{}
