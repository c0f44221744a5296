//! The runs of programs in which object patterns with rests are lowered. The functions do nothing: their contracts are laws over the definitions.
#![tactic(auto)]

ghost use Rattle.es_rest_runs.specs.Laws.{LawLiteralKeys, LawNests, LawNoNameExcluded, LawStores, LawStoresInRow, LawTakes};

/// A program runs as what it becomes where the value of a pattern with a rest is stored in a fresh name, by a step of the rows of object rests at whatever
/// declaration.
pub fn law_stored_rows()
    ensures { LawStores }
{}

/// A valid program of the class that uses no helper itself has no call that leaves out the keys that a name holds.
pub fn law_no_name_excluded()
    ensures { LawNoNameExcluded }
{}

/// A valid program of the class without such a call, whose names are bound and in use, runs as what any number of steps that store values make of it, which
/// is such a program again.
pub fn law_stored_steps()
    ensures { LawStoresInRow }
{}

/// A property whose key is a computed literal, or a template without expressions, leaves out the text that the rows of object rests have of it.
pub fn law_literal_keys()
    ensures { LawLiteralKeys }
{}

/// A program runs as what it becomes where a rest is taken behind the properties of its pattern, or alone, by a step of the rows of object rests at whatever
/// declaration, under External helpers.
pub fn law_taken_rows()
    ensures { LawTakes }
{}

/// A program runs as what it becomes where a pattern in a property of a pattern is declared with what that property gives, by a step of the rows of object
/// rests at whatever declaration.
pub fn law_nested_rows()
    ensures { LawNests }
{}
