//! Resolved programs: each name of a program stands for the binding that looking it up outwards finds (ECMA-262, 9.1.2.1). The
//! functions do nothing: their contracts are laws over the definitions.
#![tactic(auto)]

ghost use Rattle.es_resolution.specs.Laws.{LawCalled, LawNamed, LawReferences, LawResolved, LawSingle, LawTable, LawWritten};

/// What is seen of a program with the marks of its scope table is the same for whoever has the table.
pub fn law_table()
    ensures { LawTable }
{}

/// A program that has form is resolved, as it is seen with the marks of its scope table.
pub fn law_resolved()
    ensures { LawResolved }
{}

/// In such a program each symbol is bound by one scope at most.
pub fn law_single()
    ensures { LawSingle }
{}

/// The names and symbols that stand in such a program are in use, where the program's names and the symbols of its scope table are,
/// and it breaks no static rule.
pub fn law_named()
    ensures { LawNamed }
{}

/// A symbol has one name: what has it, declared or referred to, has the name that the scope table has for it.
pub fn law_called()
    ensures { LawCalled }
{}

/// A symbol of the scope table of a program is mutated exactly where an identifier of the program writes it.
pub fn law_written()
    ensures { LawWritten }
{}

/// The reference that an identifier of a program is has the identifier's symbol.
pub fn law_references()
    ensures { LawReferences }
{}
