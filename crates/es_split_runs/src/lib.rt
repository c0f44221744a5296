//! The runs of programs in which object patterns are declared in parts, with fresh names. The functions do nothing: their contracts are laws over the
//! definitions.
#![tactic(auto)]

ghost use Rattle.es_split_runs.specs.Laws.{LawKeyed, LawNested, LawStored, LawTaken};

/// A declarator's pattern takes its value from a fresh name that is declared before it, at whatever places of whatever statements, with whatever helpers.
pub fn law_statement_stored()
    ensures { LawStored }
{}

/// A pattern in a property of a declarator's pattern takes its value from a fresh name, before the properties behind it are read, at whatever places of
/// whatever statements, with whatever helpers.
pub fn law_statement_nested()
    ensures { LawNested }
{}

/// A key of a declarator's pattern is read into a fresh name, between the properties before it, as a pattern of their own, and those from it on, at whatever
/// places of whatever statements, with whatever helpers.
pub fn law_statement_keyed()
    ensures { LawKeyed }
{}

/// A rest is taken behind the groups of its pattern's properties, which fresh names begin that hold keys which are read, under External helpers, at whatever
/// places of whatever statements.
pub fn law_statement_taken()
    ensures { LawTaken }
{}
