//! What steps of the lowerings do to the runs of programs without functions, arrows and classes. The functions do nothing: their
//! contracts are laws over the definitions.
#![tactic(auto)]

ghost use Rattle.es_statement_steps.specs.Laws.{LawStatementResult, LawStatementRules};

/// A valid program of the class runs as what steps of the built lowerings reach from it, of whatever operands its expressions are. No tag
/// is a chain, and where spreads and chains are lowered no spread is while a chain stands around it.
pub fn law_statement_rules()
    ensures { LawStatementRules }
{}

/// What is written of such a program runs as the program does.
pub fn law_statement_result()
    ensures { LawStatementResult }
{}
