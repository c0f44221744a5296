//! The static rules of declared names, and all nineteen: what steps of rules write breaks none of them. The functions do nothing: their
//! contracts are laws over the definitions.
#![tactic(auto)]

ghost use Rattle.es_valid_names.specs.Laws.{LawBareDeclared, LawBareNames, LawDeclaredAmong, LawExports, LawFurtherRules, LawFurtherRulesReached, LawNames, LawNamesReached, LawTogether};

/// A program that breaks none of the nineteen static rules breaks none of the three that ask what nodes declare.
pub fn law_declared_among()
    ensures { LawDeclaredAmong }
{}

/// With the sixteen of places these three are all: a program that breaks none of either breaks none.
pub fn law_together()
    ensures { LawTogether }
{}

/// Of two trees that are equal but for ids and marks both break one of the three, or neither.
pub fn law_bare_declared()
    ensures { LawBareDeclared }
{}

/// And so it is with the two of scopes and classes.
pub fn law_bare_names()
    ensures { LawBareNames }
{}

/// Whatever steps of the core rules, of optional catch, namespace exports and object spread, and of rests in assignments are taken, as options ask for
/// them, from a program that has form and breaks none of the three: with all that is pending written no scope and no class declares a name twice where it may not, and
/// what a class has is right.
pub fn law_names()
    ensures { LawNames }
{}

/// And so it is with what they reach.
pub fn law_names_reached()
    ensures { LawNamesReached }
{}

/// And each node keeps what the rule of exports asks of one node: what is exported is declared, and a declaration that is exported stands
/// alone.
pub fn law_exports()
    ensures { LawExports }
{}

/// Whatever steps of these rules are taken from a program that has form and breaks none of the nineteen static rules, with its names bound
/// and in use: with all that is pending written it breaks none.
pub fn law_further_rules()
    ensures { LawFurtherRules }
{}

/// And so it is with what they reach.
pub fn law_further_rules_reached()
    ensures { LawFurtherRulesReached }
{}
