//! A law over the definitions: the function does nothing, and its contract is the law.
ghost use Rattle.es_semantic.specs.DeclaredAlike.{LawDeclared};

/// In a program of the tree form an identifier is declared by its role exactly where the static rules have a name for it, but
/// for the name of a function or class expression.
pub fn law_declared()
    ensures { LawDeclared }
{}
