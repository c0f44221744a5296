//! Statements at the top of a program that import what it needs: an import in a module, a `require` in a script. The function does nothing: its
//! contract is a law over the definitions.
#![tactic(auto)]

ghost use Rattle.es_top_imports.specs.Laws.{LawImportsMore};

/// A program that has form, breaks no static rule and whose names are bound stays so where it imports more under names that are new; its names keep
/// their bindings, and to other modules it is what it was but for what it asks for.
pub fn law_imports_more()
    ensures { LawImportsMore }
{}
