//! Programs that import their helpers: what such a program is, and what is known of it. The functions do nothing: their contracts are laws over
//! the definitions.
#![tactic(auto)]

ghost use Rattle.es_helper_imports.specs.Laws.{LawImported, LawImportedSize, LawNoConstructs};

/// A program that has form and breaks no static rule stays so where it imports its helpers; its names keep their bindings, and to other modules it is
/// what it was but for what it asks for.
pub fn law_imported()
    ensures { LawImported }
{}

/// No construct that options ask to lower stands in it that stood not there before.
pub fn law_no_constructs()
    ensures { LawNoConstructs }
{}

/// It has at most thirty-six nodes more.
pub fn law_imported_size()
    ensures { LawImportedSize }
{}
