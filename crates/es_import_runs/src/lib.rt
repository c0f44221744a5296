//! The runs of programs that import or require their helpers. The functions do nothing: their contracts are laws over the definitions.
#![tactic(auto)]

ghost use Rattle.es_import_runs.specs.Laws.{LawImportedProgram, LawImportingProgram, LawImportingResult};

/// A program that calls the helper of object spread runs, importing or requiring it, as it runs with the helper as a member of `babelHelpers`.
pub fn law_importing_program()
    ensures { LawImportingProgram }
{}

/// So does what a source becomes that uses no helper itself: it runs as the source, with helpers imported or required.
pub fn law_imported_program()
    ensures { LawImportedProgram }
{}

/// And what the lowerings make of a program runs as it does, with its helpers imported or required.
pub fn law_importing_result()
    ensures { LawImportingResult }
{}
