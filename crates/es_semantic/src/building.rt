//! The scope table of a program, and the marks of the program's tree (ECMA-262, 8.2, 9.1 and 11.2.2). The call is total over
//! every tree.
//!
//! A first walk adds the scopes and the symbols, and a second one the references, since a name may be used before it is
//! declared.
ghost use Rattle.std.specs.Prelude.{◌≡◌, IfOk, OnOk};
ghost use Rattle.std.specs.List.{list_any};
ghost use Rattle.es_tree.specs.Heads.{head_of, label};
ghost use Rattle.es_tree.specs.Marks.{with_scope};
ghost use Rattle.es_tree.specs.Symbols.{has_use_strict, is_module, is_strict, is_use_strict};
ghost use Rattle.es_tree.specs.Tree.{fields_of};
ghost use Rattle.es_tree.specs.declared.ids.NodeId.{NodeId};
ghost use Rattle.es_tree.specs.declared.ids.Span.{Span};
ghost use Rattle.es_semantic.specs.ProgramFlags.{program_flags};
ghost use Rattle.es_semantic.specs.ReferencesOf.{marked_program};
ghost use Rattle.es_semantic.specs.TableOf.{IsTableOf};

use crate::declaring::declare_program;
use crate::referring::refer_program;
use es_scope::flags::ScopeFlags;
use es_scope::scoping::Scoping;
use es_tree::ids::ScopeId;
use es_tree::kind::Kind;
use es_tree::node::{Field, Node};
use es_tree::operators::SourceType;
use std::alloc::{AllocError, Global};

/// The scope table of a program; its tree gets the marks of the table, and keeps all else. Answers an
/// error only for want of memory, or of numbers, and the marks of the tree are then in no stated state.
///
/// The table has the scopes in node order, the program's first, the symbols in the order of first declaration, and the
/// references in node order.
pub fn build_scoping(alloc: Global, program: &mut Node) -> Result<Scoping, AllocError>
    ensures table { IfOk result (IsTableOf program.old) }
    ensures marks { OnOk result (program.new ≡ marked_program program.old) }
{
    let mut scoping = declare_program(alloc, program)?;
    refer_program(&mut scoping, program)?;
    Ok(scoping)
}

/// The flags of the scope of a program.
pub(crate) fn program_flags(program: &Node) -> ScopeFlags
    ensures { result ≡ program_flags program.now }
{
    ScopeFlags {
        function: false,
        arrow: false,
        top: true,
        class_static_block: false,
        catch_clause: false,
        constructor: false,
        derived: false,
        strict: is_strict(program),
    }
}

/// Whether a program is strict: a module, or one with the directive `use strict`.
pub(crate) fn is_strict(program: &Node) -> bool
    ensures { result ≡ is_strict program.now }
{
    is_module(&program.kind) || has_use_strict(program)
}

fn is_module(kind: &Kind) -> bool
    ensures { (id : NodeId) (span : Span) → result ≡ is_module (head_of kind.now).kind (label id span (head_of kind.now)) }
{
    match kind {
        Kind::Program { source_type, .. } => matches!(source_type, SourceType::Module),
        _ => false,
    }
}

/// Whether a directive of a program is `use strict`.
pub(crate) fn has_use_strict(program: &Node) -> bool
    ensures { result ≡ has_use_strict (fields_of program.now) }
{
    match program.fields.first() {
        Some(Field::Many(directives)) => some_use_strict(directives),
        _ => false,
    }
}

fn some_use_strict(directives: &[Node]) -> bool
    ensures { result ≡ list_any is_use_strict directives.now }
{
    directives.iter().any(|directive| is_use_strict(directive))
}

fn is_use_strict(directive: &Node) -> bool
    ensures { result ≡ is_use_strict directive.now }
{
    match &directive.kind {
        Kind::Directive { value } => value.as_str() == "use strict",
        _ => false,
    }
}

/// Marks a program with its scope.
pub(crate) fn mark_scope(program: &mut Node)
    ensures { program.new ≡ with_scope program.old }
{
    match &mut program.kind {
        Kind::Program { scope, .. } => *scope = Some(ScopeId(0)),
        _ => {}
    }
}
