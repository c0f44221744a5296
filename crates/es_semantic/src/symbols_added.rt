//! The symbols that declarations add to a table (ECMA-262, 8.2 and 9.1).
//!
//! Each call answers an error only for want of memory, or of numbers.
ghost use Rattle.std.specs.Prelude.{◌≡◌, ◌<◌, List, OnOk};
ghost use Rattle.es_scope.specs.Tables.{scope_count};
ghost use Rattle.es_semantic.specs.ScopesOf.{ScopeRow};
ghost use Rattle.es_semantic.specs.SymbolsOf.{Declared, is_block_scoped, is_function_scoped, symbol_flags, with_symbol};
ghost use Rattle.es_semantic.specs.Walks.{Holds};

use crate::place::Binding;
use es_scope::flags::SymbolFlags;
use es_scope::scoping::Scoping;
use es_tree::ids::ScopeId;
use std::alloc::{AllocError, Global};

/// Declares a name in this scope, unless it is bound there already.
pub(crate) fn declare_name(
    scoping: &mut Scoping,
    alloc: Global,
    scope: ScopeId,
    name: &str,
    binding: Binding,
) -> Result<(), AllocError>
    requires known { scope.0 < scope_count scoping.old }
    ensures kept { OnOk result (scope_count scoping.new ≡ scope_count scoping.old) }
    ensures declared { OnOk result ((rows : List ScopeRow) (ds : List Declared) → Holds rows ds scoping.old → Holds rows (with_symbol ds scope.0 name.now binding) scoping.new) }
{
    if scoping.get_binding(scope, name).is_some() {
        return Ok(());
    }
    let name = String::from_str(alloc, name)?;
    scoping.add_binding(scope, name, symbol_flags(binding))?;
    Ok(())
}

/// The flags of a symbol that is declared so.
fn symbol_flags(binding: Binding) -> SymbolFlags
    ensures { result ≡ symbol_flags binding }
{
    SymbolFlags {
        function_scoped: is_function_scoped(binding),
        block_scoped: is_block_scoped(binding),
        constant: matches!(binding, Binding::Constant),
        import: matches!(binding, Binding::Import),
        catch_variable: matches!(binding, Binding::CatchParameter),
        class: matches!(binding, Binding::Class),
    }
}

/// Whether the symbol has the scope of a function or a body (ECMA-262, 8.2.6).
fn is_function_scoped(binding: Binding) -> bool
    ensures { result ≡ is_function_scoped binding }
{
    matches!(
        binding,
        Binding::Variable
            | Binding::TopFunction
            | Binding::Parameter
            | Binding::CatchParameter
            | Binding::FunctionName
    )
}

/// Whether the symbol has the scope of a block (ECMA-262, 14.3.1).
fn is_block_scoped(binding: Binding) -> bool
    ensures { result ≡ is_block_scoped binding }
{
    matches!(
        binding,
        Binding::Let | Binding::Constant | Binding::BlockFunction
    )
}
