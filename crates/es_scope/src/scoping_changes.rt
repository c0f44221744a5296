//! The calls that add to a scope table. Each answers an error only for want of memory, or of numbers.
ghost use Rattle.std.specs.Prelude.{◌≡◌, ℕ, ◌<◌, ◌==◌, ◌&&◌, bytes_eq, length, if◌then◌else◌, Some, IfOk, OnErr, OnOk, option_map, slice_get, string_bytes};
ghost use Rattle.std.specs.Option.{ForSome};
ghost use Rattle.es_tree.specs.References.{writes_symbol};
ghost use Rattle.es_tree.specs.Words.{Text};
ghost use Rattle.es_scope.specs.Bindings.{bound_in};
ghost use Rattle.es_scope.specs.Mutations.{mutated_by};
ghost use Rattle.es_scope.specs.Numbers.{numbers};
ghost use Rattle.es_scope.specs.Outwards.{SameShape};
ghost use Rattle.es_scope.specs.PlainReferences.{plain_reference};
ghost use Rattle.es_scope.specs.TableChanges.{HasBindingMore, HasReferenceMore, HasScopeMore, IsRootAlone, SameNames};
ghost use Rattle.es_scope.specs.Tables.{reference_count, scope_count, symbol_count};

use crate::flags::{ScopeFlags, SymbolFlags};
use crate::scoping::{Reference, Scope, Scoping, Symbol};
use es_tree::ids::{ReferenceId, ScopeId, SymbolId};
use std::alloc::{AllocError, Global};
use std::collections::HashMap;

impl Scoping {
    /// The table of one scope, that of a program, which binds nothing.
    pub fn with_root(alloc: Global, flags: ScopeFlags) -> Result<Scoping, AllocError>
        ensures { IfOk result (IsRootAlone flags) }
    {
        let root = Scope {
            parent: None,
            flags,
            bindings: HashMap::new(alloc),
        };
        let scopes = Vec::from_array(alloc, [root])?;
        Ok(Scoping {
            scopes,
            symbols: Vec::new(alloc),
            references: Vec::new(alloc),
        })
    }

    /// Adds a scope that binds nothing.
    pub fn add_scope(
        &mut self,
        alloc: Global,
        parent: ScopeId,
        flags: ScopeFlags,
    ) -> Result<ScopeId, AllocError>
        requires { parent.0 < scope_count self.old }
        ensures number { IfOk result (λ id. id.0 ≡ scope_count self.old) }
        ensures added { OnOk result (HasScopeMore self.old self.new parent.0 flags) }
        ensures err { OnErr result (SameNames self.old self.new) }
    {
        let Ok(number) = u32::try_from(self.scopes.len()) else {
            // The numbers of scopes have passed their end.
            return Err(AllocError);
        };
        self.scopes.push(Scope {
            parent: Some(parent),
            flags,
            bindings: HashMap::new(alloc),
        })?;
        Ok(ScopeId(number))
    }

    /// Adds a symbol, and binds it to this name in this scope.
    pub fn add_binding(
        &mut self,
        scope: ScopeId,
        name: String,
        flags: SymbolFlags,
    ) -> Result<SymbolId, AllocError>
        requires { scope.0 < scope_count self.old }
        ensures number { IfOk result (λ id. id.0 ≡ symbol_count self.old) }
        ensures added { OnOk result (HasBindingMore self.old self.new scope.0 (string_bytes name) flags) }
        ensures err { OnErr result (SameNames self.old self.new) }
    {
        let Ok(number) = u32::try_from(self.symbols.len()) else {
            // The numbers of symbols have passed their end.
            return Err(AllocError);
        };
        let key = name.clone()?;
        self.symbols.push(Symbol {
            scope,
            name,
            flags,
            mutated: false,
        })?;
        bind_name(&mut self.scopes, scope, key, SymbolId(number))?;
        Ok(SymbolId(number))
    }

    /// Adds a reference. One that writes makes its symbol mutated.
    pub fn add_reference(&mut self, reference: Reference) -> Result<ReferenceId, AllocError>
        requires { ForSome reference.symbol (λ s. s.0 < symbol_count self.old) }
        ensures number { IfOk result (λ id. id.0 ≡ reference_count self.old) }
        ensures added { OnOk result (HasReferenceMore self.old self.new (plain_reference reference)) }
        ensures err { OnErr result (SameNames self.old self.new) }
    {
        let Ok(number) = u32::try_from(self.references.len()) else {
            // The numbers of references have passed their end.
            return Err(AllocError);
        };
        self.references.push(reference)?;
        mutate(&mut self.symbols, reference);
        Ok(ReferenceId(number))
    }
}

/// Binds a name in the scope of this number.
pub(crate) fn bind_name(
    scopes: &mut [Scope],
    scope: ScopeId,
    name: String,
    symbol: SymbolId,
) -> Result<(), AllocError>
    requires { scope.0 < length scopes.old }
    ensures shape { SameShape scopes.old scopes.new }
    ensures bound { OnOk result ((n : ℕ) (x : Text) → bound_in scopes.new n x ≡ (if n == scope.0 && bytes_eq (string_bytes name) x then Some symbol.0 else bound_in scopes.old n x)) }
    ensures err { OnErr result ((n : ℕ) (x : Text) → bound_in scopes.new n x ≡ bound_in scopes.old n x) }
{
    let scope = &mut scopes[scope.0 as usize];
    bind(&mut scope.bindings, name, symbol)?;
    Ok(())
}

/// Binds a name.
fn bind(
    bindings: &mut HashMap<String, SymbolId>,
    name: String,
    symbol: SymbolId,
) -> Result<(), AllocError>
    ensures bound { OnOk result ((x : Text) → numbers bindings.new x ≡ (if bytes_eq (string_bytes name) x then Some symbol.0 else numbers bindings.old x)) }
    ensures err { OnErr result ((x : Text) → numbers bindings.new x ≡ numbers bindings.old x) }
{
    bindings.insert(name, symbol)?;
    Ok(())
}

/// Notes the symbol that a reference writes, if it writes one.
fn mutate(symbols: &mut [Symbol], reference: Reference)
    ensures { (n : ℕ) → slice_get symbols.new n ≡ option_map (mutated_by (writes_symbol n (plain_reference reference))) (slice_get symbols.old n) }
{
    if !reference.flags.write {
        return;
    }
    if let Some(symbol_id) = reference.symbol {
        let index = symbol_id.0 as usize;
        if index < symbols.len() {
            symbols[index].mutated = true;
        }
    }
}
