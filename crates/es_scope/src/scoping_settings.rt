//! The calls that set or move what a scope table has. Those that answer an error do so only for want of memory, or of numbers.
ghost use Rattle.std.specs.Prelude.{◌≡◌, ℕ, ◌<◌, ◌==◌, ◌&&◌, bytes_eq, length, if◌then◌else◌, None, Some, IfOk, OnErr, OnOk, string_bytes, true};
ghost use Rattle.std.specs.List.{list_any};
ghost use Rattle.es_tree.specs.Words.{Text};
ghost use Rattle.es_scope.specs.Bindings.{bound_in};
ghost use Rattle.es_scope.specs.Mutations.{writes};
ghost use Rattle.es_scope.specs.Numbers.{numbers};
ghost use Rattle.es_scope.specs.Outwards.{IsInside, SameShape};
ghost use Rattle.es_scope.specs.TableChanges.{SameNames};
ghost use Rattle.es_scope.specs.TableSettings.{InsertsScope, MovesBinding, MovesScope, SetsReferenceFlags, SetsScopeFlags, SetsSymbolFlags, is_one_of, moved};
ghost use Rattle.es_scope.specs.Tables.{binding_in, called, parent_of, reference_count, scope_count, symbol_count};

use crate::flags::{ReferenceFlags, ScopeFlags, SymbolFlags};
use crate::scoping::{Reference, Scope, Scoping};
use crate::scoping_changes::bind_name;
use es_tree::ids::{ReferenceId, ScopeId, SymbolId};
use std::alloc::{AllocError, Global};
use std::collections::HashMap;

impl Scoping {
    /// Sets the flags of a scope.
    pub fn set_scope_flags(&mut self, scope_id: ScopeId, flags: ScopeFlags)
        requires { scope_id.0 < scope_count self.old }
        ensures { SetsScopeFlags self.old self.new scope_id.0 flags }
    {
        self.scopes[scope_id.0 as usize].flags = flags;
    }

    /// Sets the flags of a symbol.
    pub fn set_symbol_flags(&mut self, symbol_id: SymbolId, flags: SymbolFlags)
        requires { symbol_id.0 < symbol_count self.old }
        ensures { SetsSymbolFlags self.old self.new symbol_id.0 flags }
    {
        self.symbols[symbol_id.0 as usize].flags = flags;
    }

    /// Sets the flags of a reference. Its symbol is mutated then exactly where a reference writes it still; the others are
    /// looked through only where this one no longer writes.
    pub fn set_reference_flags(&mut self, reference_id: ReferenceId, flags: ReferenceFlags)
        requires { reference_id.0 < reference_count self.old }
        ensures { SetsReferenceFlags self.old self.new (Some reference_id.0) flags }
    {
        let index = reference_id.0 as usize;
        let before = self.references[index];
        self.references[index].flags = flags;
        if flags.write == before.flags.write {
            return;
        }
        if let Some(symbol_id) = before.symbol {
            let mutated = is_written(&self.references, symbol_id);
            self.symbols[symbol_id.0 as usize].mutated = mutated;
        }
    }

    /// Puts a scope into another, which doesn't stand in it.
    pub fn change_scope_parent_id(&mut self, scope_id: ScopeId, parent: ScopeId)
        requires scope { scope_id.0 < scope_count self.old }
        requires inner { 0 < scope_id.0 }
        requires parent { parent.0 < scope_count self.old }
        requires outside { IsInside (parent_of self.old) scope_id.0 parent.0 → ⊥ }
        ensures { MovesScope self.old self.new scope_id.0 parent.0 }
    {
        self.scopes[scope_id.0 as usize].parent = Some(parent);
    }

    /// Moves the binding of a symbol from one scope to another, which binds nothing of its name.
    pub fn move_binding_by_symbol_id(
        &mut self,
        from: ScopeId,
        to: ScopeId,
        symbol_id: SymbolId,
    ) -> Result<(), AllocError>
        requires to { to.0 < scope_count self.old }
        requires stands { binding_in self.old from.0 (called self.old symbol_id.0) ≡ Some symbol_id.0 }
        requires free { binding_in self.old to.0 (called self.old symbol_id.0) ≡ None }
        ensures moved { OnOk result (MovesBinding self.old self.new from.0 to.0 symbol_id.0) }
        ensures err { OnErr result (SameNames self.old self.new) }
    {
        let index = symbol_id.0 as usize;
        move_name(
            &mut self.scopes,
            from,
            to,
            &self.symbols[index].name,
            symbol_id,
        )?;
        self.symbols[index].scope = to;
        Ok(())
    }

    /// Adds a scope that binds nothing, and puts these children of its parent into it.
    pub fn insert_scope(
        &mut self,
        alloc: Global,
        parent: ScopeId,
        children: &[ScopeId],
        flags: ScopeFlags,
    ) -> Result<ScopeId, AllocError>
        requires parent { parent.0 < scope_count self.old }
        requires children { (n : ℕ) → is_one_of children.now n ≡ true → parent_of self.old n ≡ Some parent.0 }
        ensures number { IfOk result (λ id. id.0 ≡ scope_count self.old) }
        ensures inserted { OnOk result (InsertsScope self.old self.new parent.0 flags (is_one_of children.now)) }
        ensures err { OnErr result (SameNames self.old self.new) }
    {
        let made = self.add_scope(alloc, parent, flags)?;
        for child in children {
            self.change_scope_parent_id(*child, made);
        }
        Ok(made)
    }
}

/// Whether one of these references writes a symbol.
fn is_written(references: &[Reference], symbol_id: SymbolId) -> bool
    ensures { result ≡ list_any (writes symbol_id.0) references.now }
{
    references
        .iter()
        .any(|reference| writes(*reference, symbol_id))
}

fn writes(reference: Reference, symbol_id: SymbolId) -> bool
    ensures { result ≡ writes symbol_id.0 reference }
{
    match reference.symbol {
        Some(written) => reference.flags.write && written.0 == symbol_id.0,
        None => false,
    }
}

/// Binds a name in one scope no more, and to this symbol in another.
fn move_name(
    scopes: &mut [Scope],
    from: ScopeId,
    to: ScopeId,
    name: &String,
    symbol: SymbolId,
) -> Result<(), AllocError>
    requires from { from.0 < length scopes.old }
    requires to { to.0 < length scopes.old }
    ensures shape { SameShape scopes.old scopes.new }
    ensures moved { OnOk result ((n : ℕ) (x : Text) → bound_in scopes.new n x ≡ moved from.0 to.0 (string_bytes name.now) symbol.0 (bound_in scopes.old) n x) }
    ensures err { OnErr result ((n : ℕ) (x : Text) → bound_in scopes.new n x ≡ bound_in scopes.old n x) }
{
    bind_name(scopes, to, name.clone()?, symbol)?;
    unbind_name(scopes, from, name.as_str());
    Ok(())
}

/// Takes a name out of the scope of this number.
fn unbind_name(scopes: &mut [Scope], scope: ScopeId, name: &str)
    requires { scope.0 < length scopes.old }
    ensures shape { SameShape scopes.old scopes.new }
    ensures unbound { (n : ℕ) (x : Text) → bound_in scopes.new n x ≡ (if n == scope.0 && bytes_eq name.now x then None else bound_in scopes.old n x) }
{
    let scope = &mut scopes[scope.0 as usize];
    unbind(&mut scope.bindings, name);
}

/// Takes a name out.
fn unbind(bindings: &mut HashMap<String, SymbolId>, name: &str)
    ensures { (x : Text) → numbers bindings.new x ≡ (if bytes_eq name.now x then None else numbers bindings.old x) }
{
    bindings.remove(name);
}
