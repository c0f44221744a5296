//! The scope table of a program: its scopes, symbols and references by their numbers (ECMA-262, 8.2 and 9.1).
//!
//! An id that is handed to a call must belong to the table. No call of the table takes memory.
ghost use Rattle.std.specs.Prelude.{◌≡◌, ◌<◌, IfSome, None, Some, option_map, vec_len};
ghost use Rattle.std.proofs.Props.{props};
ghost use Rattle.es_tree.specs.Heads.{scope, symbol};
ghost use Rattle.es_scope.specs.Bindings.{AreBound};
ghost use Rattle.es_scope.specs.Mutations.{AreReferring, AreWritten};
ghost use Rattle.es_scope.specs.Outwards.{AreOutwards, Ends-prop};
ghost use Rattle.es_scope.specs.PlainReferences.{plain_reference};

use crate::flags::{ReferenceFlags, ScopeFlags, SymbolFlags};
use es_tree::ids::{NodeId, ReferenceId, ScopeId, SymbolId};
use std::collections::HashMap;

/// A place that refers to a name: its node, the symbol of its name where that is declared, and
/// whether it reads and writes.
#[derive(Clone, Copy, PartialEq, Eq, Debug)]
pub struct Reference {
    pub node: NodeId,
    pub symbol: Option<SymbolId>,
    pub flags: ReferenceFlags,
}

/// A scope: the one around it, its flags, and the numbers of the symbols that it binds, by name.
#[derive(Drop)]
pub struct Scope {
    pub parent: Option<ScopeId>,
    pub flags: ScopeFlags,
    pub bindings: HashMap<String, SymbolId>,
}

/// A bound name: the scope in which it is bound, the name, and its flags.
#[derive(Drop)]
pub struct Symbol {
    pub scope: ScopeId,
    pub name: String,
    pub flags: SymbolFlags,
    /// Whether a reference writes it.
    pub mutated: bool,
}

/// The scope table of a program.
#[derive(Drop)]
pub struct Scoping {
    pub(crate) scopes: Vec<Scope>,
    pub(crate) symbols: Vec<Symbol>,
    pub(crate) references: Vec<Reference>,
    ghost outwards: { AreOutwards scopes.items } by { Prim.hlevel (props, Ends-prop) },
    ghost bound: { AreBound scopes.items symbols.items } by { Prim.hlevel props },
    ghost written: { AreWritten symbols.items references.items },
    ghost referring: { AreReferring references.items symbols.items },
    ghost rooted: { 0 < vec_len scopes },
}

impl Scoping {
    ghost use Rattle.es_scope.specs.Tables.{Finds, binding_in, is_mutated, parent_of, reference_at, reference_count, scope_count, scope_flags_of, symbol_count, symbol_flags_of, symbol_name_of, symbol_scope_of};

    /// How many scopes there are; their numbers are those below.
    pub fn scope_count(&self) -> usize
        ensures { result ≡ scope_count self.now }
    {
        self.scopes.len()
    }

    /// How many symbols there are; their numbers are those below.
    pub fn symbol_count(&self) -> usize
        ensures { result ≡ symbol_count self.now }
    {
        self.symbols.len()
    }

    /// How many references there are; their numbers are those below.
    pub fn reference_count(&self) -> usize
        ensures { result ≡ reference_count self.now }
    {
        self.references.len()
    }

    /// The scope of the program.
    pub fn root_scope_id(&self) -> ScopeId
        ensures zero { result.0 ≡ 0 }
        ensures known { result.0 < scope_count self.now }
    {
        ScopeId(0)
    }

    /// The scope around a scope; the program's has none.
    pub fn scope_parent_id(&self, scope_id: ScopeId) -> Option<ScopeId>
        requires { scope_id.0 < scope_count self.now }
        ensures { scope result ≡ parent_of self.now scope_id.0 }
    {
        self.scopes[scope_id.0 as usize].parent
    }

    /// The flags of a scope.
    pub fn scope_flags(&self, scope_id: ScopeId) -> ScopeFlags
        requires { scope_id.0 < scope_count self.now }
        ensures { Some result ≡ scope_flags_of self.now scope_id.0 }
    {
        self.scopes[scope_id.0 as usize].flags
    }

    /// The scope in which a symbol is bound.
    pub fn symbol_scope_id(&self, symbol_id: SymbolId) -> ScopeId
        requires { symbol_id.0 < symbol_count self.now }
        ensures { Some result.0 ≡ symbol_scope_of self.now symbol_id.0 }
    {
        self.symbols[symbol_id.0 as usize].scope
    }

    /// The flags of a symbol.
    pub fn symbol_flags(&self, symbol_id: SymbolId) -> SymbolFlags
        requires { symbol_id.0 < symbol_count self.now }
        ensures { Some result ≡ symbol_flags_of self.now symbol_id.0 }
    {
        self.symbols[symbol_id.0 as usize].flags
    }

    /// The name of a symbol.
    pub fn symbol_name(&self, symbol_id: SymbolId) -> &str
        requires { symbol_id.0 < symbol_count self.now }
        ensures { Some result.now ≡ symbol_name_of self.now symbol_id.0 }
    {
        self.symbols[symbol_id.0 as usize].name.as_str()
    }

    /// The symbol of a name in this scope alone.
    pub fn get_binding(&self, scope_id: ScopeId, name: &str) -> Option<SymbolId>
        requires { scope_id.0 < scope_count self.now }
        ensures binding { symbol result ≡ binding_in self.now scope_id.0 name.now }
        ensures known { IfSome result (λ s. s.0 < symbol_count self.now) }
    {
        let scope = &self.scopes[scope_id.0 as usize];
        scope.bindings.get(name).copied()
    }

    /// The symbol of a name in the first scope, from this one outwards, that binds it.
    pub fn find_binding(&self, scope_id: ScopeId, name: &str) -> Option<SymbolId>
        requires { scope_id.0 < scope_count self.now }
        ensures found { Finds self.now name.now scope_id.0 (symbol result) }
        ensures known { IfSome result (λ s. s.0 < symbol_count self.now) }
    {
        let mut scope_id = scope_id;
        loop {
            if let Some(found) = self.get_binding(scope_id, name) {
                return Some(found);
            }
            scope_id = self.scope_parent_id(scope_id)?;
        }
    }

    /// Whether some reference writes a symbol.
    pub fn symbol_is_mutated(&self, symbol_id: SymbolId) -> bool
        requires { symbol_id.0 < symbol_count self.now }
        ensures { result ≡ is_mutated self.now symbol_id.0 }
    {
        self.symbols[symbol_id.0 as usize].mutated
    }

    /// A reference.
    pub fn reference(&self, reference_id: ReferenceId) -> Reference
        requires { reference_id.0 < reference_count self.now }
        ensures { Some (plain_reference result) ≡ reference_at self.now reference_id.0 }
    {
        self.references[reference_id.0 as usize]
    }
}
