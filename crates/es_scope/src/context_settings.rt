//! What a context sets and moves in its scope table, and what it says of symbols.
ghost use Rattle.std.specs.Prelude.{◌≡◌, ◌<◌, ◌&&◌, [], ◌∷◌, IfOk, IfSome, None, OnOk, Some, not};
ghost use Rattle.es_tree.specs.Heads.{symbol};
ghost use Rattle.es_tree.specs.Tree.{trees};
ghost use Rattle.es_scope.specs.ContextSymbols.{FindsAt, called_of, steady_symbols_of};
ghost use Rattle.es_scope.specs.Contexts.{KeepsBesideTable, scope_at, table_of};
ghost use Rattle.es_scope.specs.OuterScopes.{outer_in_trees, outer_scopes};
ghost use Rattle.es_scope.specs.Outwards.{IsInside};
ghost use Rattle.es_scope.specs.TableSettings.{InsertsScope, MovesBinding, MovesScope, SetsReferenceFlags, SetsScopeFlags, SetsSymbolFlags, has_number, is_one_of};
ghost use Rattle.es_scope.specs.Tables.{binding_in, called, parent_of, reference_count, scope_count, symbol_count};

use crate::context::TraverseCtx;
use crate::flags::{ReferenceFlags, ScopeFlags, SymbolFlags};
use crate::outer_scopes::{outer_scopes, outer_scopes_in};
use es_tree::ids::{ReferenceId, ScopeId, SymbolId};
use es_tree::node::Node;
use std::alloc::AllocError;

impl<S> TraverseCtx<S> {
    /// The symbol that a name finds from the scope of the place, outwards.
    pub fn find_binding(&self, name: &str) -> Option<SymbolId>
        ensures found { FindsAt self.now name.now (symbol result) }
        ensures known { IfSome result (λ s. s.0 < symbol_count (table_of self.now)) }
    {
        self.scoping.find_binding(self.current_scope_id(), name)
    }

    /// Whether no reference writes a symbol.
    pub fn symbol_is_steady(&self, symbol_id: SymbolId) -> bool
        requires { symbol_id.0 < symbol_count (table_of self.now) }
        ensures { result ≡ steady_symbols_of self.now symbol_id.0 }
    {
        !self.scoping.symbol_is_mutated(symbol_id)
    }

    /// The name of a symbol.
    pub fn symbol_name(&self, symbol_id: SymbolId) -> &str
        requires { symbol_id.0 < symbol_count (table_of self.now) }
        ensures { result.now ≡ called_of self.now symbol_id.0 }
    {
        self.scoping.symbol_name(symbol_id)
    }

    /// Sets the flags of a scope.
    pub fn set_scope_flags(&mut self, scope_id: ScopeId, flags: ScopeFlags)
        requires { scope_id.0 < scope_count (table_of self.old) }
        ensures table { SetsScopeFlags (table_of self.old) (table_of self.new) scope_id.0 flags }
        ensures kept { KeepsBesideTable self.old self.new }
    {
        self.scoping.set_scope_flags(scope_id, flags);
    }

    /// Sets the flags of a symbol.
    pub fn set_symbol_flags(&mut self, symbol_id: SymbolId, flags: SymbolFlags)
        requires { symbol_id.0 < symbol_count (table_of self.old) }
        ensures table { SetsSymbolFlags (table_of self.old) (table_of self.new) symbol_id.0 flags }
        ensures kept { KeepsBesideTable self.old self.new }
    {
        self.scoping.set_symbol_flags(symbol_id, flags);
    }

    /// Sets the flags of a reference, as of one that is moved to another place.
    pub fn set_reference_flags(&mut self, reference_id: ReferenceId, flags: ReferenceFlags)
        requires { reference_id.0 < reference_count (table_of self.old) }
        ensures table { SetsReferenceFlags (table_of self.old) (table_of self.new) (Some reference_id.0) flags }
        ensures kept { KeepsBesideTable self.old self.new }
    {
        self.scoping.set_reference_flags(reference_id, flags);
    }

    /// Puts a scope into another, which doesn't stand in it.
    pub fn change_scope_parent_id(&mut self, scope_id: ScopeId, parent: ScopeId)
        requires scope { scope_id.0 < scope_count (table_of self.old) }
        requires inner { 0 < scope_id.0 }
        requires parent { parent.0 < scope_count (table_of self.old) }
        requires outside { IsInside (parent_of (table_of self.old)) scope_id.0 parent.0 → ⊥ }
        ensures table { MovesScope (table_of self.old) (table_of self.new) scope_id.0 parent.0 }
        ensures kept { KeepsBesideTable self.old self.new }
    {
        self.scoping.change_scope_parent_id(scope_id, parent);
    }

    /// Moves the binding of a symbol from one scope to another, which binds nothing of its name.
    pub fn move_binding_by_symbol_id(
        &mut self,
        from: ScopeId,
        to: ScopeId,
        symbol_id: SymbolId,
    ) -> Result<(), AllocError>
        requires to { to.0 < scope_count (table_of self.old) }
        requires stands { binding_in (table_of self.old) from.0 (called (table_of self.old) symbol_id.0) ≡ Some symbol_id.0 }
        requires free { binding_in (table_of self.old) to.0 (called (table_of self.old) symbol_id.0) ≡ None }
        ensures table { OnOk result (MovesBinding (table_of self.old) (table_of self.new) from.0 to.0 symbol_id.0) }
        ensures kept { OnOk result (KeepsBesideTable self.old self.new) }
    {
        self.scoping.move_binding_by_symbol_id(from, to, symbol_id)?;
        Ok(())
    }

    /// A new scope between a scope and its parent.
    pub fn insert_scope_between(
        &mut self,
        parent: ScopeId,
        child: ScopeId,
        flags: ScopeFlags,
    ) -> Result<ScopeId, AllocError>
        requires { parent_of (table_of self.old) child.0 ≡ Some parent.0 }
        ensures number { IfOk result (λ id. id.0 ≡ scope_count (table_of self.old)) }
        ensures table { OnOk result (InsertsScope (table_of self.old) (table_of self.new) parent.0 flags (is_one_of (child ∷ []))) }
        ensures kept { OnOk result (KeepsBesideTable self.old self.new) }
    {
        let alloc = self.ast.alloc;
        let made = self.scoping.insert_scope(alloc, parent, &[child], flags)?;
        Ok(made)
    }

    /// A new scope in that of the place, which takes the outermost scopes in these statements.
    pub fn insert_scope_below_statements(
        &mut self,
        statements: &[Node],
        flags: ScopeFlags,
    ) -> Result<ScopeId, AllocError>
        ensures number { IfOk result (λ id. id.0 ≡ scope_count (table_of self.old)) }
        ensures table { OnOk result (InsertsScope (table_of self.old) (table_of self.new) (scope_at self.old) flags (has_number (outer_in_trees (table_of self.old) (scope_at self.old) (trees statements.now)))) }
        ensures kept { OnOk result (KeepsBesideTable self.old self.new) }
    {
        let alloc = self.ast.alloc;
        let parent = self.current_scope_id();
        let moved = outer_scopes(alloc, &self.scoping, parent, statements)?;
        let made = self.scoping.insert_scope(alloc, parent, &moved, flags)?;
        Ok(made)
    }

    /// A new scope in this one, which takes the outermost scopes in a statement or an expression that stand in this one.
    pub fn insert_scope_below_node(
        &mut self,
        parent: ScopeId,
        node: &Node,
        flags: ScopeFlags,
    ) -> Result<ScopeId, AllocError>
        requires { parent.0 < scope_count (table_of self.old) }
        ensures number { IfOk result (λ id. id.0 ≡ scope_count (table_of self.old)) }
        ensures table { OnOk result (InsertsScope (table_of self.old) (table_of self.new) parent.0 flags (has_number (outer_scopes (table_of self.old) parent.0 node.now))) }
        ensures kept { OnOk result (KeepsBesideTable self.old self.new) }
    {
        let alloc = self.ast.alloc;
        let moved = outer_scopes_in(alloc, &self.scoping, parent, node)?;
        let made = self.scoping.insert_scope(alloc, parent, &moved, flags)?;
        Ok(made)
    }
}
