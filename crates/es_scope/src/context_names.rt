//! Fresh names and new bindings, by a context.
ghost use Rattle.std.specs.Prelude.{◌≡◌, ◌<◌, IfOk, OnOk, string_bytes, true};
ghost use Rattle.es_tree.specs.Fresh.{IsFreshName, is_among, node_base, text_base};
ghost use Rattle.es_scope.specs.Contexts.{AddsScope, Binds, BindsHoisted, KeepsNames, MakesName, TakesName, made_of, table_of, uses_of};
ghost use Rattle.es_scope.specs.Tables.{scope_count, symbol_count};

use crate::context::TraverseCtx;
use crate::flags::{ScopeFlags, SymbolFlags};
use es_tree::ids::{ScopeId, SymbolId};
use es_tree::node::Node;
use std::alloc::AllocError;

/// A name, and the symbol that it is bound to.
#[derive(Debug, Drop)]
pub struct BoundIdentifier {
    pub name: String,
    pub symbol_id: SymbolId,
}

/// A name, and the symbol that it is bound to, if it is bound.
#[derive(Debug, Drop)]
pub struct MaybeBoundIdentifier {
    pub name: String,
    pub symbol_id: Option<SymbolId>,
}

/// The flags of what `var` declares.
const FUNCTION_SCOPED: SymbolFlags = SymbolFlags {
    function_scoped: true,
    block_scoped: false,
    constant: false,
    import: false,
    catch_variable: false,
    class: false,
};

impl<S> TraverseCtx<S> {
    /// A fresh name of the base that this text gives, bound in this scope.
    pub fn generate_uid(
        &mut self,
        base: &str,
        scope: ScopeId,
        flags: SymbolFlags,
    ) -> Result<BoundIdentifier, AllocError>
        requires { scope.0 < scope_count (table_of self.old) }
        ensures fresh { IfOk result (λ b. IsFreshName (uses_of self.old) (text_base base.now) (string_bytes b.name)) }
        ensures made { IfOk result (λ b. MakesName self.old self.new (string_bytes b.name)) }
        ensures bound { IfOk result (λ b. Binds self.old self.new scope.0 (string_bytes b.name) flags) }
        ensures symbol { IfOk result (λ b. b.symbol_id.0 ≡ symbol_count (table_of self.old)) }
        ensures state { self.new.state ≡ self.old.state }
    {
        let name = self.uids.generate_from_text(base)?;
        let bound = self.bind(name, scope, flags)?;
        Ok(bound)
    }

    /// A fresh name of the base that this node gives, bound in this scope.
    pub fn generate_uid_based_on_node(
        &mut self,
        node: &Node,
        scope: ScopeId,
        flags: SymbolFlags,
    ) -> Result<BoundIdentifier, AllocError>
        requires { scope.0 < scope_count (table_of self.old) }
        ensures fresh { IfOk result (λ b. IsFreshName (uses_of self.old) (node_base node.now) (string_bytes b.name)) }
        ensures made { IfOk result (λ b. MakesName self.old self.new (string_bytes b.name)) }
        ensures bound { IfOk result (λ b. Binds self.old self.new scope.0 (string_bytes b.name) flags) }
        ensures symbol { IfOk result (λ b. b.symbol_id.0 ≡ symbol_count (table_of self.old)) }
        ensures state { self.new.state ≡ self.old.state }
    {
        let name = self.uids.generate_from_node(node)?;
        let bound = self.bind(name, scope, flags)?;
        Ok(bound)
    }

    /// A fresh name of the base that this text gives, bound where `var` declares here.
    pub fn generate_uid_in_current_hoist_scope(
        &mut self,
        base: &str,
    ) -> Result<BoundIdentifier, AllocError>
        ensures fresh { IfOk result (λ b. IsFreshName (uses_of self.old) (text_base base.now) (string_bytes b.name)) }
        ensures made { IfOk result (λ b. MakesName self.old self.new (string_bytes b.name)) }
        ensures bound { IfOk result (λ b. BindsHoisted self.old self.new (string_bytes b.name)) }
        ensures symbol { IfOk result (λ b. b.symbol_id.0 ≡ symbol_count (table_of self.old)) }
        ensures state { self.new.state ≡ self.old.state }
    {
        let scope = self.current_hoist_scope_id();
        let bound = self.generate_uid(base, scope, FUNCTION_SCOPED)?;
        Ok(bound)
    }

    /// A fresh name of the base that this node gives, bound where `var` declares here.
    pub fn generate_uid_in_current_hoist_scope_based_on_node(
        &mut self,
        node: &Node,
    ) -> Result<BoundIdentifier, AllocError>
        ensures fresh { IfOk result (λ b. IsFreshName (uses_of self.old) (node_base node.now) (string_bytes b.name)) }
        ensures made { IfOk result (λ b. MakesName self.old self.new (string_bytes b.name)) }
        ensures bound { IfOk result (λ b. BindsHoisted self.old self.new (string_bytes b.name)) }
        ensures symbol { IfOk result (λ b. b.symbol_id.0 ≡ symbol_count (table_of self.old)) }
        ensures state { self.new.state ≡ self.old.state }
    {
        let scope = self.current_hoist_scope_id();
        let bound = self.generate_uid_based_on_node(node, scope, FUNCTION_SCOPED)?;
        Ok(bound)
    }

    /// A fresh name of the base that this text gives, bound in the program's scope.
    pub fn generate_uid_in_root_scope(
        &mut self,
        base: &str,
        flags: SymbolFlags,
    ) -> Result<BoundIdentifier, AllocError>
        ensures fresh { IfOk result (λ b. IsFreshName (uses_of self.old) (text_base base.now) (string_bytes b.name)) }
        ensures made { IfOk result (λ b. MakesName self.old self.new (string_bytes b.name)) }
        ensures bound { IfOk result (λ b. Binds self.old self.new 0 (string_bytes b.name) flags) }
        ensures symbol { IfOk result (λ b. b.symbol_id.0 ≡ symbol_count (table_of self.old)) }
        ensures state { self.new.state ≡ self.old.state }
    {
        let scope = self.scoping().root_scope_id();
        let bound = self.generate_uid(base, scope, flags)?;
        Ok(bound)
    }

    /// Whether this name is a fresh one.
    pub fn is_fresh_name(&self, name: &str) -> bool
        ensures { result ≡ is_among (made_of self.now) name.now }
    {
        self.uids.has_made(name)
    }

    /// This name itself, bound in this scope and in use from then on. It counts as no fresh name.
    pub fn generate_binding(
        &mut self,
        name: &str,
        scope: ScopeId,
        flags: SymbolFlags,
    ) -> Result<BoundIdentifier, AllocError>
        requires { scope.0 < scope_count (table_of self.old) }
        ensures name { IfOk result (λ b. string_bytes b.name ≡ name.now) }
        ensures taken { OnOk result (TakesName self.old self.new name.now) }
        ensures bound { OnOk result (Binds self.old self.new scope.0 name.now flags) }
        ensures symbol { IfOk result (λ b. b.symbol_id.0 ≡ symbol_count (table_of self.old)) }
        ensures state { self.new.state ≡ self.old.state }
    {
        let alloc = self.ast.alloc;
        self.uids.use_name(name)?;
        let bound = self.bind(String::from_str(alloc, name)?, scope, flags)?;
        Ok(bound)
    }

    /// A new scope in this one.
    pub fn create_child_scope(
        &mut self,
        parent: ScopeId,
        flags: ScopeFlags,
    ) -> Result<ScopeId, AllocError>
        requires { parent.0 < scope_count (table_of self.old) }
        ensures number { IfOk result (λ id. id.0 ≡ scope_count (table_of self.old)) }
        ensures added { OnOk result (AddsScope self.old self.new parent.0 flags) }
    {
        let alloc = self.ast.alloc;
        let scope = self.scoping.add_scope(alloc, parent, flags)?;
        Ok(scope)
    }

    /// Binds a name that is in use.
    fn bind(
        &mut self,
        name: String,
        scope: ScopeId,
        flags: SymbolFlags,
    ) -> Result<BoundIdentifier, AllocError>
        requires scope { scope.0 < scope_count (table_of self.old) }
        requires in_use { uses_of self.old (string_bytes name) ≡ true }
        ensures name { IfOk result (λ b. b.name ≡ name) }
        ensures symbol { IfOk result (λ b. b.symbol_id.0 ≡ symbol_count (table_of self.old)) }
        ensures bound { OnOk result (Binds self.old self.new scope.0 (string_bytes name) flags) }
        ensures names { KeepsNames self.old self.new }
        ensures state { self.new.state ≡ self.old.state }
    {
        let key = String::from_str(self.ast.alloc, name.as_str())?;
        let symbol_id = self.scoping.add_binding(scope, key, flags)?;
        Ok(BoundIdentifier { name, symbol_id })
    }
}
