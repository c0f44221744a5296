//! What the visit of a tree hands to every hook: the place of the node, the scope table, fresh names and a state.
//!
//! A call answers an error only for want of memory, and the context is then of no more use.
ghost use Rattle.std.specs.Prelude.{◌≡◌, ◌<◌, [], ◌∷◌, IfOk, OnOk, Some, None, drop, length, map, slice_get, string_bytes};
ghost use Rattle.es_tree.specs.Fresh.{is_among};
ghost use Rattle.es_tree.specs.Names.{names_of};
ghost use Rattle.es_tree.specs.Words.{Text};
ghost use Rattle.es_scope.specs.HoistScopes.{is_hoist_place};
ghost use Rattle.es_scope.specs.Places.{AreInTable, AreInUse};
ghost use Rattle.es_scope.specs.Tables.{scope_count};

use crate::ancestor::{Ancestor, Place};
use crate::scoping::Scoping;
use crate::uids::UidGenerator;
use es_tree::ast_type::AstType;
use es_tree::builder::AstBuilder;
use es_tree::ids::ScopeId;
use es_tree::node::Node;
use es_tree::options::EnvOptions;
use std::alloc::{AllocError, Global};

/// The context of a visit, with the state of the visit's owner.
#[derive(Drop)]
pub struct TraverseCtx<S> {
    pub state: S,
    pub ast: AstBuilder,
    pub options: EnvOptions,
    pub(crate) scoping: Scoping,
    pub(crate) uids: UidGenerator,
    /// From the outermost to the innermost.
    ancestors: Vec<Place>,
    ghost in_table: { AreInTable ancestors scoping },
    ghost in_use: { AreInUse scoping uids },
}

impl<S: Drop> TraverseCtx<S> {
    ghost use Rattle.es_scope.specs.Contexts.{BindsNamesOf, around_of, made_of, scopes_around, table_of, uses_of};

    /// The context of a visit of this program, with its scope table. The names of the program are in use.
    pub fn new(
        alloc: Global,
        scoping: Scoping,
        program: &Node,
        state: S,
        ast: AstBuilder,
        options: EnvOptions,
    ) -> Result<TraverseCtx<S>, AllocError>
        requires { BindsNamesOf program.now scoping }
        ensures place { IfOk result (λ ctx. around_of ctx ≡ []) }
        ensures scopes { IfOk result (λ ctx. scopes_around ctx ≡ []) }
        ensures in_use { IfOk result (λ ctx. (x : Text) → uses_of ctx x ≡ is_among (names_of program.now) x) }
        ensures none_made { IfOk result (λ ctx. made_of ctx ≡ []) }
        ensures state { IfOk result (λ ctx. ctx.state ≡ state) }
        ensures ast { IfOk result (λ ctx. ctx.ast ≡ ast) }
        ensures options { IfOk result (λ ctx. ctx.options ≡ options) }
        ensures table { IfOk result (λ ctx. table_of ctx ≡ scoping) }
    {
        let uids = UidGenerator::new(alloc, program)?;
        Ok(TraverseCtx {
            state,
            ast,
            options,
            scoping,
            uids,
            ancestors: Vec::new(alloc),
        })
    }

    /// The fresh names, in the order made.
    pub fn into_uids(self) -> Vec<String>
        ensures { map string_bytes result.items ≡ made_of self }
    {
        self.uids.into_made()
    }
}

impl<S> TraverseCtx<S> {
    ghost use Rattle.es_scope.specs.Contexts.{KeepsNames, around_of, hoist_scope_at, made_of, scope_at, scopes_around, table_of};

    /// The state, the builder and the fresh names in the order made.
    pub fn finish(self) -> (S, AstBuilder, Vec<String>)
        ensures state { result.0 ≡ self.state }
        ensures ast { result.1 ≡ self.ast }
        ensures made { map string_bytes result.2.items ≡ made_of self }
    {
        (self.state, self.ast, self.uids.into_made())
    }

    /// The scope table.
    pub fn scoping(&self) -> &Scoping
        ensures { result.now ≡ table_of self.now }
    {
        &self.scoping
    }

    /// Goes into a node, to a place of this scope.
    pub fn enter_place(&mut self, ancestor: Ancestor, scope: ScopeId) -> Result<(), AllocError>
        requires { scope.0 < scope_count (table_of self.old) }
        ensures around { OnOk result (around_of self.new ≡ ancestor ∷ around_of self.old) }
        ensures scopes { OnOk result (scopes_around self.new ≡ scope.0 ∷ scopes_around self.old) }
        ensures state { self.new.state ≡ self.old.state }
        ensures ast { self.new.ast ≡ self.old.ast }
        ensures options { self.new.options ≡ self.old.options }
        ensures table { table_of self.new ≡ table_of self.old }
        ensures names { KeepsNames self.old self.new }
    {
        self.ancestors.push(Place { ancestor, scope })?;
        Ok(())
    }

    /// Goes back out of the innermost node.
    pub fn leave_place(&mut self)
        requires { 0 < length (around_of self.old) }
        ensures around { around_of self.new ≡ drop 1 (around_of self.old) }
        ensures scopes { scopes_around self.new ≡ drop 1 (scopes_around self.old) }
        ensures state { self.new.state ≡ self.old.state }
        ensures ast { self.new.ast ≡ self.old.ast }
        ensures options { self.new.options ≡ self.old.options }
        ensures table { table_of self.new ≡ table_of self.old }
        ensures names { KeepsNames self.old self.new }
    {
        let _place = self.ancestors.pop();
    }

    /// The scope of the place.
    pub fn current_scope_id(&self) -> ScopeId
        ensures scope { result.0 ≡ scope_at self.now }
        ensures known { result.0 < scope_count (table_of self.now) }
    {
        match self.ancestors.last() {
            Some(place) => place.scope,
            None => self.scoping.root_scope_id(),
        }
    }

    /// The scope in which `var` declares here: that of the nearest body of a function, body of an arrow that is
    /// an expression, static block or program (ECMA-262, 8.2.6).
    pub fn current_hoist_scope_id(&self) -> ScopeId
        ensures scope { result.0 ≡ hoist_scope_at self.now }
        ensures known { result.0 < scope_count (table_of self.now) }
    {
        for place in self.ancestors.iter().rev() {
            if hoists(place.ancestor) {
                return place.scope;
            }
        }
        self.scoping.root_scope_id()
    }

    /// The innermost ancestor.
    pub fn parent(&self) -> Ancestor
        requires { 0 < length (around_of self.now) }
        ensures { Some result ≡ slice_get (around_of self.now) 0 }
    {
        self.ancestors[self.ancestors.len() - 1].ancestor
    }

    /// The ancestor of this number, counted from 0 outwards; none past the outermost.
    pub fn ancestor(&self, n: usize) -> Option<Ancestor>
        ensures { result ≡ slice_get (around_of self.now) n }
    {
        let count = self.ancestors.len();
        if n < count {
            Some(self.ancestors[count - 1 - n].ancestor)
        } else {
            None
        }
    }
}

/// Whether `var` declares inside this field of a node.
fn hoists(ancestor: Ancestor) -> bool
    ensures { result ≡ is_hoist_place ancestor }
{
    match ancestor.kind {
        AstType::Program | AstType::FunctionBody | AstType::StaticBlock => true,
        AstType::ArrowFunctionExpression => ancestor.field == 1,
        _ => false,
    }
}
