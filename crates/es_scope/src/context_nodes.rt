//! Identifiers that a context makes, with their references.
ghost use Rattle.std.specs.Prelude.{◌≡◌, ◌-◌, ◌<◌, ◌^◌, IfOk, OnOk, None, Some};
ghost use Rattle.std.specs.Option.{ForSome};
ghost use Rattle.es_tree.specs.Heads.{symbol as symbol_number};
ghost use Rattle.es_scope.specs.Contexts.{Refers, table_of};
ghost use Rattle.es_scope.specs.MadeNodes.{made_identifier};
ghost use Rattle.es_scope.specs.Tables.{reference_count, symbol_count};

use crate::context::TraverseCtx;
use crate::flags::ReferenceFlags;
use crate::scoping::Reference;
use es_tree::ids::{Span, SymbolId};
use es_tree::kind::Kind;
use es_tree::node::Node;
use es_tree::sorts::Expression;
use std::alloc::AllocError;

impl<S> TraverseCtx<S> {
    /// A new identifier that refers to this symbol. A reference that writes makes the symbol mutated.
    pub fn create_bound_ident_expr(
        &mut self,
        span: Span,
        name: &str,
        symbol: SymbolId,
        flags: ReferenceFlags,
    ) -> Result<Expression, AllocError>
        requires room { self.old.ast.next < 2 ^ 32 - 1 }
        requires symbol { symbol.0 < symbol_count (table_of self.old) }
        ensures node { IfOk result (λ n. n ≡ made_identifier self.old.ast.next span name.now (reference_count (table_of self.old)) (Some symbol.0)) }
        ensures refers { OnOk result (Refers self.old self.new (Some symbol.0) flags) }
    {
        let node = self.create_ident_expr(span, name, Some(symbol), flags)?;
        Ok(node)
    }

    /// A new identifier that refers to a name without symbol.
    pub fn create_unbound_ident_expr(
        &mut self,
        span: Span,
        name: &str,
        flags: ReferenceFlags,
    ) -> Result<Expression, AllocError>
        requires room { self.old.ast.next < 2 ^ 32 - 1 }
        ensures node { IfOk result (λ n. n ≡ made_identifier self.old.ast.next span name.now (reference_count (table_of self.old)) None) }
        ensures refers { OnOk result (Refers self.old self.new None flags) }
    {
        let node = self.create_ident_expr(span, name, None, flags)?;
        Ok(node)
    }

    /// A new identifier that refers to this symbol, or to a name without one.
    pub fn create_ident_expr(
        &mut self,
        span: Span,
        name: &str,
        symbol: Option<SymbolId>,
        flags: ReferenceFlags,
    ) -> Result<Expression, AllocError>
        requires room { self.old.ast.next < 2 ^ 32 - 1 }
        requires symbol { ForSome symbol (λ s. s.0 < symbol_count (table_of self.old)) }
        ensures node { IfOk result (λ n. n ≡ made_identifier self.old.ast.next span name.now (reference_count (table_of self.old)) (symbol_number symbol)) }
        ensures refers { OnOk result (Refers self.old self.new (symbol_number symbol) flags) }
    {
        let alloc = self.ast.alloc;
        let name = String::from_str(alloc, name)?;
        let id = self.ast.new_id();
        let reference = self.scoping.add_reference(Reference {
            node: id,
            symbol,
            flags,
        })?;
        let kind = Kind::Identifier {
            name,
            reference: Some(reference),
            symbol,
        };
        Ok(Node {
            id,
            span,
            kind,
            fields: Vec::new(alloc),
        })
    }
}
