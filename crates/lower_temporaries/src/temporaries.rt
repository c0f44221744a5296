//! Temporaries that the caller assigns, parameters, and names that are read or written once more.
//!
//! A call answers an error only for want of memory, and the context is then of no more use.
ghost use Rattle.std.specs.Prelude.{◌≡◌, ◌+◌, ◌-◌, ◌^◌, ◌<◌, ◌≤◌, IfOk, OnOk, false, length, true};
ghost use Rattle.es_tree.specs.Fresh.{node_base, text_base};
ghost use Rattle.es_tree.specs.Heads.{symbol as symbol_number};
ghost use Rattle.es_scope.specs.ContextSymbols.{steady_symbols_of};
ghost use Rattle.es_scope.specs.Contexts.{table_of};
ghost use Rattle.es_scope.specs.Tables.{scope_count};
ghost use Rattle.es_steps.specs.Duplication.{is_among_symbols};
ghost use Rattle.es_steps.specs.Nodes.{identifier};
ghost use Rattle.lower_temporaries.specs.SeenTrees.{IsSeenAs, named};
ghost use Rattle.lower_temporaries.specs.Takings.{ReadsMore};
ghost use Rattle.lower_temporaries.specs.Temporaries.{TakesBoundName, TakesTemporary};

use crate::declarations::{MADE, VarDeclarationsStore};
use crate::readings::{READS, WRITES, new_name};
use crate::state::TransformState;
use es_scope::context::TraverseCtx;
use es_scope::context_names::BoundIdentifier;
use es_scope::flags::SymbolFlags;
use es_tree::ids::{ScopeId, SymbolId};
use es_tree::node::Node;
use es_tree::sorts::Expression;
use std::alloc::AllocError;

/// A fresh name for an expression, declared by `var` at the head of the innermost statement list.
#[derive(Drop)]
pub struct Temporary {
    /// The name.
    pub name: String,
    /// The symbol that it is bound to.
    pub symbol_id: SymbolId,
    /// The name as the target of its first assignment.
    pub target: Node,
}

/// A temporary for an expression. Its name has the base that the node gives.
pub fn new_temporary(
    expression: &Expression,
    ctx: &mut TraverseCtx<TransformState>,
) -> Result<Temporary, AllocError>
    requires there { 0 < length ctx.old.state.var_declarations }
    requires room { ctx.old.ast.next + 3 < 2 ^ 32 - 1 }
    ensures taken { IfOk result (λ t. TakesTemporary (node_base expression.now) ctx.old ctx.new t) }
{
    let BoundIdentifier { name, symbol_id } = VarDeclarationsStore::create_uid_var_based_on_node(
        expression, ctx,
    )?;
    let target = ctx.create_bound_ident_expr(MADE, name.as_str(), symbol_id, WRITES)?;
    Ok(Temporary {
        name,
        symbol_id,
        target,
    })
}

/// A fresh name of the base that this text gives, bound in this scope with these flags, as the node that is to stand
/// there as its binding. What stands there gives it its value, so it counts as written.
pub fn new_bound_name(
    base: &str,
    scope: ScopeId,
    flags: SymbolFlags,
    ctx: &mut TraverseCtx<TransformState>,
) -> Result<Node, AllocError>
    requires scope { scope.0 < scope_count (table_of ctx.old) }
    requires room { ctx.old.ast.next < 2 ^ 32 - 1 }
    ensures taken { IfOk result (λ node. TakesBoundName (text_base base.now) scope.0 flags ctx.old ctx.new node) }
{
    let BoundIdentifier { name, symbol_id } = ctx.generate_uid(base, scope, flags)?;
    let node = ctx.create_bound_ident_expr(MADE, name.as_str(), symbol_id, WRITES)?;
    Ok(node)
}

/// The same, where a node gives the base.
pub fn new_bound_name_based_on_node(
    base: &Node,
    scope: ScopeId,
    flags: SymbolFlags,
    ctx: &mut TraverseCtx<TransformState>,
) -> Result<Node, AllocError>
    requires scope { scope.0 < scope_count (table_of ctx.old) }
    requires room { ctx.old.ast.next < 2 ^ 32 - 1 }
    ensures taken { IfOk result (λ node. TakesBoundName (node_base base.now) scope.0 flags ctx.old ctx.new node) }
{
    let BoundIdentifier { name, symbol_id } = ctx.generate_uid_based_on_node(base, scope, flags)?;
    let node = ctx.create_bound_ident_expr(MADE, name.as_str(), symbol_id, WRITES)?;
    Ok(node)
}

/// A name of this symbol, or of none, once more, as it is read.
pub fn read_name(
    name: &str,
    symbol: Option<SymbolId>,
    ctx: &mut TraverseCtx<TransformState>,
) -> Result<Node, AllocError>
    requires room { ctx.old.ast.next + 1 ≤ 2 ^ 32 - 1 }
    ensures made { IfOk result (λ node. IsSeenAs node (identifier (named name.now (symbol_number symbol)))) }
    ensures reads { OnOk result (ReadsMore 1 ctx.old ctx.new) }
{
    let node = new_name(MADE, name, symbol, READS, ctx)?;
    Ok(node)
}

/// A name of this symbol, or of none, once more, as a target. Some reference writes the symbol already.
pub fn write_name(
    name: &str,
    symbol: Option<SymbolId>,
    ctx: &mut TraverseCtx<TransformState>,
) -> Result<Node, AllocError>
    requires written { is_among_symbols (steady_symbols_of ctx.old) (symbol_number symbol) ≡ false }
    requires room { ctx.old.ast.next + 1 ≤ 2 ^ 32 - 1 }
    ensures made { IfOk result (λ node. IsSeenAs node (identifier (named name.now (symbol_number symbol)))) }
    ensures reads { OnOk result (ReadsMore 1 ctx.old ctx.new) }
{
    let node = new_name(MADE, name, symbol, WRITES, ctx)?;
    Ok(node)
}
