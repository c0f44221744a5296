//! Names that may be read again as they stand, told by their own symbols, none of which is `eval`: a call by that name is
//! another call than one by a temporary (ECMA-262, 13.3.6.1).
ghost use Rattle.std.specs.Prelude.{◌≡◌, is_some};
ghost use Rattle.es_runs.specs.OptionalChaining.{is_eval};
ghost use Rattle.es_scope.specs.ContextSymbols.{steady_symbols_of};
ghost use Rattle.es_steps.specs.Duplication.{is_among_symbols};
ghost use Rattle.es_steps.specs.OptionalChaining.{or_held};
ghost use Rattle.es_tree.specs.Heads.{symbol as symbol_number};
ghost use Rattle.lower_chains.specs.Spines.{but_eval, is_own_name, stands};
ghost use Rattle.lower_chains.specs.Ways.{held};

use es_scope::context::TraverseCtx;
use es_scope::context_names::BoundIdentifier;
use es_tree::ids::SymbolId;
use es_tree::kind::Kind;
use es_tree::node::Node;
use lower_temporaries::readings::is_steady;
use lower_temporaries::state::TransformState;

/// Whether a name is `eval`.
fn is_eval(name: &str) -> bool
    ensures { result ≡ is_eval name.now }
{
    name == "eval"
}

/// Whether a symbol is that of the temporary that is held, or one that no reference writes.
fn is_held_or_steady(
    symbol: Option<SymbolId>,
    holder: &Option<BoundIdentifier>,
    ctx: &TraverseCtx<TransformState>,
) -> bool
    ensures { result ≡ or_held (held holder.now) (is_among_symbols (steady_symbols_of ctx.now)) (symbol_number symbol) }
{
    match holder {
        Some(held) => symbol == Some(held.symbol_id) || is_steady(symbol, ctx),
        None => is_steady(symbol, ctx),
    }
}

/// Whether a name of this symbol is bound, and isn't `eval`.
fn is_bound(name: &str, symbol: Option<SymbolId>) -> bool
    ensures { result ≡ but_eval is_some name.now (symbol_number symbol) }
{
    symbol.is_some() && !is_eval(name)
}

/// Whether a name of this symbol is the temporary that is held, or one that no reference writes, and isn't `eval`.
fn is_kept(
    name: &str,
    symbol: Option<SymbolId>,
    holder: &Option<BoundIdentifier>,
    ctx: &TraverseCtx<TransformState>,
) -> bool
    ensures { result ≡ but_eval (or_held (held holder.now) (is_among_symbols (steady_symbols_of ctx.now))) name.now (symbol_number symbol) }
{
    is_held_or_steady(symbol, holder, ctx) && !is_eval(name)
}

/// Whether a node is a name that is bound.
fn is_bound_name(node: &Node) -> bool
    ensures { result ≡ is_own_name is_some node.now }
{
    match &node.kind {
        Kind::Identifier { name, symbol, .. } => {
            is_bound(name.as_str(), *symbol) && node.fields.is_empty()
        }
        _ => false,
    }
}

/// Whether a node is the temporary that is held, or a name that no reference writes.
pub(crate) fn is_kept_name(
    node: &Node,
    holder: &Option<BoundIdentifier>,
    ctx: &TraverseCtx<TransformState>,
) -> bool
    ensures { result ≡ is_own_name (or_held (held holder.now) (is_among_symbols (steady_symbols_of ctx.now))) node.now }
{
    match &node.kind {
        Kind::Identifier { name, symbol, .. } => {
            is_kept(name.as_str(), *symbol, holder, ctx) && node.fields.is_empty()
        }
        _ => false,
    }
}

/// Whether what is current is tested as it stands: nothing was tested before, and it is a name that is bound.
pub(crate) fn may_stand(tests: &[Node], current: &Node) -> bool
    ensures { result ≡ stands is_some tests.now current.now }
{
    match tests {
        [] => is_bound_name(current),
        _ => false,
    }
}
