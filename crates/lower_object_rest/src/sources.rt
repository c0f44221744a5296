//! The source of a pattern: what it takes its values from. A source that gives the same each time is read again where it stands, and any
//! other is stored.
ghost use Rattle.std.specs.Prelude.{◌+◌, ◌-◌, ◌<◌, ◌≡◌, ◌^◌, IfOk, Option, ℕ};
ghost use Rattle.std.specs.List.{list_any};
ghost use Rattle.es_tree.specs.Words.{Text};
ghost use Rattle.es_resolution.specs.Seen.{seen};
ghost use Rattle.es_changes.specs.Moments.{whole_at};
ghost use Rattle.es_rest_rows.specs.RestRows.{is_kept};
ghost use Rattle.lower_object_rest.specs.Parts.{MakesReference, Stores, binds_called, is_called};
ghost use Rattle.lower_temporaries.specs.Takings.{moment_of};

use es_scope::context::TraverseCtx;
use es_scope::flags::SymbolFlags;
use es_statements::program::new_variable_declarator;
use es_tree::kind::Kind;
use es_tree::node::Node;
use lower_temporaries::declarations::MADE;
use lower_temporaries::readings::{is_steady, read_once_more};
use lower_temporaries::state::TransformState;
use lower_temporaries::temporaries::{new_bound_name, new_bound_name_based_on_node};
use std::alloc::{AllocError, Global};

/// The flags of the name of a stored source.
const STORED: SymbolFlags = SymbolFlags {
    function_scoped: false,
    block_scoped: true,
    constant: false,
    import: false,
    catch_variable: false,
    class: false,
};

/// Whether the source of a pattern gives the same each time, also once the names of the pattern have their values: it is a made name, or
/// one that nothing writes and that the pattern doesn't bind.
pub(crate) fn is_kept(
    source: &Node,
    pattern: &Node,
    ctx: &TraverseCtx<TransformState>,
) -> Result<bool, AllocError>
    ensures { IfOk result (λ kept. (names : ℕ → Text → Option ℕ) → kept ≡ is_kept (whole_at (moment_of ctx.now)) (seen names pattern.now) (seen names source.now)) }
{
    let Kind::Identifier { name, symbol, .. } = &source.kind else {
        return Ok(false);
    };
    if !source.fields.is_empty() {
        return Ok(false);
    }
    if ctx.is_fresh_name(name.as_str()) {
        return Ok(true);
    }
    if !is_steady(*symbol, ctx) {
        return Ok(false);
    }
    let bound = binds_name(name.as_str(), pattern, ctx.ast.alloc)?;
    Ok(!bound)
}

/// Whether a pattern binds this name.
fn binds_name(name: &str, pattern: &Node, alloc: Global) -> Result<bool, AllocError>
    ensures { IfOk result (λ bound. bound ≡ binds_called name.now pattern.now) }
{
    let bound = pattern.bound_names(alloc)?;
    Ok(is_one_of(bound.as_slice(), name))
}

/// Whether one of these is an identifier of this name.
fn is_one_of(identifiers: &[Node], name: &str) -> bool
    ensures { result ≡ list_any (is_called name.now) identifiers.now }
{
    identifiers
        .iter()
        .any(|identifier| is_called(name, identifier))
}

/// Whether the node is an identifier of this name.
fn is_called(name: &str, identifier: &Node) -> bool
    ensures { result ≡ is_called name.now identifier.now }
{
    match &identifier.kind {
        Kind::Identifier { name: own, .. } => own.as_str() == name,
        _ => false,
    }
}

/// `_f = f()`, with a fresh name, and that name as it is read. No lowering that comes after asks the scope table where such a name is bound,
/// or how: it is bound in the scope of the program.
pub(crate) fn store(
    source: Node,
    ctx: &mut TraverseCtx<TransformState>,
) -> Result<(Node, Node), AllocError>
    requires room { ctx.old.ast.next + 3 < 2 ^ 32 }
    ensures { IfOk result (λ made. Stores ctx.old ctx.new source made.0 made.1) }
{
    let scope = ctx.scoping().root_scope_id();
    let name = new_bound_name_based_on_node(&source, scope, STORED, ctx)?;
    let read = read_once_more(&name, ctx)?;
    let declarator = new_variable_declarator(&mut ctx.ast, MADE, name, Some(source))?;
    Ok((declarator, read))
}

/// A fresh name for what a property gives, as it is bound in the place of a pattern, and as it is read.
pub(crate) fn new_reference(
    ctx: &mut TraverseCtx<TransformState>,
) -> Result<(Node, Node), AllocError>
    requires room { ctx.old.ast.next + 2 < 2 ^ 32 }
    ensures { IfOk result (λ made. MakesReference ctx.old ctx.new made.0 made.1) }
{
    let scope = ctx.scoping().root_scope_id();
    let name = new_bound_name("ref", scope, STORED, ctx)?;
    let read = read_once_more(&name, ctx)?;
    Ok((name, read))
}
