//! Expressions that can be read again as they stand: each gives the same each time and asks nothing. A name is judged and
//! copied by its own mark.
ghost use Rattle.std.specs.Prelude.{◌≡◌, ◌+◌, ◌-◌, ◌^◌, ◌<◌, ◌≤◌, ℕ, IfOk, OnOk, Option, false, true};
ghost use Rattle.std.specs.Option.{ForSome};
ghost use Rattle.es_tree.specs.Heads.{symbol as symbol_number};
ghost use Rattle.es_tree.specs.Tree.{◌then◌, Tree, done, many, tree_size, trees};
ghost use Rattle.es_tree.specs.Views.{plain_fields};
ghost use Rattle.es_tree.specs.Words.{Text};
ghost use Rattle.es_resolution.specs.Seen.{seen};
ghost use Rattle.es_scope.specs.ContextSymbols.{steady_symbols_of};
ghost use Rattle.es_scope.specs.Contexts.{table_of};
ghost use Rattle.es_scope.specs.Tables.{symbol_count};
ghost use Rattle.es_runs.specs.Duplication.{is_plain_template};
ghost use Rattle.es_steps.specs.Duplication.{is_among_symbols, is_read_again};
ghost use Rattle.es_traverse.specs.Laws.{Seen};
ghost use Rattle.lower_temporaries.specs.Duplicates.{read_again_in};
ghost use Rattle.lower_temporaries.specs.SeenTrees.{IsSeenAs, identifier_at, named};
ghost use Rattle.lower_temporaries.specs.TemplateParts.{is_cooked_part};
ghost use Rattle.lower_temporaries.specs.Takings.{ReadsMore};

use crate::state::TransformState;
use es_scope::context::TraverseCtx;
use es_scope::flags::ReferenceFlags;
use es_tree::ids::{Span, SymbolId};
use es_tree::kind::Kind;
use es_tree::node::{Field, Node};
use std::alloc::AllocError;

/// A reference that reads its name.
pub const READS: ReferenceFlags = ReferenceFlags {
    read: true,
    write: false,
};

/// A reference that writes its name.
pub const WRITES: ReferenceFlags = ReferenceFlags {
    read: false,
    write: true,
};

/// Whether a name of this symbol may get a reference: the table has the symbol, or there is none.
fn is_in_table(symbol: Option<SymbolId>, ctx: &TraverseCtx<TransformState>) -> bool
    ensures { result ≡ true → ForSome symbol (λ s. s.0 < symbol_count (table_of ctx.now)) }
{
    match symbol {
        Some(symbol) => (symbol.0 as usize) < ctx.scoping().symbol_count(),
        None => true,
    }
}

/// Whether a symbol is one of the table that no reference writes.
pub fn is_steady(symbol: Option<SymbolId>, ctx: &TraverseCtx<TransformState>) -> bool
    ensures { result ≡ is_among_symbols (steady_symbols_of ctx.now) (symbol_number symbol) }
{
    match symbol {
        Some(symbol) => {
            (symbol.0 as usize) < ctx.scoping().symbol_count() && ctx.symbol_is_steady(symbol)
        }
        None => false,
    }
}

/// Whether a name of this symbol may be read again: it has one, and, where it counts whether a name is
/// written, no reference writes that.
fn is_name_read_again(
    symbol: Option<SymbolId>,
    mutated_symbol_needs_temp_var: bool,
    ctx: &TraverseCtx<TransformState>,
) -> bool
    ensures { result ≡ read_again_in mutated_symbol_needs_temp_var ctx.now (symbol_number symbol) }
{
    if mutated_symbol_needs_temp_var {
        is_steady(symbol, ctx)
    } else {
        symbol.is_some()
    }
}

/// Whether the node is a part of a template whose text has a cooked form.
fn is_cooked_part(node: &Node) -> bool
    ensures { result ≡ is_cooked_part node.now }
{
    match &node.kind {
        Kind::TemplateElement { cooked, .. } => node.fields.is_empty() && cooked.is_some(),
        _ => false,
    }
}

/// Whether these are one such part and no expressions.
fn is_part_alone(parts: &[Node], expressions: &[Node]) -> bool
    ensures { result ≡ is_plain_template (many (trees parts.now) then (many (trees expressions.now) then done)) }
{
    match parts {
        [part] => expressions.is_empty() && is_cooked_part(part),
        _ => false,
    }
}

/// Whether these are the fields of a template without expressions, whose one part has a cooked form.
fn is_plain_template(fields: &[Field]) -> bool
    ensures { result ≡ is_plain_template (plain_fields fields.now) }
{
    match fields {
        [Field::Many(parts), Field::Many(expressions)] => {
            is_part_alone(parts.as_slice(), expressions.as_slice())
        }
        _ => false,
    }
}

/// Whether an expression can be read again as it stands: `this`, `super`, null, a truth value, a number, a
/// BigInt, a string, a template without expressions (ECMA-262, 13.2), or a name that has a symbol. Where
/// `mutated_symbol_needs_temp_var` is set, a name that some reference writes can't.
pub fn is_read_again(
    expression: &Node,
    mutated_symbol_needs_temp_var: bool,
    ctx: &TraverseCtx<TransformState>,
) -> bool
    ensures { (names : ℕ → Text → Option ℕ) → result ≡ is_read_again (read_again_in mutated_symbol_needs_temp_var ctx.now) (seen names expression.now) }
{
    match &expression.kind {
        Kind::Identifier { symbol, .. } => {
            is_name_read_again(*symbol, mutated_symbol_needs_temp_var, ctx)
                && expression.fields.is_empty()
        }
        Kind::TemplateLiteral => is_plain_template(expression.fields.as_slice()),
        Kind::ThisExpression
        | Kind::Super
        | Kind::NullLiteral
        | Kind::BooleanLiteral { .. }
        | Kind::NumericLiteral { .. }
        | Kind::BigIntLiteral { .. }
        | Kind::StringLiteral { .. } => expression.fields.is_empty(),
        _ => false,
    }
}

/// A name of this symbol, or of none, at a place. It has a reference of its own, unless the table doesn't have its symbol.
pub(crate) fn new_name(
    span: Span,
    name: &str,
    symbol: Option<SymbolId>,
    flags: ReferenceFlags,
    ctx: &mut TraverseCtx<TransformState>,
) -> Result<Node, AllocError>
    requires written { flags.write ≡ true → is_among_symbols (steady_symbols_of ctx.old) (symbol_number symbol) ≡ false }
    requires room { ctx.old.ast.next + 1 ≤ 2 ^ 32 - 1 }
    ensures made { IfOk result (λ node. IsSeenAs node (identifier_at span (named name.now (symbol_number symbol)))) }
    ensures reads { OnOk result (ReadsMore 1 ctx.old ctx.new) }
{
    if is_in_table(symbol, ctx) {
        let node = ctx.create_ident_expr(span, name, symbol, flags)?;
        return Ok(node);
    }
    let alloc = ctx.ast.alloc;
    let kind = Kind::Identifier {
        name: String::from_str(alloc, name)?,
        reference: None,
        symbol,
    };
    Ok(Node {
        id: ctx.ast.new_id(),
        span,
        kind,
        fields: Vec::new(alloc),
    })
}

/// One more copy of an expression, with new ids and the same spans. The copy of a name has a reference of
/// its own, which reads. Answers an error only for want of memory.
pub fn read_once_more(
    expression: &Node,
    ctx: &mut TraverseCtx<TransformState>,
) -> Result<Node, AllocError>
    requires room { ctx.old.ast.next + tree_size expression.now ≤ 2 ^ 32 - 1 }
    ensures copy { IfOk result (λ node. Seen (λ t u. u ≡ t) expression.now node) }
    ensures reads { OnOk result (ReadsMore (tree_size expression.now) ctx.old ctx.new) }
{
    if let Kind::Identifier { name, symbol, .. } = &expression.kind {
        if expression.fields.is_empty() {
            let node = new_name(expression.span, name.as_str(), *symbol, READS, ctx)?;
            return Ok(node);
        }
    }
    let node = expression.clone_in(&mut ctx.ast)?;
    Ok(node)
}
