//! A literal with spreads as calls of a helper that copies (ECMA-262, 13.2.5): one pass over its properties, each of which is moved.
ghost use Rattle.std.specs.Prelude.{◌≡◌, ◌+◌, ◌-◌, ◌^◌, ◌<◌, ℕ, IfOk, OnOk, Option, false, is_some, map, true};
ghost use Rattle.es_tree.specs.Constructs.{any_kind, is_spread};
ghost use Rattle.es_tree.specs.Tree.{fields_of, kind_of, label_of, trees};
ghost use Rattle.es_tree.specs.Words.{Text};
ghost use Rattle.es_resolution.specs.Seen.{seen};
ghost use Rattle.es_steps.specs.Nodes.{call_node};
ghost use Rattle.es_steps.specs.ObjectSpread.{copied};
ghost use Rattle.es_changes.specs.Changes.{HasRoom};
ghost use Rattle.es_traverse.specs.Laws.{Seen};
ghost use Rattle.es_traverse.specs.Loads.{load, trees_load};
ghost use Rattle.lower_temporaries.specs.Takings.{ReadsMore, moment_of};
ghost use Rattle.lower_object_spread.specs.Copying.{AddsProperty, CopiesAll, CopiesLast, Lowers, arguments_before, helper, literals_before, seen_copy};
ghost use Rattle.lower_object_spread.specs.Literals.{any_lacks_argument, is_lowerable_literal, lacks_argument};

use crate::constructs::is_spread;
use es_expressions::composites::{ObjectExpression, SpreadElement, new_object_expression};
use es_expressions::literals::new_identifier;
use es_expressions::members::{new_call_expression, new_member_expression};
use es_scope::context::TraverseCtx;
use es_tree::builder::AstBuilder;
use es_tree::node::Node;
use lower_temporaries::declarations::MADE;
use lower_temporaries::state::TransformState;
use lower_temporaries::temporaries::read_name;
use std::alloc::AllocError;
use std::mem;

/// What was copied so far.
#[derive(Drop)]
pub(crate) struct Copied {
    /// The copy of what was spread last, with all before it.
    pub(crate) copy: Option<Node>,
    /// The properties since.
    pub(crate) pending: Vec<Node>,
}

/// `{ a, ...b, c }` as `babelHelpers.objectSpread2(babelHelpers.objectSpread2({ a }, b), {}, { c })`, with the span of the literal. Fails
/// only for want of memory.
pub(crate) fn lower_literal(
    node: Node,
    ctx: &mut TraverseCtx<TransformState>,
) -> Result<Node, AllocError>
    requires on { is_some ctx.old.options.es2018.object_rest_spread ≡ true }
    requires lowerable { is_lowerable_literal (kind_of node) (label_of node) (fields_of node) ≡ true }
    requires room { HasRoom (moment_of ctx.old) (load node) }
    ensures { IfOk result (λ made. Seen (Lowers ctx.old ctx.new) node made) }
{
    let ObjectExpression {
        id: _id,
        span,
        properties,
    } = ObjectExpression::open(node);
    let mut made = copy_properties(properties, ctx)?;
    made.span = span;
    Ok(made)
}

/// `babelHelpers.objectSpread2(babelHelpers.objectSpread2({ a }, b), {}, { c })` for the properties `a, ...b, c`.
fn copy_properties(
    properties: Vec<Node>,
    ctx: &mut TraverseCtx<TransformState>,
) -> Result<Node, AllocError>
    requires spread { any_kind is_spread (trees properties.items) ≡ true }
    requires whole { any_lacks_argument (trees properties.items) ≡ false }
    requires room { HasRoom (moment_of ctx.old) (trees_load (trees properties.items)) }
    ensures { IfOk result (λ made. CopiesAll ctx.old ctx.new properties.items made) }
{
    let mut copied = Copied {
        copy: None,
        pending: Vec::new(ctx.ast.alloc),
    };
    for property in properties {
        add_property(property, &mut copied, ctx)?;
    }
    let made = finish(copied, ctx)?;
    Ok(made)
}

/// One property more: `...e` is copied with what is pending before it, and any other is pending.
fn add_property(
    property: Node,
    copied: &mut Copied,
    ctx: &mut TraverseCtx<TransformState>,
) -> Result<(), AllocError>
    requires whole { lacks_argument property ≡ false }
    requires room { ctx.old.ast.next + load property < 2 ^ 32 - 1 }
    ensures { OnOk result (AddsProperty ctx.old ctx.new property copied.old.copy copied.old.pending.items copied.new.copy copied.new.pending.items) }
{
    if !is_spread(&property) {
        copied.pending.push(property)?;
        return Ok(());
    }
    let SpreadElement {
        id: _id,
        span: _span,
        argument,
    } = SpreadElement::open(property);
    let pending = mem::replace(&mut copied.pending, Vec::new(ctx.ast.alloc));
    let copy = copy_spread(copied.copy.take(), pending, argument, ctx)?;
    copied.copy = Some(copy);
    Ok(())
}

/// `babelHelpers.objectSpread2({ a }, e)` for `...e` behind `a`, `babelHelpers.objectSpread2(copy, e)` behind a copy alone, and
/// `babelHelpers.objectSpread2(copy, {}, { a }, e)` behind a copy and `a`.
fn copy_spread(
    copy: Option<Node>,
    pending: Vec<Node>,
    argument: Node,
    ctx: &mut TraverseCtx<TransformState>,
) -> Result<Node, AllocError>
    requires room { ctx.old.ast.next + 6 < 2 ^ 32 - 1 }
    ensures made { IfOk result (λ node. (names : ℕ → Text → Option ℕ) → seen names node ≡ copied helper (seen_copy names copy) (map (seen names) pending.items) (seen names argument)) }
    ensures reads { OnOk result (ReadsMore (literals_before copy pending.items + 4) ctx.old ctx.new) }
{
    let mut arguments = new_arguments(copy, pending, &mut ctx.ast)?;
    arguments.push(argument)?;
    let node = new_copy(arguments, ctx)?;
    Ok(node)
}

/// The whole once all properties were added: the copy, and `babelHelpers.objectSpread2(copy, {}, { a })` where `a` is pending.
fn finish(copied: Copied, ctx: &mut TraverseCtx<TransformState>) -> Result<Node, AllocError>
    requires copied { is_some copied.copy ≡ true }
    requires room { ctx.old.ast.next + 6 < 2 ^ 32 - 1 }
    ensures { IfOk result (λ made. CopiesLast ctx.old ctx.new copied.copy copied.pending.items made) }
{
    let Copied { copy, pending } = copied;
    let copy = match copy {
        Some(copy) => copy,
        None => unreachable!(),
    };
    if pending.is_empty() {
        return Ok(copy);
    }
    let arguments = new_arguments(Some(copy), pending, &mut ctx.ast)?;
    let node = new_copy(arguments, ctx)?;
    Ok(node)
}

/// What a copy begins with: `{ a }` for the properties `a` where nothing was copied, and else `copy` or `copy, {}, { a }`.
fn new_arguments(
    copy: Option<Node>,
    pending: Vec<Node>,
    ast: &mut AstBuilder,
) -> Result<Vec<Node>, AllocError>
    requires room { ast.old.next + 2 < 2 ^ 32 - 1 }
    ensures made { IfOk result (λ made. (names : ℕ → Text → Option ℕ) → map (seen names) made.items ≡ arguments_before (seen_copy names copy) (map (seen names) pending.items)) }
    ensures counted { IfOk result (λ _. ast.new.next ≡ ast.old.next + literals_before copy pending.items) }
{
    let alloc = ast.alloc;
    let Some(copy) = copy else {
        let first = new_object_expression(ast, MADE, pending)?;
        let arguments = Vec::from_array(alloc, [first])?;
        return Ok(arguments);
    };
    if pending.is_empty() {
        let arguments = Vec::from_array(alloc, [copy])?;
        return Ok(arguments);
    }
    let empty = new_object_expression(ast, MADE, Vec::new(alloc))?;
    let last = new_object_expression(ast, MADE, pending)?;
    let arguments = Vec::from_array(alloc, [copy, empty, last])?;
    Ok(arguments)
}

/// `babelHelpers.objectSpread2(arguments)`.
fn new_copy(arguments: Vec<Node>, ctx: &mut TraverseCtx<TransformState>) -> Result<Node, AllocError>
    requires room { ctx.old.ast.next + 4 < 2 ^ 32 - 1 }
    ensures made { IfOk result (λ node. (names : ℕ → Text → Option ℕ) → seen names node ≡ call_node helper (map (seen names) arguments.items)) }
    ensures reads { OnOk result (ReadsMore 4 ctx.old ctx.new) }
{
    let object = read_name("babelHelpers", None, ctx)?;
    let name = String::from_str(ctx.ast.alloc, "objectSpread2")?;
    let property = new_identifier(&mut ctx.ast, MADE, name)?;
    let callee = new_member_expression(&mut ctx.ast, MADE, false, false, object, property)?;
    let node = new_call_expression(&mut ctx.ast, MADE, false, callee, arguments)?;
    Ok(node)
}
