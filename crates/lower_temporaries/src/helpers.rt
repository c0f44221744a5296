//! Calls of the runtime's helpers, which are properties of `babelHelpers`: of object rests, what is left of a source, and all of it.
//!
//! A call answers an error only for want of memory, and the context is then of no more use.
ghost use Rattle.std.specs.Prelude.{◌≡◌, ◌+◌, ◌-◌, ◌^◌, ◌<◌, ◌∷◌, [], ℕ, IfOk, OnOk, Option};
ghost use Rattle.es_tree.specs.Helpers.{helper_text};
ghost use Rattle.es_tree.specs.Views.{plain_fields};
ghost use Rattle.es_tree.specs.Words.{Text};
ghost use Rattle.es_resolution.specs.Seen.{seen, seen_in};
ghost use Rattle.es_steps.specs.Nodes.{call_node};
ghost use Rattle.es_steps.specs.ObjectRest.{helper_node, whole_value};
ghost use Rattle.es_traverse.specs.Laws.{Seen};
ghost use Rattle.lower_temporaries.specs.Helpers.{keys_value, mapped_ids, rest_helper};
ghost use Rattle.lower_temporaries.specs.SeenTrees.{IsSeenAs};
ghost use Rattle.lower_temporaries.specs.Takings.{ReadsMore};

use crate::declarations::MADE;
use crate::state::TransformState;
use crate::temporaries::read_name;
use es_expressions::composites::{new_array_expression, new_object_expression};
use es_expressions::literals::new_identifier;
use es_expressions::members::{new_call_expression, new_member_expression};
use es_expressions::operations::new_sequence_expression;
use es_scope::context::TraverseCtx;
use es_tree::helper::Helper;
use es_tree::node::{Field, Node};
use std::alloc::AllocError;

/// A helper, as a property of `babelHelpers`.
pub fn new_helper(helper: Helper, ctx: &mut TraverseCtx<TransformState>) -> Result<Node, AllocError>
    requires room { ctx.old.ast.next + 3 < 2 ^ 32 }
    ensures made { IfOk result (λ node. IsSeenAs node (helper_node (helper_text helper))) }
    ensures reads { OnOk result (ReadsMore 3 ctx.old ctx.new) }
{
    let object = read_name("babelHelpers", None, ctx)?;
    let name = String::from_str(ctx.ast.alloc, helper.name())?;
    let property = new_identifier(&mut ctx.ast, MADE, name)?;
    let member = new_member_expression(&mut ctx.ast, MADE, false, false, object, property)?;
    Ok(member)
}

/// `babelHelpers.objectWithoutProperties(s, ["a"])` for a source `s` and these keys, and
/// `babelHelpers.objectWithoutProperties(s, ["a", _k].map(babelHelpers.toPropertyKey))` where one of them is read.
pub fn new_rest_value(
    source: Node,
    keys: Vec<Field>,
    is_read: bool,
    ctx: &mut TraverseCtx<TransformState>,
) -> Result<Node, AllocError>
    requires room { ctx.old.ast.next + 11 < 2 ^ 32 }
    ensures made { IfOk result (λ value. (names : ℕ → Text → Option ℕ) → seen names value ≡ call_node rest_helper (seen names source ∷ keys_value is_read (seen_in names (plain_fields keys.items)) ∷ [])) }
    ensures reads { OnOk result (ReadsMore (5 + mapped_ids is_read) ctx.old ctx.new) }
{
    let callee = new_helper(Helper::ObjectWithoutProperties, ctx)?;
    let left_out = new_keys(keys, is_read, ctx)?;
    let arguments = Vec::from_array(ctx.ast.alloc, [source, left_out])?;
    let value = new_call_expression(&mut ctx.ast, MADE, false, callee, arguments)?;
    Ok(value)
}

/// `["a"]` for these keys, and `["a", _k].map(babelHelpers.toPropertyKey)` where one of them is read: an object has it under what
/// ECMA-262, 7.1.19 makes of it.
fn new_keys(
    keys: Vec<Field>,
    is_read: bool,
    ctx: &mut TraverseCtx<TransformState>,
) -> Result<Node, AllocError>
    requires room { ctx.old.ast.next + 7 < 2 ^ 32 }
    ensures made { IfOk result (λ node. (names : ℕ → Text → Option ℕ) → seen names node ≡ keys_value is_read (seen_in names (plain_fields keys.items))) }
    ensures reads { OnOk result (ReadsMore (1 + mapped_ids is_read) ctx.old ctx.new) }
{
    let array = new_array_expression(&mut ctx.ast, MADE, keys)?;
    if !is_read {
        return Ok(array);
    }
    let map = String::from_str(ctx.ast.alloc, "map")?;
    let property = new_identifier(&mut ctx.ast, MADE, map)?;
    let callee = new_member_expression(&mut ctx.ast, MADE, false, false, array, property)?;
    let convert = new_helper(Helper::ToPropertyKey, ctx)?;
    let arguments = Vec::from_array(ctx.ast.alloc, [convert])?;
    let mapped = new_call_expression(&mut ctx.ast, MADE, false, callee, arguments)?;
    Ok(mapped)
}

/// `babelHelpers.extends({}, (babelHelpers.objectDestructuringEmpty(s), s))` for a source `s`, by two readings of it.
pub fn new_whole_value(
    source: Node,
    again: Node,
    ctx: &mut TraverseCtx<TransformState>,
) -> Result<Node, AllocError>
    requires same { Seen (λ t u. u ≡ t) source again }
    requires room { ctx.old.ast.next + 10 < 2 ^ 32 }
    ensures made { IfOk result (λ value. (names : ℕ → Text → Option ℕ) → seen names value ≡ whole_value (seen names source)) }
    ensures reads { OnOk result (ReadsMore 10 ctx.old ctx.new) }
{
    let asked = new_emptied(source, ctx)?;
    let callee = new_helper(Helper::Extends, ctx)?;
    let expressions = Vec::from_array(ctx.ast.alloc, [asked, again])?;
    let sequence = new_sequence_expression(&mut ctx.ast, MADE, expressions)?;
    let properties = Vec::new(ctx.ast.alloc);
    let object = new_object_expression(&mut ctx.ast, MADE, properties)?;
    let arguments = Vec::from_array(ctx.ast.alloc, [object, sequence])?;
    let value = new_call_expression(&mut ctx.ast, MADE, false, callee, arguments)?;
    Ok(value)
}

/// `babelHelpers.objectDestructuringEmpty(s)` for a source `s`: it throws where `s` is undefined or null, as a pattern does.
fn new_emptied(source: Node, ctx: &mut TraverseCtx<TransformState>) -> Result<Node, AllocError>
    requires room { ctx.old.ast.next + 4 < 2 ^ 32 }
    ensures made { IfOk result (λ value. (names : ℕ → Text → Option ℕ) → seen names value ≡ call_node (helper_node (helper_text Helper.ObjectDestructuringEmpty)) (seen names source ∷ [])) }
    ensures reads { OnOk result (ReadsMore 4 ctx.old ctx.new) }
{
    let callee = new_helper(Helper::ObjectDestructuringEmpty, ctx)?;
    let arguments = Vec::from_array(ctx.ast.alloc, [source])?;
    let value = new_call_expression(&mut ctx.ast, MADE, false, callee, arguments)?;
    Ok(value)
}
