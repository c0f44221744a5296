//! A pattern with a rest, as declarators without one: the rest is what a helper answers that copies all but the keys before, or all where it
//! stands alone.
ghost use Rattle.std.specs.Prelude.{◌+◌, ◌-◌, ◌<◌, ◌≡◌, ◌^◌, ◌∷◌, IfOk, OnOk, Option, [], true, ℕ};
ghost use Rattle.es_tree.specs.Tree.{Tree, trees};
ghost use Rattle.es_tree.specs.Views.{plain_fields};
ghost use Rattle.es_tree.specs.Words.{Text};
ghost use Rattle.es_resolution.specs.Seen.{seen, seen_in};
ghost use Rattle.es_steps.specs.Nodes.{call_node};
ghost use Rattle.es_steps.specs.ObjectRest.{whole_value};
ghost use Rattle.es_rest_shapes.specs.RestShapes.{are_plain, is_name, is_plain_pattern};
ghost use Rattle.lower_object_rest.specs.Parts.{Opens, Takes, TakesAlone, TakesApart, TakesBeside, ends_in_rest};
ghost use Rattle.lower_object_rest.specs.Profile.{key_ids};
ghost use Rattle.lower_temporaries.specs.Helpers.{keys_value, mapped_ids, rest_helper};
ghost use Rattle.lower_temporaries.specs.Takings.{ReadsMore};

use crate::groups::{Groups, split_groups};
use es_patterns::patterns::{ObjectPattern, RestElement};
use es_rest_nodes::patterns::is_named_rest;
use es_scope::context::TraverseCtx;
use es_statements::program::new_variable_declarator;
use es_tree::ids::{NodeId, Span};
use es_tree::node::{Field, Node};
use lower_temporaries::declarations::MADE;
use lower_temporaries::helpers::{new_rest_value, new_whole_value};
use lower_temporaries::readings::read_once_more;
use lower_temporaries::state::TransformState;
use std::alloc::AllocError;

/// A pattern with a rest, taken apart.
#[derive(Drop)]
pub(crate) struct RestPattern {
    pub(crate) id: NodeId,
    pub(crate) span: Span,
    /// The properties before the rest.
    pub(crate) properties: Vec<Node>,
    /// The name of the rest.
    pub(crate) target: Node,
}

/// A pattern that bears a rest, taken apart.
pub(crate) enum OpenPattern {
    /// With a rest of its own.
    WithRest(RestPattern),
    /// With rests in its properties alone.
    WithoutRest(ObjectPattern),
}

/// The declarators of a pattern's properties and of its rest, for its parts and its source, which is a name. Fails only for want of memory.
pub(crate) fn take(
    pattern: RestPattern,
    source: Node,
    ctx: &mut TraverseCtx<TransformState>,
) -> Result<Vec<Node>, AllocError>
    requires plain { are_plain (trees pattern.properties.items) ≡ true }
    requires name { is_name source ≡ true }
    requires room { ctx.old.ast.next + 14 + key_ids (trees pattern.properties.items) < 2 ^ 32 }
    ensures { IfOk result (λ made. (p : Tree) → TakesApart p pattern → Takes ctx.old ctx.new p source made.items) }
{
    if pattern.properties.is_empty() {
        let declarator = take_all(pattern.target, source, ctx)?;
        let declarators = Vec::from_array(ctx.ast.alloc, [declarator])?;
        return Ok(declarators);
    }
    let declarators = take_rest(pattern, source, ctx)?;
    Ok(declarators)
}

/// The declarators `{ a } = s, _k = k(), { [_k]: b } = s` and
/// `d = babelHelpers.objectWithoutProperties(s, ["a", _k].map(babelHelpers.toPropertyKey))` for the parts of the pattern
/// `{ a, [k()]: b, ...d }` and its source `s`, which is a name.
fn take_rest(
    pattern: RestPattern,
    source: Node,
    ctx: &mut TraverseCtx<TransformState>,
) -> Result<Vec<Node>, AllocError>
    requires plain { are_plain (trees pattern.properties.items) ≡ true }
    requires name { is_name source ≡ true }
    requires room { ctx.old.ast.next + 14 + key_ids (trees pattern.properties.items) < 2 ^ 32 }
    ensures { IfOk result (λ made. TakesBeside ctx.old ctx.new pattern source made.items) }
{
    let RestPattern {
        id,
        span,
        properties,
        target,
    } = pattern;
    let Groups {
        mut declarators,
        properties,
        keys,
        is_read,
    } = split_groups(properties, &source, ctx)?;
    let value = new_value(&source, keys, is_read, ctx)?;
    let without = ObjectPattern {
        id,
        span,
        properties,
    };
    let pattern = without.close(ctx.ast.alloc)?;
    let last = new_variable_declarator(&mut ctx.ast, MADE, pattern, Some(source))?;
    declarators.push(last)?;
    let rest = new_variable_declarator(&mut ctx.ast, MADE, target, Some(value))?;
    declarators.push(rest)?;
    Ok(declarators)
}

/// The declarator `b = babelHelpers.extends({}, (babelHelpers.objectDestructuringEmpty(s), s))` for the name of the rest of the pattern
/// `{ ...b }` and its source `s`, which is a name. Fails only for want of memory.
fn take_all(
    target: Node,
    source: Node,
    ctx: &mut TraverseCtx<TransformState>,
) -> Result<Node, AllocError>
    requires name { is_name source ≡ true }
    requires room { ctx.old.ast.next + 12 < 2 ^ 32 }
    ensures { IfOk result (λ made. TakesAlone ctx.old ctx.new target source made) }
{
    let value = new_all_value(source, ctx)?;
    let declarator = new_variable_declarator(&mut ctx.ast, MADE, target, Some(value))?;
    Ok(declarator)
}

/// Takes a pattern that bears a rest apart.
pub(crate) fn open_pattern(pattern: Node) -> OpenPattern
    requires { is_plain_pattern pattern ≡ true }
    ensures { Opens pattern result }
{
    let ObjectPattern {
        id,
        span,
        mut properties,
    } = ObjectPattern::open(pattern);
    if !ends_in_rest(properties.as_slice()) {
        return OpenPattern::WithoutRest(ObjectPattern {
            id,
            span,
            properties,
        });
    }
    let rest = match properties.pop() {
        Some(rest) => rest,
        None => unreachable!(),
    };
    let RestElement {
        id: _id,
        span: _span,
        argument,
    } = RestElement::open(rest);
    OpenPattern::WithRest(RestPattern {
        id,
        span,
        properties,
        target: argument,
    })
}

/// Whether the last of these members is a rest that is a name.
fn ends_in_rest(members: &[Node]) -> bool
    ensures { result ≡ ends_in_rest members.now }
{
    match members {
        [.., last] => is_named_rest(last),
        [] => false,
    }
}

/// `babelHelpers.objectWithoutProperties(s, ["a"])` for a source `s` and these keys, and
/// `babelHelpers.objectWithoutProperties(s, ["a", _k].map(babelHelpers.toPropertyKey))` where one of them is read.
fn new_value(
    source: &Node,
    keys: Vec<Field>,
    is_read: bool,
    ctx: &mut TraverseCtx<TransformState>,
) -> Result<Node, AllocError>
    requires name { is_name source.now ≡ true }
    requires room { ctx.old.ast.next + 12 < 2 ^ 32 }
    ensures made { IfOk result (λ value. (names : ℕ → Text → Option ℕ) → seen names value ≡ call_node rest_helper (seen names source.now ∷ keys_value is_read (seen_in names (plain_fields keys.items)) ∷ [])) }
    ensures reads { OnOk result (ReadsMore (6 + mapped_ids is_read) ctx.old ctx.new) }
{
    let again = read_once_more(source, ctx)?;
    let value = new_rest_value(again, keys, is_read, ctx)?;
    Ok(value)
}

/// `babelHelpers.extends({}, (babelHelpers.objectDestructuringEmpty(s), s))` for a source `s`.
fn new_all_value(source: Node, ctx: &mut TraverseCtx<TransformState>) -> Result<Node, AllocError>
    requires name { is_name source ≡ true }
    requires room { ctx.old.ast.next + 11 < 2 ^ 32 }
    ensures made { IfOk result (λ value. (names : ℕ → Text → Option ℕ) → seen names value ≡ whole_value (seen names source)) }
    ensures reads { OnOk result (ReadsMore 11 ctx.old ctx.new) }
{
    let again = read_once_more(&source, ctx)?;
    let value = new_whole_value(source, again, ctx)?;
    Ok(value)
}
