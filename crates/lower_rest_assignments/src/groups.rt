//! The pattern of an assignment, as assignments of what is stored: its properties in groups, one pass over them, and what is left for the rest. A
//! property whose key is read begins a group, once that key has a name.
ghost use Rattle.std.specs.Prelude.{◌≡◌, ◌+◌, ◌-◌, ◌^◌, ◌<◌, ◌∷◌, [], IfOk, OnOk, length, true};
ghost use Rattle.es_tree.specs.CoreStaticRules.{is_simple_target};
ghost use Rattle.es_tree.specs.Parens.{without_parens};
ghost use Rattle.es_tree.specs.PropertyKeys.{is_read_key};
ghost use Rattle.es_tree.specs.Tree.{kind_of, trees};
ghost use Rattle.es_patterns.specs.PatternsPlain.{plain_target_property};
ghost use Rattle.es_traverse.specs.Loads.{load, members_allowance, trees_load};
ghost use Rattle.lower_temporaries.specs.Declarators.{bound_as};
ghost use Rattle.lower_rest_assignments.specs.Assignments.{are_properties, is_lowerable_pattern, is_property};
ghost use Rattle.lower_rest_assignments.specs.Groups.{AddsAlone, AddsGroups, AddsPattern, AddsProperty, Opens, SplitsGroups};

use crate::constructs::is_member;
use crate::values::{Stored, assign_rest, assign_source, assign_whole, read, store};
use es_expressions::literals::new_string_literal;
use es_patterns::patterns::{ObjectTarget, TargetProperty, TargetRest, new_object_target};
use es_rest_nodes::keys::{is_literal_key, key_text};
use es_scope::context::TraverseCtx;
use es_scope::context_names::BoundIdentifier;
use es_tree::ids::{NodeId, Span};
use es_tree::node::{Field, Node};
use es_tree::parens::strip_parens;
use lower_temporaries::declarations::MADE;
use lower_temporaries::state::TransformState;
use std::alloc::AllocError;
use std::mem;

/// A pattern with a rest, taken apart.
#[derive(Drop)]
struct RestPattern {
    id: NodeId,
    span: Span,
    /// The properties before the rest.
    properties: Vec<Node>,
    /// What the rest is assigned to.
    target: Node,
}

/// What was made so far of the properties of a pattern.
#[derive(Drop)]
struct OpenGroups {
    /// The assignments so far: of the value, of the groups that are closed, and of keys to their names.
    assignments: Vec<Node>,
    /// The properties of the group that is open.
    properties: Vec<Node>,
    /// The keys, as elements of an array.
    keys: Vec<Field>,
    /// Whether one of them is read.
    is_read: bool,
}

/// The assignments that come for a pattern with a rest, behind those before: `{ a } = s` and
/// `b = babelHelpers.objectWithoutProperties(s, ["a"])` for `{ a, ...b }` and the stored source `s`. Fails only for want of memory.
pub(crate) fn add_pattern(
    pattern: Node,
    source: &BoundIdentifier,
    assignments: Vec<Node>,
    ctx: &mut TraverseCtx<TransformState>,
) -> Result<Vec<Node>, AllocError>
    requires lowerable { is_lowerable_pattern pattern ≡ true }
    requires there { 0 < length ctx.old.state.var_declarations }
    requires room { ctx.old.ast.next + load pattern < 2 ^ 32 + 12 }
    ensures { IfOk result (λ all. AddsPattern (bound_as source.now) ctx.old ctx.new pattern assignments.items all.items) }
{
    let opened = open_pattern(pattern);
    if opened.properties.is_empty() {
        let all = add_alone(opened.target, source, assignments, ctx)?;
        return Ok(all);
    }
    let all = add_groups(opened, source, assignments, ctx)?;
    Ok(all)
}

/// Takes a pattern with a rest apart.
fn open_pattern(pattern: Node) -> RestPattern
    requires { is_lowerable_pattern pattern ≡ true }
    ensures { Opens pattern result }
{
    let ObjectTarget {
        id,
        span,
        mut properties,
    } = ObjectTarget::open(pattern);
    let rest = match properties.pop() {
        Some(rest) => rest,
        None => unreachable!(),
    };
    let TargetRest {
        id: _id,
        span: _span,
        argument,
    } = TargetRest::open(rest);
    RestPattern {
        id,
        span,
        properties,
        target: argument,
    }
}

/// `b = babelHelpers.extends({}, (babelHelpers.objectDestructuringEmpty(s), s))` for the target `b` of a rest that stands alone, with `{} = s` in
/// front where it is a member, which is evaluated once that has thrown for null and undefined.
fn add_alone(
    target: Node,
    source: &BoundIdentifier,
    assignments: Vec<Node>,
    ctx: &mut TraverseCtx<TransformState>,
) -> Result<Vec<Node>, AllocError>
    requires room { ctx.old.ast.next + 16 < 2 ^ 32 }
    ensures { IfOk result (λ all. AddsAlone (bound_as source.now) ctx.old ctx.new target assignments.items all.items) }
{
    let mut all = assignments;
    let is_evaluated = is_member(strip_parens(&target));
    let rest = assign_whole(target, source, ctx)?;
    if is_evaluated {
        let properties = Vec::new(ctx.ast.alloc);
        let empty = new_object_target(&mut ctx.ast, MADE, properties)?;
        let asked = assign_source(empty, source, ctx)?;
        all.push(asked)?;
        all.push(rest)?;
        return Ok(all);
    }
    all.push(rest)?;
    Ok(all)
}

/// `{ a } = s`, `_k = k()`, `{ [_k]: b } = s` and `d = babelHelpers.objectWithoutProperties(s, ["a", _k].map(babelHelpers.toPropertyKey))` for the
/// parts of the pattern `{ a, [k()]: b, ...d }`.
fn add_groups(
    pattern: RestPattern,
    source: &BoundIdentifier,
    assignments: Vec<Node>,
    ctx: &mut TraverseCtx<TransformState>,
) -> Result<Vec<Node>, AllocError>
    requires whole { are_properties (trees pattern.properties.items) ≡ true }
    requires simple { is_simple_target (kind_of (without_parens pattern.target)) ≡ true }
    requires there { 0 < length ctx.old.state.var_declarations }
    requires room { ctx.old.ast.next + trees_load (trees pattern.properties.items) + members_allowance (trees pattern.properties.items) + 15 < 2 ^ 32 }
    ensures { IfOk result (λ all. AddsGroups (bound_as source.now) ctx.old ctx.new pattern assignments.items all.items) }
{
    let RestPattern {
        id,
        span,
        properties,
        target,
    } = pattern;
    let OpenGroups {
        mut assignments,
        properties,
        keys,
        is_read,
    } = split_groups(properties, source, assignments, ctx)?;
    let without = ObjectTarget {
        id,
        span,
        properties,
    };
    let group = without.close(ctx.ast.alloc)?;
    let last = assign_source(group, source, ctx)?;
    let rest = assign_rest(target, source, keys, is_read, ctx)?;
    assignments.push(last)?;
    assignments.push(rest)?;
    Ok(assignments)
}

/// Of the properties `a, [k()]: b`: the assignments `{ a } = s` and `_k = k()`, the open group `[_k]: b`, and the keys `"a", _k`.
fn split_groups(
    properties: Vec<Node>,
    source: &BoundIdentifier,
    assignments: Vec<Node>,
    ctx: &mut TraverseCtx<TransformState>,
) -> Result<OpenGroups, AllocError>
    requires whole { are_properties (trees properties.items) ≡ true }
    requires there { 0 < length ctx.old.state.var_declarations }
    requires room { ctx.old.ast.next + trees_load (trees properties.items) + members_allowance (trees properties.items) < 2 ^ 32 - 1 }
    ensures { IfOk result (λ groups. SplitsGroups (bound_as source.now) ctx.old ctx.new assignments.items properties.items [] groups) }
{
    let mut groups = OpenGroups {
        assignments,
        properties: Vec::new(ctx.ast.alloc),
        keys: Vec::new(ctx.ast.alloc),
        is_read: false,
    };
    for property in properties {
        add_property(property, source, &mut groups, ctx)?;
    }
    Ok(groups)
}

/// One property more: `[k()]: b` begins a group, and any other goes into the open one.
fn add_property(
    property: Node,
    source: &BoundIdentifier,
    groups: &mut OpenGroups,
    ctx: &mut TraverseCtx<TransformState>,
) -> Result<(), AllocError>
    requires whole { is_property property ≡ true }
    requires there { 0 < length ctx.old.state.var_declarations }
    requires room { ctx.old.ast.next + 9 < 2 ^ 32 - 1 }
    ensures { OnOk result (AddsProperty (bound_as source.now) ctx.old ctx.new property groups.old groups.new) }
{
    let opened = TargetProperty::open(property);
    if reads_key(&opened) {
        begin_group(opened, source, groups, ctx)?;
        return Ok(());
    }
    let text = key_text(&opened.key, ctx.ast.alloc)?;
    let key = new_string_literal(&mut ctx.ast, MADE, text)?;
    let property = opened.close(ctx.ast.alloc)?;
    groups.keys.push(Field::One(key))?;
    groups.properties.push(property)?;
    Ok(())
}

/// Whether the key of a property is read: it is computed, and no literal.
fn reads_key(property: &TargetProperty) -> bool
    ensures { result ≡ is_read_key property.now.computed property.now.key }
{
    property.computed && !is_literal_key(&property.key)
}

/// `{ a } = s` for the open group `a`, and `_k = k()` for the key of `[k()]: b`; the group `[_k]: b` is then open.
fn begin_group(
    property: TargetProperty,
    source: &BoundIdentifier,
    groups: &mut OpenGroups,
    ctx: &mut TraverseCtx<TransformState>,
) -> Result<(), AllocError>
    requires read { is_read_key property.computed property.key ≡ true }
    requires there { 0 < length ctx.old.state.var_declarations }
    requires room { ctx.old.ast.next + 9 < 2 ^ 32 - 1 }
    ensures { OnOk result (AddsProperty (bound_as source.now) ctx.old ctx.new (plain_target_property property) groups.old groups.new) }
{
    let closed = mem::replace(&mut groups.properties, Vec::new(ctx.ast.alloc));
    let group = new_object_target(&mut ctx.ast, MADE, closed)?;
    let last = assign_source(group, source, ctx)?;
    groups.assignments.push(last)?;
    let TargetProperty {
        id,
        span,
        shorthand,
        computed,
        key,
        value,
    } = property;
    let Stored { name, assignment } = store(key, ctx)?;
    groups.assignments.push(assignment)?;
    let target = read(&name, ctx)?;
    let element = read(&name, ctx)?;
    let keyed = TargetProperty {
        id,
        span,
        shorthand,
        computed,
        key: target,
        value,
    };
    let property = keyed.close(ctx.ast.alloc)?;
    groups.properties.push(property)?;
    groups.keys.push(Field::One(element))?;
    groups.is_read = true;
    Ok(())
}
