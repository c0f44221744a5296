//! A pattern with no rest of its own and patterns with one in its properties: `{ a: { ...b }, c } = s` becomes `{ a: x } = s`, what comes of
//! `{ ...b } = x`, and `{ c } = s`. ECMA-262, 14.3.3 goes through the properties in their order, and through a pattern in one of them before the
//! property behind it is read.
ghost use Rattle.std.specs.Prelude.{◌+◌, ◌<◌, ◌≡◌, ◌^◌, IfOk, OnOk, true};
ghost use Rattle.es_tree.specs.Tree.{trees};
ghost use Rattle.es_patterns.specs.PatternsPlain.{plain_object_pattern};
ghost use Rattle.es_rest_shapes.specs.RestShapes.{are_plain, bears_among, bears_rest, is_name, is_plain_property, is_plain_value};
ghost use Rattle.lower_nodes.specs.Nodes.{owed};
ghost use Rattle.lower_object_rest.specs.Declarators.{AddsKept};
ghost use Rattle.lower_object_rest.specs.Nested.{AddsPart, PutsInto, TakesOut};
ghost use Rattle.lower_object_rest.specs.Profile.{nested_ids_by, rest_owes};

use crate::declarations::add_pattern;
use crate::groups::new_group;
use crate::sources::new_reference;
use es_patterns::patterns::{AssignmentPattern, ObjectPattern, PatternProperty};
use es_rest_nodes::patterns::bears_rest;
use es_scope::context::TraverseCtx;
use es_statements::program::new_variable_declarator;
use es_tree::kind::Kind;
use es_tree::node::Node;
use lower_temporaries::declarations::MADE;
use lower_temporaries::state::TransformState;
use std::alloc::{AllocError, Global};
use std::mem;

/// A property whose pattern was taken out of it.
#[derive(Drop)]
pub(crate) struct PropertyOut {
    /// `a: x`
    pub(crate) property: Node,
    /// The pattern in whose place `x` stands.
    pub(crate) pattern: Node,
    /// `x`, as it is read.
    pub(crate) name: Node,
}

/// `{ a, b: x } = s`, those that come of `{ ...c } = x`, and `{ d } = s` for the parts of the pattern `{ a, b: { ...c }, d }` and its source
/// `s`, which is kept, behind those made before. Fails only for want of memory.
#[cycle(lower)]
pub(crate) fn add_properties(
    pattern: ObjectPattern,
    source: Node,
    made: &mut Vec<Node>,
    ctx: &mut TraverseCtx<TransformState>,
) -> Result<(), AllocError>
    requires plain { are_plain (trees pattern.properties.items) ≡ true }
    requires bears { bears_among (trees pattern.properties.items) ≡ true }
    requires name { is_name source ≡ true }
    requires room { ctx.old.ast.next + owed rest_owes (plain_object_pattern pattern) < 2 ^ 32 + 2 }
    ensures { OnOk result (AddsKept ctx.old ctx.new (plain_object_pattern pattern) source made.old.items made.new.items) }
{
    let ObjectPattern {
        id,
        span,
        properties,
    } = pattern;
    let mut group = Vec::new(ctx.ast.alloc);
    for property in properties {
        add_property(property, &source, &mut group, made, ctx)?;
    }
    if group.is_empty() {
        return Ok(());
    }
    let behind = ObjectPattern {
        id,
        span,
        properties: group,
    };
    let pattern = behind.close(ctx.ast.alloc)?;
    let last = new_variable_declarator(&mut ctx.ast, MADE, pattern, Some(source))?;
    made.push(last)?;
    Ok(())
}

/// One property more: it goes into the open group, and where a pattern in it bears a rest, `{ a, b: x } = s` closes the group, with those
/// that come of `{ ...c } = x` behind.
#[cycle(lower)]
fn add_property(
    property: Node,
    source: &Node,
    group: &mut Vec<Node>,
    made: &mut Vec<Node>,
    ctx: &mut TraverseCtx<TransformState>,
) -> Result<(), AllocError>
    requires plain { is_plain_property property ≡ true }
    requires name { is_name source.now ≡ true }
    requires room { ctx.old.ast.next + nested_ids_by (bears_rest property) + owed rest_owes property < 2 ^ 32 + 3 }
    ensures { OnOk result (AddsPart ctx.old ctx.new property source.now group.old.items made.old.items group.new.items made.new.items) }
{
    if !bears_rest(&property) {
        group.push(property)?;
        return Ok(());
    }
    let PropertyOut {
        property,
        pattern,
        name,
    } = take_out(property, ctx)?;
    group.push(property)?;
    let closed = mem::replace(group, Vec::new(ctx.ast.alloc));
    let declarator = new_group(closed, source, ctx)?;
    made.push(declarator)?;
    add_pattern(pattern, name, made, ctx)?;
    Ok(())
}

/// `b: x` and the pattern `{ ...c }` for the property `b: { ...c }`, with a fresh name `x`, and `b: x = d` for `b: { ...c } = d`.
fn take_out(
    property: Node,
    ctx: &mut TraverseCtx<TransformState>,
) -> Result<PropertyOut, AllocError>
    requires plain { is_plain_property property ≡ true }
    requires bears { bears_rest property ≡ true }
    requires room { ctx.old.ast.next + 2 < 2 ^ 32 }
    ensures { IfOk result (λ out. TakesOut ctx.old ctx.new property out) }
{
    let PatternProperty {
        id,
        span,
        shorthand,
        computed,
        key,
        value,
    } = PatternProperty::open(property);
    let (binding, name) = new_reference(ctx)?;
    let (pattern, value) = put_name(value, binding, ctx.ast.alloc)?;
    let named = PatternProperty {
        id,
        span,
        shorthand,
        computed,
        key,
        value,
    };
    let property = named.close(ctx.ast.alloc)?;
    Ok(PropertyOut {
        property,
        pattern,
        name,
    })
}

/// The pattern that stands in a value, and the value with a name in its place: of `{ ...c }` it is `x`, and of `{ ...c } = d` it is `x = d`.
fn put_name(value: Node, name: Node, alloc: Global) -> Result<(Node, Node), AllocError>
    requires plain { is_plain_value value ≡ true }
    requires bears { bears_rest value ≡ true }
    ensures { IfOk result (λ put. PutsInto name value put.0 put.1) }
{
    match &value.kind {
        Kind::AssignmentPattern => {
            let AssignmentPattern {
                id,
                span,
                left,
                right,
            } = AssignmentPattern::open(value);
            let named = AssignmentPattern {
                id,
                span,
                left: name,
                right,
            };
            let with_default = named.close(alloc)?;
            Ok((left, with_default))
        }
        _ => Ok((value, name)),
    }
}
