//! The properties of a pattern with a rest in groups, each a declarator of its own: a property whose key is read begins one, once that key
//! has a name. ECMA-262, 14.3.3 reads a key where it stands, behind the properties before it.
ghost use Rattle.std.specs.Prelude.{◌+◌, ◌-◌, ◌<◌, ◌≡◌, ◌^◌, IfOk, OnOk, Option, [], false, true, ℕ};
ghost use Rattle.es_tree.specs.Tree.{trees};
ghost use Rattle.es_tree.specs.Words.{Text};
ghost use Rattle.es_resolution.specs.Seen.{seen, seen_among};
ghost use Rattle.es_steps.specs.Nodes.{made};
ghost use Rattle.es_rest_rows.specs.RestRows.{group, text_of_key};
ghost use Rattle.es_rest_shapes.specs.RestShapes.{are_plain, is_name, is_plain_property, reads_key};
ghost use Rattle.lower_object_rest.specs.Groups.{AddsProperty, MakesGroups, NamesKey};
ghost use Rattle.lower_object_rest.specs.Profile.{key_ids, key_ids_by};
ghost use Rattle.lower_temporaries.specs.Takings.{ReadsMore};

use crate::sources::store;
use es_expressions::literals::new_string_literal;
use es_patterns::patterns::{PatternProperty, new_object_pattern};
use es_rest_nodes::keys::key_text;
use es_rest_nodes::patterns::reads_key;
use es_scope::context::TraverseCtx;
use es_statements::program::new_variable_declarator;
use es_tree::builder::AstBuilder;
use es_tree::node::{Field, Node};
use lower_temporaries::declarations::MADE;
use lower_temporaries::readings::read_once_more;
use lower_temporaries::state::TransformState;
use std::alloc::AllocError;
use std::mem;

/// What was made so far of the properties of a pattern and its source.
#[derive(Drop)]
pub(crate) struct Groups {
    /// The declarators of the groups that are closed, and of the names of keys.
    pub(crate) declarators: Vec<Node>,
    /// The properties of the group that is open.
    pub(crate) properties: Vec<Node>,
    /// The keys, as elements of an array.
    pub(crate) keys: Vec<Field>,
    /// Whether one of them is read.
    pub(crate) is_read: bool,
}

/// A property whose key has a name.
#[derive(Drop)]
struct NamedKey {
    /// `_k = k()`
    declarator: Node,
    /// `[_k]: b`
    property: Node,
    /// `_k`, as an element of the keys.
    element: Node,
}

/// Of the properties `a, [k()]: b` and the source `s`: the declarators `{ a } = s, _k = k()`, the open group `[_k]: b`, and the keys
/// `"a", _k`. Fails only for want of memory.
pub(crate) fn split_groups(
    properties: Vec<Node>,
    source: &Node,
    ctx: &mut TraverseCtx<TransformState>,
) -> Result<Groups, AllocError>
    requires plain { are_plain (trees properties.items) ≡ true }
    requires name { is_name source.now ≡ true }
    requires room { ctx.old.ast.next + key_ids (trees properties.items) < 2 ^ 32 }
    ensures { IfOk result (λ groups. MakesGroups ctx.old ctx.new properties.items source.now groups) }
{
    let mut groups = Groups {
        declarators: Vec::new(ctx.ast.alloc),
        properties: Vec::new(ctx.ast.alloc),
        keys: Vec::new(ctx.ast.alloc),
        is_read: false,
    };
    for property in properties {
        add_property(property, source, &mut groups, ctx)?;
    }
    Ok(groups)
}

/// One property more: `[k()]: b` begins a group, and any other goes into the open one.
fn add_property(
    property: Node,
    source: &Node,
    groups: &mut Groups,
    ctx: &mut TraverseCtx<TransformState>,
) -> Result<(), AllocError>
    requires plain { is_plain_property property ≡ true }
    requires name { is_name source.now ≡ true }
    requires room { ctx.old.ast.next + key_ids_by (reads_key property) < 2 ^ 32 }
    ensures { OnOk result (AddsProperty ctx.old ctx.new property source.now groups.old groups.new) }
{
    if reads_key(&property) {
        begin_group(property, source, groups, ctx)?;
        return Ok(());
    }
    let key = new_key(&property, &mut ctx.ast)?;
    groups.keys.push(Field::One(key))?;
    groups.properties.push(property)?;
    Ok(())
}

/// `{ a } = s` for the open group `a`, and `_k = k()` for the key of `[k()]: b`; the group `[_k]: b` is then open.
fn begin_group(
    property: Node,
    source: &Node,
    groups: &mut Groups,
    ctx: &mut TraverseCtx<TransformState>,
) -> Result<(), AllocError>
    requires read { reads_key property ≡ true }
    requires name { is_name source.now ≡ true }
    requires room { ctx.old.ast.next + 7 < 2 ^ 32 }
    ensures { OnOk result (AddsProperty ctx.old ctx.new property source.now groups.old groups.new) }
{
    let closed = mem::replace(&mut groups.properties, Vec::new(ctx.ast.alloc));
    let group = new_group(closed, source, ctx)?;
    let NamedKey {
        declarator,
        property,
        element,
    } = name_key(property, ctx)?;
    groups.declarators.push(group)?;
    groups.declarators.push(declarator)?;
    groups.properties.push(property)?;
    groups.keys.push(Field::One(element))?;
    groups.is_read = true;
    Ok(())
}

/// `{ a } = s` for the properties `a` and the source `s`.
pub(crate) fn new_group(
    properties: Vec<Node>,
    source: &Node,
    ctx: &mut TraverseCtx<TransformState>,
) -> Result<Node, AllocError>
    requires name { is_name source.now ≡ true }
    requires room { ctx.old.ast.next + 3 < 2 ^ 32 }
    ensures made { IfOk result (λ declarator. (names : ℕ → Text → Option ℕ) → seen names declarator ≡ group (made [] []) (seen names source.now) (seen_among names (trees properties.items))) }
    ensures reads { OnOk result (ReadsMore 3 ctx.old ctx.new) }
{
    let again = read_once_more(source, ctx)?;
    let pattern = new_object_pattern(&mut ctx.ast, MADE, properties)?;
    let declarator = new_variable_declarator(&mut ctx.ast, MADE, pattern, Some(again))?;
    Ok(declarator)
}

/// `_k = k()` and `[_k]: b` for the property `[k()]: b`, with a fresh name.
fn name_key(property: Node, ctx: &mut TraverseCtx<TransformState>) -> Result<NamedKey, AllocError>
    requires read { reads_key property ≡ true }
    requires room { ctx.old.ast.next + 4 < 2 ^ 32 }
    ensures { IfOk result (λ named. NamesKey ctx.old ctx.new property named) }
{
    let PatternProperty {
        id,
        span,
        shorthand,
        computed,
        key,
        value,
    } = PatternProperty::open(property);
    let (declarator, name) = store(key, ctx)?;
    let element = read_once_more(&name, ctx)?;
    let keyed = PatternProperty {
        id,
        span,
        shorthand,
        computed,
        key: name,
        value,
    };
    let property = keyed.close(ctx.ast.alloc)?;
    Ok(NamedKey {
        declarator,
        property,
        element,
    })
}

/// The key of a property that isn't read, as a text: `"a"` for `a: x`, `"a": x` and `["a"]: x`, `"16"` for `0x10: x`, and `"null"` for `[null]: x`.
fn new_key(property: &Node, ast: &mut AstBuilder) -> Result<Node, AllocError>
    requires plain { is_plain_property property.now ≡ true }
    requires room { ast.old.next + 1 < 2 ^ 32 }
    ensures made { IfOk result (λ key. (names : ℕ → Text → Option ℕ) → seen names key ≡ text_of_key property.now) }
    ensures counted { OnOk result (ast.new.next ≡ ast.old.next + 1) }
{
    let key = match property.child_at(0) {
        Some(key) => key,
        None => unreachable!(),
    };
    let text = key_text(key, ast.alloc)?;
    let made = new_string_literal(ast, MADE, text)?;
    Ok(made)
}
