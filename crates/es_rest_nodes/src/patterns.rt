//! Patterns with a rest (ECMA-262, 14.3.3), and which of them are plain: the rest at the end is a name, the text of each property's key stands in the
//! program, or it is computed, and the patterns in the properties are so, too.
ghost use Rattle.std.specs.Prelude.{◌≡◌, ◌||◌};
ghost use Rattle.es_tree.specs.Tree.{trees};
ghost use Rattle.es_tree.specs.Views.{plain_field, plain_fields};
ghost use Rattle.es_rest_shapes.specs.RestShapes.{are_plain, are_plain_members, are_plain_parts, bears_among, bears_by, bears_first, bears_rest, bears_second, is_known_key, is_name, is_named_rest, is_plain_first, is_plain_pattern, is_plain_property, is_plain_target, is_plain_value, is_rest_declarator, reads_key};
ghost use Rattle.es_rest_nodes.specs.RestFields.{declares_pattern, has_read_key, is_one_name, is_plain_pair};

use crate::keys::{has_no_fields, is_literal_key};
use es_nodes::construct::is_object_rest;
use es_tree::kind::Kind;
use es_tree::node::{Field, Node};

/// Whether the node is an object pattern with a rest, of bindings or of assignment targets, or one with such a pattern in a property, behind a
/// default value or not: `{ a: { ...b } }`; and so its property, and a pattern with a default value.
#[cycle(bearing)]
pub fn bears_rest(node: &Node) -> bool
    ensures { result ≡ bears_rest node.now }
{
    match &node.kind {
        Kind::ObjectPattern => is_object_rest(node) || bears_first(node.fields.as_slice()),
        Kind::PatternProperty { .. } => bears_second(node.fields.as_slice()),
        Kind::AssignmentPattern => bears_first(node.fields.as_slice()),
        _ => is_object_rest(node),
    }
}

#[cycle(bearing)]
fn bears_first(fields: &[Field]) -> bool
    ensures { result ≡ bears_first (plain_fields fields.now) }
{
    match fields {
        [first, ..] => bears_by(first),
        [] => false,
    }
}

#[cycle(bearing)]
fn bears_second(fields: &[Field]) -> bool
    ensures { result ≡ bears_second (plain_fields fields.now) }
{
    match fields {
        [_, second, ..] => bears_by(second),
        _ => false,
    }
}

#[cycle(bearing)]
fn bears_by(field: &Field) -> bool
    ensures { result ≡ bears_by (plain_field field.now) }
{
    match field {
        Field::Missing => false,
        Field::One(node) => bears_rest(node),
        Field::Many(nodes) | Field::Statements(nodes) => bears_among(nodes.as_slice()),
    }
}

#[cycle(bearing)]
fn bears_among(nodes: &[Node]) -> bool
    ensures { result ≡ bears_among (trees nodes.now) }
{
    for node in nodes {
        if bears_rest(node) {
            return true;
        }
    }
    false
}

/// Whether the node is a declarator of one.
pub(crate) fn is_rest_declarator(node: &Node) -> bool
    ensures { result ≡ is_rest_declarator node.now }
{
    match &node.kind {
        Kind::VariableDeclarator => declares_pattern(node.fields.as_slice()),
        _ => false,
    }
}

fn declares_pattern(fields: &[Field]) -> bool
    ensures { result ≡ declares_pattern (plain_fields fields.now) }
{
    match fields {
        [Field::One(pattern), ..] => bears_rest(pattern),
        _ => false,
    }
}

/// Whether the node is a pattern that bears a rest, of plain properties, and a rest that is a name at its end, or none:
/// `{ a, "b": c = 1, [2]: { ...d }, [k]: e, ...g }`.
pub fn is_plain_pattern(node: &Node) -> bool
    ensures { result ≡ is_plain_pattern node.now }
{
    match &node.kind {
        Kind::ObjectPattern => bears_rest(node) && are_plain_parts(node.fields.as_slice()),
        _ => false,
    }
}

/// Whether these are a list of plain properties, and a rest that is a name at its end, or none.
#[cycle(plain)]
fn are_plain_parts(fields: &[Field]) -> bool
    ensures { result ≡ are_plain_parts (plain_fields fields.now) }
{
    match fields {
        [Field::Many(members)] => are_plain_members(members.as_slice()),
        _ => false,
    }
}

#[cycle(plain)]
fn are_plain_members(members: &[Node]) -> bool
    ensures { result ≡ are_plain_members (trees members.now) }
{
    match members {
        [properties @ .., last] => may_stand_last(last) && are_plain(properties),
        [] => true,
    }
}

/// Whether the last member of a pattern is a plain property, or a rest that is a name.
#[cycle(plain)]
fn may_stand_last(member: &Node) -> bool
    ensures { result ≡ (is_plain_property member.now || is_named_rest member.now) }
{
    is_plain_property(member) || is_named_rest(member)
}

#[cycle(plain)]
fn are_plain(properties: &[Node]) -> bool
    ensures { result ≡ are_plain (trees properties.now) }
{
    for property in properties {
        if !is_plain_property(property) {
            return false;
        }
    }
    true
}

/// Whether the node is a property whose key is computed, or a name or a literal, and in whose value each pattern that bears a rest is plain.
#[cycle(plain)]
fn is_plain_property(property: &Node) -> bool
    ensures { result ≡ is_plain_property property.now }
{
    match &property.kind {
        Kind::PatternProperty { computed, .. } => {
            is_plain_pair(*computed, property.fields.as_slice())
        }
        _ => false,
    }
}

/// Whether these are a key and a value of such a property.
#[cycle(plain)]
fn is_plain_pair(computed: bool, fields: &[Field]) -> bool
    ensures { result ≡ is_plain_pair computed (plain_fields fields.now) }
{
    match fields {
        [Field::One(key), Field::One(value)] => {
            (computed || is_known_key(key)) && is_plain_value(value)
        }
        _ => false,
    }
}

#[cycle(plain)]
fn is_plain_value(value: &Node) -> bool
    ensures { result ≡ is_plain_value value.now }
{
    match &value.kind {
        Kind::ObjectPattern => are_plain_parts(value.fields.as_slice()),
        Kind::AssignmentPattern => is_plain_first(value.fields.as_slice()),
        _ => !bears_rest(value),
    }
}

/// Whether these are a target and its default value, and the target is plain.
#[cycle(plain)]
fn is_plain_first(fields: &[Field]) -> bool
    ensures { result ≡ is_plain_first (plain_fields fields.now) }
{
    match fields {
        [Field::One(target), Field::One(..)] => is_plain_target(target),
        _ => false,
    }
}

#[cycle(plain)]
fn is_plain_target(target: &Node) -> bool
    ensures { result ≡ is_plain_target target.now }
{
    match &target.kind {
        Kind::ObjectPattern => are_plain_parts(target.fields.as_slice()),
        _ => !bears_rest(target),
    }
}

/// Whether the node is a property whose key is read: it is computed, and no literal.
pub fn reads_key(property: &Node) -> bool
    ensures { result ≡ reads_key property.now }
{
    match &property.kind {
        Kind::PatternProperty { computed, .. } => {
            has_read_key(*computed, property.fields.as_slice())
        }
        _ => false,
    }
}

fn has_read_key(computed: bool, fields: &[Field]) -> bool
    ensures { result ≡ has_read_key computed (plain_fields fields.now) }
{
    match fields {
        [Field::One(key), Field::One(..)] => computed && !is_literal_key(key),
        _ => false,
    }
}

/// Whether a key is a name or a literal.
fn is_known_key(key: &Node) -> bool
    ensures { result ≡ is_known_key key.now }
{
    is_name(key) || is_literal_key(key)
}

/// Whether a member of a pattern is a rest that is a name.
pub fn is_named_rest(member: &Node) -> bool
    ensures { result ≡ is_named_rest member.now }
{
    match &member.kind {
        Kind::RestElement => is_one_name(member.fields.as_slice()),
        _ => false,
    }
}

fn is_one_name(fields: &[Field]) -> bool
    ensures { result ≡ is_one_name (plain_fields fields.now) }
{
    match fields {
        [Field::One(name)] => is_name(name),
        _ => false,
    }
}

/// Whether the node is a name.
pub fn is_name(node: &Node) -> bool
    ensures { result ≡ is_name node.now }
{
    match &node.kind {
        Kind::Identifier { .. } => has_no_fields(node.fields.as_slice()),
        _ => false,
    }
}
