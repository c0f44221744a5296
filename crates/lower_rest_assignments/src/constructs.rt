//! Which assignments to a pattern with a rest are lowered (ECMA-262, 13.15.5).
ghost use Rattle.std.specs.Prelude.{◌≡◌};
ghost use Rattle.es_tree.specs.CoreStaticRules.{is_simple_target};
ghost use Rattle.es_tree.specs.HasForm.{same_type};
ghost use Rattle.es_tree.specs.Tree.{fields_of, kind_of, label_of, trees};
ghost use Rattle.es_tree.specs.Views.{plain_fields};
ghost use Rattle.es_tree.specs.declared.ast_type.AstType.TheVariants.{MemberExpression};
ghost use Rattle.lower_rest_assignments.specs.Assignments.{are_members, are_properties, has_members, has_simple_target, is_lowerable_assignment, is_lowerable_pattern, is_property, is_simple_rest, takes_pattern};

use es_tree::kind::Kind;
use es_tree::node::{Field, Node};
use es_tree::operators::AssignmentOperator;
use es_tree::parens::strip_parens;
use lower_temporaries::shapes::is_pair;

/// Whether the node assigns to an object pattern of properties and a rest at its end, whose target is a name or a member.
pub(crate) fn is_lowerable(node: &Node) -> bool
    ensures { result ≡ is_lowerable_assignment (kind_of node.now) (label_of node.now) (fields_of node.now) }
{
    match &node.kind {
        Kind::AssignmentExpression { operator } => {
            matches!(operator, AssignmentOperator::Assign) && takes_pattern(node.fields.as_slice())
        }
        _ => false,
    }
}

/// Whether these are such a pattern and a value.
fn takes_pattern(fields: &[Field]) -> bool
    ensures { result ≡ takes_pattern (plain_fields fields.now) }
{
    match fields {
        [Field::One(pattern), Field::One(..)] => is_lowerable_pattern(pattern),
        _ => false,
    }
}

fn is_lowerable_pattern(pattern: &Node) -> bool
    ensures { result ≡ is_lowerable_pattern pattern.now }
{
    match &pattern.kind {
        Kind::ObjectTarget => has_members(pattern.fields.as_slice()),
        _ => false,
    }
}

fn has_members(fields: &[Field]) -> bool
    ensures { result ≡ has_members (plain_fields fields.now) }
{
    match fields {
        [Field::Many(members)] => are_members(members.as_slice()),
        _ => false,
    }
}

fn are_members(members: &[Node]) -> bool
    ensures { result ≡ are_members (trees members.now) }
{
    match members {
        [properties @ .., last] => is_simple_rest(last) && are_properties(properties),
        [] => false,
    }
}

fn are_properties(members: &[Node]) -> bool
    ensures { result ≡ are_properties (trees members.now) }
{
    for member in members {
        if !is_property(member) {
            return false;
        }
    }
    true
}

/// Whether the node is a property: a key and a target.
fn is_property(member: &Node) -> bool
    ensures { result ≡ is_property member.now }
{
    match &member.kind {
        Kind::TargetProperty { .. } => is_pair(member.fields.as_slice()),
        _ => false,
    }
}

/// Whether the node is a rest whose target is a name or a member, maybe in parentheses.
fn is_simple_rest(member: &Node) -> bool
    ensures { result ≡ is_simple_rest member.now }
{
    match &member.kind {
        Kind::TargetRest => has_simple_target(member.fields.as_slice()),
        _ => false,
    }
}

fn has_simple_target(fields: &[Field]) -> bool
    ensures { result ≡ has_simple_target (plain_fields fields.now) }
{
    match fields {
        [Field::One(target)] => is_simple_target(strip_parens(target)),
        _ => false,
    }
}

fn is_simple_target(target: &Node) -> bool
    ensures { result ≡ is_simple_target (kind_of target.now) }
{
    matches!(
        target.kind,
        Kind::Identifier { .. } | Kind::MemberExpression { .. }
    )
}

/// Whether the node is a member.
pub(crate) fn is_member(target: &Node) -> bool
    ensures { result ≡ same_type (kind_of target.now) MemberExpression }
{
    matches!(target.kind, Kind::MemberExpression { .. })
}
