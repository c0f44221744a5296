//! Heads of loops that declare by `using` (Explicit Resource Management, 14.7.5): `for (using a of b) f(a);`.
ghost use Rattle.std.specs.Prelude.{◌≡◌, option_copied};
ghost use Rattle.es_tree.specs.Tree.{fields_of, kind_of, label_of, trees};
ghost use Rattle.es_tree.specs.Views.{plain_field, plain_fields};
ghost use Rattle.es_using_heads.specs.Heads.{asks_its_name, moves_using};
ghost use Rattle.es_pattern_moves.specs.PatternMoves.{meets};
ghost use Rattle.es_using_nodes.specs.HeadFields.{bare_name, declared_name, head_name, in_head, in_three, listed_name, name_without, not_met, only_if_name, only_name};

use es_move_nodes::standing::meets;
use es_rest_nodes::patterns::is_name;
use es_tree::kind::Kind;
use es_tree::node::{Field, Node};
use es_tree::operators::VariableDeclarationKind;

/// Whether a `using` moves out of the head of the loop that the node is: it declares one name, which the right side doesn't ask.
pub fn moves_using(node: &Node) -> bool
    ensures { result ≡ moves_using (kind_of node.now) (label_of node.now) (fields_of node.now) }
{
    match &node.kind {
        Kind::ForOfStatement { .. } => moves_from_head(node.fields.as_slice()),
        _ => false,
    }
}

/// Whether the node is a loop whose head declares a name by `using` that the right side asks, before it is set: `for (using a of a.b) f(a);`.
pub fn asks_its_name(node: &Node) -> bool
    ensures { result ≡ asks_its_name (kind_of node.now) (label_of node.now) (fields_of node.now) }
{
    match &node.kind {
        Kind::ForOfStatement { .. } => asks_in_fields(node.fields.as_slice()),
        _ => false,
    }
}

fn moves_from_head(fields: &[Field]) -> bool
    ensures { result ≡ in_three not_met (plain_fields fields.now) }
{
    match fields {
        [Field::One(head), Field::One(source), Field::One(..)] => moves_in_head(head, source),
        _ => false,
    }
}

fn asks_in_fields(fields: &[Field]) -> bool
    ensures { result ≡ in_three meets (plain_fields fields.now) }
{
    match fields {
        [Field::One(head), Field::One(source), Field::One(..)] => asks_in_head(head, source),
        _ => false,
    }
}

fn moves_in_head(head: &Node, source: &Node) -> bool
    ensures { result ≡ in_head not_met head.now source.now }
{
    match head_name(head) {
        Some(name) => !meets(name, source),
        None => false,
    }
}

fn asks_in_head(head: &Node, source: &Node) -> bool
    ensures { result ≡ in_head meets head.now source.now }
{
    match head_name(head) {
        Some(name) => meets(name, source),
        None => false,
    }
}

/// The name `a` that the head `using a` declares alone, without a value.
fn head_name(head: &Node) -> Option<&Node>
    ensures { option_copied result ≡ head_name head.now }
{
    match &head.kind {
        Kind::VariableDeclaration {
            kind: VariableDeclarationKind::Using,
        } => listed_name(head.fields.as_slice()),
        _ => None,
    }
}

fn listed_name(fields: &[Field]) -> Option<&Node>
    ensures { option_copied result ≡ listed_name (plain_fields fields.now) }
{
    if fields.len() != 1 {
        return None;
    }
    match &fields[0] {
        Field::Many(declarators) => only_name(declarators.as_slice()),
        _ => None,
    }
}

/// The name of the only one of these declarators.
fn only_name(declarators: &[Node]) -> Option<&Node>
    ensures { option_copied result ≡ only_name (trees declarators.now) }
{
    if declarators.len() != 1 {
        return None;
    }
    declared_name(&declarators[0])
}

fn declared_name(declarator: &Node) -> Option<&Node>
    ensures { option_copied result ≡ declared_name declarator.now }
{
    match &declarator.kind {
        Kind::VariableDeclarator => bare_name(declarator.fields.as_slice()),
        _ => None,
    }
}

/// The name of a declarator of these parts, beside which no value stands.
fn bare_name(fields: &[Field]) -> Option<&Node>
    ensures { option_copied result ≡ bare_name (plain_fields fields.now) }
{
    if fields.len() != 2 {
        return None;
    }
    match &fields[0] {
        Field::One(name) => name_without(name, &fields[1]),
        _ => None,
    }
}

fn name_without<'a>(name: &'a Node, value: &Field) -> Option<&'a Node>
    ensures { option_copied result ≡ name_without name.now (plain_field value.now) }
{
    match value {
        Field::Missing => only_if_name(name),
        _ => None,
    }
}

fn only_if_name(node: &Node) -> Option<&Node>
    ensures { option_copied result ≡ only_if_name node.now }
{
    if is_name(node) { Some(node) } else { None }
}
