//! Where the children of a node stand.
ghost use Rattle.std.specs.Prelude.{◌≡◌, bytes_eq, codes};
ghost use Rattle.es_tree.specs.CoreStaticRules.{binding_place, declarator_place, first_place, is_constant, is_lexical, later_place, link_place, place_in, second_place, target_place};
ghost use Rattle.es_tree.specs.Heads.{head_of};
ghost use Rattle.es_tree.specs.Tree.{kind_of, label_of};
ghost use Rattle.es_tree.specs.Words.{assignment_operator_text, variable_declaration_kind_text};

use es_tree::kind::Kind;
use es_tree::node::Node;
use es_tree::operators::{AssignmentOperator, VariableDeclarationKind};
use es_tree::place::Place;
use es_tree::table::Sort;

/// The place of what stands in this field of a node that stands here; fields count from 0.
pub(crate) fn place_in(place: Place, node: &Node, index: usize) -> Place
    ensures { result ≡ place_in place (kind_of node.now) (label_of node.now) index }
{
    match index {
        0 => first_place(place, node),
        1 => second_place(&node.kind),
        _ => later_place(&node.kind),
    }
}

fn first_place(place: Place, node: &Node) -> Place
    ensures { result ≡ first_place place (kind_of node.now) (label_of node.now) }
{
    match &node.kind {
        Kind::VariableDeclaration { kind } => declarator_place(place, *kind),
        Kind::VariableDeclarator => binding_place(place),
        Kind::ChainExpression => Place::Spine,
        Kind::MemberExpression { .. } => link_place(place),
        Kind::CallExpression { .. } => link_place(place),
        Kind::AssignmentExpression { operator } => target_place(*operator),
        Kind::UpdateExpression { .. } => Place::Target(Sort::Expression),
        Kind::ForInStatement { .. } => Place::Target(Sort::ForLeft),
        Kind::ForOfStatement { .. } => Place::Target(Sort::ForLeft),
        Kind::ArrayTarget => Place::Target(Sort::TargetElementRest),
        Kind::TargetWithDefault => Place::Target(Sort::TargetElement),
        Kind::TargetRest => Place::Target(Sort::TargetElement),
        _ => Place::Other,
    }
}

fn second_place(kind: &Kind) -> Place
    ensures { result ≡ second_place (head_of kind.now).kind }
{
    match kind {
        Kind::Program { .. } => Place::ProgramBody,
        Kind::TargetProperty { .. } => Place::Target(Sort::TargetElement),
        Kind::ArrayTarget => Place::Target(Sort::TargetElementRest),
        _ => Place::Other,
    }
}

fn later_place(kind: &Kind) -> Place
    ensures { result ≡ later_place (head_of kind.now).kind }
{
    match kind {
        Kind::ArrayTarget => Place::Target(Sort::TargetElementRest),
        _ => Place::Other,
    }
}

/// The place of a declarator: a declaration that is a target is the head of a for-in or for-of.
fn declarator_place(place: Place, kind: VariableDeclarationKind) -> Place
    ensures { result ≡ declarator_place place (variable_declaration_kind_text kind) }
{
    match place {
        Place::ProgramBody => Place::Declarator {
            top: true,
            lexical: is_lexical(kind),
            constant: is_constant(kind),
        },
        Place::Target(_) => Place::Other,
        _ => Place::Declarator {
            top: false,
            lexical: is_lexical(kind),
            constant: is_constant(kind),
        },
    }
}

pub(crate) fn is_lexical(kind: VariableDeclarationKind) -> bool
    ensures { result ≡ is_lexical (variable_declaration_kind_text kind) }
{
    !matches!(kind, VariableDeclarationKind::Var)
}

fn is_constant(kind: VariableDeclarationKind) -> bool
    ensures { result ≡ is_constant (variable_declaration_kind_text kind) }
{
    matches!(
        kind,
        VariableDeclarationKind::Const | VariableDeclarationKind::Using
    )
}

fn binding_place(place: Place) -> Place
    ensures { result ≡ binding_place place }
{
    match place {
        Place::Declarator {
            top: true,
            lexical,
            ..
        } => Place::Declared { lexical },
        _ => Place::Other,
    }
}

fn link_place(place: Place) -> Place
    ensures { result ≡ link_place place }
{
    match place {
        Place::Spine => Place::Spine,
        _ => Place::Other,
    }
}

fn target_place(operator: AssignmentOperator) -> Place
    ensures { result ≡ target_place (assignment_operator_text operator) }
{
    match operator {
        AssignmentOperator::Assign => Place::Target(Sort::AssignmentTarget),
        _ => Place::Target(Sort::Expression),
    }
}
