//! Whether a program binds a name anywhere (ECMA-262, 8.2), asked before its scope table is made.
#![tactic(auto)]

ghost use Rattle.std.specs.Prelude.{◌≡◌, ℕ, suc};
ghost use Rattle.es_tree.specs.Heads.{head_of};
ghost use Rattle.es_tree.specs.Scopes.{own_text};
ghost use Rattle.es_tree.specs.Tree.{fields_of, kind_of, label_of};
ghost use Rattle.es_tree.specs.Children.{child_at};
ghost use Rattle.es_tree.specs.Views.{plain_field};
ghost use Rattle.es_semantic.specs.SymbolsOf.{symbols_of};
ghost use Rattle.es_rest_shapes.specs.HelperNames.{binds_name};
ghost use Rattle.es_bound_names.specs.BoundNames.{LawBound, declares, declares_at, declares_by, is_name_of, own_declares};

use es_tree::kind::Kind;
use es_tree::node::{Field, Node};

/// Whether the program binds this name in one of its scopes. Takes no memory.
pub fn binds_name(program: &Node, name: &str) -> bool
    ensures { result ≡ binds_name name.now (symbols_of program.now) }
{
    declares(name, program, false)
}

/// Whether the name is declared in the tree, where an identifier in the tree's place would be (`declared`), or not.
#[cycle(declaring)]
fn declares(name: &str, node: &Node, declared: bool) -> bool
    ensures { result ≡ declares name.now declared node.now }
{
    if own_declares(name, node, declared) {
        return true;
    }
    for (index, field) in node.fields.iter().enumerate() {
        if declares_by(name, field, declares_at(declared, &node.kind, index)) {
            return true;
        }
    }
    false
}

#[cycle(declaring)]
fn declares_by(name: &str, field: &Field, declared: bool) -> bool
    ensures { result ≡ declares_by name.now declared (plain_field field.now) }
{
    match field {
        Field::Missing => false,
        Field::One(node) => declares(name, node, declared),
        Field::Many(nodes) | Field::Statements(nodes) => {
            for node in nodes {
                if declares(name, node, declared) {
                    return true;
                }
            }
            false
        }
    }
}

/// Whether the node declares the name itself, as a class does for itself.
fn own_declares(name: &str, node: &Node, declared: bool) -> bool
    ensures { result ≡ own_declares name.now declared (kind_of node.now) (label_of node.now) (fields_of node.now) }
{
    match &node.kind {
        Kind::Identifier { name: word, .. } => declared && word.as_str() == name,
        Kind::ClassDeclaration { .. } | Kind::ClassExpression { .. } => { is_name_of(name, node) }
        _ => false,
    }
}

/// Whether this is the name of the class.
fn is_name_of(name: &str, class: &Node) -> bool
    ensures { result ≡ is_name_of name.now (child_at 0 (fields_of class.now)) }
{
    match class.child_at(0) {
        Some(node) => own_text(node) == name,
        None => false,
    }
}

/// The first text of a node, or the empty one.
fn own_text(node: &Node) -> &str
    ensures { result.now ≡ own_text node.now }
{
    node.kind.text(0).unwrap_or("")
}

/// Whether an identifier is declared that stands in this field of a node.
fn declares_at(declared: bool, kind: &Kind, index: usize) -> bool
    ensures { result ≡ declares_at declared (head_of kind.now).kind index }
{
    match index {
        0 => declares_first(declared, kind),
        1 => declares_second(declared, kind),
        _ => declares_later(declared, kind),
    }
}

fn declares_first(declared: bool, kind: &Kind) -> bool
    ensures { result ≡ declares_at declared (head_of kind.now).kind 0 }
{
    match kind {
        Kind::VariableDeclaration { .. }
        | Kind::FunctionDeclaration { .. }
        | Kind::FunctionExpression { .. }
        | Kind::ArrowFunctionExpression { .. }
        | Kind::ClassDeclaration { .. }
        | Kind::ClassExpression { .. }
        | Kind::CatchClause { .. }
        | Kind::ImportDefaultSpecifier
        | Kind::ImportNamespaceSpecifier => true,
        Kind::ExportNamedDeclaration
        | Kind::ExportDefaultDeclaration
        | Kind::ExportSpecifier
        | Kind::VariableDeclarator
        | Kind::ParenthesizedExpression
        | Kind::ObjectPattern
        | Kind::ArrayPattern
        | Kind::AssignmentPattern
        | Kind::RestElement
        | Kind::ObjectTarget
        | Kind::ArrayTarget
        | Kind::TargetWithDefault
        | Kind::TargetRest => declared,
        _ => false,
    }
}

fn declares_second(declared: bool, kind: &Kind) -> bool
    ensures { result ≡ declares_at declared (head_of kind.now).kind 1 }
{
    match kind {
        Kind::FunctionDeclaration { .. }
        | Kind::FunctionExpression { .. }
        | Kind::ImportSpecifier => true,
        Kind::PatternProperty { .. }
        | Kind::TargetProperty { .. }
        | Kind::ArrayPattern
        | Kind::ArrayTarget => declared,
        _ => false,
    }
}

/// In a field after the second.
fn declares_later(declared: bool, kind: &Kind) -> bool
    ensures { (i : ℕ) → result ≡ declares_at declared (head_of kind.now).kind (suc (suc i)) }
{
    match kind {
        Kind::ArrayPattern | Kind::ArrayTarget => declared,
        _ => false,
    }
}

/// A program declares a name where one of its symbols has it.
pub fn law_bound()
    ensures { LawBound }
{}
