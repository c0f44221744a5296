//! The static rules of classes, methods and accessors.
ghost use Rattle.std.specs.Prelude.{◌≡◌, ◌==◌, ◌&&◌, option_copied};
ghost use Rattle.std.specs.List.{list_any};
ghost use Rattle.es_tree.specs.Ancestors.{classes, is_class};
ghost use Rattle.es_tree.specs.DeclaredNames.{is_class_key, is_declared};
ghost use Rattle.es_tree.specs.StaticRules.{is_bad_accessor, is_bad_class, is_constructor_key, is_lone_parameter, is_plain_key, parameters_in};
ghost use Rattle.es_tree.specs.Tree.{fields_of, trees};
ghost use Rattle.es_static_rules.specs.Checks.{IsAnswer};
ghost use Rattle.es_static_rules.specs.Outward.{outward, plain_ancestor};
ghost use Rattle.es_static_rules.specs.Parts.{is_bad_method_node, parameters_of};

use crate::ancestors::{Ancestor, is_class, split_parent, stands_in};
use crate::known_names::{KnownNames, is_declared};
use es_nodes::fields::{field_at, nodes_in};
use es_tree::ast_type::AstType;
use es_tree::kind::Kind;
use es_tree::node::Node;
use es_tree::operators::{MethodDefinitionKind, PropertyKind};
use es_tree::place::Namespace;

/// Whether the node is a method that is a constructor where none may be, or a private name that no class
/// around declares (ECMA-262, 15.7.1, 13.2.5), where the program declares all these names.
pub(crate) fn is_bad_class(all: &KnownNames, ancestors: &[Ancestor], node: &Node) -> bool
    ensures { IsAnswer all.now (λ names. is_bad_class names (outward ancestors.now) node.now) result }
{
    match &node.kind {
        Kind::MethodDefinition { .. } => is_bad_method(node),
        Kind::PrivateIdentifier { name } => {
            !is_class_key(ancestors)
                && (is_plain_key(ancestors) || !is_declared_around(all, ancestors, name.as_str()))
        }
        _ => false,
    }
}

/// Whether a class around declares this private name.
fn is_declared_around(all: &KnownNames, ancestors: &[Ancestor], text: &str) -> bool
    ensures { IsAnswer all.now (λ names. list_any (λ n. is_declared names Namespace.PrivateNames n text.now) (classes (outward ancestors.now))) result }
{
    match split_parent(ancestors) {
        Some((parent, outer)) => {
            declares_private(all, parent, text) || is_declared_around(all, outer, text)
        }
        None => false,
    }
}

/// Whether the ancestor is a class that leads to a member of it and declares this private name.
fn declares_private(all: &KnownNames, ancestor: &Ancestor, text: &str) -> bool
    ensures { IsAnswer all.now (λ names. is_class (plain_ancestor ancestor.now).kind && ancestor.now.index == 2 && is_declared names Namespace.PrivateNames ancestor.now.number text.now) result }
{
    leads_into_class(ancestor) && is_declared(all, Namespace::PrivateNames, ancestor.number, text)
}

/// Whether the ancestor is a class and leads to a member of it.
fn leads_into_class(ancestor: &Ancestor) -> bool
    ensures { result ≡ (is_class (plain_ancestor ancestor.now).kind && ancestor.now.index == 2) }
{
    is_class(ancestor.kind()) && ancestor.index == 2
}

/// Whether the node is a method that is a constructor where none may be: static, with a computed key, or
/// by an accessor (ECMA-262, 15.7.1).
fn is_bad_method(node: &Node) -> bool
    ensures { result ≡ is_bad_method_node node.now }
{
    match &node.kind {
        Kind::MethodDefinition {
            kind,
            is_static,
            computed,
        } => match kind {
            MethodDefinitionKind::Constructor => *is_static || *computed,
            MethodDefinitionKind::Get | MethodDefinitionKind::Set => {
                !(*is_static || *computed) && is_constructor_key(node.child_at(0))
            }
            MethodDefinitionKind::Method => false,
        },
        _ => false,
    }
}

/// Whether the key is the name or the string `constructor`.
fn is_constructor_key(key: Option<&Node>) -> bool
    ensures { result ≡ is_constructor_key (option_copied key.entry) }
{
    match key {
        Some(key) => match &key.kind {
            Kind::Identifier { name, .. } => name.as_str() == "constructor",
            Kind::StringLiteral { value } => value.as_str() == "constructor",
            _ => false,
        },
        None => false,
    }
}

/// Whether the key of a class's method or field stands here.
pub(crate) fn is_class_key(ancestors: &[Ancestor]) -> bool
    ensures { result ≡ is_class_key (outward ancestors.now) }
{
    stands_in(ancestors, AstType::MethodDefinition, 0)
        || stands_in(ancestors, AstType::PropertyDefinition, 0)
}

/// Whether the key of a property of a literal or of a pattern stands here.
fn is_plain_key(ancestors: &[Ancestor]) -> bool
    ensures { result ≡ is_plain_key (outward ancestors.now) }
{
    stands_in(ancestors, AstType::ObjectProperty, 0)
        || stands_in(ancestors, AstType::PatternProperty, 0)
        || stands_in(ancestors, AstType::TargetProperty, 0)
}

/// Whether the node is a getter with parameters, or a setter with other than one (ECMA-262, 15.4).
pub(crate) fn is_bad_accessor(node: &Node) -> bool
    ensures { result ≡ is_bad_accessor node.now }
{
    match &node.kind {
        Kind::MethodDefinition { kind, .. } => match kind {
            MethodDefinitionKind::Get => !parameters_in(node).is_empty(),
            MethodDefinitionKind::Set => !is_lone_parameter(parameters_in(node)),
            _ => false,
        },
        Kind::ObjectProperty { kind, .. } => match kind {
            PropertyKind::Get => !parameters_in(node).is_empty(),
            PropertyKind::Set => !is_lone_parameter(parameters_in(node)),
            PropertyKind::Init => false,
        },
        _ => false,
    }
}

/// The parameters of the function of a method or a property.
fn parameters_in(node: &Node) -> &[Node]
    ensures { trees result.now ≡ parameters_in (fields_of node.now) }
{
    match node.child_at(1) {
        Some(function) => parameters_of(function),
        None => &[],
    }
}

/// The parameters of a function expression.
fn parameters_of(function: &Node) -> &[Node]
    ensures { trees result.now ≡ parameters_of function.now }
{
    match &function.kind {
        Kind::FunctionExpression { .. } => nodes_in(field_at(function, 1)),
        _ => &[],
    }
}

/// Whether there is one parameter, and it is no rest.
fn is_lone_parameter(parameters: &[Node]) -> bool
    ensures { result ≡ is_lone_parameter (trees parameters.now) }
{
    match parameters {
        [parameter] => !matches!(parameter.kind, Kind::RestElement),
        _ => false,
    }
}
