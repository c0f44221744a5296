//! Whether a node that is looked for stands in a program.
#![tactic(auto)]

ghost use Rattle.std.specs.Prelude.{◌≡◌};
ghost use Rattle.es_tree.specs.Tree.{fields_of, kind_of, label_of};
ghost use Rattle.es_tree.specs.Views.{plain_field};
ghost use Rattle.es_tree.specs.Walks.{any_in_field, any_node};
ghost use Rattle.es_excluded_keys.specs.ExcludedKeys.{names_helpers};
ghost use Rattle.es_searches.specs.Searches.{is_sought};
ghost use Rattle.es_super_calls.specs.Constructors.{is_derived_class};

use es_nodes::construct::{is_object_rest, is_using};
use es_tree::kind::Kind;
use es_tree::node::{Field, Node};

/// What is looked for.
#[derive(Clone, Copy)]
pub enum Sought {
    /// A declaration by `using`.
    Using,
    /// A class that extends another.
    DerivedClass,
    /// An object pattern with a rest.
    ObjectRest,
    /// A name `babelHelpers`.
    HelpersName,
}

/// Whether such a node stands anywhere in the program. Takes no memory.
#[cycle(search)]
pub fn has_node(program: &Node, sought: Sought) -> bool
    ensures { result ≡ any_node (is_sought sought) program.now }
{
    if is_sought(program, sought) {
        return true;
    }
    for field in &program.fields {
        if has_node_in_field(field, sought) {
            return true;
        }
    }
    false
}

#[cycle(search)]
fn has_node_in_field(field: &Field, sought: Sought) -> bool
    ensures { result ≡ any_in_field (is_sought sought) (plain_field field.now) }
{
    match field {
        Field::Missing => false,
        Field::One(node) => has_node(node, sought),
        Field::Many(nodes) | Field::Statements(nodes) => {
            for node in nodes {
                if has_node(node, sought) {
                    return true;
                }
            }
            false
        }
    }
}

/// Whether the node is one of them.
fn is_sought(node: &Node, sought: Sought) -> bool
    ensures { result ≡ is_sought sought (kind_of node.now) (label_of node.now) (fields_of node.now) }
{
    match sought {
        Sought::Using => is_using(node),
        Sought::DerivedClass => is_derived_class(node),
        Sought::ObjectRest => is_object_rest(node),
        Sought::HelpersName => names_helpers(node),
    }
}

fn is_derived_class(node: &Node) -> bool
    ensures { result ≡ is_derived_class (kind_of node.now) (label_of node.now) (fields_of node.now) }
{
    match &node.kind {
        Kind::ClassDeclaration { .. } | Kind::ClassExpression { .. } => node.child_at(1).is_some(),
        _ => false,
    }
}

fn names_helpers(node: &Node) -> bool
    ensures { result ≡ names_helpers (kind_of node.now) (label_of node.now) (fields_of node.now) }
{
    match &node.kind {
        Kind::Identifier { name, .. } => name.as_str() == "babelHelpers",
        _ => false,
    }
}
