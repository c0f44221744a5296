//! The nodes.
ghost use Rattle.std.specs.Prelude.{◌≡◌, length, option_copied};
ghost use Rattle.es_tree.specs.Children.{child_at, only_child};
ghost use Rattle.es_tree.specs.Plain.{plain_parts};
ghost use Rattle.es_tree.specs.Arity.{IsMany, IsMaybe, IsOne, IsStatements, maybe};
ghost use Rattle.es_tree.specs.Tree.{fields_of, many, one, statements, trees};
ghost use Rattle.es_tree.specs.Views.{plain_field};

use crate::ids::{NodeId, Span};
use crate::kind::Kind;
use std::marker::Model;
use std::mem;

/// A node of the syntax tree.
#[cycle(node)]
pub struct Node {
    pub id: NodeId,
    pub span: Span,
    pub kind: Kind,
    pub fields: Vec<Field>,
}

/// What stands at one place for children.
#[cycle(node)]
pub enum Field {
    Missing,
    One(Node),
    Many(Vec<Node>),
    /// A list of statements, which has declarations of its own.
    Statements(Vec<Node>),
}

impl Model for Node {
    ghost use Rattle.es_tree.specs.Tree.{Tree, tree_size};
    ghost use Rattle.es_tree.specs.TreeCode.{tree_code};

    ghost Value = { Tree };

    ghost coded = { tree_code };

    ghost use Rattle.es_tree.specs.Views.{view_node};

    ghost view = { view_node };

    ghost size = { tree_size };

    ghost use Rattle.es_tree.specs.Falls.{child_smaller};

    ghost size_decreases = { λ a _. child_smaller a };
}

impl Drop for Node {
    #[cycle(let_go)]
    fn drop(self) {
        let Node {
            id: _id,
            span: _span,
            kind,
            fields,
        } = self;
        mem::drop(kind);
        mem::drop(fields);
    }
}

impl Drop for Field {
    #[cycle(let_go)]
    fn drop(self) {
        match self {
            Field::Missing => {}
            Field::One(node) => mem::drop(node),
            Field::Many(nodes) => mem::drop(nodes),
            Field::Statements(nodes) => mem::drop(nodes),
        }
    }
}

/// A node taken apart.
#[derive(Drop)]
pub struct Parts {
    pub id: NodeId,
    pub span: Span,
    pub kind: Kind,
    pub fields: Vec<Field>,
}

impl Node {
    /// Takes the node apart.
    pub fn into_parts(self) -> Parts
        ensures { plain_parts result ≡ self }
    {
        let Node {
            id,
            span,
            kind,
            fields,
        } = self;
        Parts {
            id,
            span,
            kind,
            fields,
        }
    }

    /// The one child of the field at this place, counted from 0.
    pub fn child_at(&self, index: usize) -> Option<&Node>
        ensures { option_copied result ≡ child_at index (fields_of self.now) }
    {
        self.fields.get(index)?.only_child()
    }
}

/// The fields of a node that has just these many.
pub fn exactly<const N: usize>(fields: Vec<Field>) -> [Field; N]
    requires { length fields.items ≡ N }
    ensures { result ≡ fields.items }
{
    match <[Field; N]>::try_from(fields) {
        Ok(fields) => fields,
        Err(_fields) => unreachable!(),
    }
}

impl Field {
    fn only_child(&self) -> Option<&Node>
        ensures { option_copied result ≡ only_child (plain_field self.now) }
    {
        match self {
            Field::One(child) => Some(child),
            _ => None,
        }
    }

    /// The field of a child that may be missing.
    pub fn from_optional(node: Option<Node>) -> Field
        ensures { plain_field result ≡ maybe node }
    {
        match node {
            None => Field::Missing,
            Some(node) => Field::One(node),
        }
    }

    /// The one child of this field.
    pub fn into_node(self) -> Node
        requires { IsOne (plain_field self) }
        ensures { plain_field self ≡ one result }
    {
        match self {
            Field::One(node) => node,
            _other => unreachable!(),
        }
    }

    /// The child of this field, if there is one.
    pub fn into_optional(self) -> Option<Node>
        requires { IsMaybe (plain_field self) }
        ensures { plain_field self ≡ maybe result }
    {
        match self {
            Field::Missing => None,
            Field::One(node) => Some(node),
            _other => unreachable!(),
        }
    }

    /// The list of this field.
    pub fn into_nodes(self) -> Vec<Node>
        requires { IsMany (plain_field self) }
        ensures { plain_field self ≡ many (trees result.items) }
    {
        match self {
            Field::Many(nodes) => nodes,
            _other => unreachable!(),
        }
    }

    /// The list of statements of this field.
    pub fn into_statements(self) -> Vec<Node>
        requires { IsStatements (plain_field self) }
        ensures { plain_field self ≡ statements (trees result.items) }
    {
        match self {
            Field::Statements(nodes) => nodes,
            _other => unreachable!(),
        }
    }
}
