//! Copies of trees.
ghost use Rattle.std.specs.Prelude.{IfOk, ◌+◌, ◌-◌, ◌^◌, ◌≡◌, ◌≤◌};
ghost use Rattle.es_tree.specs.Order.{renumber, renumber_field, renumber_trees};
ghost use Rattle.es_tree.specs.Tree.{field_size, tree_size, trees, trees_size};
ghost use Rattle.es_tree.specs.Views.{plain_field};

use crate::builder::AstBuilder;
use crate::node::{Field, Node};
use std::alloc::{AllocError, Global};

impl Node {
    /// An equal tree, with the same ids and marks. Fails where memory runs out.
    #[cycle(clone)]
    pub fn clone_tree(&self, alloc: Global) -> Result<Node, AllocError>
        ensures { IfOk result (λ copy. copy ≡ self.now) }
    {
        let mut fields = Vec::with_capacity(alloc, self.fields.len())?;
        for field in &self.fields {
            fields.push(field.clone_field(alloc)?)?;
        }
        let kind = self.kind.clone_kind(alloc)?;
        Ok(Node {
            id: self.id,
            span: self.span,
            kind,
            fields,
        })
    }

    /// An equal tree with new ids, the next of `ast` in node order; the last of them is below
    /// 2^32 - 1. Fails where memory runs out, and some of these ids are then given.
    #[cycle(renew)]
    pub fn clone_in(&self, ast: &mut AstBuilder) -> Result<Node, AllocError>
        requires { ast.old.next + tree_size self.now ≤ 2 ^ 32 - 1 }
        ensures copy { IfOk result (λ copy. copy ≡ renumber ast.old.next self.now) }
        ensures counted { IfOk result (λ _. ast.new.next ≡ ast.old.next + tree_size self.now) }
        ensures rises { ast.old.next ≤ ast.new.next }
        ensures within { ast.new.next ≤ ast.old.next + tree_size self.now }
        ensures same { ast.new.alloc ≡ ast.old.alloc }
    {
        let id = ast.new_id();
        let mut fields = Vec::with_capacity(ast.alloc, self.fields.len())?;
        for field in &self.fields {
            fields.push(field.clone_field_in(ast)?)?;
        }
        let kind = self.kind.clone_kind(ast.alloc)?;
        Ok(Node {
            id,
            span: self.span,
            kind,
            fields,
        })
    }
}

impl Field {
    #[cycle(clone)]
    fn clone_field(&self, alloc: Global) -> Result<Field, AllocError>
        ensures { IfOk result (λ copy. plain_field copy ≡ plain_field self.now) }
    {
        match self {
            Field::Missing => Ok(Field::Missing),
            Field::One(node) => Ok(Field::One(node.clone_tree(alloc)?)),
            Field::Many(nodes) => Ok(Field::Many(clone_trees(nodes, alloc)?)),
            Field::Statements(nodes) => Ok(Field::Statements(clone_trees(nodes, alloc)?)),
        }
    }

    #[cycle(renew)]
    fn clone_field_in(&self, ast: &mut AstBuilder) -> Result<Field, AllocError>
        requires { ast.old.next + field_size (plain_field self.now) ≤ 2 ^ 32 - 1 }
        ensures copy { IfOk result (λ copy. plain_field copy ≡ renumber_field ast.old.next (plain_field self.now)) }
        ensures counted { IfOk result (λ _. ast.new.next ≡ ast.old.next + field_size (plain_field self.now)) }
        ensures rises { ast.old.next ≤ ast.new.next }
        ensures within { ast.new.next ≤ ast.old.next + field_size (plain_field self.now) }
        ensures same { ast.new.alloc ≡ ast.old.alloc }
    {
        match self {
            Field::Missing => Ok(Field::Missing),
            Field::One(node) => Ok(Field::One(node.clone_in(ast)?)),
            Field::Many(nodes) => Ok(Field::Many(clone_trees_in(nodes, ast)?)),
            Field::Statements(nodes) => Ok(Field::Statements(clone_trees_in(nodes, ast)?)),
        }
    }
}

#[cycle(clone)]
fn clone_trees(nodes: &[Node], alloc: Global) -> Result<Vec<Node>, AllocError>
    ensures { IfOk result (λ copies. copies.items ≡ nodes.now) }
{
    let mut copies = Vec::with_capacity(alloc, nodes.len())?;
    for node in nodes {
        copies.push(node.clone_tree(alloc)?)?;
    }
    Ok(copies)
}

#[cycle(renew)]
fn clone_trees_in(nodes: &[Node], ast: &mut AstBuilder) -> Result<Vec<Node>, AllocError>
    requires { ast.old.next + trees_size (trees nodes.now) ≤ 2 ^ 32 - 1 }
    ensures copy { IfOk result (λ copies. trees copies.items ≡ renumber_trees ast.old.next (trees nodes.now)) }
    ensures counted { IfOk result (λ _. ast.new.next ≡ ast.old.next + trees_size (trees nodes.now)) }
    ensures rises { ast.old.next ≤ ast.new.next }
    ensures within { ast.new.next ≤ ast.old.next + trees_size (trees nodes.now) }
    ensures same { ast.new.alloc ≡ ast.old.alloc }
{
    let mut copies = Vec::with_capacity(ast.alloc, nodes.len())?;
    for node in nodes {
        copies.push(node.clone_in(ast)?)?;
    }
    Ok(copies)
}
