//! The outermost scopes in nodes, by their marks: those that a scope around the nodes takes (ECMA-262, 9.1).
ghost use Rattle.std.specs.Prelude.{◌≡◌, ◌++◌, ◌==◌, IfOk, OnOk, map};
ghost use Rattle.es_tree.specs.Heads.{head_of, scope};
ghost use Rattle.es_tree.specs.Tree.{trees};
ghost use Rattle.es_tree.specs.Views.{plain_field};
ghost use Rattle.es_scope.specs.OuterScopes.{is_outside, is_switch, outer_in_field, outer_in_trees, outer_of, outer_scopes, scope_mark};
ghost use Rattle.es_scope.specs.Tables.{parent_of};

use crate::scoping::Scoping;
use es_tree::ids::ScopeId;
use es_tree::kind::Kind;
use es_tree::node::{Field, Node};
use std::alloc::{AllocError, Global};

/// The outermost scopes in these nodes that stand directly in this one. Answers an error only for want of memory.
pub(crate) fn outer_scopes(
    alloc: Global,
    scoping: &Scoping,
    up: ScopeId,
    nodes: &[Node],
) -> Result<Vec<ScopeId>, AllocError>
    ensures { IfOk result (λ found. map (λ c. c.0) found.items ≡ outer_in_trees scoping.now up.0 (trees nodes.now)) }
{
    let mut found = Vec::new(alloc);
    for node in nodes {
        push_outer(&mut found, scoping, up, node)?;
    }
    Ok(found)
}

/// The outermost scopes in a node that stand directly in this one.
pub(crate) fn outer_scopes_in(
    alloc: Global,
    scoping: &Scoping,
    up: ScopeId,
    node: &Node,
) -> Result<Vec<ScopeId>, AllocError>
    ensures { IfOk result (λ found. map (λ c. c.0) found.items ≡ outer_scopes scoping.now up.0 node.now) }
{
    let mut found = Vec::new(alloc);
    push_outer(&mut found, scoping, up, node)?;
    Ok(found)
}

#[cycle(outer)]
fn push_outer(
    found: &mut Vec<ScopeId>,
    scoping: &Scoping,
    up: ScopeId,
    node: &Node,
) -> Result<(), AllocError>
    ensures { OnOk result (map (λ c. c.0) found.new.items ≡ map (λ c. c.0) found.old.items ++ outer_scopes scoping.now up.0 node.now) }
{
    push_outer_of(found, scoping, up, scope_of(&node.kind))?;
    for (index, field) in node.fields.iter().enumerate() {
        push_outer_in_field(found, scoping, up, field, is_outside(&node.kind, index))?;
    }
    Ok(())
}

#[cycle(outer)]
fn push_outer_in_field(
    found: &mut Vec<ScopeId>,
    scoping: &Scoping,
    up: ScopeId,
    field: &Field,
    outside: bool,
) -> Result<(), AllocError>
    ensures { OnOk result (map (λ c. c.0) found.new.items ≡ map (λ c. c.0) found.old.items ++ outer_in_field scoping.now up.0 outside (plain_field field.now)) }
{
    if !outside {
        return Ok(());
    }
    match field {
        Field::Missing => {}
        Field::One(node) => push_outer(found, scoping, up, node)?,
        Field::Many(nodes) | Field::Statements(nodes) => {
            for node in nodes {
                push_outer(found, scoping, up, node)?;
            }
        }
    }
    Ok(())
}

/// Of a marked scope what stands directly in this one, the scope or its parent, if one of them does.
fn push_outer_of(
    found: &mut Vec<ScopeId>,
    scoping: &Scoping,
    up: ScopeId,
    marked: Option<ScopeId>,
) -> Result<(), AllocError>
    ensures { OnOk result (map (λ c. c.0) found.new.items ≡ map (λ c. c.0) found.old.items ++ outer_of scoping.now up.0 (scope marked)) }
{
    let Some(own) = marked else {
        return Ok(());
    };
    let Some(around) = known_parent(scoping, own) else {
        return Ok(());
    };
    if around.0 == up.0 {
        found.push(own)?;
        return Ok(());
    }
    let Some(outer) = known_parent(scoping, around) else {
        return Ok(());
    };
    if outer.0 == up.0 {
        found.push(around)?;
    }
    Ok(())
}

/// The parent of a scope, if the table has the scope and it has one.
fn known_parent(scoping: &Scoping, scope_id: ScopeId) -> Option<ScopeId>
    ensures { scope result ≡ parent_of scoping.now scope_id.0 }
{
    if (scope_id.0 as usize) < scoping.scope_count() {
        scoping.scope_parent_id(scope_id)
    } else {
        None
    }
}

/// Whether what stands in this field of a node of this kind is in no scope that the node is marked with.
fn is_outside(kind: &Kind, index: usize) -> bool
    ensures { result ≡ is_outside (head_of kind.now).kind (head_of kind.now).marks index }
{
    scope_of(kind).is_none() || index == 0 && is_switch(kind)
}

fn is_switch(kind: &Kind) -> bool
    ensures { result ≡ is_switch (head_of kind.now).kind }
{
    matches!(kind, Kind::SwitchStatement { .. })
}

/// The scope that a node of this kind is marked with.
pub fn scope_of(kind: &Kind) -> Option<ScopeId>
    ensures { scope result ≡ scope_mark (head_of kind.now).kind (head_of kind.now).marks }
{
    match kind {
        Kind::Program { scope, .. } => *scope,
        Kind::BlockStatement { scope } => *scope,
        Kind::StaticBlock { scope } => *scope,
        Kind::FunctionDeclaration { scope } => *scope,
        Kind::FunctionExpression { scope } => *scope,
        Kind::FunctionBody { scope } => *scope,
        Kind::ArrowFunctionExpression { scope } => *scope,
        Kind::ClassDeclaration { scope } => *scope,
        Kind::ClassExpression { scope } => *scope,
        Kind::ForStatement { scope } => *scope,
        Kind::ForInStatement { scope } => *scope,
        Kind::ForOfStatement { scope } => *scope,
        Kind::SwitchStatement { scope } => *scope,
        Kind::CatchClause { scope } => *scope,
        _ => None,
    }
}
