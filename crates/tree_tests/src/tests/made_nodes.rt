//! A node for each crate of opened forms is made, taken apart and closed. What the calls answer for every kind is
//! an equation in their contracts.
ghost use Rattle.std.specs.Prelude.{◌≡◌};

use es_expressions::members::{CallExpression, new_call_expression};
use es_patterns::patterns::{PatternProperty, new_pattern_property};
use es_statements::control::{TryStatement, new_try_statement};
use es_tree::builder::AstBuilder;
use es_tree::ids::{NodeId, Span};
use es_tree::kind::Kind;
use es_tree::node::Node;
use std::alloc::Global;
use std::process::Abort;
use std::test::Fail;

/// Where each made node stands.
const SPAN: Span = Span { start: 4, end: 8 };

/// What gives the next node the id 9.
fn new_builder(alloc: Global) -> AstBuilder
    ensures { result.next ≡ 9 }
{
    AstBuilder::new(alloc, 9)
}

/// A child that is told by its id.
fn leaf(alloc: Global, id: u32) -> Node {
    Node {
        id: NodeId(id),
        span: SPAN,
        kind: Kind::EmptyStatement,
        fields: Vec::new(alloc),
    }
}

/// The node has the id 9, this kind, and so many fields.
fn assert_made(rt: &impl Abort, node: &Node, name: &str, fields: usize) {
    assert_eq!(rt; node.id.0, 9);
    assert_eq!(rt; node.span.end, 8);
    assert_eq!(rt; node.kind.ast_type().name(), name);
    assert_eq!(rt; node.fields.len(), fields);
}

#[test]
fn a_call_is_made_and_opened(rt: HostRuntime) -> Result<(), Fail> {
    let alloc = rt.alloc();
    let mut ast = new_builder(alloc);
    let arguments = vec![in alloc; leaf(alloc, 2), leaf(alloc, 3)]?;
    let call = new_call_expression(&mut ast, SPAN, true, leaf(alloc, 1), arguments)?;
    assert_made(&rt, &call, "CallExpression", 2);
    let opened = CallExpression::open(call);
    assert!(rt; opened.optional);
    assert_eq!(rt; opened.callee.id.0, 1);
    assert_eq!(rt; opened.arguments.len(), 2);
    assert_made(&rt, &opened.close(alloc)?, "CallExpression", 2);
    Ok(())
}

#[test]
fn a_try_statement_is_made_and_opened(rt: HostRuntime) -> Result<(), Fail> {
    let alloc = rt.alloc();
    let mut ast = new_builder(alloc);
    let finalizer = Some(leaf(alloc, 2));
    let statement = new_try_statement(&mut ast, SPAN, leaf(alloc, 1), None, finalizer)?;
    assert_made(&rt, &statement, "TryStatement", 3);
    let opened = TryStatement::open(statement);
    assert_eq!(rt; opened.block.id.0, 1);
    assert!(rt; opened.handler.is_none());
    assert_eq!(rt; opened.finalizer.as_ref().map(|node| node.id.0), Some(2));
    assert_made(&rt, &opened.close(alloc)?, "TryStatement", 3);
    Ok(())
}

#[test]
fn a_property_of_a_pattern_is_made_and_opened(rt: HostRuntime) -> Result<(), Fail> {
    let alloc = rt.alloc();
    let mut ast = new_builder(alloc);
    let (key, value) = (leaf(alloc, 1), leaf(alloc, 2));
    let property = new_pattern_property(&mut ast, SPAN, true, false, key, value)?;
    assert_made(&rt, &property, "Property", 2);
    let opened = PatternProperty::open(property);
    assert!(rt; opened.shorthand && !opened.computed);
    assert_eq!(rt; opened.key.id.0, 1);
    assert_eq!(rt; opened.value.id.0, 2);
    assert_made(&rt, &opened.close(alloc)?, "Property", 2);
    Ok(())
}
