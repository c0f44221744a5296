//! Nodes that the lowerings make. A made node has no place in the source: its span is `MADE`.
ghost use Rattle.std.specs.Prelude.{IfOk, ◌≡◌, ◌+◌, ◌-◌, ◌^◌, ◌<◌, ◌≤◌};
ghost use Rattle.es_tree.specs.Words.{binary_operator_text};
ghost use Rattle.es_runs.specs.Rules.{binary_node, null_node, void_zero_node};
ghost use Rattle.es_traverse.specs.Laws.{Seen};
ghost use Rattle.lower_temporaries.specs.SeenTrees.{IsSeenAs};

use crate::declarations::MADE;
use es_expressions::literals::{new_null_literal, new_numeric_literal};
use es_expressions::operations::{new_binary_expression, new_unary_expression};
use es_tree::builder::AstBuilder;
use es_tree::ids::NodeId;
use es_tree::kind::Kind;
use es_tree::node::Node;
use es_tree::operators::{BinaryOperator, UnaryOperator};
use std::alloc::{AllocError, Global};

/// What stands in the place of a node that was taken out.
pub fn new_placeholder(alloc: Global) -> Node
    ensures { IsSeenAs result null_node }
{
    Node {
        id: NodeId(0),
        span: MADE,
        kind: Kind::NullLiteral,
        fields: Vec::new(alloc),
    }
}

/// `void 0`
pub fn new_void_zero(ast: &mut AstBuilder) -> Result<Node, AllocError>
    requires { ast.old.next + 2 < 2 ^ 32 - 1 }
    ensures made { IfOk result (λ node. IsSeenAs node void_zero_node) }
    ensures counted { IfOk result (λ _. ast.new.next ≡ ast.old.next + 2) }
    ensures rises { ast.new.next ≤ ast.old.next + 2 }
{
    let raw = String::from_str(ast.alloc, "0")?;
    let key = String::from_str(ast.alloc, "0")?;
    let zero = new_numeric_literal(ast, MADE, raw, key)?;
    let node = new_unary_expression(ast, MADE, UnaryOperator::Void, zero)?;
    Ok(node)
}

/// `left` compared with `null`.
pub fn new_null_test(
    ast: &mut AstBuilder,
    operator: BinaryOperator,
    left: Node,
) -> Result<Node, AllocError>
    requires { ast.old.next + 2 < 2 ^ 32 - 1 }
    ensures made { IfOk result (λ node. Seen (λ l u. u ≡ binary_node (binary_operator_text operator) l null_node) left node) }
    ensures counted { IfOk result (λ _. ast.new.next ≡ ast.old.next + 2) }
    ensures rises { ast.new.next ≤ ast.old.next + 2 }
{
    let null = new_null_literal(ast, MADE)?;
    let node = new_binary_expression(ast, MADE, operator, left, null)?;
    Ok(node)
}

/// `left` compared with `void 0`.
pub fn new_undefined_test(
    ast: &mut AstBuilder,
    operator: BinaryOperator,
    left: Node,
) -> Result<Node, AllocError>
    requires { ast.old.next + 3 < 2 ^ 32 - 1 }
    ensures made { IfOk result (λ node. Seen (λ l u. u ≡ binary_node (binary_operator_text operator) l void_zero_node) left node) }
    ensures counted { IfOk result (λ _. ast.new.next ≡ ast.old.next + 3) }
    ensures rises { ast.new.next ≤ ast.old.next + 3 }
{
    let undefined = new_void_zero(ast)?;
    let node = new_binary_expression(ast, MADE, operator, left, undefined)?;
    Ok(node)
}
