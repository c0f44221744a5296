//! Calls of `super` in a constructor (ECMA-262, 13.3.7.1).
ghost use Rattle.std.specs.Prelude.{◌≡◌};
ghost use Rattle.es_tree.specs.Tree.{fields_of};
ghost use Rattle.es_tree.specs.Views.{plain_field, plain_fields};
ghost use Rattle.es_super_calls.specs.SuperCalls.{calls_it, calls_super, calls_super_before, calls_super_by, calls_super_in, is_super_call, is_super_statement};

use es_tree::kind::Kind;
use es_tree::node::{Field, Node};

/// Whether a call of `super` stands in the parameters of this function, before its body.
pub fn calls_super_before(function: &Node) -> bool
    ensures { result ≡ calls_super_before (fields_of function.now) }
{
    match function.fields.as_slice() {
        [_, parameters, ..] => calls_super_by(parameters),
        _ => false,
    }
}

/// Whether the node is a statement that is a call of `super`.
pub fn is_super_statement(node: &Node) -> bool
    ensures { result ≡ is_super_statement node.now }
{
    match (&node.kind, node.fields.as_slice()) {
        (Kind::ExpressionStatement, [Field::One(expression)]) => is_super_call(expression),
        _ => false,
    }
}

/// Whether the node is a call of `super`.
pub fn is_super_call(node: &Node) -> bool
    ensures { result ≡ is_super_call node.now }
{
    match &node.kind {
        Kind::CallExpression { .. } => calls_it(node.fields.as_slice()),
        _ => false,
    }
}

/// Whether what a call with these fields calls is `super`.
pub fn calls_it(fields: &[Field]) -> bool
    ensures { result ≡ calls_it (plain_fields fields.now) }
{
    match fields {
        [Field::One(callee), ..] => matches!(callee.kind, Kind::Super),
        _ => false,
    }
}

/// Whether such a call stands in the tree, and in no function of it but arrows.
#[cycle(calls)]
fn calls_super(node: &Node) -> bool
    ensures { result ≡ calls_super node.now }
{
    match &node.kind {
        Kind::CallExpression { .. } if calls_it(node.fields.as_slice()) => true,
        Kind::FunctionDeclaration { .. } | Kind::FunctionExpression { .. } => false,
        _ => calls_super_in(node.fields.as_slice()),
    }
}

#[cycle(calls)]
fn calls_super_in(fields: &[Field]) -> bool
    ensures { result ≡ calls_super_in (plain_fields fields.now) }
{
    for field in fields {
        if calls_super_by(field) {
            return true;
        }
    }
    false
}

#[cycle(calls)]
fn calls_super_by(field: &Field) -> bool
    ensures { result ≡ calls_super_by (plain_field field.now) }
{
    match field {
        Field::Missing => false,
        Field::One(node) => calls_super(node),
        Field::Many(nodes) | Field::Statements(nodes) => {
            for node in nodes {
                if calls_super(node) {
                    return true;
                }
            }
            false
        }
    }
}
