//! Bodies of functions, and static blocks of classes, in which `using` stands (Explicit Resource Management, 14.3.1), and whose functions can't
//! become those of a block (ECMA-262, 14.2.1): `function f(g) { using a = b; function g() {} }`, where a parameter has the name of one.
ghost use Rattle.std.specs.Prelude.{◌≡◌};
ghost use Rattle.es_tree.specs.Tree.{fields_of, kind_of, trees};
ghost use Rattle.es_tree.specs.Views.{plain_fields};
ghost use Rattle.es_steps.specs.UsingBlocks.{has_using};
ghost use Rattle.es_using_nodes.specs.BodyFields.{clashes_in_statements};
ghost use Rattle.es_using_nodes.specs.Clashes.{clashes, clashes_in_arrow, clashes_in_body, clashes_in_function, clashes_in_static_block};

use crate::entering::may_enter;
use es_nodes::construct::is_using;
use es_tree::kind::Kind;
use es_tree::node::{Field, Node};

/// Whether the node is a function or an arrow with such a body, or such a static block: `(g) => { using a = b; function g() {} }`.
pub fn clashes(node: &Node) -> bool
    ensures { result ≡ clashes (kind_of node.now) (fields_of node.now) }
{
    match &node.kind {
        Kind::FunctionDeclaration { .. } | Kind::FunctionExpression { .. } => {
            clashes_in_function(node.fields.as_slice())
        }
        Kind::ArrowFunctionExpression { .. } => clashes_in_arrow(node.fields.as_slice()),
        Kind::StaticBlock { .. } => clashes_in_static_block(node.fields.as_slice()),
        _ => false,
    }
}

/// Whether a function of these fields, with a name or without, has such a body.
fn clashes_in_function(fields: &[Field]) -> bool
    ensures { result ≡ clashes_in_function (plain_fields fields.now) }
{
    match fields {
        [_, Field::Many(parameters), Field::One(body)] => {
            clashes_in_body(parameters.as_slice(), body)
        }
        _ => false,
    }
}

/// Whether an arrow function of these fields has one, and no expression in its place.
fn clashes_in_arrow(fields: &[Field]) -> bool
    ensures { result ≡ clashes_in_arrow (plain_fields fields.now) }
{
    match fields {
        [Field::Many(parameters), Field::One(body)] => {
            clashes_in_body(parameters.as_slice(), body)
        }
        _ => false,
    }
}

fn clashes_in_body(parameters: &[Node], body: &Node) -> bool
    ensures { result ≡ clashes_in_body (trees parameters.now) body.now }
{
    match &body.kind {
        Kind::FunctionBody { .. } => clashes_in_statements(parameters, body.fields.as_slice()),
        _ => false,
    }
}

/// Whether a `using` stands among the statements of a body of these fields, and not all of its functions may become those of a block.
fn clashes_in_statements(parameters: &[Node], fields: &[Field]) -> bool
    ensures { result ≡ clashes_in_statements (trees parameters.now) (plain_fields fields.now) }
{
    match fields {
        [Field::Many(..), Field::Statements(statements)] => {
            has_using(statements.as_slice()) && !may_enter(parameters, statements.as_slice())
        }
        _ => false,
    }
}

/// Whether a static block of these fields is one: `static { using a = b; var g; function g() {} }`. It has no parameters.
fn clashes_in_static_block(fields: &[Field]) -> bool
    ensures { result ≡ clashes_in_static_block (plain_fields fields.now) }
{
    match fields {
        [Field::Statements(statements)] => {
            has_using(statements.as_slice()) && !may_enter(&[], statements.as_slice())
        }
        _ => false,
    }
}

/// Whether one of these statements is a declaration by `using`: `using a = b;`.
pub fn has_using(statements: &[Node]) -> bool
    ensures { result ≡ has_using (trees statements.now) }
{
    statements.iter().any(|statement| is_using(statement))
}
