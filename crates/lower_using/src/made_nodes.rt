//! The nodes that are made: members, calls, statements, blocks and variables. A made node has no place in the source and no marks, and the id
//! that is given, so that a refusal that is told at it names a node of the source.
ghost use Rattle.std.specs.Prelude.{◌≡◌, [], IfOk};
ghost use Rattle.es_tree.specs.Tree.{trees};
ghost use Rattle.es_using_rows.specs.Used.{block, call, member, method, plainly, statement};
ghost use Rattle.lower_using.specs.Parts.{making, of_id, variable_with};

use es_expressions::members::{CallExpression, MemberExpression};
use es_statements::program::{
    BlockStatement, ExpressionStatement, VariableDeclaration, VariableDeclarator,
};
use es_tree::ids::NodeId;
use es_tree::node::Node;
use es_tree::operators::VariableDeclarationKind;
use lower_fresh_names::nodes::{MADE, new_name};
use std::alloc::{AllocError, Global};

/// `c.p(args)`
pub(crate) fn new_method_call(
    id: NodeId,
    context: &str,
    name: &str,
    arguments: Vec<Node>,
    alloc: Global,
) -> Result<Node, AllocError>
    ensures { IfOk result (λ made. made ≡ method (making context.now) 0 (of_id id.0) name.now (trees arguments.items)) }
{
    let object = new_name(id, context, alloc)?;
    let callee = new_member(id, object, name, alloc)?;
    new_call(id, callee, arguments, alloc)
}

/// `f(args)`
pub(crate) fn new_call(
    id: NodeId,
    callee: Node,
    arguments: Vec<Node>,
    alloc: Global,
) -> Result<Node, AllocError>
    ensures { IfOk result (λ made. made ≡ call (plainly []) (of_id id.0) callee (trees arguments.items)) }
{
    let called = CallExpression {
        id,
        span: MADE,
        optional: false,
        callee,
        arguments,
    };
    called.close(alloc)
}

/// `o.p`
pub(crate) fn new_member(
    id: NodeId,
    object: Node,
    name: &str,
    alloc: Global,
) -> Result<Node, AllocError>
    ensures { IfOk result (λ made. made ≡ member (plainly []) (of_id id.0) object name.now) }
{
    let property = new_name(id, name, alloc)?;
    let read = MemberExpression {
        id,
        span: MADE,
        computed: false,
        optional: false,
        object,
        property,
    };
    read.close(alloc)
}

/// `e;`
pub(crate) fn new_statement(id: NodeId, expression: Node, alloc: Global) -> Result<Node, AllocError>
    ensures { IfOk result (λ made. made ≡ statement (plainly []) (of_id id.0) expression) }
{
    let said = ExpressionStatement {
        id,
        span: MADE,
        expression,
    };
    said.close(alloc)
}

/// `{ ts }`
pub(crate) fn new_block(id: NodeId, body: Vec<Node>, alloc: Global) -> Result<Node, AllocError>
    ensures { IfOk result (λ made. made ≡ block (plainly []) (of_id id.0) (trees body.items)) }
{
    let stood = BlockStatement {
        id,
        span: MADE,
        scope: None,
        body,
    };
    stood.close(alloc)
}

/// `var x = e;`. Fails only for want of memory.
pub fn new_variable(
    id: NodeId,
    binding: Node,
    value: Node,
    alloc: Global,
) -> Result<Node, AllocError>
    ensures { IfOk result (λ made. made ≡ variable_with id.0 binding value) }
{
    let declarator = VariableDeclarator {
        id,
        span: MADE,
        binding,
        init: Some(value),
    };
    let declared = declarator.close(alloc)?;
    let declaration = VariableDeclaration {
        id,
        span: MADE,
        kind: VariableDeclarationKind::Var,
        declarations: Vec::from_array(alloc, [declared])?,
    };
    declaration.close(alloc)
}
