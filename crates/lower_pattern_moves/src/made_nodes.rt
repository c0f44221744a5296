//! What is made: `let { a, ...b } = _ref;`, `{ a, ...b } = _ref;`, blocks, and for an arrow function whose body is an expression the body
//! `{ return g(b); }`. A made node has no place in the source, and the id of its pattern or of the value that is returned, so that a refusal
//! that is told at it names a node of the source.
ghost use Rattle.std.specs.Prelude.{◌≡◌, IfOk};
ghost use Rattle.es_tree.specs.Arity.{maybe};
ghost use Rattle.es_tree.specs.Tree.{trees};
ghost use Rattle.es_tree.specs.Words.{variable_declaration_kind_text};
ghost use Rattle.lower_pattern_moves.specs.Parts.{assignment_with, block_with, body_with, declaration_with, return_with};

use es_expressions::operations::AssignmentExpression;
use es_statements::control::ReturnStatement;
use es_statements::functions::FunctionBody;
use es_statements::program::{
    BlockStatement, ExpressionStatement, VariableDeclaration, VariableDeclarator,
};
use es_tree::ids::NodeId;
use es_tree::node::Node;
use es_tree::operators::{AssignmentOperator, VariableDeclarationKind};
use lower_fresh_names::nodes::MADE;
use std::alloc::{AllocError, Global};

/// The base of the fresh names: `_ref`, `_ref2` and so on.
pub(crate) const BASE: &str = "ref";

/// `let { a, ...b } = _ref;`, or `const _ref` without a value, with the id of the pattern.
pub(crate) fn new_declaration(
    kind: VariableDeclarationKind,
    id: NodeId,
    binding: Node,
    init: Option<Node>,
    alloc: Global,
) -> Result<Node, AllocError>
    ensures { IfOk result (λ made. made ≡ declaration_with id.0 (variable_declaration_kind_text kind) binding (maybe init)) }
{
    let declarator = VariableDeclarator {
        id,
        span: MADE,
        binding,
        init,
    };
    let declared = declarator.close(alloc)?;
    let declaration = VariableDeclaration {
        id,
        span: MADE,
        kind,
        declarations: Vec::from_array(alloc, [declared])?,
    };
    declaration.close(alloc)
}

/// `{ a, ...b } = _ref;` for the pattern `{ a, ...b }`, with its id.
pub(crate) fn new_assignment(
    id: NodeId,
    target: Node,
    value: Node,
    alloc: Global,
) -> Result<Node, AllocError>
    ensures { IfOk result (λ made. made ≡ assignment_with id.0 target value) }
{
    let assignment = AssignmentExpression {
        id,
        span: MADE,
        operator: AssignmentOperator::Assign,
        left: target,
        right: value,
    };
    let assigned = assignment.close(alloc)?;
    let statement = ExpressionStatement {
        id,
        span: MADE,
        expression: assigned,
    };
    statement.close(alloc)
}

/// The block `{ let { a, ...b } = _ref; f(b); }` of the statement `let { a, ...b } = _ref;` and the body `f(b);`.
pub(crate) fn new_block(
    id: NodeId,
    first: Node,
    body: Node,
    alloc: Global,
) -> Result<Node, AllocError>
    ensures { IfOk result (λ made. made ≡ block_with id.0 first body) }
{
    let block = BlockStatement {
        id,
        span: MADE,
        scope: None,
        body: Vec::from_array(alloc, [first, body])?,
    };
    block.close(alloc)
}

/// `return g(b);` for the value `g(b)`.
pub(crate) fn new_return(id: NodeId, value: Node, alloc: Global) -> Result<Node, AllocError>
    ensures { IfOk result (λ made. made ≡ return_with id.0 value) }
{
    let returned = ReturnStatement {
        id,
        span: MADE,
        argument: Some(value),
    };
    returned.close(alloc)
}

/// The body `{ let { a, ...b } = _ref; return g(b); }` of these statements.
pub(crate) fn new_body(id: NodeId, statements: Vec<Node>, alloc: Global) -> Result<Node, AllocError>
    ensures { IfOk result (λ made. made ≡ body_with id.0 (trees statements.items)) }
{
    let body = FunctionBody {
        id,
        span: MADE,
        scope: None,
        directives: Vec::new(alloc),
        body: statements,
    };
    body.close(alloc)
}
