//! Operators with their operands.
ghost use Rattle.std.specs.Prelude.{IfOk, ◌≡◌, ◌+◌, ◌-◌, ◌^◌, ◌<◌, None};
ghost use Rattle.es_expressions.specs.OperationsArity.{
  IsUnaryExpression,
  IsUpdateExpression,
  IsBinaryExpression,
  IsLogicalExpression,
  IsConditionalExpression,
  IsAssignmentExpression,
  IsSequenceExpression,
  IsParenthesizedExpression,
};
ghost use Rattle.es_expressions.specs.OperationsPlain.{
  plain_unary_expression,
  plain_update_expression,
  plain_binary_expression,
  plain_logical_expression,
  plain_conditional_expression,
  plain_assignment_expression,
  plain_sequence_expression,
  plain_parenthesized_expression,
};

use es_tree::builder::AstBuilder;
use es_tree::ids::{NodeId, Span};
use es_tree::kind::Kind;
use es_tree::node::{Field, Node, Parts, exactly};
use es_tree::operators::{
    AssignmentOperator, BinaryOperator, LogicalOperator, UnaryOperator, UpdateOperator,
};
use es_tree::sorts::{AssignmentTarget, BinaryLeft, Expression};
use std::alloc::{AllocError, Global};

/// A unary operator and its operand (ECMA-262, 13.5).
#[derive(Drop)]
pub struct UnaryExpression {
    pub id: NodeId,
    pub span: Span,
    pub operator: UnaryOperator,
    pub argument: Expression,
}

impl UnaryExpression {
    /// Takes the node apart.
    pub fn open(node: Node) -> UnaryExpression
        requires { IsUnaryExpression node }
        ensures { plain_unary_expression result ≡ node }
    {
        let Parts {
            id,
            span,
            kind,
            fields,
        } = node.into_parts();
        let operator = match kind {
            Kind::UnaryExpression { operator } => operator,
            _other => unreachable!(),
        };
        let [argument]: [Field; 1] = exactly(fields);
        UnaryExpression {
            id,
            span,
            operator,
            argument: argument.into_node(),
        }
    }

    /// The node of these parts.
    pub fn close(self, alloc: Global) -> Result<Node, AllocError>
        ensures { IfOk result (λ node. node ≡ plain_unary_expression self) }
    {
        let UnaryExpression {
            id,
            span,
            operator,
            argument,
        } = self;
        let kind = Kind::UnaryExpression { operator };
        let fields = Vec::from_array(alloc, [Field::One(argument)])?;
        Ok(Node {
            id,
            span,
            kind,
            fields,
        })
    }
}

/// A node `UnaryExpression` with a new id and without marks.
pub fn new_unary_expression(
    ast: &mut AstBuilder,
    span: Span,
    operator: UnaryOperator,
    argument: Expression,
) -> Result<Node, AllocError>
    requires { ast.old.next < 2 ^ 32 - 1 }
    ensures made { IfOk result (λ node. node ≡ plain_unary_expression (record { id = record { 0 = ast.old.next }; span = span; operator = operator; argument = argument })) }
    ensures counted { ast.new.next ≡ ast.old.next + 1 }
{
    let id = ast.new_id();
    let made = UnaryExpression {
        id,
        span,
        operator,
        argument,
    };
    made.close(ast.alloc)
}

/// `++` or `--` and its target (ECMA-262, 13.4).
#[derive(Drop)]
pub struct UpdateExpression {
    pub id: NodeId,
    pub span: Span,
    pub operator: UpdateOperator,
    pub prefix: bool,
    pub argument: Expression,
}

impl UpdateExpression {
    /// Takes the node apart.
    pub fn open(node: Node) -> UpdateExpression
        requires { IsUpdateExpression node }
        ensures { plain_update_expression result ≡ node }
    {
        let Parts {
            id,
            span,
            kind,
            fields,
        } = node.into_parts();
        let (operator, prefix) = match kind {
            Kind::UpdateExpression { operator, prefix } => (operator, prefix),
            _other => unreachable!(),
        };
        let [argument]: [Field; 1] = exactly(fields);
        UpdateExpression {
            id,
            span,
            operator,
            prefix,
            argument: argument.into_node(),
        }
    }

    /// The node of these parts.
    pub fn close(self, alloc: Global) -> Result<Node, AllocError>
        ensures { IfOk result (λ node. node ≡ plain_update_expression self) }
    {
        let UpdateExpression {
            id,
            span,
            operator,
            prefix,
            argument,
        } = self;
        let kind = Kind::UpdateExpression { operator, prefix };
        let fields = Vec::from_array(alloc, [Field::One(argument)])?;
        Ok(Node {
            id,
            span,
            kind,
            fields,
        })
    }
}

/// A node `UpdateExpression` with a new id and without marks.
pub fn new_update_expression(
    ast: &mut AstBuilder,
    span: Span,
    operator: UpdateOperator,
    prefix: bool,
    argument: Expression,
) -> Result<Node, AllocError>
    requires { ast.old.next < 2 ^ 32 - 1 }
    ensures made { IfOk result (λ node. node ≡ plain_update_expression (record { id = record { 0 = ast.old.next }; span = span; operator = operator; prefix = prefix; argument = argument })) }
    ensures counted { ast.new.next ≡ ast.old.next + 1 }
{
    let id = ast.new_id();
    let made = UpdateExpression {
        id,
        span,
        operator,
        prefix,
        argument,
    };
    made.close(ast.alloc)
}

/// A binary operator and its operands (ECMA-262, 13.6 to 13.12).
#[derive(Drop)]
pub struct BinaryExpression {
    pub id: NodeId,
    pub span: Span,
    pub operator: BinaryOperator,
    pub left: BinaryLeft,
    pub right: Expression,
}

impl BinaryExpression {
    /// Takes the node apart.
    pub fn open(node: Node) -> BinaryExpression
        requires { IsBinaryExpression node }
        ensures { plain_binary_expression result ≡ node }
    {
        let Parts {
            id,
            span,
            kind,
            fields,
        } = node.into_parts();
        let operator = match kind {
            Kind::BinaryExpression { operator } => operator,
            _other => unreachable!(),
        };
        let [left, right]: [Field; 2] = exactly(fields);
        BinaryExpression {
            id,
            span,
            operator,
            left: left.into_node(),
            right: right.into_node(),
        }
    }

    /// The node of these parts.
    pub fn close(self, alloc: Global) -> Result<Node, AllocError>
        ensures { IfOk result (λ node. node ≡ plain_binary_expression self) }
    {
        let BinaryExpression {
            id,
            span,
            operator,
            left,
            right,
        } = self;
        let kind = Kind::BinaryExpression { operator };
        let fields = Vec::from_array(alloc, [Field::One(left), Field::One(right)])?;
        Ok(Node {
            id,
            span,
            kind,
            fields,
        })
    }
}

/// A node `BinaryExpression` with a new id and without marks.
pub fn new_binary_expression(
    ast: &mut AstBuilder,
    span: Span,
    operator: BinaryOperator,
    left: BinaryLeft,
    right: Expression,
) -> Result<Node, AllocError>
    requires { ast.old.next < 2 ^ 32 - 1 }
    ensures made { IfOk result (λ node. node ≡ plain_binary_expression (record { id = record { 0 = ast.old.next }; span = span; operator = operator; left = left; right = right })) }
    ensures counted { ast.new.next ≡ ast.old.next + 1 }
{
    let id = ast.new_id();
    let made = BinaryExpression {
        id,
        span,
        operator,
        left,
        right,
    };
    made.close(ast.alloc)
}

/// `||`, `&&` or `??` and its operands (ECMA-262, 13.13).
#[derive(Drop)]
pub struct LogicalExpression {
    pub id: NodeId,
    pub span: Span,
    pub operator: LogicalOperator,
    pub left: Expression,
    pub right: Expression,
}

impl LogicalExpression {
    /// Takes the node apart.
    pub fn open(node: Node) -> LogicalExpression
        requires { IsLogicalExpression node }
        ensures { plain_logical_expression result ≡ node }
    {
        let Parts {
            id,
            span,
            kind,
            fields,
        } = node.into_parts();
        let operator = match kind {
            Kind::LogicalExpression { operator } => operator,
            _other => unreachable!(),
        };
        let [left, right]: [Field; 2] = exactly(fields);
        LogicalExpression {
            id,
            span,
            operator,
            left: left.into_node(),
            right: right.into_node(),
        }
    }

    /// The node of these parts.
    pub fn close(self, alloc: Global) -> Result<Node, AllocError>
        ensures { IfOk result (λ node. node ≡ plain_logical_expression self) }
    {
        let LogicalExpression {
            id,
            span,
            operator,
            left,
            right,
        } = self;
        let kind = Kind::LogicalExpression { operator };
        let fields = Vec::from_array(alloc, [Field::One(left), Field::One(right)])?;
        Ok(Node {
            id,
            span,
            kind,
            fields,
        })
    }
}

/// A node `LogicalExpression` with a new id and without marks.
pub fn new_logical_expression(
    ast: &mut AstBuilder,
    span: Span,
    operator: LogicalOperator,
    left: Expression,
    right: Expression,
) -> Result<Node, AllocError>
    requires { ast.old.next < 2 ^ 32 - 1 }
    ensures made { IfOk result (λ node. node ≡ plain_logical_expression (record { id = record { 0 = ast.old.next }; span = span; operator = operator; left = left; right = right })) }
    ensures counted { ast.new.next ≡ ast.old.next + 1 }
{
    let id = ast.new_id();
    let made = LogicalExpression {
        id,
        span,
        operator,
        left,
        right,
    };
    made.close(ast.alloc)
}

/// A conditional (ECMA-262, 13.14).
#[derive(Drop)]
pub struct ConditionalExpression {
    pub id: NodeId,
    pub span: Span,
    pub test: Expression,
    pub consequent: Expression,
    pub alternate: Expression,
}

impl ConditionalExpression {
    /// Takes the node apart.
    pub fn open(node: Node) -> ConditionalExpression
        requires { IsConditionalExpression node }
        ensures { plain_conditional_expression result ≡ node }
    {
        let Parts {
            id,
            span,
            kind,
            fields,
        } = node.into_parts();
        match kind {
            Kind::ConditionalExpression => {}
            _other => unreachable!(),
        }
        let [test, consequent, alternate]: [Field; 3] = exactly(fields);
        ConditionalExpression {
            id,
            span,
            test: test.into_node(),
            consequent: consequent.into_node(),
            alternate: alternate.into_node(),
        }
    }

    /// The node of these parts.
    pub fn close(self, alloc: Global) -> Result<Node, AllocError>
        ensures { IfOk result (λ node. node ≡ plain_conditional_expression self) }
    {
        let ConditionalExpression {
            id,
            span,
            test,
            consequent,
            alternate,
        } = self;
        let kind = Kind::ConditionalExpression;
        let fields = Vec::from_array(
            alloc,
            [
                Field::One(test),
                Field::One(consequent),
                Field::One(alternate),
            ],
        )?;
        Ok(Node {
            id,
            span,
            kind,
            fields,
        })
    }
}

/// A node `ConditionalExpression` with a new id and without marks.
pub fn new_conditional_expression(
    ast: &mut AstBuilder,
    span: Span,
    test: Expression,
    consequent: Expression,
    alternate: Expression,
) -> Result<Node, AllocError>
    requires { ast.old.next < 2 ^ 32 - 1 }
    ensures made { IfOk result (λ node. node ≡ plain_conditional_expression (record { id = record { 0 = ast.old.next }; span = span; test = test; consequent = consequent; alternate = alternate })) }
    ensures counted { ast.new.next ≡ ast.old.next + 1 }
{
    let id = ast.new_id();
    let made = ConditionalExpression {
        id,
        span,
        test,
        consequent,
        alternate,
    };
    made.close(ast.alloc)
}

/// An assignment (ECMA-262, 13.15).
#[derive(Drop)]
pub struct AssignmentExpression {
    pub id: NodeId,
    pub span: Span,
    pub operator: AssignmentOperator,
    pub left: AssignmentTarget,
    pub right: Expression,
}

impl AssignmentExpression {
    /// Takes the node apart.
    pub fn open(node: Node) -> AssignmentExpression
        requires { IsAssignmentExpression node }
        ensures { plain_assignment_expression result ≡ node }
    {
        let Parts {
            id,
            span,
            kind,
            fields,
        } = node.into_parts();
        let operator = match kind {
            Kind::AssignmentExpression { operator } => operator,
            _other => unreachable!(),
        };
        let [left, right]: [Field; 2] = exactly(fields);
        AssignmentExpression {
            id,
            span,
            operator,
            left: left.into_node(),
            right: right.into_node(),
        }
    }

    /// The node of these parts.
    pub fn close(self, alloc: Global) -> Result<Node, AllocError>
        ensures { IfOk result (λ node. node ≡ plain_assignment_expression self) }
    {
        let AssignmentExpression {
            id,
            span,
            operator,
            left,
            right,
        } = self;
        let kind = Kind::AssignmentExpression { operator };
        let fields = Vec::from_array(alloc, [Field::One(left), Field::One(right)])?;
        Ok(Node {
            id,
            span,
            kind,
            fields,
        })
    }
}

/// A node `AssignmentExpression` with a new id and without marks.
pub fn new_assignment_expression(
    ast: &mut AstBuilder,
    span: Span,
    operator: AssignmentOperator,
    left: AssignmentTarget,
    right: Expression,
) -> Result<Node, AllocError>
    requires { ast.old.next < 2 ^ 32 - 1 }
    ensures made { IfOk result (λ node. node ≡ plain_assignment_expression (record { id = record { 0 = ast.old.next }; span = span; operator = operator; left = left; right = right })) }
    ensures counted { ast.new.next ≡ ast.old.next + 1 }
{
    let id = ast.new_id();
    let made = AssignmentExpression {
        id,
        span,
        operator,
        left,
        right,
    };
    made.close(ast.alloc)
}

/// Expressions with commas between (ECMA-262, 13.16).
#[derive(Drop)]
pub struct SequenceExpression {
    pub id: NodeId,
    pub span: Span,
    pub expressions: Vec<Expression>,
}

impl SequenceExpression {
    /// Takes the node apart.
    pub fn open(node: Node) -> SequenceExpression
        requires { IsSequenceExpression node }
        ensures { plain_sequence_expression result ≡ node }
    {
        let Parts {
            id,
            span,
            kind,
            fields,
        } = node.into_parts();
        match kind {
            Kind::SequenceExpression => {}
            _other => unreachable!(),
        }
        let [expressions]: [Field; 1] = exactly(fields);
        SequenceExpression {
            id,
            span,
            expressions: expressions.into_nodes(),
        }
    }

    /// The node of these parts.
    pub fn close(self, alloc: Global) -> Result<Node, AllocError>
        ensures { IfOk result (λ node. node ≡ plain_sequence_expression self) }
    {
        let SequenceExpression {
            id,
            span,
            expressions,
        } = self;
        let kind = Kind::SequenceExpression;
        let fields = Vec::from_array(alloc, [Field::Many(expressions)])?;
        Ok(Node {
            id,
            span,
            kind,
            fields,
        })
    }
}

/// A node `SequenceExpression` with a new id and without marks.
pub fn new_sequence_expression(
    ast: &mut AstBuilder,
    span: Span,
    expressions: Vec<Expression>,
) -> Result<Node, AllocError>
    requires { ast.old.next < 2 ^ 32 - 1 }
    ensures made { IfOk result (λ node. node ≡ plain_sequence_expression (record { id = record { 0 = ast.old.next }; span = span; expressions = expressions })) }
    ensures counted { ast.new.next ≡ ast.old.next + 1 }
{
    let id = ast.new_id();
    let made = SequenceExpression {
        id,
        span,
        expressions,
    };
    made.close(ast.alloc)
}

/// An expression in parentheses (ECMA-262, 13.2.9).
#[derive(Drop)]
pub struct ParenthesizedExpression {
    pub id: NodeId,
    pub span: Span,
    pub expression: Expression,
}

impl ParenthesizedExpression {
    /// Takes the node apart.
    pub fn open(node: Node) -> ParenthesizedExpression
        requires { IsParenthesizedExpression node }
        ensures { plain_parenthesized_expression result ≡ node }
    {
        let Parts {
            id,
            span,
            kind,
            fields,
        } = node.into_parts();
        match kind {
            Kind::ParenthesizedExpression => {}
            _other => unreachable!(),
        }
        let [expression]: [Field; 1] = exactly(fields);
        ParenthesizedExpression {
            id,
            span,
            expression: expression.into_node(),
        }
    }

    /// The node of these parts.
    pub fn close(self, alloc: Global) -> Result<Node, AllocError>
        ensures { IfOk result (λ node. node ≡ plain_parenthesized_expression self) }
    {
        let ParenthesizedExpression {
            id,
            span,
            expression,
        } = self;
        let kind = Kind::ParenthesizedExpression;
        let fields = Vec::from_array(alloc, [Field::One(expression)])?;
        Ok(Node {
            id,
            span,
            kind,
            fields,
        })
    }
}

/// A node `ParenthesizedExpression` with a new id and without marks.
pub fn new_parenthesized_expression(
    ast: &mut AstBuilder,
    span: Span,
    expression: Expression,
) -> Result<Node, AllocError>
    requires { ast.old.next < 2 ^ 32 - 1 }
    ensures made { IfOk result (λ node. node ≡ plain_parenthesized_expression (record { id = record { 0 = ast.old.next }; span = span; expression = expression })) }
    ensures counted { ast.new.next ≡ ast.old.next + 1 }
{
    let id = ast.new_id();
    let made = ParenthesizedExpression {
        id,
        span,
        expression,
    };
    made.close(ast.alloc)
}
