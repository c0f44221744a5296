//! Loops, and the statements that leave or go on with one.
ghost use Rattle.std.specs.Prelude.{IfOk, ◌≡◌, ◌+◌, ◌-◌, ◌^◌, ◌<◌, None};
ghost use Rattle.es_statements.specs.LoopsArity.{IsForStatement, IsForInStatement, IsForOfStatement, IsWhileStatement, IsDoWhileStatement, IsBreakStatement, IsContinueStatement};
ghost use Rattle.es_statements.specs.LoopsPlain.{plain_for_statement, plain_for_in_statement, plain_for_of_statement, plain_while_statement, plain_do_while_statement, plain_break_statement, plain_continue_statement};

use es_tree::builder::AstBuilder;
use es_tree::ids::{NodeId, ScopeId, Span};
use es_tree::kind::Kind;
use es_tree::node::{Field, Node, Parts, exactly};
use es_tree::sorts::{Expression, ForInit, ForLeft, Statement};
use std::alloc::{AllocError, Global};

/// A for statement (ECMA-262, 14.7.4).
#[derive(Drop)]
pub struct ForStatement {
    pub id: NodeId,
    pub span: Span,
    pub scope: Option<ScopeId>,
    pub init: Option<ForInit>,
    pub test: Option<Expression>,
    pub update: Option<Expression>,
    pub body: Statement,
}

impl ForStatement {
    /// Takes the node apart.
    pub fn open(node: Node) -> ForStatement
        requires { IsForStatement node }
        ensures { plain_for_statement result ≡ node }
    {
        let Parts {
            id,
            span,
            kind,
            fields,
        } = node.into_parts();
        let scope = match kind {
            Kind::ForStatement { scope } => scope,
            _other => unreachable!(),
        };
        let [init, test, update, body]: [Field; 4] = exactly(fields);
        ForStatement {
            id,
            span,
            scope,
            init: init.into_optional(),
            test: test.into_optional(),
            update: update.into_optional(),
            body: body.into_node(),
        }
    }

    /// The node of these parts.
    pub fn close(self, alloc: Global) -> Result<Node, AllocError>
        ensures { IfOk result (λ node. node ≡ plain_for_statement self) }
    {
        let ForStatement {
            id,
            span,
            scope,
            init,
            test,
            update,
            body,
        } = self;
        let kind = Kind::ForStatement { scope };
        let fields = Vec::from_array(
            alloc,
            [
                Field::from_optional(init),
                Field::from_optional(test),
                Field::from_optional(update),
                Field::One(body),
            ],
        )?;
        Ok(Node {
            id,
            span,
            kind,
            fields,
        })
    }
}

/// A node `ForStatement` with a new id and without marks.
pub fn new_for_statement(
    ast: &mut AstBuilder,
    span: Span,
    init: Option<ForInit>,
    test: Option<Expression>,
    update: Option<Expression>,
    body: Statement,
) -> Result<Node, AllocError>
    requires { ast.old.next < 2 ^ 32 - 1 }
    ensures made { IfOk result (λ node. node ≡ plain_for_statement (record { id = record { 0 = ast.old.next }; span = span; init = init; test = test; update = update; body = body; scope = None })) }
    ensures counted { ast.new.next ≡ ast.old.next + 1 }
{
    let id = ast.new_id();
    let made = ForStatement {
        id,
        span,
        init,
        test,
        update,
        body,
        scope: None,
    };
    made.close(ast.alloc)
}

/// A for-in statement (ECMA-262, 14.7.5).
#[derive(Drop)]
pub struct ForInStatement {
    pub id: NodeId,
    pub span: Span,
    pub scope: Option<ScopeId>,
    pub left: ForLeft,
    pub right: Expression,
    pub body: Statement,
}

impl ForInStatement {
    /// Takes the node apart.
    pub fn open(node: Node) -> ForInStatement
        requires { IsForInStatement node }
        ensures { plain_for_in_statement result ≡ node }
    {
        let Parts {
            id,
            span,
            kind,
            fields,
        } = node.into_parts();
        let scope = match kind {
            Kind::ForInStatement { scope } => scope,
            _other => unreachable!(),
        };
        let [left, right, body]: [Field; 3] = exactly(fields);
        ForInStatement {
            id,
            span,
            scope,
            left: left.into_node(),
            right: right.into_node(),
            body: body.into_node(),
        }
    }

    /// The node of these parts.
    pub fn close(self, alloc: Global) -> Result<Node, AllocError>
        ensures { IfOk result (λ node. node ≡ plain_for_in_statement self) }
    {
        let ForInStatement {
            id,
            span,
            scope,
            left,
            right,
            body,
        } = self;
        let kind = Kind::ForInStatement { scope };
        let fields = Vec::from_array(
            alloc,
            [Field::One(left), Field::One(right), Field::One(body)],
        )?;
        Ok(Node {
            id,
            span,
            kind,
            fields,
        })
    }
}

/// A node `ForInStatement` with a new id and without marks.
pub fn new_for_in_statement(
    ast: &mut AstBuilder,
    span: Span,
    left: ForLeft,
    right: Expression,
    body: Statement,
) -> Result<Node, AllocError>
    requires { ast.old.next < 2 ^ 32 - 1 }
    ensures made { IfOk result (λ node. node ≡ plain_for_in_statement (record { id = record { 0 = ast.old.next }; span = span; left = left; right = right; body = body; scope = None })) }
    ensures counted { ast.new.next ≡ ast.old.next + 1 }
{
    let id = ast.new_id();
    let made = ForInStatement {
        id,
        span,
        left,
        right,
        body,
        scope: None,
    };
    made.close(ast.alloc)
}

/// A for-of statement (ECMA-262, 14.7.5).
#[derive(Drop)]
pub struct ForOfStatement {
    pub id: NodeId,
    pub span: Span,
    pub scope: Option<ScopeId>,
    pub left: ForLeft,
    pub right: Expression,
    pub body: Statement,
}

impl ForOfStatement {
    /// Takes the node apart.
    pub fn open(node: Node) -> ForOfStatement
        requires { IsForOfStatement node }
        ensures { plain_for_of_statement result ≡ node }
    {
        let Parts {
            id,
            span,
            kind,
            fields,
        } = node.into_parts();
        let scope = match kind {
            Kind::ForOfStatement { scope } => scope,
            _other => unreachable!(),
        };
        let [left, right, body]: [Field; 3] = exactly(fields);
        ForOfStatement {
            id,
            span,
            scope,
            left: left.into_node(),
            right: right.into_node(),
            body: body.into_node(),
        }
    }

    /// The node of these parts.
    pub fn close(self, alloc: Global) -> Result<Node, AllocError>
        ensures { IfOk result (λ node. node ≡ plain_for_of_statement self) }
    {
        let ForOfStatement {
            id,
            span,
            scope,
            left,
            right,
            body,
        } = self;
        let kind = Kind::ForOfStatement { scope };
        let fields = Vec::from_array(
            alloc,
            [Field::One(left), Field::One(right), Field::One(body)],
        )?;
        Ok(Node {
            id,
            span,
            kind,
            fields,
        })
    }
}

/// A node `ForOfStatement` with a new id and without marks.
pub fn new_for_of_statement(
    ast: &mut AstBuilder,
    span: Span,
    left: ForLeft,
    right: Expression,
    body: Statement,
) -> Result<Node, AllocError>
    requires { ast.old.next < 2 ^ 32 - 1 }
    ensures made { IfOk result (λ node. node ≡ plain_for_of_statement (record { id = record { 0 = ast.old.next }; span = span; left = left; right = right; body = body; scope = None })) }
    ensures counted { ast.new.next ≡ ast.old.next + 1 }
{
    let id = ast.new_id();
    let made = ForOfStatement {
        id,
        span,
        left,
        right,
        body,
        scope: None,
    };
    made.close(ast.alloc)
}

/// A while statement (ECMA-262, 14.7.3).
#[derive(Drop)]
pub struct WhileStatement {
    pub id: NodeId,
    pub span: Span,
    pub test: Expression,
    pub body: Statement,
}

impl WhileStatement {
    /// Takes the node apart.
    pub fn open(node: Node) -> WhileStatement
        requires { IsWhileStatement node }
        ensures { plain_while_statement result ≡ node }
    {
        let Parts {
            id,
            span,
            kind,
            fields,
        } = node.into_parts();
        match kind {
            Kind::WhileStatement => {}
            _other => unreachable!(),
        }
        let [test, body]: [Field; 2] = exactly(fields);
        WhileStatement {
            id,
            span,
            test: test.into_node(),
            body: body.into_node(),
        }
    }

    /// The node of these parts.
    pub fn close(self, alloc: Global) -> Result<Node, AllocError>
        ensures { IfOk result (λ node. node ≡ plain_while_statement self) }
    {
        let WhileStatement {
            id,
            span,
            test,
            body,
        } = self;
        let kind = Kind::WhileStatement;
        let fields = Vec::from_array(alloc, [Field::One(test), Field::One(body)])?;
        Ok(Node {
            id,
            span,
            kind,
            fields,
        })
    }
}

/// A node `WhileStatement` with a new id and without marks.
pub fn new_while_statement(
    ast: &mut AstBuilder,
    span: Span,
    test: Expression,
    body: Statement,
) -> Result<Node, AllocError>
    requires { ast.old.next < 2 ^ 32 - 1 }
    ensures made { IfOk result (λ node. node ≡ plain_while_statement (record { id = record { 0 = ast.old.next }; span = span; test = test; body = body })) }
    ensures counted { ast.new.next ≡ ast.old.next + 1 }
{
    let id = ast.new_id();
    let made = WhileStatement {
        id,
        span,
        test,
        body,
    };
    made.close(ast.alloc)
}

/// A do-while statement (ECMA-262, 14.7.2).
#[derive(Drop)]
pub struct DoWhileStatement {
    pub id: NodeId,
    pub span: Span,
    pub body: Statement,
    pub test: Expression,
}

impl DoWhileStatement {
    /// Takes the node apart.
    pub fn open(node: Node) -> DoWhileStatement
        requires { IsDoWhileStatement node }
        ensures { plain_do_while_statement result ≡ node }
    {
        let Parts {
            id,
            span,
            kind,
            fields,
        } = node.into_parts();
        match kind {
            Kind::DoWhileStatement => {}
            _other => unreachable!(),
        }
        let [body, test]: [Field; 2] = exactly(fields);
        DoWhileStatement {
            id,
            span,
            body: body.into_node(),
            test: test.into_node(),
        }
    }

    /// The node of these parts.
    pub fn close(self, alloc: Global) -> Result<Node, AllocError>
        ensures { IfOk result (λ node. node ≡ plain_do_while_statement self) }
    {
        let DoWhileStatement {
            id,
            span,
            body,
            test,
        } = self;
        let kind = Kind::DoWhileStatement;
        let fields = Vec::from_array(alloc, [Field::One(body), Field::One(test)])?;
        Ok(Node {
            id,
            span,
            kind,
            fields,
        })
    }
}

/// A node `DoWhileStatement` with a new id and without marks.
pub fn new_do_while_statement(
    ast: &mut AstBuilder,
    span: Span,
    body: Statement,
    test: Expression,
) -> Result<Node, AllocError>
    requires { ast.old.next < 2 ^ 32 - 1 }
    ensures made { IfOk result (λ node. node ≡ plain_do_while_statement (record { id = record { 0 = ast.old.next }; span = span; body = body; test = test })) }
    ensures counted { ast.new.next ≡ ast.old.next + 1 }
{
    let id = ast.new_id();
    let made = DoWhileStatement {
        id,
        span,
        body,
        test,
    };
    made.close(ast.alloc)
}

/// A break statement (ECMA-262, 14.9).
#[derive(Drop)]
pub struct BreakStatement {
    pub id: NodeId,
    pub span: Span,
    pub label: Option<Node>,
}

impl BreakStatement {
    /// Takes the node apart.
    pub fn open(node: Node) -> BreakStatement
        requires { IsBreakStatement node }
        ensures { plain_break_statement result ≡ node }
    {
        let Parts {
            id,
            span,
            kind,
            fields,
        } = node.into_parts();
        match kind {
            Kind::BreakStatement => {}
            _other => unreachable!(),
        }
        let [label]: [Field; 1] = exactly(fields);
        BreakStatement {
            id,
            span,
            label: label.into_optional(),
        }
    }

    /// The node of these parts.
    pub fn close(self, alloc: Global) -> Result<Node, AllocError>
        ensures { IfOk result (λ node. node ≡ plain_break_statement self) }
    {
        let BreakStatement { id, span, label } = self;
        let kind = Kind::BreakStatement;
        let fields = Vec::from_array(alloc, [Field::from_optional(label)])?;
        Ok(Node {
            id,
            span,
            kind,
            fields,
        })
    }
}

/// A node `BreakStatement` with a new id and without marks.
pub fn new_break_statement(
    ast: &mut AstBuilder,
    span: Span,
    label: Option<Node>,
) -> Result<Node, AllocError>
    requires { ast.old.next < 2 ^ 32 - 1 }
    ensures made { IfOk result (λ node. node ≡ plain_break_statement (record { id = record { 0 = ast.old.next }; span = span; label = label })) }
    ensures counted { ast.new.next ≡ ast.old.next + 1 }
{
    let id = ast.new_id();
    let made = BreakStatement { id, span, label };
    made.close(ast.alloc)
}

/// A continue statement (ECMA-262, 14.8).
#[derive(Drop)]
pub struct ContinueStatement {
    pub id: NodeId,
    pub span: Span,
    pub label: Option<Node>,
}

impl ContinueStatement {
    /// Takes the node apart.
    pub fn open(node: Node) -> ContinueStatement
        requires { IsContinueStatement node }
        ensures { plain_continue_statement result ≡ node }
    {
        let Parts {
            id,
            span,
            kind,
            fields,
        } = node.into_parts();
        match kind {
            Kind::ContinueStatement => {}
            _other => unreachable!(),
        }
        let [label]: [Field; 1] = exactly(fields);
        ContinueStatement {
            id,
            span,
            label: label.into_optional(),
        }
    }

    /// The node of these parts.
    pub fn close(self, alloc: Global) -> Result<Node, AllocError>
        ensures { IfOk result (λ node. node ≡ plain_continue_statement self) }
    {
        let ContinueStatement { id, span, label } = self;
        let kind = Kind::ContinueStatement;
        let fields = Vec::from_array(alloc, [Field::from_optional(label)])?;
        Ok(Node {
            id,
            span,
            kind,
            fields,
        })
    }
}

/// A node `ContinueStatement` with a new id and without marks.
pub fn new_continue_statement(
    ast: &mut AstBuilder,
    span: Span,
    label: Option<Node>,
) -> Result<Node, AllocError>
    requires { ast.old.next < 2 ^ 32 - 1 }
    ensures made { IfOk result (λ node. node ≡ plain_continue_statement (record { id = record { 0 = ast.old.next }; span = span; label = label })) }
    ensures counted { ast.new.next ≡ ast.old.next + 1 }
{
    let id = ast.new_id();
    let made = ContinueStatement { id, span, label };
    made.close(ast.alloc)
}
