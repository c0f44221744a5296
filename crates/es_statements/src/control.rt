//! Branches, `try`, labels, and the statements that leave a function.
ghost use Rattle.std.specs.Prelude.{IfOk, ◌≡◌, ◌+◌, ◌-◌, ◌^◌, ◌<◌, None};
ghost use Rattle.es_statements.specs.ControlArity.{IsIfStatement, IsSwitchStatement, IsSwitchCase, IsTryStatement, IsCatchClause, IsReturnStatement, IsThrowStatement, IsLabeledStatement};
ghost use Rattle.es_statements.specs.ControlPlain.{plain_if_statement, plain_switch_statement, plain_switch_case, plain_try_statement, plain_catch_clause, plain_return_statement, plain_throw_statement, plain_labeled_statement};

use es_tree::builder::AstBuilder;
use es_tree::ids::{NodeId, ScopeId, Span};
use es_tree::kind::Kind;
use es_tree::node::{Field, Node, Parts, exactly};
use es_tree::sorts::{BindingPattern, Expression, Statement};
use std::alloc::{AllocError, Global};

/// An if statement (ECMA-262, 14.6).
#[derive(Drop)]
pub struct IfStatement {
    pub id: NodeId,
    pub span: Span,
    pub test: Expression,
    pub consequent: Statement,
    pub alternate: Option<Statement>,
}

impl IfStatement {
    /// Takes the node apart.
    pub fn open(node: Node) -> IfStatement
        requires { IsIfStatement node }
        ensures { plain_if_statement result ≡ node }
    {
        let Parts {
            id,
            span,
            kind,
            fields,
        } = node.into_parts();
        match kind {
            Kind::IfStatement => {}
            _other => unreachable!(),
        }
        let [test, consequent, alternate]: [Field; 3] = exactly(fields);
        IfStatement {
            id,
            span,
            test: test.into_node(),
            consequent: consequent.into_node(),
            alternate: alternate.into_optional(),
        }
    }

    /// The node of these parts.
    pub fn close(self, alloc: Global) -> Result<Node, AllocError>
        ensures { IfOk result (λ node. node ≡ plain_if_statement self) }
    {
        let IfStatement {
            id,
            span,
            test,
            consequent,
            alternate,
        } = self;
        let kind = Kind::IfStatement;
        let fields = Vec::from_array(
            alloc,
            [
                Field::One(test),
                Field::One(consequent),
                Field::from_optional(alternate),
            ],
        )?;
        Ok(Node {
            id,
            span,
            kind,
            fields,
        })
    }
}

/// A node `IfStatement` with a new id and without marks.
pub fn new_if_statement(
    ast: &mut AstBuilder,
    span: Span,
    test: Expression,
    consequent: Statement,
    alternate: Option<Statement>,
) -> Result<Node, AllocError>
    requires { ast.old.next < 2 ^ 32 - 1 }
    ensures made { IfOk result (λ node. node ≡ plain_if_statement (record { id = record { 0 = ast.old.next }; span = span; test = test; consequent = consequent; alternate = alternate })) }
    ensures counted { ast.new.next ≡ ast.old.next + 1 }
{
    let id = ast.new_id();
    let made = IfStatement {
        id,
        span,
        test,
        consequent,
        alternate,
    };
    made.close(ast.alloc)
}

/// A switch statement (ECMA-262, 14.12).
#[derive(Drop)]
pub struct SwitchStatement {
    pub id: NodeId,
    pub span: Span,
    pub scope: Option<ScopeId>,
    pub discriminant: Expression,
    pub cases: Vec<Node>,
}

impl SwitchStatement {
    /// Takes the node apart.
    pub fn open(node: Node) -> SwitchStatement
        requires { IsSwitchStatement node }
        ensures { plain_switch_statement result ≡ node }
    {
        let Parts {
            id,
            span,
            kind,
            fields,
        } = node.into_parts();
        let scope = match kind {
            Kind::SwitchStatement { scope } => scope,
            _other => unreachable!(),
        };
        let [discriminant, cases]: [Field; 2] = exactly(fields);
        SwitchStatement {
            id,
            span,
            scope,
            discriminant: discriminant.into_node(),
            cases: cases.into_nodes(),
        }
    }

    /// The node of these parts.
    pub fn close(self, alloc: Global) -> Result<Node, AllocError>
        ensures { IfOk result (λ node. node ≡ plain_switch_statement self) }
    {
        let SwitchStatement {
            id,
            span,
            scope,
            discriminant,
            cases,
        } = self;
        let kind = Kind::SwitchStatement { scope };
        let fields = Vec::from_array(alloc, [Field::One(discriminant), Field::Many(cases)])?;
        Ok(Node {
            id,
            span,
            kind,
            fields,
        })
    }
}

/// A node `SwitchStatement` with a new id and without marks.
pub fn new_switch_statement(
    ast: &mut AstBuilder,
    span: Span,
    discriminant: Expression,
    cases: Vec<Node>,
) -> Result<Node, AllocError>
    requires { ast.old.next < 2 ^ 32 - 1 }
    ensures made { IfOk result (λ node. node ≡ plain_switch_statement (record { id = record { 0 = ast.old.next }; span = span; discriminant = discriminant; cases = cases; scope = None })) }
    ensures counted { ast.new.next ≡ ast.old.next + 1 }
{
    let id = ast.new_id();
    let made = SwitchStatement {
        id,
        span,
        discriminant,
        cases,
        scope: None,
    };
    made.close(ast.alloc)
}

/// A case or the default of a switch (ECMA-262, 14.12).
#[derive(Drop)]
pub struct SwitchCase {
    pub id: NodeId,
    pub span: Span,
    pub test: Option<Expression>,
    pub consequent: Vec<Statement>,
}

impl SwitchCase {
    /// Takes the node apart.
    pub fn open(node: Node) -> SwitchCase
        requires { IsSwitchCase node }
        ensures { plain_switch_case result ≡ node }
    {
        let Parts {
            id,
            span,
            kind,
            fields,
        } = node.into_parts();
        match kind {
            Kind::SwitchCase => {}
            _other => unreachable!(),
        }
        let [test, consequent]: [Field; 2] = exactly(fields);
        SwitchCase {
            id,
            span,
            test: test.into_optional(),
            consequent: consequent.into_statements(),
        }
    }

    /// The node of these parts.
    pub fn close(self, alloc: Global) -> Result<Node, AllocError>
        ensures { IfOk result (λ node. node ≡ plain_switch_case self) }
    {
        let SwitchCase {
            id,
            span,
            test,
            consequent,
        } = self;
        let kind = Kind::SwitchCase;
        let fields = Vec::from_array(
            alloc,
            [Field::from_optional(test), Field::Statements(consequent)],
        )?;
        Ok(Node {
            id,
            span,
            kind,
            fields,
        })
    }
}

/// A node `SwitchCase` with a new id and without marks.
pub fn new_switch_case(
    ast: &mut AstBuilder,
    span: Span,
    test: Option<Expression>,
    consequent: Vec<Statement>,
) -> Result<Node, AllocError>
    requires { ast.old.next < 2 ^ 32 - 1 }
    ensures made { IfOk result (λ node. node ≡ plain_switch_case (record { id = record { 0 = ast.old.next }; span = span; test = test; consequent = consequent })) }
    ensures counted { ast.new.next ≡ ast.old.next + 1 }
{
    let id = ast.new_id();
    let made = SwitchCase {
        id,
        span,
        test,
        consequent,
    };
    made.close(ast.alloc)
}

/// A try statement (ECMA-262, 14.15).
#[derive(Drop)]
pub struct TryStatement {
    pub id: NodeId,
    pub span: Span,
    pub block: Node,
    pub handler: Option<Node>,
    pub finalizer: Option<Node>,
}

impl TryStatement {
    /// Takes the node apart.
    pub fn open(node: Node) -> TryStatement
        requires { IsTryStatement node }
        ensures { plain_try_statement result ≡ node }
    {
        let Parts {
            id,
            span,
            kind,
            fields,
        } = node.into_parts();
        match kind {
            Kind::TryStatement => {}
            _other => unreachable!(),
        }
        let [block, handler, finalizer]: [Field; 3] = exactly(fields);
        TryStatement {
            id,
            span,
            block: block.into_node(),
            handler: handler.into_optional(),
            finalizer: finalizer.into_optional(),
        }
    }

    /// The node of these parts.
    pub fn close(self, alloc: Global) -> Result<Node, AllocError>
        ensures { IfOk result (λ node. node ≡ plain_try_statement self) }
    {
        let TryStatement {
            id,
            span,
            block,
            handler,
            finalizer,
        } = self;
        let kind = Kind::TryStatement;
        let fields = Vec::from_array(
            alloc,
            [
                Field::One(block),
                Field::from_optional(handler),
                Field::from_optional(finalizer),
            ],
        )?;
        Ok(Node {
            id,
            span,
            kind,
            fields,
        })
    }
}

/// A node `TryStatement` with a new id and without marks.
pub fn new_try_statement(
    ast: &mut AstBuilder,
    span: Span,
    block: Node,
    handler: Option<Node>,
    finalizer: Option<Node>,
) -> Result<Node, AllocError>
    requires { ast.old.next < 2 ^ 32 - 1 }
    ensures made { IfOk result (λ node. node ≡ plain_try_statement (record { id = record { 0 = ast.old.next }; span = span; block = block; handler = handler; finalizer = finalizer })) }
    ensures counted { ast.new.next ≡ ast.old.next + 1 }
{
    let id = ast.new_id();
    let made = TryStatement {
        id,
        span,
        block,
        handler,
        finalizer,
    };
    made.close(ast.alloc)
}

/// The handler of a try statement (ECMA-262, 14.15).
#[derive(Drop)]
pub struct CatchClause {
    pub id: NodeId,
    pub span: Span,
    pub scope: Option<ScopeId>,
    pub param: Option<BindingPattern>,
    pub body: Node,
}

impl CatchClause {
    /// Takes the node apart.
    pub fn open(node: Node) -> CatchClause
        requires { IsCatchClause node }
        ensures { plain_catch_clause result ≡ node }
    {
        let Parts {
            id,
            span,
            kind,
            fields,
        } = node.into_parts();
        let scope = match kind {
            Kind::CatchClause { scope } => scope,
            _other => unreachable!(),
        };
        let [param, body]: [Field; 2] = exactly(fields);
        CatchClause {
            id,
            span,
            scope,
            param: param.into_optional(),
            body: body.into_node(),
        }
    }

    /// The node of these parts.
    pub fn close(self, alloc: Global) -> Result<Node, AllocError>
        ensures { IfOk result (λ node. node ≡ plain_catch_clause self) }
    {
        let CatchClause {
            id,
            span,
            scope,
            param,
            body,
        } = self;
        let kind = Kind::CatchClause { scope };
        let fields = Vec::from_array(alloc, [Field::from_optional(param), Field::One(body)])?;
        Ok(Node {
            id,
            span,
            kind,
            fields,
        })
    }
}

/// A node `CatchClause` with a new id and without marks.
pub fn new_catch_clause(
    ast: &mut AstBuilder,
    span: Span,
    param: Option<BindingPattern>,
    body: Node,
) -> Result<Node, AllocError>
    requires { ast.old.next < 2 ^ 32 - 1 }
    ensures made { IfOk result (λ node. node ≡ plain_catch_clause (record { id = record { 0 = ast.old.next }; span = span; param = param; body = body; scope = None })) }
    ensures counted { ast.new.next ≡ ast.old.next + 1 }
{
    let id = ast.new_id();
    let made = CatchClause {
        id,
        span,
        param,
        body,
        scope: None,
    };
    made.close(ast.alloc)
}

/// A return statement (ECMA-262, 14.10).
#[derive(Drop)]
pub struct ReturnStatement {
    pub id: NodeId,
    pub span: Span,
    pub argument: Option<Expression>,
}

impl ReturnStatement {
    /// Takes the node apart.
    pub fn open(node: Node) -> ReturnStatement
        requires { IsReturnStatement node }
        ensures { plain_return_statement result ≡ node }
    {
        let Parts {
            id,
            span,
            kind,
            fields,
        } = node.into_parts();
        match kind {
            Kind::ReturnStatement => {}
            _other => unreachable!(),
        }
        let [argument]: [Field; 1] = exactly(fields);
        ReturnStatement {
            id,
            span,
            argument: argument.into_optional(),
        }
    }

    /// The node of these parts.
    pub fn close(self, alloc: Global) -> Result<Node, AllocError>
        ensures { IfOk result (λ node. node ≡ plain_return_statement self) }
    {
        let ReturnStatement { id, span, argument } = self;
        let kind = Kind::ReturnStatement;
        let fields = Vec::from_array(alloc, [Field::from_optional(argument)])?;
        Ok(Node {
            id,
            span,
            kind,
            fields,
        })
    }
}

/// A node `ReturnStatement` with a new id and without marks.
pub fn new_return_statement(
    ast: &mut AstBuilder,
    span: Span,
    argument: Option<Expression>,
) -> Result<Node, AllocError>
    requires { ast.old.next < 2 ^ 32 - 1 }
    ensures made { IfOk result (λ node. node ≡ plain_return_statement (record { id = record { 0 = ast.old.next }; span = span; argument = argument })) }
    ensures counted { ast.new.next ≡ ast.old.next + 1 }
{
    let id = ast.new_id();
    let made = ReturnStatement { id, span, argument };
    made.close(ast.alloc)
}

/// A throw statement (ECMA-262, 14.14).
#[derive(Drop)]
pub struct ThrowStatement {
    pub id: NodeId,
    pub span: Span,
    pub argument: Expression,
}

impl ThrowStatement {
    /// Takes the node apart.
    pub fn open(node: Node) -> ThrowStatement
        requires { IsThrowStatement node }
        ensures { plain_throw_statement result ≡ node }
    {
        let Parts {
            id,
            span,
            kind,
            fields,
        } = node.into_parts();
        match kind {
            Kind::ThrowStatement => {}
            _other => unreachable!(),
        }
        let [argument]: [Field; 1] = exactly(fields);
        ThrowStatement {
            id,
            span,
            argument: argument.into_node(),
        }
    }

    /// The node of these parts.
    pub fn close(self, alloc: Global) -> Result<Node, AllocError>
        ensures { IfOk result (λ node. node ≡ plain_throw_statement self) }
    {
        let ThrowStatement { id, span, argument } = self;
        let kind = Kind::ThrowStatement;
        let fields = Vec::from_array(alloc, [Field::One(argument)])?;
        Ok(Node {
            id,
            span,
            kind,
            fields,
        })
    }
}

/// A node `ThrowStatement` with a new id and without marks.
pub fn new_throw_statement(
    ast: &mut AstBuilder,
    span: Span,
    argument: Expression,
) -> Result<Node, AllocError>
    requires { ast.old.next < 2 ^ 32 - 1 }
    ensures made { IfOk result (λ node. node ≡ plain_throw_statement (record { id = record { 0 = ast.old.next }; span = span; argument = argument })) }
    ensures counted { ast.new.next ≡ ast.old.next + 1 }
{
    let id = ast.new_id();
    let made = ThrowStatement { id, span, argument };
    made.close(ast.alloc)
}

/// A labelled statement (ECMA-262, 14.13).
#[derive(Drop)]
pub struct LabeledStatement {
    pub id: NodeId,
    pub span: Span,
    pub label: Node,
    pub body: Statement,
}

impl LabeledStatement {
    /// Takes the node apart.
    pub fn open(node: Node) -> LabeledStatement
        requires { IsLabeledStatement node }
        ensures { plain_labeled_statement result ≡ node }
    {
        let Parts {
            id,
            span,
            kind,
            fields,
        } = node.into_parts();
        match kind {
            Kind::LabeledStatement => {}
            _other => unreachable!(),
        }
        let [label, body]: [Field; 2] = exactly(fields);
        LabeledStatement {
            id,
            span,
            label: label.into_node(),
            body: body.into_node(),
        }
    }

    /// The node of these parts.
    pub fn close(self, alloc: Global) -> Result<Node, AllocError>
        ensures { IfOk result (λ node. node ≡ plain_labeled_statement self) }
    {
        let LabeledStatement {
            id,
            span,
            label,
            body,
        } = self;
        let kind = Kind::LabeledStatement;
        let fields = Vec::from_array(alloc, [Field::One(label), Field::One(body)])?;
        Ok(Node {
            id,
            span,
            kind,
            fields,
        })
    }
}

/// A node `LabeledStatement` with a new id and without marks.
pub fn new_labeled_statement(
    ast: &mut AstBuilder,
    span: Span,
    label: Node,
    body: Statement,
) -> Result<Node, AllocError>
    requires { ast.old.next < 2 ^ 32 - 1 }
    ensures made { IfOk result (λ node. node ≡ plain_labeled_statement (record { id = record { 0 = ast.old.next }; span = span; label = label; body = body })) }
    ensures counted { ast.new.next ≡ ast.old.next + 1 }
{
    let id = ast.new_id();
    let made = LabeledStatement {
        id,
        span,
        label,
        body,
    };
    made.close(ast.alloc)
}
