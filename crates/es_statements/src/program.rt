//! The program, its plain statements and declarations.
ghost use Rattle.std.specs.Prelude.{IfOk, ◌≡◌, ◌+◌, ◌-◌, ◌^◌, ◌<◌, None};
ghost use Rattle.es_statements.specs.ProgramArity.{IsProgram, IsDirective, IsExpressionStatement, IsBlockStatement, IsEmptyStatement, IsDebuggerStatement, IsVariableDeclaration, IsVariableDeclarator};
ghost use Rattle.es_statements.specs.ProgramPlain.{plain_program, plain_directive, plain_expression_statement, plain_block_statement, plain_empty_statement, plain_debugger_statement, plain_variable_declaration, plain_variable_declarator};

use es_tree::builder::AstBuilder;
use es_tree::ids::{NodeId, ScopeId, Span};
use es_tree::kind::Kind;
use es_tree::node::{Field, Node, Parts, exactly};
use es_tree::operators::{SourceType, VariableDeclarationKind};
use es_tree::sorts::{BindingPattern, Expression, Statement};
use std::alloc::{AllocError, Global};

/// A script or a module (ECMA-262, 16).
#[derive(Drop)]
pub struct Program {
    pub id: NodeId,
    pub span: Span,
    pub source_type: SourceType,
    pub scope: Option<ScopeId>,
    pub directives: Vec<Node>,
    pub body: Vec<Statement>,
}

impl Program {
    /// Takes the node apart.
    pub fn open(node: Node) -> Program
        requires { IsProgram node }
        ensures { plain_program result ≡ node }
    {
        let Parts {
            id,
            span,
            kind,
            fields,
        } = node.into_parts();
        let (source_type, scope) = match kind {
            Kind::Program { source_type, scope } => (source_type, scope),
            _other => unreachable!(),
        };
        let [directives, body]: [Field; 2] = exactly(fields);
        Program {
            id,
            span,
            source_type,
            scope,
            directives: directives.into_nodes(),
            body: body.into_statements(),
        }
    }

    /// The node of these parts.
    pub fn close(self, alloc: Global) -> Result<Node, AllocError>
        ensures { IfOk result (λ node. node ≡ plain_program self) }
    {
        let Program {
            id,
            span,
            source_type,
            scope,
            directives,
            body,
        } = self;
        let kind = Kind::Program { source_type, scope };
        let fields = Vec::from_array(alloc, [Field::Many(directives), Field::Statements(body)])?;
        Ok(Node {
            id,
            span,
            kind,
            fields,
        })
    }
}

/// A node `Program` with a new id and without marks.
pub fn new_program(
    ast: &mut AstBuilder,
    span: Span,
    source_type: SourceType,
    directives: Vec<Node>,
    body: Vec<Statement>,
) -> Result<Node, AllocError>
    requires { ast.old.next < 2 ^ 32 - 1 }
    ensures made { IfOk result (λ node. node ≡ plain_program (record { id = record { 0 = ast.old.next }; span = span; source_type = source_type; directives = directives; body = body; scope = None })) }
    ensures counted { ast.new.next ≡ ast.old.next + 1 }
{
    let id = ast.new_id();
    let made = Program {
        id,
        span,
        source_type,
        directives,
        body,
        scope: None,
    };
    made.close(ast.alloc)
}

/// A directive of a directive prologue (ECMA-262, 11.2.1).
#[derive(Drop)]
pub struct Directive {
    pub id: NodeId,
    pub span: Span,
    pub value: String,
}

impl Directive {
    /// Takes the node apart.
    pub fn open(node: Node) -> Directive
        requires { IsDirective node }
        ensures { plain_directive result ≡ node }
    {
        let Parts {
            id,
            span,
            kind,
            fields,
        } = node.into_parts();
        let value = match kind {
            Kind::Directive { value } => value,
            _other => unreachable!(),
        };
        let []: [Field; 0] = exactly(fields);
        Directive { id, span, value }
    }

    /// The node of these parts.
    pub fn close(self, alloc: Global) -> Result<Node, AllocError>
        ensures { IfOk result (λ node. node ≡ plain_directive self) }
    {
        let Directive { id, span, value } = self;
        let kind = Kind::Directive { value };
        let fields = Vec::new(alloc);
        Ok(Node {
            id,
            span,
            kind,
            fields,
        })
    }
}

/// A node `Directive` with a new id and without marks.
pub fn new_directive(ast: &mut AstBuilder, span: Span, value: String) -> Result<Node, AllocError>
    requires { ast.old.next < 2 ^ 32 - 1 }
    ensures made { IfOk result (λ node. node ≡ plain_directive (record { id = record { 0 = ast.old.next }; span = span; value = value })) }
    ensures counted { ast.new.next ≡ ast.old.next + 1 }
{
    let id = ast.new_id();
    let made = Directive { id, span, value };
    made.close(ast.alloc)
}

/// An expression statement (ECMA-262, 14.5).
#[derive(Drop)]
pub struct ExpressionStatement {
    pub id: NodeId,
    pub span: Span,
    pub expression: Expression,
}

impl ExpressionStatement {
    /// Takes the node apart.
    pub fn open(node: Node) -> ExpressionStatement
        requires { IsExpressionStatement node }
        ensures { plain_expression_statement result ≡ node }
    {
        let Parts {
            id,
            span,
            kind,
            fields,
        } = node.into_parts();
        match kind {
            Kind::ExpressionStatement => {}
            _other => unreachable!(),
        }
        let [expression]: [Field; 1] = exactly(fields);
        ExpressionStatement {
            id,
            span,
            expression: expression.into_node(),
        }
    }

    /// The node of these parts.
    pub fn close(self, alloc: Global) -> Result<Node, AllocError>
        ensures { IfOk result (λ node. node ≡ plain_expression_statement self) }
    {
        let ExpressionStatement {
            id,
            span,
            expression,
        } = self;
        let kind = Kind::ExpressionStatement;
        let fields = Vec::from_array(alloc, [Field::One(expression)])?;
        Ok(Node {
            id,
            span,
            kind,
            fields,
        })
    }
}

/// A node `ExpressionStatement` with a new id and without marks.
pub fn new_expression_statement(
    ast: &mut AstBuilder,
    span: Span,
    expression: Expression,
) -> Result<Node, AllocError>
    requires { ast.old.next < 2 ^ 32 - 1 }
    ensures made { IfOk result (λ node. node ≡ plain_expression_statement (record { id = record { 0 = ast.old.next }; span = span; expression = expression })) }
    ensures counted { ast.new.next ≡ ast.old.next + 1 }
{
    let id = ast.new_id();
    let made = ExpressionStatement {
        id,
        span,
        expression,
    };
    made.close(ast.alloc)
}

/// A block (ECMA-262, 14.2).
#[derive(Drop)]
pub struct BlockStatement {
    pub id: NodeId,
    pub span: Span,
    pub scope: Option<ScopeId>,
    pub body: Vec<Statement>,
}

impl BlockStatement {
    /// Takes the node apart.
    pub fn open(node: Node) -> BlockStatement
        requires { IsBlockStatement node }
        ensures { plain_block_statement result ≡ node }
    {
        let Parts {
            id,
            span,
            kind,
            fields,
        } = node.into_parts();
        let scope = match kind {
            Kind::BlockStatement { scope } => scope,
            _other => unreachable!(),
        };
        let [body]: [Field; 1] = exactly(fields);
        BlockStatement {
            id,
            span,
            scope,
            body: body.into_statements(),
        }
    }

    /// The node of these parts.
    pub fn close(self, alloc: Global) -> Result<Node, AllocError>
        ensures { IfOk result (λ node. node ≡ plain_block_statement self) }
    {
        let BlockStatement {
            id,
            span,
            scope,
            body,
        } = self;
        let kind = Kind::BlockStatement { scope };
        let fields = Vec::from_array(alloc, [Field::Statements(body)])?;
        Ok(Node {
            id,
            span,
            kind,
            fields,
        })
    }
}

/// A node `BlockStatement` with a new id and without marks.
pub fn new_block_statement(
    ast: &mut AstBuilder,
    span: Span,
    body: Vec<Statement>,
) -> Result<Node, AllocError>
    requires { ast.old.next < 2 ^ 32 - 1 }
    ensures made { IfOk result (λ node. node ≡ plain_block_statement (record { id = record { 0 = ast.old.next }; span = span; body = body; scope = None })) }
    ensures counted { ast.new.next ≡ ast.old.next + 1 }
{
    let id = ast.new_id();
    let made = BlockStatement {
        id,
        span,
        body,
        scope: None,
    };
    made.close(ast.alloc)
}

/// An empty statement (ECMA-262, 14.4).
#[derive(Drop)]
pub struct EmptyStatement {
    pub id: NodeId,
    pub span: Span,
}

impl EmptyStatement {
    /// Takes the node apart.
    pub fn open(node: Node) -> EmptyStatement
        requires { IsEmptyStatement node }
        ensures { plain_empty_statement result ≡ node }
    {
        let Parts {
            id,
            span,
            kind,
            fields,
        } = node.into_parts();
        match kind {
            Kind::EmptyStatement => {}
            _other => unreachable!(),
        }
        let []: [Field; 0] = exactly(fields);
        EmptyStatement { id, span }
    }

    /// The node of these parts.
    pub fn close(self, alloc: Global) -> Result<Node, AllocError>
        ensures { IfOk result (λ node. node ≡ plain_empty_statement self) }
    {
        let EmptyStatement { id, span } = self;
        let kind = Kind::EmptyStatement;
        let fields = Vec::new(alloc);
        Ok(Node {
            id,
            span,
            kind,
            fields,
        })
    }
}

/// A node `EmptyStatement` with a new id and without marks.
pub fn new_empty_statement(ast: &mut AstBuilder, span: Span) -> Result<Node, AllocError>
    requires { ast.old.next < 2 ^ 32 - 1 }
    ensures made { IfOk result (λ node. node ≡ plain_empty_statement (record { id = record { 0 = ast.old.next }; span = span })) }
    ensures counted { ast.new.next ≡ ast.old.next + 1 }
{
    let id = ast.new_id();
    let made = EmptyStatement { id, span };
    made.close(ast.alloc)
}

/// A debugger statement (ECMA-262, 14.16).
#[derive(Drop)]
pub struct DebuggerStatement {
    pub id: NodeId,
    pub span: Span,
}

impl DebuggerStatement {
    /// Takes the node apart.
    pub fn open(node: Node) -> DebuggerStatement
        requires { IsDebuggerStatement node }
        ensures { plain_debugger_statement result ≡ node }
    {
        let Parts {
            id,
            span,
            kind,
            fields,
        } = node.into_parts();
        match kind {
            Kind::DebuggerStatement => {}
            _other => unreachable!(),
        }
        let []: [Field; 0] = exactly(fields);
        DebuggerStatement { id, span }
    }

    /// The node of these parts.
    pub fn close(self, alloc: Global) -> Result<Node, AllocError>
        ensures { IfOk result (λ node. node ≡ plain_debugger_statement self) }
    {
        let DebuggerStatement { id, span } = self;
        let kind = Kind::DebuggerStatement;
        let fields = Vec::new(alloc);
        Ok(Node {
            id,
            span,
            kind,
            fields,
        })
    }
}

/// A node `DebuggerStatement` with a new id and without marks.
pub fn new_debugger_statement(ast: &mut AstBuilder, span: Span) -> Result<Node, AllocError>
    requires { ast.old.next < 2 ^ 32 - 1 }
    ensures made { IfOk result (λ node. node ≡ plain_debugger_statement (record { id = record { 0 = ast.old.next }; span = span })) }
    ensures counted { ast.new.next ≡ ast.old.next + 1 }
{
    let id = ast.new_id();
    let made = DebuggerStatement { id, span };
    made.close(ast.alloc)
}

/// A declaration by `var`, `let`, `const` or `using` (ECMA-262, 14.3).
#[derive(Drop)]
pub struct VariableDeclaration {
    pub id: NodeId,
    pub span: Span,
    pub kind: VariableDeclarationKind,
    pub declarations: Vec<Node>,
}

impl VariableDeclaration {
    /// Takes the node apart.
    pub fn open(node: Node) -> VariableDeclaration
        requires { IsVariableDeclaration node }
        ensures { plain_variable_declaration result ≡ node }
    {
        let Parts {
            id,
            span,
            kind: node_kind,
            fields,
        } = node.into_parts();
        let kind = match node_kind {
            Kind::VariableDeclaration { kind } => kind,
            _other => unreachable!(),
        };
        let [declarations]: [Field; 1] = exactly(fields);
        VariableDeclaration {
            id,
            span,
            kind,
            declarations: declarations.into_nodes(),
        }
    }

    /// The node of these parts.
    pub fn close(self, alloc: Global) -> Result<Node, AllocError>
        ensures { IfOk result (λ node. node ≡ plain_variable_declaration self) }
    {
        let VariableDeclaration {
            id,
            span,
            kind,
            declarations,
        } = self;
        let node_kind = Kind::VariableDeclaration { kind };
        let fields = Vec::from_array(alloc, [Field::Many(declarations)])?;
        Ok(Node {
            id,
            span,
            kind: node_kind,
            fields,
        })
    }
}

/// A node `VariableDeclaration` with a new id and without marks.
pub fn new_variable_declaration(
    ast: &mut AstBuilder,
    span: Span,
    kind: VariableDeclarationKind,
    declarations: Vec<Node>,
) -> Result<Node, AllocError>
    requires { ast.old.next < 2 ^ 32 - 1 }
    ensures made { IfOk result (λ node. node ≡ plain_variable_declaration (record { id = record { 0 = ast.old.next }; span = span; kind = kind; declarations = declarations })) }
    ensures counted { ast.new.next ≡ ast.old.next + 1 }
{
    let id = ast.new_id();
    let made = VariableDeclaration {
        id,
        span,
        kind,
        declarations,
    };
    made.close(ast.alloc)
}

/// One binding of a declaration (ECMA-262, 14.3).
#[derive(Drop)]
pub struct VariableDeclarator {
    pub id: NodeId,
    pub span: Span,
    pub binding: BindingPattern,
    pub init: Option<Expression>,
}

impl VariableDeclarator {
    /// Takes the node apart.
    pub fn open(node: Node) -> VariableDeclarator
        requires { IsVariableDeclarator node }
        ensures { plain_variable_declarator result ≡ node }
    {
        let Parts {
            id,
            span,
            kind,
            fields,
        } = node.into_parts();
        match kind {
            Kind::VariableDeclarator => {}
            _other => unreachable!(),
        }
        let [binding, init]: [Field; 2] = exactly(fields);
        VariableDeclarator {
            id,
            span,
            binding: binding.into_node(),
            init: init.into_optional(),
        }
    }

    /// The node of these parts.
    pub fn close(self, alloc: Global) -> Result<Node, AllocError>
        ensures { IfOk result (λ node. node ≡ plain_variable_declarator self) }
    {
        let VariableDeclarator {
            id,
            span,
            binding,
            init,
        } = self;
        let kind = Kind::VariableDeclarator;
        let fields = Vec::from_array(alloc, [Field::One(binding), Field::from_optional(init)])?;
        Ok(Node {
            id,
            span,
            kind,
            fields,
        })
    }
}

/// A node `VariableDeclarator` with a new id and without marks.
pub fn new_variable_declarator(
    ast: &mut AstBuilder,
    span: Span,
    binding: BindingPattern,
    init: Option<Expression>,
) -> Result<Node, AllocError>
    requires { ast.old.next < 2 ^ 32 - 1 }
    ensures made { IfOk result (λ node. node ≡ plain_variable_declarator (record { id = record { 0 = ast.old.next }; span = span; binding = binding; init = init })) }
    ensures counted { ast.new.next ≡ ast.old.next + 1 }
{
    let id = ast.new_id();
    let made = VariableDeclarator {
        id,
        span,
        binding,
        init,
    };
    made.close(ast.alloc)
}
