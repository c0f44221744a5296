//! Functions and classes.
ghost use Rattle.std.specs.Prelude.{IfOk, ◌≡◌, ◌+◌, ◌-◌, ◌^◌, ◌<◌, None};
ghost use Rattle.es_statements.specs.FunctionsArity.{
  IsFunctionDeclaration,
  IsFunctionBody,
  IsClassDeclaration,
  IsMethodDefinition,
  IsPropertyDefinition,
  IsStaticBlock,
};
ghost use Rattle.es_statements.specs.FunctionsPlain.{
  plain_function_declaration,
  plain_function_body,
  plain_class_declaration,
  plain_method_definition,
  plain_property_definition,
  plain_static_block,
};

use es_tree::builder::AstBuilder;
use es_tree::ids::{NodeId, ScopeId, Span};
use es_tree::kind::Kind;
use es_tree::node::{Field, Node, Parts, exactly};
use es_tree::operators::MethodDefinitionKind;
use es_tree::sorts::{BindingPattern, ClassElement, Expression, PropertyKey, Statement};
use std::alloc::{AllocError, Global};

/// A function declaration (ECMA-262, 15.2).
#[derive(Drop)]
pub struct FunctionDeclaration {
    pub id: NodeId,
    pub span: Span,
    pub scope: Option<ScopeId>,
    pub binding: Option<Node>,
    pub params: Vec<BindingPattern>,
    pub body: Node,
}

impl FunctionDeclaration {
    /// Takes the node apart.
    pub fn open(node: Node) -> FunctionDeclaration
        requires { IsFunctionDeclaration node }
        ensures { plain_function_declaration result ≡ node }
    {
        let Parts {
            id,
            span,
            kind,
            fields,
        } = node.into_parts();
        let scope = match kind {
            Kind::FunctionDeclaration { scope } => scope,
            _other => unreachable!(),
        };
        let [binding, params, body]: [Field; 3] = exactly(fields);
        FunctionDeclaration {
            id,
            span,
            scope,
            binding: binding.into_optional(),
            params: params.into_nodes(),
            body: body.into_node(),
        }
    }

    /// The node of these parts.
    pub fn close(self, alloc: Global) -> Result<Node, AllocError>
        ensures { IfOk result (λ node. node ≡ plain_function_declaration self) }
    {
        let FunctionDeclaration {
            id,
            span,
            scope,
            binding,
            params,
            body,
        } = self;
        let kind = Kind::FunctionDeclaration { scope };
        let fields = Vec::from_array(
            alloc,
            [
                Field::from_optional(binding),
                Field::Many(params),
                Field::One(body),
            ],
        )?;
        Ok(Node {
            id,
            span,
            kind,
            fields,
        })
    }
}

/// A node `FunctionDeclaration` with a new id and without marks.
pub fn new_function_declaration(
    ast: &mut AstBuilder,
    span: Span,
    binding: Option<Node>,
    params: Vec<BindingPattern>,
    body: Node,
) -> Result<Node, AllocError>
    requires { ast.old.next < 2 ^ 32 - 1 }
    ensures made { IfOk result (λ node. node ≡ plain_function_declaration (record { id = record { 0 = ast.old.next }; span = span; binding = binding; params = params; body = body; scope = None })) }
    ensures counted { ast.new.next ≡ ast.old.next + 1 }
{
    let id = ast.new_id();
    let made = FunctionDeclaration {
        id,
        span,
        binding,
        params,
        body,
        scope: None,
    };
    made.close(ast.alloc)
}

/// The body of a function (ECMA-262, 15.2).
#[derive(Drop)]
pub struct FunctionBody {
    pub id: NodeId,
    pub span: Span,
    pub scope: Option<ScopeId>,
    pub directives: Vec<Node>,
    pub body: Vec<Statement>,
}

impl FunctionBody {
    /// Takes the node apart.
    pub fn open(node: Node) -> FunctionBody
        requires { IsFunctionBody node }
        ensures { plain_function_body result ≡ node }
    {
        let Parts {
            id,
            span,
            kind,
            fields,
        } = node.into_parts();
        let scope = match kind {
            Kind::FunctionBody { scope } => scope,
            _other => unreachable!(),
        };
        let [directives, body]: [Field; 2] = exactly(fields);
        FunctionBody {
            id,
            span,
            scope,
            directives: directives.into_nodes(),
            body: body.into_statements(),
        }
    }

    /// The node of these parts.
    pub fn close(self, alloc: Global) -> Result<Node, AllocError>
        ensures { IfOk result (λ node. node ≡ plain_function_body self) }
    {
        let FunctionBody {
            id,
            span,
            scope,
            directives,
            body,
        } = self;
        let kind = Kind::FunctionBody { scope };
        let fields = Vec::from_array(alloc, [Field::Many(directives), Field::Statements(body)])?;
        Ok(Node {
            id,
            span,
            kind,
            fields,
        })
    }
}

/// A node `FunctionBody` with a new id and without marks.
pub fn new_function_body(
    ast: &mut AstBuilder,
    span: Span,
    directives: Vec<Node>,
    body: Vec<Statement>,
) -> Result<Node, AllocError>
    requires { ast.old.next < 2 ^ 32 - 1 }
    ensures made { IfOk result (λ node. node ≡ plain_function_body (record { id = record { 0 = ast.old.next }; span = span; directives = directives; body = body; scope = None })) }
    ensures counted { ast.new.next ≡ ast.old.next + 1 }
{
    let id = ast.new_id();
    let made = FunctionBody {
        id,
        span,
        directives,
        body,
        scope: None,
    };
    made.close(ast.alloc)
}

/// A class declaration (ECMA-262, 15.7).
#[derive(Drop)]
pub struct ClassDeclaration {
    pub id: NodeId,
    pub span: Span,
    pub scope: Option<ScopeId>,
    pub binding: Option<Node>,
    pub super_class: Option<Expression>,
    pub body: Vec<ClassElement>,
}

impl ClassDeclaration {
    /// Takes the node apart.
    pub fn open(node: Node) -> ClassDeclaration
        requires { IsClassDeclaration node }
        ensures { plain_class_declaration result ≡ node }
    {
        let Parts {
            id,
            span,
            kind,
            fields,
        } = node.into_parts();
        let scope = match kind {
            Kind::ClassDeclaration { scope } => scope,
            _other => unreachable!(),
        };
        let [binding, super_class, body]: [Field; 3] = exactly(fields);
        ClassDeclaration {
            id,
            span,
            scope,
            binding: binding.into_optional(),
            super_class: super_class.into_optional(),
            body: body.into_nodes(),
        }
    }

    /// The node of these parts.
    pub fn close(self, alloc: Global) -> Result<Node, AllocError>
        ensures { IfOk result (λ node. node ≡ plain_class_declaration self) }
    {
        let ClassDeclaration {
            id,
            span,
            scope,
            binding,
            super_class,
            body,
        } = self;
        let kind = Kind::ClassDeclaration { scope };
        let fields = Vec::from_array(
            alloc,
            [
                Field::from_optional(binding),
                Field::from_optional(super_class),
                Field::Many(body),
            ],
        )?;
        Ok(Node {
            id,
            span,
            kind,
            fields,
        })
    }
}

/// A node `ClassDeclaration` with a new id and without marks.
pub fn new_class_declaration(
    ast: &mut AstBuilder,
    span: Span,
    binding: Option<Node>,
    super_class: Option<Expression>,
    body: Vec<ClassElement>,
) -> Result<Node, AllocError>
    requires { ast.old.next < 2 ^ 32 - 1 }
    ensures made { IfOk result (λ node. node ≡ plain_class_declaration (record { id = record { 0 = ast.old.next }; span = span; binding = binding; super_class = super_class; body = body; scope = None })) }
    ensures counted { ast.new.next ≡ ast.old.next + 1 }
{
    let id = ast.new_id();
    let made = ClassDeclaration {
        id,
        span,
        binding,
        super_class,
        body,
        scope: None,
    };
    made.close(ast.alloc)
}

/// A method of a class (ECMA-262, 15.4).
#[derive(Drop)]
pub struct MethodDefinition {
    pub id: NodeId,
    pub span: Span,
    pub kind: MethodDefinitionKind,
    pub is_static: bool,
    pub computed: bool,
    pub key: PropertyKey,
    pub value: Node,
}

impl MethodDefinition {
    /// Takes the node apart.
    pub fn open(node: Node) -> MethodDefinition
        requires { IsMethodDefinition node }
        ensures { plain_method_definition result ≡ node }
    {
        let Parts {
            id,
            span,
            kind: node_kind,
            fields,
        } = node.into_parts();
        let (kind, is_static, computed) = match node_kind {
            Kind::MethodDefinition {
                kind,
                is_static,
                computed,
            } => (kind, is_static, computed),
            _other => unreachable!(),
        };
        let [key, value]: [Field; 2] = exactly(fields);
        MethodDefinition {
            id,
            span,
            kind,
            is_static,
            computed,
            key: key.into_node(),
            value: value.into_node(),
        }
    }

    /// The node of these parts.
    pub fn close(self, alloc: Global) -> Result<Node, AllocError>
        ensures { IfOk result (λ node. node ≡ plain_method_definition self) }
    {
        let MethodDefinition {
            id,
            span,
            kind,
            is_static,
            computed,
            key,
            value,
        } = self;
        let node_kind = Kind::MethodDefinition {
            kind,
            is_static,
            computed,
        };
        let fields = Vec::from_array(alloc, [Field::One(key), Field::One(value)])?;
        Ok(Node {
            id,
            span,
            kind: node_kind,
            fields,
        })
    }
}

/// A node `MethodDefinition` with a new id and without marks.
pub fn new_method_definition(
    ast: &mut AstBuilder,
    span: Span,
    kind: MethodDefinitionKind,
    is_static: bool,
    computed: bool,
    key: PropertyKey,
    value: Node,
) -> Result<Node, AllocError>
    requires { ast.old.next < 2 ^ 32 - 1 }
    ensures made { IfOk result (λ node. node ≡ plain_method_definition (record { id = record { 0 = ast.old.next }; span = span; kind = kind; is_static = is_static; computed = computed; key = key; value = value })) }
    ensures counted { ast.new.next ≡ ast.old.next + 1 }
{
    let id = ast.new_id();
    let made = MethodDefinition {
        id,
        span,
        kind,
        is_static,
        computed,
        key,
        value,
    };
    made.close(ast.alloc)
}

/// A property of a class (ECMA-262, 15.7).
#[derive(Drop)]
pub struct PropertyDefinition {
    pub id: NodeId,
    pub span: Span,
    pub is_static: bool,
    pub computed: bool,
    pub key: PropertyKey,
    pub value: Option<Expression>,
}

impl PropertyDefinition {
    /// Takes the node apart.
    pub fn open(node: Node) -> PropertyDefinition
        requires { IsPropertyDefinition node }
        ensures { plain_property_definition result ≡ node }
    {
        let Parts {
            id,
            span,
            kind,
            fields,
        } = node.into_parts();
        let (is_static, computed) = match kind {
            Kind::PropertyDefinition {
                is_static,
                computed,
            } => (is_static, computed),
            _other => unreachable!(),
        };
        let [key, value]: [Field; 2] = exactly(fields);
        PropertyDefinition {
            id,
            span,
            is_static,
            computed,
            key: key.into_node(),
            value: value.into_optional(),
        }
    }

    /// The node of these parts.
    pub fn close(self, alloc: Global) -> Result<Node, AllocError>
        ensures { IfOk result (λ node. node ≡ plain_property_definition self) }
    {
        let PropertyDefinition {
            id,
            span,
            is_static,
            computed,
            key,
            value,
        } = self;
        let kind = Kind::PropertyDefinition {
            is_static,
            computed,
        };
        let fields = Vec::from_array(alloc, [Field::One(key), Field::from_optional(value)])?;
        Ok(Node {
            id,
            span,
            kind,
            fields,
        })
    }
}

/// A node `PropertyDefinition` with a new id and without marks.
pub fn new_property_definition(
    ast: &mut AstBuilder,
    span: Span,
    is_static: bool,
    computed: bool,
    key: PropertyKey,
    value: Option<Expression>,
) -> Result<Node, AllocError>
    requires { ast.old.next < 2 ^ 32 - 1 }
    ensures made { IfOk result (λ node. node ≡ plain_property_definition (record { id = record { 0 = ast.old.next }; span = span; is_static = is_static; computed = computed; key = key; value = value })) }
    ensures counted { ast.new.next ≡ ast.old.next + 1 }
{
    let id = ast.new_id();
    let made = PropertyDefinition {
        id,
        span,
        is_static,
        computed,
        key,
        value,
    };
    made.close(ast.alloc)
}

/// A static block of a class (ECMA-262, 15.7).
#[derive(Drop)]
pub struct StaticBlock {
    pub id: NodeId,
    pub span: Span,
    pub scope: Option<ScopeId>,
    pub body: Vec<Statement>,
}

impl StaticBlock {
    /// Takes the node apart.
    pub fn open(node: Node) -> StaticBlock
        requires { IsStaticBlock node }
        ensures { plain_static_block result ≡ node }
    {
        let Parts {
            id,
            span,
            kind,
            fields,
        } = node.into_parts();
        let scope = match kind {
            Kind::StaticBlock { scope } => scope,
            _other => unreachable!(),
        };
        let [body]: [Field; 1] = exactly(fields);
        StaticBlock {
            id,
            span,
            scope,
            body: body.into_statements(),
        }
    }

    /// The node of these parts.
    pub fn close(self, alloc: Global) -> Result<Node, AllocError>
        ensures { IfOk result (λ node. node ≡ plain_static_block self) }
    {
        let StaticBlock {
            id,
            span,
            scope,
            body,
        } = self;
        let kind = Kind::StaticBlock { scope };
        let fields = Vec::from_array(alloc, [Field::Statements(body)])?;
        Ok(Node {
            id,
            span,
            kind,
            fields,
        })
    }
}

/// A node `StaticBlock` with a new id and without marks.
pub fn new_static_block(
    ast: &mut AstBuilder,
    span: Span,
    body: Vec<Statement>,
) -> Result<Node, AllocError>
    requires { ast.old.next < 2 ^ 32 - 1 }
    ensures made { IfOk result (λ node. node ≡ plain_static_block (record { id = record { 0 = ast.old.next }; span = span; body = body; scope = None })) }
    ensures counted { ast.new.next ≡ ast.old.next + 1 }
{
    let id = ast.new_id();
    let made = StaticBlock {
        id,
        span,
        body,
        scope: None,
    };
    made.close(ast.alloc)
}
