//! Literals of arrays and objects, functions and classes.
ghost use Rattle.std.specs.Prelude.{IfOk, ◌≡◌, ◌+◌, ◌-◌, ◌^◌, ◌<◌, None};
ghost use Rattle.es_expressions.specs.CompositesArity.{
  IsArrayExpression,
  IsSpreadElement,
  IsObjectExpression,
  IsObjectProperty,
  IsFunctionExpression,
  IsArrowFunctionExpression,
  IsClassExpression,
};
ghost use Rattle.es_expressions.specs.CompositesPlain.{
  plain_array_expression,
  plain_spread_element,
  plain_object_expression,
  plain_object_property,
  plain_function_expression,
  plain_arrow_function_expression,
  plain_class_expression,
};

use es_tree::builder::AstBuilder;
use es_tree::ids::{NodeId, ScopeId, Span};
use es_tree::kind::Kind;
use es_tree::node::{Field, Node, Parts, exactly};
use es_tree::operators::PropertyKind;
use es_tree::sorts::{
    ArrowFunctionBody, BindingPattern, ClassElement, Expression, ObjectMember, PropertyKey,
};
use std::alloc::{AllocError, Global};

/// An array literal (ECMA-262, 13.2.4).
#[derive(Drop)]
pub struct ArrayExpression {
    pub id: NodeId,
    pub span: Span,
    pub elements: Vec<Field>,
}

impl ArrayExpression {
    /// Takes the node apart.
    pub fn open(node: Node) -> ArrayExpression
        requires { IsArrayExpression node }
        ensures { plain_array_expression result ≡ node }
    {
        let Parts {
            id,
            span,
            kind,
            fields,
        } = node.into_parts();
        match kind {
            Kind::ArrayExpression => {}
            _other => unreachable!(),
        }
        let elements = fields;
        ArrayExpression { id, span, elements }
    }

    /// The node of these parts.
    pub fn close(self, alloc: Global) -> Result<Node, AllocError>
        ensures { IfOk result (λ node. node ≡ plain_array_expression self) }
    {
        let ArrayExpression { id, span, elements } = self;
        let kind = Kind::ArrayExpression;
        Ok(Node {
            id,
            span,
            kind,
            fields: elements,
        })
    }
}

/// A node `ArrayExpression` with a new id and without marks.
pub fn new_array_expression(
    ast: &mut AstBuilder,
    span: Span,
    elements: Vec<Field>,
) -> Result<Node, AllocError>
    requires { ast.old.next < 2 ^ 32 - 1 }
    ensures made { IfOk result (λ node. node ≡ plain_array_expression (record { id = record { 0 = ast.old.next }; span = span; elements = elements })) }
    ensures counted { ast.new.next ≡ ast.old.next + 1 }
{
    let id = ast.new_id();
    let made = ArrayExpression { id, span, elements };
    made.close(ast.alloc)
}

/// A spread element (ECMA-262, 13.2.4).
#[derive(Drop)]
pub struct SpreadElement {
    pub id: NodeId,
    pub span: Span,
    pub argument: Expression,
}

impl SpreadElement {
    /// Takes the node apart.
    pub fn open(node: Node) -> SpreadElement
        requires { IsSpreadElement node }
        ensures { plain_spread_element result ≡ node }
    {
        let Parts {
            id,
            span,
            kind,
            fields,
        } = node.into_parts();
        match kind {
            Kind::SpreadElement => {}
            _other => unreachable!(),
        }
        let [argument]: [Field; 1] = exactly(fields);
        SpreadElement {
            id,
            span,
            argument: argument.into_node(),
        }
    }

    /// The node of these parts.
    pub fn close(self, alloc: Global) -> Result<Node, AllocError>
        ensures { IfOk result (λ node. node ≡ plain_spread_element self) }
    {
        let SpreadElement { id, span, argument } = self;
        let kind = Kind::SpreadElement;
        let fields = Vec::from_array(alloc, [Field::One(argument)])?;
        Ok(Node {
            id,
            span,
            kind,
            fields,
        })
    }
}

/// A node `SpreadElement` with a new id and without marks.
pub fn new_spread_element(
    ast: &mut AstBuilder,
    span: Span,
    argument: Expression,
) -> Result<Node, AllocError>
    requires { ast.old.next < 2 ^ 32 - 1 }
    ensures made { IfOk result (λ node. node ≡ plain_spread_element (record { id = record { 0 = ast.old.next }; span = span; argument = argument })) }
    ensures counted { ast.new.next ≡ ast.old.next + 1 }
{
    let id = ast.new_id();
    let made = SpreadElement { id, span, argument };
    made.close(ast.alloc)
}

/// An object literal (ECMA-262, 13.2.5).
#[derive(Drop)]
pub struct ObjectExpression {
    pub id: NodeId,
    pub span: Span,
    pub properties: Vec<ObjectMember>,
}

impl ObjectExpression {
    /// Takes the node apart.
    pub fn open(node: Node) -> ObjectExpression
        requires { IsObjectExpression node }
        ensures { plain_object_expression result ≡ node }
    {
        let Parts {
            id,
            span,
            kind,
            fields,
        } = node.into_parts();
        match kind {
            Kind::ObjectExpression => {}
            _other => unreachable!(),
        }
        let [properties]: [Field; 1] = exactly(fields);
        ObjectExpression {
            id,
            span,
            properties: properties.into_nodes(),
        }
    }

    /// The node of these parts.
    pub fn close(self, alloc: Global) -> Result<Node, AllocError>
        ensures { IfOk result (λ node. node ≡ plain_object_expression self) }
    {
        let ObjectExpression {
            id,
            span,
            properties,
        } = self;
        let kind = Kind::ObjectExpression;
        let fields = Vec::from_array(alloc, [Field::Many(properties)])?;
        Ok(Node {
            id,
            span,
            kind,
            fields,
        })
    }
}

/// A node `ObjectExpression` with a new id and without marks.
pub fn new_object_expression(
    ast: &mut AstBuilder,
    span: Span,
    properties: Vec<ObjectMember>,
) -> Result<Node, AllocError>
    requires { ast.old.next < 2 ^ 32 - 1 }
    ensures made { IfOk result (λ node. node ≡ plain_object_expression (record { id = record { 0 = ast.old.next }; span = span; properties = properties })) }
    ensures counted { ast.new.next ≡ ast.old.next + 1 }
{
    let id = ast.new_id();
    let made = ObjectExpression {
        id,
        span,
        properties,
    };
    made.close(ast.alloc)
}

/// A property of an object literal (ECMA-262, 13.2.5).
#[derive(Drop)]
pub struct ObjectProperty {
    pub id: NodeId,
    pub span: Span,
    pub kind: PropertyKind,
    pub method: bool,
    pub shorthand: bool,
    pub computed: bool,
    pub key: PropertyKey,
    pub value: Expression,
}

impl ObjectProperty {
    /// Takes the node apart.
    pub fn open(node: Node) -> ObjectProperty
        requires { IsObjectProperty node }
        ensures { plain_object_property result ≡ node }
    {
        let Parts {
            id,
            span,
            kind: node_kind,
            fields,
        } = node.into_parts();
        let (kind, method, shorthand, computed) = match node_kind {
            Kind::ObjectProperty {
                kind,
                method,
                shorthand,
                computed,
            } => (kind, method, shorthand, computed),
            _other => unreachable!(),
        };
        let [key, value]: [Field; 2] = exactly(fields);
        ObjectProperty {
            id,
            span,
            kind,
            method,
            shorthand,
            computed,
            key: key.into_node(),
            value: value.into_node(),
        }
    }

    /// The node of these parts.
    pub fn close(self, alloc: Global) -> Result<Node, AllocError>
        ensures { IfOk result (λ node. node ≡ plain_object_property self) }
    {
        let ObjectProperty {
            id,
            span,
            kind,
            method,
            shorthand,
            computed,
            key,
            value,
        } = self;
        let node_kind = Kind::ObjectProperty {
            kind,
            method,
            shorthand,
            computed,
        };
        let fields = Vec::from_array(alloc, [Field::One(key), Field::One(value)])?;
        Ok(Node {
            id,
            span,
            kind: node_kind,
            fields,
        })
    }
}

/// A node `ObjectProperty` with a new id and without marks.
pub fn new_object_property(
    ast: &mut AstBuilder,
    span: Span,
    kind: PropertyKind,
    method: bool,
    shorthand: bool,
    computed: bool,
    key: PropertyKey,
    value: Expression,
) -> Result<Node, AllocError>
    requires { ast.old.next < 2 ^ 32 - 1 }
    ensures made { IfOk result (λ node. node ≡ plain_object_property (record { id = record { 0 = ast.old.next }; span = span; kind = kind; method = method; shorthand = shorthand; computed = computed; key = key; value = value })) }
    ensures counted { ast.new.next ≡ ast.old.next + 1 }
{
    let id = ast.new_id();
    let made = ObjectProperty {
        id,
        span,
        kind,
        method,
        shorthand,
        computed,
        key,
        value,
    };
    made.close(ast.alloc)
}

/// A function expression (ECMA-262, 15.2).
#[derive(Drop)]
pub struct FunctionExpression {
    pub id: NodeId,
    pub span: Span,
    pub scope: Option<ScopeId>,
    pub binding: Option<Node>,
    pub params: Vec<BindingPattern>,
    pub body: Node,
}

impl FunctionExpression {
    /// Takes the node apart.
    pub fn open(node: Node) -> FunctionExpression
        requires { IsFunctionExpression node }
        ensures { plain_function_expression result ≡ node }
    {
        let Parts {
            id,
            span,
            kind,
            fields,
        } = node.into_parts();
        let scope = match kind {
            Kind::FunctionExpression { scope } => scope,
            _other => unreachable!(),
        };
        let [binding, params, body]: [Field; 3] = exactly(fields);
        FunctionExpression {
            id,
            span,
            scope,
            binding: binding.into_optional(),
            params: params.into_nodes(),
            body: body.into_node(),
        }
    }

    /// The node of these parts.
    pub fn close(self, alloc: Global) -> Result<Node, AllocError>
        ensures { IfOk result (λ node. node ≡ plain_function_expression self) }
    {
        let FunctionExpression {
            id,
            span,
            scope,
            binding,
            params,
            body,
        } = self;
        let kind = Kind::FunctionExpression { scope };
        let fields = Vec::from_array(
            alloc,
            [
                Field::from_optional(binding),
                Field::Many(params),
                Field::One(body),
            ],
        )?;
        Ok(Node {
            id,
            span,
            kind,
            fields,
        })
    }
}

/// A node `FunctionExpression` with a new id and without marks.
pub fn new_function_expression(
    ast: &mut AstBuilder,
    span: Span,
    binding: Option<Node>,
    params: Vec<BindingPattern>,
    body: Node,
) -> Result<Node, AllocError>
    requires { ast.old.next < 2 ^ 32 - 1 }
    ensures made { IfOk result (λ node. node ≡ plain_function_expression (record { id = record { 0 = ast.old.next }; span = span; binding = binding; params = params; body = body; scope = None })) }
    ensures counted { ast.new.next ≡ ast.old.next + 1 }
{
    let id = ast.new_id();
    let made = FunctionExpression {
        id,
        span,
        binding,
        params,
        body,
        scope: None,
    };
    made.close(ast.alloc)
}

/// An arrow function (ECMA-262, 15.3).
#[derive(Drop)]
pub struct ArrowFunctionExpression {
    pub id: NodeId,
    pub span: Span,
    pub scope: Option<ScopeId>,
    pub params: Vec<BindingPattern>,
    pub body: ArrowFunctionBody,
}

impl ArrowFunctionExpression {
    /// Takes the node apart.
    pub fn open(node: Node) -> ArrowFunctionExpression
        requires { IsArrowFunctionExpression node }
        ensures { plain_arrow_function_expression result ≡ node }
    {
        let Parts {
            id,
            span,
            kind,
            fields,
        } = node.into_parts();
        let scope = match kind {
            Kind::ArrowFunctionExpression { scope } => scope,
            _other => unreachable!(),
        };
        let [params, body]: [Field; 2] = exactly(fields);
        ArrowFunctionExpression {
            id,
            span,
            scope,
            params: params.into_nodes(),
            body: body.into_node(),
        }
    }

    /// The node of these parts.
    pub fn close(self, alloc: Global) -> Result<Node, AllocError>
        ensures { IfOk result (λ node. node ≡ plain_arrow_function_expression self) }
    {
        let ArrowFunctionExpression {
            id,
            span,
            scope,
            params,
            body,
        } = self;
        let kind = Kind::ArrowFunctionExpression { scope };
        let fields = Vec::from_array(alloc, [Field::Many(params), Field::One(body)])?;
        Ok(Node {
            id,
            span,
            kind,
            fields,
        })
    }
}

/// A node `ArrowFunctionExpression` with a new id and without marks.
pub fn new_arrow_function_expression(
    ast: &mut AstBuilder,
    span: Span,
    params: Vec<BindingPattern>,
    body: ArrowFunctionBody,
) -> Result<Node, AllocError>
    requires { ast.old.next < 2 ^ 32 - 1 }
    ensures made { IfOk result (λ node. node ≡ plain_arrow_function_expression (record { id = record { 0 = ast.old.next }; span = span; params = params; body = body; scope = None })) }
    ensures counted { ast.new.next ≡ ast.old.next + 1 }
{
    let id = ast.new_id();
    let made = ArrowFunctionExpression {
        id,
        span,
        params,
        body,
        scope: None,
    };
    made.close(ast.alloc)
}

/// A class expression (ECMA-262, 15.7).
#[derive(Drop)]
pub struct ClassExpression {
    pub id: NodeId,
    pub span: Span,
    pub scope: Option<ScopeId>,
    pub binding: Option<Node>,
    pub super_class: Option<Expression>,
    pub body: Vec<ClassElement>,
}

impl ClassExpression {
    /// Takes the node apart.
    pub fn open(node: Node) -> ClassExpression
        requires { IsClassExpression node }
        ensures { plain_class_expression result ≡ node }
    {
        let Parts {
            id,
            span,
            kind,
            fields,
        } = node.into_parts();
        let scope = match kind {
            Kind::ClassExpression { scope } => scope,
            _other => unreachable!(),
        };
        let [binding, super_class, body]: [Field; 3] = exactly(fields);
        ClassExpression {
            id,
            span,
            scope,
            binding: binding.into_optional(),
            super_class: super_class.into_optional(),
            body: body.into_nodes(),
        }
    }

    /// The node of these parts.
    pub fn close(self, alloc: Global) -> Result<Node, AllocError>
        ensures { IfOk result (λ node. node ≡ plain_class_expression self) }
    {
        let ClassExpression {
            id,
            span,
            scope,
            binding,
            super_class,
            body,
        } = self;
        let kind = Kind::ClassExpression { scope };
        let fields = Vec::from_array(
            alloc,
            [
                Field::from_optional(binding),
                Field::from_optional(super_class),
                Field::Many(body),
            ],
        )?;
        Ok(Node {
            id,
            span,
            kind,
            fields,
        })
    }
}

/// A node `ClassExpression` with a new id and without marks.
pub fn new_class_expression(
    ast: &mut AstBuilder,
    span: Span,
    binding: Option<Node>,
    super_class: Option<Expression>,
    body: Vec<ClassElement>,
) -> Result<Node, AllocError>
    requires { ast.old.next < 2 ^ 32 - 1 }
    ensures made { IfOk result (λ node. node ≡ plain_class_expression (record { id = record { 0 = ast.old.next }; span = span; binding = binding; super_class = super_class; body = body; scope = None })) }
    ensures counted { ast.new.next ≡ ast.old.next + 1 }
{
    let id = ast.new_id();
    let made = ClassExpression {
        id,
        span,
        binding,
        super_class,
        body,
        scope: None,
    };
    made.close(ast.alloc)
}
