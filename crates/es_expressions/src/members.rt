//! Members, calls and chains.
ghost use Rattle.std.specs.Prelude.{IfOk, ◌≡◌, ◌+◌, ◌-◌, ◌^◌, ◌<◌, None};
ghost use Rattle.es_expressions.specs.MembersArity.{
  IsMemberExpression,
  IsCallExpression,
  IsNewExpression,
  IsChainExpression,
  IsMetaProperty,
  IsTaggedTemplateExpression,
};
ghost use Rattle.es_expressions.specs.MembersPlain.{
  plain_member_expression,
  plain_call_expression,
  plain_new_expression,
  plain_chain_expression,
  plain_meta_property,
  plain_tagged_template_expression,
};

use es_tree::builder::AstBuilder;
use es_tree::ids::{NodeId, Span};
use es_tree::kind::Kind;
use es_tree::node::{Field, Node, Parts, exactly};
use es_tree::sorts::{Argument, ChainElement, Expression, MemberProperty};
use std::alloc::{AllocError, Global};

/// A property of an object (ECMA-262, 13.3.2).
#[derive(Drop)]
pub struct MemberExpression {
    pub id: NodeId,
    pub span: Span,
    pub computed: bool,
    pub optional: bool,
    pub object: Expression,
    pub property: MemberProperty,
}

impl MemberExpression {
    /// Takes the node apart.
    pub fn open(node: Node) -> MemberExpression
        requires { IsMemberExpression node }
        ensures { plain_member_expression result ≡ node }
    {
        let Parts {
            id,
            span,
            kind,
            fields,
        } = node.into_parts();
        let (computed, optional) = match kind {
            Kind::MemberExpression { computed, optional } => (computed, optional),
            _other => unreachable!(),
        };
        let [object, property]: [Field; 2] = exactly(fields);
        MemberExpression {
            id,
            span,
            computed,
            optional,
            object: object.into_node(),
            property: property.into_node(),
        }
    }

    /// The node of these parts.
    pub fn close(self, alloc: Global) -> Result<Node, AllocError>
        ensures { IfOk result (λ node. node ≡ plain_member_expression self) }
    {
        let MemberExpression {
            id,
            span,
            computed,
            optional,
            object,
            property,
        } = self;
        let kind = Kind::MemberExpression { computed, optional };
        let fields = Vec::from_array(alloc, [Field::One(object), Field::One(property)])?;
        Ok(Node {
            id,
            span,
            kind,
            fields,
        })
    }
}

/// A node `MemberExpression` with a new id and without marks.
pub fn new_member_expression(
    ast: &mut AstBuilder,
    span: Span,
    computed: bool,
    optional: bool,
    object: Expression,
    property: MemberProperty,
) -> Result<Node, AllocError>
    requires { ast.old.next < 2 ^ 32 - 1 }
    ensures made { IfOk result (λ node. node ≡ plain_member_expression (record { id = record { 0 = ast.old.next }; span = span; computed = computed; optional = optional; object = object; property = property })) }
    ensures counted { ast.new.next ≡ ast.old.next + 1 }
{
    let id = ast.new_id();
    let made = MemberExpression {
        id,
        span,
        computed,
        optional,
        object,
        property,
    };
    made.close(ast.alloc)
}

/// A call (ECMA-262, 13.3.6).
#[derive(Drop)]
pub struct CallExpression {
    pub id: NodeId,
    pub span: Span,
    pub optional: bool,
    pub callee: Expression,
    pub arguments: Vec<Argument>,
}

impl CallExpression {
    /// Takes the node apart.
    pub fn open(node: Node) -> CallExpression
        requires { IsCallExpression node }
        ensures { plain_call_expression result ≡ node }
    {
        let Parts {
            id,
            span,
            kind,
            fields,
        } = node.into_parts();
        let optional = match kind {
            Kind::CallExpression { optional } => optional,
            _other => unreachable!(),
        };
        let [callee, arguments]: [Field; 2] = exactly(fields);
        CallExpression {
            id,
            span,
            optional,
            callee: callee.into_node(),
            arguments: arguments.into_nodes(),
        }
    }

    /// The node of these parts.
    pub fn close(self, alloc: Global) -> Result<Node, AllocError>
        ensures { IfOk result (λ node. node ≡ plain_call_expression self) }
    {
        let CallExpression {
            id,
            span,
            optional,
            callee,
            arguments,
        } = self;
        let kind = Kind::CallExpression { optional };
        let fields = Vec::from_array(alloc, [Field::One(callee), Field::Many(arguments)])?;
        Ok(Node {
            id,
            span,
            kind,
            fields,
        })
    }
}

/// A node `CallExpression` with a new id and without marks.
pub fn new_call_expression(
    ast: &mut AstBuilder,
    span: Span,
    optional: bool,
    callee: Expression,
    arguments: Vec<Argument>,
) -> Result<Node, AllocError>
    requires { ast.old.next < 2 ^ 32 - 1 }
    ensures made { IfOk result (λ node. node ≡ plain_call_expression (record { id = record { 0 = ast.old.next }; span = span; optional = optional; callee = callee; arguments = arguments })) }
    ensures counted { ast.new.next ≡ ast.old.next + 1 }
{
    let id = ast.new_id();
    let made = CallExpression {
        id,
        span,
        optional,
        callee,
        arguments,
    };
    made.close(ast.alloc)
}

/// A `new` (ECMA-262, 13.3.5).
#[derive(Drop)]
pub struct NewExpression {
    pub id: NodeId,
    pub span: Span,
    pub callee: Expression,
    pub arguments: Vec<Argument>,
}

impl NewExpression {
    /// Takes the node apart.
    pub fn open(node: Node) -> NewExpression
        requires { IsNewExpression node }
        ensures { plain_new_expression result ≡ node }
    {
        let Parts {
            id,
            span,
            kind,
            fields,
        } = node.into_parts();
        match kind {
            Kind::NewExpression => {}
            _other => unreachable!(),
        }
        let [callee, arguments]: [Field; 2] = exactly(fields);
        NewExpression {
            id,
            span,
            callee: callee.into_node(),
            arguments: arguments.into_nodes(),
        }
    }

    /// The node of these parts.
    pub fn close(self, alloc: Global) -> Result<Node, AllocError>
        ensures { IfOk result (λ node. node ≡ plain_new_expression self) }
    {
        let NewExpression {
            id,
            span,
            callee,
            arguments,
        } = self;
        let kind = Kind::NewExpression;
        let fields = Vec::from_array(alloc, [Field::One(callee), Field::Many(arguments)])?;
        Ok(Node {
            id,
            span,
            kind,
            fields,
        })
    }
}

/// A node `NewExpression` with a new id and without marks.
pub fn new_new_expression(
    ast: &mut AstBuilder,
    span: Span,
    callee: Expression,
    arguments: Vec<Argument>,
) -> Result<Node, AllocError>
    requires { ast.old.next < 2 ^ 32 - 1 }
    ensures made { IfOk result (λ node. node ≡ plain_new_expression (record { id = record { 0 = ast.old.next }; span = span; callee = callee; arguments = arguments })) }
    ensures counted { ast.new.next ≡ ast.old.next + 1 }
{
    let id = ast.new_id();
    let made = NewExpression {
        id,
        span,
        callee,
        arguments,
    };
    made.close(ast.alloc)
}

/// An optional chain, from its first link to its last (ECMA-262, 13.3.9).
#[derive(Drop)]
pub struct ChainExpression {
    pub id: NodeId,
    pub span: Span,
    pub expression: ChainElement,
}

impl ChainExpression {
    /// Takes the node apart.
    pub fn open(node: Node) -> ChainExpression
        requires { IsChainExpression node }
        ensures { plain_chain_expression result ≡ node }
    {
        let Parts {
            id,
            span,
            kind,
            fields,
        } = node.into_parts();
        match kind {
            Kind::ChainExpression => {}
            _other => unreachable!(),
        }
        let [expression]: [Field; 1] = exactly(fields);
        ChainExpression {
            id,
            span,
            expression: expression.into_node(),
        }
    }

    /// The node of these parts.
    pub fn close(self, alloc: Global) -> Result<Node, AllocError>
        ensures { IfOk result (λ node. node ≡ plain_chain_expression self) }
    {
        let ChainExpression {
            id,
            span,
            expression,
        } = self;
        let kind = Kind::ChainExpression;
        let fields = Vec::from_array(alloc, [Field::One(expression)])?;
        Ok(Node {
            id,
            span,
            kind,
            fields,
        })
    }
}

/// A node `ChainExpression` with a new id and without marks.
pub fn new_chain_expression(
    ast: &mut AstBuilder,
    span: Span,
    expression: ChainElement,
) -> Result<Node, AllocError>
    requires { ast.old.next < 2 ^ 32 - 1 }
    ensures made { IfOk result (λ node. node ≡ plain_chain_expression (record { id = record { 0 = ast.old.next }; span = span; expression = expression })) }
    ensures counted { ast.new.next ≡ ast.old.next + 1 }
{
    let id = ast.new_id();
    let made = ChainExpression {
        id,
        span,
        expression,
    };
    made.close(ast.alloc)
}

/// `new.target` or `import.meta` (ECMA-262, 13.3.12).
#[derive(Drop)]
pub struct MetaProperty {
    pub id: NodeId,
    pub span: Span,
    pub meta: String,
    pub property: String,
}

impl MetaProperty {
    /// Takes the node apart.
    pub fn open(node: Node) -> MetaProperty
        requires { IsMetaProperty node }
        ensures { plain_meta_property result ≡ node }
    {
        let Parts {
            id,
            span,
            kind,
            fields,
        } = node.into_parts();
        let (meta, property) = match kind {
            Kind::MetaProperty { meta, property } => (meta, property),
            _other => unreachable!(),
        };
        let []: [Field; 0] = exactly(fields);
        MetaProperty {
            id,
            span,
            meta,
            property,
        }
    }

    /// The node of these parts.
    pub fn close(self, alloc: Global) -> Result<Node, AllocError>
        ensures { IfOk result (λ node. node ≡ plain_meta_property self) }
    {
        let MetaProperty {
            id,
            span,
            meta,
            property,
        } = self;
        let kind = Kind::MetaProperty { meta, property };
        let fields = Vec::new(alloc);
        Ok(Node {
            id,
            span,
            kind,
            fields,
        })
    }
}

/// A node `MetaProperty` with a new id and without marks.
pub fn new_meta_property(
    ast: &mut AstBuilder,
    span: Span,
    meta: String,
    property: String,
) -> Result<Node, AllocError>
    requires { ast.old.next < 2 ^ 32 - 1 }
    ensures made { IfOk result (λ node. node ≡ plain_meta_property (record { id = record { 0 = ast.old.next }; span = span; meta = meta; property = property })) }
    ensures counted { ast.new.next ≡ ast.old.next + 1 }
{
    let id = ast.new_id();
    let made = MetaProperty {
        id,
        span,
        meta,
        property,
    };
    made.close(ast.alloc)
}

/// A tagged template (ECMA-262, 13.3.11).
#[derive(Drop)]
pub struct TaggedTemplateExpression {
    pub id: NodeId,
    pub span: Span,
    pub tag: Expression,
    pub quasi: Node,
}

impl TaggedTemplateExpression {
    /// Takes the node apart.
    pub fn open(node: Node) -> TaggedTemplateExpression
        requires { IsTaggedTemplateExpression node }
        ensures { plain_tagged_template_expression result ≡ node }
    {
        let Parts {
            id,
            span,
            kind,
            fields,
        } = node.into_parts();
        match kind {
            Kind::TaggedTemplateExpression => {}
            _other => unreachable!(),
        }
        let [tag, quasi]: [Field; 2] = exactly(fields);
        TaggedTemplateExpression {
            id,
            span,
            tag: tag.into_node(),
            quasi: quasi.into_node(),
        }
    }

    /// The node of these parts.
    pub fn close(self, alloc: Global) -> Result<Node, AllocError>
        ensures { IfOk result (λ node. node ≡ plain_tagged_template_expression self) }
    {
        let TaggedTemplateExpression {
            id,
            span,
            tag,
            quasi,
        } = self;
        let kind = Kind::TaggedTemplateExpression;
        let fields = Vec::from_array(alloc, [Field::One(tag), Field::One(quasi)])?;
        Ok(Node {
            id,
            span,
            kind,
            fields,
        })
    }
}

/// A node `TaggedTemplateExpression` with a new id and without marks.
pub fn new_tagged_template_expression(
    ast: &mut AstBuilder,
    span: Span,
    tag: Expression,
    quasi: Node,
) -> Result<Node, AllocError>
    requires { ast.old.next < 2 ^ 32 - 1 }
    ensures made { IfOk result (λ node. node ≡ plain_tagged_template_expression (record { id = record { 0 = ast.old.next }; span = span; tag = tag; quasi = quasi })) }
    ensures counted { ast.new.next ≡ ast.old.next + 1 }
{
    let id = ast.new_id();
    let made = TaggedTemplateExpression {
        id,
        span,
        tag,
        quasi,
    };
    made.close(ast.alloc)
}
