//! Templates and the parts of their text.
ghost use Rattle.std.specs.Prelude.{IfOk, ◌≡◌, ◌+◌, ◌-◌, ◌^◌, ◌<◌, None};
ghost use Rattle.es_expressions.specs.TemplatesArity.{IsTemplateLiteral, IsTemplateElement};
ghost use Rattle.es_expressions.specs.TemplatesPlain.{plain_template_literal, plain_template_element};

use es_tree::builder::AstBuilder;
use es_tree::ids::{NodeId, Span};
use es_tree::kind::Kind;
use es_tree::node::{Field, Node, Parts, exactly};
use es_tree::sorts::Expression;
use std::alloc::{AllocError, Global};

/// A template literal (ECMA-262, 13.2.8).
#[derive(Drop)]
pub struct TemplateLiteral {
    pub id: NodeId,
    pub span: Span,
    pub quasis: Vec<Node>,
    pub expressions: Vec<Expression>,
}

impl TemplateLiteral {
    /// Takes the node apart.
    pub fn open(node: Node) -> TemplateLiteral
        requires { IsTemplateLiteral node }
        ensures { plain_template_literal result ≡ node }
    {
        let Parts {
            id,
            span,
            kind,
            fields,
        } = node.into_parts();
        match kind {
            Kind::TemplateLiteral => {}
            _other => unreachable!(),
        }
        let [quasis, expressions]: [Field; 2] = exactly(fields);
        TemplateLiteral {
            id,
            span,
            quasis: quasis.into_nodes(),
            expressions: expressions.into_nodes(),
        }
    }

    /// The node of these parts.
    pub fn close(self, alloc: Global) -> Result<Node, AllocError>
        ensures { IfOk result (λ node. node ≡ plain_template_literal self) }
    {
        let TemplateLiteral {
            id,
            span,
            quasis,
            expressions,
        } = self;
        let kind = Kind::TemplateLiteral;
        let fields = Vec::from_array(alloc, [Field::Many(quasis), Field::Many(expressions)])?;
        Ok(Node {
            id,
            span,
            kind,
            fields,
        })
    }
}

/// A node `TemplateLiteral` with a new id and without marks.
pub fn new_template_literal(
    ast: &mut AstBuilder,
    span: Span,
    quasis: Vec<Node>,
    expressions: Vec<Expression>,
) -> Result<Node, AllocError>
    requires { ast.old.next < 2 ^ 32 - 1 }
    ensures made { IfOk result (λ node. node ≡ plain_template_literal (record { id = record { 0 = ast.old.next }; span = span; quasis = quasis; expressions = expressions })) }
    ensures counted { ast.new.next ≡ ast.old.next + 1 }
{
    let id = ast.new_id();
    let made = TemplateLiteral {
        id,
        span,
        quasis,
        expressions,
    };
    made.close(ast.alloc)
}

/// A part of the text of a template: raw, and cooked where it has a value (ECMA-262, 13.2.8).
#[derive(Drop)]
pub struct TemplateElement {
    pub id: NodeId,
    pub span: Span,
    pub raw: String,
    pub cooked: Option<String>,
}

impl TemplateElement {
    /// Takes the node apart.
    pub fn open(node: Node) -> TemplateElement
        requires { IsTemplateElement node }
        ensures { plain_template_element result ≡ node }
    {
        let Parts {
            id,
            span,
            kind,
            fields,
        } = node.into_parts();
        let (raw, cooked) = match kind {
            Kind::TemplateElement { raw, cooked } => (raw, cooked),
            _other => unreachable!(),
        };
        let []: [Field; 0] = exactly(fields);
        TemplateElement {
            id,
            span,
            raw,
            cooked,
        }
    }

    /// The node of these parts.
    pub fn close(self, alloc: Global) -> Result<Node, AllocError>
        ensures { IfOk result (λ node. node ≡ plain_template_element self) }
    {
        let TemplateElement {
            id,
            span,
            raw,
            cooked,
        } = self;
        let kind = Kind::TemplateElement { raw, cooked };
        let fields = Vec::new(alloc);
        Ok(Node {
            id,
            span,
            kind,
            fields,
        })
    }
}

/// A node `TemplateElement` with a new id and without marks.
pub fn new_template_element(
    ast: &mut AstBuilder,
    span: Span,
    raw: String,
    cooked: Option<String>,
) -> Result<Node, AllocError>
    requires { ast.old.next < 2 ^ 32 - 1 }
    ensures made { IfOk result (λ node. node ≡ plain_template_element (record { id = record { 0 = ast.old.next }; span = span; raw = raw; cooked = cooked })) }
    ensures counted { ast.new.next ≡ ast.old.next + 1 }
{
    let id = ast.new_id();
    let made = TemplateElement {
        id,
        span,
        raw,
        cooked,
    };
    made.close(ast.alloc)
}
