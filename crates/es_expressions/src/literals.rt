//! Names and literals.
ghost use Rattle.std.specs.Prelude.{IfOk, ◌≡◌, ◌+◌, ◌-◌, ◌^◌, ◌<◌, None};
ghost use Rattle.es_expressions.specs.LiteralsArity.{IsIdentifier, IsPrivateIdentifier, IsThisExpression, IsSuper, IsNullLiteral, IsBooleanLiteral, IsNumericLiteral, IsBigIntLiteral, IsStringLiteral, IsRegExpLiteral};
ghost use Rattle.es_expressions.specs.LiteralsPlain.{plain_identifier, plain_private_identifier, plain_this_expression, plain_super, plain_null_literal, plain_boolean_literal, plain_numeric_literal, plain_big_int_literal, plain_string_literal, plain_reg_exp_literal};

use es_tree::builder::AstBuilder;
use es_tree::ids::{NodeId, ReferenceId, Span, SymbolId};
use es_tree::kind::Kind;
use es_tree::node::{Field, Node, Parts, exactly};
use std::alloc::{AllocError, Global};

/// A name (ECMA-262, 13.1).
#[derive(Drop)]
pub struct Identifier {
    pub id: NodeId,
    pub span: Span,
    pub name: String,
    pub reference: Option<ReferenceId>,
    pub symbol: Option<SymbolId>,
}

impl Identifier {
    /// Takes the node apart.
    pub fn open(node: Node) -> Identifier
        requires { IsIdentifier node }
        ensures { plain_identifier result ≡ node }
    {
        let Parts {
            id,
            span,
            kind,
            fields,
        } = node.into_parts();
        let (name, reference, symbol) = match kind {
            Kind::Identifier {
                name,
                reference,
                symbol,
            } => (name, reference, symbol),
            _other => unreachable!(),
        };
        let []: [Field; 0] = exactly(fields);
        Identifier {
            id,
            span,
            name,
            reference,
            symbol,
        }
    }

    /// The node of these parts.
    pub fn close(self, alloc: Global) -> Result<Node, AllocError>
        ensures { IfOk result (λ node. node ≡ plain_identifier self) }
    {
        let Identifier {
            id,
            span,
            name,
            reference,
            symbol,
        } = self;
        let kind = Kind::Identifier {
            name,
            reference,
            symbol,
        };
        let fields = Vec::new(alloc);
        Ok(Node {
            id,
            span,
            kind,
            fields,
        })
    }
}

/// A node `Identifier` with a new id and without marks.
pub fn new_identifier(ast: &mut AstBuilder, span: Span, name: String) -> Result<Node, AllocError>
    requires { ast.old.next < 2 ^ 32 - 1 }
    ensures made { IfOk result (λ node. node ≡ plain_identifier (record { id = record { 0 = ast.old.next }; span = span; name = name; reference = None; symbol = None })) }
    ensures counted { ast.new.next ≡ ast.old.next + 1 }
{
    let id = ast.new_id();
    let made = Identifier {
        id,
        span,
        name,
        reference: None,
        symbol: None,
    };
    made.close(ast.alloc)
}

/// A private name, without its `#` (ECMA-262, 15.7).
#[derive(Drop)]
pub struct PrivateIdentifier {
    pub id: NodeId,
    pub span: Span,
    pub name: String,
}

impl PrivateIdentifier {
    /// Takes the node apart.
    pub fn open(node: Node) -> PrivateIdentifier
        requires { IsPrivateIdentifier node }
        ensures { plain_private_identifier result ≡ node }
    {
        let Parts {
            id,
            span,
            kind,
            fields,
        } = node.into_parts();
        let name = match kind {
            Kind::PrivateIdentifier { name } => name,
            _other => unreachable!(),
        };
        let []: [Field; 0] = exactly(fields);
        PrivateIdentifier { id, span, name }
    }

    /// The node of these parts.
    pub fn close(self, alloc: Global) -> Result<Node, AllocError>
        ensures { IfOk result (λ node. node ≡ plain_private_identifier self) }
    {
        let PrivateIdentifier { id, span, name } = self;
        let kind = Kind::PrivateIdentifier { name };
        let fields = Vec::new(alloc);
        Ok(Node {
            id,
            span,
            kind,
            fields,
        })
    }
}

/// A node `PrivateIdentifier` with a new id and without marks.
pub fn new_private_identifier(
    ast: &mut AstBuilder,
    span: Span,
    name: String,
) -> Result<Node, AllocError>
    requires { ast.old.next < 2 ^ 32 - 1 }
    ensures made { IfOk result (λ node. node ≡ plain_private_identifier (record { id = record { 0 = ast.old.next }; span = span; name = name })) }
    ensures counted { ast.new.next ≡ ast.old.next + 1 }
{
    let id = ast.new_id();
    let made = PrivateIdentifier { id, span, name };
    made.close(ast.alloc)
}

/// `this` (ECMA-262, 13.2.1).
#[derive(Drop)]
pub struct ThisExpression {
    pub id: NodeId,
    pub span: Span,
}

impl ThisExpression {
    /// Takes the node apart.
    pub fn open(node: Node) -> ThisExpression
        requires { IsThisExpression node }
        ensures { plain_this_expression result ≡ node }
    {
        let Parts {
            id,
            span,
            kind,
            fields,
        } = node.into_parts();
        match kind {
            Kind::ThisExpression => {}
            _other => unreachable!(),
        }
        let []: [Field; 0] = exactly(fields);
        ThisExpression { id, span }
    }

    /// The node of these parts.
    pub fn close(self, alloc: Global) -> Result<Node, AllocError>
        ensures { IfOk result (λ node. node ≡ plain_this_expression self) }
    {
        let ThisExpression { id, span } = self;
        let kind = Kind::ThisExpression;
        let fields = Vec::new(alloc);
        Ok(Node {
            id,
            span,
            kind,
            fields,
        })
    }
}

/// A node `ThisExpression` with a new id and without marks.
pub fn new_this_expression(ast: &mut AstBuilder, span: Span) -> Result<Node, AllocError>
    requires { ast.old.next < 2 ^ 32 - 1 }
    ensures made { IfOk result (λ node. node ≡ plain_this_expression (record { id = record { 0 = ast.old.next }; span = span })) }
    ensures counted { ast.new.next ≡ ast.old.next + 1 }
{
    let id = ast.new_id();
    let made = ThisExpression { id, span };
    made.close(ast.alloc)
}

/// `super` (ECMA-262, 13.3.7).
#[derive(Drop)]
pub struct Super {
    pub id: NodeId,
    pub span: Span,
}

impl Super {
    /// Takes the node apart.
    pub fn open(node: Node) -> Super
        requires { IsSuper node }
        ensures { plain_super result ≡ node }
    {
        let Parts {
            id,
            span,
            kind,
            fields,
        } = node.into_parts();
        match kind {
            Kind::Super => {}
            _other => unreachable!(),
        }
        let []: [Field; 0] = exactly(fields);
        Super { id, span }
    }

    /// The node of these parts.
    pub fn close(self, alloc: Global) -> Result<Node, AllocError>
        ensures { IfOk result (λ node. node ≡ plain_super self) }
    {
        let Super { id, span } = self;
        let kind = Kind::Super;
        let fields = Vec::new(alloc);
        Ok(Node {
            id,
            span,
            kind,
            fields,
        })
    }
}

/// A node `Super` with a new id and without marks.
pub fn new_super(ast: &mut AstBuilder, span: Span) -> Result<Node, AllocError>
    requires { ast.old.next < 2 ^ 32 - 1 }
    ensures made { IfOk result (λ node. node ≡ plain_super (record { id = record { 0 = ast.old.next }; span = span })) }
    ensures counted { ast.new.next ≡ ast.old.next + 1 }
{
    let id = ast.new_id();
    let made = Super { id, span };
    made.close(ast.alloc)
}

/// The null literal (ECMA-262, 13.2.3).
#[derive(Drop)]
pub struct NullLiteral {
    pub id: NodeId,
    pub span: Span,
}

impl NullLiteral {
    /// Takes the node apart.
    pub fn open(node: Node) -> NullLiteral
        requires { IsNullLiteral node }
        ensures { plain_null_literal result ≡ node }
    {
        let Parts {
            id,
            span,
            kind,
            fields,
        } = node.into_parts();
        match kind {
            Kind::NullLiteral => {}
            _other => unreachable!(),
        }
        let []: [Field; 0] = exactly(fields);
        NullLiteral { id, span }
    }

    /// The node of these parts.
    pub fn close(self, alloc: Global) -> Result<Node, AllocError>
        ensures { IfOk result (λ node. node ≡ plain_null_literal self) }
    {
        let NullLiteral { id, span } = self;
        let kind = Kind::NullLiteral;
        let fields = Vec::new(alloc);
        Ok(Node {
            id,
            span,
            kind,
            fields,
        })
    }
}

/// A node `NullLiteral` with a new id and without marks.
pub fn new_null_literal(ast: &mut AstBuilder, span: Span) -> Result<Node, AllocError>
    requires { ast.old.next < 2 ^ 32 - 1 }
    ensures made { IfOk result (λ node. node ≡ plain_null_literal (record { id = record { 0 = ast.old.next }; span = span })) }
    ensures counted { ast.new.next ≡ ast.old.next + 1 }
{
    let id = ast.new_id();
    let made = NullLiteral { id, span };
    made.close(ast.alloc)
}

/// A boolean literal (ECMA-262, 13.2.3).
#[derive(Drop)]
pub struct BooleanLiteral {
    pub id: NodeId,
    pub span: Span,
    pub value: bool,
}

impl BooleanLiteral {
    /// Takes the node apart.
    pub fn open(node: Node) -> BooleanLiteral
        requires { IsBooleanLiteral node }
        ensures { plain_boolean_literal result ≡ node }
    {
        let Parts {
            id,
            span,
            kind,
            fields,
        } = node.into_parts();
        let value = match kind {
            Kind::BooleanLiteral { value } => value,
            _other => unreachable!(),
        };
        let []: [Field; 0] = exactly(fields);
        BooleanLiteral { id, span, value }
    }

    /// The node of these parts.
    pub fn close(self, alloc: Global) -> Result<Node, AllocError>
        ensures { IfOk result (λ node. node ≡ plain_boolean_literal self) }
    {
        let BooleanLiteral { id, span, value } = self;
        let kind = Kind::BooleanLiteral { value };
        let fields = Vec::new(alloc);
        Ok(Node {
            id,
            span,
            kind,
            fields,
        })
    }
}

/// A node `BooleanLiteral` with a new id and without marks.
pub fn new_boolean_literal(
    ast: &mut AstBuilder,
    span: Span,
    value: bool,
) -> Result<Node, AllocError>
    requires { ast.old.next < 2 ^ 32 - 1 }
    ensures made { IfOk result (λ node. node ≡ plain_boolean_literal (record { id = record { 0 = ast.old.next }; span = span; value = value })) }
    ensures counted { ast.new.next ≡ ast.old.next + 1 }
{
    let id = ast.new_id();
    let made = BooleanLiteral { id, span, value };
    made.close(ast.alloc)
}

/// A number: its source text and the text of its value as a property key (ECMA-262, 13.2.3).
#[derive(Drop)]
pub struct NumericLiteral {
    pub id: NodeId,
    pub span: Span,
    pub raw: String,
    pub key: String,
}

impl NumericLiteral {
    /// Takes the node apart.
    pub fn open(node: Node) -> NumericLiteral
        requires { IsNumericLiteral node }
        ensures { plain_numeric_literal result ≡ node }
    {
        let Parts {
            id,
            span,
            kind,
            fields,
        } = node.into_parts();
        let (raw, key) = match kind {
            Kind::NumericLiteral { raw, key } => (raw, key),
            _other => unreachable!(),
        };
        let []: [Field; 0] = exactly(fields);
        NumericLiteral { id, span, raw, key }
    }

    /// The node of these parts.
    pub fn close(self, alloc: Global) -> Result<Node, AllocError>
        ensures { IfOk result (λ node. node ≡ plain_numeric_literal self) }
    {
        let NumericLiteral { id, span, raw, key } = self;
        let kind = Kind::NumericLiteral { raw, key };
        let fields = Vec::new(alloc);
        Ok(Node {
            id,
            span,
            kind,
            fields,
        })
    }
}

/// A node `NumericLiteral` with a new id and without marks.
pub fn new_numeric_literal(
    ast: &mut AstBuilder,
    span: Span,
    raw: String,
    key: String,
) -> Result<Node, AllocError>
    requires { ast.old.next < 2 ^ 32 - 1 }
    ensures made { IfOk result (λ node. node ≡ plain_numeric_literal (record { id = record { 0 = ast.old.next }; span = span; raw = raw; key = key })) }
    ensures counted { ast.new.next ≡ ast.old.next + 1 }
{
    let id = ast.new_id();
    let made = NumericLiteral { id, span, raw, key };
    made.close(ast.alloc)
}

/// A BigInt: its source text and its value in decimal (ECMA-262, 13.2.3).
#[derive(Drop)]
pub struct BigIntLiteral {
    pub id: NodeId,
    pub span: Span,
    pub raw: String,
    pub key: String,
}

impl BigIntLiteral {
    /// Takes the node apart.
    pub fn open(node: Node) -> BigIntLiteral
        requires { IsBigIntLiteral node }
        ensures { plain_big_int_literal result ≡ node }
    {
        let Parts {
            id,
            span,
            kind,
            fields,
        } = node.into_parts();
        let (raw, key) = match kind {
            Kind::BigIntLiteral { raw, key } => (raw, key),
            _other => unreachable!(),
        };
        let []: [Field; 0] = exactly(fields);
        BigIntLiteral { id, span, raw, key }
    }

    /// The node of these parts.
    pub fn close(self, alloc: Global) -> Result<Node, AllocError>
        ensures { IfOk result (λ node. node ≡ plain_big_int_literal self) }
    {
        let BigIntLiteral { id, span, raw, key } = self;
        let kind = Kind::BigIntLiteral { raw, key };
        let fields = Vec::new(alloc);
        Ok(Node {
            id,
            span,
            kind,
            fields,
        })
    }
}

/// A node `BigIntLiteral` with a new id and without marks.
pub fn new_big_int_literal(
    ast: &mut AstBuilder,
    span: Span,
    raw: String,
    key: String,
) -> Result<Node, AllocError>
    requires { ast.old.next < 2 ^ 32 - 1 }
    ensures made { IfOk result (λ node. node ≡ plain_big_int_literal (record { id = record { 0 = ast.old.next }; span = span; raw = raw; key = key })) }
    ensures counted { ast.new.next ≡ ast.old.next + 1 }
{
    let id = ast.new_id();
    let made = BigIntLiteral { id, span, raw, key };
    made.close(ast.alloc)
}

/// A string (ECMA-262, 13.2.3).
#[derive(Drop)]
pub struct StringLiteral {
    pub id: NodeId,
    pub span: Span,
    pub value: String,
}

impl StringLiteral {
    /// Takes the node apart.
    pub fn open(node: Node) -> StringLiteral
        requires { IsStringLiteral node }
        ensures { plain_string_literal result ≡ node }
    {
        let Parts {
            id,
            span,
            kind,
            fields,
        } = node.into_parts();
        let value = match kind {
            Kind::StringLiteral { value } => value,
            _other => unreachable!(),
        };
        let []: [Field; 0] = exactly(fields);
        StringLiteral { id, span, value }
    }

    /// The node of these parts.
    pub fn close(self, alloc: Global) -> Result<Node, AllocError>
        ensures { IfOk result (λ node. node ≡ plain_string_literal self) }
    {
        let StringLiteral { id, span, value } = self;
        let kind = Kind::StringLiteral { value };
        let fields = Vec::new(alloc);
        Ok(Node {
            id,
            span,
            kind,
            fields,
        })
    }
}

/// A node `StringLiteral` with a new id and without marks.
pub fn new_string_literal(
    ast: &mut AstBuilder,
    span: Span,
    value: String,
) -> Result<Node, AllocError>
    requires { ast.old.next < 2 ^ 32 - 1 }
    ensures made { IfOk result (λ node. node ≡ plain_string_literal (record { id = record { 0 = ast.old.next }; span = span; value = value })) }
    ensures counted { ast.new.next ≡ ast.old.next + 1 }
{
    let id = ast.new_id();
    let made = StringLiteral { id, span, value };
    made.close(ast.alloc)
}

/// A regular expression literal (ECMA-262, 13.2.7).
#[derive(Drop)]
pub struct RegExpLiteral {
    pub id: NodeId,
    pub span: Span,
    pub pattern: String,
    pub flags: String,
}

impl RegExpLiteral {
    /// Takes the node apart.
    pub fn open(node: Node) -> RegExpLiteral
        requires { IsRegExpLiteral node }
        ensures { plain_reg_exp_literal result ≡ node }
    {
        let Parts {
            id,
            span,
            kind,
            fields,
        } = node.into_parts();
        let (pattern, flags) = match kind {
            Kind::RegExpLiteral { pattern, flags } => (pattern, flags),
            _other => unreachable!(),
        };
        let []: [Field; 0] = exactly(fields);
        RegExpLiteral {
            id,
            span,
            pattern,
            flags,
        }
    }

    /// The node of these parts.
    pub fn close(self, alloc: Global) -> Result<Node, AllocError>
        ensures { IfOk result (λ node. node ≡ plain_reg_exp_literal self) }
    {
        let RegExpLiteral {
            id,
            span,
            pattern,
            flags,
        } = self;
        let kind = Kind::RegExpLiteral { pattern, flags };
        let fields = Vec::new(alloc);
        Ok(Node {
            id,
            span,
            kind,
            fields,
        })
    }
}

/// A node `RegExpLiteral` with a new id and without marks.
pub fn new_reg_exp_literal(
    ast: &mut AstBuilder,
    span: Span,
    pattern: String,
    flags: String,
) -> Result<Node, AllocError>
    requires { ast.old.next < 2 ^ 32 - 1 }
    ensures made { IfOk result (λ node. node ≡ plain_reg_exp_literal (record { id = record { 0 = ast.old.next }; span = span; pattern = pattern; flags = flags })) }
    ensures counted { ast.new.next ≡ ast.old.next + 1 }
{
    let id = ast.new_id();
    let made = RegExpLiteral {
        id,
        span,
        pattern,
        flags,
    };
    made.close(ast.alloc)
}
