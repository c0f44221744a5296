//! Words and operators that a node holds, each with its text in the tree form.
ghost use Rattle.std.specs.Prelude.{◌≡◌};
ghost use Rattle.es_tree.specs.Words.{
  source_type_text,
  variable_declaration_kind_text,
  method_definition_kind_text,
  property_kind_text,
  unary_operator_text,
  update_operator_text,
  binary_operator_text,
  logical_operator_text,
  assignment_operator_text,
  source_type_of,
  variable_declaration_kind_of,
  method_definition_kind_of,
  property_kind_of,
  unary_operator_of,
  update_operator_of,
  binary_operator_of,
  logical_operator_of,
  assignment_operator_of,
};

/// Whether a program is a script or a module (ECMA-262, 16.1 and 16.2).
#[derive(Clone, Copy, PartialEq, Eq, Debug)]
pub enum SourceType {
    Module,
    Script,
}

pub static SOURCE_TYPES: [SourceType; 2] = [SourceType::Module, SourceType::Script];

impl SourceType {
    /// Its text.
    pub fn as_str(self) -> &'static str
        ensures { result.now ≡ source_type_text self }
    {
        match self {
            SourceType::Module => "module",
            SourceType::Script => "script",
        }
    }

    /// The one with this text, if there is one.
    pub fn from_text(text: &str) -> Option<SourceType>
        ensures { result ≡ source_type_of text.now }
    {
        SOURCE_TYPES
            .iter()
            .copied()
            .find(|word| word.as_str() == text)
    }
}

/// The word of a variable declaration (ECMA-262, 14.3; `using` is of the Explicit Resource Management proposal).
#[derive(Clone, Copy, PartialEq, Eq, Debug)]
pub enum VariableDeclarationKind {
    Var,
    Let,
    Const,
    Using,
}

pub static VARIABLE_DECLARATION_KINDS: [VariableDeclarationKind; 4] = [
    VariableDeclarationKind::Var,
    VariableDeclarationKind::Let,
    VariableDeclarationKind::Const,
    VariableDeclarationKind::Using,
];

impl VariableDeclarationKind {
    /// Its text.
    pub fn as_str(self) -> &'static str
        ensures { result.now ≡ variable_declaration_kind_text self }
    {
        match self {
            VariableDeclarationKind::Var => "var",
            VariableDeclarationKind::Let => "let",
            VariableDeclarationKind::Const => "const",
            VariableDeclarationKind::Using => "using",
        }
    }

    /// The one with this text, if there is one.
    pub fn from_text(text: &str) -> Option<VariableDeclarationKind>
        ensures { result ≡ variable_declaration_kind_of text.now }
    {
        VARIABLE_DECLARATION_KINDS
            .iter()
            .copied()
            .find(|word| word.as_str() == text)
    }
}

/// What a method of a class is (ECMA-262, 15.4 and 15.7).
#[derive(Clone, Copy, PartialEq, Eq, Debug)]
pub enum MethodDefinitionKind {
    Constructor,
    Method,
    Get,
    Set,
}

pub static METHOD_DEFINITION_KINDS: [MethodDefinitionKind; 4] = [
    MethodDefinitionKind::Constructor,
    MethodDefinitionKind::Method,
    MethodDefinitionKind::Get,
    MethodDefinitionKind::Set,
];

impl MethodDefinitionKind {
    /// Its text.
    pub fn as_str(self) -> &'static str
        ensures { result.now ≡ method_definition_kind_text self }
    {
        match self {
            MethodDefinitionKind::Constructor => "constructor",
            MethodDefinitionKind::Method => "method",
            MethodDefinitionKind::Get => "get",
            MethodDefinitionKind::Set => "set",
        }
    }

    /// The one with this text, if there is one.
    pub fn from_text(text: &str) -> Option<MethodDefinitionKind>
        ensures { result ≡ method_definition_kind_of text.now }
    {
        METHOD_DEFINITION_KINDS
            .iter()
            .copied()
            .find(|word| word.as_str() == text)
    }
}

/// What a property of an object literal is (ECMA-262, 13.2.5).
#[derive(Clone, Copy, PartialEq, Eq, Debug)]
pub enum PropertyKind {
    Init,
    Get,
    Set,
}

pub static PROPERTY_KINDS: [PropertyKind; 3] = [
    PropertyKind::Init,
    PropertyKind::Get,
    PropertyKind::Set,
];

impl PropertyKind {
    /// Its text.
    pub fn as_str(self) -> &'static str
        ensures { result.now ≡ property_kind_text self }
    {
        match self {
            PropertyKind::Init => "init",
            PropertyKind::Get => "get",
            PropertyKind::Set => "set",
        }
    }

    /// The one with this text, if there is one.
    pub fn from_text(text: &str) -> Option<PropertyKind>
        ensures { result ≡ property_kind_of text.now }
    {
        PROPERTY_KINDS
            .iter()
            .copied()
            .find(|word| word.as_str() == text)
    }
}

/// A unary operator (ECMA-262, 13.5).
#[derive(Clone, Copy, PartialEq, Eq, Debug)]
pub enum UnaryOperator {
    UnaryNegation,
    UnaryPlus,
    LogicalNot,
    BitwiseNot,
    Typeof,
    Void,
    Delete,
}

pub static UNARY_OPERATORS: [UnaryOperator; 7] = [
    UnaryOperator::UnaryNegation,
    UnaryOperator::UnaryPlus,
    UnaryOperator::LogicalNot,
    UnaryOperator::BitwiseNot,
    UnaryOperator::Typeof,
    UnaryOperator::Void,
    UnaryOperator::Delete,
];

impl UnaryOperator {
    /// Its text.
    pub fn as_str(self) -> &'static str
        ensures { result.now ≡ unary_operator_text self }
    {
        match self {
            UnaryOperator::UnaryNegation => "-",
            UnaryOperator::UnaryPlus => "+",
            UnaryOperator::LogicalNot => "!",
            UnaryOperator::BitwiseNot => "~",
            UnaryOperator::Typeof => "typeof",
            UnaryOperator::Void => "void",
            UnaryOperator::Delete => "delete",
        }
    }

    /// The one with this text, if there is one.
    pub fn from_text(text: &str) -> Option<UnaryOperator>
        ensures { result ≡ unary_operator_of text.now }
    {
        UNARY_OPERATORS
            .iter()
            .copied()
            .find(|word| word.as_str() == text)
    }
}

/// An update operator (ECMA-262, 13.4).
#[derive(Clone, Copy, PartialEq, Eq, Debug)]
pub enum UpdateOperator {
    Increment,
    Decrement,
}

pub static UPDATE_OPERATORS: [UpdateOperator; 2] = [
    UpdateOperator::Increment,
    UpdateOperator::Decrement,
];

impl UpdateOperator {
    /// Its text.
    pub fn as_str(self) -> &'static str
        ensures { result.now ≡ update_operator_text self }
    {
        match self {
            UpdateOperator::Increment => "++",
            UpdateOperator::Decrement => "--",
        }
    }

    /// The one with this text, if there is one.
    pub fn from_text(text: &str) -> Option<UpdateOperator>
        ensures { result ≡ update_operator_of text.now }
    {
        UPDATE_OPERATORS
            .iter()
            .copied()
            .find(|word| word.as_str() == text)
    }
}

/// A binary operator that evaluates both sides (ECMA-262, 13.6 to 13.12).
#[derive(Clone, Copy, PartialEq, Eq, Debug)]
pub enum BinaryOperator {
    Equality,
    Inequality,
    StrictEquality,
    StrictInequality,
    LessThan,
    LessEqualThan,
    GreaterThan,
    GreaterEqualThan,
    ShiftLeft,
    ShiftRight,
    ShiftRightZeroFill,
    Addition,
    Subtraction,
    Multiplication,
    Division,
    Remainder,
    Exponential,
    BitwiseOr,
    BitwiseXor,
    BitwiseAnd,
    In,
    Instanceof,
}

pub static BINARY_OPERATORS: [BinaryOperator; 22] = [
    BinaryOperator::Equality,
    BinaryOperator::Inequality,
    BinaryOperator::StrictEquality,
    BinaryOperator::StrictInequality,
    BinaryOperator::LessThan,
    BinaryOperator::LessEqualThan,
    BinaryOperator::GreaterThan,
    BinaryOperator::GreaterEqualThan,
    BinaryOperator::ShiftLeft,
    BinaryOperator::ShiftRight,
    BinaryOperator::ShiftRightZeroFill,
    BinaryOperator::Addition,
    BinaryOperator::Subtraction,
    BinaryOperator::Multiplication,
    BinaryOperator::Division,
    BinaryOperator::Remainder,
    BinaryOperator::Exponential,
    BinaryOperator::BitwiseOr,
    BinaryOperator::BitwiseXor,
    BinaryOperator::BitwiseAnd,
    BinaryOperator::In,
    BinaryOperator::Instanceof,
];

impl BinaryOperator {
    /// Its text.
    pub fn as_str(self) -> &'static str
        ensures { result.now ≡ binary_operator_text self }
    {
        match self {
            BinaryOperator::Equality => "==",
            BinaryOperator::Inequality => "!=",
            BinaryOperator::StrictEquality => "===",
            BinaryOperator::StrictInequality => "!==",
            BinaryOperator::LessThan => "<",
            BinaryOperator::LessEqualThan => "<=",
            BinaryOperator::GreaterThan => ">",
            BinaryOperator::GreaterEqualThan => ">=",
            BinaryOperator::ShiftLeft => "<<",
            BinaryOperator::ShiftRight => ">>",
            BinaryOperator::ShiftRightZeroFill => ">>>",
            BinaryOperator::Addition => "+",
            BinaryOperator::Subtraction => "-",
            BinaryOperator::Multiplication => "*",
            BinaryOperator::Division => "/",
            BinaryOperator::Remainder => "%",
            BinaryOperator::Exponential => "**",
            BinaryOperator::BitwiseOr => "|",
            BinaryOperator::BitwiseXor => "^",
            BinaryOperator::BitwiseAnd => "&",
            BinaryOperator::In => "in",
            BinaryOperator::Instanceof => "instanceof",
        }
    }

    /// The one with this text, if there is one.
    pub fn from_text(text: &str) -> Option<BinaryOperator>
        ensures { result ≡ binary_operator_of text.now }
    {
        BINARY_OPERATORS
            .iter()
            .copied()
            .find(|word| word.as_str() == text)
    }
}

/// A binary operator that may leave out its right side (ECMA-262, 13.13).
#[derive(Clone, Copy, PartialEq, Eq, Debug)]
pub enum LogicalOperator {
    Or,
    And,
    Coalesce,
}

pub static LOGICAL_OPERATORS: [LogicalOperator; 3] = [
    LogicalOperator::Or,
    LogicalOperator::And,
    LogicalOperator::Coalesce,
];

impl LogicalOperator {
    /// Its text.
    pub fn as_str(self) -> &'static str
        ensures { result.now ≡ logical_operator_text self }
    {
        match self {
            LogicalOperator::Or => "||",
            LogicalOperator::And => "&&",
            LogicalOperator::Coalesce => "??",
        }
    }

    /// The one with this text, if there is one.
    pub fn from_text(text: &str) -> Option<LogicalOperator>
        ensures { result ≡ logical_operator_of text.now }
    {
        LOGICAL_OPERATORS
            .iter()
            .copied()
            .find(|word| word.as_str() == text)
    }
}

/// An assignment operator (ECMA-262, 13.15).
#[derive(Clone, Copy, PartialEq, Eq, Debug)]
pub enum AssignmentOperator {
    Assign,
    Addition,
    Subtraction,
    Multiplication,
    Division,
    Remainder,
    Exponential,
    ShiftLeft,
    ShiftRight,
    ShiftRightZeroFill,
    BitwiseOr,
    BitwiseXor,
    BitwiseAnd,
    LogicalOr,
    LogicalAnd,
    LogicalNullish,
}

pub static ASSIGNMENT_OPERATORS: [AssignmentOperator; 16] = [
    AssignmentOperator::Assign,
    AssignmentOperator::Addition,
    AssignmentOperator::Subtraction,
    AssignmentOperator::Multiplication,
    AssignmentOperator::Division,
    AssignmentOperator::Remainder,
    AssignmentOperator::Exponential,
    AssignmentOperator::ShiftLeft,
    AssignmentOperator::ShiftRight,
    AssignmentOperator::ShiftRightZeroFill,
    AssignmentOperator::BitwiseOr,
    AssignmentOperator::BitwiseXor,
    AssignmentOperator::BitwiseAnd,
    AssignmentOperator::LogicalOr,
    AssignmentOperator::LogicalAnd,
    AssignmentOperator::LogicalNullish,
];

impl AssignmentOperator {
    /// Its text.
    pub fn as_str(self) -> &'static str
        ensures { result.now ≡ assignment_operator_text self }
    {
        match self {
            AssignmentOperator::Assign => "=",
            AssignmentOperator::Addition => "+=",
            AssignmentOperator::Subtraction => "-=",
            AssignmentOperator::Multiplication => "*=",
            AssignmentOperator::Division => "/=",
            AssignmentOperator::Remainder => "%=",
            AssignmentOperator::Exponential => "**=",
            AssignmentOperator::ShiftLeft => "<<=",
            AssignmentOperator::ShiftRight => ">>=",
            AssignmentOperator::ShiftRightZeroFill => ">>>=",
            AssignmentOperator::BitwiseOr => "|=",
            AssignmentOperator::BitwiseXor => "^=",
            AssignmentOperator::BitwiseAnd => "&=",
            AssignmentOperator::LogicalOr => "||=",
            AssignmentOperator::LogicalAnd => "&&=",
            AssignmentOperator::LogicalNullish => "??=",
        }
    }

    /// The one with this text, if there is one.
    pub fn from_text(text: &str) -> Option<AssignmentOperator>
        ensures { result ≡ assignment_operator_of text.now }
    {
        ASSIGNMENT_OPERATORS
            .iter()
            .copied()
            .find(|word| word.as_str() == text)
    }
}
