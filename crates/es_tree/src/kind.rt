//! What a node says by itself, beside its children.
ghost use Rattle.std.specs.Prelude.{◌≡◌};
ghost use Rattle.es_tree.specs.Heads.{head_of};

use crate::ast_type::AstType;
use crate::ids::{ReferenceId, ScopeId, SymbolId};
use crate::operators::{
    AssignmentOperator, BinaryOperator, LogicalOperator, MethodDefinitionKind, PropertyKind,
    SourceType, UnaryOperator, UpdateOperator, VariableDeclarationKind,
};

/// The kind of a node, with all that is no child of it: texts, words, truth values, and the marks
/// that the tables of scopes write into the tree.
#[derive(Drop)]
pub enum Kind {
    Program {
        source_type: SourceType,
        scope: Option<ScopeId>,
    },
    Directive {
        value: String,
    },
    ExpressionStatement,
    BlockStatement {
        scope: Option<ScopeId>,
    },
    StaticBlock {
        scope: Option<ScopeId>,
    },
    EmptyStatement,
    DebuggerStatement,
    VariableDeclaration {
        kind: VariableDeclarationKind,
    },
    VariableDeclarator,
    FunctionDeclaration {
        scope: Option<ScopeId>,
    },
    FunctionExpression {
        scope: Option<ScopeId>,
    },
    FunctionBody {
        scope: Option<ScopeId>,
    },
    ArrowFunctionExpression {
        scope: Option<ScopeId>,
    },
    ClassDeclaration {
        scope: Option<ScopeId>,
    },
    ClassExpression {
        scope: Option<ScopeId>,
    },
    MethodDefinition {
        kind: MethodDefinitionKind,
        is_static: bool,
        computed: bool,
    },
    PropertyDefinition {
        is_static: bool,
        computed: bool,
    },
    ReturnStatement,
    ThrowStatement,
    IfStatement,
    ForStatement {
        scope: Option<ScopeId>,
    },
    ForInStatement {
        scope: Option<ScopeId>,
    },
    ForOfStatement {
        scope: Option<ScopeId>,
    },
    WhileStatement,
    DoWhileStatement,
    BreakStatement,
    ContinueStatement,
    LabeledStatement,
    SwitchStatement {
        scope: Option<ScopeId>,
    },
    SwitchCase,
    TryStatement,
    CatchClause {
        scope: Option<ScopeId>,
    },
    ImportDeclaration,
    ImportSpecifier,
    ImportDefaultSpecifier,
    ImportNamespaceSpecifier,
    ImportAttribute {
        key: String,
        value: String,
    },
    ExportNamedDeclaration,
    ExportSpecifier,
    ExportDefaultDeclaration,
    ExportAllDeclaration,
    Identifier {
        name: String,
        reference: Option<ReferenceId>,
        symbol: Option<SymbolId>,
    },
    PrivateIdentifier {
        name: String,
    },
    ThisExpression,
    Super,
    NullLiteral,
    BooleanLiteral {
        value: bool,
    },
    NumericLiteral {
        raw: String,
        key: String,
    },
    BigIntLiteral {
        raw: String,
        key: String,
    },
    StringLiteral {
        value: String,
    },
    RegExpLiteral {
        pattern: String,
        flags: String,
    },
    TemplateLiteral,
    TemplateElement {
        raw: String,
        cooked: Option<String>,
    },
    TaggedTemplateExpression,
    ArrayExpression,
    SpreadElement,
    ObjectExpression,
    ObjectProperty {
        kind: PropertyKind,
        method: bool,
        shorthand: bool,
        computed: bool,
    },
    UnaryExpression {
        operator: UnaryOperator,
    },
    UpdateExpression {
        operator: UpdateOperator,
        prefix: bool,
    },
    BinaryExpression {
        operator: BinaryOperator,
    },
    LogicalExpression {
        operator: LogicalOperator,
    },
    ConditionalExpression,
    AssignmentExpression {
        operator: AssignmentOperator,
    },
    SequenceExpression,
    MemberExpression {
        computed: bool,
        optional: bool,
    },
    CallExpression {
        optional: bool,
    },
    NewExpression,
    ChainExpression,
    ParenthesizedExpression,
    MetaProperty {
        meta: String,
        property: String,
    },
    ObjectPattern,
    PatternProperty {
        shorthand: bool,
        computed: bool,
    },
    ArrayPattern,
    AssignmentPattern,
    RestElement,
    ObjectTarget,
    TargetProperty {
        shorthand: bool,
        computed: bool,
    },
    ArrayTarget,
    TargetWithDefault,
    TargetRest,
}

impl Kind {
    /// Its kind by name alone.
    pub fn ast_type(&self) -> AstType
        ensures { result ≡ (head_of self.now).kind }
    {
        match self {
            Kind::Program { .. } => AstType::Program,
            Kind::Directive { .. } => AstType::Directive,
            Kind::ExpressionStatement => AstType::ExpressionStatement,
            Kind::BlockStatement { .. } => AstType::BlockStatement,
            Kind::StaticBlock { .. } => AstType::StaticBlock,
            Kind::EmptyStatement => AstType::EmptyStatement,
            Kind::DebuggerStatement => AstType::DebuggerStatement,
            Kind::VariableDeclaration { .. } => AstType::VariableDeclaration,
            Kind::VariableDeclarator => AstType::VariableDeclarator,
            Kind::FunctionDeclaration { .. } => AstType::FunctionDeclaration,
            Kind::FunctionExpression { .. } => AstType::FunctionExpression,
            Kind::FunctionBody { .. } => AstType::FunctionBody,
            Kind::ArrowFunctionExpression { .. } => AstType::ArrowFunctionExpression,
            Kind::ClassDeclaration { .. } => AstType::ClassDeclaration,
            Kind::ClassExpression { .. } => AstType::ClassExpression,
            Kind::MethodDefinition { .. } => AstType::MethodDefinition,
            Kind::PropertyDefinition { .. } => AstType::PropertyDefinition,
            Kind::ReturnStatement => AstType::ReturnStatement,
            Kind::ThrowStatement => AstType::ThrowStatement,
            Kind::IfStatement => AstType::IfStatement,
            Kind::ForStatement { .. } => AstType::ForStatement,
            Kind::ForInStatement { .. } => AstType::ForInStatement,
            Kind::ForOfStatement { .. } => AstType::ForOfStatement,
            Kind::WhileStatement => AstType::WhileStatement,
            Kind::DoWhileStatement => AstType::DoWhileStatement,
            Kind::BreakStatement => AstType::BreakStatement,
            Kind::ContinueStatement => AstType::ContinueStatement,
            Kind::LabeledStatement => AstType::LabeledStatement,
            Kind::SwitchStatement { .. } => AstType::SwitchStatement,
            Kind::SwitchCase => AstType::SwitchCase,
            Kind::TryStatement => AstType::TryStatement,
            Kind::CatchClause { .. } => AstType::CatchClause,
            Kind::ImportDeclaration => AstType::ImportDeclaration,
            Kind::ImportSpecifier => AstType::ImportSpecifier,
            Kind::ImportDefaultSpecifier => AstType::ImportDefaultSpecifier,
            Kind::ImportNamespaceSpecifier => AstType::ImportNamespaceSpecifier,
            Kind::ImportAttribute { .. } => AstType::ImportAttribute,
            Kind::ExportNamedDeclaration => AstType::ExportNamedDeclaration,
            Kind::ExportSpecifier => AstType::ExportSpecifier,
            Kind::ExportDefaultDeclaration => AstType::ExportDefaultDeclaration,
            Kind::ExportAllDeclaration => AstType::ExportAllDeclaration,
            Kind::Identifier { .. } => AstType::Identifier,
            Kind::PrivateIdentifier { .. } => AstType::PrivateIdentifier,
            Kind::ThisExpression => AstType::ThisExpression,
            Kind::Super => AstType::Super,
            Kind::NullLiteral => AstType::NullLiteral,
            Kind::BooleanLiteral { .. } => AstType::BooleanLiteral,
            Kind::NumericLiteral { .. } => AstType::NumericLiteral,
            Kind::BigIntLiteral { .. } => AstType::BigIntLiteral,
            Kind::StringLiteral { .. } => AstType::StringLiteral,
            Kind::RegExpLiteral { .. } => AstType::RegExpLiteral,
            Kind::TemplateLiteral => AstType::TemplateLiteral,
            Kind::TemplateElement { .. } => AstType::TemplateElement,
            Kind::TaggedTemplateExpression => AstType::TaggedTemplateExpression,
            Kind::ArrayExpression => AstType::ArrayExpression,
            Kind::SpreadElement => AstType::SpreadElement,
            Kind::ObjectExpression => AstType::ObjectExpression,
            Kind::ObjectProperty { .. } => AstType::ObjectProperty,
            Kind::UnaryExpression { .. } => AstType::UnaryExpression,
            Kind::UpdateExpression { .. } => AstType::UpdateExpression,
            Kind::BinaryExpression { .. } => AstType::BinaryExpression,
            Kind::LogicalExpression { .. } => AstType::LogicalExpression,
            Kind::ConditionalExpression => AstType::ConditionalExpression,
            Kind::AssignmentExpression { .. } => AstType::AssignmentExpression,
            Kind::SequenceExpression => AstType::SequenceExpression,
            Kind::MemberExpression { .. } => AstType::MemberExpression,
            Kind::CallExpression { .. } => AstType::CallExpression,
            Kind::NewExpression => AstType::NewExpression,
            Kind::ChainExpression => AstType::ChainExpression,
            Kind::ParenthesizedExpression => AstType::ParenthesizedExpression,
            Kind::MetaProperty { .. } => AstType::MetaProperty,
            Kind::ObjectPattern => AstType::ObjectPattern,
            Kind::PatternProperty { .. } => AstType::PatternProperty,
            Kind::ArrayPattern => AstType::ArrayPattern,
            Kind::AssignmentPattern => AstType::AssignmentPattern,
            Kind::RestElement => AstType::RestElement,
            Kind::ObjectTarget => AstType::ObjectTarget,
            Kind::TargetProperty { .. } => AstType::TargetProperty,
            Kind::ArrayTarget => AstType::ArrayTarget,
            Kind::TargetWithDefault => AstType::TargetWithDefault,
            Kind::TargetRest => AstType::TargetRest,
        }
    }
}
