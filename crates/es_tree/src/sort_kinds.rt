//! The kinds of each sort. A sort that takes expressions has those of `EXPRESSION_KINDS` behind its own.
use crate::ast_type::AstType;

/// The kinds of expressions, the frequent ones first.
pub static EXPRESSION_KINDS: [AstType; 29] = [
    AstType::Identifier,
    AstType::MemberExpression,
    AstType::CallExpression,
    AstType::StringLiteral,
    AstType::NumericLiteral,
    AstType::ThisExpression,
    AstType::BinaryExpression,
    AstType::AssignmentExpression,
    AstType::LogicalExpression,
    AstType::ConditionalExpression,
    AstType::UnaryExpression,
    AstType::ObjectExpression,
    AstType::ArrayExpression,
    AstType::FunctionExpression,
    AstType::ArrowFunctionExpression,
    AstType::ParenthesizedExpression,
    AstType::ChainExpression,
    AstType::TemplateLiteral,
    AstType::NullLiteral,
    AstType::BooleanLiteral,
    AstType::NewExpression,
    AstType::UpdateExpression,
    AstType::SequenceExpression,
    AstType::RegExpLiteral,
    AstType::BigIntLiteral,
    AstType::ClassExpression,
    AstType::TaggedTemplateExpression,
    AstType::Super,
    AstType::MetaProperty,
];

pub static PROGRAM_KINDS: [AstType; 1] = [AstType::Program];

pub static DIRECTIVE_KINDS: [AstType; 1] = [AstType::Directive];

pub static STATEMENT_KINDS: [AstType; 24] = [
    AstType::ExpressionStatement,
    AstType::VariableDeclaration,
    AstType::IfStatement,
    AstType::ReturnStatement,
    AstType::BlockStatement,
    AstType::FunctionDeclaration,
    AstType::ForStatement,
    AstType::TryStatement,
    AstType::ThrowStatement,
    AstType::ClassDeclaration,
    AstType::BreakStatement,
    AstType::SwitchStatement,
    AstType::ForOfStatement,
    AstType::WhileStatement,
    AstType::ForInStatement,
    AstType::ContinueStatement,
    AstType::ImportDeclaration,
    AstType::ExportNamedDeclaration,
    AstType::ExportDefaultDeclaration,
    AstType::ExportAllDeclaration,
    AstType::LabeledStatement,
    AstType::DoWhileStatement,
    AstType::EmptyStatement,
    AstType::DebuggerStatement,
];

pub static NO_KINDS: [AstType; 0] = [];

pub static VARIABLE_DECLARATOR_KINDS: [AstType; 1] = [AstType::VariableDeclarator];

pub static BINDING_KINDS: [AstType; 3] = [
    AstType::Identifier,
    AstType::ObjectPattern,
    AstType::ArrayPattern,
];

pub static PATTERN_KINDS: [AstType; 4] = [
    AstType::Identifier,
    AstType::ObjectPattern,
    AstType::ArrayPattern,
    AstType::AssignmentPattern,
];

pub static PATTERN_REST_KINDS: [AstType; 5] = [
    AstType::Identifier,
    AstType::ObjectPattern,
    AstType::ArrayPattern,
    AstType::AssignmentPattern,
    AstType::RestElement,
];

pub static PATTERN_MEMBER_KINDS: [AstType; 1] = [AstType::PatternProperty];

pub static PATTERN_MEMBER_REST_KINDS: [AstType; 2] = [
    AstType::PatternProperty,
    AstType::RestElement,
];

pub static ASSIGNMENT_TARGET_KINDS: [AstType; 2] = [AstType::ObjectTarget, AstType::ArrayTarget];

pub static TARGET_ELEMENT_KINDS: [AstType; 3] = [
    AstType::ObjectTarget,
    AstType::ArrayTarget,
    AstType::TargetWithDefault,
];

pub static TARGET_ELEMENT_REST_KINDS: [AstType; 4] = [
    AstType::ObjectTarget,
    AstType::ArrayTarget,
    AstType::TargetWithDefault,
    AstType::TargetRest,
];

pub static TARGET_MEMBER_KINDS: [AstType; 1] = [AstType::TargetProperty];

pub static TARGET_MEMBER_REST_KINDS: [AstType; 2] = [AstType::TargetProperty, AstType::TargetRest];

pub static IDENTIFIER_KINDS: [AstType; 1] = [AstType::Identifier];

pub static FUNCTION_BODY_KINDS: [AstType; 1] = [AstType::FunctionBody];

pub static FUNCTION_EXPRESSION_KINDS: [AstType; 1] = [AstType::FunctionExpression];

pub static CLASS_ELEMENT_KINDS: [AstType; 3] = [
    AstType::MethodDefinition,
    AstType::PropertyDefinition,
    AstType::StaticBlock,
];

pub static PROPERTY_KEY_KINDS: [AstType; 5] = [
    AstType::Identifier,
    AstType::StringLiteral,
    AstType::NumericLiteral,
    AstType::BigIntLiteral,
    AstType::PrivateIdentifier,
];

pub static MEMBER_PROPERTY_KINDS: [AstType; 2] = [AstType::Identifier, AstType::PrivateIdentifier];

pub static FOR_INIT_KINDS: [AstType; 1] = [AstType::VariableDeclaration];

pub static FOR_LEFT_KINDS: [AstType; 3] = [
    AstType::VariableDeclaration,
    AstType::ObjectTarget,
    AstType::ArrayTarget,
];

pub static SWITCH_CASE_KINDS: [AstType; 1] = [AstType::SwitchCase];

pub static BLOCK_STATEMENT_KINDS: [AstType; 1] = [AstType::BlockStatement];

pub static CATCH_CLAUSE_KINDS: [AstType; 1] = [AstType::CatchClause];

pub static IMPORT_ITEM_KINDS: [AstType; 3] = [
    AstType::ImportSpecifier,
    AstType::ImportDefaultSpecifier,
    AstType::ImportNamespaceSpecifier,
];

pub static IMPORT_ATTRIBUTE_KINDS: [AstType; 1] = [AstType::ImportAttribute];

pub static STRING_LITERAL_KINDS: [AstType; 1] = [AstType::StringLiteral];

pub static MODULE_EXPORT_NAME_KINDS: [AstType; 2] = [AstType::Identifier, AstType::StringLiteral];

pub static DECLARATION_KINDS: [AstType; 3] = [
    AstType::VariableDeclaration,
    AstType::FunctionDeclaration,
    AstType::ClassDeclaration,
];

pub static EXPORT_SPECIFIER_KINDS: [AstType; 1] = [AstType::ExportSpecifier];

pub static EXPORT_DEFAULT_KINDS: [AstType; 2] = [
    AstType::FunctionDeclaration,
    AstType::ClassDeclaration,
];

pub static TEMPLATE_ELEMENT_KINDS: [AstType; 1] = [AstType::TemplateElement];

pub static TEMPLATE_LITERAL_KINDS: [AstType; 1] = [AstType::TemplateLiteral];

pub static ARGUMENT_KINDS: [AstType; 1] = [AstType::SpreadElement];

pub static OBJECT_MEMBER_KINDS: [AstType; 2] = [AstType::ObjectProperty, AstType::SpreadElement];

pub static BINARY_LEFT_KINDS: [AstType; 1] = [AstType::PrivateIdentifier];

pub static CHAIN_ELEMENT_KINDS: [AstType; 2] = [AstType::MemberExpression, AstType::CallExpression];
