//! The hooks of a visit, and which of them a node gets.
ghost use Rattle.std.specs.Prelude.{◌≡◌};
ghost use Rattle.es_visit.specs.Hooks.{hook_of_kind, sort_of};

use es_tree::ast_type::AstType;

/// The hook pairs of `Traverse`.
#[derive(Clone, Copy, PartialEq, Eq, Debug)]
pub enum Hook {
    Program,
    Statements,
    Statement,
    Expression,
    Function,
    FunctionBody,
    FormalParameters,
    ArrowFunctionExpression,
    ArrowFunctionBody,
    StaticBlock,
    VariableDeclaration,
    CatchClause,
    TryStatement,
    ForInStatement,
    ForOfStatement,
    BigIntLiteral,
    ImportSpecifier,
    ExportSpecifier,
    ExportAllDeclaration,
}

/// Whether nodes of a kind are expressions or statements: at every place where the table of fields lets
/// them stand, at some of them, or at none.
#[derive(Clone, Copy, PartialEq, Eq, Debug)]
pub enum Sort {
    AlwaysExpression,
    MaybeExpression,
    AlwaysStatement,
    MaybeStatement,
    Neither,
}

/// The sort of the nodes of a kind (ECMA-262, 13 to 16).
pub fn sort_of(kind: AstType) -> Sort
    ensures { result ≡ sort_of kind }
{
    match kind {
        AstType::ThisExpression
        | AstType::Super
        | AstType::NullLiteral
        | AstType::BooleanLiteral
        | AstType::RegExpLiteral
        | AstType::TaggedTemplateExpression
        | AstType::ArrayExpression
        | AstType::ObjectExpression
        | AstType::UnaryExpression
        | AstType::UpdateExpression
        | AstType::BinaryExpression
        | AstType::LogicalExpression
        | AstType::ConditionalExpression
        | AstType::AssignmentExpression
        | AstType::SequenceExpression
        | AstType::NewExpression
        | AstType::ChainExpression
        | AstType::ParenthesizedExpression
        | AstType::MetaProperty
        | AstType::ClassExpression
        | AstType::ArrowFunctionExpression => Sort::AlwaysExpression,
        AstType::Identifier
        | AstType::NumericLiteral
        | AstType::BigIntLiteral
        | AstType::StringLiteral
        | AstType::TemplateLiteral
        | AstType::MemberExpression
        | AstType::CallExpression
        | AstType::FunctionExpression => Sort::MaybeExpression,
        AstType::ExpressionStatement
        | AstType::EmptyStatement
        | AstType::DebuggerStatement
        | AstType::ReturnStatement
        | AstType::ThrowStatement
        | AstType::IfStatement
        | AstType::ForStatement
        | AstType::ForInStatement
        | AstType::ForOfStatement
        | AstType::WhileStatement
        | AstType::DoWhileStatement
        | AstType::BreakStatement
        | AstType::ContinueStatement
        | AstType::LabeledStatement
        | AstType::SwitchStatement
        | AstType::TryStatement
        | AstType::ImportDeclaration
        | AstType::ExportNamedDeclaration
        | AstType::ExportDefaultDeclaration
        | AstType::ExportAllDeclaration => Sort::AlwaysStatement,
        AstType::BlockStatement
        | AstType::VariableDeclaration
        | AstType::FunctionDeclaration
        | AstType::ClassDeclaration => Sort::MaybeStatement,
        _ => Sort::Neither,
    }
}

/// The hook that a node gets by its own kind, after that of its sort.
pub fn hook_of_kind(kind: AstType) -> Option<Hook>
    ensures { result ≡ hook_of_kind kind }
{
    match kind {
        AstType::FunctionDeclaration | AstType::FunctionExpression => Some(Hook::Function),
        AstType::FunctionBody => Some(Hook::FunctionBody),
        AstType::ArrowFunctionExpression => Some(Hook::ArrowFunctionExpression),
        AstType::StaticBlock => Some(Hook::StaticBlock),
        AstType::VariableDeclaration => Some(Hook::VariableDeclaration),
        AstType::CatchClause => Some(Hook::CatchClause),
        AstType::TryStatement => Some(Hook::TryStatement),
        AstType::ForInStatement => Some(Hook::ForInStatement),
        AstType::ForOfStatement => Some(Hook::ForOfStatement),
        AstType::BigIntLiteral => Some(Hook::BigIntLiteral),
        AstType::ImportSpecifier => Some(Hook::ImportSpecifier),
        AstType::ExportSpecifier => Some(Hook::ExportSpecifier),
        AstType::ExportAllDeclaration => Some(Hook::ExportAllDeclaration),
        _ => None,
    }
}
