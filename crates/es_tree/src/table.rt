//! The table of fields: which fields a node of each kind has, in reading order, and what stands there.
//! Its lines are the constants of `statement_fields`, `expression_fields` and `sort_kinds`; the definitions
//! in `specs/` read these same constants.
ghost use Rattle.std.specs.Prelude.{◌≡◌, find};
ghost use Rattle.es_tree.specs.Table.{is_named, entries, own_kinds, takes_expressions, kind_named, field_text, allows_text, rest_sort};

use crate::ast_type::AstType;
use crate::expression_fields::ARRAY_EXPRESSION;
use crate::expression_fields::ARRAY_PATTERN;
use crate::expression_fields::ARRAY_TARGET;
use crate::expression_fields::ASSIGNMENT_EXPRESSION;
use crate::expression_fields::ASSIGNMENT_PATTERN;
use crate::expression_fields::BINARY_EXPRESSION;
use crate::expression_fields::BOOLEAN_LITERAL;
use crate::expression_fields::CALL_EXPRESSION;
use crate::expression_fields::CHAIN_EXPRESSION;
use crate::expression_fields::CONDITIONAL_EXPRESSION;
use crate::expression_fields::IDENTIFIER;
use crate::expression_fields::LOGICAL_EXPRESSION;
use crate::expression_fields::MEMBER_EXPRESSION;
use crate::expression_fields::META_PROPERTY;
use crate::expression_fields::NEW_EXPRESSION;
use crate::expression_fields::NUMERIC_LITERAL;
use crate::expression_fields::OBJECT_EXPRESSION;
use crate::expression_fields::OBJECT_PATTERN;
use crate::expression_fields::OBJECT_PROPERTY;
use crate::expression_fields::OBJECT_TARGET;
use crate::expression_fields::PATTERN_PROPERTY;
use crate::expression_fields::REG_EXP_LITERAL;
use crate::expression_fields::REST_ELEMENT;
use crate::expression_fields::SEQUENCE_EXPRESSION;
use crate::expression_fields::TAGGED_TEMPLATE_EXPRESSION;
use crate::expression_fields::TARGET_PROPERTY;
use crate::expression_fields::TARGET_REST;
use crate::expression_fields::TARGET_WITH_DEFAULT;
use crate::expression_fields::TEMPLATE_ELEMENT;
use crate::expression_fields::TEMPLATE_LITERAL;
use crate::expression_fields::UNARY_EXPRESSION;
use crate::expression_fields::UPDATE_EXPRESSION;
use crate::operators::AssignmentOperator;
use crate::operators::BinaryOperator;
use crate::operators::LogicalOperator;
use crate::operators::MethodDefinitionKind;
use crate::operators::PropertyKind;
use crate::operators::SourceType;
use crate::operators::UnaryOperator;
use crate::operators::UpdateOperator;
use crate::operators::VariableDeclarationKind;
use crate::sort_kinds::ARGUMENT_KINDS;
use crate::sort_kinds::ASSIGNMENT_TARGET_KINDS;
use crate::sort_kinds::BINARY_LEFT_KINDS;
use crate::sort_kinds::BINDING_KINDS;
use crate::sort_kinds::BLOCK_STATEMENT_KINDS;
use crate::sort_kinds::CATCH_CLAUSE_KINDS;
use crate::sort_kinds::CHAIN_ELEMENT_KINDS;
use crate::sort_kinds::CLASS_ELEMENT_KINDS;
use crate::sort_kinds::DECLARATION_KINDS;
use crate::sort_kinds::DIRECTIVE_KINDS;
use crate::sort_kinds::EXPORT_DEFAULT_KINDS;
use crate::sort_kinds::EXPORT_SPECIFIER_KINDS;
use crate::sort_kinds::EXPRESSION_KINDS;
use crate::sort_kinds::FOR_INIT_KINDS;
use crate::sort_kinds::FOR_LEFT_KINDS;
use crate::sort_kinds::FUNCTION_BODY_KINDS;
use crate::sort_kinds::FUNCTION_EXPRESSION_KINDS;
use crate::sort_kinds::IDENTIFIER_KINDS;
use crate::sort_kinds::IMPORT_ATTRIBUTE_KINDS;
use crate::sort_kinds::IMPORT_ITEM_KINDS;
use crate::sort_kinds::MEMBER_PROPERTY_KINDS;
use crate::sort_kinds::MODULE_EXPORT_NAME_KINDS;
use crate::sort_kinds::NO_KINDS;
use crate::sort_kinds::OBJECT_MEMBER_KINDS;
use crate::sort_kinds::PATTERN_KINDS;
use crate::sort_kinds::PATTERN_MEMBER_KINDS;
use crate::sort_kinds::PATTERN_MEMBER_REST_KINDS;
use crate::sort_kinds::PATTERN_REST_KINDS;
use crate::sort_kinds::PROGRAM_KINDS;
use crate::sort_kinds::PROPERTY_KEY_KINDS;
use crate::sort_kinds::STATEMENT_KINDS;
use crate::sort_kinds::STRING_LITERAL_KINDS;
use crate::sort_kinds::SWITCH_CASE_KINDS;
use crate::sort_kinds::TARGET_ELEMENT_KINDS;
use crate::sort_kinds::TARGET_ELEMENT_REST_KINDS;
use crate::sort_kinds::TARGET_MEMBER_KINDS;
use crate::sort_kinds::TARGET_MEMBER_REST_KINDS;
use crate::sort_kinds::TEMPLATE_ELEMENT_KINDS;
use crate::sort_kinds::TEMPLATE_LITERAL_KINDS;
use crate::sort_kinds::VARIABLE_DECLARATOR_KINDS;
use crate::statement_fields::ARROW_FUNCTION_EXPRESSION;
use crate::statement_fields::BLOCK_STATEMENT;
use crate::statement_fields::BREAK_STATEMENT;
use crate::statement_fields::CATCH_CLAUSE;
use crate::statement_fields::CLASS_DECLARATION;
use crate::statement_fields::DIRECTIVE;
use crate::statement_fields::DO_WHILE_STATEMENT;
use crate::statement_fields::EXPORT_ALL_DECLARATION;
use crate::statement_fields::EXPORT_DEFAULT_DECLARATION;
use crate::statement_fields::EXPORT_NAMED_DECLARATION;
use crate::statement_fields::EXPORT_SPECIFIER;
use crate::statement_fields::EXPRESSION_STATEMENT;
use crate::statement_fields::FOR_IN_STATEMENT;
use crate::statement_fields::FOR_STATEMENT;
use crate::statement_fields::FUNCTION_BODY;
use crate::statement_fields::FUNCTION_DECLARATION;
use crate::statement_fields::IF_STATEMENT;
use crate::statement_fields::IMPORT_ATTRIBUTE;
use crate::statement_fields::IMPORT_DECLARATION;
use crate::statement_fields::IMPORT_DEFAULT_SPECIFIER;
use crate::statement_fields::IMPORT_SPECIFIER;
use crate::statement_fields::LABELED_STATEMENT;
use crate::statement_fields::METHOD_DEFINITION;
use crate::statement_fields::NO_ENTRIES;
use crate::statement_fields::PROGRAM;
use crate::statement_fields::PROPERTY_DEFINITION;
use crate::statement_fields::RETURN_STATEMENT;
use crate::statement_fields::SWITCH_CASE;
use crate::statement_fields::SWITCH_STATEMENT;
use crate::statement_fields::THROW_STATEMENT;
use crate::statement_fields::TRY_STATEMENT;
use crate::statement_fields::VARIABLE_DECLARATION;
use crate::statement_fields::VARIABLE_DECLARATOR;
use crate::statement_fields::WHILE_STATEMENT;

/// The name of a field in the tree form.
#[derive(Clone, Copy, PartialEq, Eq, Debug)]
pub enum FieldName {
    Type,
    Start,
    End,
    SourceType,
    Directives,
    Body,
    Value,
    Expression,
    Kind,
    Declarations,
    Id,
    Init,
    Async,
    Generator,
    Params,
    SuperClass,
    Static,
    Computed,
    Key,
    Argument,
    Test,
    Consequent,
    Alternate,
    Await,
    Update,
    Left,
    Right,
    Label,
    Discriminant,
    Cases,
    Block,
    Handler,
    Finalizer,
    Param,
    Specifiers,
    Source,
    Attributes,
    Imported,
    Local,
    Declaration,
    Exported,
    Name,
    Raw,
    Pattern,
    Flags,
    Quasis,
    Expressions,
    Cooked,
    Tag,
    Quasi,
    Elements,
    Properties,
    Method,
    Shorthand,
    Operator,
    Prefix,
    Object,
    Property,
    Optional,
    Callee,
    Arguments,
    Meta,
}

impl FieldName {
    /// The field's key in the tree form.
    pub fn as_str(self) -> &'static str
        ensures { result.now ≡ field_text self }
    {
        match self {
            FieldName::Type => "type",
            FieldName::Start => "start",
            FieldName::End => "end",
            FieldName::SourceType => "sourceType",
            FieldName::Directives => "directives",
            FieldName::Body => "body",
            FieldName::Value => "value",
            FieldName::Expression => "expression",
            FieldName::Kind => "kind",
            FieldName::Declarations => "declarations",
            FieldName::Id => "id",
            FieldName::Init => "init",
            FieldName::Async => "async",
            FieldName::Generator => "generator",
            FieldName::Params => "params",
            FieldName::SuperClass => "superClass",
            FieldName::Static => "static",
            FieldName::Computed => "computed",
            FieldName::Key => "key",
            FieldName::Argument => "argument",
            FieldName::Test => "test",
            FieldName::Consequent => "consequent",
            FieldName::Alternate => "alternate",
            FieldName::Await => "await",
            FieldName::Update => "update",
            FieldName::Left => "left",
            FieldName::Right => "right",
            FieldName::Label => "label",
            FieldName::Discriminant => "discriminant",
            FieldName::Cases => "cases",
            FieldName::Block => "block",
            FieldName::Handler => "handler",
            FieldName::Finalizer => "finalizer",
            FieldName::Param => "param",
            FieldName::Specifiers => "specifiers",
            FieldName::Source => "source",
            FieldName::Attributes => "attributes",
            FieldName::Imported => "imported",
            FieldName::Local => "local",
            FieldName::Declaration => "declaration",
            FieldName::Exported => "exported",
            FieldName::Name => "name",
            FieldName::Raw => "raw",
            FieldName::Pattern => "pattern",
            FieldName::Flags => "flags",
            FieldName::Quasis => "quasis",
            FieldName::Expressions => "expressions",
            FieldName::Cooked => "cooked",
            FieldName::Tag => "tag",
            FieldName::Quasi => "quasi",
            FieldName::Elements => "elements",
            FieldName::Properties => "properties",
            FieldName::Method => "method",
            FieldName::Shorthand => "shorthand",
            FieldName::Operator => "operator",
            FieldName::Prefix => "prefix",
            FieldName::Object => "object",
            FieldName::Property => "property",
            FieldName::Optional => "optional",
            FieldName::Callee => "callee",
            FieldName::Arguments => "arguments",
            FieldName::Meta => "meta",
        }
    }
}

/// The set of kinds that may stand at a place.
#[derive(Clone, Copy, PartialEq, Eq, Debug)]
pub enum Sort {
    Program,
    Directive,
    Statement,
    Expression,
    VariableDeclarator,
    /// A binding identifier or pattern (ECMA-262, 14.3.3).
    Binding,
    /// A binding element, maybe with a default value (ECMA-262, 14.3.3).
    Pattern,
    /// The last binding element, which may be a rest element.
    PatternRest,
    PatternMember,
    PatternMemberRest,
    /// The left side of an assignment; which expressions may stand there is a static rule (ECMA-262, 13.15).
    AssignmentTarget,
    /// An element of an assignment pattern (ECMA-262, 13.15.5).
    TargetElement,
    /// The last element of an assignment pattern, which may be a rest element.
    TargetElementRest,
    TargetMember,
    TargetMemberRest,
    Identifier,
    FunctionBody,
    FunctionExpression,
    ArrowFunctionBody,
    ClassElement,
    /// A property name that is not computed (ECMA-262, 13.2.5).
    PropertyKey,
    /// The name behind a dot (ECMA-262, 13.3.2).
    MemberProperty,
    ForInit,
    ForLeft,
    SwitchCase,
    BlockStatement,
    CatchClause,
    ImportItem,
    ImportAttribute,
    StringLiteral,
    ModuleExportName,
    Declaration,
    ExportSpecifier,
    ExportDefault,
    TemplateElement,
    TemplateLiteral,
    /// An argument or an element of an array literal (ECMA-262, 13.2.4 and 13.3.8).
    Argument,
    ObjectMember,
    /// The left side of `in`, which may be a private name (ECMA-262, 13.10).
    BinaryLeft,
    /// What a chain holds (ECMA-262, 13.3.9).
    ChainElement,
}

/// How many nodes stand at a place.
#[derive(Clone, Copy, PartialEq, Eq, Debug)]
pub enum Often {
    /// One node.
    Required,
    /// One node or none; absent and null are the same.
    Optional,
    /// A list, empty where absent.
    List,
    /// A list of at least one node.
    NonEmptyList,
    /// A list whose last node may be a rest element.
    ListWithRest,
    /// A list of statements, which has its own declarations.
    Statements,
    /// The elements of an array literal: each a node or a hole.
    Elements,
    /// The elements of an array pattern, the last of which may be a rest element.
    ElementsWithRest,
}

/// Which texts a field may hold.
#[derive(Clone, Copy, PartialEq, Eq, Debug)]
pub enum TextRule {
    /// Every text.
    Any,
    /// A name, which is not empty.
    Name,
    /// `new` or `import`.
    Meta,
    SourceType,
    VariableDeclarationKind,
    MethodDefinitionKind,
    PropertyKind,
    UnaryOperator,
    UpdateOperator,
    BinaryOperator,
    LogicalOperator,
    AssignmentOperator,
}

/// What a field holds.
#[derive(Clone, Copy, PartialEq, Eq, Debug)]
pub enum Content {
    /// A text.
    Text(TextRule),
    /// A text or none; absent and null are the same.
    OptionalText,
    /// A truth value, false where absent.
    Flag,
    /// A truth value that has to stand.
    RequiredFlag,
    /// What this tool has no form for: absent, null or false, and never written.
    Refused,
    /// Nodes.
    Child(Sort, Often),
}

/// A line of the table.
#[derive(Clone, Copy, PartialEq, Eq, Debug)]
pub struct Entry {
    pub field: FieldName,
    pub content: Content,
}

impl AstType {
    /// The fields of a node of this kind, in reading order.
    pub fn entries(self) -> &'static [Entry]
        ensures { result.now ≡ entries self }
    {
        match self {
            AstType::Program => &PROGRAM,
            AstType::Directive | AstType::StringLiteral => &DIRECTIVE,
            AstType::ExpressionStatement | AstType::ParenthesizedExpression =>
                &EXPRESSION_STATEMENT,
            AstType::BlockStatement | AstType::StaticBlock => &BLOCK_STATEMENT,
            AstType::EmptyStatement
            | AstType::DebuggerStatement
            | AstType::ThisExpression
            | AstType::Super
            | AstType::NullLiteral => &NO_ENTRIES,
            AstType::VariableDeclaration => &VARIABLE_DECLARATION,
            AstType::VariableDeclarator => &VARIABLE_DECLARATOR,
            AstType::FunctionDeclaration | AstType::FunctionExpression => &FUNCTION_DECLARATION,
            AstType::FunctionBody => &FUNCTION_BODY,
            AstType::ArrowFunctionExpression => &ARROW_FUNCTION_EXPRESSION,
            AstType::ClassDeclaration | AstType::ClassExpression => &CLASS_DECLARATION,
            AstType::MethodDefinition => &METHOD_DEFINITION,
            AstType::PropertyDefinition => &PROPERTY_DEFINITION,
            AstType::ReturnStatement => &RETURN_STATEMENT,
            AstType::ThrowStatement | AstType::SpreadElement => &THROW_STATEMENT,
            AstType::IfStatement => &IF_STATEMENT,
            AstType::ForStatement => &FOR_STATEMENT,
            AstType::ForInStatement | AstType::ForOfStatement => &FOR_IN_STATEMENT,
            AstType::WhileStatement => &WHILE_STATEMENT,
            AstType::DoWhileStatement => &DO_WHILE_STATEMENT,
            AstType::BreakStatement | AstType::ContinueStatement => &BREAK_STATEMENT,
            AstType::LabeledStatement => &LABELED_STATEMENT,
            AstType::SwitchStatement => &SWITCH_STATEMENT,
            AstType::SwitchCase => &SWITCH_CASE,
            AstType::TryStatement => &TRY_STATEMENT,
            AstType::CatchClause => &CATCH_CLAUSE,
            AstType::ImportDeclaration => &IMPORT_DECLARATION,
            AstType::ImportSpecifier => &IMPORT_SPECIFIER,
            AstType::ImportDefaultSpecifier | AstType::ImportNamespaceSpecifier =>
                &IMPORT_DEFAULT_SPECIFIER,
            AstType::ImportAttribute => &IMPORT_ATTRIBUTE,
            AstType::ExportNamedDeclaration => &EXPORT_NAMED_DECLARATION,
            AstType::ExportSpecifier => &EXPORT_SPECIFIER,
            AstType::ExportDefaultDeclaration => &EXPORT_DEFAULT_DECLARATION,
            AstType::ExportAllDeclaration => &EXPORT_ALL_DECLARATION,
            AstType::Identifier | AstType::PrivateIdentifier => &IDENTIFIER,
            AstType::BooleanLiteral => &BOOLEAN_LITERAL,
            AstType::NumericLiteral | AstType::BigIntLiteral => &NUMERIC_LITERAL,
            AstType::RegExpLiteral => &REG_EXP_LITERAL,
            AstType::TemplateLiteral => &TEMPLATE_LITERAL,
            AstType::TemplateElement => &TEMPLATE_ELEMENT,
            AstType::TaggedTemplateExpression => &TAGGED_TEMPLATE_EXPRESSION,
            AstType::ArrayExpression => &ARRAY_EXPRESSION,
            AstType::ObjectExpression => &OBJECT_EXPRESSION,
            AstType::ObjectProperty => &OBJECT_PROPERTY,
            AstType::UnaryExpression => &UNARY_EXPRESSION,
            AstType::UpdateExpression => &UPDATE_EXPRESSION,
            AstType::BinaryExpression => &BINARY_EXPRESSION,
            AstType::LogicalExpression => &LOGICAL_EXPRESSION,
            AstType::ConditionalExpression => &CONDITIONAL_EXPRESSION,
            AstType::AssignmentExpression => &ASSIGNMENT_EXPRESSION,
            AstType::SequenceExpression => &SEQUENCE_EXPRESSION,
            AstType::MemberExpression => &MEMBER_EXPRESSION,
            AstType::CallExpression => &CALL_EXPRESSION,
            AstType::NewExpression => &NEW_EXPRESSION,
            AstType::ChainExpression => &CHAIN_EXPRESSION,
            AstType::MetaProperty => &META_PROPERTY,
            AstType::ObjectPattern => &OBJECT_PATTERN,
            AstType::PatternProperty => &PATTERN_PROPERTY,
            AstType::ArrayPattern => &ARRAY_PATTERN,
            AstType::AssignmentPattern => &ASSIGNMENT_PATTERN,
            AstType::RestElement => &REST_ELEMENT,
            AstType::ObjectTarget => &OBJECT_TARGET,
            AstType::TargetProperty => &TARGET_PROPERTY,
            AstType::ArrayTarget => &ARRAY_TARGET,
            AstType::TargetWithDefault => &TARGET_WITH_DEFAULT,
            AstType::TargetRest => &TARGET_REST,
        }
    }
}

impl Sort {
    /// The kinds of this sort that stand before the expressions.
    pub fn own_kinds(self) -> &'static [AstType]
        ensures { result.now ≡ own_kinds self }
    {
        match self {
            Sort::Program => &PROGRAM_KINDS,
            Sort::Directive => &DIRECTIVE_KINDS,
            Sort::Statement => &STATEMENT_KINDS,
            Sort::Expression => &NO_KINDS,
            Sort::VariableDeclarator => &VARIABLE_DECLARATOR_KINDS,
            Sort::Binding => &BINDING_KINDS,
            Sort::Pattern => &PATTERN_KINDS,
            Sort::PatternRest => &PATTERN_REST_KINDS,
            Sort::PatternMember => &PATTERN_MEMBER_KINDS,
            Sort::PatternMemberRest => &PATTERN_MEMBER_REST_KINDS,
            Sort::AssignmentTarget => &ASSIGNMENT_TARGET_KINDS,
            Sort::TargetElement => &TARGET_ELEMENT_KINDS,
            Sort::TargetElementRest => &TARGET_ELEMENT_REST_KINDS,
            Sort::TargetMember => &TARGET_MEMBER_KINDS,
            Sort::TargetMemberRest => &TARGET_MEMBER_REST_KINDS,
            Sort::Identifier => &IDENTIFIER_KINDS,
            Sort::FunctionBody | Sort::ArrowFunctionBody => &FUNCTION_BODY_KINDS,
            Sort::FunctionExpression => &FUNCTION_EXPRESSION_KINDS,
            Sort::ClassElement => &CLASS_ELEMENT_KINDS,
            Sort::PropertyKey => &PROPERTY_KEY_KINDS,
            Sort::MemberProperty => &MEMBER_PROPERTY_KINDS,
            Sort::ForInit => &FOR_INIT_KINDS,
            Sort::ForLeft => &FOR_LEFT_KINDS,
            Sort::SwitchCase => &SWITCH_CASE_KINDS,
            Sort::BlockStatement => &BLOCK_STATEMENT_KINDS,
            Sort::CatchClause => &CATCH_CLAUSE_KINDS,
            Sort::ImportItem => &IMPORT_ITEM_KINDS,
            Sort::ImportAttribute => &IMPORT_ATTRIBUTE_KINDS,
            Sort::StringLiteral => &STRING_LITERAL_KINDS,
            Sort::ModuleExportName => &MODULE_EXPORT_NAME_KINDS,
            Sort::Declaration => &DECLARATION_KINDS,
            Sort::ExportSpecifier => &EXPORT_SPECIFIER_KINDS,
            Sort::ExportDefault => &EXPORT_DEFAULT_KINDS,
            Sort::TemplateElement => &TEMPLATE_ELEMENT_KINDS,
            Sort::TemplateLiteral => &TEMPLATE_LITERAL_KINDS,
            Sort::Argument => &ARGUMENT_KINDS,
            Sort::ObjectMember => &OBJECT_MEMBER_KINDS,
            Sort::BinaryLeft => &BINARY_LEFT_KINDS,
            Sort::ChainElement => &CHAIN_ELEMENT_KINDS,
        }
    }

    /// Whether every expression is of this sort.
    pub fn takes_expressions(self) -> bool
        ensures { result ≡ takes_expressions self }
    {
        match self {
            Sort::Expression
            | Sort::AssignmentTarget
            | Sort::TargetElement
            | Sort::TargetElementRest
            | Sort::ArrowFunctionBody
            | Sort::ForInit
            | Sort::ForLeft
            | Sort::ExportDefault
            | Sort::Argument
            | Sort::BinaryLeft => true,
            _ => false,
        }
    }

    /// The kind of this sort that has this name in the tree form, if there is one.
    pub fn kind_named(self, name: &str) -> Option<AstType>
        ensures { result ≡ kind_named self name.now }
    {
        match find_named(self.own_kinds(), name) {
            None if self.takes_expressions() => find_named(&EXPRESSION_KINDS, name),
            found => found,
        }
    }

    /// The sort of a last node that may be a rest element.
    pub fn with_rest(self) -> Sort
        ensures { result ≡ rest_sort self }
    {
        match self {
            Sort::Pattern => Sort::PatternRest,
            Sort::PatternMember => Sort::PatternMemberRest,
            Sort::TargetElement => Sort::TargetElementRest,
            Sort::TargetMember => Sort::TargetMemberRest,
            other => other,
        }
    }
}

/// The first of these kinds that has this name in the tree form.
fn find_named(kinds: &[AstType], name: &str) -> Option<AstType>
    ensures { result ≡ find (is_named name.now) kinds.now }
{
    kinds.iter().copied().find(|kind| kind.name() == name)
}

impl TextRule {
    /// Whether a field under this rule may hold this text.
    pub fn allows(self, text: &str) -> bool
        ensures { result ≡ allows_text self text.now }
    {
        match self {
            TextRule::Any => true,
            TextRule::Name => !text.is_empty(),
            TextRule::Meta => text == "new" || text == "import",
            TextRule::SourceType => SourceType::from_text(text).is_some(),
            TextRule::VariableDeclarationKind => VariableDeclarationKind::from_text(text).is_some(),
            TextRule::MethodDefinitionKind => MethodDefinitionKind::from_text(text).is_some(),
            TextRule::PropertyKind => PropertyKind::from_text(text).is_some(),
            TextRule::UnaryOperator => UnaryOperator::from_text(text).is_some(),
            TextRule::UpdateOperator => UpdateOperator::from_text(text).is_some(),
            TextRule::BinaryOperator => BinaryOperator::from_text(text).is_some(),
            TextRule::LogicalOperator => LogicalOperator::from_text(text).is_some(),
            TextRule::AssignmentOperator => AssignmentOperator::from_text(text).is_some(),
        }
    }
}
