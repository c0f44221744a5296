//! The lines of the table of fields for the program, statements, declarations, imports and exports.
use crate::table::{Content, Entry, FieldName, Often, Sort, TextRule};

pub static PROGRAM: [Entry; 3] = [
    Entry {
        field: FieldName::SourceType,
        content: Content::Text(TextRule::SourceType),
    },
    Entry {
        field: FieldName::Directives,
        content: Content::Child(Sort::Directive, Often::List),
    },
    Entry {
        field: FieldName::Body,
        content: Content::Child(Sort::Statement, Often::Statements),
    },
];

pub static DIRECTIVE: [Entry; 1] = [Entry {
    field: FieldName::Value,
    content: Content::Text(TextRule::Any),
}];

pub static EXPRESSION_STATEMENT: [Entry; 1] = [Entry {
    field: FieldName::Expression,
    content: Content::Child(Sort::Expression, Often::Required),
}];

pub static BLOCK_STATEMENT: [Entry; 1] = [Entry {
    field: FieldName::Body,
    content: Content::Child(Sort::Statement, Often::Statements),
}];

pub static NO_ENTRIES: [Entry; 0] = [];

pub static VARIABLE_DECLARATION: [Entry; 2] = [
    Entry {
        field: FieldName::Kind,
        content: Content::Text(TextRule::VariableDeclarationKind),
    },
    Entry {
        field: FieldName::Declarations,
        content: Content::Child(Sort::VariableDeclarator, Often::NonEmptyList),
    },
];

pub static VARIABLE_DECLARATOR: [Entry; 2] = [
    Entry {
        field: FieldName::Id,
        content: Content::Child(Sort::Binding, Often::Required),
    },
    Entry {
        field: FieldName::Init,
        content: Content::Child(Sort::Expression, Often::Optional),
    },
];

pub static FUNCTION_DECLARATION: [Entry; 5] = [
    Entry {
        field: FieldName::Async,
        content: Content::Refused,
    },
    Entry {
        field: FieldName::Generator,
        content: Content::Refused,
    },
    Entry {
        field: FieldName::Id,
        content: Content::Child(Sort::Identifier, Often::Optional),
    },
    Entry {
        field: FieldName::Params,
        content: Content::Child(Sort::Pattern, Often::ListWithRest),
    },
    Entry {
        field: FieldName::Body,
        content: Content::Child(Sort::FunctionBody, Often::Required),
    },
];

pub static FUNCTION_BODY: [Entry; 2] = [
    Entry {
        field: FieldName::Directives,
        content: Content::Child(Sort::Directive, Often::List),
    },
    Entry {
        field: FieldName::Body,
        content: Content::Child(Sort::Statement, Often::Statements),
    },
];

pub static ARROW_FUNCTION_EXPRESSION: [Entry; 4] = [
    Entry {
        field: FieldName::Async,
        content: Content::Refused,
    },
    Entry {
        field: FieldName::Generator,
        content: Content::Refused,
    },
    Entry {
        field: FieldName::Params,
        content: Content::Child(Sort::Pattern, Often::ListWithRest),
    },
    Entry {
        field: FieldName::Body,
        content: Content::Child(Sort::ArrowFunctionBody, Often::Required),
    },
];

pub static CLASS_DECLARATION: [Entry; 3] = [
    Entry {
        field: FieldName::Id,
        content: Content::Child(Sort::Identifier, Often::Optional),
    },
    Entry {
        field: FieldName::SuperClass,
        content: Content::Child(Sort::Expression, Often::Optional),
    },
    Entry {
        field: FieldName::Body,
        content: Content::Child(Sort::ClassElement, Often::List),
    },
];

pub static METHOD_DEFINITION: [Entry; 5] = [
    Entry {
        field: FieldName::Kind,
        content: Content::Text(TextRule::MethodDefinitionKind),
    },
    Entry {
        field: FieldName::Static,
        content: Content::Flag,
    },
    Entry {
        field: FieldName::Computed,
        content: Content::Flag,
    },
    Entry {
        field: FieldName::Key,
        content: Content::Child(Sort::PropertyKey, Often::Required),
    },
    Entry {
        field: FieldName::Value,
        content: Content::Child(Sort::FunctionExpression, Often::Required),
    },
];

pub static PROPERTY_DEFINITION: [Entry; 4] = [
    Entry {
        field: FieldName::Static,
        content: Content::Flag,
    },
    Entry {
        field: FieldName::Computed,
        content: Content::Flag,
    },
    Entry {
        field: FieldName::Key,
        content: Content::Child(Sort::PropertyKey, Often::Required),
    },
    Entry {
        field: FieldName::Value,
        content: Content::Child(Sort::Expression, Often::Optional),
    },
];

pub static RETURN_STATEMENT: [Entry; 1] = [Entry {
    field: FieldName::Argument,
    content: Content::Child(Sort::Expression, Often::Optional),
}];

pub static THROW_STATEMENT: [Entry; 1] = [Entry {
    field: FieldName::Argument,
    content: Content::Child(Sort::Expression, Often::Required),
}];

pub static IF_STATEMENT: [Entry; 3] = [
    Entry {
        field: FieldName::Test,
        content: Content::Child(Sort::Expression, Often::Required),
    },
    Entry {
        field: FieldName::Consequent,
        content: Content::Child(Sort::Statement, Often::Required),
    },
    Entry {
        field: FieldName::Alternate,
        content: Content::Child(Sort::Statement, Often::Optional),
    },
];

pub static FOR_STATEMENT: [Entry; 5] = [
    Entry {
        field: FieldName::Await,
        content: Content::Refused,
    },
    Entry {
        field: FieldName::Init,
        content: Content::Child(Sort::ForInit, Often::Optional),
    },
    Entry {
        field: FieldName::Test,
        content: Content::Child(Sort::Expression, Often::Optional),
    },
    Entry {
        field: FieldName::Update,
        content: Content::Child(Sort::Expression, Often::Optional),
    },
    Entry {
        field: FieldName::Body,
        content: Content::Child(Sort::Statement, Often::Required),
    },
];

pub static FOR_IN_STATEMENT: [Entry; 4] = [
    Entry {
        field: FieldName::Await,
        content: Content::Refused,
    },
    Entry {
        field: FieldName::Left,
        content: Content::Child(Sort::ForLeft, Often::Required),
    },
    Entry {
        field: FieldName::Right,
        content: Content::Child(Sort::Expression, Often::Required),
    },
    Entry {
        field: FieldName::Body,
        content: Content::Child(Sort::Statement, Often::Required),
    },
];

pub static WHILE_STATEMENT: [Entry; 2] = [
    Entry {
        field: FieldName::Test,
        content: Content::Child(Sort::Expression, Often::Required),
    },
    Entry {
        field: FieldName::Body,
        content: Content::Child(Sort::Statement, Often::Required),
    },
];

pub static DO_WHILE_STATEMENT: [Entry; 2] = [
    Entry {
        field: FieldName::Body,
        content: Content::Child(Sort::Statement, Often::Required),
    },
    Entry {
        field: FieldName::Test,
        content: Content::Child(Sort::Expression, Often::Required),
    },
];

pub static BREAK_STATEMENT: [Entry; 1] = [Entry {
    field: FieldName::Label,
    content: Content::Child(Sort::Identifier, Often::Optional),
}];

pub static LABELED_STATEMENT: [Entry; 2] = [
    Entry {
        field: FieldName::Label,
        content: Content::Child(Sort::Identifier, Often::Required),
    },
    Entry {
        field: FieldName::Body,
        content: Content::Child(Sort::Statement, Often::Required),
    },
];

pub static SWITCH_STATEMENT: [Entry; 2] = [
    Entry {
        field: FieldName::Discriminant,
        content: Content::Child(Sort::Expression, Often::Required),
    },
    Entry {
        field: FieldName::Cases,
        content: Content::Child(Sort::SwitchCase, Often::List),
    },
];

pub static SWITCH_CASE: [Entry; 2] = [
    Entry {
        field: FieldName::Test,
        content: Content::Child(Sort::Expression, Often::Optional),
    },
    Entry {
        field: FieldName::Consequent,
        content: Content::Child(Sort::Statement, Often::Statements),
    },
];

pub static TRY_STATEMENT: [Entry; 3] = [
    Entry {
        field: FieldName::Block,
        content: Content::Child(Sort::BlockStatement, Often::Required),
    },
    Entry {
        field: FieldName::Handler,
        content: Content::Child(Sort::CatchClause, Often::Optional),
    },
    Entry {
        field: FieldName::Finalizer,
        content: Content::Child(Sort::BlockStatement, Often::Optional),
    },
];

pub static CATCH_CLAUSE: [Entry; 2] = [
    Entry {
        field: FieldName::Param,
        content: Content::Child(Sort::Binding, Often::Optional),
    },
    Entry {
        field: FieldName::Body,
        content: Content::Child(Sort::BlockStatement, Often::Required),
    },
];

pub static IMPORT_DECLARATION: [Entry; 3] = [
    Entry {
        field: FieldName::Specifiers,
        content: Content::Child(Sort::ImportItem, Often::List),
    },
    Entry {
        field: FieldName::Source,
        content: Content::Child(Sort::StringLiteral, Often::Required),
    },
    Entry {
        field: FieldName::Attributes,
        content: Content::Child(Sort::ImportAttribute, Often::List),
    },
];

pub static IMPORT_SPECIFIER: [Entry; 2] = [
    Entry {
        field: FieldName::Imported,
        content: Content::Child(Sort::ModuleExportName, Often::Required),
    },
    Entry {
        field: FieldName::Local,
        content: Content::Child(Sort::Identifier, Often::Required),
    },
];

pub static IMPORT_DEFAULT_SPECIFIER: [Entry; 1] = [Entry {
    field: FieldName::Local,
    content: Content::Child(Sort::Identifier, Often::Required),
}];

pub static IMPORT_ATTRIBUTE: [Entry; 2] = [
    Entry {
        field: FieldName::Key,
        content: Content::Text(TextRule::Any),
    },
    Entry {
        field: FieldName::Value,
        content: Content::Text(TextRule::Any),
    },
];

pub static EXPORT_NAMED_DECLARATION: [Entry; 4] = [
    Entry {
        field: FieldName::Declaration,
        content: Content::Child(Sort::Declaration, Often::Optional),
    },
    Entry {
        field: FieldName::Specifiers,
        content: Content::Child(Sort::ExportSpecifier, Often::List),
    },
    Entry {
        field: FieldName::Source,
        content: Content::Child(Sort::StringLiteral, Often::Optional),
    },
    Entry {
        field: FieldName::Attributes,
        content: Content::Child(Sort::ImportAttribute, Often::List),
    },
];

pub static EXPORT_SPECIFIER: [Entry; 2] = [
    Entry {
        field: FieldName::Local,
        content: Content::Child(Sort::ModuleExportName, Often::Required),
    },
    Entry {
        field: FieldName::Exported,
        content: Content::Child(Sort::ModuleExportName, Often::Required),
    },
];

pub static EXPORT_DEFAULT_DECLARATION: [Entry; 1] = [Entry {
    field: FieldName::Declaration,
    content: Content::Child(Sort::ExportDefault, Often::Required),
}];

pub static EXPORT_ALL_DECLARATION: [Entry; 3] = [
    Entry {
        field: FieldName::Exported,
        content: Content::Child(Sort::ModuleExportName, Often::Optional),
    },
    Entry {
        field: FieldName::Source,
        content: Content::Child(Sort::StringLiteral, Often::Required),
    },
    Entry {
        field: FieldName::Attributes,
        content: Content::Child(Sort::ImportAttribute, Often::List),
    },
];
