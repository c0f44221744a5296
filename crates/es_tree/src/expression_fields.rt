//! The lines of the table of fields for expressions and patterns.
use crate::table::{Content, Entry, FieldName, Often, Sort, TextRule};

pub static IDENTIFIER: [Entry; 1] = [Entry {
    field: FieldName::Name,
    content: Content::Text(TextRule::Name),
}];

pub static BOOLEAN_LITERAL: [Entry; 1] = [Entry {
    field: FieldName::Value,
    content: Content::RequiredFlag,
}];

pub static NUMERIC_LITERAL: [Entry; 2] = [
    Entry {
        field: FieldName::Raw,
        content: Content::Text(TextRule::Any),
    },
    Entry {
        field: FieldName::Key,
        content: Content::Text(TextRule::Any),
    },
];

pub static REG_EXP_LITERAL: [Entry; 2] = [
    Entry {
        field: FieldName::Pattern,
        content: Content::Text(TextRule::Any),
    },
    Entry {
        field: FieldName::Flags,
        content: Content::Text(TextRule::Any),
    },
];

pub static TEMPLATE_LITERAL: [Entry; 2] = [
    Entry {
        field: FieldName::Quasis,
        content: Content::Child(Sort::TemplateElement, Often::List),
    },
    Entry {
        field: FieldName::Expressions,
        content: Content::Child(Sort::Expression, Often::List),
    },
];

pub static TEMPLATE_ELEMENT: [Entry; 2] = [
    Entry {
        field: FieldName::Raw,
        content: Content::Text(TextRule::Any),
    },
    Entry {
        field: FieldName::Cooked,
        content: Content::OptionalText,
    },
];

pub static TAGGED_TEMPLATE_EXPRESSION: [Entry; 2] = [
    Entry {
        field: FieldName::Tag,
        content: Content::Child(Sort::Expression, Often::Required),
    },
    Entry {
        field: FieldName::Quasi,
        content: Content::Child(Sort::TemplateLiteral, Often::Required),
    },
];

pub static ARRAY_EXPRESSION: [Entry; 1] = [Entry {
    field: FieldName::Elements,
    content: Content::Child(Sort::Argument, Often::Elements),
}];

pub static OBJECT_EXPRESSION: [Entry; 1] = [Entry {
    field: FieldName::Properties,
    content: Content::Child(Sort::ObjectMember, Often::List),
}];

pub static OBJECT_PROPERTY: [Entry; 6] = [
    Entry {
        field: FieldName::Kind,
        content: Content::Text(TextRule::PropertyKind),
    },
    Entry {
        field: FieldName::Method,
        content: Content::Flag,
    },
    Entry {
        field: FieldName::Shorthand,
        content: Content::Flag,
    },
    Entry {
        field: FieldName::Computed,
        content: Content::Flag,
    },
    Entry {
        field: FieldName::Key,
        content: Content::Child(Sort::PropertyKey, Often::Required),
    },
    Entry {
        field: FieldName::Value,
        content: Content::Child(Sort::Expression, Often::Required),
    },
];

pub static UNARY_EXPRESSION: [Entry; 2] = [
    Entry {
        field: FieldName::Operator,
        content: Content::Text(TextRule::UnaryOperator),
    },
    Entry {
        field: FieldName::Argument,
        content: Content::Child(Sort::Expression, Often::Required),
    },
];

pub static UPDATE_EXPRESSION: [Entry; 3] = [
    Entry {
        field: FieldName::Operator,
        content: Content::Text(TextRule::UpdateOperator),
    },
    Entry {
        field: FieldName::Prefix,
        content: Content::Flag,
    },
    Entry {
        field: FieldName::Argument,
        content: Content::Child(Sort::Expression, Often::Required),
    },
];

pub static BINARY_EXPRESSION: [Entry; 3] = [
    Entry {
        field: FieldName::Operator,
        content: Content::Text(TextRule::BinaryOperator),
    },
    Entry {
        field: FieldName::Left,
        content: Content::Child(Sort::BinaryLeft, Often::Required),
    },
    Entry {
        field: FieldName::Right,
        content: Content::Child(Sort::Expression, Often::Required),
    },
];

pub static LOGICAL_EXPRESSION: [Entry; 3] = [
    Entry {
        field: FieldName::Operator,
        content: Content::Text(TextRule::LogicalOperator),
    },
    Entry {
        field: FieldName::Left,
        content: Content::Child(Sort::Expression, Often::Required),
    },
    Entry {
        field: FieldName::Right,
        content: Content::Child(Sort::Expression, Often::Required),
    },
];

pub static CONDITIONAL_EXPRESSION: [Entry; 3] = [
    Entry {
        field: FieldName::Test,
        content: Content::Child(Sort::Expression, Often::Required),
    },
    Entry {
        field: FieldName::Consequent,
        content: Content::Child(Sort::Expression, Often::Required),
    },
    Entry {
        field: FieldName::Alternate,
        content: Content::Child(Sort::Expression, Often::Required),
    },
];

pub static ASSIGNMENT_EXPRESSION: [Entry; 3] = [
    Entry {
        field: FieldName::Operator,
        content: Content::Text(TextRule::AssignmentOperator),
    },
    Entry {
        field: FieldName::Left,
        content: Content::Child(Sort::AssignmentTarget, Often::Required),
    },
    Entry {
        field: FieldName::Right,
        content: Content::Child(Sort::Expression, Often::Required),
    },
];

pub static SEQUENCE_EXPRESSION: [Entry; 1] = [Entry {
    field: FieldName::Expressions,
    content: Content::Child(Sort::Expression, Often::NonEmptyList),
}];

pub static MEMBER_EXPRESSION: [Entry; 4] = [
    Entry {
        field: FieldName::Object,
        content: Content::Child(Sort::Expression, Often::Required),
    },
    Entry {
        field: FieldName::Property,
        content: Content::Child(Sort::MemberProperty, Often::Required),
    },
    Entry {
        field: FieldName::Computed,
        content: Content::Flag,
    },
    Entry {
        field: FieldName::Optional,
        content: Content::Flag,
    },
];

pub static CALL_EXPRESSION: [Entry; 3] = [
    Entry {
        field: FieldName::Callee,
        content: Content::Child(Sort::Expression, Often::Required),
    },
    Entry {
        field: FieldName::Arguments,
        content: Content::Child(Sort::Argument, Often::List),
    },
    Entry {
        field: FieldName::Optional,
        content: Content::Flag,
    },
];

pub static NEW_EXPRESSION: [Entry; 2] = [
    Entry {
        field: FieldName::Callee,
        content: Content::Child(Sort::Expression, Often::Required),
    },
    Entry {
        field: FieldName::Arguments,
        content: Content::Child(Sort::Argument, Often::List),
    },
];

pub static CHAIN_EXPRESSION: [Entry; 1] = [Entry {
    field: FieldName::Expression,
    content: Content::Child(Sort::ChainElement, Often::Required),
}];

pub static META_PROPERTY: [Entry; 2] = [
    Entry {
        field: FieldName::Meta,
        content: Content::Text(TextRule::Meta),
    },
    Entry {
        field: FieldName::Property,
        content: Content::Text(TextRule::Any),
    },
];

pub static OBJECT_PATTERN: [Entry; 1] = [Entry {
    field: FieldName::Properties,
    content: Content::Child(Sort::PatternMember, Often::ListWithRest),
}];

pub static PATTERN_PROPERTY: [Entry; 4] = [
    Entry {
        field: FieldName::Shorthand,
        content: Content::Flag,
    },
    Entry {
        field: FieldName::Computed,
        content: Content::Flag,
    },
    Entry {
        field: FieldName::Key,
        content: Content::Child(Sort::PropertyKey, Often::Required),
    },
    Entry {
        field: FieldName::Value,
        content: Content::Child(Sort::Pattern, Often::Required),
    },
];

pub static ARRAY_PATTERN: [Entry; 1] = [Entry {
    field: FieldName::Elements,
    content: Content::Child(Sort::Pattern, Often::ElementsWithRest),
}];

pub static ASSIGNMENT_PATTERN: [Entry; 2] = [
    Entry {
        field: FieldName::Left,
        content: Content::Child(Sort::Pattern, Often::Required),
    },
    Entry {
        field: FieldName::Right,
        content: Content::Child(Sort::Expression, Often::Required),
    },
];

pub static REST_ELEMENT: [Entry; 1] = [Entry {
    field: FieldName::Argument,
    content: Content::Child(Sort::Pattern, Often::Required),
}];

pub static OBJECT_TARGET: [Entry; 1] = [Entry {
    field: FieldName::Properties,
    content: Content::Child(Sort::TargetMember, Often::ListWithRest),
}];

pub static TARGET_PROPERTY: [Entry; 4] = [
    Entry {
        field: FieldName::Shorthand,
        content: Content::Flag,
    },
    Entry {
        field: FieldName::Computed,
        content: Content::Flag,
    },
    Entry {
        field: FieldName::Key,
        content: Content::Child(Sort::PropertyKey, Often::Required),
    },
    Entry {
        field: FieldName::Value,
        content: Content::Child(Sort::TargetElement, Often::Required),
    },
];

pub static ARRAY_TARGET: [Entry; 1] = [Entry {
    field: FieldName::Elements,
    content: Content::Child(Sort::TargetElement, Often::ElementsWithRest),
}];

pub static TARGET_WITH_DEFAULT: [Entry; 2] = [
    Entry {
        field: FieldName::Left,
        content: Content::Child(Sort::TargetElement, Often::Required),
    },
    Entry {
        field: FieldName::Right,
        content: Content::Child(Sort::Expression, Often::Required),
    },
];

pub static TARGET_REST: [Entry; 1] = [Entry {
    field: FieldName::Argument,
    content: Content::Child(Sort::TargetElement, Often::Required),
}];
