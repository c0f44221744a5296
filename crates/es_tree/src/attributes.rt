//! The texts and truth values of kinds, in the order of the table of fields.
ghost use Rattle.std.specs.Prelude.{◌≡◌, IfOk, None, false, length, option_map, slice_index_or, string_bytes, true};
ghost use Rattle.es_tree.specs.Attributes.{flag_entries, no_marks, text_entries, texts_fit};
ghost use Rattle.es_tree.specs.Heads.{head, head_of, optional_text};
ghost use Rattle.es_tree.specs.Reads.{or_empty, read_head};
ghost use Rattle.es_tree.specs.Texts.{plain_text, plain_texts};

use crate::ast_type::AstType;
use crate::kind::Kind;
use crate::operators::{
    AssignmentOperator, BinaryOperator, LogicalOperator, MethodDefinitionKind, PropertyKind,
    SourceType, UnaryOperator, UpdateOperator, VariableDeclarationKind,
};
use std::alloc::{AllocError, Global};

/// The texts and truth values that a kind is made from.
#[derive(Clone, Copy)]
struct Given<'a> {
    alloc: Global,
    texts: &'a [Option<&'a str>],
    flags: &'a [bool],
}

impl Kind {
    /// The kind of a node of this kind by name, with these texts and truth values in the order of
    /// the table of fields, and no marks. Fails where memory runs out.
    pub fn new(
        alloc: Global,
        ast_type: AstType,
        texts: &[Option<&str>],
        flags: &[bool],
    ) -> Result<Kind, AllocError>
        requires texts { texts_fit (text_entries ast_type) (plain_texts texts.now) ≡ true }
        requires flags { length flags.now ≡ length (flag_entries ast_type) }
        ensures { IfOk result (λ kind. head_of kind ≡ head ast_type (plain_texts texts.now) flags.now (no_marks ast_type)) }
    {
        let given = Given {
            alloc,
            texts,
            flags,
        };
        let kind = given.kind(ast_type)?;
        Ok(kind)
    }

    /// The text at this place in the order of the table of fields, if there is one there.
    pub fn text(&self, index: usize) -> Option<&str>
        ensures { option_map (λ s. s.now) result ≡ slice_index_or (head_of self.now).texts index None }
    {
        match self {
            Kind::Program { source_type, .. } => text_at(&[Some(source_type.as_str())], index),
            Kind::Directive { value } => text_at(&[Some(value.as_str())], index),
            Kind::VariableDeclaration { kind } => text_at(&[Some(kind.as_str())], index),
            Kind::MethodDefinition { kind, .. } => text_at(&[Some(kind.as_str())], index),
            Kind::ImportAttribute { key, value } => text_at(
                &[Some(key.as_str()), Some(value.as_str())],
                index,
            ),
            Kind::Identifier { name, .. } => text_at(&[Some(name.as_str())], index),
            Kind::PrivateIdentifier { name } => text_at(&[Some(name.as_str())], index),
            Kind::NumericLiteral { raw, key } => text_at(
                &[Some(raw.as_str()), Some(key.as_str())],
                index,
            ),
            Kind::BigIntLiteral { raw, key } => text_at(
                &[Some(raw.as_str()), Some(key.as_str())],
                index,
            ),
            Kind::StringLiteral { value } => text_at(&[Some(value.as_str())], index),
            Kind::RegExpLiteral { pattern, flags } => text_at(
                &[Some(pattern.as_str()), Some(flags.as_str())],
                index,
            ),
            Kind::TemplateElement { raw, cooked } => text_at(
                &[Some(raw.as_str()), cooked.as_deref()],
                index,
            ),
            Kind::ObjectProperty { kind, .. } => text_at(&[Some(kind.as_str())], index),
            Kind::UnaryExpression { operator } => text_at(&[Some(operator.as_str())], index),
            Kind::UpdateExpression { operator, .. } => text_at(&[Some(operator.as_str())], index),
            Kind::BinaryExpression { operator } => text_at(&[Some(operator.as_str())], index),
            Kind::LogicalExpression { operator } => text_at(&[Some(operator.as_str())], index),
            Kind::AssignmentExpression { operator } => text_at(&[Some(operator.as_str())], index),
            Kind::MetaProperty { meta, property } => text_at(
                &[Some(meta.as_str()), Some(property.as_str())],
                index,
            ),
            _ => None,
        }
    }

    /// The truth value at this place in the order of the table of fields, false past the last.
    pub fn flag(&self, index: usize) -> bool
        ensures { result ≡ slice_index_or (head_of self.now).flags index false }
    {
        match self {
            Kind::MethodDefinition {
                is_static,
                computed,
                ..
            } => flag_at(&[*is_static, *computed], index),
            Kind::PropertyDefinition {
                is_static,
                computed,
            } => flag_at(&[*is_static, *computed], index),
            Kind::BooleanLiteral { value } => flag_at(&[*value], index),
            Kind::ObjectProperty {
                method,
                shorthand,
                computed,
                ..
            } => flag_at(&[*method, *shorthand, *computed], index),
            Kind::UpdateExpression { prefix, .. } => flag_at(&[*prefix], index),
            Kind::MemberExpression { computed, optional } => flag_at(
                &[*computed, *optional],
                index,
            ),
            Kind::CallExpression { optional } => flag_at(&[*optional], index),
            Kind::PatternProperty {
                shorthand,
                computed,
            } => flag_at(&[*shorthand, *computed], index),
            Kind::TargetProperty {
                shorthand,
                computed,
            } => flag_at(&[*shorthand, *computed], index),
            _ => false,
        }
    }

    /// A copy. Fails where memory runs out.
    pub fn clone_kind(&self, alloc: Global) -> Result<Kind, AllocError>
        ensures { IfOk result (λ copy. head_of copy ≡ head_of self.now) }
    {
        match self {
            Kind::Program { source_type, scope } => Ok(Kind::Program {
                source_type: *source_type,
                scope: *scope,
            }),
            Kind::Directive { value } => Ok(Kind::Directive {
                value: String::from_str(alloc, value)?,
            }),
            Kind::ExpressionStatement => Ok(Kind::ExpressionStatement),
            Kind::BlockStatement { scope } => Ok(Kind::BlockStatement { scope: *scope }),
            Kind::StaticBlock { scope } => Ok(Kind::StaticBlock { scope: *scope }),
            Kind::EmptyStatement => Ok(Kind::EmptyStatement),
            Kind::DebuggerStatement => Ok(Kind::DebuggerStatement),
            Kind::VariableDeclaration { kind } => Ok(Kind::VariableDeclaration { kind: *kind }),
            Kind::VariableDeclarator => Ok(Kind::VariableDeclarator),
            Kind::FunctionDeclaration { scope } => Ok(Kind::FunctionDeclaration { scope: *scope }),
            Kind::FunctionExpression { scope } => Ok(Kind::FunctionExpression { scope: *scope }),
            Kind::FunctionBody { scope } => Ok(Kind::FunctionBody { scope: *scope }),
            Kind::ArrowFunctionExpression { scope } => Ok(Kind::ArrowFunctionExpression {
                scope: *scope,
            }),
            Kind::ClassDeclaration { scope } => Ok(Kind::ClassDeclaration { scope: *scope }),
            Kind::ClassExpression { scope } => Ok(Kind::ClassExpression { scope: *scope }),
            Kind::MethodDefinition {
                kind,
                is_static,
                computed,
            } => Ok(Kind::MethodDefinition {
                kind: *kind,
                is_static: *is_static,
                computed: *computed,
            }),
            Kind::PropertyDefinition {
                is_static,
                computed,
            } => Ok(Kind::PropertyDefinition {
                is_static: *is_static,
                computed: *computed,
            }),
            Kind::ReturnStatement => Ok(Kind::ReturnStatement),
            Kind::ThrowStatement => Ok(Kind::ThrowStatement),
            Kind::IfStatement => Ok(Kind::IfStatement),
            Kind::ForStatement { scope } => Ok(Kind::ForStatement { scope: *scope }),
            Kind::ForInStatement { scope } => Ok(Kind::ForInStatement { scope: *scope }),
            Kind::ForOfStatement { scope } => Ok(Kind::ForOfStatement { scope: *scope }),
            Kind::WhileStatement => Ok(Kind::WhileStatement),
            Kind::DoWhileStatement => Ok(Kind::DoWhileStatement),
            Kind::BreakStatement => Ok(Kind::BreakStatement),
            Kind::ContinueStatement => Ok(Kind::ContinueStatement),
            Kind::LabeledStatement => Ok(Kind::LabeledStatement),
            Kind::SwitchStatement { scope } => Ok(Kind::SwitchStatement { scope: *scope }),
            Kind::SwitchCase => Ok(Kind::SwitchCase),
            Kind::TryStatement => Ok(Kind::TryStatement),
            Kind::CatchClause { scope } => Ok(Kind::CatchClause { scope: *scope }),
            Kind::ImportDeclaration => Ok(Kind::ImportDeclaration),
            Kind::ImportSpecifier => Ok(Kind::ImportSpecifier),
            Kind::ImportDefaultSpecifier => Ok(Kind::ImportDefaultSpecifier),
            Kind::ImportNamespaceSpecifier => Ok(Kind::ImportNamespaceSpecifier),
            Kind::ImportAttribute { key, value } => Ok(Kind::ImportAttribute {
                key: String::from_str(alloc, key)?,
                value: String::from_str(alloc, value)?,
            }),
            Kind::ExportNamedDeclaration => Ok(Kind::ExportNamedDeclaration),
            Kind::ExportSpecifier => Ok(Kind::ExportSpecifier),
            Kind::ExportDefaultDeclaration => Ok(Kind::ExportDefaultDeclaration),
            Kind::ExportAllDeclaration => Ok(Kind::ExportAllDeclaration),
            Kind::Identifier {
                name,
                reference,
                symbol,
            } => Ok(Kind::Identifier {
                name: String::from_str(alloc, name)?,
                reference: *reference,
                symbol: *symbol,
            }),
            Kind::PrivateIdentifier { name } => Ok(Kind::PrivateIdentifier {
                name: String::from_str(alloc, name)?,
            }),
            Kind::ThisExpression => Ok(Kind::ThisExpression),
            Kind::Super => Ok(Kind::Super),
            Kind::NullLiteral => Ok(Kind::NullLiteral),
            Kind::BooleanLiteral { value } => Ok(Kind::BooleanLiteral { value: *value }),
            Kind::NumericLiteral { raw, key } => Ok(Kind::NumericLiteral {
                raw: String::from_str(alloc, raw)?,
                key: String::from_str(alloc, key)?,
            }),
            Kind::BigIntLiteral { raw, key } => Ok(Kind::BigIntLiteral {
                raw: String::from_str(alloc, raw)?,
                key: String::from_str(alloc, key)?,
            }),
            Kind::StringLiteral { value } => Ok(Kind::StringLiteral {
                value: String::from_str(alloc, value)?,
            }),
            Kind::RegExpLiteral { pattern, flags } => Ok(Kind::RegExpLiteral {
                pattern: String::from_str(alloc, pattern)?,
                flags: String::from_str(alloc, flags)?,
            }),
            Kind::TemplateLiteral => Ok(Kind::TemplateLiteral),
            Kind::TemplateElement { raw, cooked } => Ok(Kind::TemplateElement {
                raw: String::from_str(alloc, raw)?,
                cooked: copy_of_optional(alloc, cooked.as_deref())?,
            }),
            Kind::TaggedTemplateExpression => Ok(Kind::TaggedTemplateExpression),
            Kind::ArrayExpression => Ok(Kind::ArrayExpression),
            Kind::SpreadElement => Ok(Kind::SpreadElement),
            Kind::ObjectExpression => Ok(Kind::ObjectExpression),
            Kind::ObjectProperty {
                kind,
                method,
                shorthand,
                computed,
            } => Ok(Kind::ObjectProperty {
                kind: *kind,
                method: *method,
                shorthand: *shorthand,
                computed: *computed,
            }),
            Kind::UnaryExpression { operator } => Ok(Kind::UnaryExpression {
                operator: *operator,
            }),
            Kind::UpdateExpression { operator, prefix } => Ok(Kind::UpdateExpression {
                operator: *operator,
                prefix: *prefix,
            }),
            Kind::BinaryExpression { operator } => Ok(Kind::BinaryExpression {
                operator: *operator,
            }),
            Kind::LogicalExpression { operator } => Ok(Kind::LogicalExpression {
                operator: *operator,
            }),
            Kind::ConditionalExpression => Ok(Kind::ConditionalExpression),
            Kind::AssignmentExpression { operator } => Ok(Kind::AssignmentExpression {
                operator: *operator,
            }),
            Kind::SequenceExpression => Ok(Kind::SequenceExpression),
            Kind::MemberExpression { computed, optional } => Ok(Kind::MemberExpression {
                computed: *computed,
                optional: *optional,
            }),
            Kind::CallExpression { optional } => Ok(Kind::CallExpression {
                optional: *optional,
            }),
            Kind::NewExpression => Ok(Kind::NewExpression),
            Kind::ChainExpression => Ok(Kind::ChainExpression),
            Kind::ParenthesizedExpression => Ok(Kind::ParenthesizedExpression),
            Kind::MetaProperty { meta, property } => Ok(Kind::MetaProperty {
                meta: String::from_str(alloc, meta)?,
                property: String::from_str(alloc, property)?,
            }),
            Kind::ObjectPattern => Ok(Kind::ObjectPattern),
            Kind::PatternProperty {
                shorthand,
                computed,
            } => Ok(Kind::PatternProperty {
                shorthand: *shorthand,
                computed: *computed,
            }),
            Kind::ArrayPattern => Ok(Kind::ArrayPattern),
            Kind::AssignmentPattern => Ok(Kind::AssignmentPattern),
            Kind::RestElement => Ok(Kind::RestElement),
            Kind::ObjectTarget => Ok(Kind::ObjectTarget),
            Kind::TargetProperty {
                shorthand,
                computed,
            } => Ok(Kind::TargetProperty {
                shorthand: *shorthand,
                computed: *computed,
            }),
            Kind::ArrayTarget => Ok(Kind::ArrayTarget),
            Kind::TargetWithDefault => Ok(Kind::TargetWithDefault),
            Kind::TargetRest => Ok(Kind::TargetRest),
        }
    }
}

impl<'a> Given<'a> {
    /// The kind of a node of this kind by name, of what stands at its places. A place with nothing
    /// that may stand there gets a default.
    fn kind(&self, ast_type: AstType) -> Result<Kind, AllocError>
        ensures { IfOk result (λ kind. head_of kind ≡ read_head ast_type (plain_texts self.now.texts.now) self.now.flags.now) }
    {
        match ast_type {
            AstType::Program => Ok(Kind::Program {
                source_type: SourceType::from_text(self.word(0)).unwrap_or(SourceType::Script),
                scope: None,
            }),
            AstType::Directive => Ok(Kind::Directive {
                value: self.text(0)?,
            }),
            AstType::ExpressionStatement => Ok(Kind::ExpressionStatement),
            AstType::BlockStatement => Ok(Kind::BlockStatement { scope: None }),
            AstType::StaticBlock => Ok(Kind::StaticBlock { scope: None }),
            AstType::EmptyStatement => Ok(Kind::EmptyStatement),
            AstType::DebuggerStatement => Ok(Kind::DebuggerStatement),
            AstType::VariableDeclaration => Ok(Kind::VariableDeclaration {
                kind: VariableDeclarationKind::from_text(self.word(0)).unwrap_or(
                    VariableDeclarationKind::Var,
                ),
            }),
            AstType::VariableDeclarator => Ok(Kind::VariableDeclarator),
            AstType::FunctionDeclaration => Ok(Kind::FunctionDeclaration { scope: None }),
            AstType::FunctionExpression => Ok(Kind::FunctionExpression { scope: None }),
            AstType::FunctionBody => Ok(Kind::FunctionBody { scope: None }),
            AstType::ArrowFunctionExpression => Ok(Kind::ArrowFunctionExpression { scope: None }),
            AstType::ClassDeclaration => Ok(Kind::ClassDeclaration { scope: None }),
            AstType::ClassExpression => Ok(Kind::ClassExpression { scope: None }),
            AstType::MethodDefinition => Ok(Kind::MethodDefinition {
                kind: MethodDefinitionKind::from_text(self.word(0)).unwrap_or(
                    MethodDefinitionKind::Method,
                ),
                is_static: flag_at(self.flags, 0),
                computed: flag_at(self.flags, 1),
            }),
            AstType::PropertyDefinition => Ok(Kind::PropertyDefinition {
                is_static: flag_at(self.flags, 0),
                computed: flag_at(self.flags, 1),
            }),
            AstType::ReturnStatement => Ok(Kind::ReturnStatement),
            AstType::ThrowStatement => Ok(Kind::ThrowStatement),
            AstType::IfStatement => Ok(Kind::IfStatement),
            AstType::ForStatement => Ok(Kind::ForStatement { scope: None }),
            AstType::ForInStatement => Ok(Kind::ForInStatement { scope: None }),
            AstType::ForOfStatement => Ok(Kind::ForOfStatement { scope: None }),
            AstType::WhileStatement => Ok(Kind::WhileStatement),
            AstType::DoWhileStatement => Ok(Kind::DoWhileStatement),
            AstType::BreakStatement => Ok(Kind::BreakStatement),
            AstType::ContinueStatement => Ok(Kind::ContinueStatement),
            AstType::LabeledStatement => Ok(Kind::LabeledStatement),
            AstType::SwitchStatement => Ok(Kind::SwitchStatement { scope: None }),
            AstType::SwitchCase => Ok(Kind::SwitchCase),
            AstType::TryStatement => Ok(Kind::TryStatement),
            AstType::CatchClause => Ok(Kind::CatchClause { scope: None }),
            AstType::ImportDeclaration => Ok(Kind::ImportDeclaration),
            AstType::ImportSpecifier => Ok(Kind::ImportSpecifier),
            AstType::ImportDefaultSpecifier => Ok(Kind::ImportDefaultSpecifier),
            AstType::ImportNamespaceSpecifier => Ok(Kind::ImportNamespaceSpecifier),
            AstType::ImportAttribute => Ok(Kind::ImportAttribute {
                key: self.text(0)?,
                value: self.text(1)?,
            }),
            AstType::ExportNamedDeclaration => Ok(Kind::ExportNamedDeclaration),
            AstType::ExportSpecifier => Ok(Kind::ExportSpecifier),
            AstType::ExportDefaultDeclaration => Ok(Kind::ExportDefaultDeclaration),
            AstType::ExportAllDeclaration => Ok(Kind::ExportAllDeclaration),
            AstType::Identifier => Ok(Kind::Identifier {
                name: self.text(0)?,
                reference: None,
                symbol: None,
            }),
            AstType::PrivateIdentifier => Ok(Kind::PrivateIdentifier {
                name: self.text(0)?,
            }),
            AstType::ThisExpression => Ok(Kind::ThisExpression),
            AstType::Super => Ok(Kind::Super),
            AstType::NullLiteral => Ok(Kind::NullLiteral),
            AstType::BooleanLiteral => Ok(Kind::BooleanLiteral {
                value: flag_at(self.flags, 0),
            }),
            AstType::NumericLiteral => Ok(Kind::NumericLiteral {
                raw: self.text(0)?,
                key: self.text(1)?,
            }),
            AstType::BigIntLiteral => Ok(Kind::BigIntLiteral {
                raw: self.text(0)?,
                key: self.text(1)?,
            }),
            AstType::StringLiteral => Ok(Kind::StringLiteral {
                value: self.text(0)?,
            }),
            AstType::RegExpLiteral => Ok(Kind::RegExpLiteral {
                pattern: self.text(0)?,
                flags: self.text(1)?,
            }),
            AstType::TemplateLiteral => Ok(Kind::TemplateLiteral),
            AstType::TemplateElement => Ok(Kind::TemplateElement {
                raw: self.text(0)?,
                cooked: self.optional_text(1)?,
            }),
            AstType::TaggedTemplateExpression => Ok(Kind::TaggedTemplateExpression),
            AstType::ArrayExpression => Ok(Kind::ArrayExpression),
            AstType::SpreadElement => Ok(Kind::SpreadElement),
            AstType::ObjectExpression => Ok(Kind::ObjectExpression),
            AstType::ObjectProperty => Ok(Kind::ObjectProperty {
                kind: PropertyKind::from_text(self.word(0)).unwrap_or(PropertyKind::Init),
                method: flag_at(self.flags, 0),
                shorthand: flag_at(self.flags, 1),
                computed: flag_at(self.flags, 2),
            }),
            AstType::UnaryExpression => Ok(Kind::UnaryExpression {
                operator: UnaryOperator::from_text(self.word(0)).unwrap_or(
                    UnaryOperator::LogicalNot,
                ),
            }),
            AstType::UpdateExpression => Ok(Kind::UpdateExpression {
                operator: UpdateOperator::from_text(self.word(0)).unwrap_or(
                    UpdateOperator::Increment,
                ),
                prefix: flag_at(self.flags, 0),
            }),
            AstType::BinaryExpression => Ok(Kind::BinaryExpression {
                operator: BinaryOperator::from_text(self.word(0)).unwrap_or(
                    BinaryOperator::Addition,
                ),
            }),
            AstType::LogicalExpression => Ok(Kind::LogicalExpression {
                operator: LogicalOperator::from_text(self.word(0)).unwrap_or(LogicalOperator::Or),
            }),
            AstType::ConditionalExpression => Ok(Kind::ConditionalExpression),
            AstType::AssignmentExpression => Ok(Kind::AssignmentExpression {
                operator: AssignmentOperator::from_text(self.word(0)).unwrap_or(
                    AssignmentOperator::Assign,
                ),
            }),
            AstType::SequenceExpression => Ok(Kind::SequenceExpression),
            AstType::MemberExpression => Ok(Kind::MemberExpression {
                computed: flag_at(self.flags, 0),
                optional: flag_at(self.flags, 1),
            }),
            AstType::CallExpression => Ok(Kind::CallExpression {
                optional: flag_at(self.flags, 0),
            }),
            AstType::NewExpression => Ok(Kind::NewExpression),
            AstType::ChainExpression => Ok(Kind::ChainExpression),
            AstType::ParenthesizedExpression => Ok(Kind::ParenthesizedExpression),
            AstType::MetaProperty => Ok(Kind::MetaProperty {
                meta: self.text(0)?,
                property: self.text(1)?,
            }),
            AstType::ObjectPattern => Ok(Kind::ObjectPattern),
            AstType::PatternProperty => Ok(Kind::PatternProperty {
                shorthand: flag_at(self.flags, 0),
                computed: flag_at(self.flags, 1),
            }),
            AstType::ArrayPattern => Ok(Kind::ArrayPattern),
            AstType::AssignmentPattern => Ok(Kind::AssignmentPattern),
            AstType::RestElement => Ok(Kind::RestElement),
            AstType::ObjectTarget => Ok(Kind::ObjectTarget),
            AstType::TargetProperty => Ok(Kind::TargetProperty {
                shorthand: flag_at(self.flags, 0),
                computed: flag_at(self.flags, 1),
            }),
            AstType::ArrayTarget => Ok(Kind::ArrayTarget),
            AstType::TargetWithDefault => Ok(Kind::TargetWithDefault),
            AstType::TargetRest => Ok(Kind::TargetRest),
        }
    }

    /// The text at this place, the empty text where there is none.
    fn word(&self, index: usize) -> &'a str
        ensures { result.now ≡ or_empty (slice_index_or (plain_texts self.now.texts.now) index None) }
    {
        let text = text_at(self.texts, index);
        text.unwrap_or("")
    }

    /// The text at this place as an owned text, the empty text where there is none.
    fn text(&self, index: usize) -> Result<String, AllocError>
        ensures { IfOk result (λ text. string_bytes text ≡ or_empty (slice_index_or (plain_texts self.now.texts.now) index None)) }
    {
        String::from_str(self.alloc, self.word(index))
    }

    /// The text at this place as an owned text, if there is one.
    fn optional_text(&self, index: usize) -> Result<Option<String>, AllocError>
        ensures { IfOk result (λ text. optional_text text ≡ slice_index_or (plain_texts self.now.texts.now) index None) }
    {
        let text = text_at(self.texts, index);
        copy_of_optional(self.alloc, text)
    }
}

/// The text at this place, if there is one.
fn text_at<'a>(texts: &[Option<&'a str>], index: usize) -> Option<&'a str>
    ensures { plain_text result ≡ slice_index_or (plain_texts texts.now) index None }
{
    texts.get(index).copied().flatten()
}

/// The truth value at this place, false past the last.
fn flag_at(flags: &[bool], index: usize) -> bool
    ensures { result ≡ slice_index_or flags.now index false }
{
    flags.get(index).copied().unwrap_or(false)
}

fn copy_of_optional(alloc: Global, text: Option<&str>) -> Result<Option<String>, AllocError>
    ensures { IfOk result (λ copy. optional_text copy ≡ plain_text text.entry) }
{
    match text {
        None => Ok(None),
        Some(text) => {
            let copy = String::from_str(alloc, text)?;
            Ok(Some(copy))
        }
    }
}
