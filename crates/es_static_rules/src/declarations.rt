//! The static rules of declarations and of rests of objects.
ghost use Rattle.std.specs.Prelude.{◌≡◌, bytes_eq, codes};
ghost use Rattle.es_tree.specs.StaticRules.{binds_name, has_pattern, has_value, is_bad_for, is_bad_rest, is_bad_using, is_declaration, is_lone_body, is_lone_declarator, is_misplaced_declaration};
ghost use Rattle.es_tree.specs.Tree.{kind_of, label_of, trees};
ghost use Rattle.es_tree.specs.Words.{variable_declaration_kind_text};
ghost use Rattle.es_static_rules.specs.Outward.{outward};
ghost use Rattle.es_static_rules.specs.Parts.{is_misplaced_using, is_part_of};

use crate::ancestors::{Ancestor, split_parent, stands_in};
use crate::modules::is_script_top;
use crate::places::is_lexical;
use crate::rules::{is_name, is_simple_target};
use es_tree::ast_type::AstType;
use es_tree::kind::Kind;
use es_tree::node::{Field, Node};
use es_tree::operators::VariableDeclarationKind;
use es_tree::parens::strip_parens;

/// Whether the node is a `using` declaration with a pattern or where none may stand (Explicit Resource
/// Management).
pub(crate) fn is_bad_using(ancestors: &[Ancestor], node: &Node) -> bool
    ensures { result ≡ is_bad_using (outward ancestors.now) node.now }
{
    match &node.kind {
        Kind::VariableDeclaration { kind } => match node.fields.first() {
            Some(Field::Many(declarators)) => {
                is_using(*kind) && (has_pattern(declarators) || is_misplaced_using(ancestors))
            }
            _ => false,
        },
        _ => false,
    }
}

fn is_using(kind: VariableDeclarationKind) -> bool
    ensures { result ≡ bytes_eq (variable_declaration_kind_text kind) (codes "using") }
{
    matches!(kind, VariableDeclarationKind::Using)
}

/// Whether no `using` may stand here.
fn is_misplaced_using(ancestors: &[Ancestor]) -> bool
    ensures { result ≡ is_misplaced_using (outward ancestors.now) }
{
    is_script_top(ancestors)
        || stands_in(ancestors, AstType::ForInStatement, 0)
        || stands_in(ancestors, AstType::ExportNamedDeclaration, 0)
}

/// Whether one of the declarators has a pattern.
fn has_pattern(declarators: &[Node]) -> bool
    ensures { result ≡ has_pattern (trees declarators.now) }
{
    for declarator in declarators {
        if !binds_name(declarator) {
            return true;
        }
    }
    false
}

fn binds_name(declarator: &Node) -> bool
    ensures { result ≡ binds_name declarator.now }
{
    is_name(declarator.child_at(0))
}

/// Whether the node is a declaration in the head of a for-in or for-of with other than one declarator, or
/// with a value (ECMA-262, 14.7.5).
pub(crate) fn is_bad_for(ancestors: &[Ancestor], node: &Node) -> bool
    ensures { result ≡ is_bad_for (outward ancestors.now) node.now }
{
    match &node.kind {
        Kind::VariableDeclaration { .. } => match node.fields.first() {
            Some(Field::Many(declarators)) => {
                (stands_in(ancestors, AstType::ForInStatement, 0)
                    || stands_in(ancestors, AstType::ForOfStatement, 0))
                    && !is_lone_declarator(declarators)
            }
            _ => false,
        },
        _ => false,
    }
}

/// Whether there is one declarator, without a value.
fn is_lone_declarator(declarators: &[Node]) -> bool
    ensures { result ≡ is_lone_declarator (trees declarators.now) }
{
    match declarators {
        [declarator] => !has_value(declarator),
        _ => false,
    }
}

fn has_value(declarator: &Node) -> bool
    ensures { result ≡ has_value declarator.now }
{
    declarator.child_at(1).is_some()
}

/// Whether the node is the argument of an object rest, and no name or member (ECMA-262, 13.15.5, 14.3.3).
pub(crate) fn is_bad_rest(ancestors: &[Ancestor], node: &Node) -> bool
    ensures { result ≡ is_bad_rest (outward ancestors.now) node.now }
{
    match split_parent(ancestors) {
        Some((rest, outer)) => {
            (rest.leads_by(AstType::RestElement, 0)
                && is_part_of(outer, AstType::ObjectPattern)
                && !is_name(Some(node)))
                || (rest.leads_by(AstType::TargetRest, 0)
                    && is_part_of(outer, AstType::ObjectTarget)
                    && !is_simple_target(strip_parens(node)))
        }
        None => false,
    }
}

/// Whether the parent is of this kind.
fn is_part_of(ancestors: &[Ancestor], kind: AstType) -> bool
    ensures { result ≡ is_part_of kind (outward ancestors.now) }
{
    match split_parent(ancestors) {
        Some((parent, _)) => parent.is(kind),
        None => false,
    }
}

/// Whether the node is a declaration that stands as the body of an `if`, a loop or a label (ECMA-262, 14).
pub(crate) fn is_misplaced_declaration(ancestors: &[Ancestor], node: &Node) -> bool
    ensures { result ≡ is_misplaced_declaration (outward ancestors.now) node.now }
{
    is_declaration(node) && is_lone_body(ancestors)
}

/// Whether the node is a declaration, but by `var`.
fn is_declaration(node: &Node) -> bool
    ensures { result ≡ is_declaration (kind_of node.now) (label_of node.now) }
{
    match &node.kind {
        Kind::VariableDeclaration { kind } => is_lexical(*kind),
        Kind::FunctionDeclaration { .. } | Kind::ClassDeclaration { .. } => true,
        _ => false,
    }
}

/// Whether the body of an `if`, a loop or a label stands here.
fn is_lone_body(ancestors: &[Ancestor]) -> bool
    ensures { result ≡ is_lone_body (outward ancestors.now) }
{
    stands_in(ancestors, AstType::IfStatement, 1)
        || stands_in(ancestors, AstType::IfStatement, 2)
        || stands_in(ancestors, AstType::ForStatement, 3)
        || stands_in(ancestors, AstType::ForInStatement, 2)
        || stands_in(ancestors, AstType::ForOfStatement, 2)
        || stands_in(ancestors, AstType::WhileStatement, 1)
        || stands_in(ancestors, AstType::DoWhileStatement, 0)
        || stands_in(ancestors, AstType::LabeledStatement, 1)
}
