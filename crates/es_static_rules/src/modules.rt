//! The static rules of imports and exports.
ghost use Rattle.std.specs.Prelude.{◌≡◌, ◌&&◌, bytes_eq, codes};
ghost use Rattle.es_tree.specs.Ancestors.{is_module, is_module_top, is_script_top};
ghost use Rattle.es_tree.specs.HasForm.{same_type};
ghost use Rattle.es_tree.specs.Names.{first_text, third_stands};
ghost use Rattle.es_tree.specs.StaticRules.{any_has_node, has_no_name, has_node, is_bad_export, is_crowded_export, is_local_export, is_misplaced_module_item, is_module_item};
ghost use Rattle.es_tree.specs.Tree.{fields, fields_of, kind_of, label_of};
ghost use Rattle.es_tree.specs.Views.{plain_field, plain_fields};
ghost use Rattle.es_static_rules.specs.Checks.{IsAnswer};
ghost use Rattle.es_static_rules.specs.Outward.{outward};
ghost use Rattle.es_static_rules.specs.Parts.{is_in_local_export};

use crate::ancestors::{Ancestor, split_parent, stands_in};
use crate::known_names::{KnownNames, is_declared};
use es_tree::ast_type::AstType;
use es_tree::kind::Kind;
use es_tree::node::{Field, Node};
use es_tree::operators::SourceType;
use es_tree::place::Namespace;

/// Whether the program around is a module.
pub(crate) fn is_module(ancestors: &[Ancestor]) -> bool
    ensures { result ≡ is_module (outward ancestors.now) }
{
    match split_parent(ancestors) {
        Some((parent, outer)) => is_module_program(parent.node) || is_module(outer),
        None => false,
    }
}

fn is_module_program(node: &Node) -> bool
    ensures { result ≡ (same_type (kind_of node.now) AstType.Program && bytes_eq (first_text (label_of node.now).texts) (codes "module")) }
{
    match &node.kind {
        Kind::Program { source_type, .. } => matches!(source_type, SourceType::Module),
        _ => false,
    }
}

/// Whether this is directly in the body of a module.
fn is_module_top(ancestors: &[Ancestor]) -> bool
    ensures { result ≡ is_module_top (outward ancestors.now) }
{
    stands_in(ancestors, AstType::Program, 1) && is_module(ancestors)
}

/// Whether this is directly in the body of a script.
pub(crate) fn is_script_top(ancestors: &[Ancestor]) -> bool
    ensures { result ≡ is_script_top (outward ancestors.now) }
{
    stands_in(ancestors, AstType::Program, 1) && !is_module(ancestors)
}

/// Whether the node is an import or an export that isn't directly in the body of a module (ECMA-262,
/// 16.2).
pub(crate) fn is_misplaced_module_item(ancestors: &[Ancestor], node: &Node) -> bool
    ensures { result ≡ is_misplaced_module_item (outward ancestors.now) node.now }
{
    is_module_item(node) && !is_module_top(ancestors)
}

fn is_module_item(node: &Node) -> bool
    ensures { result ≡ is_module_item (kind_of node.now) }
{
    matches!(
        node.kind,
        Kind::ImportDeclaration
            | Kind::ExportNamedDeclaration
            | Kind::ExportDefaultDeclaration
            | Kind::ExportAllDeclaration
    )
}

/// Whether the node is an export that has no meaning, or a declaration without a name that isn't exported
/// as the default (ECMA-262, 16.2.3.1), where the program declares all these names.
pub(crate) fn is_bad_export(all: &KnownNames, ancestors: &[Ancestor], node: &Node) -> bool
    ensures { IsAnswer all.now (λ names. is_bad_export names (outward ancestors.now) node.now) result }
{
    match &node.kind {
        Kind::ExportNamedDeclaration => is_crowded_export(node),
        Kind::FunctionDeclaration { .. } | Kind::ClassDeclaration { .. } => {
            has_no_name(node) && !stands_in(ancestors, AstType::ExportDefaultDeclaration, 0)
        }
        Kind::StringLiteral { .. } => is_local_export(ancestors),
        Kind::Identifier { name, .. } => {
            is_local_export(ancestors) && !is_declared(all, Namespace::Scope, 0, name.as_str())
        }
        _ => false,
    }
}

/// Whether the local name of an export without a source stands here.
fn is_local_export(ancestors: &[Ancestor]) -> bool
    ensures { result ≡ is_local_export (outward ancestors.now) }
{
    match split_parent(ancestors) {
        Some((specifier, outer)) => {
            specifier.leads_by(AstType::ExportSpecifier, 0) && is_in_local_export(outer)
        }
        None => false,
    }
}

/// Whether a specifier of an export without a source stands here.
fn is_in_local_export(ancestors: &[Ancestor]) -> bool
    ensures { result ≡ is_in_local_export (outward ancestors.now) }
{
    match split_parent(ancestors) {
        Some((export, _)) => {
            export.leads_by(AstType::ExportNamedDeclaration, 1) && export.node.child_at(2).is_none()
        }
        None => false,
    }
}

/// Whether an export has specifiers, a source or attributes beside a declaration.
fn is_crowded_export(export: &Node) -> bool
    ensures { result ≡ is_crowded_export (fields_of export.now) }
{
    match export.fields.split_first() {
        Some((Field::One(_), others)) => any_has_node(others),
        _ => false,
    }
}

fn any_has_node(fields: &[Field]) -> bool
    ensures { result ≡ any_has_node (plain_fields fields.now) }
{
    for field in fields {
        if has_node(field) {
            return true;
        }
    }
    false
}

/// Whether the field has a node that is no statement.
fn has_node(field: &Field) -> bool
    ensures { result ≡ has_node (plain_field field.now) }
{
    match field {
        Field::One(_) => true,
        Field::Many(nodes) => !nodes.is_empty(),
        _ => false,
    }
}

/// Whether a function or a class has no name.
fn has_no_name(node: &Node) -> bool
    ensures { result ≡ has_no_name (fields_of node.now) }
{
    node.child_at(0).is_none()
}
