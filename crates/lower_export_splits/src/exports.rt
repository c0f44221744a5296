//! An export of a declaration with an object rest, and the two statements that take its place (ECMA-262, 16.2.3).
//!
//! Before:
//!
//!     export const { a, ...b } = c;
//!
//! After:
//!
//!     const { a, ...b } = c; export { a, b };
//!
//! The rule is `split_before` of es_export_splits.
ghost use Rattle.std.specs.Prelude.{◌≡◌, IfOk, true};
ghost use Rattle.es_tree.specs.Tree.{empty, trees, ◌before◌};
ghost use Rattle.es_tree.specs.Views.{plain_field, plain_fields};
ghost use Rattle.es_export_splits.specs.Splits.{is_split, plainly, split_before};
ghost use Rattle.lower_export_splits.specs.Parts.{export_rest, export_with, hold_nothing, is_empty_list, is_missing};

use crate::specifiers::specifiers_of;
use es_patterns::modules::ExportNamedDeclaration;
use es_rest_nodes::strays::is_rest_declaration;
use es_tree::ids::NodeId;
use es_tree::kind::Kind;
use es_tree::node::{Field, Node};
use lower_fresh_names::nodes::MADE;
use std::alloc::{AllocError, Global};

/// Whether a statement is the export of a declaration with an object rest.
pub(crate) fn is_split(statement: &Node) -> bool
    ensures { result ≡ is_split statement.now }
{
    match &statement.kind {
        Kind::ExportNamedDeclaration => export_rest(statement.fields.as_slice()),
        _ => false,
    }
}

/// Whether these are the fields of such an export: its declaration, and nothing more.
fn export_rest(fields: &[Field]) -> bool
    ensures { result ≡ export_rest (plain_fields fields.now) }
{
    match fields {
        [Field::One(declaration), others @ ..] => {
            hold_nothing(others) && is_rest_declaration(declaration)
        }
        _ => false,
    }
}

/// Whether these hold no specifiers, no module and no attributes.
fn hold_nothing(fields: &[Field]) -> bool
    ensures { result ≡ hold_nothing (plain_fields fields.now) }
{
    match fields {
        [specifiers, source, attributes] => {
            is_empty_list(specifiers) && is_missing(source) && is_empty_list(attributes)
        }
        _ => false,
    }
}

fn is_empty_list(field: &Field) -> bool
    ensures { result ≡ is_empty_list (plain_field field.now) }
{
    match field {
        Field::Many(nodes) => nodes.is_empty(),
        _ => false,
    }
}

fn is_missing(field: &Field) -> bool
    ensures { result ≡ is_missing (plain_field field.now) }
{
    matches!(field, Field::Missing)
}

/// `const { a, ...b } = c;` and `export { a, b };`, in the place of `export const { a, ...b } = c;`.
pub(crate) fn declaration_and_export(
    statement: Node,
    alloc: Global,
) -> Result<(Node, Node), AllocError>
    requires { is_split statement ≡ true }
    ensures { IfOk result (λ made. split_before plainly statement empty ≡ (made.0 before made.1 before empty)) }
{
    let ExportNamedDeclaration {
        id,
        span: _span,
        declaration,
        specifiers: _none,
        source: _no_source,
        attributes: _no_attributes,
    } = ExportNamedDeclaration::open(statement);
    let declaration = match declaration {
        Some(declaration) => declaration,
        None => unreachable!(),
    };
    let specifiers = specifiers_of(&declaration, alloc)?;
    let made = new_export(id, specifiers, alloc)?;
    Ok((declaration, made))
}

/// `export { a, b };`. Fails only for want of memory.
pub fn new_export(id: NodeId, specifiers: Vec<Node>, alloc: Global) -> Result<Node, AllocError>
    ensures { IfOk result (λ made. made ≡ export_with id.0 (trees specifiers.items)) }
{
    let export = ExportNamedDeclaration {
        id,
        span: MADE,
        declaration: None,
        specifiers,
        source: None,
        attributes: Vec::new(alloc),
    };
    export.close(alloc)
}
