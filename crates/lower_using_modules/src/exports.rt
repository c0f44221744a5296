//! The exports that are left outside the `try`, in the place of statements that move into it (ECMA-262, 16.2.3).
//!
//! Before:
//!
//!     export const a = b; export class C {} export default d;
//!
//! After:
//!
//!     export { a }; export { C }; export { _default as default };
//!
//! The rule is `left_outside` of es_using_modules.
ghost use Rattle.std.specs.Prelude.{◌≡◌, IfOk, OnOk};
ghost use Rattle.es_tree.specs.Tree.{empty, trees};
ghost use Rattle.es_tree.specs.Words.{Text};
ghost use Rattle.es_steps.specs.Nodes.{joined_trees};
ghost use Rattle.es_export_splits.specs.Splits.{plainly, specifiers};
ghost use Rattle.es_using_modules.specs.ModuleTops.{default_local, left_outside, names_declared};
ghost use Rattle.lower_export_splits.specs.Parts.{export_with};
ghost use Rattle.lower_using.specs.Parts.{of_id};
ghost use Rattle.lower_using_modules.specs.Parts.{default_export_with, making};

use crate::kinds::{class_name, default_of, named_of};
use crate::names::local_name;
use es_patterns::modules::ExportSpecifier;
use es_tree::ids::NodeId;
use es_tree::node::Node;
use lower_export_splits::exports::new_export;
use lower_export_splits::specifiers::{new_specifier, specifiers_of};
use lower_fresh_names::nodes::{MADE, id_of, new_name};
use std::alloc::{AllocError, Global};

/// Puts the export that a statement leaves behind what is left outside. Only an export leaves one.
pub(crate) fn leave_outside(
    statement: &Node,
    default: &str,
    left: &mut Vec<Node>,
    alloc: Global,
) -> Result<(), AllocError>
    ensures { OnOk result ((context : Text) → trees left.new.items ≡ joined_trees (trees left.old.items) (left_outside (making default.now context) statement.now empty)) }
{
    let id = id_of(statement);
    if let Some(declaration) = named_of(statement) {
        let export = export_declared(id, declaration, alloc)?;
        left.push(export)?;
        return Ok(());
    }
    if let Some(exported) = default_of(statement) {
        let export = export_default(id, exported, default, alloc)?;
        left.push(export)?;
        return Ok(());
    }
    Ok(())
}

/// `export { a, c };` for the declaration `const a = b, { c } = d`, with this id.
fn export_declared(id: NodeId, declaration: &Node, alloc: Global) -> Result<Node, AllocError>
    ensures { IfOk result (λ made. made ≡ export_with id.0 (specifiers plainly (names_declared declaration.now))) }
{
    let specifiers = specify_declared(declaration, alloc)?;
    new_export(id, specifiers, alloc)
}

/// `a, c` for `const a = b, { c } = d`, and `C` for `class C {}`.
fn specify_declared(declaration: &Node, alloc: Global) -> Result<Vec<Node>, AllocError>
    ensures { IfOk result (λ made. trees made.items ≡ specifiers plainly (names_declared declaration.now)) }
{
    match class_name(declaration) {
        Some(name) => {
            let specifier = new_specifier(name, alloc)?;
            let made = Vec::from_array(alloc, [specifier])?;
            Ok(made)
        }
        None => specifiers_of(declaration, alloc),
    }
}

/// `export { C as default };` for the class `class C {}`, and `export { _default as default };` for `a`, with this id.
fn export_default(
    id: NodeId,
    exported: &Node,
    default: &str,
    alloc: Global,
) -> Result<Node, AllocError>
    ensures { IfOk result (λ made. (context : Text) → made ≡ default_export_with id.0 (default_local (making default.now context) (of_id id.0) exported.now)) }
{
    let local = local_name(id, exported, default, alloc)?;
    let word = new_name(id, "default", alloc)?;
    let specifier = ExportSpecifier {
        id,
        span: MADE,
        local,
        exported: word,
    };
    let made = specifier.close(alloc)?;
    new_export(id, Vec::from_array(alloc, [made])?, alloc)
}
