//! An export of a namespace, and the two statements that take its place (ECMA-262, 16.2.3).
ghost use Rattle.std.specs.Prelude.{◌≡◌, ◌+◌, ◌-◌, ◌<◌, ◌^◌, IfOk, true};
ghost use Rattle.es_tree.specs.Tree.{fields_of, kind_of, label_of};
ghost use Rattle.es_tree.specs.Views.{plain_fields};
ghost use Rattle.lower_temporaries.specs.Takings.{moment_of};
ghost use Rattle.lower_namespace_exports.specs.Exports.{is_lowerable_export, is_whole};
ghost use Rattle.lower_namespace_exports.specs.Lowered.{Splits};

use crate::names::new_import_name;
use crate::nodes::{export_as, namespace_import};
use es_patterns::modules::ExportAllDeclaration;
use es_scope::context::TraverseCtx;
use es_tree::kind::Kind;
use es_tree::node::{Field, Node};
use es_tree::sorts::Statement;
use lower_temporaries::readings::read_once_more;
use lower_temporaries::state::TransformState;
use std::alloc::AllocError;

/// Whether the fields are a name, a module and its attributes.
fn is_whole(fields: &[Field]) -> bool
    ensures { result ≡ is_whole (plain_fields fields.now) }
{
    matches!(fields, [Field::One(..), Field::One(..), Field::Many(..)])
}

/// Whether the statement is an export of a namespace.
pub(crate) fn is_lowerable(node: &Node) -> bool
    ensures { result ≡ is_lowerable_export (kind_of node.now) (label_of node.now) (fields_of node.now) }
{
    match &node.kind {
        Kind::ExportAllDeclaration => is_whole(node.fields.as_slice()),
        _ => false,
    }
}

/// `import * as _n from "m" with { .. }` and `export { _n as n }`, in the place of `export * as n from "m" with { .. }`.
pub(crate) fn import_and_export(
    statement: Statement,
    ctx: &mut TraverseCtx<TransformState>,
) -> Result<(Statement, Statement), AllocError>
    requires export { is_lowerable_export (kind_of statement) (label_of statement) (fields_of statement) ≡ true }
    requires room { ctx.old.ast.next + 5 < 2 ^ 32 - 1 }
    ensures split { IfOk result (λ made. Splits (moment_of ctx.old) statement (moment_of ctx.new) made.0 made.1) }
{
    let ExportAllDeclaration {
        id,
        span,
        exported,
        source,
        attributes,
    } = ExportAllDeclaration::open(statement);
    let exported = match exported {
        Some(exported) => exported,
        None => unreachable!(),
    };
    let local = new_import_name(&exported, ctx)?;
    let read = read_once_more(&local, ctx)?;
    let import = namespace_import(id, span, local, source, attributes, &mut ctx.ast)?;
    let export = export_as(read, exported, &mut ctx.ast)?;
    Ok((import, export))
}
