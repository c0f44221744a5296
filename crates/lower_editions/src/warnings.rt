//! The warnings of ECMAScript 2020: what its options ask for and no lowering can take away.
ghost use Rattle.std.specs.Prelude.{◌≡◌, ◌++◌, IfOk, OnOk};
ghost use Rattle.es_tree.specs.Heads.{head_of};
ghost use Rattle.es_tree.specs.Views.{plain_field};
ghost use Rattle.lower_editions.specs.Warnings.{holds_module_name, warning_kind, warnings_of};
ghost use Rattle.lower_editions.specs.WarningWalk.{walked, walked_field};

use crate::es2020::ES2020;
use es_tree::kind::Kind;
use es_tree::node::{Field, Node};
use es_tree::options::ES2020Options;
use lower_temporaries::warning::{Warning, WarningKind};
use std::alloc::{AllocError, Global};

impl ES2020 {
    /// The warnings that the options ask for, in node order: one for each BigInt literal of the program
    /// (ECMA-262, 12.9.3), and one for each string that is an `imported`, `local` or `exported` name of an
    /// import or an export (16.2), with their spans. Fails where memory runs out.
    pub fn warnings(
        alloc: Global,
        options: &ES2020Options,
        program: &Node,
    ) -> Result<Vec<Warning>, AllocError>
        ensures { IfOk result (λ warnings. warnings.items ≡ warnings_of options.now program.now) }
    {
        let mut warnings = Vec::new(alloc);
        if options.big_int || options.arbitrary_module_namespace_names {
            push_warnings(options, program, false, &mut warnings)?;
        }
        Ok(warnings)
    }
}

/// Adds the warnings of a tree, which stands as a name of an import or an export or not.
#[cycle(walk)]
fn push_warnings(
    options: &ES2020Options,
    node: &Node,
    is_name: bool,
    warnings: &mut Vec<Warning>,
) -> Result<(), AllocError>
    ensures { OnOk result (warnings.new.items ≡ warnings.old.items ++ walked options.now is_name node.now) }
{
    if let Some(kind) = warning_kind(options, &node.kind, is_name) {
        warnings.push(Warning {
            kind,
            span: node.span,
        })?;
    }
    for (index, field) in node.fields.iter().enumerate() {
        push_warnings_in(
            options,
            field,
            holds_module_name(&node.kind, index),
            warnings,
        )?;
    }
    Ok(())
}

#[cycle(walk)]
fn push_warnings_in(
    options: &ES2020Options,
    field: &Field,
    is_name: bool,
    warnings: &mut Vec<Warning>,
) -> Result<(), AllocError>
    ensures { OnOk result (warnings.new.items ≡ warnings.old.items ++ walked_field options.now is_name (plain_field field.now)) }
{
    match field {
        Field::Missing => {}
        Field::One(node) => push_warnings(options, node, is_name, warnings)?,
        Field::Many(nodes) | Field::Statements(nodes) => {
            for node in nodes {
                push_warnings(options, node, is_name, warnings)?;
            }
        }
    }
    Ok(())
}

/// What the options ask to warn of at a node of this kind, which stands as such a name or not.
fn warning_kind(options: &ES2020Options, kind: &Kind, is_name: bool) -> Option<WarningKind>
    ensures { result ≡ warning_kind options.now is_name (head_of kind.now).kind }
{
    match kind {
        Kind::BigIntLiteral { .. } if options.big_int => Some(WarningKind::BigInt),
        Kind::StringLiteral { .. } if is_name && options.arbitrary_module_namespace_names => {
            Some(WarningKind::ModuleName)
        }
        _ => None,
    }
}

/// Whether this field of a node of this kind holds a name of an import or an export (ECMA-262, 16.2).
fn holds_module_name(kind: &Kind, index: usize) -> bool
    ensures { result ≡ holds_module_name (head_of kind.now).kind index }
{
    match kind {
        Kind::ImportSpecifier | Kind::ExportAllDeclaration => index == 0,
        Kind::ExportSpecifier => index == 0 || index == 1,
        _ => false,
    }
}
