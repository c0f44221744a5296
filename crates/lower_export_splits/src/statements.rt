//! The statements of a program, with two in the place of each export of a declaration with an object rest.
//!
//! Before:
//!
//!     f(); export const { a, ...b } = c; g();
//!
//! After:
//!
//!     f(); const { a, ...b } = c; export { a, b }; g();
//!
//! The rule is `split_list` of es_export_splits.
ghost use Rattle.std.specs.Prelude.{◌≡◌, IfOk, OnOk};
ghost use Rattle.es_tree.specs.Tree.{empty, trees, ◌before◌};
ghost use Rattle.es_steps.specs.Nodes.{joined_trees};
ghost use Rattle.es_export_splits.specs.Splits.{plainly, some_split, split_list};

use crate::exports::{declaration_and_export, is_split};
use es_tree::node::Node;
use std::alloc::{AllocError, Global};

/// Whether one of these statements is such an export.
pub(crate) fn any_split(statements: &[Node]) -> bool
    ensures { result ≡ some_split (trees statements.now) }
{
    statements.iter().any(|statement| is_split(statement))
}

/// These statements, each such export split.
pub(crate) fn split_statements(
    statements: Vec<Node>,
    alloc: Global,
) -> Result<Vec<Node>, AllocError>
    ensures { IfOk result (λ split. trees split.items ≡ split_list plainly (trees statements.items)) }
{
    let mut split = Vec::with_capacity(alloc, statements.len())?;
    for statement in statements {
        split_statement(statement, &mut split, alloc)?;
    }
    Ok(split)
}

/// Puts this statement behind what is split, or the two that such an export becomes.
fn split_statement(statement: Node, split: &mut Vec<Node>, alloc: Global) -> Result<(), AllocError>
    ensures { OnOk result (trees split.new.items ≡ joined_trees (trees split.old.items) (split_list plainly (statement before empty))) }
{
    if !is_split(&statement) {
        split.push(statement)?;
        return Ok(());
    }
    let (declaration, export) = declaration_and_export(statement, alloc)?;
    split.push(declaration)?;
    split.push(export)?;
    Ok(())
}
