//! Statements that are put before the first statement of a list that is no import (ECMA-262, 16.2).
ghost use Rattle.std.specs.Prelude.{◌≡◌, ◌≤◌, OnOk, length};
ghost use Rattle.es_steps.specs.Open.{is_import};
ghost use Rattle.lower_writing.specs.Lists.{imports_before, with_statement};

use es_tree::kind::Kind;
use es_tree::node::Node;
use es_tree::sorts::Statement;
use std::alloc::AllocError;

/// How many imports stand before the first statement that is none.
pub fn imports_before(statements: &[Node]) -> usize
    ensures { result ≡ imports_before statements.now }
{
    for (index, statement) in statements.iter().enumerate() {
        if !is_import(statement) {
            return index;
        }
    }
    statements.len()
}

fn is_import(statement: &Node) -> bool
    ensures { result ≡ is_import statement.now }
{
    matches!(statement.kind, Kind::ImportDeclaration { .. })
}

/// Puts a statement, if there is one, at this place.
pub fn put_at(
    statements: &mut Vec<Statement>,
    index: usize,
    statement: Option<Statement>,
) -> Result<(), AllocError>
    requires { index ≤ length statements.old.items }
    ensures { OnOk result (statements.new.items ≡ with_statement index statement statements.old.items) }
{
    if let Some(statement) = statement {
        statements.insert(index, statement)?;
    }
    Ok(())
}
