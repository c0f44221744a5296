//! In a module the export of a declaration with an object rest becomes the declaration and an export of its names, so that the lowering of object rests finds
//! the declaration as it finds any other, and a temporary that it declares there isn't exported (ECMA-262, 16.2.3).
//!
//! | source | written |
//! |---|---|
//! | `export const { a, ...b } = c;` | `const { a, ...b } = c; export { a, b };` |
//! | `export const d = 1, { e: [f], ...g } = h;` | `const d = 1, { e: [f], ...g } = h; export { d, f, g };` |
//! | `export const [i] = j;` | as it is: it has no object rest |
//!
//! Before:
//!
//!     export const { name, ...others } = options;
//!
//! After:
//!
//!     const { name, ...others } = options;
//!     export { name, others };
//!
//! The program is as it was read, and so is what it becomes: what is made has no marks of the scope tables. A specifier and its two names have the id of the
//! name that they are made for, and the made export has that of the export, so that a refusal that is told at a made node names a node of the source.
//!
//! Its rule is `split` of es_export_splits.
#![tactic(auto)]

ghost use Rattle.std.specs.Prelude.{◌≡◌, IfOk, true};
ghost use Rattle.es_tree.specs.Views.{plain_fields};
ghost use Rattle.es_export_splits.specs.Splits.{has_split, plainly, split};
ghost use Rattle.lower_export_splits.specs.Parts.{hold_split};

pub mod exports;
pub mod specifiers;
mod statements;

use crate::statements::{any_split, split_statements};
use es_statements::program::Program;
use es_tree::kind::Kind;
use es_tree::node::{Field, Node};
use std::alloc::{AllocError, Global};

/// Whether an export of a declaration with an object rest stands in the program.
pub fn has_split(program: &Node) -> bool
    ensures { result ≡ has_split program.now }
{
    match &program.kind {
        Kind::Program { .. } => hold_split(program.fields.as_slice()),
        _ => false,
    }
}

/// Whether these are the fields of a program in which one stands.
fn hold_split(fields: &[Field]) -> bool
    ensures { result ≡ hold_split (plain_fields fields.now) }
{
    match fields {
        [Field::Many(..), Field::Statements(statements)] => any_split(statements.as_slice()),
        _ => false,
    }
}

/// The program, in which such an export stands, with the declaration and an export of its names in the place of each. Fails only for want of memory.
pub fn split_exports(alloc: Global, program: Node) -> Result<Node, AllocError>
    requires { has_split program ≡ true }
    ensures { IfOk result (λ split_program. split_program ≡ split plainly program) }
{
    let Program {
        id,
        span,
        source_type,
        scope,
        directives,
        body,
    } = Program::open(program);
    let body = split_statements(body, alloc)?;
    let split = Program {
        id,
        span,
        source_type,
        scope,
        directives,
        body,
    };
    split.close(alloc)
}
