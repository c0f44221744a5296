//! The statements at the top of a module: which stay outside the `try`, what an export exports, and which default exports take a name.
//!
//! | source | stays outside | takes a name |
//! |---|---|---|
//! | `function f() {}`, `export default function () {}` | yes | no |
//! | `export { a };`, `import a from "b";` | yes | no |
//! | `export default class A {}` | no | no |
//! | `export default class {}`, `export default a;` | no | yes |
//! | `export class A {}`, `const a = b;` | no | no |
ghost use Rattle.std.specs.Prelude.{◌≡◌, option_copied};
ghost use Rattle.es_tree.specs.Tree.{trees};
ghost use Rattle.es_tree.specs.Views.{plain_fields};
ghost use Rattle.es_using_modules.specs.ModuleTops.{is_function, is_named_default, some_default, stays_outside, takes_name};
ghost use Rattle.lower_using_modules.specs.Parts.{class_name, default_of, export_stays, named_of};

use es_tree::kind::Kind;
use es_tree::node::{Field, Node};

/// Whether the statement stays outside: a function, also an exported one, an import, or an export of what is declared elsewhere.
pub(crate) fn stays_outside(statement: &Node) -> bool
    ensures { result ≡ stays_outside statement.now }
{
    match &statement.kind {
        Kind::FunctionDeclaration { .. } | Kind::ImportDeclaration | Kind::ExportAllDeclaration => {
            true
        }
        Kind::ExportNamedDeclaration => export_stays(statement.fields.as_slice()),
        Kind::ExportDefaultDeclaration => match statement.child_at(0) {
            Some(exported) => is_function(exported),
            None => false,
        },
        _ => false,
    }
}

/// Whether an export of these fields stays: `export { a };`, `export function f() {}`.
fn export_stays(fields: &[Field]) -> bool
    ensures { result ≡ export_stays (plain_fields fields.now) }
{
    match fields {
        [declaration, ..] => match declaration {
            Field::Missing => true,
            Field::One(declaration) => is_function(declaration),
            _ => false,
        },
        [] => false,
    }
}

fn is_function(node: &Node) -> bool
    ensures { result ≡ is_function node.now }
{
    matches!(&node.kind, Kind::FunctionDeclaration { .. })
}

/// `const a = b` of `export const a = b;`.
pub(crate) fn named_of(statement: &Node) -> Option<&Node>
    ensures { option_copied result ≡ named_of statement.now }
{
    match &statement.kind {
        Kind::ExportNamedDeclaration => statement.child_at(0),
        _ => None,
    }
}

/// `a` of `export default a;`.
pub(crate) fn default_of(statement: &Node) -> Option<&Node>
    ensures { option_copied result ≡ default_of statement.now }
{
    match &statement.kind {
        Kind::ExportDefaultDeclaration => statement.child_at(0),
        _ => None,
    }
}

/// `A` of `class A {}`.
pub(crate) fn class_name(node: &Node) -> Option<&Node>
    ensures { option_copied result ≡ class_name node.now }
{
    match &node.kind {
        Kind::ClassDeclaration { .. } => node.child_at(0),
        _ => None,
    }
}

/// Whether one of these statements is a default export that takes a name.
pub(crate) fn some_default(statements: &[Node]) -> bool
    ensures { result ≡ some_default (trees statements.now) }
{
    statements
        .iter()
        .any(|statement| is_named_default(statement))
}

fn is_named_default(statement: &Node) -> bool
    ensures { result ≡ is_named_default statement.now }
{
    match default_of(statement) {
        Some(exported) => takes_name(exported),
        None => false,
    }
}

/// Whether what is exported as default takes a name: it is no function, and no class with a name.
fn takes_name(exported: &Node) -> bool
    ensures { result ≡ takes_name exported.now }
{
    class_name(exported).is_none() && !is_function(exported)
}
