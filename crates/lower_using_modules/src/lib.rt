//! `using` at the top of a module (Explicit Resource Management, 14.3.1; ECMA-262, 16.2): the statements of the program move into a `try` with a context
//! that disposes of the values at the end. Functions, imports and exports of what is declared elsewhere stay in front of it.
//!
//! What moves is declared by `var`, and so by the module as before. An export of it stays outside, in the place of the statement.
//!
//! | source | outside | in the `try` |
//! |---|---|---|
//! | `using a = b;` | | `var a = _usingCtx.u(b);` |
//! | `let a = b;`, `const a = b;`, `var a = b;` | | `var a = b;` |
//! | `class A {}` | | `var A = class A {};` |
//! | `f(a);` | | `f(a);` |
//! | `export const a = b, { c } = d;` | `export { a, c };` | `var a = b, { c } = d;` |
//! | `export class A {}` | `export { A };` | `var A = class A {};` |
//! | `export default a;` | `export { _default as default };` | `var _default = a;` |
//! | `export default class {}` | `export { _default as default };` | `var _default = class {};` |
//! | `export default class A {}` | `export { A as default };` | `var A = class A {};` |
//! | `function f() {}`, `export function f() {}`, `export default function () {}` | as it is | |
//! | `import a from "b";`, `export { a };`, `export * from "b";` | as it is | |
//!
//! Before:
//!
//!     using file = open(path);
//!     export const text = read(file);
//!
//! After:
//!
//!     export { text };
//!     try { var _usingCtx = babelHelpers.usingCtx(); var file = _usingCtx.u(open(path)); var text = read(file); } catch (_) { _usingCtx.e = _; } finally { _usingCtx.d(); }
//!
//! The program is as it was read, and so is what it becomes: what is made has no marks of the scope tables. It has the id of the name, of the value or of the
//! statement that it is made for, and what belongs to the `try` that of the program, so that a refusal that is told at a made node names a node of the source.
//!
//! Its rule is `topped` of es_using_modules.
#![tactic(auto)]

ghost use Rattle.std.specs.Prelude.{◌≡◌, IfOk, map, string_bytes, true};
ghost use Rattle.es_tree.specs.Views.{plain_fields};
ghost use Rattle.es_steps.specs.CoreBridge.{first_whole};
ghost use Rattle.es_using_modules.specs.ModuleTops.{TopsTo, has_default, topped, uses_at_top};
ghost use Rattle.lower_using_modules.specs.Parts.{hold_default, hold_using, making};

mod declarations;
mod exports;
mod kinds;
mod lists;
mod names;

use crate::kinds::some_default;
use crate::lists::part_statements;
use crate::names::{context_name, make_names, name_at};
use es_statements::program::Program;
use es_tree::kind::Kind;
use es_tree::node::{Field, Node};
use lower_fresh_names::new_generator;
use lower_using::places::uses_in_list;
use lower_using::tries::new_try;
use std::alloc::{AllocError, Global};

/// Whether the program's list declares by `using`, each with a value. That of a script can't (14.3.1.1).
pub fn uses_at_top(program: &Node) -> bool
    ensures { result ≡ uses_at_top program.now }
{
    match &program.kind {
        Kind::Program { .. } => hold_using(program.fields.as_slice()),
        _ => false,
    }
}

/// Whether these are the fields of a program, the list of which declares so.
fn hold_using(fields: &[Field]) -> bool
    ensures { result ≡ hold_using (plain_fields fields.now) }
{
    match fields {
        [Field::Many(..), Field::Statements(statements)] => uses_in_list(statements.as_slice()),
        _ => false,
    }
}

/// The program with the `using` at its top lowered, and the names in the order made: that of its default export, if it takes one, and the context's. Fails only
/// for want of memory.
pub fn lower_module(alloc: Global, program: Node) -> Result<(Node, Vec<String>), AllocError>
    requires { uses_at_top program ≡ true }
    ensures { IfOk result (λ made. TopsTo (first_whole program).in_use program made.0 (map string_bytes made.1.items)) }
{
    let named = has_default(&program);
    let uids = new_generator(alloc, &program)?;
    let names = make_names(uids, named)?;
    let default = name_at(names.as_slice(), 0);
    let context = context_name(names.as_slice(), named);
    let lowered = lower_program(program, default, context, alloc)?;
    Ok((lowered, names))
}

/// `export { c }; try { .. var a = _usingCtx.u(b); var c = 1; } ..` for `using a = b; export const c = 1;`.
fn lower_program(
    program: Node,
    default: &str,
    context: &str,
    alloc: Global,
) -> Result<Node, AllocError>
    requires { uses_at_top program ≡ true }
    ensures { IfOk result (λ lowered. lowered ≡ topped (making default.now context.now) program) }
{
    let Program {
        id,
        span,
        source_type,
        scope,
        directives,
        body: statements,
    } = Program::open(program);
    let (outside, inside) = part_statements(statements, default, context, alloc)?;
    let tried = new_try(id, context, inside, alloc)?;
    let mut body = outside;
    body.push(tried)?;
    let lowered = Program {
        id,
        span,
        source_type,
        scope,
        directives,
        body,
    };
    lowered.close(alloc)
}

/// Whether a default export stands in the program that takes a name.
fn has_default(program: &Node) -> bool
    ensures { result ≡ has_default program.now }
{
    match &program.kind {
        Kind::Program { .. } => hold_default(program.fields.as_slice()),
        _ => false,
    }
}

/// Whether these are the fields of a program in which one stands.
fn hold_default(fields: &[Field]) -> bool
    ensures { result ≡ hold_default (plain_fields fields.now) }
{
    match fields {
        [Field::Many(..), Field::Statements(statements)] => some_default(statements.as_slice()),
        _ => false,
    }
}
