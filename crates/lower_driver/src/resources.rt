//! `using`, before constructs are lowered in place: it moves out of heads of loops, and is lowered, at last at the top of a module, so that a `try` disposes
//! of its resources.
ghost use Rattle.std.specs.Prelude.{◌≡◌, ◌&&◌, IfOk, map, string_bytes};
ghost use Rattle.es_using_modules.specs.ModuleTops.{uses_at_top};
ghost use Rattle.lower_driver.specs.Tops.{Tops};
ghost use Rattle.lower_driver.specs.Uses.{Heads, Uses, lowers_using, using_there};

use es_bound_names::binds_name;
use es_json::program::ReadProgram;
use es_searches::{Sought, has_node};
use es_tree::node::Node;
use es_tree::options::EnvOptions;
use lower_using_modules::{lower_module, uses_at_top};
use std::alloc::{AllocError, Global};

/// Whether a `using` stands that is to be lowered: in a program that doesn't bind `babelHelpers`.
pub(crate) fn asks_for_using(program: &Node, options: &EnvOptions) -> bool
    ensures { result ≡ lowers_using options.now program.now }
{
    finds_using(program, options) && !binds_name(program, "babelHelpers")
}

/// Moves `using` out of the heads of loops of a program, where it is to be lowered. Answers the names that were made.
/// Fails only for want of memory.
pub(crate) fn move_heads(
    alloc: Global,
    read: ReadProgram,
    asked: bool,
) -> Result<(ReadProgram, Vec<String>), AllocError>
    ensures heads { IfOk result (λ made. Heads asked read.program made.0.program (map string_bytes made.1.items)) }
    ensures next { IfOk result (λ made. made.0.ast.next ≡ read.ast.next) }
{
    if !asked {
        return Ok((read, Vec::new(alloc)));
    }
    let ReadProgram { program, ast } = read;
    let (program, names) = lower_using_heads::move_heads(alloc, program)?;
    Ok((ReadProgram { program, ast }, names))
}

/// Lowers the `using` of a program, where that is asked for. Answers the names that were made. Fails only for want of
/// memory.
pub(crate) fn lower_using(
    alloc: Global,
    read: ReadProgram,
    asked: bool,
) -> Result<(ReadProgram, Vec<String>), AllocError>
    ensures uses { IfOk result (λ made. Uses asked read.program made.0.program (map string_bytes made.1.items)) }
    ensures next { IfOk result (λ made. made.0.ast.next ≡ read.ast.next) }
{
    if !asked {
        return Ok((read, Vec::new(alloc)));
    }
    let ReadProgram { program, ast } = read;
    let (program, names) = lower_using::lower_using(alloc, program)?;
    Ok((ReadProgram { program, ast }, names))
}

/// Lowers the `using` at the top of a module, where that is asked for. Answers the names that were made. Fails only for want of
/// memory.
pub(crate) fn lower_top(
    alloc: Global,
    read: ReadProgram,
    asked: bool,
) -> Result<(ReadProgram, Vec<String>), AllocError>
    ensures tops { IfOk result (λ made. Tops (asked && uses_at_top read.program) read.program made.0.program (map string_bytes made.1.items)) }
    ensures next { IfOk result (λ made. made.0.ast.next ≡ read.ast.next) }
{
    if !(asked && uses_at_top(&read.program)) {
        return Ok((read, Vec::new(alloc)));
    }
    let ReadProgram { program, ast } = read;
    let (program, names) = lower_module(alloc, program)?;
    Ok((ReadProgram { program, ast }, names))
}

/// Whether a `using` stands that the options ask to lower.
fn finds_using(program: &Node, options: &EnvOptions) -> bool
    ensures { result ≡ using_there options.now program.now }
{
    options.es2026.explicit_resource_management && has_node(program, Sought::Using)
}
