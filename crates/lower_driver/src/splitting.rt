//! What comes first of a run: exports of declarations with an object rest are split (ECMA-262, 16.2.3), so that what lowering them makes beside isn't
//! exported.
ghost use Rattle.std.specs.Prelude.{◌≡◌, IfOk};
ghost use Rattle.lower_driver.specs.Splits.{Splits, splits_exports};

use es_json::program::ReadProgram;
use es_tree::node::Node;
use es_tree::options::EnvOptions;
use lower_export_splits::has_split;
use std::alloc::{AllocError, Global};

/// Splits the exports of declarations with an object rest, where rests are asked for. Fails only for want of memory.
pub(crate) fn split_exports(
    alloc: Global,
    read: ReadProgram,
    options: &EnvOptions,
) -> Result<ReadProgram, AllocError>
    ensures splits { IfOk result (λ made. Splits (splits_exports options.now read.program) read.program made.program) }
    ensures next { IfOk result (λ made. made.ast.next ≡ read.ast.next) }
{
    if !asks_for_splits(&read.program, options) {
        return Ok(read);
    }
    let ReadProgram { program, ast } = read;
    let program = lower_export_splits::split_exports(alloc, program)?;
    Ok(ReadProgram { program, ast })
}

/// Whether such an export stands, and the options ask for rests.
fn asks_for_splits(program: &Node, options: &EnvOptions) -> bool
    ensures { result ≡ splits_exports options.now program.now }
{
    options.es2018.object_rest_spread.is_some() && has_split(program)
}
