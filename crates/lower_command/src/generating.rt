//! The job on a made script, of which only counts go out.
ghost use Rattle.std.specs.Prelude.{◌≡◌, ◌≤◌, IfErr, IfOk, None, length, string_bytes};
ghost use Rattle.es_tree.specs.Capped.{capped};
ghost use Rattle.es_tree.specs.Options.{first_fault};
ghost use Rattle.es_tree.specs.Tree.{tree_size};
ghost use Rattle.lower_driver.specs.UnsupportedPrograms.{IsTreeCauseOrMemory};
ghost use Rattle.lower_command.specs.Answer.{generated_line};
ghost use Rattle.lower_command.specs.Generated.{generated};
ghost use Rattle.lower_command.specs.Job.{IsGeneratedLine};

use crate::generated::generate_program;
use es_nodes::count::count_nodes;
use es_tree::error::LowerError;
use es_tree::options::EnvOptions;
use lower_driver::driver::{LoweredTree, lower_tree};
use std::alloc::{AllocError, Global};

/// The line of counts for the made script of this many statements, lowered as the options ask.
///
/// Fails with `Option` where the options ask for what isn't done, and with `OutOfMemory` where memory runs out.
pub fn generated_line(alloc: Global, count: u32, options: &EnvOptions) -> Result<String, LowerError>
    requires { count ≤ 20000 }
    ensures options { IfOk result (λ _. first_fault options.now ≡ None) }
    ensures line { IfOk result (λ line. IsGeneratedLine options.now count (string_bytes line)) }
    ensures cause { IfErr result (λ error. IsTreeCauseOrMemory options.now (generated count) error) }
{
    let read = generate_program(alloc, count)?;
    let before = count_nodes(&read.program);
    let lowered = lower_tree(alloc, read, options)?;
    let line = count_line(alloc, count, before, &lowered)?;
    Ok(line)
}

/// The line of counts, where a script of this many statements has so many nodes and becomes this. Fails only where memory runs out.
fn count_line(
    alloc: Global,
    count: u32,
    before: u64,
    lowered: &LoweredTree,
) -> Result<String, AllocError>
    ensures { IfOk result (λ line. string_bytes line
        ≡ generated_line count before (capped (tree_size lowered.now.program)) (length lowered.now.temporaries.items) (length lowered.now.warnings.items)) }
{
    let after = count_nodes(&lowered.program);
    let temporaries = lowered.temporaries.len();
    let warnings = lowered.warnings.len();
    format!(in alloc;
        "generated {count} nodes {before} to {after} temporaries {temporaries} warnings {warnings}\n"
    )
}
