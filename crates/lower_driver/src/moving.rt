//! What comes once `using` is lowered: object patterns with a rest move to declarations of their own, in which their rest is taken.
ghost use Rattle.std.specs.Prelude.{◌≡◌, ◌&&◌, IfOk, is_some, map, string_bytes, true};
ghost use Rattle.es_tree.specs.HasForm.{has_form};
ghost use Rattle.es_tree.specs.Walks.{any_node};
ghost use Rattle.es_tree.specs.declared.table.Sort.TheVariants.{Program as s-Program};
ghost use Rattle.es_pattern_moves.specs.PatternMoves.{moves_pattern};
ghost use Rattle.lower_driver.specs.Moves.{Moves};

use es_json::program::ReadProgram;
use es_move_nodes::moves::has_moves;
use es_tree::node::Node;
use es_tree::options::EnvOptions;
use std::alloc::{AllocError, Global};

/// Moves the patterns of a program, where the options ask for the lowering of object rests and one moves. Answers the names that were made.
/// Fails only for want of memory.
pub(crate) fn move_patterns(
    alloc: Global,
    read: ReadProgram,
    options: &EnvOptions,
) -> Result<(ReadProgram, Vec<String>), AllocError>
    requires form { has_form s-Program read.program ≡ true }
    ensures moves { IfOk result (λ made. Moves (is_some options.now.es2018.object_rest_spread) read.program made.0.program (map string_bytes made.1.items)) }
    ensures next { IfOk result (λ made. made.0.ast.next ≡ read.ast.next) }
{
    if !asks_for_moves(&read.program, options) {
        return Ok((read, Vec::new(alloc)));
    }
    let ReadProgram { program, ast } = read;
    let (program, names) = lower_pattern_moves::move_patterns(alloc, program)?;
    Ok((ReadProgram { program, ast }, names))
}

/// Whether a pattern moves.
fn asks_for_moves(program: &Node, options: &EnvOptions) -> bool
    ensures { result ≡ (is_some options.now.es2018.object_rest_spread && any_node moves_pattern program.now) }
{
    options.es2018.object_rest_spread.is_some() && has_moves(program)
}
