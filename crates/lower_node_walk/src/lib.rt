//! The walk over a program that calls a lowering of nodes at each node, after the parts of the node.
#![tactic(auto)]

ghost use Rattle.std.specs.Prelude.{◌+◌, ◌-◌, ◌<◌, ◌^◌, OnOk};
ghost use Rattle.es_statements.specs.ProgramPlain.{plain_program};
ghost use Rattle.es_traverse.specs.Laws.{Seen};
ghost use Rattle.lower_nodes.specs.Nodes.{PaidTree, WalkedProgram, owed};
ghost use Rattle.lower_temporaries.specs.Takings.{moment_of};

mod walk;

use crate::walk::walk_list;
use es_scope::context::TraverseCtx;
use es_statements::program::Program;
use lower_nodes::NodeLowering;
use lower_temporaries::state::TransformState;
use std::alloc::AllocError;

/// Walks the statements of a program and lowers each node in them when its parts were walked. Directives have no parts and stay as they
/// are. Fails only for want of memory; the program is then in no stated shape.
pub fn walk_nodes<T: NodeLowering>(
    lowering: &T,
    program: &mut Program,
    ctx: &mut TraverseCtx<TransformState>,
) -> Result<(), AllocError>
    requires suited { T.suits lowering.now ctx.old.options }
    requires room { ctx.old.ast.next + owed (T.profile ctx.old.options).owes (plain_program program.old) < 2 ^ 32 - 1 }
    ensures paid { OnOk result (PaidTree (T.profile ctx.old.options).owes (moment_of ctx.old) (plain_program program.old) (moment_of ctx.new) (plain_program program.new)) }
    ensures walked { OnOk result (Seen (λ t u. WalkedProgram (T.profile ctx.old.options) (moment_of ctx.old) t (moment_of ctx.new) u) (plain_program program.old) (plain_program program.new)) }
{
    walk_list(lowering, &mut program.body, ctx)?;
    Ok(())
}
