//! The statements of a module in two lists, each in source order: what is outside the `try`, and what is in it.
//!
//! Before:
//!
//!     using a = b; export const c = 1; function f() {} g(a);
//!
//! After, outside and inside:
//!
//!     export { c }; function f() {}
//!     var a = _usingCtx.u(b); var c = 1; g(a);
//!
//! The rules are `outside` and `inside` of es_using_modules.
ghost use Rattle.std.specs.Prelude.{◌≡◌, IfOk, OnOk};
ghost use Rattle.es_tree.specs.Tree.{empty, trees, ◌before◌};
ghost use Rattle.es_steps.specs.Nodes.{joined_trees};
ghost use Rattle.es_using_modules.specs.ModuleTops.{inside, outside};
ghost use Rattle.lower_using_modules.specs.Parts.{making};

use crate::declarations::move_inside;
use crate::exports::leave_outside;
use crate::kinds::stays_outside;
use es_tree::node::Node;
use std::alloc::{AllocError, Global};

/// What these statements leave outside, and what they become inside.
pub(crate) fn part_statements(
    statements: Vec<Node>,
    default: &str,
    context: &str,
    alloc: Global,
) -> Result<(Vec<Node>, Vec<Node>), AllocError>
    ensures outside { IfOk result (λ parted. trees parted.0.items ≡ outside (making default.now context.now) (trees statements.items)) }
    ensures inside { IfOk result (λ parted. trees parted.1.items ≡ inside (making default.now context.now) (trees statements.items)) }
{
    let mut left = Vec::new(alloc);
    let mut moved = Vec::new(alloc);
    for statement in statements {
        part_statement(statement, default, context, &mut left, &mut moved, alloc)?;
    }
    Ok((left, moved))
}

/// Puts a statement that stays outside behind what is left there; of every other the export that it leaves, and what it becomes inside behind what moved.
fn part_statement(
    statement: Node,
    default: &str,
    context: &str,
    left: &mut Vec<Node>,
    moved: &mut Vec<Node>,
    alloc: Global,
) -> Result<(), AllocError>
    ensures outside { OnOk result (trees left.new.items ≡ joined_trees (trees left.old.items) (outside (making default.now context.now) (statement before empty))) }
    ensures inside { OnOk result (trees moved.new.items ≡ joined_trees (trees moved.old.items) (inside (making default.now context.now) (statement before empty))) }
{
    if stays_outside(&statement) {
        left.push(statement)?;
        return Ok(());
    }
    leave_outside(&statement, default, left, alloc)?;
    let inside = move_inside(statement, default, context, alloc)?;
    moved.push(inside)?;
    Ok(())
}
