//! The nodes out of which a pattern moves: catch clauses, loops over the members of a value, and functions. Only the fields of the node change.
//!
//! Before:
//!
//!     ({ a, ...b }) => { f(b); }
//!
//! After:
//!
//!     (_ref) => { let { a, ...b } = _ref; f(b); }
//!
//! The rule is `moved_fields` of es_pattern_moves.
ghost use Rattle.std.specs.Prelude.{◌≡◌, IfOk, OnOk, true};
ghost use Rattle.es_tree.specs.Tree.{Label};
ghost use Rattle.es_tree.specs.Views.{plain_fields};
ghost use Rattle.es_pattern_moves.specs.PatternMoves.{moves_pattern};
ghost use Rattle.lower_pattern_moves.specs.Moves.{MovesAs};
ghost use Rattle.lower_pattern_moves.specs.Parts.{moved_fields_of, moved_node};

use crate::blocks::{move_out_of_catch, move_out_of_head};
use crate::parameters::{move_out_of_arrow, move_out_of_function};
use es_move_nodes::moves::moves_pattern;
use es_scope::uids::UidGenerator;
use es_tree::ast_type::AstType;
use es_tree::node::{Field, Node};
use std::alloc::{AllocError, Global};
use std::mem;

/// Moves the patterns out of a node, the parts of which were walked.
pub(crate) fn move_out(
    node: &mut Node,
    uids: &mut UidGenerator,
    alloc: Global,
) -> Result<(), AllocError>
    ensures { OnOk result (MovesAs moved_node uids.old uids.new node.old node.new) }
{
    if !moves_pattern(node) {
        return Ok(());
    }
    let fields = mem::replace(&mut node.fields, Vec::new(alloc));
    node.fields = move_out_of_fields(node.kind.ast_type(), fields, uids, alloc)?;
    Ok(())
}

/// What the fields of a node of this kind become.
fn move_out_of_fields(
    kind: AstType,
    fields: Vec<Field>,
    uids: &mut UidGenerator,
    alloc: Global,
) -> Result<Vec<Field>, AllocError>
    requires { (l : Label) × (moves_pattern kind l (plain_fields fields.items) ≡ true) }
    ensures { IfOk result (λ moved. MovesAs (moved_fields_of kind) uids.old uids.new (plain_fields fields.items) (plain_fields moved.items)) }
{
    match kind {
        AstType::CatchClause => move_out_of_catch(fields, uids, alloc),
        AstType::ForInStatement | AstType::ForOfStatement => move_out_of_head(fields, uids, alloc),
        AstType::FunctionDeclaration | AstType::FunctionExpression => {
            move_out_of_function(fields, uids, alloc)
        }
        AstType::ArrowFunctionExpression => move_out_of_arrow(fields, uids, alloc),
        _ => unreachable!(),
    }
}
