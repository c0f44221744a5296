//! A name that `using` declares in the head of a loop moves into a block around the body, which keeps a block of its own in the new one.
//!
//! Before:
//!
//!     for (using a of b) f(a);
//!
//! After, where the head declares `_a`:
//!
//!     { using a = _a; f(a); }
//!
//! A made node has no place in the source, and the id of the name. The rule is `in_block` of es_pattern_moves.
ghost use Rattle.std.specs.Prelude.{◌≡◌, IfOk};
ghost use Rattle.lower_using_heads.specs.Parts.{FreshName, HeadsAs, moved_into_block, using_with};

use es_scope::uids::UidGenerator;
use es_statements::program::{BlockStatement, VariableDeclaration, VariableDeclarator};
use es_tree::ids::NodeId;
use es_tree::node::Node;
use es_tree::operators::VariableDeclarationKind;
use lower_fresh_names::nodes::{MADE, id_of, new_name};
use std::alloc::{AllocError, Global};

/// The fresh name `_a` for the name `a`, and the block `{ using a = _a; f(a); }` for the body `f(a);`.
pub(crate) fn move_into_block(
    name: Node,
    body: Node,
    uids: &mut UidGenerator,
    alloc: Global,
) -> Result<(Node, Node), AllocError>
    ensures { IfOk result (λ moved. HeadsAs (moved_into_block body) FreshName uids.old uids.new name (moved.0, moved.1)) }
{
    let text = uids.generate_from_node(&name)?;
    let id = id_of(&name);
    let fresh = new_name(id, text.as_str(), alloc)?;
    let value = new_name(id, text.as_str(), alloc)?;
    let declaration = new_using(id, name, value, alloc)?;
    let block = BlockStatement {
        id,
        span: MADE,
        scope: None,
        body: Vec::from_array(alloc, [declaration, body])?,
    };
    let made = block.close(alloc)?;
    Ok((fresh, made))
}

/// `using a = _a;`
fn new_using(id: NodeId, name: Node, value: Node, alloc: Global) -> Result<Node, AllocError>
    ensures { IfOk result (λ made. made ≡ using_with id.0 name value) }
{
    let declarator = VariableDeclarator {
        id,
        span: MADE,
        binding: name,
        init: Some(value),
    };
    let declared = declarator.close(alloc)?;
    let declaration = VariableDeclaration {
        id,
        span: MADE,
        kind: VariableDeclarationKind::Using,
        declarations: Vec::from_array(alloc, [declared])?,
    };
    declaration.close(alloc)
}
