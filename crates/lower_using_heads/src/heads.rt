//! `using` moves out of the head of a `for`-`of` (Explicit Resource Management, 14.7.5): the head declares a constant, and keeps its place.
//!
//! Before:
//!
//!     for (using a of b) f(a);
//!
//! After:
//!
//!     for (const _a of b) { using a = _a; f(a); }
//!
//! The rule is `headed_here` of es_using_heads.
ghost use Rattle.std.specs.Prelude.{◌≡◌, IfOk, OnOk, true};
ghost use Rattle.es_tree.specs.Views.{plain_fields};
ghost use Rattle.es_using_heads.specs.Heads.{moves_from_head};
ghost use Rattle.lower_using_heads.specs.Parts.{DeclaresName, FreshDeclarator, FreshFields, FreshNode, HeadsAs, headed_node, loop_fields, named_declarator};

use crate::blocks::move_into_block;
use es_scope::uids::UidGenerator;
use es_statements::program::{VariableDeclaration, VariableDeclarator};
use es_tree::node::{Field, Node, exactly};
use es_tree::operators::VariableDeclarationKind;
use es_using_nodes::heads::moves_using;
use std::alloc::{AllocError, Global};
use std::mem;

/// Moves `using` out of the head of a node, the parts of which were walked.
pub(crate) fn move_out(
    node: &mut Node,
    uids: &mut UidGenerator,
    alloc: Global,
) -> Result<(), AllocError>
    ensures { OnOk result (HeadsAs headed_node FreshNode uids.old uids.new node.old node.new) }
{
    if !moves_using(node) {
        return Ok(());
    }
    let fields = mem::replace(&mut node.fields, Vec::new(alloc));
    node.fields = move_out_of_head(fields, uids, alloc)?;
    Ok(())
}

/// `for (const _a of b) { using a = _a; f(a); }` for `for (using a of b) f(a);`.
fn move_out_of_head(
    fields: Vec<Field>,
    uids: &mut UidGenerator,
    alloc: Global,
) -> Result<Vec<Field>, AllocError>
    requires { moves_from_head (plain_fields fields.items) ≡ true }
    ensures { IfOk result (λ moved. HeadsAs loop_fields FreshFields uids.old uids.new (plain_fields fields.items) (plain_fields moved.items)) }
{
    let [head, source, body]: [Field; 3] = exactly(fields);
    let VariableDeclaration {
        id,
        span,
        kind: _using,
        mut declarations,
    } = VariableDeclaration::open(head.into_node());
    let declarator = match declarations.pop() {
        Some(declarator) => declarator,
        None => unreachable!(),
    };
    let (named, block) = move_out_of_declarator(declarator, body.into_node(), uids, alloc)?;
    let constant = VariableDeclaration {
        id,
        span,
        kind: VariableDeclarationKind::Const,
        declarations: Vec::from_array(alloc, [named])?,
    };
    let declaration = constant.close(alloc)?;
    let moved = Vec::from_array(alloc, [Field::One(declaration), source, Field::One(block)])?;
    Ok(moved)
}

/// The declarator `_a` for `a`, and the block `{ using a = _a; f(a); }` for the body `f(a);`.
fn move_out_of_declarator(
    declarator: Node,
    body: Node,
    uids: &mut UidGenerator,
    alloc: Global,
) -> Result<(Node, Node), AllocError>
    requires { DeclaresName declarator }
    ensures { IfOk result (λ moved. HeadsAs (named_declarator body) FreshDeclarator uids.old uids.new declarator (moved.0, moved.1)) }
{
    let VariableDeclarator {
        id,
        span,
        binding,
        init: _none,
    } = VariableDeclarator::open(declarator);
    let (name, block) = move_into_block(binding, body, uids, alloc)?;
    let named = VariableDeclarator {
        id,
        span,
        binding: name,
        init: None,
    };
    let made = named.close(alloc)?;
    Ok((made, block))
}
