//! Patterns move into a block around the body, out of catch clauses (ECMA-262, 14.15) and out of heads of loops (14.7.5).
//!
//! Before:
//!
//!     for (const { a, ...b } of c) f(b);
//!
//! After:
//!
//!     for (const _ref of c) { const { a, ...b } = _ref; f(b); }
//!
//! The body of a catch clause keeps its own block in the new one: what it declares stays apart from the names of the pattern. A pattern that the
//! head of a loop assigns to moves to an assignment:
//!
//! Before:
//!
//!     for ({ a, ...b } of c) f(b);
//!
//! After:
//!
//!     for (var _ref of c) { { a, ...b } = _ref; f(b); }
//!
//! The rules are `moved_catch` and `moved_head` of es_pattern_moves.
ghost use Rattle.std.specs.Prelude.{◌≡◌, IfOk, true};
ghost use Rattle.es_tree.specs.Tree.{done, kind_of, one, ◌then◌};
ghost use Rattle.es_tree.specs.Views.{plain_field, plain_fields};
ghost use Rattle.es_tree.specs.Words.{variable_declaration_kind_text};
ghost use Rattle.es_pattern_moves.specs.PatternMoves.{moves_from_catch, moves_from_head};
ghost use Rattle.lower_pattern_moves.specs.Moves.{MovesAs};
ghost use Rattle.lower_pattern_moves.specs.Parts.{DeclaresAlone, DeclaresBy, assigned_in_block, moved_catch_fields, moved_head_fields, moved_into_block};

use crate::made_nodes::{BASE, new_assignment, new_block, new_declaration};
use es_scope::uids::UidGenerator;
use es_statements::program::{VariableDeclaration, VariableDeclarator};
use es_tree::ast_type::AstType;
use es_tree::node::{Field, Node, exactly};
use es_tree::operators::VariableDeclarationKind;
use lower_fresh_names::nodes::{id_of, new_name};
use std::alloc::{AllocError, Global};

/// `catch (_ref) { let { a, ...b } = _ref; { f(b); } }` for `catch ({ a, ...b }) { f(b); }`.
pub(crate) fn move_out_of_catch(
    fields: Vec<Field>,
    uids: &mut UidGenerator,
    alloc: Global,
) -> Result<Vec<Field>, AllocError>
    requires { moves_from_catch (plain_fields fields.items) ≡ true }
    ensures { IfOk result (λ moved. MovesAs moved_catch_fields uids.old uids.new (plain_fields fields.items) (plain_fields moved.items)) }
{
    let [parameter, body]: [Field; 2] = exactly(fields);
    let pattern = parameter.into_node();
    let kind = VariableDeclarationKind::Let;
    let (name, block) = move_into_block(kind, pattern, body.into_node(), uids, alloc)?;
    let moved = Vec::from_array(alloc, [Field::One(name), Field::One(block)])?;
    Ok(moved)
}

/// `for (const _ref of c) { const { a, ...b } = _ref; f(b); }` for `for (const { a, ...b } of c) f(b);`, and likewise with `in`, and where the
/// head assigns to the pattern.
pub(crate) fn move_out_of_head(
    fields: Vec<Field>,
    uids: &mut UidGenerator,
    alloc: Global,
) -> Result<Vec<Field>, AllocError>
    requires { moves_from_head (plain_fields fields.items) ≡ true }
    ensures { IfOk result (λ moved. MovesAs moved_head_fields uids.old uids.new (plain_fields fields.items) (plain_fields moved.items)) }
{
    let [head, source, body]: [Field; 3] = exactly(fields);
    move_left(head.into_node(), source, body.into_node(), uids, alloc)
}

/// What the fields of a loop with this head, right side and body become.
fn move_left(
    head: Node,
    source: Field,
    body: Node,
    uids: &mut UidGenerator,
    alloc: Global,
) -> Result<Vec<Field>, AllocError>
    requires { moves_from_head (one head then plain_field source then one body then done) ≡ true }
    ensures { IfOk result (λ moved. MovesAs moved_head_fields uids.old uids.new (one head then plain_field source then one body then done) (plain_fields moved.items)) }
{
    match head.kind.ast_type() {
        AstType::ObjectTarget => move_target(head, source, body, uids, alloc),
        _ => move_declaration(head, source, body, uids, alloc),
    }
}

/// `for (const _ref of c) { const { a, ...b } = _ref; f(b); }` for the declaration `const { a, ...b }`, the right side `c` and the body `f(b);`.
fn move_declaration(
    head: Node,
    source: Field,
    body: Node,
    uids: &mut UidGenerator,
    alloc: Global,
) -> Result<Vec<Field>, AllocError>
    requires alone { DeclaresAlone head }
    requires moves { moves_from_head (one head then plain_field source then one body then done) ≡ true }
    ensures { IfOk result (λ moved. MovesAs moved_head_fields uids.old uids.new (one head then plain_field source then one body then done) (plain_fields moved.items)) }
{
    let (kind, pattern) = open_head(head);
    let id = id_of(&pattern);
    let (name, block) = move_into_block(kind, pattern, body, uids, alloc)?;
    let declaration = new_declaration(kind, id, name, None, alloc)?;
    let moved = Vec::from_array(alloc, [Field::One(declaration), source, Field::One(block)])?;
    Ok(moved)
}

/// `for (var _ref of c) { { a, ...b } = _ref; f(b); }` for the pattern `{ a, ...b }`, the right side `c` and the body `f(b);`.
fn move_target(
    target: Node,
    source: Field,
    body: Node,
    uids: &mut UidGenerator,
    alloc: Global,
) -> Result<Vec<Field>, AllocError>
    requires kind { kind_of target ≡ AstType.ObjectTarget }
    requires moves { moves_from_head (one target then plain_field source then one body then done) ≡ true }
    ensures { IfOk result (λ moved. MovesAs moved_head_fields uids.old uids.new (one target then plain_field source then one body then done) (plain_fields moved.items)) }
{
    let id = id_of(&target);
    let (name, block) = assign_in_block(target, body, uids, alloc)?;
    let kind = VariableDeclarationKind::Var;
    let declaration = new_declaration(kind, id, name, None, alloc)?;
    let moved = Vec::from_array(alloc, [Field::One(declaration), source, Field::One(block)])?;
    Ok(moved)
}

/// The word and the pattern of the declaration `const { a, ...b }` in the head of a loop.
fn open_head(head: Node) -> (VariableDeclarationKind, Node)
    requires { DeclaresAlone head }
    ensures { DeclaresBy head (variable_declaration_kind_text result.0) result.1 }
{
    let VariableDeclaration {
        id: _id,
        span: _span,
        kind,
        mut declarations,
    } = VariableDeclaration::open(head);
    let declarator = match declarations.pop() {
        Some(declarator) => declarator,
        None => unreachable!(),
    };
    let VariableDeclarator {
        id: _inner,
        span: _place,
        binding,
        init: _init,
    } = VariableDeclarator::open(declarator);
    (kind, binding)
}

/// The fresh name `_ref` for the pattern `{ a, ...b }`, and the block `{ let { a, ...b } = _ref; f(b); }` for the body `f(b);`.
fn move_into_block(
    kind: VariableDeclarationKind,
    pattern: Node,
    body: Node,
    uids: &mut UidGenerator,
    alloc: Global,
) -> Result<(Node, Node), AllocError>
    ensures { IfOk result (λ moved. MovesAs (moved_into_block (variable_declaration_kind_text kind) body) uids.old uids.new pattern (moved.0, moved.1)) }
{
    let text = uids.generate(BASE)?;
    let id = id_of(&pattern);
    let name = new_name(id, text.as_str(), alloc)?;
    let value = new_name(id, text.as_str(), alloc)?;
    let declaration = new_declaration(kind, id, pattern, Some(value), alloc)?;
    let block = new_block(id, declaration, body, alloc)?;
    Ok((name, block))
}

/// The fresh name `_ref` for the pattern `{ a, ...b }`, and the block `{ { a, ...b } = _ref; f(b); }` for the body `f(b);`.
fn assign_in_block(
    target: Node,
    body: Node,
    uids: &mut UidGenerator,
    alloc: Global,
) -> Result<(Node, Node), AllocError>
    ensures { IfOk result (λ moved. MovesAs (assigned_in_block body) uids.old uids.new target (moved.0, moved.1)) }
{
    let text = uids.generate(BASE)?;
    let id = id_of(&target);
    let name = new_name(id, text.as_str(), alloc)?;
    let value = new_name(id, text.as_str(), alloc)?;
    let assignment = new_assignment(id, target, value, alloc)?;
    let block = new_block(id, assignment, body, alloc)?;
    Ok((name, block))
}
