//! The target of a logical assignment, as it is read in the test and as it is written (ECMA-262, 13.15).
ghost use Rattle.std.specs.Prelude.{◌≡◌, ◌+◌, ◌-◌, ◌^◌, ◌<◌, ◌≤◌, ℕ, IfOk, Option, false, length, true};
ghost use Rattle.es_tree.specs.Tree.{tree_size};
ghost use Rattle.es_tree.specs.Views.{plain_fields};
ghost use Rattle.es_tree.specs.Words.{Text};
ghost use Rattle.es_resolution.specs.Seen.{seen};
ghost use Rattle.es_traverse.specs.Laws.{Seen};
ghost use Rattle.lower_temporaries.specs.Shapes.{is_name};
ghost use Rattle.lower_logical_assignment.specs.Assignments.{has_duplicated_member, is_duplicated_target};
ghost use Rattle.lower_logical_assignment.specs.Targets.{DuplicatesMember, DuplicatesOnce, DuplicatesTarget};

use es_expressions::members::{MemberExpression, new_member_expression};
use es_scope::context::TraverseCtx;
use es_tree::builder::AstBuilder;
use es_tree::kind::Kind;
use es_tree::node::{Field, Node};
use lower_temporaries::declarations::MADE;
use lower_temporaries::duplicate::duplicate_expression;
use lower_temporaries::readings::{WRITES, read_once_more};
use lower_temporaries::references::set_name_flags;
use lower_temporaries::shapes::is_name;
use lower_temporaries::state::TransformState;
use std::alloc::AllocError;

/// Whether these are an object and a name, or a key between brackets.
fn is_object_with_key(computed: bool, fields: &[Field]) -> bool
    ensures { result ≡ has_duplicated_member computed (plain_fields fields.now) }
{
    match fields {
        [Field::One(..), Field::One(key)] => computed || is_name(key),
        _ => false,
    }
}

/// Whether a target is a name, or a member without an optional mark whose key stands between brackets or is a name.
pub(crate) fn is_target(node: &Node) -> bool
    ensures { result ≡ is_duplicated_target node.now }
{
    match &node.kind {
        Kind::Identifier { .. } => node.fields.is_empty(),
        Kind::MemberExpression { computed, optional } => {
            !*optional && is_object_with_key(*computed, node.fields.as_slice())
        }
        _ => false,
    }
}

/// An expression as it is evaluated first, and as it is read again afterwards.
fn duplicate_once(
    expression: Node,
    ctx: &mut TraverseCtx<TransformState>,
) -> Result<(Node, Node), AllocError>
    requires there { 0 < length ctx.old.state.var_declarations }
    requires room { ctx.old.ast.next + 6 < 2 ^ 32 - 1 }
    ensures { IfOk result (λ r. (names : ℕ → Text → Option ℕ) → DuplicatesOnce ctx.old ctx.new (seen names expression) (seen names r.0) (seen names r.1)) }
{
    let (first, again) = duplicate_expression(expression, true, ctx)?;
    Ok((first, again))
}

/// A name as it is read in the test, and as it is written: its own reference only writes from now on.
fn duplicate_name(
    target: Node,
    ctx: &mut TraverseCtx<TransformState>,
) -> Result<(Node, Node), AllocError>
    requires name { is_name target ≡ true }
    requires room { ctx.old.ast.next + 1 < 2 ^ 32 - 1 }
    ensures { IfOk result (λ r. (names : ℕ → Text → Option ℕ) → DuplicatesTarget ctx.old ctx.new (seen names target) (seen names r.0) (seen names r.1)) }
{
    let read = read_once_more(&target, ctx)?;
    set_name_flags(&target, WRITES, ctx);
    Ok((read, target))
}

/// A key that is a name, once more. It refers to nothing.
fn copy_key(key: &Node, ast: &mut AstBuilder) -> Result<Node, AllocError>
    requires { ast.old.next + tree_size key.now ≤ 2 ^ 32 - 1 }
    ensures copy { IfOk result (λ node. Seen (λ t u. u ≡ t) key.now node) }
    ensures counted { IfOk result (λ _. ast.new.next ≡ ast.old.next + tree_size key.now) }
{
    let node = key.clone_in(ast)?;
    Ok(node)
}

/// A member with a name as its key: `(x = object).key` and `x.key`, where the object takes a temporary.
fn duplicate_static(
    object: Node,
    key: Node,
    ctx: &mut TraverseCtx<TransformState>,
) -> Result<(Node, Node), AllocError>
    requires name { is_name key ≡ true }
    requires there { 0 < length ctx.old.state.var_declarations }
    requires room { ctx.old.ast.next + 8 < 2 ^ 32 - 1 }
    ensures { IfOk result (λ r. (names : ℕ → Text → Option ℕ) → DuplicatesMember false ctx.old ctx.new (seen names object) (seen names key) (seen names r.0) (seen names r.1)) }
{
    let (first, again) = duplicate_once(object, ctx)?;
    let copy = copy_key(&key, &mut ctx.ast)?;
    let read = new_member_expression(&mut ctx.ast, MADE, false, false, first, copy)?;
    let written = new_member_expression(&mut ctx.ast, MADE, false, false, again, key)?;
    Ok((read, written))
}

/// A member with a key between brackets: `(x = object)[y = key]` and `x[y]`, where both take a temporary.
fn duplicate_computed(
    object: Node,
    key: Node,
    ctx: &mut TraverseCtx<TransformState>,
) -> Result<(Node, Node), AllocError>
    requires there { 0 < length ctx.old.state.var_declarations }
    requires room { ctx.old.ast.next + 12 < 2 ^ 32 - 1 }
    ensures { IfOk result (λ r. (names : ℕ → Text → Option ℕ) → DuplicatesMember true ctx.old ctx.new (seen names object) (seen names key) (seen names r.0) (seen names r.1)) }
{
    let (object, object_again) = duplicate_once(object, ctx)?;
    let (key, key_again) = duplicate_once(key, ctx)?;
    let read = new_member_expression(&mut ctx.ast, MADE, true, false, object, key)?;
    let written = new_member_expression(&mut ctx.ast, MADE, true, false, object_again, key_again)?;
    Ok((read, written))
}

/// A target as it is read in the test, and as it is written.
pub(crate) fn duplicate_target(
    target: Node,
    ctx: &mut TraverseCtx<TransformState>,
) -> Result<(Node, Node), AllocError>
    requires target { is_duplicated_target target ≡ true }
    requires there { 0 < length ctx.old.state.var_declarations }
    requires room { ctx.old.ast.next + 12 < 2 ^ 32 - 1 }
    ensures { IfOk result (λ r. (names : ℕ → Text → Option ℕ) → DuplicatesTarget ctx.old ctx.new (seen names target) (seen names r.0) (seen names r.1)) }
{
    if is_name(&target) {
        let duplicated = duplicate_name(target, ctx)?;
        return Ok(duplicated);
    }
    let MemberExpression {
        id: _id,
        span: _span,
        computed,
        optional: _optional,
        object,
        property,
    } = MemberExpression::open(target);
    let duplicated = if computed {
        duplicate_computed(object, property, ctx)?
    } else {
        duplicate_static(object, property, ctx)?
    };
    Ok(duplicated)
}
