//! Targets of `**=` that are read and then written (ECMA-262, 13.15), with what stands in them evaluated once.
//!
//! What stays where it is: a name that is bound, `super`, a key without brackets, and a key that is a literal. All else takes a
//! temporary, which is assigned in front. Where the key is evaluated, the object takes one too, even if it is a name, since the
//! key may write it.
ghost use Rattle.std.specs.Prelude.{◌≡◌, ◌+◌, ◌-◌, ◌^◌, ◌<◌, [], ◌∷◌, ◌++◌, ℕ, IfOk, OnOk, Option, false, length, true};
ghost use Rattle.es_tree.specs.Names.{first_text};
ghost use Rattle.es_tree.specs.Tree.{fields_of, label_of};
ghost use Rattle.es_tree.specs.Words.{Text};
ghost use Rattle.es_resolution.specs.Seen.{seen};
ghost use Rattle.es_runs.specs.Duplication.{has_no_fields};
ghost use Rattle.es_runs.specs.Exponentiation.{string_node};
ghost use Rattle.es_runs.specs.Rules.{member_node};
ghost use Rattle.es_steps.specs.Exponentiation.{stays};
ghost use Rattle.es_expressions.specs.MembersPlain.{plain_member_expression};
ghost use Rattle.lower_temporaries.specs.Shapes.{is_name};
ghost use Rattle.lower_temporaries.specs.Takings.{ReadsMore};
ghost use Rattle.lower_exponentiation.specs.Exponentiations.{has_exponentiation_key, is_exponentiation_target};
ghost use Rattle.lower_exponentiation.specs.Targets.{AssignsTemporary, InTemporary, IsWrittenAndRead, SeenTwice, UsesKey, UsesObject, UsesTarget, names_that_stay};

use crate::constructs::{is_evaluated_key, is_expression_key, is_private_name};
use es_expressions::literals::{Identifier, new_string_literal};
use es_expressions::members::{MemberExpression, new_member_expression};
use es_expressions::operations::new_assignment_expression;
use es_scope::context::TraverseCtx;
use es_scope::context_names::BoundIdentifier;
use es_tree::builder::AstBuilder;
use es_tree::kind::Kind;
use es_tree::node::Node;
use es_tree::operators::AssignmentOperator;
use lower_temporaries::declarations::MADE;
use lower_temporaries::readings::{WRITES, read_once_more};
use lower_temporaries::references::set_name_flags;
use lower_temporaries::shapes::is_name;
use lower_temporaries::state::TransformState;
use lower_temporaries::temporaries::{Temporary, new_temporary, read_name};
use std::alloc::AllocError;

/// A part of a target that is evaluated once, and then written and read.
#[derive(Drop)]
pub(crate) struct Twice {
    /// What is evaluated in front, in this order.
    pub(crate) first: Vec<Node>,
    /// What is written.
    pub(crate) written: Node,
    /// What is read.
    pub(crate) read: Node,
}

/// A target that is read and then written.
pub(crate) fn use_target(
    target: Node,
    ctx: &mut TraverseCtx<TransformState>,
) -> Result<Twice, AllocError>
    requires target { is_exponentiation_target target ≡ true }
    requires there { 0 < length ctx.old.state.var_declarations }
    requires room { ctx.old.ast.next + 14 < 2 ^ 32 - 1 }
    ensures { IfOk result (λ r. SeenTwice (UsesTarget ctx.old ctx.new) target r) }
{
    if is_name(&target) {
        let used = use_name(target, ctx)?;
        Ok(used)
    } else {
        let used = use_member(MemberExpression::open(target), ctx)?;
        Ok(used)
    }
}

/// A name, which is only written where it stands: `x` and `x` where it is bound, and else `_x = x` in front, `x` and `_x`.
fn use_name(target: Node, ctx: &mut TraverseCtx<TransformState>) -> Result<Twice, AllocError>
    requires target { is_name target ≡ true }
    requires there { 0 < length ctx.old.state.var_declarations }
    requires room { ctx.old.ast.next + 6 < 2 ^ 32 - 1 }
    ensures { IfOk result (λ r. SeenTwice (UsesTarget ctx.old ctx.new) target r) }
{
    set_name_flags(&target, WRITES, ctx);
    if stays(&target, true) {
        let used = use_copies(target, ctx)?;
        Ok(used)
    } else {
        let used = read_in_front(target, ctx)?;
        Ok(used)
    }
}

/// `_x = x` in front, `x` and `_x`.
fn read_in_front(target: Node, ctx: &mut TraverseCtx<TransformState>) -> Result<Twice, AllocError>
    requires target { is_name target ≡ true }
    requires unbound { (names : ℕ → Text → Option ℕ) → stays (names_that_stay true) (seen names target) ≡ false }
    requires there { 0 < length ctx.old.state.var_declarations }
    requires room { ctx.old.ast.next + 6 < 2 ^ 32 - 1 }
    ensures { IfOk result (λ r. SeenTwice (UsesTarget ctx.old ctx.new) target r) }
{
    let value = read_once_more(&target, ctx)?;
    let (assign, temporary) = assign_temporary(value, ctx)?;
    let read = read_name(temporary.name.as_str(), Some(temporary.symbol_id), ctx)?;
    let first = Vec::from_array(ctx.ast.alloc, [assign])?;
    Ok(Twice {
        first,
        written: target,
        read,
    })
}

/// A member: its object and then its key.
fn use_member(
    member: MemberExpression,
    ctx: &mut TraverseCtx<TransformState>,
) -> Result<Twice, AllocError>
    requires target { is_exponentiation_target (plain_member_expression member) ≡ true }
    requires there { 0 < length ctx.old.state.var_declarations }
    requires room { ctx.old.ast.next + 14 < 2 ^ 32 - 1 }
    ensures { IfOk result (λ r. SeenTwice (UsesTarget ctx.old ctx.new) (plain_member_expression member) r) }
{
    let MemberExpression {
        id: _id,
        span: _span,
        computed,
        optional: _optional,
        object,
        property,
    } = member;
    let by_name = !is_evaluated_key(computed, &property);
    let is_expression = is_expression_key(computed, &property);
    let objects = use_object(object, by_name, ctx)?;
    let keys = use_key(property, computed, ctx)?;
    let used = join(objects, keys, is_expression, &mut ctx.ast)?;
    Ok(used)
}

/// The member of an object and a key, written and read.
fn join(
    objects: Twice,
    keys: Twice,
    computed: bool,
    ast: &mut AstBuilder,
) -> Result<Twice, AllocError>
    requires room { ast.old.next + 2 < 2 ^ 32 - 1 }
    ensures first { IfOk result (λ r. r.first.items ≡ objects.first.items ++ keys.first.items) }
    ensures written { IfOk result (λ r. (names : ℕ → Text → Option ℕ) → seen names r.written ≡ member_node computed (seen names objects.written) (seen names keys.written)) }
    ensures read { IfOk result (λ r. (names : ℕ → Text → Option ℕ) → seen names r.read ≡ member_node computed (seen names objects.read) (seen names keys.read)) }
    ensures counted { IfOk result (λ _. ast.new.next ≡ ast.old.next + 2) }
{
    let Twice {
        first,
        written: object,
        read: object_again,
    } = objects;
    let Twice {
        first: further,
        written: key,
        read: key_again,
    } = keys;
    let mut first = first;
    let mut further = further;
    first.append(&mut further)?;
    let written = new_member_expression(ast, MADE, computed, false, object, key)?;
    let read = new_member_expression(ast, MADE, computed, false, object_again, key_again)?;
    Ok(Twice {
        first,
        written,
        read,
    })
}

/// The object of a member: `o` and `o` where it stays, and else `_o = o` in front, `_o` and `_o`.
fn use_object(
    object: Node,
    by_name: bool,
    ctx: &mut TraverseCtx<TransformState>,
) -> Result<Twice, AllocError>
    requires there { 0 < length ctx.old.state.var_declarations }
    requires room { ctx.old.ast.next + 6 < 2 ^ 32 - 1 }
    ensures { IfOk result (λ r. SeenTwice (UsesObject by_name ctx.old ctx.new) object r) }
{
    if stays(&object, by_name) {
        let used = use_copies(object, ctx)?;
        Ok(used)
    } else {
        let used = use_temporary(object, ctx)?;
        Ok(used)
    }
}

/// Whether an object stays where it is: `super`, and, where names may stay, a name that is bound.
fn stays(object: &Node, by_name: bool) -> bool
    ensures { (names : ℕ → Text → Option ℕ) → result ≡ stays (names_that_stay by_name) (seen names object.now) }
{
    match &object.kind {
        Kind::Super => object.fields.is_empty(),
        Kind::Identifier { symbol, .. } => {
            by_name && symbol.is_some() && object.fields.is_empty()
        }
        _ => false,
    }
}

/// The key of a member: `k` and `k` where it is no name, `"k"` and `"k"` for a name, and `_k = k` in front, `_k` and `_k` where it is
/// evaluated.
fn use_key(
    key: Node,
    computed: bool,
    ctx: &mut TraverseCtx<TransformState>,
) -> Result<Twice, AllocError>
    requires key { has_exponentiation_key (computed ∷ false ∷ []) key ≡ true }
    requires there { 0 < length ctx.old.state.var_declarations }
    requires room { ctx.old.ast.next + 6 < 2 ^ 32 - 1 }
    ensures { IfOk result (λ r. SeenTwice (UsesKey computed ctx.old ctx.new) key r) }
{
    if is_evaluated_key(computed, &key) {
        let used = use_temporary(key, ctx)?;
        Ok(used)
    } else if computed || is_private_name(&key) {
        let used = use_copies(key, ctx)?;
        Ok(used)
    } else {
        let used = use_key_text(key, &mut ctx.ast)?;
        Ok(used)
    }
}

/// A name as a key, written and read as a string.
fn use_key_text(key: Node, ast: &mut AstBuilder) -> Result<Twice, AllocError>
    requires name { is_name key ≡ true }
    requires room { ast.old.next + 2 < 2 ^ 32 - 1 }
    ensures used { IfOk result (λ r. SeenTwice (λ t first written read. IsWrittenAndRead (string_node (first_text (label_of key).texts)) first written read) key r) }
    ensures counted { IfOk result (λ _. ast.new.next ≡ ast.old.next + 2) }
{
    let Identifier {
        id: _id,
        span: _span,
        name,
        reference: _reference,
        symbol: _symbol,
    } = Identifier::open(key);
    let again = String::from_str(ast.alloc, name.as_str())?;
    let written = new_string_literal(ast, MADE, name)?;
    let read = new_string_literal(ast, MADE, again)?;
    Ok(Twice {
        first: Vec::new(ast.alloc),
        written,
        read,
    })
}

/// A node without children, written and read as it is.
fn use_copies(node: Node, ctx: &mut TraverseCtx<TransformState>) -> Result<Twice, AllocError>
    requires alone { has_no_fields (fields_of node) ≡ true }
    requires room { ctx.old.ast.next + 1 < 2 ^ 32 - 1 }
    ensures used { IfOk result (λ r. SeenTwice IsWrittenAndRead node r) }
    ensures reads { OnOk result (ReadsMore 1 ctx.old ctx.new) }
{
    let read = read_once_more(&node, ctx)?;
    Ok(Twice {
        first: Vec::new(ctx.ast.alloc),
        written: node,
        read,
    })
}

/// `_t = node` in front, `_t` and `_t`.
fn use_temporary(node: Node, ctx: &mut TraverseCtx<TransformState>) -> Result<Twice, AllocError>
    requires there { 0 < length ctx.old.state.var_declarations }
    requires room { ctx.old.ast.next + 6 < 2 ^ 32 - 1 }
    ensures { IfOk result (λ r. SeenTwice (InTemporary ctx.old ctx.new) node r) }
{
    let (assign, temporary) = assign_temporary(node, ctx)?;
    let name = temporary.name.as_str();
    let written = read_name(name, Some(temporary.symbol_id), ctx)?;
    let read = read_name(name, Some(temporary.symbol_id), ctx)?;
    let first = Vec::from_array(ctx.ast.alloc, [assign])?;
    Ok(Twice {
        first,
        written,
        read,
    })
}

/// `_t = node`, with a temporary that is declared in the innermost statement list, and the temporary.
fn assign_temporary(
    node: Node,
    ctx: &mut TraverseCtx<TransformState>,
) -> Result<(Node, BoundIdentifier), AllocError>
    requires there { 0 < length ctx.old.state.var_declarations }
    requires room { ctx.old.ast.next + 4 < 2 ^ 32 - 1 }
    ensures { IfOk result (λ r. (names : ℕ → Text → Option ℕ) → AssignsTemporary ctx.old ctx.new (seen names node) (seen names r.0) r.1) }
{
    let Temporary {
        name,
        symbol_id,
        target,
    } = new_temporary(&node, ctx)?;
    let assign = AssignmentOperator::Assign;
    let first = new_assignment_expression(&mut ctx.ast, MADE, assign, target, node)?;
    Ok((first, BoundIdentifier { name, symbol_id }))
}
