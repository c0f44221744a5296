//! The nodes at which `using` is lowered, once it was in their parts: functions, static blocks, blocks, `switch` and loops (Explicit Resource
//! Management, 14.3.1).
//!
//! Before:
//!
//!     { using a = b; f(a); }
//!
//! After:
//!
//!     try { var _usingCtx = babelHelpers.usingCtx(); const a = _usingCtx.u(b); f(a); } catch (_) { _usingCtx.e = _; } finally { _usingCtx.d(); }
//!
//! A block of a `try` stays around it.
//!
//! The rule is `used_node` of es_using_rows.
ghost use Rattle.std.specs.Prelude.{◌≡◌, IfOk, OnOk, true};
ghost use Rattle.es_tree.specs.Tree.{fields_of, kind_of, label_of, trees};
ghost use Rattle.es_tree.specs.Views.{plain_fields};
ghost use Rattle.es_using_rows.specs.UsingPlaces.{are_used_cases, is_used_case, leads_to_head, uses_here, uses_in_head};
ghost use Rattle.es_using_rows.specs.Used.{used_case, used_cases, used_head, used_loop};
ghost use Rattle.lower_using.specs.Parts.{BecomesBy, UsesInBlock, holds_used, used_at, used_with, uses_in_switch, with_cases, with_constants, with_fields};
ghost use Rattle.lower_using.specs.Uses.{UsesAs};

use crate::bodies::{use_arrow, use_function, use_static_block};
use crate::constants::{make_constants, make_declaration};
use crate::places::{is_part, uses_here};
use crate::tries::new_try;
use es_scope::uids::UidGenerator;
use es_statements::control::LabeledStatement;
use es_statements::program::BlockStatement;
use es_tree::ast_type::AstType;
use es_tree::ids::NodeId;
use es_tree::kind::Kind;
use es_tree::node::{Field, Node, exactly};
use es_using_rows::standing::Standing;
use lower_fresh_names::nodes::{MADE, id_of};
use std::alloc::{AllocError, Global};
use std::mem;

/// The base of the names of contexts: `_usingCtx`, `_usingCtx2` and so on.
const BASE: &str = "usingCtx";

/// Lowers `using` at a node that stands so, the parts of which were walked.
pub(crate) fn use_here(
    node: &mut Node,
    standing: Standing,
    uids: &mut UidGenerator,
    alloc: Global,
) -> Result<(), AllocError>
    ensures { OnOk result (UsesAs (used_at standing) uids.old uids.new node.old node.new) }
{
    if !uses_here(node, standing) {
        return Ok(());
    }
    let context = uids.generate(BASE)?;
    let taken = mem::replace(node, new_placeholder(alloc));
    *node = use_node(taken, standing, context.as_str(), alloc)?;
    Ok(())
}

/// What stands at a place while its node is taken from there.
fn new_placeholder(alloc: Global) -> Node {
    Node {
        id: NodeId(0),
        span: MADE,
        kind: Kind::EmptyStatement,
        fields: Vec::new(alloc),
    }
}

/// What a node becomes at which `using` is lowered.
fn use_node(
    node: Node,
    standing: Standing,
    context: &str,
    alloc: Global,
) -> Result<Node, AllocError>
    requires { uses_here standing (kind_of node) (label_of node) (fields_of node) ≡ true }
    ensures { IfOk result (λ used. BecomesBy context.now (used_with standing) node used) }
{
    match node.kind.ast_type() {
        AstType::BlockStatement => use_block(node, standing, context, alloc),
        AstType::SwitchStatement => {
            let id = id_of(&node);
            let used = use_switch(node, context, alloc)?;
            let made = new_try(id, context, Vec::from_array(alloc, [used])?, alloc)?;
            Ok(made)
        }
        AstType::ForStatement | AstType::LabeledStatement => {
            let id = id_of(&node);
            let used = use_loop(node, context, alloc)?;
            let made = new_try(id, context, Vec::from_array(alloc, [used])?, alloc)?;
            Ok(made)
        }
        AstType::FunctionDeclaration | AstType::FunctionExpression => {
            use_function(node, context, alloc)
        }
        AstType::ArrowFunctionExpression => use_arrow(node, context, alloc),
        AstType::StaticBlock => use_static_block(node, standing, context, alloc),
        _ => unreachable!(),
    }
}

/// `try { .. const a = _usingCtx.u(b); f(a); } ..` for `{ using a = b; f(a); }`, and `{ try { .. } .. }` for a block of a `try`.
fn use_block(
    block: Node,
    standing: Standing,
    context: &str,
    alloc: Global,
) -> Result<Node, AllocError>
    requires { UsesInBlock block }
    ensures { IfOk result (λ used. BecomesBy context.now (used_with standing) block used) }
{
    let BlockStatement {
        id,
        span,
        scope,
        body,
    } = BlockStatement::open(block);
    let constants = make_constants(body, context, alloc)?;
    let tried = new_try(id, context, constants, alloc)?;
    if !is_part(standing) {
        return Ok(tried);
    }
    let around = BlockStatement {
        id,
        span,
        scope,
        body: Vec::from_array(alloc, [tried])?,
    };
    let made = around.close(alloc)?;
    Ok(made)
}

/// `switch (a) { case 1: const b = _usingCtx.u(c); f(b); }` for `switch (a) { case 1: using b = c; f(b); }`.
fn use_switch(node: Node, context: &str, alloc: Global) -> Result<Node, AllocError>
    requires { uses_in_switch (fields_of node) ≡ true }
    ensures { IfOk result (λ used. BecomesBy context.now (with_fields with_cases) node used) }
{
    let mut used = node;
    let fields = mem::replace(&mut used.fields, Vec::new(alloc));
    used.fields = use_in_switch(fields, context, alloc)?;
    Ok(used)
}

fn use_in_switch(fields: Vec<Field>, context: &str, alloc: Global) -> Result<Vec<Field>, AllocError>
    requires { uses_in_switch (plain_fields fields.items) ≡ true }
    ensures { IfOk result (λ used. BecomesBy context.now with_cases (plain_fields fields.items) (plain_fields used.items)) }
{
    let [tested, cases]: [Field; 2] = exactly(fields);
    let made = use_cases(cases.into_nodes(), context, alloc)?;
    let used = Vec::from_array(alloc, [tested, Field::Many(made)])?;
    Ok(used)
}

/// `case 1: const b = _usingCtx.u(c); f(b);` for each case `case 1: using b = c; f(b);`.
fn use_cases(cases: Vec<Node>, context: &str, alloc: Global) -> Result<Vec<Node>, AllocError>
    requires { are_used_cases (trees cases.items) ≡ true }
    ensures { IfOk result (λ used. BecomesBy context.now used_cases (trees cases.items) (trees used.items)) }
{
    let mut used = Vec::new(alloc);
    for case in cases {
        let made = use_case(case, context, alloc)?;
        used.push(made)?;
    }
    Ok(used)
}

/// `case 1: const b = _usingCtx.u(c); f(b);` for `case 1: using b = c; f(b);`.
fn use_case(case: Node, context: &str, alloc: Global) -> Result<Node, AllocError>
    requires { is_used_case case ≡ true }
    ensures { IfOk result (λ used. BecomesBy context.now used_case case used) }
{
    let mut used = case;
    let fields = mem::replace(&mut used.fields, Vec::new(alloc));
    used.fields = use_in_case(fields, context, alloc)?;
    Ok(used)
}

fn use_in_case(fields: Vec<Field>, context: &str, alloc: Global) -> Result<Vec<Field>, AllocError>
    requires { holds_used (plain_fields fields.items) ≡ true }
    ensures { IfOk result (λ used. BecomesBy context.now with_constants (plain_fields fields.items) (plain_fields used.items)) }
{
    let [test, statements]: [Field; 2] = exactly(fields);
    let constants = make_constants(statements.into_statements(), context, alloc)?;
    let used = Vec::from_array(alloc, [test, Field::Statements(constants)])?;
    Ok(used)
}

/// `a: for (const b = _usingCtx.u(c); d; e) f(b);` for `a: for (using b = c; d; e) f(b);`, and likewise without the label.
fn use_loop(node: Node, context: &str, alloc: Global) -> Result<Node, AllocError>
    requires { leads_to_head node ≡ true }
    ensures { IfOk result (λ used. BecomesBy context.now used_loop node used) }
{
    match node.kind.ast_type() {
        AstType::LabeledStatement => {
            let LabeledStatement {
                id,
                span,
                label,
                body,
            } = LabeledStatement::open(node);
            let used = use_loop(body, context, alloc)?;
            let labelled = LabeledStatement {
                id,
                span,
                label,
                body: used,
            };
            let made = labelled.close(alloc)?;
            Ok(made)
        }
        AstType::ForStatement => use_head(node, context, alloc),
        _ => unreachable!(),
    }
}

/// `for (const a = _usingCtx.u(b); c; d) f(a);` for `for (using a = b; c; d) f(a);`.
fn use_head(node: Node, context: &str, alloc: Global) -> Result<Node, AllocError>
    requires { uses_in_head (fields_of node) ≡ true }
    ensures { IfOk result (λ used. BecomesBy context.now (with_fields used_head) node used) }
{
    let mut used = node;
    let fields = mem::replace(&mut used.fields, Vec::new(alloc));
    used.fields = use_in_head(fields, context, alloc)?;
    Ok(used)
}

fn use_in_head(fields: Vec<Field>, context: &str, alloc: Global) -> Result<Vec<Field>, AllocError>
    requires { uses_in_head (plain_fields fields.items) ≡ true }
    ensures { IfOk result (λ used. BecomesBy context.now used_head (plain_fields fields.items) (plain_fields used.items)) }
{
    let [head, test, update, body]: [Field; 4] = exactly(fields);
    let constants = make_declaration(head.into_node(), context, alloc)?;
    let used = Vec::from_array(alloc, [Field::One(constants), test, update, body])?;
    Ok(used)
}
