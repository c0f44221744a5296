//! Patterns move out of the parameters of a function into its body (ECMA-262, 10.2.11).
//!
//! Before:
//!
//!     function f({ a, ...b } = c, { ...d }) { g(b, d); }
//!
//! After:
//!
//!     function f(_ref = c, _ref2) { let { a, ...b } = _ref; let { ...d } = _ref2; g(b, d); }
//!
//! Each pattern gets a name of its own, and the declarations stand first in the body, in the order of the parameters. An arrow function whose
//! body is an expression gets a body of statements, which returns its value:
//!
//! Before:
//!
//!     ({ a, ...b }) => g(b)
//!
//! After:
//!
//!     (_ref) => { let { a, ...b } = _ref; return g(b); }
//!
//! The rules are `moved_function` and `moved_arrow` of es_pattern_moves.
ghost use Rattle.std.specs.Prelude.{◌≡◌, IfOk, OnOk, true};
ghost use Rattle.es_tree.specs.Tree.{Trees, label_of, trees};
ghost use Rattle.es_tree.specs.Views.{plain_fields};
ghost use Rattle.es_patterns.specs.PatternsArity.{IsAssignmentPattern};
ghost use Rattle.es_statements.specs.FunctionsArity.{IsFunctionBody};
ghost use Rattle.es_pattern_moves.specs.PatternMoves.{is_rest_parameter, moves_from_arrow, moves_from_function, moves_with_body, pattern_of};
ghost use Rattle.lower_pattern_moves.specs.Moves.{MovesAs};
ghost use Rattle.lower_pattern_moves.specs.Parts.{AddsParameter, moved_arrow_fields, moved_function_fields, moved_parameters, moved_with_body, named_by, returning_with, with_first};

use crate::made_nodes::{BASE, new_body, new_declaration, new_return};
use es_move_nodes::parameters::is_rest_parameter;
use es_patterns::patterns::AssignmentPattern;
use es_scope::uids::UidGenerator;
use es_statements::functions::FunctionBody;
use es_tree::ast_type::AstType;
use es_tree::node::{Field, Node, exactly};
use es_tree::operators::VariableDeclarationKind;
use lower_fresh_names::nodes::{id_of, new_name};
use std::alloc::{AllocError, Global};

/// `function f(_ref) { let { a, ...b } = _ref; g(b); }` for `function f({ a, ...b }) { g(b); }`.
pub(crate) fn move_out_of_function(
    fields: Vec<Field>,
    uids: &mut UidGenerator,
    alloc: Global,
) -> Result<Vec<Field>, AllocError>
    requires { moves_from_function (plain_fields fields.items) ≡ true }
    ensures { IfOk result (λ moved. MovesAs moved_function_fields uids.old uids.new (plain_fields fields.items) (plain_fields moved.items)) }
{
    let [name, parameters, body]: [Field; 3] = exactly(fields);
    let (named, declaring) = move_into_body(
        parameters.into_nodes(),
        body.into_node(),
        uids,
        alloc,
    )?;
    let moved = Vec::from_array(alloc, [name, Field::Many(named), Field::One(declaring)])?;
    Ok(moved)
}

/// `(_ref) => { let { a, ...b } = _ref; g(b); }` for `({ a, ...b }) => { g(b); }`, and for `({ a, ...b }) => g(b)`
/// `(_ref) => { let { a, ...b } = _ref; return g(b); }`.
pub(crate) fn move_out_of_arrow(
    fields: Vec<Field>,
    uids: &mut UidGenerator,
    alloc: Global,
) -> Result<Vec<Field>, AllocError>
    requires { moves_from_arrow (plain_fields fields.items) ≡ true }
    ensures { IfOk result (λ moved. MovesAs moved_arrow_fields uids.old uids.new (plain_fields fields.items) (plain_fields moved.items)) }
{
    let [parameters, body]: [Field; 2] = exactly(fields);
    let (named, declaring) = move_into_body(
        parameters.into_nodes(),
        body.into_node(),
        uids,
        alloc,
    )?;
    let moved = Vec::from_array(alloc, [Field::Many(named), Field::One(declaring)])?;
    Ok(moved)
}

/// `(_ref)` and `{ let { a, ...b } = _ref; g(b); }` for the parameters `({ a, ...b })` and the body `{ g(b); }`, and
/// `{ let { a, ...b } = _ref; return g(b); }` for the body `g(b)`.
fn move_into_body(
    parameters: Vec<Node>,
    body: Node,
    uids: &mut UidGenerator,
    alloc: Global,
) -> Result<(Vec<Node>, Node), AllocError>
    requires { moves_with_body (trees parameters.items) body ≡ true }
    ensures { IfOk result (λ moved. MovesAs (moved_with_body body) uids.old uids.new (trees parameters.items) (trees moved.0.items, moved.1)) }
{
    let (named, declared) = move_parameters(parameters, uids, alloc)?;
    let declaring = declare_first(declared, body, alloc)?;
    Ok((named, declaring))
}

/// `a, _ref = c` and `let { ...b } = _ref;` for the parameters `a, { ...b } = c`.
fn move_parameters(
    parameters: Vec<Node>,
    uids: &mut UidGenerator,
    alloc: Global,
) -> Result<(Vec<Node>, Vec<Node>), AllocError>
    ensures { IfOk result (λ moved. MovesAs moved_parameters uids.old uids.new (trees parameters.items) (trees moved.0.items, trees moved.1.items)) }
{
    let mut named = Vec::new(alloc);
    let mut declared = Vec::new(alloc);
    for parameter in parameters {
        add_parameter(parameter, &mut named, &mut declared, uids, alloc)?;
    }
    Ok((named, declared))
}

/// One parameter more, and the declaration of its pattern.
fn add_parameter(
    parameter: Node,
    named: &mut Vec<Node>,
    declared: &mut Vec<Node>,
    uids: &mut UidGenerator,
    alloc: Global,
) -> Result<(), AllocError>
    ensures { OnOk result (AddsParameter uids.old uids.new parameter named.old.items named.new.items declared.old.items declared.new.items) }
{
    if !is_rest_parameter(&parameter) {
        named.push(parameter)?;
        return Ok(());
    }
    let text = uids.generate(BASE)?;
    let (renamed, pattern) = put_name(parameter, text.as_str(), alloc)?;
    let id = id_of(&pattern);
    let value = new_name(id, text.as_str(), alloc)?;
    let kind = VariableDeclarationKind::Let;
    let declaration = new_declaration(kind, id, pattern, Some(value), alloc)?;
    named.push(renamed)?;
    declared.push(declaration)?;
    Ok(())
}

/// `_ref = c` and the pattern `{ a, ...b }` for the parameter `{ a, ...b } = c`, and `_ref` for one without a default value.
fn put_name(parameter: Node, text: &str, alloc: Global) -> Result<(Node, Node), AllocError>
    requires { is_rest_parameter parameter ≡ true }
    ensures named { IfOk result (λ put. put.0 ≡ named_by text.now parameter) }
    ensures pattern { IfOk result (λ put. put.1 ≡ pattern_of parameter) }
{
    match parameter.kind.ast_type() {
        AstType::AssignmentPattern => put_name_before_default(parameter, text, alloc),
        _ => {
            let name = new_name(id_of(&parameter), text, alloc)?;
            Ok((name, parameter))
        }
    }
}

/// `_ref = c` and `{ a, ...b }` for `{ a, ...b } = c`.
fn put_name_before_default(
    parameter: Node,
    text: &str,
    alloc: Global,
) -> Result<(Node, Node), AllocError>
    requires { IsAssignmentPattern parameter }
    ensures named { IfOk result (λ put. put.0 ≡ named_by text.now parameter) }
    ensures pattern { IfOk result (λ put. put.1 ≡ pattern_of parameter) }
{
    let AssignmentPattern {
        id,
        span,
        left,
        right,
    } = AssignmentPattern::open(parameter);
    let name = new_name(id_of(&left), text, alloc)?;
    let renamed = AssignmentPattern {
        id,
        span,
        left: name,
        right,
    };
    let made = renamed.close(alloc)?;
    Ok((made, left))
}

/// `{ let { a, ...b } = _ref; g(b); }` for the declaration `let { a, ...b } = _ref;` and the body `{ g(b); }`, and
/// `{ let { a, ...b } = _ref; return g(b); }` for the body `g(b)`.
fn declare_first(declared: Vec<Node>, body: Node, alloc: Global) -> Result<Node, AllocError>
    requires { (ps : Trees) × (moves_with_body ps body ≡ true) }
    ensures { IfOk result (λ put. put ≡ with_first (trees declared.items) body) }
{
    match body.kind.ast_type() {
        AstType::FunctionBody => put_first(declared, body, alloc),
        _ => return_after(declared, body, alloc),
    }
}

/// `{ let { a, ...b } = _ref; g(b); }` for the declaration `let { a, ...b } = _ref;` and the body `{ g(b); }`.
fn put_first(declared: Vec<Node>, body: Node, alloc: Global) -> Result<Node, AllocError>
    requires { IsFunctionBody body }
    ensures { IfOk result (λ put. put ≡ with_first (trees declared.items) body) }
{
    let FunctionBody {
        id,
        span,
        scope,
        directives,
        body: mut rest,
    } = FunctionBody::open(body);
    let mut statements = declared;
    statements.append(&mut rest)?;
    let put = FunctionBody {
        id,
        span,
        scope,
        directives,
        body: statements,
    };
    let made = put.close(alloc)?;
    Ok(made)
}

/// `{ let { a, ...b } = _ref; return g(b); }` for the declaration `let { a, ...b } = _ref;` and the value `g(b)`.
fn return_after(declared: Vec<Node>, value: Node, alloc: Global) -> Result<Node, AllocError>
    ensures { IfOk result (λ put. put ≡ returning_with (label_of value).id (trees declared.items) value) }
{
    let id = id_of(&value);
    let returned = new_return(id, value, alloc)?;
    let mut statements = declared;
    statements.push(returned)?;
    let made = new_body(id, statements, alloc)?;
    Ok(made)
}
