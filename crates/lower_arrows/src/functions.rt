//! An arrow as a function (ECMA-262, 15.3).
ghost use Rattle.std.specs.Prelude.{◌≡◌, ◌+◌, ◌-◌, ◌<◌, ◌^◌, ℕ, IfOk, OnOk, Option, true};
ghost use Rattle.es_tree.specs.HasForm.{same_type};
ghost use Rattle.es_tree.specs.Tree.{◌before◌, empty, fields_of, kind_of};
ghost use Rattle.es_tree.specs.Views.{plain_field, plain_fields};
ghost use Rattle.es_tree.specs.Words.{Text};
ghost use Rattle.es_tree.specs.declared.ast_type.AstType.TheVariants.{ArrowFunctionExpression};
ghost use Rattle.es_resolution.specs.Seen.{seen_in};
ghost use Rattle.es_steps.specs.Nodes.{body_node, return_node};
ghost use Rattle.es_steps.specs.Open.{is_statement_body};
ghost use Rattle.es_traverse.specs.Laws.{Seen};
ghost use Rattle.lower_arrows.specs.Functions.{SeenField, bodied_by, bodied_in, function_from, ids_by, ids_in};

use es_scope::outer_scopes::scope_of;
use es_statements::control::new_return_statement;
use es_statements::functions::new_function_body;
use es_tree::builder::AstBuilder;
use es_tree::kind::Kind;
use es_tree::node::{Field, Node};
use lower_temporaries::declarations::MADE;
use lower_temporaries::made_nodes::new_placeholder;
use std::alloc::AllocError;
use std::mem;

/// `(parameters) => body` becomes `function (parameters) { .. }`, which returns a body that is an expression.
pub(crate) fn become_function(arrow: &mut Node, ast: &mut AstBuilder) -> Result<(), AllocError>
    requires arrow { same_type (kind_of arrow.old) ArrowFunctionExpression ≡ true }
    requires room { ast.old.next + 2 < 2 ^ 32 - 1 }
    ensures made { OnOk result (Seen (λ t u. u ≡ function_from t) arrow.old arrow.new) }
    ensures counted { OnOk result (ast.new.next ≡ ast.old.next + ids_in (fields_of arrow.old)) }
{
    give_body(&mut arrow.fields, ast)?;
    arrow.fields.insert(0, Field::Missing)?;
    let scope = scope_of(&arrow.kind);
    arrow.kind = Kind::FunctionExpression { scope };
    Ok(())
}

/// The second of these fields becomes one with a body of statements.
fn give_body(fields: &mut Vec<Field>, ast: &mut AstBuilder) -> Result<(), AllocError>
    requires room { ast.old.next + 2 < 2 ^ 32 - 1 }
    ensures made { OnOk result ((names : ℕ → Text → Option ℕ) → seen_in names (plain_fields fields.new.items) ≡ bodied_in (seen_in names (plain_fields fields.old.items))) }
    ensures counted { OnOk result (ast.new.next ≡ ast.old.next + ids_in (plain_fields fields.old.items)) }
{
    if fields.len() < 2 {
        return Ok(());
    }
    return_expression(&mut fields[1], ast)?;
    Ok(())
}

/// The body of an arrow becomes one of statements: `e` becomes `{ return e; }`.
fn return_expression(field: &mut Field, ast: &mut AstBuilder) -> Result<(), AllocError>
    requires room { ast.old.next + 2 < 2 ^ 32 - 1 }
    ensures made { OnOk result (SeenField (λ f g. g ≡ bodied_by f) (plain_field field.old) (plain_field field.new)) }
    ensures counted { OnOk result (ast.new.next ≡ ast.old.next + ids_by (plain_field field.old)) }
{
    let Field::One(body) = field else {
        return Ok(());
    };
    if is_statement_body(body) {
        return Ok(());
    }
    let expression = mem::replace(body, new_placeholder(ast.alloc));
    *body = returning(expression, ast)?;
    Ok(())
}

/// Whether the body of an arrow is one of statements, and no expression.
fn is_statement_body(body: &Node) -> bool
    ensures { result ≡ is_statement_body body.now }
{
    matches!(body.kind, Kind::FunctionBody { .. })
}

/// `{ return expression; }`
fn returning(expression: Node, ast: &mut AstBuilder) -> Result<Node, AllocError>
    requires room { ast.old.next + 2 < 2 ^ 32 - 1 }
    ensures made { IfOk result (λ body. Seen (λ e u. u ≡ body_node (return_node e before empty)) expression body) }
    ensures counted { OnOk result (ast.new.next ≡ ast.old.next + 2) }
{
    let returned = new_return_statement(ast, MADE, Some(expression))?;
    let statements = Vec::from_array(ast.alloc, [returned])?;
    let directives = Vec::new(ast.alloc);
    let body = new_function_body(ast, MADE, directives, statements)?;
    Ok(body)
}
