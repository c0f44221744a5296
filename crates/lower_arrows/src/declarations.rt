//! `var _this = this;` in the list of a target (ECMA-262, 14.3.2).
ghost use Rattle.std.specs.Prelude.{◌≡◌, ◌+◌, ◌-◌, ◌<◌, ◌^◌, IfOk, None, OnOk};
ghost use Rattle.es_tree.specs.Tree.{trees};
ghost use Rattle.es_steps.specs.Open.{no_additions, nothing_pending, whole_list};
ghost use Rattle.es_traverse.specs.Laws.{Seen, SeenAmong};
ghost use Rattle.lower_temporaries.specs.Takings.{moment_of, with_ids};
ghost use Rattle.lower_arrows.specs.Names.{IsName, ids_to_declare, name_in, this_declaration};

use crate::target::Target;
use es_expressions::literals::new_this_expression;
use es_scope::context::TraverseCtx;
use es_statements::program::{new_variable_declaration, new_variable_declarator};
use es_tree::builder::AstBuilder;
use es_tree::node::Node;
use es_tree::operators::VariableDeclarationKind;
use es_tree::sorts::Statement;
use lower_temporaries::declarations::MADE;
use lower_temporaries::state::TransformState;
use lower_writing::lists::{imports_before, put_at};
use std::alloc::AllocError;

/// Declares the name of a target, if one was made, before the first of these statements that is no import.
pub(crate) fn declare(
    target: Target,
    statements: &mut Vec<Statement>,
    ctx: &mut TraverseCtx<TransformState>,
) -> Result<(), AllocError>
    requires named { IsName target.name }
    requires room { ctx.old.ast.next + ids_to_declare target.name < 2 ^ 32 - 1 }
    ensures declared { OnOk result (SeenAmong (λ ts us. us ≡ whole_list nothing_pending (name_in target.name) no_additions ts) (trees statements.old.items) (trees statements.new.items)) }
    ensures moment { OnOk result (moment_of ctx.new ≡ with_ids (ids_to_declare target.name) (moment_of ctx.old)) }
{
    let Some(name) = target.name else {
        return Ok(());
    };
    let declaration = this_declaration(name, &mut ctx.ast)?;
    let place = imports_before(statements);
    put_at(statements, place, Some(declaration))?;
    Ok(())
}

/// `var name = this;`
fn this_declaration(name: Node, ast: &mut AstBuilder) -> Result<Statement, AllocError>
    requires room { ast.old.next + 3 < 2 ^ 32 - 1 }
    ensures made { IfOk result (λ node. Seen (λ p u. u ≡ this_declaration p) name node) }
    ensures counted { OnOk result (ast.new.next ≡ ast.old.next + 3) }
{
    let this = new_this_expression(ast, MADE)?;
    let declarator = new_variable_declarator(ast, MADE, name, Some(this))?;
    let declarators = Vec::from_array(ast.alloc, [declarator])?;
    let declaration = new_variable_declaration(
        ast,
        MADE,
        VariableDeclarationKind::Var,
        declarators,
    )?;
    Ok(declaration)
}
