//! What a script requires, as statements.
ghost use Rattle.std.specs.Prelude.{◌≡◌, ◌+◌, ◌-◌, ◌*◌, ◌<◌, ◌^◌, IfOk, OnOk, length, map};
ghost use Rattle.std.specs.Option.{ForSome};
ghost use Rattle.es_tree.specs.Heads.{symbol as symbol_number};
ghost use Rattle.es_scope.specs.Contexts.{KeepsNames, table_of};
ghost use Rattle.es_scope.specs.Tables.{reference_count, symbol_count};
ghost use Rattle.lower_stores.specs.Imports.{by_default};
ghost use Rattle.lower_stores.specs.PlainHelpers.{plain_name};
ghost use Rattle.lower_stores.specs.PlainImports.{plain_import};
ghost use Rattle.lower_helpers.specs.Loading.{ReadsName};
ghost use Rattle.lower_helpers.specs.RequireNodes.{AreAlone, IsAlone, WritesRequires, first_import, require_node};

use crate::made_nodes::{MADE, READS, binding_identifier};
use es_expressions::literals::new_string_literal;
use es_expressions::members::new_call_expression;
use es_scope::context::TraverseCtx;
use es_scope::context_names::BoundIdentifier;
use es_statements::program::{new_variable_declaration, new_variable_declarator};
use es_tree::ids::SymbolId;
use es_tree::operators::VariableDeclarationKind;
use es_tree::sorts::Statement;
use lower_stores::module_imports::{Import, ModuleImportsStore};
use std::alloc::AllocError;

/// For each module, in order, a statement that requires it and declares its name by `var`. The store stays as it is.
/// Answers an error only for want of memory.
pub fn require_statements<S>(
    imports: &ModuleImportsStore,
    ctx: &mut TraverseCtx<S>,
) -> Result<Vec<Statement>, AllocError>
    requires alone { AreAlone imports.now }
    requires room { ctx.old.ast.next + 6 * length imports.now < 2 ^ 32 }
    ensures written { IfOk result (λ stmts. WritesRequires imports.now ctx.old ctx.new stmts.items) }
{
    let scope = ctx.current_scope_id();
    let symbol = ctx.scoping().find_binding(scope, "require");
    let mut statements = Vec::new(ctx.ast.alloc);
    for (source, imports) in imports.imports() {
        let local = default_import(imports);
        let statement = require_statement(source.as_str(), local, symbol, ctx)?;
        statements.push(statement)?;
    }
    Ok(statements)
}

/// The name of what is imported, where that is one thing by default.
fn default_import(imports: &[Import]) -> &BoundIdentifier
    requires { IsAlone (map plain_import imports.now) }
    ensures { by_default (plain_name result.now).name (plain_name result.now).symbol ≡ first_import (map plain_import imports.now) }
{
    match &imports[0] {
        Import::Default(local) => local,
        Import::Named(_named) => unreachable!(),
    }
}

/// `var local = require("source");`
fn require_statement<S>(
    source: &str,
    local: &BoundIdentifier,
    symbol: Option<SymbolId>,
    ctx: &mut TraverseCtx<S>,
) -> Result<Statement, AllocError>
    requires room { ctx.old.ast.next + 6 < 2 ^ 32 }
    requires known { ForSome symbol (λ s. s.0 < symbol_count (table_of ctx.old)) }
    ensures made { IfOk result (λ node. node ≡ require_node ctx.old.ast.next (reference_count (table_of ctx.old)) (symbol_number symbol) source.now (by_default (plain_name local.now).name (plain_name local.now).symbol)) }
    ensures names { OnOk result (KeepsNames ctx.old ctx.new) }
    ensures reads { OnOk result (ReadsName (table_of ctx.old) (symbol_number symbol) 6 ctx.old ctx.new) }
{
    let callee = ctx.create_ident_expr(MADE, "require", symbol, READS)?;
    let text = String::from_str(ctx.ast.alloc, source)?;
    let argument = new_string_literal(&mut ctx.ast, MADE, text)?;
    let arguments = Vec::from_array(ctx.ast.alloc, [argument])?;
    let call = new_call_expression(&mut ctx.ast, MADE, false, callee, arguments)?;
    let binding = binding_identifier(local, &mut ctx.ast)?;
    let declarator = new_variable_declarator(&mut ctx.ast, MADE, binding, Some(call))?;
    let declarations = Vec::from_array(ctx.ast.alloc, [declarator])?;
    let kind = VariableDeclarationKind::Var;
    let node = new_variable_declaration(&mut ctx.ast, MADE, kind, declarations)?;
    Ok(node)
}
