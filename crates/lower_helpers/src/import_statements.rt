//! The imports of a module as statements.
ghost use Rattle.std.specs.Prelude.{◌≡◌, ◌+◌, ◌-◌, ◌<◌, ◌^◌, IfOk, OnOk, map};
ghost use Rattle.lower_stores.specs.PlainImports.{plain_import};
ghost use Rattle.lower_helpers.specs.ImportNodes.{import_ids, import_node, import_statements, specifier_ids, specifier_node, specifiers, specifiers_ids};

use crate::made_nodes::{MADE, binding_identifier};
use es_expressions::literals::{new_identifier, new_string_literal};
use es_patterns::modules::{
    new_import_declaration, new_import_default_specifier, new_import_specifier,
};
use es_tree::builder::AstBuilder;
use es_tree::node::Node;
use es_tree::sorts::Statement;
use lower_stores::module_imports::{Import, ModuleImportsStore};
use std::alloc::AllocError;

/// For each module, in order, one statement that imports all that is to be imported of it. The store stays as it is.
/// Answers an error only for want of memory.
pub fn import_statements(
    imports: &ModuleImportsStore,
    ast: &mut AstBuilder,
) -> Result<Vec<Statement>, AllocError>
    requires room { ast.old.next + import_ids imports.now < 2 ^ 32 }
    ensures written { IfOk result (λ stmts. stmts.items ≡ import_statements ast.old.next imports.now) }
    ensures counted { OnOk result (ast.new.next ≡ ast.old.next + import_ids imports.now) }
{
    let mut statements = Vec::new(ast.alloc);
    for (source, imports) in imports.imports() {
        let statement = import_statement(source.as_str(), imports, ast)?;
        statements.push(statement)?;
    }
    Ok(statements)
}

/// `import .. from "source"`
fn import_statement(
    source: &str,
    imports: &[Import],
    ast: &mut AstBuilder,
) -> Result<Statement, AllocError>
    requires room { ast.old.next + (specifiers_ids (map plain_import imports.now) + 2) < 2 ^ 32 }
    ensures made { IfOk result (λ node. node ≡ import_node ast.old.next (source.now, map plain_import imports.now)) }
    ensures counted { OnOk result (ast.new.next ≡ ast.old.next + (specifiers_ids (map plain_import imports.now) + 2)) }
{
    let specifiers = import_specifiers(imports, ast)?;
    let text = String::from_str(ast.alloc, source)?;
    let source = new_string_literal(ast, MADE, text)?;
    let attributes = Vec::new(ast.alloc);
    let node = new_import_declaration(ast, MADE, specifiers, source, attributes)?;
    Ok(node)
}

fn import_specifiers(imports: &[Import], ast: &mut AstBuilder) -> Result<Vec<Node>, AllocError>
    requires room { ast.old.next + specifiers_ids (map plain_import imports.now) < 2 ^ 32 }
    ensures made { IfOk result (λ nodes. nodes.items ≡ specifiers ast.old.next (map plain_import imports.now)) }
    ensures counted { OnOk result (ast.new.next ≡ ast.old.next + specifiers_ids (map plain_import imports.now)) }
{
    let mut nodes = Vec::new(ast.alloc);
    for import in imports {
        let node = import_specifier(import, ast)?;
        nodes.push(node)?;
    }
    Ok(nodes)
}

/// `name` or `{ imported as name }`
fn import_specifier(import: &Import, ast: &mut AstBuilder) -> Result<Node, AllocError>
    requires room { ast.old.next + specifier_ids (plain_import import.now).imported < 2 ^ 32 }
    ensures made { IfOk result (λ node. node ≡ specifier_node ast.old.next (plain_import import.now)) }
    ensures counted { OnOk result (ast.new.next ≡ ast.old.next + specifier_ids (plain_import import.now).imported) }
{
    match import {
        Import::Named(named) => {
            let text = String::from_str(ast.alloc, named.imported.as_str())?;
            let imported = new_identifier(ast, MADE, text)?;
            let local = binding_identifier(&named.local, ast)?;
            let node = new_import_specifier(ast, MADE, imported, local)?;
            Ok(node)
        }
        Import::Default(local) => {
            let local = binding_identifier(local, ast)?;
            let node = new_import_default_specifier(ast, MADE, local)?;
            Ok(node)
        }
    }
}
