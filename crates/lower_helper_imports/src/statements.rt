//! The statements that import helpers: `import _objectSpread from "@oxc-project/runtime/helpers/objectSpread2";` in a module (ECMA-262, 16.2.2), and
//! `var _objectSpread = require("@oxc-project/runtime/helpers/objectSpread2");` in a script.
ghost use Rattle.std.specs.Prelude.{◌≡◌, IfOk, OnOk, map, string_bytes};
ghost use Rattle.es_tree.specs.Tree.{◌before◌, empty, trees};
ghost use Rattle.es_statements.specs.ProgramArity.{IsProgram};
ghost use Rattle.es_statements.specs.ProgramPlain.{plain_program};
ghost use Rattle.es_helper_calls.specs.Importing.{is_module};
ghost use Rattle.es_helper_imports.specs.Imported.{helper_source};
ghost use Rattle.es_steps.specs.Open.{is_import};
ghost use Rattle.es_top_imports.specs.TopImports.{with_top};
ghost use Rattle.lower_helper_imports.specs.Parts.{all_statements, import_statement, imports_before, require_statement, source_type, string_literal, top_statement};

use crate::calls::ID;
use es_expressions::literals::StringLiteral;
use es_expressions::members::CallExpression;
use es_patterns::modules::{ImportDeclaration, ImportDefaultSpecifier};
use es_statements::program::{Program, VariableDeclaration, VariableDeclarator};
use es_tree::helper::Helper;
use es_tree::kind::Kind;
use es_tree::node::Node;
use es_tree::operators::{SourceType, VariableDeclarationKind};
use es_tree::sorts::Statement;
use lower_fresh_names::nodes::{MADE, new_name};
use std::alloc::{AllocError, Global};

/// The program with a statement for each of these helpers, behind the imports that it begins with. Fails only for want of memory.
pub(crate) fn import_all(
    alloc: Global,
    program: Node,
    module_name: &str,
    helpers: &[Helper],
    names: &[String],
) -> Result<Node, AllocError>
    requires { IsProgram program }
    ensures { IfOk result (λ node. node ≡ with_top (trees (all_statements (source_type (is_module program)) module_name.now helpers.now (map string_bytes names.now))) program) }
{
    let mut program = Program::open(program);
    let mut index = imports_before(program.body.as_slice());
    for (helper, name) in helpers.iter().zip(names) {
        let statement = top_statement(
            alloc,
            program.source_type,
            module_name,
            *helper,
            name.as_str(),
        )?;
        program.body.insert(index, statement)?;
        index += 1;
    }
    program.close(alloc)
}

/// Puts a statement behind the imports that a program begins with. Fails only for want of memory.
pub fn put_behind_imports(program: &mut Program, statement: Statement) -> Result<(), AllocError>
    ensures { OnOk result (plain_program program.new ≡ with_top (statement before empty) (plain_program program.old)) }
{
    let index = imports_before(program.body.as_slice());
    program.body.insert(index, statement)?;
    Ok(())
}

/// How many imports a program begins with.
fn imports_before(statements: &[Statement]) -> usize
    ensures { result ≡ imports_before statements.now }
{
    for (index, statement) in statements.iter().enumerate() {
        if !is_import(statement) {
            return index;
        }
    }
    statements.len()
}

fn is_import(statement: &Statement) -> bool
    ensures { result ≡ is_import statement.now }
{
    matches!(statement.kind, Kind::ImportDeclaration { .. })
}

/// The statement by which a program gets a helper.
fn top_statement(
    alloc: Global,
    source_type: SourceType,
    module_name: &str,
    helper: Helper,
    name: &str,
) -> Result<Statement, AllocError>
    ensures { IfOk result (λ node. node ≡ top_statement source_type (helper_source module_name.now helper) name.now) }
{
    let source = new_source(alloc, module_name, helper)?;
    let local = new_name(ID, name, alloc)?;
    match source_type {
        SourceType::Module => new_import(alloc, local, source),
        SourceType::Script => new_require(alloc, local, source),
    }
}

/// `"@oxc-project/runtime/helpers/objectSpread2"`
fn new_source(alloc: Global, module_name: &str, helper: Helper) -> Result<Node, AllocError>
    ensures { IfOk result (λ node. node ≡ string_literal (helper_source module_name.now helper)) }
{
    let mut value = String::from_str(alloc, module_name)?;
    value.push_str("/helpers/")?;
    value.push_str(helper.name())?;
    let literal = StringLiteral {
        id: ID,
        span: MADE,
        value,
    };
    literal.close(alloc)
}

/// `import local from "source";`
fn new_import(alloc: Global, local: Node, source: Node) -> Result<Statement, AllocError>
    ensures { IfOk result (λ node. node ≡ import_statement local source) }
{
    let specifier = ImportDefaultSpecifier {
        id: ID,
        span: MADE,
        local,
    };
    let specifier = specifier.close(alloc)?;
    let declaration = ImportDeclaration {
        id: ID,
        span: MADE,
        specifiers: Vec::from_array(alloc, [specifier])?,
        source,
        attributes: Vec::new(alloc),
    };
    declaration.close(alloc)
}

/// `var local = require("source");`
fn new_require(alloc: Global, local: Node, source: Node) -> Result<Statement, AllocError>
    ensures { IfOk result (λ node. node ≡ require_statement local source) }
{
    let call = CallExpression {
        id: ID,
        span: MADE,
        optional: false,
        callee: new_name(ID, "require", alloc)?,
        arguments: Vec::from_array(alloc, [source])?,
    };
    let declarator = VariableDeclarator {
        id: ID,
        span: MADE,
        binding: local,
        init: Some(call.close(alloc)?),
    };
    let declarator = declarator.close(alloc)?;
    let declaration = VariableDeclaration {
        id: ID,
        span: MADE,
        kind: VariableDeclarationKind::Var,
        declarations: Vec::from_array(alloc, [declarator])?,
    };
    declaration.close(alloc)
}
