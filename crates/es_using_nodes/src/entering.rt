//! Whether functions at the top of a body may become those of a block (ECMA-262, 14.2.1), in which the values of `using` are disposed of.
//!
//! A function at the top of a body is declared there as by `var` (8.2.10), and one of a block in the block alone, and as by `var` around it
//! only where no other declaration is in its way (B.3.2.1). So the functions of
//!
//!     function f(a) { using b = c; g(b); function g(x) {} }
//!
//! may become those of a block, and those of `function f(g) { using b = c; function g() {} }` may not, nor those of
//! `function f() { using b = c; var g; function g() {} }`.
ghost use Rattle.std.specs.Prelude.{◌≡◌};
ghost use Rattle.es_tree.specs.Names.{first_text};
ghost use Rattle.es_tree.specs.Tree.{label_of, trees};
ghost use Rattle.es_tree.specs.Views.{plain_fields};
ghost use Rattle.es_rest_rows.specs.RestRows.{binds_name};
ghost use Rattle.es_rest_shapes.specs.RestShapes.{any_tree};
ghost use Rattle.es_using_nodes.specs.BodyFields.{function_enters};
ghost use Rattle.es_using_rows.specs.UsingPlaces.{enters, is_alone, is_export, is_function_of, may_enter, var_at_top};

use es_move_nodes::bound::binds_name;
use es_move_nodes::declared::{first_is_called, var_declares};
use es_tree::kind::Kind;
use es_tree::node::{Field, Node};

/// Whether all functions at the top of a body of these statements may, where these are the parameters: each is alone in declaring its name. An
/// export, which stands in no body, may not.
pub fn may_enter(parameters: &[Node], statements: &[Node]) -> bool
    ensures { result ≡ may_enter (trees parameters.now) (trees statements.now) }
{
    for (index, statement) in statements.iter().enumerate() {
        let later = &statements[index + 1..];
        if !enters(parameters, statements, statement, later) {
            return false;
        }
    }
    true
}

/// Whether this statement, behind which these stand, is a function that may, or none.
fn enters(parameters: &[Node], statements: &[Node], statement: &Node, later: &[Node]) -> bool
    ensures { result ≡ enters (trees parameters.now) (trees statements.now) statement.now (trees later.now) }
{
    match &statement.kind {
        Kind::FunctionDeclaration { .. } => {
            function_enters(parameters, statements, statement.fields.as_slice(), later)
        }
        _ => !is_export(statement),
    }
}

/// Whether a function of these fields has a name, and is alone in declaring it.
fn function_enters(
    parameters: &[Node],
    statements: &[Node],
    fields: &[Field],
    later: &[Node],
) -> bool
    ensures { result ≡ function_enters (trees parameters.now) (trees statements.now) (plain_fields fields.now) (trees later.now) }
{
    match fields {
        [Field::One(name), ..] => is_alone(name_of(name), parameters, statements, later),
        _ => false,
    }
}

/// The name that an identifier is, its first text.
fn name_of(identifier: &Node) -> &str
    ensures { result.now ≡ first_text (label_of identifier.now).texts }
{
    identifier.kind.text(0).unwrap_or("")
}

/// Whether nothing else declares this name of a function: no parameter, no `var` (14.3.2) of the body, and no function among these later
/// statements, which stand behind it.
fn is_alone(name: &str, parameters: &[Node], statements: &[Node], later: &[Node]) -> bool
    ensures { result ≡ is_alone name.now (trees parameters.now) (trees statements.now) (trees later.now) }
{
    !any_binds(name, parameters)
        && !any_var_at_top(name, statements)
        && !any_function_of(name, later)
}

fn any_binds(name: &str, parameters: &[Node]) -> bool
    ensures { result ≡ any_tree (binds_name name.now) (trees parameters.now) }
{
    parameters
        .iter()
        .any(|parameter| binds_name(name, parameter))
}

fn any_var_at_top(name: &str, statements: &[Node]) -> bool
    ensures { result ≡ any_tree (var_at_top name.now) (trees statements.now) }
{
    statements
        .iter()
        .any(|statement| var_at_top(name, statement))
}

/// Whether a statement at the top declares this name by `var`, or as a function in a block, which is declared as by `var`, too (B.3.2.1):
/// `if (a) { var g; }` and `{ function g() {} }` do.
fn var_at_top(name: &str, statement: &Node) -> bool
    ensures { result ≡ var_at_top name.now statement.now }
{
    match &statement.kind {
        Kind::FunctionDeclaration { .. } => false,
        _ => var_declares(name, statement),
    }
}

fn any_function_of(name: &str, statements: &[Node]) -> bool
    ensures { result ≡ any_tree (is_function_of name.now) (trees statements.now) }
{
    statements
        .iter()
        .any(|statement| is_function_of(name, statement))
}

/// Whether the statement is a function of this name: two at the top of a body are declared one after the other (10.2.11), and in a block are an
/// error in strict code (14.2.1).
fn is_function_of(name: &str, statement: &Node) -> bool
    ensures { result ≡ is_function_of name.now statement.now }
{
    match &statement.kind {
        Kind::FunctionDeclaration { .. } => { first_is_called(name, statement.fields.as_slice()) }
        _ => false,
    }
}

/// Whether the statement is an export, which stands at the top of a module alone (16.2.3): `export function g() {}`.
fn is_export(statement: &Node) -> bool
    ensures { result ≡ is_export statement.now }
{
    matches!(
        statement.kind,
        Kind::ExportNamedDeclaration { .. } | Kind::ExportDefaultDeclaration { .. }
    )
}
