//! What the body of a function declares: by itself (ECMA-262, 8.2.4), and in what stands in it outside functions and static blocks, by `var`
//! (8.2.6) or as a function, which in a block is declared as by `var`, too (B.3.2.1).
ghost use Rattle.std.specs.Prelude.{◌≡◌, bytes_eq, codes};
ghost use Rattle.es_tree.specs.Heads.{head_of};
ghost use Rattle.es_tree.specs.Tree.{fields_of, kind_of, label_of, trees};
ghost use Rattle.es_tree.specs.Views.{plain_field, plain_fields};
ghost use Rattle.es_tree.specs.Words.{variable_declaration_kind_text};
ghost use Rattle.es_move_nodes.specs.MoveFields.{declares_in_list, first_is_called, pattern_binds};
ghost use Rattle.es_pattern_moves.specs.PatternMoves.{body_declares, declared_later, declarator_declares, top_declares, var_among, var_declares, var_here, var_in_field};
ghost use Rattle.es_resolution.specs.Declarations.{is_var_scope};
ghost use Rattle.es_rest_rows.specs.RestRows.{binds_name};
ghost use Rattle.es_rest_shapes.specs.RestShapes.{any_tree};

use crate::bound::{binds_name, is_called};
use es_tree::kind::Kind;
use es_tree::node::{Field, Node};
use es_tree::operators::VariableDeclarationKind;

/// Whether this name is bound after a parameter that stands before these parameters and a body of these statements.
pub fn declared_later(parameters: &[Node], statements: &[Node], name: &str) -> bool
    ensures { result ≡ declared_later (trees parameters.now) (trees statements.now) name.now }
{
    any_binds(name, parameters) || body_declares(statements, name)
}

fn any_binds(name: &str, patterns: &[Node]) -> bool
    ensures { result ≡ any_tree (binds_name name.now) (trees patterns.now) }
{
    patterns.iter().any(|pattern| binds_name(name, pattern))
}

/// Whether a body of these statements declares this name.
fn body_declares(statements: &[Node], name: &str) -> bool
    ensures { result ≡ body_declares (trees statements.now) name.now }
{
    any_top_declares(name, statements) || any_var_declares(name, statements)
}

fn any_top_declares(name: &str, statements: &[Node]) -> bool
    ensures { result ≡ any_tree (top_declares name.now) (trees statements.now) }
{
    statements
        .iter()
        .any(|statement| top_declares(name, statement))
}

/// Whether a statement of a body declares this name there.
fn top_declares(name: &str, statement: &Node) -> bool
    ensures { result ≡ top_declares name.now statement.now }
{
    match &statement.kind {
        Kind::VariableDeclaration { .. } => declares_in_list(name, statement.fields.as_slice()),
        Kind::FunctionDeclaration { .. } | Kind::ClassDeclaration { .. } => {
            first_is_called(name, statement.fields.as_slice())
        }
        _ => false,
    }
}

/// Whether the first of these fields is a node called by this name.
pub fn first_is_called(name: &str, fields: &[Field]) -> bool
    ensures { result ≡ first_is_called name.now (plain_fields fields.now) }
{
    match fields {
        [Field::One(node), ..] => is_called(name, node),
        _ => false,
    }
}

fn declares_in_list(name: &str, fields: &[Field]) -> bool
    ensures { result ≡ declares_in_list name.now (plain_fields fields.now) }
{
    match fields {
        [Field::Many(declarators), ..] => any_declarator_declares(name, declarators.as_slice()),
        _ => false,
    }
}

fn any_declarator_declares(name: &str, declarators: &[Node]) -> bool
    ensures { result ≡ any_tree (declarator_declares name.now) (trees declarators.now) }
{
    declarators
        .iter()
        .any(|declarator| declarator_declares(name, declarator))
}

fn declarator_declares(name: &str, declarator: &Node) -> bool
    ensures { result ≡ declarator_declares name.now declarator.now }
{
    match &declarator.kind {
        Kind::VariableDeclarator => pattern_binds(name, declarator.fields.as_slice()),
        _ => false,
    }
}

fn pattern_binds(name: &str, fields: &[Field]) -> bool
    ensures { result ≡ pattern_binds name.now (plain_fields fields.now) }
{
    match fields {
        [Field::One(pattern), ..] => binds_name(name, pattern),
        _ => false,
    }
}

fn any_var_declares(name: &str, nodes: &[Node]) -> bool
    ensures { result ≡ var_among name.now (trees nodes.now) }
{
    nodes.iter().any(|node| var_declares(name, node))
}

/// Whether this name is declared by `var`, or as a function, in what stands here, outside functions and static blocks.
#[cycle(declared)]
pub fn var_declares(name: &str, node: &Node) -> bool
    ensures { result ≡ var_declares name.now node.now }
{
    if is_var_scope(&node.kind) {
        return false;
    }
    if var_here(name, node) {
        return true;
    }
    for field in &node.fields {
        if var_in_field(name, field) {
            return true;
        }
    }
    false
}

#[cycle(declared)]
fn var_in_field(name: &str, field: &Field) -> bool
    ensures { result ≡ var_in_field name.now (plain_field field.now) }
{
    match field {
        Field::Missing => false,
        Field::One(node) => var_declares(name, node),
        Field::Many(nodes) | Field::Statements(nodes) => {
            for node in nodes {
                if var_declares(name, node) {
                    return true;
                }
            }
            false
        }
    }
}

/// Whether `var` declares in the scope of a node of this kind.
fn is_var_scope(kind: &Kind) -> bool
    ensures { result ≡ is_var_scope (head_of kind.now).kind }
{
    matches!(
        kind,
        Kind::Program { .. } | Kind::FunctionBody { .. } | Kind::StaticBlock { .. }
    )
}

/// Whether the node is a declaration of this name by `var`, or as a function.
fn var_here(name: &str, node: &Node) -> bool
    ensures { result ≡ var_here name.now (kind_of node.now) (label_of node.now) (fields_of node.now) }
{
    match &node.kind {
        Kind::VariableDeclaration { kind } => {
            is_var_word(*kind) && declares_in_list(name, node.fields.as_slice())
        }
        Kind::FunctionDeclaration { .. } => first_is_called(name, node.fields.as_slice()),
        _ => false,
    }
}

/// Whether this is the word `var`.
pub fn is_var_word(kind: VariableDeclarationKind) -> bool
    ensures { result ≡ bytes_eq (variable_declaration_kind_text kind) (codes "var") }
{
    matches!(kind, VariableDeclarationKind::Var)
}
