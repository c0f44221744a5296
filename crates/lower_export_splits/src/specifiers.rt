//! The specifiers of a made export: one for each name that the declaration declares, in source order (ECMA-262, 8.2.1).
//!
//! | declared | specifiers |
//! |---|---|
//! | `const { a, ...b } = c` | `a, b` |
//! | `const { d: e, ...f } = g, [h] = i` | `e, f, h` |
//!
//! The rule is `specifiers` of es_export_splits.
ghost use Rattle.std.specs.Prelude.{◌≡◌, IfOk, OnOk, option_copied};
ghost use Rattle.es_tree.specs.BoundNames.{bound_identifiers};
ghost use Rattle.es_tree.specs.Tree.{trees};
ghost use Rattle.es_tree.specs.Views.{plain_fields};
ghost use Rattle.es_steps.specs.Nodes.{joined_trees};
ghost use Rattle.es_pattern_moves.specs.Moved.{plain_name};
ghost use Rattle.es_export_splits.specs.Splits.{names_of_declaration, names_of_declarator, plainly, specifier, specifiers, text_of};
ghost use Rattle.lower_export_splits.specs.Parts.{declarators_of, only_list, pattern_of};

use es_patterns::modules::ExportSpecifier;
use es_tree::kind::Kind;
use es_tree::node::{Field, Node};
use lower_fresh_names::nodes::{MADE, id_of, new_name};
use std::alloc::{AllocError, Global};

/// `a, b` for `const { a, ...b } = c`, and none for what is no declaration of variables. Fails only for want of memory.
pub fn specifiers_of(declaration: &Node, alloc: Global) -> Result<Vec<Node>, AllocError>
    ensures { IfOk result (λ made. trees made.items ≡ specifiers plainly (names_of_declaration declaration.now)) }
{
    let mut made = Vec::new(alloc);
    for declarator in declarators_of(declaration) {
        add_of_declarator(declarator, &mut made, alloc)?;
    }
    Ok(made)
}

/// The declarators of a declaration, and none of anything else.
fn declarators_of(declaration: &Node) -> &[Node]
    ensures { trees result.now ≡ declarators_of declaration.now }
{
    match &declaration.kind {
        Kind::VariableDeclaration { .. } => only_list(declaration.fields.as_slice()),
        _ => &[],
    }
}

fn only_list(fields: &[Field]) -> &[Node]
    ensures { trees result.now ≡ only_list (plain_fields fields.now) }
{
    if fields.len() != 1 {
        return &[];
    }
    match &fields[0] {
        Field::Many(nodes) => nodes.as_slice(),
        _ => &[],
    }
}

/// Puts one for each name that a declarator declares behind the others.
fn add_of_declarator(
    declarator: &Node,
    made: &mut Vec<Node>,
    alloc: Global,
) -> Result<(), AllocError>
    ensures { OnOk result (trees made.new.items ≡ joined_trees (trees made.old.items) (specifiers plainly (names_of_declarator declarator.now))) }
{
    match pattern_of(declarator) {
        Some(pattern) => add_of_pattern(pattern, made, alloc),
        None => Ok(()),
    }
}

/// The pattern of a declarator, or the name in its place.
fn pattern_of(declarator: &Node) -> Option<&Node>
    ensures { option_copied result ≡ pattern_of declarator.now }
{
    match &declarator.kind {
        Kind::VariableDeclarator => declarator.child_at(0),
        _ => None,
    }
}

/// Puts one for each name that a pattern binds behind the others.
fn add_of_pattern(pattern: &Node, made: &mut Vec<Node>, alloc: Global) -> Result<(), AllocError>
    ensures { OnOk result (trees made.new.items ≡ joined_trees (trees made.old.items) (specifiers plainly (bound_identifiers pattern.now))) }
{
    let names = pattern.bound_names(alloc)?;
    for name in &names {
        let specifier = new_specifier(name, alloc)?;
        made.push(specifier)?;
    }
    Ok(())
}

/// `a as a`. Fails only for want of memory.
pub fn new_specifier(name: &Node, alloc: Global) -> Result<Node, AllocError>
    ensures { IfOk result (λ made. made ≡ specifier plainly name.now) }
{
    let local = name_again(name, alloc)?;
    let exported = name_again(name, alloc)?;
    let specifier = ExportSpecifier {
        id: id_of(name),
        span: MADE,
        local,
        exported,
    };
    specifier.close(alloc)
}

/// A declared name once more. Fails only for want of memory.
pub fn name_again(name: &Node, alloc: Global) -> Result<Node, AllocError>
    ensures { IfOk result (λ made. made ≡ plain_name (text_of name.now) name.now) }
{
    new_name(id_of(name), text_of(name), alloc)
}

/// The text of a name.
fn text_of(name: &Node) -> &str
    ensures { result.now ≡ text_of name.now }
{
    name.kind.text(0).unwrap_or("")
}
