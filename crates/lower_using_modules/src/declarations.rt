//! What a statement becomes in the `try`: what it declares is declared by `var` (ECMA-262, 14.3.2), and so by the module as before.
//!
//! Before:
//!
//!     using a = b; export let c = d; class E {} export default f(a);
//!
//! After:
//!
//!     var a = _usingCtx.u(b); var c = d; var E = class E {}; var _default = f(a);
//!
//! The rule is `moved_inside` of es_using_modules.
ghost use Rattle.std.specs.Prelude.{◌≡◌, ◌≢◌, IfOk, None, Some, true};
ghost use Rattle.es_tree.specs.Children.{child_at};
ghost use Rattle.es_tree.specs.Tree.{fields_of, trees};
ghost use Rattle.es_tree.specs.Views.{plain_fields};
ghost use Rattle.es_tree.specs.Words.{Text};
ghost use Rattle.es_using_modules.specs.ModuleTops.{declared_inside, default_inside, moved_inside};
ghost use Rattle.lower_using.specs.Parts.{of_id};
ghost use Rattle.lower_using_modules.specs.Parts.{class_value, declarators_inside, is_class, is_list, is_variables, making, may_name};

use crate::kinds::{class_name, default_of, named_of};
use crate::names::local_name;
use es_statements::program::VariableDeclaration;
use es_tree::ids::NodeId;
use es_tree::kind::Kind;
use es_tree::node::{Field, Node, Parts};
use es_tree::operators::VariableDeclarationKind;
use lower_fresh_names::nodes::id_of;
use lower_using::constants::use_values;
use lower_using::made_nodes::new_variable;
use std::alloc::{AllocError, Global};

/// `var a = b;` for `export const a = b;`, and likewise without the export; `var _default = a;` for `export default a;`.
pub(crate) fn move_inside(
    statement: Node,
    default: &str,
    context: &str,
    alloc: Global,
) -> Result<Node, AllocError>
    ensures { IfOk result (λ moved. moved ≡ moved_inside (making default.now context.now) statement) }
{
    if named_of(&statement).is_some() {
        return declare_inside(first_child(statement), default, context, alloc);
    }
    if default_of(&statement).is_some() {
        let id = id_of(&statement);
        return declare_value(id, first_child(statement), default, alloc);
    }
    declare_inside(statement, default, context, alloc)
}

/// The node in the first field.
fn first_child(node: Node) -> Node
    requires { child_at 0 (fields_of node) ≢ None }
    ensures { child_at 0 (fields_of node) ≡ Some result }
{
    let Parts {
        id: _id,
        span: _span,
        kind: _kind,
        fields,
    } = node.into_parts();
    match fields.into_iter().next() {
        Some(field) => field.into_node(),
        None => unreachable!(),
    }
}

/// `var a = b;` for `let a = b;`, `var A = class A {};` for `class A {}`, and every other statement as it is.
fn declare_inside(
    statement: Node,
    default: &str,
    context: &str,
    alloc: Global,
) -> Result<Node, AllocError>
    ensures { IfOk result (λ made. made ≡ declared_inside (making default.now context.now) statement) }
{
    if is_variables(&statement) {
        return declare_variables(statement, context, alloc);
    }
    if class_name(&statement).is_some() {
        let id = id_of(&statement);
        return declare_value(id, statement, default, alloc);
    }
    Ok(statement)
}

/// Whether it is a declaration of variables, which has one list of declarators.
fn is_variables(node: &Node) -> bool
    ensures { result ≡ is_variables node.now }
{
    match &node.kind {
        Kind::VariableDeclaration { .. } => is_list(node.fields.as_slice()),
        _ => false,
    }
}

fn is_list(fields: &[Field]) -> bool
    ensures { result ≡ is_list (plain_fields fields.now) }
{
    match fields {
        [Field::Many(..)] => true,
        _ => false,
    }
}

/// `var a = _usingCtx.u(b);` for `using a = b;`, and `var a = b;` for `let a = b;`.
fn declare_variables(declaration: Node, context: &str, alloc: Global) -> Result<Node, AllocError>
    requires { is_variables declaration ≡ true }
    ensures { IfOk result (λ made. (default : Text) → made ≡ declared_inside (making default context.now) declaration) }
{
    let VariableDeclaration {
        id,
        span,
        kind,
        declarations: declarators,
    } = VariableDeclaration::open(declaration);
    let declarations = declare_values(kind, declarators, context, alloc)?;
    let variables = VariableDeclaration {
        id,
        span,
        kind: VariableDeclarationKind::Var,
        declarations,
    };
    let made = variables.close(alloc)?;
    Ok(made)
}

/// `a = _usingCtx.u(b)` for `a = b` of `using a = b;`, and the declarators of every other declaration as they are.
fn declare_values(
    kind: VariableDeclarationKind,
    declarators: Vec<Node>,
    context: &str,
    alloc: Global,
) -> Result<Vec<Node>, AllocError>
    ensures { IfOk result (λ made. trees made.items ≡ declarators_inside kind context.now (trees declarators.items)) }
{
    match kind {
        VariableDeclarationKind::Using => use_values(declarators, context, alloc),
        _ => Ok(declarators),
    }
}

/// `var _default = a;` for the value `a` with this id, and `var A = class A {};` for `class A {}`.
fn declare_value(
    id: NodeId,
    exported: Node,
    default: &str,
    alloc: Global,
) -> Result<Node, AllocError>
    ensures { IfOk result (λ made. (context : Text) → made ≡ default_inside (making default.now context) (of_id id.0) exported) }
{
    let binding = local_name(id, &exported, default, alloc)?;
    new_variable(id_of(&binding), binding, class_value(exported), alloc)
}

/// The value `class A {}` for the declaration `class A {}`, also without a name, and all else as it is.
fn class_value(exported: Node) -> Node
    ensures { result ≡ class_value exported }
{
    if !is_class(&exported) {
        return exported;
    }
    let Parts {
        id,
        span,
        kind,
        fields,
    } = exported.into_parts();
    let scope = match kind {
        Kind::ClassDeclaration { scope } => scope,
        _other => unreachable!(),
    };
    Node {
        id,
        span,
        kind: Kind::ClassExpression { scope },
        fields,
    }
}

/// Whether it is the declaration of a class.
fn is_class(node: &Node) -> bool
    ensures { result ≡ is_class node.now }
{
    match &node.kind {
        Kind::ClassDeclaration { .. } => may_name(node.fields.as_slice()),
        _ => false,
    }
}

/// Whether these begin with a name or none.
fn may_name(fields: &[Field]) -> bool
    ensures { result ≡ may_name (plain_fields fields.now) }
{
    match fields {
        [name, ..] => matches!(name, Field::Missing | Field::One(..)),
        [] => false,
    }
}
