//! The declaration that arrows leave for `this`: its name, and what is left of it without its value.
//!
//! Before:
//!
//!     var _this = this;
//!
//! After:
//!
//!     var _this;
//!
//! The rules are `this_name` and `without_value` of es_constructor_this.
ghost use Rattle.std.specs.Prelude.{◌≡◌, option_copied};
ghost use Rattle.es_tree.specs.Fresh.{is_among};
ghost use Rattle.es_tree.specs.Tree.{trees};
ghost use Rattle.es_tree.specs.Views.{plain_field, plain_fields};
ghost use Rattle.es_scope.specs.Contexts.{made_of};
ghost use Rattle.es_set_this.specs.ConstructorThis.{is_made_name, is_this, this_name};
ghost use Rattle.lower_constructor_this.specs.Parts.{declaration_without, declarators_without, in_declarations, in_declarator, in_declarators, in_parts, name_by, name_for, parts_without, text_of};

use es_scope::context::TraverseCtx;
use es_tree::kind::Kind;
use es_tree::node::{Field, Node};
use es_tree::operators::VariableDeclarationKind;

/// The name x of a declaration `var x = this;`, where x was made.
pub(crate) fn this_name<'a, S>(declaration: &'a Node, ctx: &TraverseCtx<S>) -> Option<&'a str>
    ensures { option_copied result ≡ this_name (is_among (made_of ctx.now)) declaration.now }
{
    match &declaration.kind {
        Kind::VariableDeclaration {
            kind: VariableDeclarationKind::Var,
        } => name_in_declarations(declaration.fields.as_slice(), ctx),
        _ => None,
    }
}

/// The same of its fields.
fn name_in_declarations<'a, S>(fields: &'a [Field], ctx: &TraverseCtx<S>) -> Option<&'a str>
    ensures { option_copied result ≡ in_declarations (is_among (made_of ctx.now)) (plain_fields fields.now) }
{
    if fields.len() != 1 {
        return None;
    }
    match &fields[0] {
        Field::Many(declarators) => name_in_declarators(declarators.as_slice(), ctx),
        _ => None,
    }
}

/// The same of its declarators `x = this`, where there is no other.
fn name_in_declarators<'a, S>(declarators: &'a [Node], ctx: &TraverseCtx<S>) -> Option<&'a str>
    ensures { option_copied result ≡ in_declarators (is_among (made_of ctx.now)) (trees declarators.now) }
{
    if declarators.len() != 1 {
        return None;
    }
    name_in_declarator(&declarators[0], ctx)
}

/// The same of its declarator `x = this`.
fn name_in_declarator<'a, S>(declarator: &'a Node, ctx: &TraverseCtx<S>) -> Option<&'a str>
    ensures { option_copied result ≡ in_declarator (is_among (made_of ctx.now)) declarator.now }
{
    match &declarator.kind {
        Kind::VariableDeclarator => name_in(declarator.fields.as_slice(), ctx),
        _ => None,
    }
}

/// The same of the fields of this one.
fn name_in<'a, S>(fields: &'a [Field], ctx: &TraverseCtx<S>) -> Option<&'a str>
    ensures { option_copied result ≡ in_parts (is_among (made_of ctx.now)) (plain_fields fields.now) }
{
    if fields.len() != 2 {
        return None;
    }
    name_by(&fields[0], &fields[1], ctx)
}

/// The same of the two fields.
fn name_by<'a, S>(name: &'a Field, value: &Field, ctx: &TraverseCtx<S>) -> Option<&'a str>
    ensures { option_copied result ≡ name_by (is_among (made_of ctx.now)) (plain_field name.now) (plain_field value.now) }
{
    match (name, value) {
        (Field::One(name), Field::One(value)) => name_for(name, value, ctx),
        _ => None,
    }
}

/// The same of the nodes in them.
fn name_for<'a, S>(name: &'a Node, value: &Node, ctx: &TraverseCtx<S>) -> Option<&'a str>
    ensures { option_copied result ≡ name_for (is_among (made_of ctx.now)) name.now value.now }
{
    if is_made_name(name, ctx) && is_this(value) {
        text_of(name)
    } else {
        None
    }
}

/// The text of an identifier.
fn text_of(node: &Node) -> Option<&str>
    ensures { option_copied result ≡ text_of node.now }
{
    match &node.kind {
        Kind::Identifier { name, .. } => Some(name.as_str()),
        _ => None,
    }
}

/// Whether the node is a name that was made.
fn is_made_name<S>(node: &Node, ctx: &TraverseCtx<S>) -> bool
    ensures { result ≡ is_made_name (is_among (made_of ctx.now)) node.now }
{
    match &node.kind {
        Kind::Identifier { name, .. } => {
            node.fields.is_empty() && ctx.is_fresh_name(name.as_str())
        }
        _ => false,
    }
}

/// Whether the node is `this`.
fn is_this(node: &Node) -> bool
    ensures { result ≡ is_this node.now }
{
    match &node.kind {
        Kind::ThisExpression => node.fields.is_empty(),
        _ => false,
    }
}

/// `var x;` for `var x = this;`.
pub(crate) fn remove_value(declaration: &mut Node)
    ensures { declaration.new ≡ declaration_without declaration.old }
{
    if declaration.fields.is_empty() {
        return;
    }
    match &mut declaration.fields[0] {
        Field::Many(declarators) => remove_first_value(declarators),
        _ => {}
    }
}

/// `x` for the declarators `x = this`.
fn remove_first_value(declarators: &mut Vec<Node>)
    ensures { trees declarators.new.items ≡ declarators_without (trees declarators.old.items) }
{
    if !declarators.is_empty() {
        remove_second(&mut declarators[0].fields);
    }
}

/// `x` for the fields of a declarator `x = this`.
fn remove_second(fields: &mut Vec<Field>)
    ensures { plain_fields fields.new.items ≡ parts_without (plain_fields fields.old.items) }
{
    if fields.len() > 1 {
        fields[1] = Field::Missing;
    }
}
