//! The static rules of what belongs in functions: `return`, `super` and meta properties.
ghost use Rattle.std.specs.Prelude.{◌≡◌, ◌||◌, bytes_eq, codes, not, true};
ghost use Rattle.es_tree.specs.Ancestors.{has_new_target, has_super_calls, has_super_members, is_derived_constructor, is_field_value, is_in_function, is_method_value};
ghost use Rattle.es_tree.specs.HasForm.{same_type};
ghost use Rattle.es_tree.specs.Names.{first_text, flag_at};
ghost use Rattle.es_tree.specs.StaticRules.{is_misplaced_meta, is_misplaced_return, is_misplaced_super, is_unmarked_callee, is_unmarked_object};
ghost use Rattle.es_tree.specs.Tree.{kind_of, label_of};
ghost use Rattle.es_tree.specs.Words.{property_kind_text};
ghost use Rattle.es_static_rules.specs.Outward.{outward, plain_ancestor};
ghost use Rattle.es_static_rules.specs.Parts.{is_in_derived};

use crate::ancestors::{Ancestor, is_boundary, is_class, is_function, split_parent};
use crate::modules::is_module;
use crate::rules::is_optional;
use es_tree::ast_type::AstType;
use es_tree::kind::Kind;
use es_tree::node::Node;
use es_tree::operators::{MethodDefinitionKind, PropertyKind};

/// Whether the node is a `return` outside of functions (ECMA-262, 14.10).
pub(crate) fn is_misplaced_return(ancestors: &[Ancestor], node: &Node) -> bool
    ensures { result ≡ is_misplaced_return (outward ancestors.now) node.now }
{
    match &node.kind {
        Kind::ReturnStatement => !is_in_function(ancestors),
        _ => false,
    }
}

/// Whether the innermost of functions, arrows and static blocks around is no static block.
fn is_in_function(ancestors: &[Ancestor]) -> bool
    ensures { result ≡ is_in_function (outward ancestors.now) }
{
    match split_parent(ancestors) {
        Some((parent, outer)) => {
            if is_boundary(parent.kind()) {
                !parent.is(AstType::StaticBlock)
            } else {
                is_in_function(outer)
            }
        }
        None => false,
    }
}

/// Whether the node is a `super` that means nothing where it stands (ECMA-262, 13.3.7.1, 15.7.1).
pub(crate) fn is_misplaced_super(ancestors: &[Ancestor], node: &Node) -> bool
    ensures { result ≡ is_misplaced_super (outward ancestors.now) node.now }
{
    match &node.kind {
        Kind::Super => {
            !((is_unmarked_callee(ancestors) && has_super_calls(ancestors))
                || (is_unmarked_object(ancestors) && has_super_members(ancestors)))
        }
        _ => false,
    }
}

fn is_unmarked_callee(ancestors: &[Ancestor]) -> bool
    ensures { result ≡ is_unmarked_callee (outward ancestors.now) }
{
    match split_parent(ancestors) {
        Some((parent, _)) => {
            parent.leads_by(AstType::CallExpression, 0) && !is_optional(parent.node)
        }
        None => false,
    }
}

fn is_unmarked_object(ancestors: &[Ancestor]) -> bool
    ensures { result ≡ is_unmarked_object (outward ancestors.now) }
{
    match split_parent(ancestors) {
        Some((parent, _)) => {
            parent.leads_by(AstType::MemberExpression, 0) && !is_optional(parent.node)
        }
        None => false,
    }
}

/// Whether `super.x` may stand here.
fn has_super_members(ancestors: &[Ancestor]) -> bool
    ensures { result ≡ has_super_members (outward ancestors.now) }
{
    match split_parent(ancestors) {
        Some((parent, outer)) => {
            if is_function(parent.kind()) {
                is_method_value(outer)
            } else {
                parent.is(AstType::StaticBlock)
                    || is_field_value(parent)
                    || has_super_members(outer)
            }
        }
        None => false,
    }
}

/// Whether `super(..)` may stand here.
fn has_super_calls(ancestors: &[Ancestor]) -> bool
    ensures { result ≡ has_super_calls (outward ancestors.now) }
{
    match split_parent(ancestors) {
        Some((parent, outer)) => {
            if is_function(parent.kind()) {
                is_derived_constructor(outer)
            } else {
                !(parent.is(AstType::StaticBlock) || is_field_value(parent))
                    && has_super_calls(outer)
            }
        }
        None => false,
    }
}

/// Whether a function that stands here is that of a method, an accessor or a constructor.
fn is_method_value(ancestors: &[Ancestor]) -> bool
    ensures { result ≡ is_method_value (outward ancestors.now) }
{
    match split_parent(ancestors) {
        Some((parent, _)) => {
            parent.leads_by(AstType::MethodDefinition, 1)
                || (parent.leads_by(AstType::ObjectProperty, 1) && is_method(parent.node))
        }
        None => false,
    }
}

/// Whether a property is a method or an accessor.
fn is_method(property: &Node) -> bool
    ensures { same_type (kind_of property.now) AstType.ObjectProperty ≡ true → result ≡ (flag_at 0 (label_of property.now).flags || not (bytes_eq (first_text (label_of property.now).texts) (codes "init"))) }
{
    match &property.kind {
        Kind::ObjectProperty { kind, method, .. } => *method || !is_init(*kind),
        _ => false,
    }
}

fn is_init(kind: PropertyKind) -> bool
    ensures { result ≡ bytes_eq (property_kind_text kind) (codes "init") }
{
    matches!(kind, PropertyKind::Init)
}

/// Whether a function that stands here is the constructor of a class that extends another.
fn is_derived_constructor(ancestors: &[Ancestor]) -> bool
    ensures { result ≡ is_derived_constructor (outward ancestors.now) }
{
    match split_parent(ancestors) {
        Some((method, outer)) => {
            method.leads_by(AstType::MethodDefinition, 1)
                && is_constructor(method.node)
                && is_in_derived(outer)
        }
        None => false,
    }
}

/// Whether a method is a constructor.
fn is_constructor(method: &Node) -> bool
    ensures { same_type (kind_of method.now) AstType.MethodDefinition ≡ true → result ≡ bytes_eq (first_text (label_of method.now).texts) (codes "constructor") }
{
    match &method.kind {
        Kind::MethodDefinition { kind, .. } => matches!(kind, MethodDefinitionKind::Constructor),
        _ => false,
    }
}

/// Whether the parent is a class that extends another.
fn is_in_derived(ancestors: &[Ancestor]) -> bool
    ensures { result ≡ is_in_derived (outward ancestors.now) }
{
    match split_parent(ancestors) {
        Some((class, _)) => is_class(class.kind()) && class.node.child_at(1).is_some(),
        None => false,
    }
}

/// Whether the ancestor leads to the value of a class field.
fn is_field_value(ancestor: &Ancestor) -> bool
    ensures { result ≡ is_field_value (plain_ancestor ancestor.now) }
{
    ancestor.leads_by(AstType::PropertyDefinition, 1)
}

/// Whether the node is a `new.target` outside of functions, class fields and static blocks, or an
/// `import.meta` outside of modules (ECMA-262, 13.3.12.1).
pub(crate) fn is_misplaced_meta(ancestors: &[Ancestor], node: &Node) -> bool
    ensures { result ≡ is_misplaced_meta (outward ancestors.now) node.now }
{
    match &node.kind {
        Kind::MetaProperty { meta, .. } => {
            if meta.as_str() == "new" {
                !has_new_target(ancestors)
            } else {
                !is_module(ancestors)
            }
        }
        _ => false,
    }
}

/// Whether `new.target` may stand here.
fn has_new_target(ancestors: &[Ancestor]) -> bool
    ensures { result ≡ has_new_target (outward ancestors.now) }
{
    match split_parent(ancestors) {
        Some((parent, outer)) => {
            is_function(parent.kind())
                || parent.is(AstType::StaticBlock)
                || is_field_value(parent)
                || has_new_target(outer)
        }
        None => false,
    }
}
