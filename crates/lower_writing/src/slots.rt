//! Whether what stands at a place is a slot: the value of a class field, or a default value or a computed key in a
//! parameter (ECMA-262, 15.1 and 15.7).
ghost use Rattle.std.specs.Prelude.{◌≡◌};
ghost use Rattle.es_scope.specs.Contexts.{around_of};
ghost use Rattle.lower_writing.specs.Slots.{is_class_field, is_parameter_at, is_part_at, is_slot_at, reaches_parameter};

use es_scope::ancestor::Ancestor;
use es_scope::context::TraverseCtx;
use es_tree::ast_type::AstType;

/// Whether an expression at a place where a slot may stand is one: the value of a class field always is, a default value
/// or a computed key where its pattern is a parameter or a part of one.
pub(crate) fn is_slot<S>(ctx: &TraverseCtx<S>) -> bool
    ensures { result ≡ is_slot_at (around_of ctx.now) }
{
    let Some(parent) = ctx.ancestor(0) else {
        return false;
    };
    is_class_field(parent.kind) || reaches_parameter(ctx)
}

fn is_class_field(kind: AstType) -> bool
    ensures { result ≡ is_class_field kind }
{
    matches!(kind, AstType::PropertyDefinition)
}

/// Whether the pattern that the parent stands in is a parameter, or a part of one.
fn reaches_parameter<S>(ctx: &TraverseCtx<S>) -> bool
    ensures { result ≡ reaches_parameter (around_of ctx.now) }
{
    for place in 1..usize::MAX {
        let Some(ancestor) = ctx.ancestor(place) else {
            return false;
        };
        if is_parameter(ancestor) {
            return true;
        }
        if !is_part(ancestor) {
            return false;
        }
    }
    false
}

/// Whether this field of an ancestor has parameters.
fn is_parameter(ancestor: Ancestor) -> bool
    ensures { result ≡ is_parameter_at ancestor.kind ancestor.field }
{
    match ancestor.kind {
        AstType::FunctionDeclaration | AstType::FunctionExpression => ancestor.field == 1,
        AstType::ArrowFunctionExpression => ancestor.field == 0,
        _ => false,
    }
}

/// Whether this field of an ancestor has parts of the pattern that it is.
fn is_part(ancestor: Ancestor) -> bool
    ensures { result ≡ is_part_at ancestor.kind ancestor.field }
{
    match ancestor.kind {
        AstType::ObjectPattern | AstType::AssignmentPattern | AstType::RestElement => ancestor.field
            == 0,
        AstType::ArrayPattern => true,
        AstType::PatternProperty => ancestor.field == 1,
        _ => false,
    }
}
