//! What a field of a node leads to, as far as arrows and slots ask. Fields count from 0.
ghost use Rattle.std.specs.Prelude.{◌≡◌};
ghost use Rattle.es_tree.specs.Ancestors.{ancestor, is_field_value};
ghost use Rattle.es_tree.specs.HasForm.{same_type};
ghost use Rattle.es_tree.specs.Tree.{done, kind_of, label_of};
ghost use Rattle.es_tree.specs.declared.ast_type.AstType.TheVariants.{ArrowFunctionExpression};
ghost use Rattle.es_steps.specs.Slots.{leads_to_parameter, leads_to_part, leads_to_value};
ghost use Rattle.es_steps.specs.ThisPlaces.{keeps_this};

use es_tree::kind::Kind;
use es_tree::node::Node;

/// Whether the field keeps a `this` from what is around: that of a function that is no arrow, of a static block, or the
/// value of a class field (ECMA-262, 9.4.4).
pub(crate) fn keeps_this(node: &Node, index: usize) -> bool
    ensures { result ≡ keeps_this (ancestor (kind_of node.now) (label_of node.now) done index 0) }
{
    match &node.kind {
        Kind::FunctionDeclaration { .. }
        | Kind::FunctionExpression { .. }
        | Kind::StaticBlock { .. } => true,
        Kind::PropertyDefinition { .. } => index == 1,
        _ => false,
    }
}

/// Whether the node is an arrow.
pub(crate) fn is_arrow(node: &Node) -> bool
    ensures { result ≡ same_type (kind_of node.now) ArrowFunctionExpression }
{
    matches!(node.kind, Kind::ArrowFunctionExpression { .. })
}

/// Whether the field is the value of a class field.
pub(crate) fn is_field_value(node: &Node, index: usize) -> bool
    ensures { result ≡ is_field_value (ancestor (kind_of node.now) (label_of node.now) done index 0) }
{
    match &node.kind {
        Kind::PropertyDefinition { .. } => index == 1,
        _ => false,
    }
}

/// Whether the field has parameters.
pub(crate) fn leads_to_parameter(node: &Node, index: usize) -> bool
    ensures { result ≡ leads_to_parameter (ancestor (kind_of node.now) (label_of node.now) done index 0) }
{
    match &node.kind {
        Kind::FunctionDeclaration { .. } | Kind::FunctionExpression { .. } => index == 1,
        Kind::ArrowFunctionExpression { .. } => index == 0,
        _ => false,
    }
}

/// Whether the field has parts of the pattern that the node is.
pub(crate) fn leads_to_part(node: &Node, index: usize) -> bool
    ensures { result ≡ leads_to_part (ancestor (kind_of node.now) (label_of node.now) done index 0) }
{
    match &node.kind {
        Kind::ObjectPattern | Kind::AssignmentPattern | Kind::RestElement => index == 0,
        Kind::ArrayPattern => true,
        Kind::PatternProperty { .. } => index == 1,
        _ => false,
    }
}

/// Whether the field is a default value or a computed key of a pattern.
pub(crate) fn leads_to_value(node: &Node, index: usize) -> bool
    ensures { result ≡ leads_to_value (ancestor (kind_of node.now) (label_of node.now) done index 0) }
{
    match &node.kind {
        Kind::AssignmentPattern => index == 1,
        Kind::PatternProperty { computed, .. } => index == 0 && *computed,
        _ => false,
    }
}
