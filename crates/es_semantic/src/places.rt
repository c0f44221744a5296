//! From the place of a node to those of its fields (ECMA-262, 8.2, 9.1, 10.2.11 and 11.2.2). Fields count from 0.
ghost use Rattle.std.specs.Prelude.{◌≡◌, ◌||◌, ◌<◌, ℕ, Some, if◌then◌else◌, option_copied};
ghost use Rattle.es_tree.specs.Heads.{head_of, scope};
ghost use Rattle.es_tree.specs.Tree.{Fields, fields_of, kind_of, label_of};
ghost use Rattle.es_semantic.specs.Places.{Place as PlainPlace, around_in, first, has_name_scope, has_strict_body, is_hoisted_to, is_inside, is_strict_by_itself, makes_scope, own_scope, parameters_in, place_in};
ghost use Rattle.es_semantic.specs.RolesOf.{role_at};
ghost use Rattle.es_semantic.specs.ScopesOf.{is_arrow, is_catch, is_constructor, is_derived, is_function, is_static_block, name_scope_flags, scope_flags};
ghost use Rattle.es_semantic.specs.Walks.{AreOwn, IsKnown, StandsAs};

use crate::building::has_use_strict;
use crate::place::{OwnScopes, Place, Role};
use crate::role_in::role_in;
use es_scope::flags::ScopeFlags;
use es_tree::ids::ScopeId;
use es_tree::kind::Kind;
use es_tree::node::Node;

/// Whether a node of this kind makes a scope inside a program.
pub(crate) fn makes_scope(kind: &Kind) -> bool
    ensures { result ≡ makes_scope (head_of kind.now).kind }
{
    matches!(
        kind,
        Kind::BlockStatement { .. }
            | Kind::StaticBlock { .. }
            | Kind::FunctionDeclaration { .. }
            | Kind::FunctionExpression { .. }
            | Kind::FunctionBody { .. }
            | Kind::ArrowFunctionExpression { .. }
            | Kind::ClassDeclaration { .. }
            | Kind::ClassExpression { .. }
            | Kind::ForStatement { .. }
            | Kind::ForInStatement { .. }
            | Kind::ForOfStatement { .. }
            | Kind::SwitchStatement { .. }
            | Kind::CatchClause { .. }
    )
}

/// Whether a function expression has a name, which has a scope by itself, around the function's.
pub(crate) fn has_name_scope(node: &Node) -> bool
    ensures { result ≡ has_name_scope (kind_of node.now) (fields_of node.now) }
{
    match &node.kind {
        Kind::FunctionExpression { .. } => node.child_at(0).is_some(),
        _ => false,
    }
}

/// Whether the code of a node that stands here is strict.
pub(crate) fn is_strict_in(place: Place, node: &Node) -> bool
    ensures { result ≡ (place.strict || is_strict_by_itself (kind_of node.now) (label_of node.now) (fields_of node.now)) }
{
    place.strict || is_strict_by_itself(node)
}

fn is_strict_by_itself(node: &Node) -> bool
    ensures { result ≡ is_strict_by_itself (kind_of node.now) (label_of node.now) (fields_of node.now) }
{
    match &node.kind {
        Kind::FunctionDeclaration { .. } | Kind::FunctionExpression { .. } => {
            has_strict_body(node.child_at(2))
        }
        Kind::ArrowFunctionExpression { .. } => has_strict_body(node.child_at(1)),
        Kind::FunctionBody { .. } => has_use_strict(node),
        Kind::ClassDeclaration { .. } | Kind::ClassExpression { .. } => true,
        _ => false,
    }
}

/// Whether the body of a function or an arrow has the directive `use strict`.
fn has_strict_body(body: Option<&Node>) -> bool
    ensures { result ≡ has_strict_body (option_copied body.entry) }
{
    match body {
        Some(body) => match &body.kind {
            Kind::FunctionBody { .. } => has_use_strict(body),
            _ => false,
        },
        None => false,
    }
}

/// The flags of the scope that a node of this kind makes, which stands here in strict code or not.
pub(crate) fn scope_flags(strict: bool, role: Role, kind: &Kind) -> ScopeFlags
    ensures { result ≡ scope_flags strict role (head_of kind.now).kind }
{
    ScopeFlags {
        function: is_function(kind),
        arrow: matches!(kind, Kind::ArrowFunctionExpression { .. }),
        top: false,
        class_static_block: matches!(kind, Kind::StaticBlock { .. }),
        catch_clause: matches!(kind, Kind::CatchClause { .. }),
        constructor: matches!(role, Role::Constructor(_)),
        derived: matches!(role, Role::Constructor(true)),
        strict,
    }
}

fn is_function(kind: &Kind) -> bool
    ensures { result ≡ is_function (head_of kind.now).kind }
{
    matches!(
        kind,
        Kind::FunctionDeclaration { .. }
            | Kind::FunctionExpression { .. }
            | Kind::ArrowFunctionExpression { .. }
    )
}

/// The flags of the scope of the name of a function expression.
pub(crate) fn name_scope_flags(strict: bool) -> ScopeFlags
    ensures { result ≡ name_scope_flags strict }
{
    ScopeFlags {
        function: false,
        arrow: false,
        top: false,
        class_static_block: false,
        catch_clause: false,
        constructor: false,
        derived: false,
        strict,
    }
}

/// The place of what stands in a field of a node that makes these scopes by itself.
pub(crate) fn place_in(
    place: Place,
    node: &Node,
    own: OwnScopes,
    strict: bool,
    index: usize,
) -> Place
    requires strict { strict ≡ (place.strict || is_strict_by_itself (kind_of node.now) (label_of node.now) (fields_of node.now)) }
    ensures stands { (p : PlainPlace) (n : ℕ) → StandsAs place p → AreOwn own n (kind_of node.now) (fields_of node.now) → StandsAs result (place_in p n (kind_of node.now) (label_of node.now) (fields_of node.now) index) }
    ensures known { (count : ℕ) → IsKnown place count → ((m : ℕ) → scope own.name ≡ Some m → m < count) → ((m : ℕ) → scope own.own ≡ Some m → m < count) → IsKnown result count }
{
    Place {
        role: role_in(place.role, node, index),
        scope: scope_in(place, own, &node.kind, index),
        hoist: hoist_in(place, own, &node.kind),
        parameters: parameters_in(place, &node.kind),
        strict,
    }
}

/// The scope that what stands in a field of a node of this kind stands in.
fn scope_in(place: Place, own: OwnScopes, kind: &Kind, index: usize) -> ScopeId
    ensures stands { (p : PlainPlace) (n : ℕ) (fs : Fields) → StandsAs place p → AreOwn own n (head_of kind.now).kind fs → result.0 ≡ first (around_in p.around n (head_of kind.now).kind fs index) }
    ensures known { (count : ℕ) → IsKnown place count → ((m : ℕ) → scope own.name ≡ Some m → m < count) → ((m : ℕ) → scope own.own ≡ Some m → m < count) → result.0 < count }
{
    match own.own {
        Some(scope) if is_inside(kind, index) => scope,
        _ => own.name.unwrap_or(place.scope),
    }
}

/// Whether what stands in a field of a node of this kind is inside the node's scope.
fn is_inside(kind: &Kind, index: usize) -> bool
    ensures { result ≡ is_inside (head_of kind.now).kind index }
{
    index != 0
        || !matches!(
            kind,
            Kind::FunctionDeclaration { .. }
                | Kind::FunctionExpression { .. }
                | Kind::ClassDeclaration { .. }
                | Kind::SwitchStatement { .. }
        )
}

/// The scope in which `var` declares inside a node of this kind.
fn hoist_in(place: Place, own: OwnScopes, kind: &Kind) -> ScopeId
    ensures stands { (p : PlainPlace) (n : ℕ) (fs : Fields) → StandsAs place p → AreOwn own n (head_of kind.now).kind fs → result.0 ≡ (if is_hoisted_to (head_of kind.now).kind then own_scope n (head_of kind.now).kind fs else p.hoist) }
    ensures known { (count : ℕ) → IsKnown place count → ((m : ℕ) → scope own.own ≡ Some m → m < count) → result.0 < count }
{
    if is_hoisted_to(kind) {
        own.own.unwrap_or(place.hoist)
    } else {
        place.hoist
    }
}

/// Whether `var` declares in the scope of a node of this kind (ECMA-262, 8.2.6).
fn is_hoisted_to(kind: &Kind) -> bool
    ensures { result ≡ is_hoisted_to (head_of kind.now).kind }
{
    matches!(kind, Kind::FunctionBody { .. } | Kind::StaticBlock { .. })
}

/// The scope of the parameters of the function whose body a node of this kind is, or is inside.
fn parameters_in(place: Place, kind: &Kind) -> Option<ScopeId>
    ensures stands { (p : PlainPlace) → StandsAs place p → scope result ≡ parameters_in p (head_of kind.now).kind }
    ensures known { (count : ℕ) → IsKnown place count → (n : ℕ) → scope result ≡ Some n → n < count }
{
    match kind {
        Kind::FunctionBody { .. } => Some(place.scope),
        Kind::StaticBlock { .. } => None,
        _ => place.parameters,
    }
}
