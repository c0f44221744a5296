//! The scopes that what stands in the fields of a node stands in, as the marks of the program tell (ECMA-262, 9.1). Fields
//! count from 0.
ghost use Rattle.std.specs.Prelude.{◌≡◌, ◌&&◌, ℕ, ◌<◌, List, [], ◌∷◌, Some, None, true, if◌then◌else◌};
ghost use Rattle.es_tree.specs.Heads.{head_of, scope};
ghost use Rattle.es_tree.specs.Tree.{fields_of, kind_of, label_of};
ghost use Rattle.es_scope.specs.Tables.{scope_count};
ghost use Rattle.es_semantic.specs.Places.{first, has_name_scope, is_inside, makes_scope};
ghost use Rattle.es_semantic.specs.SymbolsOf.{Declared};
ghost use Rattle.es_semantic.specs.Walks.{Binds};
ghost use Rattle.es_unsupported.specs.ArrowShapes.{binds_arguments, may_bind_arguments};
ghost use Rattle.es_unsupported.specs.MarkedWalk.{around_marked, has_known_scope, scope_at, scope_mark};

use es_scope::scoping::Scoping;
use es_tree::ids::ScopeId;
use es_tree::kind::Kind;
use es_tree::node::Node;

/// The scope of what stands in the first field, and that of what stands in all later ones.
#[derive(Clone, Copy)]
pub(crate) struct FieldScopes {
    pub(crate) first: ScopeId,
    pub(crate) later: ScopeId,
}

impl FieldScopes {
    /// The scope of what stands in this field.
    pub(crate) fn at(self, index: usize) -> ScopeId
        ensures { result.0 ≡ scope_at self index }
    {
        if index == 0 { self.first } else { self.later }
    }
}

/// The scopes of what stands in the fields of a node that stands in this scope.
pub(crate) fn field_scopes(node: &Node, scope: ScopeId) -> FieldScopes
    ensures around { (up : List ℕ) → scope.0 ≡ first up → (i : ℕ) → scope_at result i ≡ first (around_marked up (kind_of node.now) (label_of node.now) (fields_of node.now) i) }
    ensures known { (count : ℕ) → scope.0 < count → has_known_scope count (kind_of node.now) (label_of node.now) (fields_of node.now) ≡ true → (i : ℕ) → scope_at result i < count }
{
    let Some(own) = own_scope(&node.kind) else {
        return FieldScopes {
            first: scope,
            later: scope,
        };
    };
    let around = if has_name_scope(node) {
        ScopeId(own.0.saturating_sub(1))
    } else {
        scope
    };
    let first = if is_inside(&node.kind) { own } else { around };
    FieldScopes { first, later: own }
}

/// Whether a scope that the node makes by itself binds `arguments`, where that is asked.
pub(crate) fn asked_arguments(asked: bool, node: &Node, scoping: &Scoping) -> bool
    requires { has_known_scope (scope_count scoping.now) (kind_of node.now) (label_of node.now) (fields_of node.now) ≡ true }
    ensures { (ds : List Declared) → Binds ds scoping.now → result ≡ (asked && binds_arguments ds (scope_mark (label_of node.now).marks) (kind_of node.now)) }
{
    asked && binds_arguments(node, scoping)
}

fn binds_arguments(node: &Node, scoping: &Scoping) -> bool
    requires { has_known_scope (scope_count scoping.now) (kind_of node.now) (label_of node.now) (fields_of node.now) ≡ true }
    ensures { (ds : List Declared) → Binds ds scoping.now → result ≡ binds_arguments ds (scope_mark (label_of node.now).marks) (kind_of node.now) }
{
    match arguments_scope(&node.kind) {
        Some(own) => scoping.get_binding(own, "arguments").is_some(),
        None => false,
    }
}

/// The scope of a node of this kind, if it may bind an `arguments` that stays as it is where the arrow around is a function.
fn arguments_scope(kind: &Kind) -> Option<ScopeId>
    ensures { scope result ≡ (if may_bind_arguments (head_of kind.now).kind then Some (scope_mark (head_of kind.now).marks) else None) }
{
    match kind {
        Kind::FunctionBody { .. } => None,
        _ => own_scope(kind),
    }
}

/// The scope that a node of this kind makes by itself.
fn own_scope(kind: &Kind) -> Option<ScopeId>
    ensures { scope result ≡ (if makes_scope (head_of kind.now).kind then Some (scope_mark (head_of kind.now).marks) else None) }
{
    match kind {
        Kind::BlockStatement { scope } => Some(marked(*scope)),
        Kind::StaticBlock { scope } => Some(marked(*scope)),
        Kind::FunctionDeclaration { scope } => Some(marked(*scope)),
        Kind::FunctionExpression { scope } => Some(marked(*scope)),
        Kind::FunctionBody { scope } => Some(marked(*scope)),
        Kind::ArrowFunctionExpression { scope } => Some(marked(*scope)),
        Kind::ClassDeclaration { scope } => Some(marked(*scope)),
        Kind::ClassExpression { scope } => Some(marked(*scope)),
        Kind::ForStatement { scope } => Some(marked(*scope)),
        Kind::ForInStatement { scope } => Some(marked(*scope)),
        Kind::ForOfStatement { scope } => Some(marked(*scope)),
        Kind::SwitchStatement { scope } => Some(marked(*scope)),
        Kind::CatchClause { scope } => Some(marked(*scope)),
        _ => None,
    }
}

fn marked(mark: Option<ScopeId>) -> ScopeId
    ensures { result.0 ≡ scope_mark (scope mark ∷ []) }
{
    mark.unwrap_or(ScopeId(0))
}

/// Whether a function expression has a name, which has a scope by itself, around the function's.
fn has_name_scope(node: &Node) -> bool
    ensures { result ≡ has_name_scope (kind_of node.now) (fields_of node.now) }
{
    match &node.kind {
        Kind::FunctionExpression { .. } => node.child_at(0).is_some(),
        _ => false,
    }
}

/// Whether what stands in this field of a node of this kind is inside the node's scope.
pub(crate) fn is_inside_at(kind: &Kind, index: usize) -> bool
    ensures { result ≡ is_inside (head_of kind.now).kind index }
{
    index != 0 || is_inside(kind)
}

/// Whether what stands in the first field of a node of this kind is inside the node's scope.
fn is_inside(kind: &Kind) -> bool
    ensures { result ≡ is_inside (head_of kind.now).kind 0 }
{
    !matches!(
        kind,
        Kind::FunctionDeclaration { .. }
            | Kind::FunctionExpression { .. }
            | Kind::ClassDeclaration { .. }
            | Kind::SwitchStatement { .. }
    )
}
