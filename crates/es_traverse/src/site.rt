//! What may stand at a place, by the table of fields.
ghost use Rattle.std.specs.Prelude.{◌≡◌, ◌≤◌, ◌<◌, ℕ, false, true};
ghost use Rattle.es_tree.specs.Heads.{head_of};
ghost use Rattle.es_tree.specs.Names.{has_computed};
ghost use Rattle.es_tree.specs.Tree.{kind_of, label_of};
ghost use Rattle.es_scope.specs.Contexts.{table_of};
ghost use Rattle.es_scope.specs.Tables.{scope_count};
ghost use Rattle.es_steps.specs.Open.{is_body};
ghost use Rattle.es_traverse.specs.Sites.{is_arrow_body, is_slot_place, may_be_slot, parameters_in, role_at};
ghost use Rattle.es_visit.specs.Counts.{parameters_at};

use es_scope::context::TraverseCtx;
use es_scope::outer_scopes::scope_of;
use es_tree::ast_type::AstType;
use es_tree::ids::{NodeId, ScopeId};
use es_tree::kind::Kind;
use es_tree::node::Node;
use es_tree::table::{Content, Sort};
use es_visit::hook::{Sort as NodeSort, sort_of};

/// What may stand at a place, as far as hooks ask.
#[derive(Clone, Copy, PartialEq, Eq, Debug)]
pub enum Site {
    Expression,
    /// An expression that may be a slot: the value of a class field, a default value, or a computed key of a pattern.
    Slot,
    Statement,
    /// The body of an arrow, a function body or an expression.
    ArrowBody,
    /// The list of parameters of a function or an arrow.
    Parameters,
    /// Bound names, labels, keys, parts of other nodes.
    Other,
}

/// As what a node stands at its place, as far as hooks ask.
#[derive(Clone, Copy, PartialEq, Eq, Debug)]
pub enum Role {
    Expression,
    Statement,
    Nothing,
}

/// As what a node of this kind stands at such a place.
pub fn role_at(kind: AstType, site: Site) -> Role
    ensures { result ≡ role_at kind site }
{
    if kind == AstType::CallExpression {
        return Role::Expression;
    }
    match (sort_of(kind), site) {
        (NodeSort::AlwaysExpression, _)
        | (NodeSort::MaybeExpression, Site::Expression)
        | (NodeSort::MaybeExpression, Site::Slot)
        | (NodeSort::MaybeExpression, Site::ArrowBody) => Role::Expression,
        (NodeSort::AlwaysStatement, _) | (NodeSort::MaybeStatement, Site::Statement) =>
            Role::Statement,
        _ => Role::Nothing,
    }
}

/// What the children of a node are told of it.
#[derive(Clone, Copy)]
pub struct Parent {
    pub kind: AstType,
    pub node: NodeId,
    /// Whether its key or property is any expression.
    pub is_computed: bool,
    /// The scope that it makes.
    pub scope: Option<ScopeId>,
}

/// What the children of this node are told of it.
pub fn parent_of(node: &Node) -> Parent
    ensures kind { result.kind ≡ kind_of node.now }
    ensures id { result.node.0 ≡ (label_of node.now).id }
    ensures computed { result.is_computed ≡ has_computed (kind_of node.now) (label_of node.now).flags }
{
    Parent {
        kind: node.kind.ast_type(),
        node: node.id,
        is_computed: is_computed(&node.kind),
        scope: scope_of(&node.kind),
    }
}

fn is_computed(kind: &Kind) -> bool
    ensures { result ≡ has_computed (head_of kind.now).kind (head_of kind.now).flags }
{
    match kind {
        Kind::MethodDefinition { computed, .. } => *computed,
        Kind::PropertyDefinition { computed, .. } => *computed,
        Kind::ObjectProperty { computed, .. } => *computed,
        Kind::PatternProperty { computed, .. } => *computed,
        Kind::TargetProperty { computed, .. } => *computed,
        Kind::MemberExpression { computed, .. } => *computed,
        _ => false,
    }
}

/// The scope of the places inside a node: the one that it makes, where the table has that, else the one
/// around it.
pub fn scope_inside<S>(ctx: &TraverseCtx<S>, scope: Option<ScopeId>) -> ScopeId
    ensures { result.0 < scope_count (table_of ctx.now) }
{
    match scope {
        Some(scope) if (scope.0 as usize) < ctx.scoping().scope_count() => scope,
        _ => ctx.current_scope_id(),
    }
}

/// What may stand in this field of the parent, or in the list of it; fields count from 0.
pub fn site_at(parent: Parent, index: usize) -> Site
    ensures parameters { (n : ℕ) → parameters_in n result ≤ parameters_at n parent.kind index }
    ensures bodies { is_arrow_body result ≡ is_body parent.kind index }
    ensures slots { is_slot_place result ≡ may_be_slot parent.kind index parent.is_computed }
{
    match (parent.kind, index) {
        (AstType::PropertyDefinition, 1) | (AstType::AssignmentPattern, 1) => Site::Slot,
        (AstType::PatternProperty, 0) if parent.is_computed => Site::Slot,
        (AstType::ArrowFunctionExpression, 1) => Site::ArrowBody,
        (AstType::FunctionDeclaration, 1) => Site::Parameters,
        (AstType::FunctionExpression, 1) => Site::Parameters,
        (AstType::ArrowFunctionExpression, 0) => Site::Parameters,
        _ => match sort_at(parent.kind, index) {
            Some(sort) => site_of(sort, parent.is_computed),
            None => Site::Other,
        },
    }
}

fn site_of(sort: Sort, is_computed: bool) -> Site
    ensures parameters { (n : ℕ) → parameters_in n result ≡ 0 }
    ensures bodies { is_arrow_body result ≡ false }
    ensures slots { is_slot_place result ≡ false }
{
    match sort {
        Sort::Statement => Site::Statement,
        Sort::Declaration => Site::Statement,
        Sort::PropertyKey if is_computed => Site::Expression,
        Sort::MemberProperty if is_computed => Site::Expression,
        _ if sort.takes_expressions() => Site::Expression,
        _ => Site::Other,
    }
}

/// The sort of what stands in a field, by the table. The elements of an array are fields of one sort.
fn sort_at(kind: AstType, index: usize) -> Option<Sort> {
    let mut left = match kind {
        AstType::ArrayExpression => 0,
        AstType::ArrayPattern => 0,
        AstType::ArrayTarget => 0,
        _ => index,
    };
    for entry in kind.entries() {
        if let Content::Child(sort, _often) = entry.content {
            if left == 0 {
                return Some(sort);
            }
            left -= 1;
        }
    }
    None
}
