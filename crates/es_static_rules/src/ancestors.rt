//! The ancestors of a node, and what the static rules ask of the closest ones.
ghost use Rattle.std.specs.Prelude.{◌≡◌, ◌∷◌, [], ◌<◌, length, MatchOption};
ghost use Rattle.es_tree.specs.Ancestors.{is_boundary, is_class, is_function, is_loop, is_switch, leads_by, stands_in};
ghost use Rattle.es_tree.specs.HasForm.{same_type};
ghost use Rattle.es_static_rules.specs.Outward.{outward, plain_ancestor};

use es_tree::ast_type::AstType;
use es_tree::node::Node;

/// An ancestor of a node: the field of it that leads to the node, counted from 0, and its number in node
/// order, counted from 0.
#[derive(Clone, Copy)]
pub(crate) struct Ancestor<'a> {
    pub node: &'a Node,
    pub index: usize,
    pub number: u32,
}

impl Ancestor<'_> {
    pub(crate) fn kind(&self) -> AstType
        ensures { result ≡ (plain_ancestor self.now).kind }
    {
        let node = self.node;
        node.kind.ast_type()
    }

    pub(crate) fn is(&self, kind: AstType) -> bool
        ensures { result ≡ same_type (plain_ancestor self.now).kind kind }
    {
        kind == self.kind()
    }

    /// Whether it is of this kind and leads to the node by this field.
    pub(crate) fn leads_by(&self, kind: AstType, index: usize) -> bool
        ensures { result ≡ leads_by kind index (plain_ancestor self.now) }
    {
        self.is(kind) && self.index == index
    }
}

/// The parent and the ancestors around it.
pub(crate) fn split_parent<'s, 'a>(
    ancestors: &'s [Ancestor<'a>],
) -> Option<(&'s Ancestor<'a>, &'s [Ancestor<'a>])>
    ensures { MatchOption result (outward ancestors.now ≡ []) (λ r. (outward ancestors.now ≡ plain_ancestor r.0.now ∷ outward r.1.now) × (length r.1.now < length ancestors.now)) }
{
    ancestors.split_last()
}

/// Whether the parent is of this kind and leads to the node by this field.
pub(crate) fn stands_in(ancestors: &[Ancestor], kind: AstType, index: usize) -> bool
    ensures { result ≡ stands_in kind index (outward ancestors.now) }
{
    match split_parent(ancestors) {
        Some((parent, _)) => parent.leads_by(kind, index),
        None => false,
    }
}

/// Whether the node is a function that isn't an arrow.
pub(crate) fn is_function(kind: AstType) -> bool
    ensures { result ≡ is_function kind }
{
    matches!(
        kind,
        AstType::FunctionDeclaration | AstType::FunctionExpression
    )
}

pub(crate) fn is_class(kind: AstType) -> bool
    ensures { result ≡ is_class kind }
{
    matches!(kind, AstType::ClassDeclaration | AstType::ClassExpression)
}

/// Whether labels, loops and `var` don't reach through the node.
pub(crate) fn is_boundary(kind: AstType) -> bool
    ensures { result ≡ is_boundary kind }
{
    match kind {
        AstType::ArrowFunctionExpression | AstType::StaticBlock => true,
        _ => is_function(kind),
    }
}

pub(crate) fn is_loop(kind: AstType) -> bool
    ensures { result ≡ is_loop kind }
{
    matches!(
        kind,
        AstType::ForStatement
            | AstType::ForInStatement
            | AstType::ForOfStatement
            | AstType::WhileStatement
            | AstType::DoWhileStatement
    )
}

pub(crate) fn is_switch(kind: AstType) -> bool
    ensures { result ≡ is_switch kind }
{
    matches!(kind, AstType::SwitchStatement)
}
