//! The static rules, each as a test of one visit (early errors of ECMA-262).
ghost use Rattle.std.specs.Prelude.{◌≡◌, map, bytes_eq, codes, option_copied};
ghost use Rattle.std.specs.List.{list_any};
ghost use Rattle.es_tree.specs.Ancestors.{place_of};
ghost use Rattle.es_tree.specs.DeclaredNames.{declared};
ghost use Rattle.es_tree.specs.HasForm.{same_type};
ghost use Rattle.es_tree.specs.CoreStaticRules.{has_optional, is_bad_delete, is_bad_target, is_empty_chain, is_kept, is_kept_within, is_missing_init, is_name, is_optional, is_private_member, is_private_name, is_simple_target, is_stray_optional, needs_value};
ghost use Rattle.es_tree.specs.Table.{own_kinds};
ghost use Rattle.es_tree.specs.Tree.{kind_of, label_of};
ghost use Rattle.es_tree.specs.Words.{unary_operator_text};
ghost use Rattle.es_static_rules.specs.Bindings.{plain_name};
ghost use Rattle.es_static_rules.specs.Checks.{IsBrokenAnswer, IsFirstBroken};
ghost use Rattle.es_static_rules.specs.Outward.{outward};
ghost use Rattle.es_static_rules.specs.Parts.{has_optional_within};

use crate::ancestors::Ancestor;
use crate::classes::{is_bad_accessor, is_bad_class};
use crate::declarations::{is_bad_for, is_bad_rest, is_bad_using, is_misplaced_declaration};
use crate::functions::{is_misplaced_meta, is_misplaced_return, is_misplaced_super};
use crate::jumps::{is_duplicate_label, is_missing_label};
use crate::known_names::{KnownNames, has_clash};
use crate::modules::{is_bad_export, is_misplaced_module_item};
use crate::names::Name;
use es_tree::error::Rule;
use es_tree::kind::Kind;
use es_tree::node::Node;
use es_tree::operators::UnaryOperator;
use es_tree::parens::strip_parens;
use es_tree::place::Place;
use es_tree::table::Sort;

/// The rules, in the order of the answer at one node.
pub(crate) static ALL_RULES: [Rule; 19] = [
    Rule::DuplicateName,
    Rule::MissingLabel,
    Rule::DuplicateLabel,
    Rule::MisplacedReturn,
    Rule::MisplacedSuper,
    Rule::BadTarget,
    Rule::EmptyChain,
    Rule::StrayOptional,
    Rule::DeleteName,
    Rule::MissingInit,
    Rule::BadUsing,
    Rule::BadFor,
    Rule::MisplacedModuleItem,
    Rule::BadExport,
    Rule::BadClass,
    Rule::BadAccessor,
    Rule::BadRest,
    Rule::MisplacedDeclaration,
    Rule::MisplacedMeta,
];

/// A node where it stands, with the names that it declares.
#[derive(Clone, Copy)]
pub(crate) struct Visit<'v, 'a> {
    pub ancestors: &'v [Ancestor<'a>],
    pub place: Place,
    pub node: &'a Node,
    pub declared: &'v [Name<'a>],
}

/// The first of these rules that a visit breaks, where the program declares all these names, and these
/// names before it.
pub(crate) fn broken_rule(
    rules: &[Rule],
    all: &KnownNames,
    names: &KnownNames,
    visit: Visit,
) -> Option<Rule>
    requires place { visit.place ≡ place_of (outward visit.ancestors.now) }
    requires declared { map plain_name visit.declared.now ≡ declared (outward visit.ancestors.now) visit.node.now }
    ensures { IsFirstBroken all.now names.now (outward visit.entry.ancestors.now) visit.entry.node.now rules.now result }
{
    for rule in rules {
        if is_broken(*rule, all, names, visit) {
            return Some(*rule);
        }
    }
    None
}

/// Whether a visit breaks the rule.
fn is_broken(rule: Rule, all: &KnownNames, names: &KnownNames, visit: Visit) -> bool
    requires place { visit.place ≡ place_of (outward visit.ancestors.now) }
    requires declared { map plain_name visit.declared.now ≡ declared (outward visit.ancestors.now) visit.node.now }
    ensures { IsBrokenAnswer all.now names.now (outward visit.entry.ancestors.now) visit.entry.node.now rule result }
{
    let Visit {
        ancestors,
        place,
        node,
        declared,
    } = visit;
    match rule {
        Rule::DuplicateName => has_clash(rule, names, declared),
        Rule::MissingLabel => is_missing_label(ancestors, node),
        Rule::DuplicateLabel => is_duplicate_label(ancestors, node),
        Rule::MisplacedReturn => is_misplaced_return(ancestors, node),
        Rule::MisplacedSuper => is_misplaced_super(ancestors, node),
        Rule::BadTarget => is_bad_target(place, node),
        Rule::EmptyChain => is_empty_chain(node),
        Rule::StrayOptional => is_stray_optional(place, node),
        Rule::DeleteName => is_bad_delete(node),
        Rule::MissingInit => is_missing_init(place, node),
        Rule::BadUsing => is_bad_using(ancestors, node),
        Rule::BadFor => is_bad_for(ancestors, node),
        Rule::MisplacedModuleItem => is_misplaced_module_item(ancestors, node),
        Rule::BadExport => {
            has_clash(rule, names, declared) || is_bad_export(all, ancestors, node)
        }
        Rule::BadClass => has_clash(rule, names, declared) || is_bad_class(all, ancestors, node),
        Rule::BadAccessor => is_bad_accessor(node),
        Rule::BadRest => is_bad_rest(ancestors, node),
        Rule::MisplacedDeclaration => is_misplaced_declaration(ancestors, node),
        Rule::MisplacedMeta => is_misplaced_meta(ancestors, node),
    }
}

/// Whether the node is assigned, and is neither a name or a member, maybe in parentheses, nor a pattern
/// where the place takes one.
fn is_bad_target(place: Place, node: &Node) -> bool
    ensures { result ≡ is_bad_target place node.now }
{
    match place {
        Place::Target(sort) => !is_own_kind(sort, node) && !is_simple_target(strip_parens(node)),
        _ => false,
    }
}

fn is_own_kind(sort: Sort, node: &Node) -> bool
    ensures { result ≡ list_any (same_type (kind_of node.now)) (own_kinds sort) }
{
    sort.own_kinds().contains(&node.kind.ast_type())
}

pub(crate) fn is_simple_target(node: &Node) -> bool
    ensures { result ≡ is_simple_target (kind_of node.now) }
{
    matches!(
        node.kind,
        Kind::Identifier { .. } | Kind::MemberExpression { .. }
    )
}

/// Whether the node is a chain without an optional mark on its spine.
fn is_empty_chain(node: &Node) -> bool
    ensures { result ≡ is_empty_chain node.now }
{
    match &node.kind {
        Kind::ChainExpression => !has_optional_within(node.child_at(0)),
        _ => false,
    }
}

/// Whether the spine from here on has an optional mark.
#[cycle(spine)]
fn has_optional(node: &Node) -> bool
    ensures { result ≡ has_optional node.now }
{
    match &node.kind {
        Kind::MemberExpression { optional, .. } => {
            *optional || has_optional_within(node.child_at(0))
        }
        Kind::CallExpression { optional } => *optional || has_optional_within(node.child_at(0)),
        _ => false,
    }
}

#[cycle(spine)]
fn has_optional_within(node: Option<&Node>) -> bool
    ensures { result ≡ has_optional_within (option_copied node.entry) }
{
    match node {
        Some(node) => has_optional(node),
        None => false,
    }
}

/// Whether the node has an optional mark and stands on no chain's spine.
fn is_stray_optional(place: Place, node: &Node) -> bool
    ensures { result ≡ is_stray_optional place node.now }
{
    match place {
        Place::Spine => false,
        _ => is_optional(node),
    }
}

pub(crate) fn is_optional(node: &Node) -> bool
    ensures { result ≡ is_optional (kind_of node.now) (label_of node.now) }
{
    match &node.kind {
        Kind::MemberExpression { optional, .. } => *optional,
        Kind::CallExpression { optional } => *optional,
        _ => false,
    }
}

/// Whether the node deletes a plain name or a private member.
fn is_bad_delete(node: &Node) -> bool
    ensures { result ≡ is_bad_delete node.now }
{
    match &node.kind {
        Kind::UnaryExpression { operator } => is_delete(*operator)
            && is_kept_within(node.child_at(0)),
        _ => false,
    }
}

fn is_delete(operator: UnaryOperator) -> bool
    ensures { result ≡ bytes_eq (unary_operator_text operator) (codes "delete") }
{
    matches!(operator, UnaryOperator::Delete)
}

fn is_kept_within(node: Option<&Node>) -> bool
    ensures { result ≡ is_kept_within (option_copied node.entry) }
{
    match node {
        Some(node) => is_kept(strip_parens(node)),
        None => false,
    }
}

/// Whether the node is a plain name or a private member, which can't be deleted.
fn is_kept(node: &Node) -> bool
    ensures { result ≡ is_kept node.now }
{
    match &node.kind {
        Kind::Identifier { .. } => true,
        Kind::MemberExpression { .. } => is_private_name(node.child_at(1)),
        Kind::ChainExpression => is_private_member(node.child_at(0)),
        _ => false,
    }
}

fn is_private_member(node: Option<&Node>) -> bool
    ensures { result ≡ is_private_member (option_copied node.entry) }
{
    match node {
        Some(node) => match &node.kind {
            Kind::MemberExpression { .. } => is_private_name(node.child_at(1)),
            _ => false,
        },
        None => false,
    }
}

fn is_private_name(node: Option<&Node>) -> bool
    ensures { result ≡ is_private_name (option_copied node.entry) }
{
    match node {
        Some(node) => matches!(node.kind, Kind::PrivateIdentifier { .. }),
        None => false,
    }
}

/// Whether the node is a declarator that needs a value and has none.
fn is_missing_init(place: Place, node: &Node) -> bool
    ensures { result ≡ is_missing_init place node.now }
{
    match &node.kind {
        Kind::VariableDeclarator => {
            needs_value(place, node.child_at(0)) && node.child_at(1).is_none()
        }
        _ => false,
    }
}

/// Whether a declarator of this binding needs a value where it stands.
fn needs_value(place: Place, binding: Option<&Node>) -> bool
    ensures { result ≡ needs_value place (option_copied binding.entry) }
{
    match place {
        Place::Declarator { constant, .. } => constant || !is_name(binding),
        _ => false,
    }
}

pub(crate) fn is_name(node: Option<&Node>) -> bool
    ensures { result ≡ is_name (option_copied node.entry) }
{
    match node {
        Some(node) => matches!(node.kind, Kind::Identifier { .. }),
        None => false,
    }
}
