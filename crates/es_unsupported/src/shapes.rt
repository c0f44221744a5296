//! The shapes that a run doesn't take, each told at a node and the scope that the node stands in.
ghost use Rattle.std.specs.Prelude.{◌≡◌, ℕ, ◌<◌, ◌^◌, ◌&&◌, ◌||◌, List, codes, is_some};
ghost use Rattle.std.specs.Option.{option_or};
ghost use Rattle.es_tree.specs.Constructs.{is_exponentiation};
ghost use Rattle.es_tree.specs.Tree.{fields_of, kind_of, label_of};
ghost use Rattle.es_tree.specs.declared.options.EnvOptions.{EnvOptions as PlainOptions};
ghost use Rattle.es_nodes.specs.MaybeFields.{maybe_field};
ghost use Rattle.es_scope.specs.Tables.{scope_count};
ghost use Rattle.es_semantic.specs.Places.{first};
ghost use Rattle.es_semantic.specs.SymbolsOf.{Declared, find};
ghost use Rattle.es_semantic.specs.Walks.{Binds};
ghost use Rattle.es_conditions.specs.CoreConditions.{is_copied};
ghost use Rattle.es_rest_shapes.specs.HelperNames.{binds_name};
ghost use Rattle.es_unsupported.specs.MarkedWalk.{FindsFrom, refers_by_mark};
ghost use Rattle.es_unsupported.specs.NodePlaces.{place_shape};
ghost use Rattle.es_runs.specs.OptionalChaining.{is_chain_kind};
ghost use Rattle.es_chain_tags.specs.ChainTags.{has_chain_tag, is_chain_below};
ghost use Rattle.es_unsupported.specs.Shapes.{finds_helper, is_head_name, is_helper_bound, is_math_bound, is_spread_literal, is_tag_chain, is_unbuilt, is_using_function, meets_helpers, shape_at};
ghost use Rattle.es_unsupported.specs.Wanted.{IsWanted};

use crate::names::binds_anywhere;
use crate::node_places::{NodePlace, place_shape};
use crate::spread_literals::is_uncopied;
use crate::stray_rests::{holds_stray, stray_shape};
use es_nodes::construct::{is_exponentiation, is_object_spread, is_using};
use es_nodes::fields::field_at;
use es_nodes::rest_targets::is_target_with_rest;
use es_rest_nodes::strays::is_rest_declaration;
use es_scope::scoping::Scoping;
use es_tree::error::UnsupportedKind;
use es_tree::ids::ScopeId;
use es_tree::kind::Kind;
use es_tree::node::{Field, Node};
use es_tree::options::EnvOptions;
use es_tree::parens::strip_parens;
use es_using_nodes::bodies::clashes;
use es_using_nodes::heads::asks_its_name;

/// The shapes that a run doesn't take and the program may have.
#[derive(Clone, Copy)]
pub(crate) struct Wanted {
    pub(crate) stray_rest: bool,
    pub(crate) using_declaration: bool,
    pub(crate) math_bound: bool,
    pub(crate) helper_name: bool,
    pub(crate) spread_literal: bool,
    pub(crate) tag_chain: bool,
    pub(crate) arrows: bool,
}

impl Wanted {
    /// Those that these options ask for, without `MathBound` where no scope binds `Math`, and without `HelperName` where none binds
    /// `babelHelpers`.
    pub(crate) fn of_program(scoping: &Scoping, options: &EnvOptions) -> Wanted
        requires few { scope_count scoping.now < 2 ^ 32 }
        ensures { (ds : List Declared) → Binds ds scoping.now → IsWanted result options.now ds }
    {
        let copies = options.es2018.object_rest_spread.is_some();
        Wanted {
            stray_rest: copies,
            using_declaration: options.es2026.explicit_resource_management,
            math_bound: where_bound(options.es2016.exponentiation_operator, "Math", scoping),
            helper_name: where_bound(copies, "babelHelpers", scoping),
            spread_literal: copies,
            tag_chain: options.es2020.optional_chaining,
            arrows: options.es2015.arrow_function.is_some(),
        }
    }

    /// Whether there is one.
    pub(crate) fn any(self) -> bool
        ensures { result ≡ (self.stray_rest || self.using_declaration || self.math_bound || self.helper_name || self.spread_literal || self.tag_chain || self.arrows) }
    {
        self.stray_rest
            || self.using_declaration
            || self.math_bound
            || self.helper_name
            || self.spread_literal
            || self.tag_chain
            || self.arrows
    }
}

/// Whether a shape of nodes where this name is bound is looked for: it's asked for, and a scope binds the name.
fn where_bound(asked: bool, name: &str, scoping: &Scoping) -> bool
    requires few { scope_count scoping.now < 2 ^ 32 }
    ensures { (ds : List Declared) → Binds ds scoping.now → result ≡ (asked && binds_name name.now ds) }
{
    asked && binds_anywhere(scoping, name)
}

/// The first shape that a node in this scope and at this place has, of those that are looked for: one of the table, or one
/// that the place tells.
pub(crate) fn find_shape(
    node: &Node,
    scope: ScopeId,
    place: NodePlace,
    scoping: &Scoping,
    wanted: Wanted,
) -> Option<UnsupportedKind>
    requires { scope.0 < scope_count scoping.now }
    ensures { (o : PlainOptions) (ds : List Declared) (up : List ℕ) → IsWanted wanted o ds → scope.0 ≡ first up → FindsFrom scoping.now ds up → result ≡ option_or (shape_at o ds up (kind_of node.now) (label_of node.now) (fields_of node.now)) (place_shape o place (refers_by_mark (label_of node.now).marks) (kind_of node.now) (label_of node.now) (fields_of node.now)) }
{
    match shape_at(node, scope, scoping, wanted) {
        Some(shape) => Some(shape),
        None => place_shape(node, place, wanted.stray_rest, wanted.arrows),
    }
}

/// The first shape of the table that a node in this scope has, of those that are looked for.
fn shape_at(
    node: &Node,
    scope: ScopeId,
    scoping: &Scoping,
    wanted: Wanted,
) -> Option<UnsupportedKind>
    requires { scope.0 < scope_count scoping.now }
    ensures { (o : PlainOptions) (ds : List Declared) (up : List ℕ) → IsWanted wanted o ds → scope.0 ≡ first up → FindsFrom scoping.now ds up → result ≡ shape_at o ds up (kind_of node.now) (label_of node.now) (fields_of node.now) }
{
    if is_unbuilt(node, wanted) {
        return Some(stray_shape(node));
    }
    if is_math_bound(node, scope, scoping, wanted) {
        return Some(UnsupportedKind::MathBound);
    }
    if is_helper_bound(node, scope, scoping, wanted) {
        return Some(UnsupportedKind::HelperName);
    }
    if is_spread_literal(node, wanted) {
        return Some(UnsupportedKind::SpreadLiteral);
    }
    if is_tag_chain(node, wanted) {
        return Some(UnsupportedKind::TagChain);
    }
    if is_head_name(node, wanted) {
        return Some(UnsupportedKind::HeadName);
    }
    if is_using_function(node, wanted) {
        return Some(UnsupportedKind::UsingFunction);
    }
    None
}

/// Whether the node is a construct that no lowering takes.
fn is_unbuilt(node: &Node, wanted: Wanted) -> bool
    ensures { (o : PlainOptions) (ds : List Declared) (up : List ℕ) → IsWanted wanted o ds → result ≡ is_unbuilt o ds up (kind_of node.now) (label_of node.now) (fields_of node.now) }
{
    (wanted.stray_rest && holds_stray(node)) || (wanted.using_declaration && is_using(node))
}

/// Whether an exponentiation that is to be lowered stands where `Math` is bound.
fn is_math_bound(node: &Node, scope: ScopeId, scoping: &Scoping, wanted: Wanted) -> bool
    requires { scope.0 < scope_count scoping.now }
    ensures { (o : PlainOptions) (ds : List Declared) (up : List ℕ) → IsWanted wanted o ds → scope.0 ≡ first up → FindsFrom scoping.now ds up → result ≡ is_math_bound o ds up (kind_of node.now) (label_of node.now) (fields_of node.now) }
{
    wanted.math_bound && finds_math(node, scope, scoping)
}

/// Whether an exponentiation stands where `Math` is bound.
fn finds_math(node: &Node, scope: ScopeId, scoping: &Scoping) -> bool
    requires { scope.0 < scope_count scoping.now }
    ensures { (ds : List Declared) (up : List ℕ) → scope.0 ≡ first up → FindsFrom scoping.now ds up → result ≡ (is_exponentiation (kind_of node.now) (label_of node.now) (fields_of node.now) && is_some (find ds up (codes "Math"))) }
{
    is_exponentiation(node) && binds(scoping, scope, "Math")
}

/// Whether a node whose properties a helper copies stands where `babelHelpers` is bound, or a declaration of a rest in a program that binds it.
fn is_helper_bound(node: &Node, scope: ScopeId, scoping: &Scoping, wanted: Wanted) -> bool
    requires { scope.0 < scope_count scoping.now }
    ensures { (o : PlainOptions) (ds : List Declared) (up : List ℕ) → IsWanted wanted o ds → scope.0 ≡ first up → FindsFrom scoping.now ds up → result ≡ is_helper_bound o ds up (kind_of node.now) (label_of node.now) (fields_of node.now) }
{
    wanted.helper_name && meets_helpers(node, scope, scoping)
}

/// Whether a node whose properties a helper copies stands where `babelHelpers` is bound, or a rest is declared at all.
fn meets_helpers(node: &Node, scope: ScopeId, scoping: &Scoping) -> bool
    requires { scope.0 < scope_count scoping.now }
    ensures { (ds : List Declared) (up : List ℕ) → scope.0 ≡ first up → FindsFrom scoping.now ds up → result ≡ meets_helpers ds up (kind_of node.now) (label_of node.now) (fields_of node.now) }
{
    finds_helper(node, scope, scoping) || is_rest_declaration(node)
}

/// Whether a node whose properties a helper copies stands where `babelHelpers` is bound.
fn finds_helper(node: &Node, scope: ScopeId, scoping: &Scoping) -> bool
    requires { scope.0 < scope_count scoping.now }
    ensures { (ds : List Declared) (up : List ℕ) → scope.0 ≡ first up → FindsFrom scoping.now ds up → result ≡ finds_helper ds up (kind_of node.now) (label_of node.now) (fields_of node.now) }
{
    is_copied(node) && binds(scoping, scope, "babelHelpers")
}

/// Whether the node is an object literal with a spread, or an object pattern with a rest that is assigned to.
fn is_copied(node: &Node) -> bool
    ensures { result ≡ is_copied (kind_of node.now) (label_of node.now) (fields_of node.now) }
{
    is_object_spread(node) || is_target_with_rest(node)
}

/// Whether the node is an object literal with a spread whose properties can't be copied.
fn is_spread_literal(node: &Node, wanted: Wanted) -> bool
    ensures { (o : PlainOptions) (ds : List Declared) (up : List ℕ) → IsWanted wanted o ds → result ≡ is_spread_literal o ds up (kind_of node.now) (label_of node.now) (fields_of node.now) }
{
    wanted.spread_literal && is_uncopied(node)
}

/// Whether a chain that is to be lowered is the tag of the template that the node is.
fn is_tag_chain(node: &Node, wanted: Wanted) -> bool
    ensures { (o : PlainOptions) (ds : List Declared) (up : List ℕ) → IsWanted wanted o ds → result ≡ is_tag_chain o ds up (kind_of node.now) (label_of node.now) (fields_of node.now) }
{
    wanted.tag_chain && has_chain_tag(node)
}

/// Whether the node is a loop whose head declares a name by `using` that the right side asks.
fn is_head_name(node: &Node, wanted: Wanted) -> bool
    ensures { (o : PlainOptions) (ds : List Declared) (up : List ℕ) → IsWanted wanted o ds → result ≡ is_head_name o ds up (kind_of node.now) (label_of node.now) (fields_of node.now) }
{
    wanted.using_declaration && asks_its_name(node)
}

/// Whether the node is a function whose body declares directly by `using`, or a static block that does, and whose functions at the top can't
/// become those of a block.
fn is_using_function(node: &Node, wanted: Wanted) -> bool
    ensures { (o : PlainOptions) (ds : List Declared) (up : List ℕ) → IsWanted wanted o ds → result ≡ is_using_function o ds up (kind_of node.now) (label_of node.now) (fields_of node.now) }
{
    wanted.using_declaration && clashes(node)
}

/// Whether the name finds a binding from this scope outwards.
fn binds(scoping: &Scoping, scope: ScopeId, name: &str) -> bool
    requires { scope.0 < scope_count scoping.now }
    ensures { (ds : List Declared) (up : List ℕ) → scope.0 ≡ first up → FindsFrom scoping.now ds up → result ≡ is_some (find ds up name.now) }
{
    scoping.find_binding(scope, name).is_some()
}

/// Whether the node is a tagged template whose tag is an optional chain, maybe in parentheses.
fn has_chain_tag(node: &Node) -> bool
    ensures { result ≡ has_chain_tag (kind_of node.now) (label_of node.now) (fields_of node.now) }
{
    match &node.kind {
        Kind::TaggedTemplateExpression => is_chain_below(field_at(node, 0)),
        _ => false,
    }
}

/// Whether the field is an optional chain, maybe in parentheses.
fn is_chain_below(field: Option<&Field>) -> bool
    ensures { result ≡ is_chain_below (maybe_field field.entry) }
{
    match field {
        Some(Field::One(tag)) => is_chain(strip_parens(tag)),
        _ => false,
    }
}

fn is_chain(node: &Node) -> bool
    ensures { result ≡ is_chain_kind (kind_of node.now) }
{
    matches!(node.kind, Kind::ChainExpression)
}
