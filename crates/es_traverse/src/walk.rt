//! The visit: each node's enter hooks, its children in the order of the table of fields, its exit hooks.
ghost use Rattle.std.specs.Prelude.{◌≡◌, ◌+◌, ◌≤◌, ◌<◌, [], ℕ, OnOk, Option, false, length};
ghost use Rattle.es_tree.specs.Names.{has_computed};
ghost use Rattle.es_tree.specs.Tree.{Label, field_size, fields_size, kind_of, label_of, tree_size, trees};
ghost use Rattle.es_tree.specs.Views.{plain_field, plain_fields};
ghost use Rattle.es_tree.specs.Words.{Text};
ghost use Rattle.es_resolution.specs.Seen.{seen_by, seen_in};
ghost use Rattle.es_runs.specs.Weights.{field_weight, fields_weight, weight};
ghost use Rattle.es_scope.specs.Contexts.{around_of};
ghost use Rattle.es_statements.specs.ProgramPlain.{plain_program};
ghost use Rattle.es_visit.specs.Counts.{all_hooks, hooks_in, hooks_in_trees, own_parameters, total, total_among, total_at, total_in};
ghost use Rattle.es_visit.specs.Calls.{Counted, GoesAtBody, GoesByKind, GoesBySort, GoesIn, GoesOutAtBody, GoesOutByKind, GoesOutBySort, GoesOutOfNode, KeepsIds};
ghost use Rattle.es_steps.specs.Open.{nothing_pending};
ghost use Rattle.es_changes.specs.Changes.{Kept};
ghost use Rattle.es_changes.specs.Moments.{top as first_pending};
ghost use Rattle.es_traverse.specs.ContextMoments.{moment};
ghost use Rattle.es_traverse.specs.Laws.{CanVisit, IsReady, KeptLoad, KeptTree, KeptVisited, KeptVisitedTrees, MakesNone, Seen, SeenAmong};
ghost use Rattle.es_traverse.specs.Loads.{allowance, field_load, fields_load, load, own_allowance, trees_load, wrapping, writing};
ghost use Rattle.es_traverse.specs.Sites.{hook_of_role, is_arrow_body, parameters_in, role_at};
ghost use Rattle.es_traverse.specs.Visits.{EnteredKind, EnteredNode, EnteredSort, ExitedAt, ExitedKind, ExitedNode, ExitedSort, VisitedAt, VisitedField, VisitedFields, VisitedList, VisitedProgram, VisitedStatements, VisitedTrees, opens_at};

use crate::lowering::Additions;
use crate::site::{Parent, Role, Site, parent_of, role_at, scope_inside, site_at};
use crate::traverse::Traverse;
use es_scope::ancestor::Ancestor;
use es_scope::context::TraverseCtx;
use es_statements::program::Program;
use es_tree::ast_type::AstType;
use es_tree::node::{Field, Node};
use es_visit::hook::{Hook, hook_of_kind};
use es_visit::steps::Steps;
use std::alloc::AllocError;
use std::sync::ledger::Ledger;

/// Visits a whole program, from its own pair of lists to what is pending at the end: each node's enter
/// hooks, its children in the order of the table of fields, and its exit hooks. A node that an enter hook
/// made is visited as it stands after the hook. The type keeps the pairs, or nothing is pending in any state of the
/// visit. A step is a call of a hook. Fails only for want of memory; the program is then in no stated shape.
pub fn traverse<T: Traverse<S>, S: Additions, L: Ledger>(
    t: &mut T,
    program: &mut Program,
    ctx: &mut TraverseCtx<S>,
    steps: &mut Steps<L>,
) -> Result<(), AllocError>
    requires can { CanVisit S.pending T.keeps (T.profile ctx.old.options) }
    requires ready { IsReady T.suits t.old (moment S.pending ctx.old) (load (plain_program program.old)) }
    requires top { around_of ctx.old ≡ [] }
    ensures kept { OnOk result (KeptVisited 0 (moment S.pending ctx.old) (plain_program program.old) (moment S.pending ctx.new) (plain_program program.new)) }
    ensures visited { OnOk result (Seen (λ p q. VisitedProgram (T.profile ctx.old.options) (T.ending ctx.old.options) (moment S.pending ctx.old) p (moment S.pending ctx.new) q) (plain_program program.old) (plain_program program.new)) }
    ensures finished { OnOk result (first_pending (moment S.pending ctx.new).lists ≡ nothing_pending) }
    ensures calls { OnOk result (Counted T.suits T.tally T.entries ctx.old.options t.old t.new (λ m. total m (plain_program program.new))) }
    ensures cost { OnOk result (steps.new ≤ steps.old + hooks_in (plain_program program.new)) }
{
    steps.tick();
    t.enter_program(program, ctx)?;
    visit_program(t, program, ctx, steps)?;
    steps.tick();
    t.exit_program(program, ctx)?;
    Ok(())
}

/// Visits the statements of a program, between the hooks of the list, whose pair is there from the start.
/// Directives have no parts, and get no hooks.
fn visit_program<T: Traverse<S>, S: Additions, L: Ledger>(
    t: &mut T,
    program: &mut Program,
    ctx: &mut TraverseCtx<S>,
    steps: &mut Steps<L>,
) -> Result<(), AllocError>
    requires can { CanVisit S.pending T.keeps (T.profile ctx.old.options) }
    requires ready { IsReady T.suits t.old (moment S.pending ctx.old) (load (plain_program program.old)) }
    requires top { around_of ctx.old ≡ [] }
    ensures kept { OnOk result (KeptVisited 0 (moment S.pending ctx.old) (plain_program program.old) (moment S.pending ctx.new) (plain_program program.new)) }
    ensures visited { OnOk result (Seen (λ p q. VisitedStatements (T.profile ctx.old.options) (moment S.pending ctx.old) p (moment S.pending ctx.new) q) (plain_program program.old) (plain_program program.new)) }
    ensures calls { OnOk result (Counted T.suits T.tally T.entries ctx.old.options t.old t.new (λ m. m.list + total_among m (trees program.new.body.items))) }
    ensures cost { OnOk result (steps.new ≤ steps.old + 2 + hooks_in_trees (trees program.new.body.items)) }
{
    let ancestor = Ancestor {
        kind: AstType::Program,
        field: 1,
        node: program.id,
    };
    let scope = ctx.current_scope_id();
    ctx.enter_place(ancestor, scope)?;
    steps.tick();
    t.enter_statements(&mut program.body, ctx)?;
    visit_nodes(t, &mut program.body, Site::Statement, ctx, steps)?;
    steps.tick();
    t.exit_statements(&mut program.body, ctx)?;
    ctx.leave_place();
    Ok(())
}

/// Visits a node: its enter hooks, its fields as they stand then, its exit hooks.
#[cycle(visit)]
fn visit_node<T: Traverse<S>, S: Additions, L: Ledger>(
    t: &mut T,
    node: &mut Node,
    site: Site,
    ctx: &mut TraverseCtx<S>,
    steps: &mut Steps<L>,
) -> Result<(), AllocError>
    requires can { CanVisit S.pending T.keeps (T.profile ctx.old.options) }
    requires ready { IsReady T.suits t.old (moment S.pending ctx.old) (load node.old + allowance site) }
    requires deep { 0 < length (around_of ctx.old) }
    ensures kept { OnOk result (KeptVisited (allowance site) (moment S.pending ctx.old) node.old (moment S.pending ctx.new) node.new) }
    ensures visited { OnOk result (Seen (λ p q. VisitedAt site (T.profile ctx.old.options) (moment S.pending ctx.old) p (moment S.pending ctx.new) q) node.old node.new) }
    ensures calls { OnOk result (Counted T.suits T.tally T.entries ctx.old.options t.old t.new (λ m. total m node.new)) }
    ensures cost { OnOk result (steps.new ≤ steps.old + hooks_in node.new) }
{
    enter_node(t, node, site, ctx, steps)?;
    let parent = parent_of(node);
    visit_fields(t, &mut node.fields, parent, ctx, steps)?;
    exit_node(t, node, site, ctx, steps)?;
    Ok(())
}

/// Visits the fields of a node in their order.
#[cycle(visit)]
fn visit_fields<T: Traverse<S>, S: Additions, L: Ledger>(
    t: &mut T,
    fields: &mut Vec<Field>,
    parent: Parent,
    ctx: &mut TraverseCtx<S>,
    steps: &mut Steps<L>,
) -> Result<(), AllocError>
    requires can { CanVisit S.pending T.keeps (T.profile ctx.old.options) }
    requires ready { IsReady T.suits t.old (moment S.pending ctx.old) (fields_load (plain_fields fields.old.items) + own_allowance parent.kind) }
    requires deep { 0 < length (around_of ctx.old) }
    ensures kept { OnOk result (Kept (moment S.pending ctx.old) (fields_load (plain_fields fields.old.items) + own_allowance parent.kind) (fields_size (plain_fields fields.old.items)) (moment S.pending ctx.new) (fields_weight (plain_fields fields.new.items)) (fields_size (plain_fields fields.new.items))) }
    ensures visited { OnOk result ((names : ℕ → Text → Option ℕ) (l : Label) → parent.is_computed ≡ has_computed parent.kind l.flags → VisitedFields (T.profile ctx.old.options) parent.kind l (moment S.pending ctx.old) (seen_in names (plain_fields fields.old.items)) (moment S.pending ctx.new) (seen_in names (plain_fields fields.new.items))) }
    ensures calls { OnOk result (Counted T.suits T.tally T.entries ctx.old.options t.old t.new (λ m. own_parameters m.parameters parent.kind + total_in m (plain_fields fields.new.items))) }
    ensures cost { OnOk result (steps.new ≤ steps.old + (own_parameters 2 parent.kind + total_in all_hooks (plain_fields fields.new.items))) }
{
    for index in 0..fields.len() {
        let ancestor = Ancestor {
            kind: parent.kind,
            field: index,
            node: parent.node,
        };
        let scope = scope_inside(ctx, parent.scope);
        ctx.enter_place(ancestor, scope)?;
        visit_field(t, &mut fields[index], site_at(parent, index), ctx, steps)?;
        ctx.leave_place();
    }
    Ok(())
}

/// Visits what stands in a field.
#[cycle(visit)]
fn visit_field<T: Traverse<S>, S: Additions, L: Ledger>(
    t: &mut T,
    field: &mut Field,
    site: Site,
    ctx: &mut TraverseCtx<S>,
    steps: &mut Steps<L>,
) -> Result<(), AllocError>
    requires can { CanVisit S.pending T.keeps (T.profile ctx.old.options) }
    requires ready { IsReady T.suits t.old (moment S.pending ctx.old) (field_load (plain_field field.old) + allowance site) }
    requires deep { 1 < length (around_of ctx.old) }
    ensures kept { OnOk result (Kept (moment S.pending ctx.old) (field_load (plain_field field.old) + allowance site) (field_size (plain_field field.old)) (moment S.pending ctx.new) (field_weight (plain_field field.new)) (field_size (plain_field field.new))) }
    ensures visited { OnOk result ((names : ℕ → Text → Option ℕ) → VisitedField (T.profile ctx.old.options) site (moment S.pending ctx.old) (seen_by names (plain_field field.old)) (moment S.pending ctx.new) (seen_by names (plain_field field.new))) }
    ensures calls { OnOk result (Counted T.suits T.tally T.entries ctx.old.options t.old t.new (λ m. parameters_in m.parameters site + total_at m (plain_field field.new))) }
    ensures cost { OnOk result (steps.new ≤ steps.old + (parameters_in 2 site + total_at all_hooks (plain_field field.new))) }
{
    match field {
        Field::Missing => {}
        Field::One(node) => visit_node(t, node, site, ctx, steps)?,
        Field::Many(nodes) => visit_list(t, nodes, site, ctx, steps)?,
        Field::Statements(statements) => visit_statements(t, statements, ctx, steps)?,
    }
    Ok(())
}

/// Visits the nodes of a list, and where they are parameters calls the hooks of their list.
#[cycle(visit)]
fn visit_list<T: Traverse<S>, S: Additions, L: Ledger>(
    t: &mut T,
    nodes: &mut Vec<Node>,
    site: Site,
    ctx: &mut TraverseCtx<S>,
    steps: &mut Steps<L>,
) -> Result<(), AllocError>
    requires can { CanVisit S.pending T.keeps (T.profile ctx.old.options) }
    requires ready { IsReady T.suits t.old (moment S.pending ctx.old) (trees_load (trees nodes.old.items)) }
    requires deep { 0 < length (around_of ctx.old) }
    ensures kept { OnOk result (KeptVisitedTrees (moment S.pending ctx.old) (trees nodes.old.items) (moment S.pending ctx.new) (trees nodes.new.items)) }
    ensures visited { OnOk result (SeenAmong (λ ps qs. VisitedTrees (T.profile ctx.old.options) (moment S.pending ctx.old) ps (moment S.pending ctx.new) qs) (trees nodes.old.items) (trees nodes.new.items)) }
    ensures calls { OnOk result (Counted T.suits T.tally T.entries ctx.old.options t.old t.new (λ m. parameters_in m.parameters site + total_among m (trees nodes.new.items))) }
    ensures cost { OnOk result (steps.new ≤ steps.old + (parameters_in 2 site + hooks_in_trees (trees nodes.new.items))) }
{
    match site {
        Site::Parameters => visit_parameters(t, nodes, ctx, steps),
        Site::ArrowBody | Site::Slot => visit_nodes(t, nodes, Site::Other, ctx, steps),
        _ => visit_nodes(t, nodes, site, ctx, steps),
    }
}

/// Visits the nodes of a list in their order.
#[cycle(visit)]
fn visit_nodes<T: Traverse<S>, S: Additions, L: Ledger>(
    t: &mut T,
    nodes: &mut Vec<Node>,
    site: Site,
    ctx: &mut TraverseCtx<S>,
    steps: &mut Steps<L>,
) -> Result<(), AllocError>
    requires can { CanVisit S.pending T.keeps (T.profile ctx.old.options) }
    requires site { allowance site ≡ 0 }
    requires ready { IsReady T.suits t.old (moment S.pending ctx.old) (trees_load (trees nodes.old.items)) }
    requires deep { 0 < length (around_of ctx.old) }
    ensures kept { OnOk result (KeptVisitedTrees (moment S.pending ctx.old) (trees nodes.old.items) (moment S.pending ctx.new) (trees nodes.new.items)) }
    ensures visited { OnOk result (SeenAmong (λ ps qs. VisitedTrees (T.profile ctx.old.options) (moment S.pending ctx.old) ps (moment S.pending ctx.new) qs) (trees nodes.old.items) (trees nodes.new.items)) }
    ensures calls { OnOk result (Counted T.suits T.tally T.entries ctx.old.options t.old t.new (λ m. total_among m (trees nodes.new.items))) }
    ensures cost { OnOk result (steps.new ≤ steps.old + hooks_in_trees (trees nodes.new.items)) }
{
    for index in 0..nodes.len() {
        visit_node(t, &mut nodes[index], site, ctx, steps)?;
    }
    Ok(())
}

/// Visits the parameters of a function, between the hooks of their list.
#[cycle(visit)]
fn visit_parameters<T: Traverse<S>, S: Additions, L: Ledger>(
    t: &mut T,
    parameters: &mut Vec<Node>,
    ctx: &mut TraverseCtx<S>,
    steps: &mut Steps<L>,
) -> Result<(), AllocError>
    requires can { CanVisit S.pending T.keeps (T.profile ctx.old.options) }
    requires ready { IsReady T.suits t.old (moment S.pending ctx.old) (trees_load (trees parameters.old.items)) }
    requires deep { 0 < length (around_of ctx.old) }
    ensures kept { OnOk result (KeptVisitedTrees (moment S.pending ctx.old) (trees parameters.old.items) (moment S.pending ctx.new) (trees parameters.new.items)) }
    ensures visited { OnOk result (SeenAmong (λ ps qs. VisitedTrees (T.profile ctx.old.options) (moment S.pending ctx.old) ps (moment S.pending ctx.new) qs) (trees parameters.old.items) (trees parameters.new.items)) }
    ensures calls { OnOk result (Counted T.suits T.tally T.entries ctx.old.options t.old t.new (λ m. m.parameters + total_among m (trees parameters.new.items))) }
    ensures cost { OnOk result (steps.new ≤ steps.old + 2 + hooks_in_trees (trees parameters.new.items)) }
{
    steps.tick();
    t.enter_formal_parameters(parameters, ctx)?;
    visit_nodes(t, parameters, Site::Other, ctx, steps)?;
    steps.tick();
    t.exit_formal_parameters(parameters, ctx)?;
    Ok(())
}

/// Visits a statement list that isn't the program's, between the hooks of the list.
#[cycle(visit)]
fn visit_statements<T: Traverse<S>, S: Additions, L: Ledger>(
    t: &mut T,
    statements: &mut Vec<Node>,
    ctx: &mut TraverseCtx<S>,
    steps: &mut Steps<L>,
) -> Result<(), AllocError>
    requires can { CanVisit S.pending T.keeps (T.profile ctx.old.options) }
    requires ready { IsReady T.suits t.old (moment S.pending ctx.old) (trees_load (trees statements.old.items)) }
    requires deep { 1 < length (around_of ctx.old) }
    ensures kept { OnOk result (KeptVisitedTrees (moment S.pending ctx.old) (trees statements.old.items) (moment S.pending ctx.new) (trees statements.new.items)) }
    ensures visited { OnOk result (SeenAmong (λ ps qs. VisitedList (T.profile ctx.old.options) (moment S.pending ctx.old) ps (moment S.pending ctx.new) qs) (trees statements.old.items) (trees statements.new.items)) }
    ensures calls { OnOk result (Counted T.suits T.tally T.entries ctx.old.options t.old t.new (λ m. m.list + total_among m (trees statements.new.items))) }
    ensures cost { OnOk result (steps.new ≤ steps.old + 2 + hooks_in_trees (trees statements.new.items)) }
{
    steps.tick();
    t.enter_statements(statements, ctx)?;
    visit_nodes(t, statements, Site::Statement, ctx, steps)?;
    steps.tick();
    t.exit_statements(statements, ctx)?;
    Ok(())
}

/// The enter hooks of a node: as the body of an arrow, by its sort, by its kind.
fn enter_node<T: Traverse<S>, S: Additions, L: Ledger>(
    t: &mut T,
    node: &mut Node,
    site: Site,
    ctx: &mut TraverseCtx<S>,
    steps: &mut Steps<L>,
) -> Result<(), AllocError>
    requires can { CanVisit S.pending T.keeps (T.profile ctx.old.options) }
    requires ready { IsReady T.suits t.old (moment S.pending ctx.old) (load node.old + allowance site) }
    ensures kept { OnOk result (Kept (opens_at site T.keeps node.old (moment S.pending ctx.old)) (load node.old + allowance site) (tree_size node.old) (moment S.pending ctx.new) (load node.new + writing site) (tree_size node.new)) }
    ensures entered { OnOk result (Seen (λ p q. EnteredNode (T.profile ctx.old.options) site (opens_at site T.keeps p (moment S.pending ctx.old)) p (moment S.pending ctx.new) q) node.old node.new) }
    ensures goes { OnOk result (GoesIn T.suits T.tally T.entries ctx.old.options t.old t.new) }
    ensures cost { OnOk result (steps.new ≤ steps.old + 3) }
{
    enter_body(t, node, site, ctx, steps)?;
    enter_sort(t, node, site, ctx, steps)?;
    enter_kind(t, node, site, ctx, steps)?;
    Ok(())
}

/// The exit hooks of a node, in the other order.
fn exit_node<T: Traverse<S>, S: Additions, L: Ledger>(
    t: &mut T,
    node: &mut Node,
    site: Site,
    ctx: &mut TraverseCtx<S>,
    steps: &mut Steps<L>,
) -> Result<(), AllocError>
    requires ready { IsReady T.suits t.old (moment S.pending ctx.old) (weight node.old + writing site) }
    ensures kept { OnOk result (Kept (moment S.pending ctx.old) (weight node.old + writing site) (tree_size node.old) (opens_at site T.keeps node.old (moment S.pending ctx.new)) (weight node.new) (tree_size node.new)) }
    ensures exited { OnOk result (Seen (λ p q. ExitedNode (T.profile ctx.old.options) T.keeps site (moment S.pending ctx.old) p (moment S.pending ctx.new) q) node.old node.new) }
    ensures ids { OnOk result (KeepsIds node.old node.new) }
    ensures goes { OnOk result (GoesOutOfNode T.suits T.tally T.entries ctx.old.options (label_of node.old).id t.old t.new) }
    ensures cost { OnOk result (steps.new ≤ steps.old + 3) }
{
    exit_kind(t, node, ctx, steps)?;
    exit_sort(t, node, site, ctx, steps)?;
    exit_body(t, node, site, ctx, steps)?;
    Ok(())
}

/// The enter hook of the body of an arrow, as such.
fn enter_body<T: Traverse<S>, S: Additions, L: Ledger>(
    t: &mut T,
    node: &Node,
    site: Site,
    ctx: &mut TraverseCtx<S>,
    steps: &mut Steps<L>,
) -> Result<(), AllocError>
    requires ready { IsReady T.suits t.old (moment S.pending ctx.old) (load node.now) }
    ensures opened { OnOk result (moment S.pending ctx.new ≡ opens_at site T.keeps node.now (moment S.pending ctx.old)) }
    ensures goes { OnOk result (GoesAtBody T.suits T.tally T.entries ctx.old.options t.old t.new) }
    ensures cost { OnOk result (steps.new ≤ steps.old + 1) }
{
    if site != Site::ArrowBody {
        return Ok(());
    }
    steps.tick();
    t.enter_arrow_function_body(node, ctx)?;
    Ok(())
}

/// The exit hook of the body of an arrow, as such.
fn exit_body<T: Traverse<S>, S: Additions, L: Ledger>(
    t: &mut T,
    node: &mut Node,
    site: Site,
    ctx: &mut TraverseCtx<S>,
    steps: &mut Steps<L>,
) -> Result<(), AllocError>
    requires ready { IsReady T.suits t.old (moment S.pending ctx.old) (weight node.old + writing site) }
    ensures kept { OnOk result (Kept (moment S.pending ctx.old) (weight node.old + writing site) (tree_size node.old) (opens_at site T.keeps node.old (moment S.pending ctx.new)) (weight node.new) (tree_size node.new)) }
    ensures exited { OnOk result (Seen (λ p q. ExitedAt site (T.profile ctx.old.options) T.keeps (moment S.pending ctx.old) p (moment S.pending ctx.new) q) node.old node.new) }
    ensures none { OnOk result (Seen (λ p q. MakesNone (T.profile ctx.old.options).writes p q) node.old node.new) }
    ensures hooks { OnOk result (hooks_in node.old ≤ hooks_in node.new) }
    ensures ids { OnOk result (KeepsIds node.old node.new) }
    ensures goes { OnOk result (GoesOutAtBody T.suits T.tally T.entries ctx.old.options (label_of node.old).id t.old t.new) }
    ensures cost { OnOk result (steps.new ≤ steps.old + 1) }
{
    if site != Site::ArrowBody {
        return Ok(());
    }
    steps.tick();
    t.exit_arrow_function_body(node, ctx)?;
    Ok(())
}

/// The hook of a node by its sort, if it has one here.
fn hook_at(node: &Node, site: Site) -> Option<Hook>
    ensures { result ≡ hook_of_role (role_at (kind_of node.now) site) }
{
    match role_at(node.kind.ast_type(), site) {
        Role::Expression => Some(Hook::Expression),
        Role::Statement => Some(Hook::Statement),
        Role::Nothing => None,
    }
}

/// The enter hook of a node by its sort.
fn enter_sort<T: Traverse<S>, S: Additions, L: Ledger>(
    t: &mut T,
    node: &mut Node,
    site: Site,
    ctx: &mut TraverseCtx<S>,
    steps: &mut Steps<L>,
) -> Result<(), AllocError>
    requires can { CanVisit S.pending T.keeps (T.profile ctx.old.options) }
    requires ready { IsReady T.suits t.old (moment S.pending ctx.old) (load node.old + wrapping site) }
    ensures kept { OnOk result (KeptLoad (wrapping site) (moment S.pending ctx.old) node.old (moment S.pending ctx.new) node.new) }
    ensures entered { OnOk result (Seen (λ p q. EnteredSort (T.profile ctx.old.options) site (moment S.pending ctx.old) p (moment S.pending ctx.new) q) node.old node.new) }
    ensures goes { OnOk result (GoesBySort T.suits T.tally T.entries ctx.old.options t.old t.new) }
    ensures cost { OnOk result (steps.new ≤ steps.old + 1) }
{
    let Some(hook) = hook_at(node, site) else {
        return Ok(());
    };
    steps.tick();
    t.enter_node(hook, site, node, ctx)?;
    Ok(())
}

/// The enter hook of a node by its own kind.
fn enter_kind<T: Traverse<S>, S: Additions, L: Ledger>(
    t: &mut T,
    node: &mut Node,
    site: Site,
    ctx: &mut TraverseCtx<S>,
    steps: &mut Steps<L>,
) -> Result<(), AllocError>
    requires ready { IsReady T.suits t.old (moment S.pending ctx.old) (load node.old) }
    ensures kept { OnOk result (KeptLoad 0 (moment S.pending ctx.old) node.old (moment S.pending ctx.new) node.new) }
    ensures entered { OnOk result (Seen (λ p q. EnteredKind (T.profile ctx.old.options) site (moment S.pending ctx.old) p (moment S.pending ctx.new) q) node.old node.new) }
    ensures goes { OnOk result (GoesByKind T.suits T.tally T.entries ctx.old.options (kind_of node.old) t.old t.new) }
    ensures cost { OnOk result (steps.new ≤ steps.old + 1) }
{
    let Some(hook) = hook_of_kind(node.kind.ast_type()) else {
        return Ok(());
    };
    steps.tick();
    t.enter_node(hook, site, node, ctx)?;
    Ok(())
}

/// The exit hook of a node by its own kind.
fn exit_kind<T: Traverse<S>, S: Additions, L: Ledger>(
    t: &mut T,
    node: &mut Node,
    ctx: &mut TraverseCtx<S>,
    steps: &mut Steps<L>,
) -> Result<(), AllocError>
    requires ready { IsReady T.suits t.old (moment S.pending ctx.old) (weight node.old) }
    ensures kept { OnOk result (KeptTree (moment S.pending ctx.old) node.old (moment S.pending ctx.new) node.new) }
    ensures exited { OnOk result (Seen (λ p q. ExitedKind (T.profile ctx.old.options) (moment S.pending ctx.old) p (moment S.pending ctx.new) q) node.old node.new) }
    ensures ids { OnOk result (KeepsIds node.old node.new) }
    ensures goes { OnOk result (GoesOutByKind T.suits T.tally T.entries ctx.old.options (kind_of node.old) (label_of node.old).id t.old t.new) }
    ensures cost { OnOk result (steps.new ≤ steps.old + 1) }
{
    let Some(hook) = hook_of_kind(node.kind.ast_type()) else {
        return Ok(());
    };
    steps.tick();
    t.exit_node(hook, node, ctx)?;
    Ok(())
}

/// The exit hook of a node by its sort.
fn exit_sort<T: Traverse<S>, S: Additions, L: Ledger>(
    t: &mut T,
    node: &mut Node,
    site: Site,
    ctx: &mut TraverseCtx<S>,
    steps: &mut Steps<L>,
) -> Result<(), AllocError>
    requires ready { IsReady T.suits t.old (moment S.pending ctx.old) (weight node.old) }
    ensures kept { OnOk result (KeptTree (moment S.pending ctx.old) node.old (moment S.pending ctx.new) node.new) }
    ensures exited { OnOk result (Seen (λ p q. ExitedSort (T.profile ctx.old.options) (moment S.pending ctx.old) p (moment S.pending ctx.new) q) node.old node.new) }
    ensures ids { OnOk result (KeepsIds node.old node.new) }
    ensures goes { OnOk result (GoesOutBySort T.suits T.tally T.entries ctx.old.options (label_of node.old).id t.old t.new) }
    ensures cost { OnOk result (steps.new ≤ steps.old + 1) }
{
    let Some(hook) = hook_at(node, site) else {
        return Ok(());
    };
    steps.tick();
    t.exit_node(hook, node, ctx)?;
    Ok(())
}
