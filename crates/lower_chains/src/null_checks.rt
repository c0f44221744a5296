//! What is evaluated before a marked step is stored and tested (ECMA-262, 13.3.9).
ghost use Rattle.std.specs.Prelude.{◌≡◌, ◌+◌, ◌-◌, ◌^◌, ◌<◌, ◌++◌, IfOk, OnOk, Some, false, length, map, true};
ghost use Rattle.es_resolution.specs.Seen.{seen};
ghost use Rattle.es_runs.specs.OptionalChaining.{null_checks};
ghost use Rattle.es_runs.specs.Rules.{assign_node};
ghost use Rattle.es_steps.specs.Nodes.{identifier};
ghost use Rattle.es_tree.specs.Fresh.{node_base};
ghost use Rattle.es_tree.specs.Tree.{Tree, tree_size};
ghost use Rattle.lower_temporaries.specs.SeenTrees.{IsSeenAs, named};
ghost use Rattle.lower_temporaries.specs.Takings.{ReadsMore};
ghost use Rattle.lower_temporaries.specs.Temporaries.{bound_of};
ghost use Rattle.lower_chains.specs.WayParts.{ChoosesTarget, IsOwn, test_nodes};
ghost use Rattle.lower_chains.specs.Ways.{IsHeld, Names, held};

use crate::way::Way;
use es_expressions::operations::new_assignment_expression;
use es_scope::context::TraverseCtx;
use es_scope::context_names::BoundIdentifier;
use es_tree::builder::AstBuilder;
use es_tree::ids::SymbolId;
use es_tree::node::Node;
use es_tree::operators::{AssignmentOperator, BinaryOperator};
use lower_temporaries::declarations::MADE;
use lower_temporaries::made_nodes::{new_null_test, new_undefined_test};
use lower_temporaries::readings::read_once_more;
use lower_temporaries::state::TransformState;
use lower_temporaries::temporaries::{Temporary, new_temporary, read_name, write_name};
use std::alloc::AllocError;

/// `first == null` after these tests.
fn push_loose_test(
    tests: Vec<Node>,
    first: Node,
    ast: &mut AstBuilder,
) -> Result<Vec<Node>, AllocError>
    requires room { ast.old.next + 2 < 2 ^ 32 - 1 }
    ensures pushed { IfOk result (λ r. (names : Names) (again : Tree) → map (seen names) r.items ≡ map (seen names) tests.items ++ null_checks true (seen names first) again) }
    ensures some { IfOk result (λ r. 0 < length r.items) }
    ensures counted { IfOk result (λ _. ast.new.next ≡ ast.old.next + 2) }
{
    let mut tests = tests;
    let test = new_null_test(ast, BinaryOperator::Equality, first)?;
    tests.push(test)?;
    Ok(tests)
}

/// `first === null` and `again === void 0` after these tests.
fn push_strict_tests(
    tests: Vec<Node>,
    first: Node,
    again: Node,
    ast: &mut AstBuilder,
) -> Result<Vec<Node>, AllocError>
    requires room { ast.old.next + 5 < 2 ^ 32 - 1 }
    ensures pushed { IfOk result (λ r. (names : Names) → map (seen names) r.items ≡ map (seen names) tests.items ++ null_checks false (seen names first) (seen names again)) }
    ensures some { IfOk result (λ r. 0 < length r.items) }
    ensures counted { IfOk result (λ _. ast.new.next ≡ ast.old.next + 5) }
{
    let mut tests = tests;
    let is_null = new_null_test(ast, BinaryOperator::StrictEquality, first)?;
    let is_undefined = new_undefined_test(ast, BinaryOperator::StrictEquality, again)?;
    tests.push(is_null)?;
    tests.push(is_undefined)?;
    Ok(tests)
}

/// These tests, and whether what is evaluated first, and read again by this name, is null or undefined.
fn push_tests(
    tests: Vec<Node>,
    first: Node,
    name: &Node,
    no_document_all: bool,
    ctx: &mut TraverseCtx<TransformState>,
) -> Result<Vec<Node>, AllocError>
    requires alone { tree_size name.now ≡ 1 }
    requires room { ctx.old.ast.next + 6 < 2 ^ 32 - 1 }
    ensures pushed { IfOk result (λ r. (names : Names) → map (seen names) r.items ≡ map (seen names) tests.items ++ null_checks no_document_all (seen names first) (seen names name.now)) }
    ensures some { IfOk result (λ r. 0 < length r.items) }
    ensures reads { OnOk result (ReadsMore (test_nodes no_document_all) ctx.old ctx.new) }
{
    if no_document_all {
        let tests = push_loose_test(tests, first, &mut ctx.ast)?;
        return Ok(tests);
    }
    let again = read_once_more(name, ctx)?;
    let tests = push_strict_tests(tests, first, again, &mut ctx.ast)?;
    Ok(tests)
}

/// These tests, and whether a name that is read as it stands is null or undefined.
pub(crate) fn test_name(
    tests: Vec<Node>,
    name: &Node,
    no_document_all: bool,
    ctx: &mut TraverseCtx<TransformState>,
) -> Result<Vec<Node>, AllocError>
    requires alone { tree_size name.now ≡ 1 }
    requires room { ctx.old.ast.next + 7 < 2 ^ 32 - 1 }
    ensures pushed { IfOk result (λ r. (names : Names) → map (seen names) r.items ≡ map (seen names) tests.items ++ null_checks no_document_all (seen names name.now) (seen names name.now)) }
    ensures some { IfOk result (λ r. 0 < length r.items) }
    ensures reads { OnOk result (ReadsMore (1 + test_nodes no_document_all) ctx.old ctx.new) }
{
    let first = read_once_more(name, ctx)?;
    let tests = push_tests(tests, first, name, no_document_all, ctx)?;
    Ok(tests)
}

/// `name = node`, and the name as it is read.
pub(crate) fn store(
    node: Node,
    target: Node,
    name: &str,
    symbol_id: SymbolId,
    ctx: &mut TraverseCtx<TransformState>,
) -> Result<(Node, Node), AllocError>
    requires target { IsSeenAs target (identifier (named name.now (Some symbol_id.0))) }
    requires room { ctx.old.ast.next + 2 < 2 ^ 32 - 1 }
    ensures written { IfOk result (λ r. (names : Names) → seen names r.0 ≡ assign_node (identifier (named name.now (Some symbol_id.0))) (seen names node)) }
    ensures read { IfOk result (λ r. IsSeenAs r.1 (identifier (named name.now (Some symbol_id.0)))) }
    ensures reads { OnOk result (ReadsMore 2 ctx.old ctx.new) }
{
    let read = read_name(name, Some(symbol_id), ctx)?;
    let assign = AssignmentOperator::Assign;
    let written = new_assignment_expression(&mut ctx.ast, MADE, assign, target, node)?;
    Ok((written, read))
}

/// The way after a node was assigned to a temporary, and that was tested.
pub(crate) fn test_stored(
    tests: Vec<Node>,
    node: Node,
    temporary: Temporary,
    no_document_all: bool,
    ctx: &mut TraverseCtx<TransformState>,
) -> Result<Way, AllocError>
    requires own { IsOwn ctx.old temporary }
    requires room { ctx.old.ast.next + 8 < 2 ^ 32 - 1 }
    ensures tests { IfOk result (λ r. (names : Names) → map (seen names) r.tests.items ≡ map (seen names) tests.items ++ null_checks no_document_all (assign_node (identifier (bound_of temporary)) (seen names node)) (identifier (bound_of temporary))) }
    ensures some { IfOk result (λ r. 0 < length r.tests.items) }
    ensures current { IfOk result (λ r. IsSeenAs r.current (identifier (bound_of temporary))) }
    ensures holder { IfOk result (λ r. held r.holder ≡ Some (bound_of temporary)) }
    ensures kept { IfOk result (λ r. IsHeld ctx.new r.holder) }
    ensures reads { OnOk result (ReadsMore (2 + test_nodes no_document_all) ctx.old ctx.new) }
{
    let Temporary {
        name,
        symbol_id,
        target,
    } = temporary;
    let (first, current) = store(node, target, name.as_str(), symbol_id, ctx)?;
    let tests = push_tests(tests, first, &current, no_document_all, ctx)?;
    Ok(Way {
        tests,
        current,
        holder: Some(BoundIdentifier { name, symbol_id }),
    })
}

/// What an expression is assigned to before a marked step: the temporary that is held, or a new one.
pub(crate) fn choose_target(
    expression: &Node,
    holder: Option<BoundIdentifier>,
    ctx: &mut TraverseCtx<TransformState>,
) -> Result<Temporary, AllocError>
    requires there { 0 < length ctx.old.state.var_declarations }
    requires held { IsHeld ctx.old holder }
    requires room { ctx.old.ast.next + 3 < 2 ^ 32 - 1 }
    ensures chosen { IfOk result (λ t. ChoosesTarget ctx.old ctx.new (held holder) (node_base expression.now) t) }
    ensures own { IfOk result (λ t. IsOwn ctx.new t) }
{
    match holder {
        Some(BoundIdentifier { name, symbol_id }) => {
            let target = write_name(name.as_str(), Some(symbol_id), ctx)?;
            Ok(Temporary {
                name,
                symbol_id,
                target,
            })
        }
        None => {
            let temporary = new_temporary(expression, ctx)?;
            Ok(temporary)
        }
    }
}
