//! What a visit calls, and which pairs are open in it.
ghost use Rattle.std.specs.Prelude.{◌≡◌, ◌<◌, [], IfOk};
ghost use Rattle.es_scope.specs.Contexts.{around_of};
ghost use Rattle.es_statements.specs.ProgramPlain.{plain_program};
ghost use Rattle.es_traverse.specs.ContextMoments.{moment};
ghost use Rattle.es_traverse.specs.Laws.{CanVisit, IsReady};
ghost use Rattle.es_traverse.specs.Loads.{load};

use crate::every_kind::{CALLS, MODULE};
use crate::hook_counts::{HookCounts, OpenPairs};
use es_json::program::{ReadProgram, read_program};
use es_scope::context::TraverseCtx;
use es_scope::flags::ScopeFlags;
use es_scope::scoping::Scoping;
use es_statements::program::Program;
use es_traverse::lowering::Additions;
use es_traverse::traverse::Traverse;
use es_traverse::walk::traverse;
use es_tree::builder::AstBuilder;
use es_tree::node::Node;
use es_tree::options::{
    Assumptions, ES2015Options, ES2016Options, ES2017Options, ES2018Options, ES2019Options,
    ES2020Options, ES2021Options, ES2026Options, EnvOptions, HelperLoaderOptions,
};
use es_visit::steps::Steps;
use serde_json::Value;
use std::alloc::{AllocError, Global};
use std::marker::Brand;
use std::sync::ledger::{Blank, Ledger};
use std::test::Fail;

/// The flags of the scope of a program.
const TOP: ScopeFlags = ScopeFlags {
    function: false,
    arrow: false,
    top: true,
    class_static_block: false,
    catch_clause: false,
    constructor: false,
    derived: false,
    strict: false,
};

/// Programs with arrows, and the greatest number of pairs that are open in each, that of the program among them.
const ARROWS: [(&str, u32); 4] = [
    // `x => y => z;`: one more in each body
    (
        r#"{"body":[{"expression":{"body":{"body":{"name":"z","type":"Identifier"},"params":[{"name":"y","type":"Identifier"}],"type":"ArrowFunctionExpression"},"params":[{"name":"x","type":"Identifier"}],"type":"ArrowFunctionExpression"},"type":"ExpressionStatement"}],"sourceType":"script","type":"Program"}"#,
        3,
    ),
    // `x => { y => z; };`: for the body of statements that of its list alone
    (
        r#"{"body":[{"expression":{"body":{"body":[{"expression":{"body":{"name":"z","type":"Identifier"},"params":[{"name":"y","type":"Identifier"}],"type":"ArrowFunctionExpression"},"type":"ExpressionStatement"}],"type":"FunctionBody"},"params":[{"name":"x","type":"Identifier"}],"type":"ArrowFunctionExpression"},"type":"ExpressionStatement"}],"sourceType":"script","type":"Program"}"#,
        3,
    ),
    // `(x = y => z) => w;`: none of a body in the parameters
    (
        r#"{"body":[{"expression":{"body":{"name":"w","type":"Identifier"},"params":[{"left":{"name":"x","type":"Identifier"},"right":{"body":{"name":"z","type":"Identifier"},"params":[{"name":"y","type":"Identifier"}],"type":"ArrowFunctionExpression"},"type":"AssignmentPattern"}],"type":"ArrowFunctionExpression"},"type":"ExpressionStatement"}],"sourceType":"script","type":"Program"}"#,
        2,
    ),
    // `{ x => y; { } z => w; }`: each is closed before the next
    (
        r#"{"body":[{"body":[{"expression":{"body":{"name":"y","type":"Identifier"},"params":[{"name":"x","type":"Identifier"}],"type":"ArrowFunctionExpression"},"type":"ExpressionStatement"},{"body":[],"type":"BlockStatement"},{"expression":{"body":{"name":"w","type":"Identifier"},"params":[{"name":"z","type":"Identifier"}],"type":"ArrowFunctionExpression"},"type":"ExpressionStatement"}],"type":"BlockStatement"}],"sourceType":"script","type":"Program"}"#,
        3,
    ),
];

fn no_options(alloc: Global) -> Result<EnvOptions, AllocError> {
    Ok(EnvOptions {
        es2015: ES2015Options::default(),
        es2016: ES2016Options::default(),
        es2017: ES2017Options::default(),
        es2018: ES2018Options::default(),
        es2019: ES2019Options::default(),
        es2020: ES2020Options::default(),
        es2021: ES2021Options::default(),
        es2026: ES2026Options::default(),
        assumptions: Assumptions::default(),
        helper_loader: HelperLoaderOptions::new(alloc)?,
    })
}

/// The context of a visit of this program, with its own pair open. The table has the program's scope alone, since
/// hooks are called alike whatever the scopes.
fn context(
    alloc: Global,
    program: &Node,
    ast: AstBuilder,
) -> Result<TraverseCtx<OpenPairs>, AllocError>
    ensures place { IfOk result (λ ctx. around_of ctx ≡ []) }
    ensures pairs { IfOk result (λ ctx. ctx.state.pairs ≡ 1) }
    ensures ids { IfOk result (λ ctx. ctx.ast ≡ ast) }
{
    let scoping = Scoping::with_root(alloc, TOP)?;
    let state = OpenPairs { pairs: 1 };
    let ctx = TraverseCtx::new(alloc, scoping, program, state, ast, no_options(alloc)?)?;
    Ok(ctx)
}

/// What was counted in a visit of the program of this text, and how many pairs are open after it.
fn visited(alloc: Global, text: &str) -> Result<(HookCounts, u32), Fail> {
    let value = Value::from_str(alloc, text)?;
    let ReadProgram { program, ast } = read_program(alloc, &value)?;
    let mut ctx = context(alloc, &program, ast)?;
    let mut program = Program::open(program);
    let mut counts = HookCounts::new();
    visit_by::<_, _, Brand>(&mut counts, &mut program, &mut ctx, Blank::new(1))?;
    Ok((counts, ctx.state.pairs))
}

/// The visit, whose steps are counted in a ledger of their own.
fn visit_by<T: Traverse<S>, S: Additions, L: Ledger>(
    t: &mut T,
    program: &mut Program,
    ctx: &mut TraverseCtx<S>,
    blank: Blank,
) -> Result<(), AllocError>
    requires name { blank.name ≡ L.name }
    requires parts { blank.parts ≡ L.parts }
    requires some { 0 < blank.parts }
    requires can { CanVisit S.pending T.keeps (T.profile ctx.old.options) }
    requires ready { IsReady T.suits t.old (moment S.pending ctx.old) (load (plain_program program.old)) }
    requires top { around_of ctx.old ≡ [] }
{
    let mut steps: Steps<L> = Steps::new(blank);
    traverse(t, program, ctx, &mut steps)?;
    Ok(())
}

#[test]
fn hooks_are_called_as_often_as_their_nodes_stand(rt: HostRuntime) -> Result<(), Fail> {
    let (counts, _pairs) = visited(rt.alloc(), MODULE)?;
    for (hook, calls) in CALLS {
        assert_eq!(rt; counts.entered(hook), calls, "{hook:?} on the way in");
        assert_eq!(rt; counts.left(hook), calls, "{hook:?} on the way out");
    }
    Ok(())
}

#[test]
fn bodies_of_arrows_have_pairs_of_their_own(rt: HostRuntime) -> Result<(), Fail> {
    for (text, deepest) in ARROWS {
        let (counts, pairs) = visited(rt.alloc(), text)?;
        assert_eq!(rt; counts.deepest, deepest);
        assert_eq!(rt; pairs, 1);
    }
    Ok(())
}
