//! The rows.
ghost use Rattle.std.specs.Prelude.{◌≡◌, ◌+◌, ◌≤◌, [], IfOk, OnOk};
ghost use Rattle.es_scope.specs.Contexts.{table_of};
ghost use Rattle.lower_helpers.specs.ImportNodes.{import_ids};
ghost use Rattle.lower_helpers.specs.Loading.{AreBoundAtTop};

use crate::trees::{NOWHERE, TOP, leaf, named, no_options, shown};
use es_scope::context::TraverseCtx;
use es_scope::context_names::BoundIdentifier;
use es_scope::scoping::Scoping;
use es_statements::program::Program;
use es_tree::builder::AstBuilder;
use es_tree::error::LowerError;
use es_tree::helper::Helper;
use es_tree::ids::{NodeId, SymbolId};
use es_tree::kind::Kind;
use es_tree::node::Node;
use es_tree::operators::SourceType;
use es_tree::options::{HelperLoaderMode, HelperLoaderOptions};
use lower_helpers::helper_calls::helper_call_expr;
use lower_helpers::helper_stores::HelperStores;
use lower_helpers::import_statements::import_statements;
use lower_stores::module_imports::ModuleImportsStore;
use lower_stores::statement_injector::StatementInjectorStore;
use lower_stores::top_level_statements::TopLevelStatementsStore;
use std::alloc::{AllocError, Global};
use std::test::Fail;

const S: NodeId = NodeId(1);

const T: NodeId = NodeId(2);

const ELSEWHERE: NodeId = NodeId(0);

/// Nodes of these names.
fn all(alloc: Global, first: &str, second: &str) -> Result<Vec<Node>, AllocError> {
    let nodes = [
        named(alloc, ELSEWHERE, first)?,
        named(alloc, ELSEWHERE, second)?,
    ];
    Ok(Vec::from_array(alloc, nodes)?)
}

/// Around `s` what the calls of all kinds put there, and `p` before `t` where that is then moved there.
fn around(alloc: Global, moves: bool) -> Result<StatementInjectorStore, AllocError> {
    let mut store = StatementInjectorStore::new(alloc);
    store.insert_before(S, named(alloc, ELSEWHERE, "b1")?)?;
    store.insert_after(S, named(alloc, ELSEWHERE, "a1")?)?;
    store.insert_many_before(S, all(alloc, "m1", "m2")?)?;
    let last = Vec::from_array(alloc, [named(alloc, ELSEWHERE, "a2")?])?;
    store.insert_many_after(S, last)?;
    if moves {
        store.insert_before(T, named(alloc, ELSEWHERE, "p")?)?;
        store.move_insertions(S, T)?;
    }
    Ok(store)
}

/// `s` and `t` with all of that around them, after two passes.
fn inserted(alloc: Global, moves: bool) -> Result<String, AllocError> {
    let mut store = around(alloc, moves)?;
    let mut nodes = Vec::from_array(alloc, [named(alloc, S, "s")?, named(alloc, T, "t")?])?;
    for _ in 0..2 {
        store.insert_into_statements(&mut nodes)?;
    }
    shown(alloc, &nodes)
}

fn text(alloc: Global, bytes: &str) -> Result<String, AllocError> {
    String::from_str(alloc, bytes)
}

/// Adds an import: by this name, or by default where that is empty.
fn add(
    alloc: Global,
    store: &mut ModuleImportsStore,
    source: &str,
    imported: &str,
    local: &str,
    front: bool,
) -> Result<(), AllocError>
    ensures few { OnOk result (import_ids store.new ≤ import_ids store.old + 5) }
{
    let local = BoundIdentifier {
        name: text(alloc, local)?,
        symbol_id: SymbolId(3),
    };
    let source = text(alloc, source)?;
    if imported.is_empty() {
        store.add_default_import(source, local, front)?;
    } else {
        store.add_named_import(source, text(alloc, imported)?, local, front)?;
    }
    Ok(())
}

/// Three imports of two modules, written out.
fn imported(alloc: Global) -> Result<String, AllocError> {
    let mut store = ModuleImportsStore::new(alloc);
    add(alloc, &mut store, "m1", "", "X", false)?;
    add(alloc, &mut store, "m2", "n", "Y", true)?;
    add(alloc, &mut store, "m1", "k", "W", true)?;
    let mut ast = AstBuilder::new(alloc, 10);
    let statements = import_statements(&store, &mut ast)?;
    shown(alloc, &statements)
}

/// The context of a program with nothing in it.
fn context(alloc: Global) -> Result<TraverseCtx<()>, AllocError>
    ensures next { IfOk result (λ ctx. ctx.ast.next ≡ 10) }
{
    let kind = Kind::Program {
        source_type: SourceType::Module,
        scope: None,
    };
    let program = leaf(alloc, ELSEWHERE, kind);
    let scoping = Scoping::with_root(alloc, TOP)?;
    let ast = AstBuilder::new(alloc, 10);
    let ctx = TraverseCtx::new(alloc, scoping, &program, (), ast, no_options(alloc)?)?;
    Ok(ctx)
}

/// `objectSpread2({})`, or the name of what the options ask for in vain.
fn call(stores: &mut HelperStores, ctx: &mut TraverseCtx<()>) -> Result<Node, AllocError>
    requires bound { AreBoundAtTop (table_of ctx.old) stores.old.helper_loader.loaded }
    requires room { ctx.old.ast.next ≤ 14 }
    ensures bound { OnOk result (AreBoundAtTop (table_of ctx.new) stores.new.helper_loader.loaded) }
    ensures next { OnOk result (ctx.new.ast.next ≤ ctx.old.ast.next + 4) }
    ensures few { OnOk result (import_ids stores.new.module_imports ≤ import_ids stores.old.module_imports + 5) }
{
    let alloc = ctx.ast.alloc;
    let arguments = Vec::from_array(alloc, [leaf(alloc, ELSEWHERE, Kind::ObjectExpression)])?;
    match helper_call_expr(Helper::ObjectSpread2, arguments, stores, ctx) {
        Ok(node) => Ok(node),
        Err(LowerError::Option(option)) => named(alloc, ELSEWHERE, option.as_str()),
        Err(_error) => Err(AllocError),
    }
}

/// Two calls behind the imports of a module, in these stores.
fn called(alloc: Global, stores: &mut HelperStores) -> Result<String, AllocError>
    requires none { stores.old.helper_loader.loaded ≡ [] }
    requires nothing { stores.old.module_imports ≡ [] }
{
    let mut ctx = context(alloc)?;
    let first = call(stores, &mut ctx)?;
    let second = call(stores, &mut ctx)?;
    let imports = import_statements(&stores.module_imports, &mut ctx.ast)?;
    let mut top = TopLevelStatementsStore::new(alloc);
    top.insert_declarations(imports, None, None)?;
    let mut program = Program {
        id: ELSEWHERE,
        span: NOWHERE,
        source_type: SourceType::Module,
        scope: None,
        directives: Vec::new(alloc),
        body: Vec::from_array(alloc, [first, second])?,
    };
    top.insert_into_program(&mut program)?;
    shown(alloc, &program.body)
}

/// The same under helpers of this kind.
fn helped(alloc: Global, mode: HelperLoaderMode) -> Result<String, AllocError> {
    let mut options = HelperLoaderOptions::new(alloc)?;
    options.mode = mode;
    let mut stores = HelperStores::new(alloc, SourceType::Module, &options)?;
    called(alloc, &mut stores)
}

/// All rows, a line each.
fn all_rows(alloc: Global) -> Result<String, AllocError> {
    let mut text = inserted(alloc, false)?;
    text.push_str("\n")?;
    text.push_str(inserted(alloc, true)?.as_str())?;
    text.push_str("\n")?;
    text.push_str(imported(alloc)?.as_str())?;
    for mode in [
        HelperLoaderMode::External,
        HelperLoaderMode::Runtime,
        HelperLoaderMode::Inline,
    ] {
        text.push_str("\n")?;
        text.push_str(helped(alloc, mode)?.as_str())?;
    }
    Ok(text)
}

const EXPECTED: &str = " m1; m2; b1; s; a1; a2; t;
 s; p; m1; m2; b1; t; a1; a2;
 import default X named k W m1; import named n Y m2;
 call member babelHelpers objectSpread2 {}; call member babelHelpers objectSpread2 {};
 import default _objectSpread @oxc-project/runtime/helpers/objectSpread2; call _objectSpread {}; call _objectSpread {};
 InlineHelpers; InlineHelpers;";

#[test]
fn rows(rt: HostRuntime) -> Result<(), Fail> {
    let text = all_rows(rt.alloc())?;
    assert_eq!(rt; text.as_str(), EXPECTED);
    Ok(())
}
