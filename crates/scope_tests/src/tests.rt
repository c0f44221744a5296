//! Bases of names, and the calls of a context that no run of the tool makes, by example: the expected values were
//! worked out by hand.
ghost use Rattle.std.specs.Prelude.{◌≡◌, IfOk};
ghost use Rattle.es_scope.specs.Contexts.{table_of};
ghost use Rattle.es_scope.specs.Tables.{scope_count};

use es_scope::ancestor::Ancestor;
use es_scope::base::base_of_text;
use es_scope::context::TraverseCtx;
use es_scope::flags::{ReferenceFlags, ScopeFlags, SymbolFlags};
use es_scope::scoping::Scoping;
use es_tree::ast_type::AstType;
use es_tree::builder::AstBuilder;
use es_tree::ids::{NodeId, ReferenceId, ScopeId, Span, SymbolId};
use es_tree::kind::Kind;
use es_tree::node::Node;
use es_tree::operators::SourceType;
use es_tree::options::{
    Assumptions, ES2015Options, ES2016Options, ES2017Options, ES2018Options, ES2019Options,
    ES2020Options, ES2021Options, ES2026Options, EnvOptions, HelperLoaderOptions,
};
use std::alloc::{AllocError, Global};
use std::test::Fail;

const VAR: SymbolFlags = SymbolFlags {
    function_scoped: true,
    block_scoped: false,
    constant: false,
    import: false,
    catch_variable: false,
    class: false,
};

/// The flags of a block's scope, or of a program's.
const fn scope_flags(top: bool) -> ScopeFlags {
    ScopeFlags {
        function: false,
        arrow: false,
        top,
        class_static_block: false,
        catch_clause: false,
        constructor: false,
        derived: false,
        strict: false,
    }
}

fn no_options(alloc: Global) -> Result<EnvOptions, AllocError> {
    Ok(EnvOptions {
        es2015: ES2015Options::default(),
        es2016: ES2016Options::default(),
        es2017: ES2017Options::default(),
        es2018: ES2018Options::default(),
        es2019: ES2019Options::default(),
        es2020: ES2020Options::default(),
        es2021: ES2021Options::default(),
        es2026: ES2026Options::default(),
        assumptions: Assumptions::default(),
        helper_loader: HelperLoaderOptions::new(alloc)?,
    })
}

fn node(alloc: Global, kind: Kind) -> Node {
    Node {
        id: NodeId(0),
        span: Span { start: 0, end: 0 },
        kind,
        fields: Vec::new(alloc),
    }
}

/// The context of an empty script, with the state 7 and ids from 10.
fn context(alloc: Global) -> Result<TraverseCtx<u32>, AllocError>
    ensures one_scope { IfOk result (λ ctx. scope_count (table_of ctx) ≡ 1) }
    ensures ids { IfOk result (λ ctx. ctx.ast.next ≡ 10) }
{
    let kind = Kind::Program {
        source_type: SourceType::Script,
        scope: None,
    };
    let program = node(alloc, kind);
    let scoping = Scoping::with_root(alloc, scope_flags(true))?;
    let ast = AstBuilder::new(alloc, 10);
    let ctx = TraverseCtx::new(alloc, scoping, &program, 7, ast, no_options(alloc)?)?;
    Ok(ctx)
}

#[test]
fn bases_of_texts(rt: HostRuntime) -> Result<(), Fail> {
    for (text, base) in [
        ("a", "a"),
        ("__a12", "a"),
        ("1a_1_", "1a_1_"),
        ("2024", "ref"),
        ("_", "ref"),
        ("", "ref"),
        ("_é9", "é"),
        ("abcdefghijklmnopqrstuvwxyz", "abcdefghijklmnopqrstuvwxyz"),
    ] {
        let found = base_of_text(rt.alloc(), text)?;
        assert_eq!(rt; found.as_str(), base);
    }
    Ok(())
}

#[test]
fn names_of_a_context(rt: HostRuntime) -> Result<(), Fail> {
    let alloc = rt.alloc();
    let mut ctx = context(alloc)?;
    let scope = ctx.current_scope_id();
    let bound = ctx.generate_binding("_this", scope, VAR)?;
    assert_eq!(rt; bound.symbol_id, SymbolId(0));
    let named = ctx.generate_uid("this", scope, VAR)?;
    assert_eq!(rt; named.name.as_str(), "_this2");
    let this = node(alloc, Kind::ThisExpression);
    let based = ctx.generate_uid_based_on_node(&this, scope, VAR)?;
    assert_eq!(rt; based.name.as_str(), "_this3");
    let rooted = ctx.generate_uid_in_root_scope("_this7", VAR)?;
    assert_eq!(rt; rooted.name.as_str(), "_this4");
    let (state, ast, uids) = ctx.finish();
    assert_eq!(rt; state, 7);
    assert_eq!(rt; ast.next, 10);
    assert_eq!(rt; uids.len(), 3);
    Ok(())
}

#[test]
fn places_of_a_context(rt: HostRuntime) -> Result<(), Fail> {
    let mut ctx = context(rt.alloc())?;
    let root = ctx.scoping().root_scope_id();
    let inner = ctx.create_child_scope(root, scope_flags(false))?;
    assert_eq!(rt; inner, ScopeId(1));
    let outermost = Ancestor {
        kind: AstType::Program,
        field: 1,
        node: NodeId(0),
    };
    let block = Ancestor {
        kind: AstType::BlockStatement,
        field: 0,
        node: NodeId(3),
    };
    ctx.enter_place(outermost, root)?;
    ctx.enter_place(block, inner)?;
    assert_eq!(rt; ctx.current_scope_id(), inner);
    assert_eq!(rt; ctx.current_hoist_scope_id(), root);
    assert_eq!(rt; ctx.parent(), block);
    assert_eq!(rt; ctx.ancestor(0), Some(block));
    assert_eq!(rt; ctx.ancestor(1), Some(outermost));
    assert_eq!(rt; ctx.ancestor(2), None);
    ctx.leave_place();
    assert_eq!(rt; ctx.parent(), outermost);
    assert_eq!(rt; ctx.current_scope_id(), root);
    Ok(())
}

#[test]
fn flags_of_a_table(rt: HostRuntime) -> Result<(), Fail> {
    let mut ctx = context(rt.alloc())?;
    let root = ctx.current_scope_id();
    let inner = ctx.create_child_scope(root, scope_flags(false))?;
    ctx.set_scope_flags(inner, scope_flags(true));
    assert_eq!(rt; ctx.scoping().scope_flags(inner), scope_flags(true));
    assert_eq!(rt; ctx.scoping().scope_parent_id(inner), Some(root));
    let symbol = ctx.generate_binding("x", inner, VAR)?.symbol_id;
    assert_eq!(rt; ctx.symbol_name(symbol), "x");
    let span = Span { start: 0, end: 0 };
    let writes = ReferenceFlags {
        read: true,
        write: true,
    };
    let _written = ctx.create_bound_ident_expr(span, "x", symbol, writes)?;
    assert_eq!(rt; ctx.symbol_is_steady(symbol), false);
    let reads = ReferenceFlags {
        read: true,
        write: false,
    };
    ctx.set_reference_flags(ReferenceId(0), reads);
    assert_eq!(rt; ctx.symbol_is_steady(symbol), true);
    assert_eq!(rt; ctx.scoping().reference(ReferenceId(0)).flags, reads);
    let class = SymbolFlags { class: true, ..VAR };
    ctx.set_symbol_flags(symbol, class);
    assert_eq!(rt; ctx.scoping().symbol_flags(symbol), class);
    Ok(())
}

/// `(function f() {})`, whose name has a scope around that of the function, in a block, and a scope around both.
#[test]
fn scopes_put_between(rt: HostRuntime) -> Result<(), Fail> {
    let alloc = rt.alloc();
    let mut ctx = context(alloc)?;
    let root = ctx.current_scope_id();
    let named = ctx.create_child_scope(root, scope_flags(false))?;
    let body = ctx.create_child_scope(named, scope_flags(false))?;
    let function = ctx.insert_scope_between(named, body, scope_flags(false))?;
    assert_eq!(rt; ctx.scoping().scope_parent_id(body), Some(function));
    assert_eq!(rt; ctx.scoping().scope_parent_id(function), Some(named));
    let kind = Kind::FunctionExpression {
        scope: Some(function),
    };
    let block = ctx.insert_scope_below_node(root, &node(alloc, kind), scope_flags(false))?;
    assert_eq!(rt; ctx.scoping().scope_parent_id(block), Some(root));
    assert_eq!(rt; ctx.scoping().scope_parent_id(named), Some(block));
    assert_eq!(rt; ctx.scoping().scope_parent_id(function), Some(named));
    let kind = Kind::BlockStatement { scope: Some(block) };
    let outer = ctx.insert_scope_below_statements(&[node(alloc, kind)], scope_flags(false))?;
    assert_eq!(rt; ctx.scoping().scope_parent_id(outer), Some(root));
    assert_eq!(rt; ctx.scoping().scope_parent_id(block), Some(outer));
    assert_eq!(rt; ctx.scoping().scope_parent_id(named), Some(block));
    Ok(())
}
