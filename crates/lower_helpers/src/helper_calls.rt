//! Helpers that are loaded and called.
//!
//! A call that finds no memory leaves the stores as they were; a name that was made for the helper may stay bound.
ghost use Rattle.std.specs.Prelude.{◌≡◌, ◌≢◌, ◌+◌, ◌-◌, ◌<◌, ◌^◌, Err, IfErr, IfOk, OnErr, OnOk};
ghost use Rattle.es_scope.specs.Contexts.{table_of};
ghost use Rattle.es_expressions.specs.MembersPlain.{plain_call_expression};
ghost use Rattle.lower_stores.specs.LoadedHelpers.{IsNotLoaded};
ghost use Rattle.lower_helpers.specs.Loading.{AreBoundAtTop, CallsHelper, LoadsHelper, helper_flags};

use crate::helper_stores::HelperStores;
use crate::made_nodes::{MADE, READS};
use es_expressions::literals::new_identifier;
use es_expressions::members::{CallExpression, new_member_expression};
use es_scope::context::TraverseCtx;
use es_scope::flags::SymbolFlags;
use es_tree::error::{LowerError, OptionName};
use es_tree::helper::Helper;
use es_tree::kind::Kind;
use es_tree::node::{Field, Node};
use es_tree::operators::SourceType;
use es_tree::options::HelperLoaderMode;
use es_tree::sorts::{Argument, Expression};
use std::alloc::AllocError;

/// An expression for the helper, by which it is called: a property of `babelHelpers`, or a name that is bound at the top
/// of the program and that the first load makes.
pub fn helper_load<S>(
    helper: Helper,
    stores: &mut HelperStores,
    ctx: &mut TraverseCtx<S>,
) -> Result<Expression, LowerError>
    requires bound { AreBoundAtTop (table_of ctx.old) stores.old.helper_loader.loaded }
    requires room { ctx.old.ast.next + 3 < 2 ^ 32 }
    ensures loaded { IfOk result (λ node. LoadsHelper helper 0 stores.old stores.new ctx.old ctx.new node) }
    ensures bound { OnOk result (AreBoundAtTop (table_of ctx.new) stores.new.helper_loader.loaded) }
    ensures inline { stores.old.helper_loader.mode ≡ HelperLoaderMode.Inline → (result ≡ Err (LowerError.Option OptionName.InlineHelpers)) × (ctx.new ≡ ctx.old) }
    ensures refused { stores.old.helper_loader.mode ≢ HelperLoaderMode.Inline → IfErr result (λ error. error ≡ LowerError.OutOfMemory) }
    ensures kept { OnErr result (stores.new ≡ stores.old) }
{
    match stores.helper_loader.mode() {
        HelperLoaderMode::Inline => Err(LowerError::Option(OptionName::InlineHelpers)),
        HelperLoaderMode::External => {
            let node = external_helper(helper, ctx)?;
            Ok(node)
        }
        HelperLoaderMode::Runtime => {
            let node = runtime_helper(helper, stores, ctx)?;
            Ok(node)
        }
    }
}

/// A call of the helper with these arguments.
pub fn helper_call<S>(
    helper: Helper,
    arguments: Vec<Argument>,
    stores: &mut HelperStores,
    ctx: &mut TraverseCtx<S>,
) -> Result<CallExpression, LowerError>
    requires bound { AreBoundAtTop (table_of ctx.old) stores.old.helper_loader.loaded }
    requires room { ctx.old.ast.next + 4 < 2 ^ 32 }
    ensures called { IfOk result (λ call. CallsHelper helper arguments.items stores.old stores.new ctx.old ctx.new (plain_call_expression call)) }
    ensures bound { OnOk result (AreBoundAtTop (table_of ctx.new) stores.new.helper_loader.loaded) }
    ensures inline { stores.old.helper_loader.mode ≡ HelperLoaderMode.Inline → (result ≡ Err (LowerError.Option OptionName.InlineHelpers)) × (ctx.new ≡ ctx.old) }
    ensures refused { stores.old.helper_loader.mode ≢ HelperLoaderMode.Inline → IfErr result (λ error. error ≡ LowerError.OutOfMemory) }
    ensures kept { OnErr result (stores.new ≡ stores.old) }
{
    let callee = helper_load(helper, stores, ctx)?;
    let id = ctx.ast.new_id();
    Ok(CallExpression {
        id,
        span: MADE,
        optional: false,
        callee,
        arguments,
    })
}

/// A call of the helper with these arguments, as an expression.
pub fn helper_call_expr<S>(
    helper: Helper,
    arguments: Vec<Argument>,
    stores: &mut HelperStores,
    ctx: &mut TraverseCtx<S>,
) -> Result<Expression, LowerError>
    requires bound { AreBoundAtTop (table_of ctx.old) stores.old.helper_loader.loaded }
    requires room { ctx.old.ast.next + 4 < 2 ^ 32 }
    ensures called { IfOk result (λ node. CallsHelper helper arguments.items stores.old stores.new ctx.old ctx.new node) }
    ensures bound { OnOk result (AreBoundAtTop (table_of ctx.new) stores.new.helper_loader.loaded) }
    ensures inline { stores.old.helper_loader.mode ≡ HelperLoaderMode.Inline → (result ≡ Err (LowerError.Option OptionName.InlineHelpers)) × (ctx.new ≡ ctx.old) }
    ensures refused { stores.old.helper_loader.mode ≢ HelperLoaderMode.Inline → IfErr result (λ error. error ≡ LowerError.OutOfMemory) }
    ensures kept { OnErr result (stores.new ≡ stores.old) }
{
    if matches!(stores.helper_loader.mode(), HelperLoaderMode::Inline) {
        return Err(LowerError::Option(OptionName::InlineHelpers));
    }
    let mut fields = Vec::from_array(ctx.ast.alloc, [Field::Missing, Field::Many(arguments)])?;
    let callee = helper_load(helper, stores, ctx)?;
    fields[0] = Field::One(callee);
    Ok(Node {
        id: ctx.ast.new_id(),
        span: MADE,
        kind: Kind::CallExpression { optional: false },
        fields,
    })
}

/// `babelHelpers.NAME`
fn external_helper<S>(helper: Helper, ctx: &mut TraverseCtx<S>) -> Result<Node, AllocError>
    requires room { ctx.old.ast.next + 3 < 2 ^ 32 }
    ensures read { IfOk result (λ node. (stores : HelperStores) → stores.helper_loader.mode ≡ HelperLoaderMode.External → LoadsHelper helper 0 stores stores ctx.old ctx.new node) }
{
    let scope = ctx.current_scope_id();
    let symbol = ctx.scoping().find_binding(scope, "babelHelpers");
    let object = ctx.create_ident_expr(MADE, "babelHelpers", symbol, READS)?;
    let name = String::from_str(ctx.ast.alloc, helper.name())?;
    let property = new_identifier(&mut ctx.ast, MADE, name)?;
    let node = new_member_expression(&mut ctx.ast, MADE, false, false, object, property)?;
    Ok(node)
}

/// The name of the helper, which is loaded if it isn't yet.
fn runtime_helper<S>(
    helper: Helper,
    stores: &mut HelperStores,
    ctx: &mut TraverseCtx<S>,
) -> Result<Node, AllocError>
    requires runtime { stores.old.helper_loader.mode ≡ HelperLoaderMode.Runtime }
    requires bound { AreBoundAtTop (table_of ctx.old) stores.old.helper_loader.loaded }
    requires room { ctx.old.ast.next + 1 < 2 ^ 32 }
    ensures loaded { IfOk result (λ node. LoadsHelper helper 0 stores.old stores.new ctx.old ctx.new node) }
    ensures kept { OnErr result (stores.new ≡ stores.old) }
{
    let Some(local) = stores.helper_loader.loaded(helper) else {
        let node = load_now(helper, stores, ctx)?;
        return Ok(node);
    };
    let name = local.name.as_str();
    let node = ctx.create_bound_ident_expr(MADE, name, local.symbol_id, READS)?;
    Ok(node)
}

/// A fresh name that is bound to the helper.
fn load_now<S>(
    helper: Helper,
    stores: &mut HelperStores,
    ctx: &mut TraverseCtx<S>,
) -> Result<Node, AllocError>
    requires runtime { stores.old.helper_loader.mode ≡ HelperLoaderMode.Runtime }
    requires absent { IsNotLoaded helper stores.old.helper_loader.loaded }
    requires room { ctx.old.ast.next + 1 < 2 ^ 32 }
    ensures loaded { IfOk result (λ node. LoadsHelper helper 0 stores.old stores.new ctx.old ctx.new node) }
    ensures kept { OnErr result (stores.new ≡ stores.old) }
{
    let flags = helper_flags(stores.source_type);
    let local = ctx.generate_uid_in_root_scope(helper.name(), flags)?;
    let name = local.name.as_str();
    let node = ctx.create_bound_ident_expr(MADE, name, local.symbol_id, READS)?;
    stores
        .helper_loader
        .load(helper, local, &mut stores.module_imports)?;
    Ok(node)
}

/// How a helper's name is bound: by an import, or in a script by `var`.
fn helper_flags(source_type: SourceType) -> SymbolFlags
    ensures { result ≡ helper_flags source_type }
{
    let is_module = source_type == SourceType::Module;
    SymbolFlags {
        function_scoped: !is_module,
        block_scoped: false,
        constant: false,
        import: is_module,
        catch_variable: false,
        class: false,
    }
}
