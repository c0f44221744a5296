//! One run: a program is read and checked, its exports of object rests are split, its `using` moves out of heads of loops and is lowered, patterns with an
//! object rest move to declarations, it is visited once by the lowerings that its options ask for, walked for its arrows and for its object rests, its lists of
//! excluded keys become constants, its helpers are imported, its constructors set their name for `this`, and it is written.
ghost use Rattle.std.specs.Prelude.{◌≡◌, ◌<◌, ◌∷◌, ◌*◌, ◌^◌, [], IfErr, IfOk, None, false, map, option_map, string_bytes, true};
ghost use Rattle.serde_json.specs.View.{view};
ghost use Rattle.es_tree.specs.Constructs.{has_enabled_construct};
ghost use Rattle.es_tree.specs.Fresh.{is_among};
ghost use Rattle.es_tree.specs.HasForm.{has_form};
ghost use Rattle.es_tree.specs.Names.{names_of};
ghost use Rattle.es_tree.specs.Options.{first_fault};
ghost use Rattle.es_tree.specs.StaticRules.{breaks};
ghost use Rattle.es_tree.specs.Tree.{kind_of, tree_size};
ghost use Rattle.es_tree.specs.Words.{Text};
ghost use Rattle.es_tree.specs.declared.ast_type.AstType.TheVariants.{Program as k-Program};
ghost use Rattle.es_tree.specs.declared.table.Sort.TheVariants.{Program as s-Program};
ghost use Rattle.es_scope.specs.Contexts.{BindsNamesOf, around_of, made_of, table_of, uses_of};
ghost use Rattle.es_steps.specs.Open.{nothing_pending};
ghost use Rattle.lower_helper_imports.specs.HelperImports.{Tells, number_of};
ghost use Rattle.lower_driver.specs.Copies.{IsCopy};
ghost use Rattle.lower_driver.specs.Lowered.{IsLoweredTree, IsLoweredValue};
ghost use Rattle.lower_driver.specs.Lowers.{Lowers, LowersInPlace};
ghost use Rattle.lower_driver.specs.Sources.{IsCauseOrMemory, IsValueCauseOrMemory, ReadsAs};
ghost use Rattle.lower_driver.specs.UnsupportedPrograms.{Finds, IsFirstOrMemory, IsTreeCauseOrMemory, IsUnsupportedOrMemory, first_refused};

use crate::constructors::{set_this, sets_this};
use crate::copies::copy_options;
use crate::importing::import_helpers;
use crate::moving::move_patterns;
use crate::reading::{read_bytes, read_source};
use crate::resources::{asks_for_using, lower_top, lower_using, move_heads};
use crate::sharing::share_keys;
use crate::splitting::split_exports;
use crate::visiting::{take_rests, visit, walk};
use es_json::program::ReadProgram;
use es_json::writer::write_program;
use es_nodes::construct::has_enabled_construct;
use es_scope::context::TraverseCtx;
use es_scope::scoping::Scoping;
use es_semantic::building::build_scoping;
use es_statements::program::Program;
use es_tree::builder::AstBuilder;
use es_tree::error::{LowerError, UnsupportedKind};
use es_tree::ids::NodeId;
use es_tree::kind::Kind;
use es_tree::node::Node;
use es_tree::operators::SourceType;
use es_tree::options::{EnvOptions, options_fault};
use es_unsupported::finding::find_unsupported;
use lower_editions::es2020::ES2020;
use lower_excluded_keys::{names_itself, shares_keys};
use lower_helper_imports::{HelperImports, own_call};
use lower_temporaries::state::TransformState;
use lower_temporaries::warning::Warning;
use serde_json::Value;
use std::alloc::{AllocError, Global};

/// What a program becomes.
#[derive(Drop)]
pub struct LoweredTree {
    /// The lowered program.
    pub program: Node,
    /// What the options ask to be warned of in the source, in node order.
    pub warnings: Vec<Warning>,
    /// The fresh names, in the order made.
    pub temporaries: Vec<String>,
}

/// What a run answers.
#[derive(Drop)]
pub struct Lowered {
    /// What the program becomes.
    pub tree: LoweredTree,
    /// The lowered program in the tree form.
    pub value: Value,
}

/// Lowers the program that the value is the form of, as the options ask: its logical assignments, `??`, optional chains,
/// catch clauses without a parameter, exports of namespaces, spreads in object literals, object rests in declarations,
/// parameters, catch clauses and heads of loops, `using` in bodies, static blocks, blocks, `switch`, the heads of `for`
/// and `for-of` and at the top of modules, exponentiations and arrow functions, in programs of every kind. A program in
/// which no construct stands that they ask to lower comes back as it is. Where they ask for warnings, of BigInt literals
/// (ECMA-262, 12.9.3) or of strings that name imports and exports (16.2), it answers one for each of these in the
/// source.
///
/// Fails for the first of these causes that holds: `Option` where the options ask for what isn't done; `TooLarge`,
/// `TooDeep` and `Shape` as `read_program` has them; `Invalid` as `check_static` has it; `Unsupported` at the first node
/// that the lowerings asked for don't take, of the program whose exports were split, whose `using` was lowered and whose
/// patterns moved, in which what is made has the id of the node that it is made for:
///
/// - `NotBuilt`, a construct that no lowering takes away yet: what holds an object rest where none is lowered, but for
///   those below;
/// - `RestParameter`, a function with an object rest in a parameter, and `HeadName`, a declarator of one in the head of
///   a loop, where it can't move, since names would find something else, or be asked before they are set;
/// - `HeadName` also, a `for-of` whose head declares a name by `using` that the right side has, and `UsingFunction`, a
///   function whose body declares directly by `using`, or a static block that does, and has a function at its top that
///   something else declares, too;
/// - `RestInArray` and `RestNested`, an object pattern with a rest inside an array or a rest that is declared, or inside
///   another pattern that is assigned to;
/// - `MathBound`, an exponentiation where `Math` is bound;
/// - `HelperName`, an object literal with a spread, or an object pattern with a rest that is assigned to, where
///   `babelHelpers` is bound, or a declaration by `using` or of an object rest, or a pattern with one that moves to a declaration, in a program that binds it anywhere; and after all
///   others, where helpers have to be imported, the first of these in a script whose own scope binds `require`, or the
///   first use of a helper of `babelHelpers` that the source itself makes;
/// - `SpreadLiteral`, an object literal with a spread whose properties can't be copied one by one;
/// - `TagChain`, a template whose tag is an optional chain;
/// - `ArrowOuter` and `ArrowThis`, what belongs to what is around an arrow, or around a value that is put into one, and
///   can't belong to a function in its place; `ArrowOuter` also an accessor whose value is written as an arrow, and
///   `ArrowThis` a `super(..)` in the parameters of a constructor in whose body an arrow has a `this`.
///
/// It fails with `OutOfMemory` where memory runs out, which may come before any of them.
pub fn lower(alloc: Global, source: &Value, options: &EnvOptions) -> Result<Lowered, LowerError>
    ensures lowered { IfOk result (λ lowered. IsLoweredValue options.now (view source.now) lowered) }
    ensures options { IfOk result (λ _. first_fault options.now ≡ None) }
    ensures cause { IfErr result (λ error. IsValueCauseOrMemory options.now (view source.now) error) }
{
    let read = read_source(alloc, source, options)?;
    let tree = lower_program(alloc, read, options)?;
    let value = write_program(alloc, &tree.program)?;
    Ok(Lowered { tree, value })
}

/// The same for the bytes of a JSON value. Fails with `Json`, before all other causes, where the bytes have no
/// reading as one.
pub fn lower_bytes(alloc: Global, bytes: &[u8], options: &EnvOptions) -> Result<Lowered, LowerError>
    ensures lowered { IfOk result (λ lowered. ReadsAs (λ v. IsLoweredValue options.now v lowered) bytes.now) }
    ensures options { IfOk result (λ _. first_fault options.now ≡ None) }
    ensures cause { IfErr result (λ error. IsCauseOrMemory options.now bytes.now error) }
{
    let read = read_bytes(alloc, bytes, options)?;
    let tree = lower_program(alloc, read, options)?;
    let value = write_program(alloc, &tree.program)?;
    Ok(Lowered { tree, value })
}

/// The same for a program that has form and keeps the static rules and was made as a tree. Its ids and marks need
/// not be those that a read program has.
///
/// Fails for the first of these causes that holds: `Option` as `lower` has it; `Unsupported` as `lower` has it. It
/// fails with `OutOfMemory` where memory runs out.
pub fn lower_tree(
    alloc: Global,
    read: ReadProgram,
    options: &EnvOptions,
) -> Result<LoweredTree, LowerError>
    requires form { has_form s-Program read.program ≡ true }
    requires kept { breaks read.program ≡ [] }
    requires size { tree_size read.program < 2 ^ 20 }
    requires next { read.ast.next ≡ tree_size read.program }
    ensures lowered { IfOk result (λ lowered. IsLoweredTree options.now read.program lowered) }
    ensures options { IfOk result (λ _. first_fault options.now ≡ None) }
    ensures cause { IfErr result (λ error. IsTreeCauseOrMemory options.now read.program error) }
{
    if let Some(name) = options_fault(options) {
        return Err(LowerError::Option(name));
    }
    let lowered = lower_program(alloc, read, options)?;
    Ok(lowered)
}

/// What a program that keeps the static rules becomes under options that ask for nothing that isn't done. Fails
/// where it has a shape that the lowerings don't take, and where memory runs out.
fn lower_program(
    alloc: Global,
    read: ReadProgram,
    options: &EnvOptions,
) -> Result<LoweredTree, LowerError>
    requires form { has_form s-Program read.program ≡ true }
    requires kept { breaks read.program ≡ [] }
    requires size { tree_size read.program < 2 ^ 20 }
    requires next { read.ast.next ≡ tree_size read.program }
    requires carried { first_fault options.now ≡ None }
    ensures lowered { IfOk result (λ lowered. IsLoweredTree options.now read.program lowered) }
    ensures cause { IfErr result (λ error. IsUnsupportedOrMemory options.now read.program error) }
{
    let warnings = ES2020::warnings(alloc, &options.es2020, &read.program)?;
    if !has_enabled_construct(&read.program, options) {
        return Ok(LoweredTree {
            program: read.program,
            warnings,
            temporaries: Vec::new(alloc),
        });
    }
    let (program, temporaries) = lower_constructs(alloc, read, options)?;
    Ok(LoweredTree {
        program,
        warnings,
        temporaries,
    })
}

/// The program with its constructs lowered, and the names that were made. Fails as `lower_program` does.
fn lower_constructs(
    alloc: Global,
    read: ReadProgram,
    options: &EnvOptions,
) -> Result<(Node, Vec<String>), LowerError>
    requires form { has_form s-Program read.program ≡ true }
    requires kept { breaks read.program ≡ [] }
    requires some { has_enabled_construct options.now read.program ≡ true }
    requires size { tree_size read.program < 2 ^ 20 }
    requires next { read.ast.next ≡ tree_size read.program }
    requires carried { first_fault options.now ≡ None }
    ensures lowers { IfOk result (λ made. Lowers options.now read.program made.0 (map string_bytes made.1.items)) }
    ensures taken { IfOk result (λ _. Finds options.now read.program None) }
    ensures cause { IfErr result (λ error. IsUnsupportedOrMemory options.now read.program error) }
{
    let sets = sets_this(&read.program, options);
    let split = split_exports(alloc, read, options)?;
    let asked = asks_for_using(&split.program, options);
    let own = own_call(&split.program, options);
    let named = names_itself(&split.program, options);
    let (headed, mut names) = move_heads(alloc, split, asked)?;
    let (used, mut contexts) = lower_using(alloc, headed, asked)?;
    let (topped, mut top) = lower_top(alloc, used, asked)?;
    let (moved, mut first) = move_patterns(alloc, topped, options)?;
    let imports = HelperImports::of_program(&moved.program, options, asked, own);
    let shares = shares_keys(&moved.program, options, named);
    let (lowered, ctx) = lower_in_place(alloc, moved, options, asked, own, imports)?;
    let (shared, mut keys) = share_keys(alloc, lowered, shares)?;
    let (imported, mut last) = import_helpers(alloc, shared, options, imports.are_asked())?;
    let program = set_this(imported, &ctx, sets)?;
    names.append(&mut contexts)?;
    names.append(&mut top)?;
    names.append(&mut first)?;
    names.append(&mut ctx.into_uids())?;
    names.append(&mut keys)?;
    names.append(&mut last)?;
    Ok((program, names))
}

/// A program in which no pattern moves any more, with its constructs lowered where they stand, and the context that made
/// the names for it, where `using` was lowered (`made`), or wasn't, the source calls a helper itself (`own`), and `imports`
/// tells of its helpers. Fails where it has a shape that the lowerings don't take, and where memory runs out.
fn lower_in_place(
    alloc: Global,
    read: ReadProgram,
    options: &EnvOptions,
    made: bool,
    own: Option<NodeId>,
    imports: HelperImports,
) -> Result<(Node, TraverseCtx<TransformState>), LowerError>
    requires form { has_form s-Program read.program ≡ true }
    requires kept { breaks read.program ≡ [] }
    requires size { tree_size read.program < 10 * 2 ^ 20 }
    requires next { read.ast.next < 2 ^ 20 }
    requires carried { first_fault options.now ≡ None }
    requires told { Tells options.now made (option_map number_of own) read.program imports }
    ensures lowers { IfOk result (λ made. LowersInPlace options.now read.program made.0 (made_of made.1)) }
    ensures taken { IfOk result (λ _. first_refused options.now made (option_map number_of own) read.program ≡ None) }
    ensures cause { IfErr result (λ error. IsFirstOrMemory options.now made (option_map number_of own) read.program error) }
{
    let ReadProgram {
        program: mut source,
        ast,
    } = read;
    let scoping = build_scoping(alloc, &mut source)?;
    if let Some((kind, node)) = find_unsupported(&source, &scoping, options) {
        return Err(LowerError::Unsupported(kind, node));
    }
    if let Some(node) = imports.find_unsupported(&scoping) {
        return Err(LowerError::Unsupported(UnsupportedKind::HelperName, node));
    }
    let mut ctx = new_context(alloc, scoping, &source, ast, options)?;
    let mut program = Program::open(source);
    visit(&mut program, &mut ctx)?;
    walk(&mut program, &mut ctx)?;
    take_rests(&mut program, &mut ctx)?;
    let program = program.close(alloc)?;
    Ok((program, ctx))
}

/// The context of the visit of this program, with nothing to declare. Fails only where memory runs out.
fn new_context(
    alloc: Global,
    scoping: Scoping,
    program: &Node,
    ast: AstBuilder,
    options: &EnvOptions,
) -> Result<TraverseCtx<TransformState>, AllocError>
    requires kind { kind_of program.now ≡ k-Program }
    requires names { BindsNamesOf program.now scoping }
    ensures place { IfOk result (λ ctx. around_of ctx ≡ []) }
    ensures in_use { IfOk result (λ ctx. (x : Text) → uses_of ctx x ≡ is_among (names_of program.now) x) }
    ensures none_made { IfOk result (λ ctx. made_of ctx ≡ []) }
    ensures pending { IfOk result (λ ctx. ctx.state.var_declarations ≡ nothing_pending ∷ []) }
    ensures ast { IfOk result (λ ctx. ctx.ast ≡ ast) }
    ensures options { IfOk result (λ ctx. IsCopy options.now ctx.options) }
    ensures table { IfOk result (λ ctx. table_of ctx ≡ scoping) }
{
    let state = TransformState::new(alloc, source_type_of(program), options)?;
    let options = copy_options(alloc, options)?;
    let ctx = TraverseCtx::new(alloc, scoping, program, state, ast, options)?;
    Ok(ctx)
}

/// Whether a program is a script or a module.
fn source_type_of(program: &Node) -> SourceType
    requires { kind_of program.now ≡ k-Program }
{
    match &program.kind {
        Kind::Program { source_type, .. } => *source_type,
        _ => unreachable!(),
    }
}
