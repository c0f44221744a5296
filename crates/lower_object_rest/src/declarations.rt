//! A declaration whose patterns with a rest become declarators without one: its declarators are lowered one after another, each of which is
//! moved, and so are those that come of them.
ghost use Rattle.std.specs.Prelude.{◌+◌, ◌-◌, ◌<◌, ◌≡◌, ◌^◌, IfOk, OnOk, true};
ghost use Rattle.es_tree.specs.Tree.{fields_of, kind_of, label_of, trees};
ghost use Rattle.es_rest_shapes.specs.RestShapes.{is_name, is_plain_pattern};
ghost use Rattle.lower_nodes.specs.Nodes.{owed, owed_among};
ghost use Rattle.lower_object_rest.specs.Declarators.{AddsAll, AddsDeclarators, AddsKept, AddsPattern};
ghost use Rattle.lower_object_rest.specs.Profile.{rest_owes};
ghost use Rattle.lower_object_rest.specs.Shapes.{is_lowerable, is_lowerable_declaration};
ghost use Rattle.lower_object_rest.specs.Whole.{LowersDeclaration};

use crate::nested::add_properties;
use crate::patterns::is_lowerable;
use crate::rests::{OpenPattern, open_pattern, take};
use crate::sources::{is_kept, store};
use es_scope::context::TraverseCtx;
use es_statements::program::{VariableDeclaration, VariableDeclarator};
use es_tree::node::Node;
use lower_temporaries::state::TransformState;
use std::alloc::AllocError;

/// `const { a, ...b } = f(), c = 1;` as
/// `const _f = f(), { a } = _f, b = babelHelpers.objectWithoutProperties(_f, ["a"]), c = 1;`, with the place of the declaration. Fails only
/// for want of memory.
pub(crate) fn lower_declaration(
    node: Node,
    ctx: &mut TraverseCtx<TransformState>,
) -> Result<Node, AllocError>
    requires lowerable { is_lowerable_declaration (kind_of node) (label_of node) (fields_of node) ≡ true }
    requires room { ctx.old.ast.next + owed rest_owes node < 2 ^ 32 - 1 }
    ensures { IfOk result (λ made. LowersDeclaration ctx.old ctx.new node made) }
{
    let VariableDeclaration {
        id,
        span,
        kind,
        declarations,
    } = VariableDeclaration::open(node);
    let mut made = Vec::new(ctx.ast.alloc);
    add_declarators(declarations, &mut made, ctx)?;
    let lowered = VariableDeclaration {
        id,
        span,
        kind,
        declarations: made,
    };
    let declaration = lowered.close(ctx.ast.alloc)?;
    Ok(declaration)
}

/// `_f = f(), { a } = _f, b = babelHelpers.objectWithoutProperties(_f, ["a"]), c = 1` for the declarators `{ a, ...b } = f(), c = 1`,
/// behind those made before.
#[cycle(lower)]
fn add_declarators(
    declarators: Vec<Node>,
    made: &mut Vec<Node>,
    ctx: &mut TraverseCtx<TransformState>,
) -> Result<(), AllocError>
    requires room { ctx.old.ast.next + owed_among rest_owes (trees declarators.items) < 2 ^ 32 - 1 }
    ensures { OnOk result (AddsAll ctx.old ctx.new declarators.items made.old.items made.new.items) }
{
    for declarator in declarators {
        add_declarator(declarator, made, ctx)?;
    }
    Ok(())
}

/// One declarator more, or those that come of it.
#[cycle(lower)]
fn add_declarator(
    declarator: Node,
    made: &mut Vec<Node>,
    ctx: &mut TraverseCtx<TransformState>,
) -> Result<(), AllocError>
    requires room { ctx.old.ast.next + owed rest_owes declarator < 2 ^ 32 - 1 }
    ensures { OnOk result (AddsDeclarators ctx.old ctx.new declarator made.old.items made.new.items) }
{
    if !is_lowerable(&declarator) {
        made.push(declarator)?;
        return Ok(());
    }
    let VariableDeclarator {
        id: _id,
        span: _span,
        binding,
        init,
    } = VariableDeclarator::open(declarator);
    let source = match init {
        Some(source) => source,
        None => unreachable!(),
    };
    add_pattern(binding, source, made, ctx)?;
    Ok(())
}

/// The declarators that come of `{ a, ...b } = c` or `{ a, ...b } = f()`, for the pattern and its source.
#[cycle(lower)]
pub(crate) fn add_pattern(
    pattern: Node,
    source: Node,
    made: &mut Vec<Node>,
    ctx: &mut TraverseCtx<TransformState>,
) -> Result<(), AllocError>
    requires plain { is_plain_pattern pattern ≡ true }
    requires room { ctx.old.ast.next + owed rest_owes pattern + owed rest_owes source < 2 ^ 32 - 1 }
    ensures { OnOk result (AddsPattern ctx.old ctx.new pattern source made.old.items made.new.items) }
{
    let kept = is_kept(&source, &pattern, ctx)?;
    if kept {
        add_kept(pattern, source, made, ctx)?;
        return Ok(());
    }
    let (stored, name) = store(source, ctx)?;
    made.push(stored)?;
    add_kept(pattern, name, made, ctx)?;
    Ok(())
}

/// `{ a } = s` and `b = babelHelpers.objectWithoutProperties(s, ["a"])` for the pattern `{ a, ...b }` and its source `s`, which is kept, with
/// more for each key that is read, and `b = babelHelpers.extends({}, (babelHelpers.objectDestructuringEmpty(s), s))` for the pattern
/// `{ ...b }`. A pattern in a property is then declared in its turn, in place of what declares that property.
#[cycle(lower)]
fn add_kept(
    pattern: Node,
    source: Node,
    made: &mut Vec<Node>,
    ctx: &mut TraverseCtx<TransformState>,
) -> Result<(), AllocError>
    requires plain { is_plain_pattern pattern ≡ true }
    requires name { is_name source ≡ true }
    requires room { ctx.old.ast.next + owed rest_owes pattern < 2 ^ 32 + 2 }
    ensures { OnOk result (AddsKept ctx.old ctx.new pattern source made.old.items made.new.items) }
{
    match open_pattern(pattern) {
        OpenPattern::WithRest(rest) => {
            let declarators = take(rest, source, ctx)?;
            add_declarators(declarators, made, ctx)?;
            Ok(())
        }
        OpenPattern::WithoutRest(pattern) => {
            add_properties(pattern, source, made, ctx)?;
            Ok(())
        }
    }
}
