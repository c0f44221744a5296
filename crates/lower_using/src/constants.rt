//! The direct `using` declarations of a list become constants, the values of which the context notes (Explicit Resource Management, 14.3.1).
//!
//! Before:
//!
//!     using a = b, c = d; f(a);
//!
//! After:
//!
//!     const a = _usingCtx.u(b), c = _usingCtx.u(d); f(a);
//!
//! The rule is `constants` of es_using_rows.
ghost use Rattle.std.specs.Prelude.{◌≡◌, ◌||◌, IfOk, not, true};
ghost use Rattle.es_tree.specs.Tree.{trees};
ghost use Rattle.es_steps.specs.UsingBlocks.{is_using_node};
ghost use Rattle.es_using_rows.specs.UsingPlaces.{are_used, is_used};
ghost use Rattle.es_using_rows.specs.Used.{constant, constants, used_declaration, used_declarator, used_declarators};
ghost use Rattle.lower_using.specs.Parts.{BecomesBy};

use crate::made_nodes::new_method_call;
use crate::places::has_value;
use es_nodes::construct::is_using;
use es_statements::program::{VariableDeclaration, VariableDeclarator};
use es_tree::node::Node;
use es_tree::operators::VariableDeclarationKind;
use lower_fresh_names::nodes::id_of;
use std::alloc::{AllocError, Global};

/// `const a = _usingCtx.u(b); f(a);` for the statements `using a = b; f(a);`.
pub(crate) fn make_constants(
    statements: Vec<Node>,
    context: &str,
    alloc: Global,
) -> Result<Vec<Node>, AllocError>
    requires { are_used (trees statements.items) ≡ true }
    ensures { IfOk result (λ made. BecomesBy context.now constants (trees statements.items) (trees made.items)) }
{
    let mut made = Vec::new(alloc);
    for statement in statements {
        let constant = make_constant(statement, context, alloc)?;
        made.push(constant)?;
    }
    Ok(made)
}

/// `const a = _usingCtx.u(b);` for `using a = b;`, and every other statement as it is.
fn make_constant(statement: Node, context: &str, alloc: Global) -> Result<Node, AllocError>
    requires { (not (is_using_node statement) || is_used statement) ≡ true }
    ensures { IfOk result (λ made. BecomesBy context.now constant statement made) }
{
    if !is_using(&statement) {
        return Ok(statement);
    }
    make_declaration(statement, context, alloc)
}

/// `const a = _usingCtx.u(b);` for `using a = b;`.
pub(crate) fn make_declaration(
    declaration: Node,
    context: &str,
    alloc: Global,
) -> Result<Node, AllocError>
    requires { is_used declaration ≡ true }
    ensures { IfOk result (λ made. BecomesBy context.now used_declaration declaration made) }
{
    let VariableDeclaration {
        id,
        span,
        kind: _using,
        declarations,
    } = VariableDeclaration::open(declaration);
    let used = use_values(declarations, context, alloc)?;
    let constant = VariableDeclaration {
        id,
        span,
        kind: VariableDeclarationKind::Const,
        declarations: used,
    };
    let made = constant.close(alloc)?;
    Ok(made)
}

/// `a = _usingCtx.u(b), c = _usingCtx.u(d)` for `a = b, c = d`. Fails only for want of memory.
pub fn use_values(
    declarators: Vec<Node>,
    context: &str,
    alloc: Global,
) -> Result<Vec<Node>, AllocError>
    ensures { IfOk result (λ used. BecomesBy context.now used_declarators (trees declarators.items) (trees used.items)) }
{
    let mut used = Vec::new(alloc);
    for declarator in declarators {
        let made = use_value(declarator, context, alloc)?;
        used.push(made)?;
    }
    Ok(used)
}

/// `a = _usingCtx.u(b)` for `a = b`, and a declarator without a value as it is.
fn use_value(declarator: Node, context: &str, alloc: Global) -> Result<Node, AllocError>
    ensures { IfOk result (λ used. BecomesBy context.now used_declarator declarator used) }
{
    if !has_value(&declarator) {
        return Ok(declarator);
    }
    let VariableDeclarator {
        id,
        span,
        binding,
        init,
    } = VariableDeclarator::open(declarator);
    let value = match init {
        Some(value) => value,
        None => unreachable!(),
    };
    let place = id_of(&value);
    let arguments = Vec::from_array(alloc, [value])?;
    let called = new_method_call(place, context, "u", arguments, alloc)?;
    let used = VariableDeclarator {
        id,
        span,
        binding,
        init: Some(called),
    };
    used.close(alloc)
}
