//! What comes at the very end of a run: where arrows became functions, the constructors of classes that extend others set their name for `this` behind
//! `super(..)`.
ghost use Rattle.std.specs.Prelude.{◌≡◌, IfOk, is_some, map, string_bytes};
ghost use Rattle.es_tree.specs.Fresh.{is_among};
ghost use Rattle.es_scope.specs.Contexts.{made_of};
ghost use Rattle.lower_driver.specs.Sets.{Sets, sets_this};

use es_scope::context::TraverseCtx;
use es_searches::{Sought, has_node};
use es_tree::node::Node;
use es_tree::options::EnvOptions;
use lower_temporaries::state::TransformState;
use std::alloc::AllocError;

/// Whether a class that extends another stands in a program whose arrows the options ask to lower.
pub(crate) fn sets_this(program: &Node, options: &EnvOptions) -> bool
    ensures { result ≡ sets_this options.now program.now }
{
    options.es2015.arrow_function.is_some() && has_node(program, Sought::DerivedClass)
}

/// The program with such names set, of those that the context made, where that is asked for. Fails only for want of memory.
pub(crate) fn set_this(
    program: Node,
    ctx: &TraverseCtx<TransformState>,
    asked: bool,
) -> Result<Node, AllocError>
    ensures { IfOk result (λ written. Sets asked (made_of ctx.now) program written) }
{
    let mut written = program;
    if asked {
        lower_constructor_this::set_this(&mut written, ctx)?;
    }
    Ok(written)
}
