//! Whether the reference of a name that is moved reads and writes it.
ghost use Rattle.lower_temporaries.specs.Takings.{ReadsMore};

use crate::state::TransformState;
use es_scope::context::TraverseCtx;
use es_scope::flags::ReferenceFlags;
use es_tree::kind::Kind;
use es_tree::node::Node;

/// Sets the flags of the reference of a name, as where `x ||= r` becomes `x || (x = r)`, whose target is only written.
/// One that writes a symbol stays such a one, so that what is steady stays so.
pub fn set_name_flags(node: &Node, flags: ReferenceFlags, ctx: &mut TraverseCtx<TransformState>)
    ensures { ReadsMore 0 ctx.old ctx.new }
{
    if let Kind::Identifier {
        reference: Some(reference),
        ..
    } = &node.kind
    {
        if (reference.0 as usize) < ctx.scoping().reference_count() {
            let found = ctx.scoping().reference(*reference);
            if found.symbol.is_none() || found.flags.write == flags.write {
                ctx.set_reference_flags(*reference, flags);
            }
        }
    }
}
