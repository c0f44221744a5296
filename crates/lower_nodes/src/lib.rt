//! Lowerings that act at nodes, each after the parts of the node: what such a lowering promises.
#![tactic(auto)]

ghost use Rattle.std.specs.Prelude.{◌+◌, ◌-◌, ◌<◌, ◌^◌, OnOk};
ghost use Rattle.es_tree.specs.declared.options.EnvOptions.{EnvOptions as Options};
ghost use Rattle.es_traverse.specs.Laws.{Seen};
ghost use Rattle.lower_nodes.specs.Nodes.{Alike, IsNodeLawful, Lowered, NodeProfile, PaidTree, owed};
ghost use Rattle.lower_temporaries.specs.Takings.{moment_of};

use es_scope::context::TraverseCtx;
use es_tree::node::Node;
use lower_temporaries::state::TransformState;
use std::alloc::AllocError;

/// A lowering that acts at nodes, after their parts. It states its rule, the nodes that it takes away, the shapes that it counts on that
/// none stands in the program, and how many ids it may give (`profile`), and for which options its own settings are (`suits`).
pub trait NodeLowering {
    ghost profile: { Options → NodeProfile };

    ghost suits: { Self → Options → Type 0 };

    /// Lowers a node whose parts were walked, or leaves it. Fails only for want of memory, and leaves the node in no stated shape then.
    fn lower(
        &self,
        node: &mut Node,
        ctx: &mut TraverseCtx<TransformState>,
    ) -> Result<(), AllocError>
        requires suited { Self.suits self.now ctx.old.options }
        requires room { ctx.old.ast.next + owed (Self.profile ctx.old.options).owes node.old < 2 ^ 32 - 1 }
        ensures paid { OnOk result (PaidTree (Self.profile ctx.old.options).owes (moment_of ctx.old) node.old (moment_of ctx.new) node.new) }
        ensures alike { OnOk result (Alike (Self.profile ctx.old.options).changes node.old node.new) }
        ensures lowered { OnOk result (Seen (λ t u. Lowered (Self.profile ctx.old.options) (moment_of ctx.old) t (moment_of ctx.new) u) node.old node.new) };

    /// The laws of the lowering itself.
    ghost lawful: { (x : Self) (o : Options) → IsNodeLawful (Self.profile o) };
}
