//! The state of a lowering.
ghost use Rattle.std.specs.Prelude.{◌≡◌, ◌∷◌, [], IfOk};
ghost use Rattle.es_steps.specs.Open.{nothing_pending};
ghost use Rattle.lower_temporaries.specs.Takings.{pending_of};

use crate::declarations::VarDeclarationsStore;
use es_traverse::lowering::Additions;
use es_tree::operators::SourceType;
use es_tree::options::{Assumptions, EnvOptions};
use std::alloc::{AllocError, Global};

/// What the hooks of lowerings share during one run.
#[derive(Drop)]
pub struct TransformState {
    pub source_type: SourceType,
    pub assumptions: Assumptions,
    pub var_declarations: VarDeclarationsStore,
}

impl TransformState {
    /// The state before a run: the assumptions of the options, and nothing to declare. Answers an error only for want
    /// of memory.
    pub fn new(
        alloc: Global,
        source_type: SourceType,
        options: &EnvOptions,
    ) -> Result<TransformState, AllocError>
        ensures source_type { IfOk result (λ state. state.source_type ≡ source_type) }
        ensures assumptions { IfOk result (λ state. state.assumptions ≡ options.now.assumptions) }
        ensures pending { IfOk result (λ state. state.var_declarations ≡ nothing_pending ∷ []) }
    {
        let var_declarations = VarDeclarationsStore::new(alloc)?;
        Ok(TransformState {
            source_type,
            assumptions: options.assumptions,
            var_declarations,
        })
    }
}

impl Additions for TransformState {
    ghost pending = { pending_of };
}
