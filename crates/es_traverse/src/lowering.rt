//! What a type states of itself that takes part in a visit.
ghost use Rattle.std.specs.Prelude.{Bool, ℕ, List};
ghost use Rattle.es_tree.specs.declared.options.EnvOptions.{EnvOptions as Options};
ghost use Rattle.es_steps.specs.Open.{Pending};
ghost use Rattle.es_traverse.specs.Laws.{Ending, Profile};
ghost use Rattle.es_visit.specs.declared.hook.Hook.{Hook as AnyHook};

/// A state that keeps what is to be written later. One in which nothing ever is has the one empty pair of the program,
/// for all lists and bodies; a type that keeps no pairs is visited with such a state.
pub trait Additions {
    /// The declarators of each statement list and each arrow body that is an expression around the place, the
    /// innermost first.
    ghost pending: { Self → List Pending };
}

/// What a type states of itself: under some options its rule, its conditions, its constructs, and what it makes
/// (`profile`) and what it does after the program besides (`ending`), whether it keeps a pair of lists for each
/// statement list and each arrow body that is an expression (`keeps`), for which options its own settings are (`suits`), and how often its exit hooks were called at the
/// nodes of an id (`tally`) and its enter hooks anywhere (`entries`), as far as it counts.
pub trait Lowering {
    ghost profile: { Options → Profile };

    ghost ending: { Options → Ending };

    ghost keeps: { Bool };

    ghost suits: { Self → Options → Type 0 };

    ghost tally: { Self → AnyHook → ℕ → ℕ };

    ghost entries: { Self → AnyHook → ℕ };
}
