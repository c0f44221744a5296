//! The lowerings of ECMAScript 2020.
ghost use Rattle.lower_editions.specs.Apart.{es2020_apart, es2020_end, expressions_apart, expressions_end};
ghost use Rattle.std.specs.Prelude.{◌≡◌};
ghost use Rattle.lower_chains.specs.Profiles.{Suits};

use es_traverse::both::Both;
use es_traverse::entering::OnEntry;
use es_tree::options::EnvOptions;
use lower_chains::optional_chaining::OptionalChaining;
use lower_namespace_exports::ExportNamespaceFrom;
use lower_nullish_coalescing::NullishCoalescingOperator;

/// Those of expressions, and then that of exports of namespaces.
pub type ES2020Lowerings = Both<
    Both<OnEntry<NullishCoalescingOperator>, OnEntry<OptionalChaining>>,
    ExportNamespaceFrom,
>;

/// The lowerings of ECMAScript 2020, and the warnings of its options.
pub struct ES2020;

impl ES2020 {
    /// Those that the options ask for: of nullish coalescing, then of optional chaining, and after the program of
    /// exports of namespaces. It takes no memory.
    pub fn lowerings(options: &EnvOptions) -> ES2020Lowerings
        ensures nullish_coalescing { result.first.first.lowering.is_on ≡ options.now.es2020.nullish_coalescing_operator }
        ensures optional_chaining { Suits result.first.second.lowering options.now }
        ensures namespace_exports { result.second.is_on ≡ options.now.es2020.export_namespace_from }
    {
        let nullish_coalescing = OnEntry {
            lowering: NullishCoalescingOperator::new(options),
        };
        let optional_chaining = OnEntry {
            lowering: OptionalChaining::new(
                options.es2020.optional_chaining,
                options.assumptions.no_document_all,
            ),
        };
        let expressions = Both::new(nullish_coalescing, optional_chaining);
        Both::new(expressions, ExportNamespaceFrom::new(options))
    }
}
