//! The lowerings of ECMAScript 2016.
ghost use Rattle.std.specs.Prelude.{◌≡◌};

use es_traverse::entering::OnEntry;
use es_tree::options::EnvOptions;
use lower_exponentiation::ExponentiationOperator;

/// The lowerings of ECMAScript 2016.
pub struct ES2016;

impl ES2016 {
    /// Those that the options ask for: exponentiation. It takes no memory.
    pub fn lowerings(options: &EnvOptions) -> OnEntry<ExponentiationOperator>
        ensures { result.lowering.is_on ≡ options.now.es2016.exponentiation_operator }
    {
        OnEntry {
            lowering: ExponentiationOperator::new(options),
        }
    }
}
