//! The lowerings of ECMAScript 2019.
ghost use Rattle.std.specs.Prelude.{◌≡◌};

use es_traverse::entering::OnEntry;
use es_tree::options::EnvOptions;
use lower_optional_catch::OptionalCatchBinding;

/// The lowerings of ECMAScript 2019.
pub struct ES2019;

impl ES2019 {
    /// Those that the options ask for: of optional catch bindings. It takes no memory.
    pub fn lowerings(options: &EnvOptions) -> OnEntry<OptionalCatchBinding>
        ensures { result.lowering.is_on ≡ options.now.es2019.optional_catch_binding }
    {
        OnEntry {
            lowering: OptionalCatchBinding::new(options),
        }
    }
}
