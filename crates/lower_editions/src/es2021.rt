//! The lowerings of ECMAScript 2021.
ghost use Rattle.std.specs.Prelude.{◌≡◌};

use es_traverse::entering::OnEntry;
use es_tree::options::EnvOptions;
use lower_logical_assignment::LogicalAssignmentOperators;

/// The lowerings of ECMAScript 2021.
pub struct ES2021;

impl ES2021 {
    /// Those that the options ask for: logical assignment. It takes no memory.
    pub fn lowerings(options: &EnvOptions) -> OnEntry<LogicalAssignmentOperators>
        ensures { result.lowering.is_on ≡ options.now.es2021.logical_assignment_operators }
    {
        OnEntry {
            lowering: LogicalAssignmentOperators::new(options),
        }
    }
}
