//! The lowerings of ECMAScript 2018.
ghost use Rattle.lower_editions.specs.Apart.{es2018_apart, es2018_end};
ghost use Rattle.std.specs.Prelude.{◌≡◌, is_some};

use es_traverse::both::Both;
use es_traverse::entering::OnEntry;
use es_tree::options::EnvOptions;
use lower_object_spread::ObjectSpread;
use lower_rest_assignments::RestAssignment;

/// That of spreads in object literals, and then that of object rests in assignments.
pub type ES2018Lowerings = Both<OnEntry<ObjectSpread>, OnEntry<RestAssignment>>;

/// The lowerings of ECMAScript 2018.
pub struct ES2018;

impl ES2018 {
    /// Those that the options ask for: of spreads in object literals, then of object rests in assignments. It takes no memory.
    pub fn lowerings(options: &EnvOptions) -> ES2018Lowerings
        ensures object_spread { result.first.lowering.is_on ≡ is_some options.now.es2018.object_rest_spread }
        ensures rest_assignments { result.second.lowering.is_on ≡ is_some options.now.es2018.object_rest_spread }
    {
        let object_spread = OnEntry {
            lowering: ObjectSpread::new(options),
        };
        let rest_assignments = OnEntry {
            lowering: RestAssignment::new(options),
        };
        Both::new(object_spread, rest_assignments)
    }
}
