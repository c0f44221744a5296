//! Numbered calls, some of which fail.
ghost use Rattle.std.specs.Prelude.{◌↔◌, IsTrue, Contains};

/// Whether the call with this number is one of those that fail.
pub fn is_failing(fails: &[u32], call: u64) -> bool
    ensures { IsTrue result ↔ Contains fails.now call }
{
    fails.iter().any(|fail| u64::from(*fail) == call)
}
