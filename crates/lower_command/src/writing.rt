//! Writing a text whole.
ghost use Rattle.std.specs.Prelude.{◌≡◌, ◌≤◌, [], ℕ, length, take, OnOk, OnErr};
ghost use Rattle.std.specs.Io.KnownBytes.{append_known};
ghost use Rattle.lower_command.specs.Ends.{HasFault};

use crate::ends::{Failed, Sink};

/// Writes all of a text. `Failed` comes from the sink, which then has taken a part from the front.
pub fn write_all<K: Sink>(sink: &mut K, text: &[u8]) -> Result<(), Failed>
    ensures whole { OnOk result (K.taken sink.new ≡ append_known (K.taken sink.old) text.now) }
    ensures part { OnErr result ((count : ℕ) × (count ≤ length text.now)
        × (K.taken sink.new ≡ append_known (K.taken sink.old) (take count text.now))) }
    ensures cause { OnErr result (HasFault (K.faults sink.old) (K.faults sink.new)) }
    ensures rises { K.faults sink.old ≤ K.faults sink.new }
    ensures nothing { text.now ≡ [] → sink.new ≡ sink.old }
{
    let mut done = 0;
    while done < text.len() {
        done += sink.write(&text[done..])?;
    }
    Ok(())
}
