//! The ends of a run: where its bytes come from, and where they go.
ghost use Rattle.std.specs.Prelude.{◌≡◌, ◌<◌, ◌≤◌, ℕ, List, Option, length, take, IfOk, OnErr};
ghost use Rattle.std.specs.Io.KnownBytes.{append_known, prepend_known, IsAtEnd};
ghost use Rattle.lower_command.specs.Ends.{HasFault};

/// A read or a write that failed.
#[derive(Clone, Copy, Debug, PartialEq, Eq)]
pub struct Failed;

/// Where bytes come from.
pub trait Source {
    /// The bytes that are left, where the source tells them.
    ghost left: { Self → Option (List ℕ) };

    /// How often a read has failed. The count stands still at 2^64 - 1.
    ghost faults: { Self → ℕ };

    /// Puts the next bytes at the front of `buf` and returns how many. Where `buf` isn't empty, 0 is the end.
    /// `Failed` comes only where the count of faults rose or stands at its last value.
    fn read(&mut self, buf: &mut [u8]) -> Result<usize, Failed>
        ensures within { IfOk result (λ count. count ≤ length buf.old) }
        ensures gives { IfOk result (λ count. left self.old ≡ prepend_known (take count buf.new) (left self.new)) }
        ensures end { IfOk result (λ count. count ≡ 0 → 0 < length buf.old → IsAtEnd (left self.new)) }
        ensures cause { OnErr result (HasFault (faults self.old) (faults self.new)) }
        ensures rises { faults self.old ≤ faults self.new };
}

/// Where bytes go.
pub trait Sink {
    /// The bytes taken, where the sink tells them.
    ghost taken: { Self → Option (List ℕ) };

    /// How often a write has failed. The count stands still at 2^64 - 1.
    ghost faults: { Self → ℕ };

    /// Takes bytes from the front of `piece` and returns how many: at least one, unless `piece` is empty.
    /// `Failed` takes nothing, and comes only where the count of faults rose or stands at its last value.
    fn write(&mut self, piece: &[u8]) -> Result<usize, Failed>
        ensures within { IfOk result (λ count. count ≤ length piece.now) }
        ensures some { IfOk result (λ count. 0 < length piece.now → 0 < count) }
        ensures takes { IfOk result (λ count. taken self.new ≡ append_known (taken self.old) (take count piece.now)) }
        ensures refuses { OnErr result (taken self.new ≡ taken self.old) }
        ensures cause { OnErr result (HasFault (faults self.old) (faults self.new)) }
        ensures rises { faults self.old ≤ faults self.new };
}
