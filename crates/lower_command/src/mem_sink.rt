ghost use Rattle.std.specs.Prelude.{◌≡◌, ◌↔◌, [], ◌<◌, ◌≤◌, ◌^◌, min, length, take, IsErr, IfOk, OnErr, Some};
ghost use Rattle.lower_command.specs.Memory.{FailsNow, after_write, after_failed_write};

use crate::calls::is_failing;
use crate::ends::{Failed, Sink};
use std::alloc::{AllocError, Global};
use std::marker::Model;

/// A sink into memory that was set aside for it, some of whose calls fail.
#[derive(Drop)]
pub struct MemSink {
    bytes: Vec<u8>,
    room: usize,
    piece: usize,
    fails: Vec<u32>,
    calls: u64,
    faults: u64,
}

impl Model for MemSink {
    ghost use Rattle.std.specs.Prelude.{◌≤◌, ◌+◌, vec_len, vec_capacity};
    ghost use Rattle.lower_command.specs.Memory.{SinkState};

    ghost Value = { SinkState };

    ghost view = { λ s. record { bytes = s.bytes.items; room = s.room; piece = s.piece; fails = s.fails.items; call = s.calls; faults = s.faults } };

    ghost invariant = { λ s. (vec_len s.bytes + s.room ≤ vec_capacity s.bytes) × (1 ≤ s.piece) };
}

impl MemSink {
    /// A sink with room for `space` bytes, that takes at most `piece` of them a call. The calls that `fails` lists
    /// fail, and so does a call where no room is left.
    pub fn new(
        alloc: Global,
        space: usize,
        piece: usize,
        fails: Vec<u32>,
    ) -> Result<MemSink, AllocError>
        requires { 1 ≤ piece }
        ensures { IfOk result (λ sink. sink ≡ record { bytes = []; room = space; piece = piece; fails = fails.items; call = 0; faults = 0 }) }
    {
        Ok(MemSink {
            bytes: Vec::with_capacity(alloc, space)?,
            room: space,
            piece,
            fails,
            calls: 0,
            faults: 0,
        })
    }

    /// The bytes taken.
    pub fn bytes(&self) -> &[u8]
        ensures { result.now ≡ self.now.bytes }
    {
        &self.bytes
    }
}

impl Sink for MemSink {
    ghost taken = { λ s. Some s.bytes };

    ghost faults = { λ s. s.faults };

    fn write(&mut self, piece: &[u8]) -> Result<usize, Failed>
        ensures fails { IsErr result ↔ FailsNow self.old }
        ensures count { IfOk result (λ count. count ≡ min (min (length piece.now) self.old.piece) self.old.room) }
        ensures took { IfOk result (λ count. self.new ≡ after_write self.old (take count piece.now)) }
        ensures failed { OnErr result (self.new ≡ after_failed_write self.old) }
        ensures takes_some { 1 ≤ self.old.piece }
        ensures counted { self.old.faults < 2 ^ 64 }
    {
        let fails = self.room == 0 || is_failing(&self.fails, self.calls);
        self.calls = self.calls.saturating_add(1);
        if fails {
            self.faults = self.faults.saturating_add(1);
            return Err(Failed);
        }
        let count = piece.len().min(self.piece).min(self.room);
        self.bytes.extend_from_slice(&piece[..count]).unwrap();
        self.room -= count;
        Ok(count)
    }
}
