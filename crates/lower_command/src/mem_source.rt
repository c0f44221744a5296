ghost use Rattle.std.specs.Prelude.{◌≡◌, ◌↔◌, ◌++◌, ◌<◌, ◌≤◌, ◌^◌, min, length, take, drop, Contains, IsErr, IfOk, OnErr, Some};
ghost use Rattle.lower_command.specs.Memory.{after_read, after_failed_read};

use crate::calls::is_failing;
use crate::ends::{Failed, Source};
use std::marker::Model;

/// A source over bytes in memory, some of whose calls fail.
#[derive(Drop)]
pub struct MemSource {
    bytes: Vec<u8>,
    at: usize,
    piece: usize,
    fails: Vec<u32>,
    calls: u64,
    faults: u64,
}

impl Model for MemSource {
    ghost use Rattle.std.specs.Prelude.{◌≤◌, drop, vec_len};
    ghost use Rattle.lower_command.specs.Memory.{SourceState};

    ghost Value = { SourceState };

    ghost view = { λ s. record { left = drop s.at s.bytes.items; piece = s.piece; fails = s.fails.items; call = s.calls; faults = s.faults } };

    ghost invariant = { λ s. (s.at ≤ vec_len s.bytes) × (1 ≤ s.piece) };
}

impl MemSource {
    /// A source of these bytes, that gives at most `piece` of them a call. The calls that `fails` lists fail.
    pub fn new(bytes: Vec<u8>, piece: usize, fails: Vec<u32>) -> MemSource
        requires { 1 ≤ piece }
        ensures { result ≡ record { left = bytes.items; piece = piece; fails = fails.items; call = 0; faults = 0 } }
    {
        MemSource {
            bytes,
            at: 0,
            piece,
            fails,
            calls: 0,
            faults: 0,
        }
    }
}

impl Source for MemSource {
    ghost left = { λ s. Some s.left };

    ghost faults = { λ s. s.faults };

    fn read(&mut self, buf: &mut [u8]) -> Result<usize, Failed>
        ensures fails { IsErr result ↔ Contains self.old.fails self.old.call }
        ensures count { IfOk result (λ count. count ≡ min (min (length buf.old) self.old.piece) (length self.old.left)) }
        ensures bytes { IfOk result (λ count. buf.new ≡ take count self.old.left ++ drop count buf.old) }
        ensures rest { IfOk result (λ count. self.new ≡ after_read self.old count) }
        ensures failed { OnErr result (self.new ≡ after_failed_read self.old) }
        ensures gives_some { 1 ≤ self.old.piece }
        ensures counted { self.old.faults < 2 ^ 64 }
    {
        let fails = is_failing(&self.fails, self.calls);
        self.calls = self.calls.saturating_add(1);
        if fails {
            self.faults = self.faults.saturating_add(1);
            return Err(Failed);
        }
        let left = &self.bytes[self.at..];
        let count = buf.len().min(self.piece).min(left.len());
        buf[..count].copy_from_slice(&left[..count]);
        self.at += count;
        Ok(count)
    }
}
