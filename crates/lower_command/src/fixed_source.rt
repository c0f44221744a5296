ghost use Rattle.std.specs.Prelude.{◌≡◌, ◌++◌, min, length, take, drop, IsOk, IfOk, Some};

use crate::ends::{Failed, Source};
use std::marker::Model;

/// A source over bytes in memory that never fails.
#[derive(Drop)]
pub struct FixedSource {
    bytes: Vec<u8>,
    at: usize,
}

impl Model for FixedSource {
    ghost use Rattle.std.specs.Prelude.{ℕ, List, ◌≤◌, drop, vec_len};

    ghost Value = { List ℕ };

    ghost view = { λ s. drop s.at s.bytes.items };

    ghost invariant = { λ s. s.at ≤ vec_len s.bytes };
}

impl FixedSource {
    /// A source of these bytes.
    pub fn new(bytes: Vec<u8>) -> FixedSource
        ensures { result ≡ bytes.items }
    {
        FixedSource { bytes, at: 0 }
    }
}

impl Source for FixedSource {
    ghost left = { λ s. Some s };

    ghost faults = { λ _. 0 };

    fn read(&mut self, buf: &mut [u8]) -> Result<usize, Failed>
        ensures never_fails { IsOk result }
        ensures count { IfOk result (λ count. count ≡ min (length buf.old) (length self.old)) }
        ensures bytes { IfOk result (λ count. buf.new ≡ take count self.old ++ drop count buf.old) }
        ensures rest { IfOk result (λ count. self.new ≡ drop count self.old) }
    {
        let left = &self.bytes[self.at..];
        let count = buf.len().min(left.len());
        buf[..count].copy_from_slice(&left[..count]);
        self.at += count;
        Ok(count)
    }
}
