//! Reading an input to its end.
ghost use Rattle.std.specs.Prelude.{◌≡◌, ◌+◌, ◌^◌, ◌<◌, ◌≤◌, ◌++◌, ℕ, List, length, take, vec_len, IfOk, OnOk, OnErr, IsErrOf};
ghost use Rattle.std.specs.Io.KnownBytes.{prepend_known, IsAtEnd};
ghost use Rattle.lower_command.specs.Ends.{HasFault, ReadWhole, ReadFront};
ghost use Rattle.lower_command.specs.declared.reading.ReadError.TheVariants.{Fault, OutOfMemory};

use crate::ends::{Failed, Source};
use std::alloc::{AllocError, Global};

/// The most bytes that an input may have.
pub const INPUT_LIMIT: usize = 1 << 26;

/// How many bytes are read at a time.
const BLOCK: usize = 1 << 16;

/// Why an input wasn't read.
#[derive(Clone, Copy, Debug, PartialEq, Eq)]
pub enum ReadError {
    /// The source failed.
    Fault,
    /// There are more than `INPUT_LIMIT` bytes.
    TooLong,
    /// Memory ran out.
    OutOfMemory,
}

impl From<Failed> for ReadError {
    ghost from_gives = { λ _ error. error ≡ Fault };

    fn from(_: Failed) -> Self {
        ReadError::Fault
    }
}

impl From<AllocError> for ReadError {
    ghost from_gives = { λ _ error. error ≡ OutOfMemory };

    fn from(_: AllocError) -> Self {
        ReadError::OutOfMemory
    }
}

/// All bytes of an input to its end, at most `INPUT_LIMIT` of them. Of a longer one it takes one byte more.
pub fn read_input<S: Source>(alloc: Global, input: &mut S) -> Result<Vec<u8>, ReadError>
    ensures whole { IfOk result (λ bytes. ReadWhole (S.left input.old) (S.left input.new) bytes.items) }
    ensures short { IfOk result (λ bytes. length bytes.items ≤ 2 ^ 26) }
    ensures too_long { IsErrOf result ReadError.TooLong → ReadFront (S.left input.old) (S.left input.new) (2 ^ 26 + 1) }
    ensures fault { IsErrOf result ReadError.Fault → HasFault (S.faults input.old) (S.faults input.new) }
    ensures rises { S.faults input.old ≤ S.faults input.new }
{
    let mut bytes = Vec::new(alloc);
    let mut block = zeros(alloc, BLOCK)?;
    while bytes.len() <= INPUT_LIMIT {
        let room = BLOCK.min(INPUT_LIMIT + 1 - bytes.len());
        let count = read_piece(input, &mut block[..room], &mut bytes)?;
        if count == 0 {
            return Ok(bytes);
        }
    }
    Err(ReadError::TooLong)
}

/// So many bytes to read into.
fn zeros(alloc: Global, len: usize) -> Result<Vec<u8>, AllocError>
    ensures { IfOk result (λ zeros. vec_len zeros ≡ len) }
{
    vec![in alloc; 0; len]
}

/// Reads once into `piece`, and adds what it gives to `bytes`.
fn read_piece<S: Source>(
    input: &mut S,
    piece: &mut [u8],
    bytes: &mut Vec<u8>,
) -> Result<usize, ReadError>
    ensures count { IfOk result (λ count. (vec_len bytes.new ≡ vec_len bytes.old + count) × (count ≤ length piece.old)) }
    ensures gives { OnOk result ((more : List ℕ) × (bytes.new.items ≡ bytes.old.items ++ more)
        × (S.left input.old ≡ prepend_known more (S.left input.new))) }
    ensures end { IfOk result (λ count. count ≡ 0 → 0 < length piece.old → IsAtEnd (S.left input.new)) }
    ensures not_long { IsErrOf result ReadError.TooLong → ⊥ }
    ensures fault { IsErrOf result ReadError.Fault → HasFault (S.faults input.old) (S.faults input.new) }
    ensures rises { S.faults input.old ≤ S.faults input.new }
{
    let count = input.read(piece)?;
    bytes.extend_from_slice(&piece[..count])?;
    Ok(count)
}
