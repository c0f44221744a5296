//! Running a case, and telling what isn't as it says.
use crate::case::Case;
use crate::comparing::Differences;
use crate::expected::{input_of, notes_of, output_of, words_of};
use lower_command::mem_sink::MemSink;
use lower_command::mem_source::MemSource;
use lower_command::run::run_tool;
use lower_command::std_ends::{StdSink, StdSource};
use std::alloc::{AllocError, Global};

/// What a run left.
#[derive(Drop)]
pub struct Outcome {
    pub status: u8,
    pub output: Vec<u8>,
    pub notes: Vec<u8>,
}

/// The most bytes that a read or a write moves at once, so that names and numbers are cut in two.
const PIECE: usize = 61;

/// The most bytes of an output, and of notes.
const ROOM: usize = 1 << 26;

/// An input of these bytes. Where there are none, the first read fails.
fn source_of(
    alloc: Global,
    bytes: Option<Vec<u8>>,
    failing_read: Option<u32>,
) -> Result<MemSource, AllocError> {
    match (bytes, failing_read) {
        (Some(bytes), None) => Ok(MemSource::new(bytes, PIECE, Vec::new(alloc))),
        (Some(bytes), Some(read)) => Ok(MemSource::new(bytes, PIECE, vec![in alloc; read]?)),
        (None, _) => Ok(MemSource::new(Vec::new(alloc), PIECE, vec![in alloc; 0]?)),
    }
}

fn sink_of(alloc: Global, room: Option<usize>) -> Result<MemSink, AllocError> {
    MemSink::new(alloc, room.unwrap_or(ROOM), PIECE, Vec::new(alloc))
}

/// Runs the tool on these words, over ends as the case has them.
fn run_case(alloc: Global, case: Case<'_>, words: &[String]) -> Result<Outcome, AllocError> {
    let input = input_of(alloc, case)?;
    let output = sink_of(alloc, case.output_room())?;
    if case.is_over_std() {
        return run_over_std(alloc, case, words, input, output);
    }
    let source = source_of(alloc, input, case.failing_read())?;
    let notes = sink_of(alloc, case.notes_room())?;
    run(alloc, words, source, output, notes)
}

/// Runs the tool on these words over these ends.
fn run(
    alloc: Global,
    words: &[String],
    mut source: MemSource,
    mut output: MemSink,
    mut notes: MemSink,
) -> Result<Outcome, AllocError> {
    let status = run_tool(alloc, words, &mut source, &mut output, &mut notes);
    Ok(Outcome {
        status,
        output: output.bytes().to_vec(alloc)?,
        notes: notes.bytes().to_vec(alloc)?,
    })
}

/// Runs the tool over a reader of the input and a writer of notes of std, which has room for as many bytes as the case says.
fn run_over_std(
    alloc: Global,
    case: Case<'_>,
    words: &[String],
    input: Option<Vec<u8>>,
    mut output: MemSink,
) -> Result<Outcome, AllocError> {
    let bytes = input.unwrap_or(Vec::new(alloc));
    let mut noted = vec![in alloc; 0u8; case.notes_room().unwrap_or(0)]?;
    let mut source = StdSource::new(&bytes[..]);
    let mut notes = StdSink::new(&mut noted[..]);
    let status = run_tool(alloc, words, &mut source, &mut output, &mut notes);
    Ok(Outcome {
        status,
        output: output.bytes().to_vec(alloc)?,
        notes: noted,
    })
}

/// Runs the case with these flags behind its words, and tells all that isn't as it says. With flags it says no output,
/// and what there is is to be written as it stands.
pub fn compare_run(
    alloc: Global,
    case: Case<'_>,
    flags: &[&str],
    differences: &mut Differences,
) -> Result<(), AllocError> {
    let words = words_of(alloc, case, flags)?;
    let outcome = run_case(alloc, case, &words)?;
    differences.compare_statuses(u64::from(outcome.status), case.status())?;
    compare_notes(alloc, case, &outcome.notes, differences)?;
    if flags.is_empty() {
        compare_outputs(alloc, case, &words, &outcome.output, differences)
    } else {
        compare_again(alloc, &words, &outcome.output, differences)
    }
}

fn compare_notes(
    alloc: Global,
    case: Case<'_>,
    found: &[u8],
    differences: &mut Differences,
) -> Result<(), AllocError> {
    let wanted = notes_of(alloc, case)?;
    let wanted = front(wanted.as_bytes(), case.notes_room());
    differences.compare_texts("notes", found, wanted)
}

/// What of a text goes into so much room.
fn front(text: &[u8], room: Option<usize>) -> &[u8] {
    match room {
        Some(room) => text.get(..room).unwrap_or(text),
        None => text,
    }
}

/// Compares the output, and where the case says so what it gives as an input.
fn compare_outputs(
    alloc: Global,
    case: Case<'_>,
    words: &[String],
    found: &[u8],
    differences: &mut Differences,
) -> Result<(), AllocError> {
    let wanted = output_of(alloc, case)?;
    let taken = front(wanted.as_bytes(), case.output_room());
    differences.compare_texts("output", found, taken)?;
    if case.runs_again() {
        compare_again(alloc, words, wanted.as_bytes(), differences)?;
    }
    Ok(())
}

/// Runs the tool on an output, which is to be written as it stands.
fn compare_again(
    alloc: Global,
    words: &[String],
    output: &[u8],
    differences: &mut Differences,
) -> Result<(), AllocError> {
    let source = source_of(alloc, Some(output.to_vec(alloc)?), None)?;
    let again = run(
        alloc,
        words,
        source,
        sink_of(alloc, None)?,
        sink_of(alloc, None)?,
    )?;
    differences.compare_texts("again", &again.output, output)
}
