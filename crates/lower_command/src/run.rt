//! A run of the tool, from its words and its input to its output and its notes.
ghost use Rattle.std.specs.Prelude.{◌≡◌, ◌≢◌, ◌⊎◌, ◌≤◌, [], IfOk, IsSome, OnOk, OnErr, codes, false};
ghost use Rattle.lower_command.specs.Answer.{output_text, notes_text};
ghost use Rattle.lower_command.specs.Ends.{end_of};
ghost use Rattle.lower_command.specs.Words.{AreProper, generate_of, has_flag};
ghost use Rattle.lower_command.specs.Run.{IsGeneratedAnswer, IsJobAnswer, IsDue, TookAll, TookFront, Table, Causes, FaultsStay, ends};

use crate::answer::{Answer, DONE, OUT_OF_MEMORY, WRITE_FAULT};
use crate::ends::{Failed, Sink, Source};
use crate::generating::generated_line;
use crate::job::lower_text;
use crate::reading::{ReadError, read_input};
use crate::refusal::refusal_line;
use crate::words::{WordsFault, read_words};
use crate::writing::write_all;
use es_tree::options::EnvOptions;
use std::alloc::{AllocError, Global};

/// Reads the words, then the input, lowers it, and writes the answer: first `output`, then `notes`, with a line for each
/// warning. Where the words ask for a made script, that is lowered in place of the input, which isn't read, and `output`
/// gets one line of counts. The result is one of the statuses of `answer`.
///
/// All memory is taken before the first byte goes out.
pub fn run_tool<S: Source, O: Sink, E: Sink>(
    alloc: Global,
    words: &[String],
    input: &mut S,
    output: &mut O,
    notes: &mut E,
) -> u8
    ensures table { Table words.now
        (ends (end_of S.left S.faults input.old) (end_of O.taken O.faults output.old) (end_of E.taken E.faults notes.old))
        (ends (end_of S.left S.faults input.new) (end_of O.taken O.faults output.new) (end_of E.taken E.faults notes.new))
        result }
    ensures causes { Causes words.now
        (ends (end_of S.left S.faults input.old) (end_of O.taken O.faults output.old) (end_of E.taken E.faults notes.old))
        (ends (end_of S.left S.faults input.new) (end_of O.taken O.faults output.new) (end_of E.taken E.faults notes.new))
        result }
    ensures faults { FaultsStay
        (ends (end_of S.left S.faults input.old) (end_of O.taken O.faults output.old) (end_of E.taken E.faults notes.old))
        (ends (end_of S.left S.faults input.new) (end_of O.taken O.faults output.new) (end_of E.taken E.faults notes.new)) }

    // What isn't used isn't touched, whether or not it tells its bytes.
    ensures unread { (¬ AreProper words.now) ⊎ IsSome (generate_of words.now) → input.new ≡ input.old }
    ensures output_kept { result ≢ DONE → result ≢ WRITE_FAULT → output.new ≡ output.old }
    ensures notes_kept { (result ≡ OUT_OF_MEMORY) ⊎ ((result ≡ DONE) × (has_flag words.now (codes "bigint-warnings") ≡ false) × (has_flag words.now (codes "name-warnings") ≡ false)) → notes.new ≡ notes.old }
{
    let Ok(answer) = find_answer(alloc, words, input) else {
        return OUT_OF_MEMORY;
    };
    match give(&answer, output, notes) {
        Ok(()) => answer.status(),
        Err(Failed) => WRITE_FAULT,
    }
}

/// The answer to these words and this input. Nothing is read unless the words are proper and ask to lower the input.
fn find_answer<S: Source>(
    alloc: Global,
    words: &[String],
    input: &mut S,
) -> Result<Answer, AllocError>
    ensures due { IfOk result (λ answer. IsDue answer words.now (end_of S.left S.faults input.old) (end_of S.left S.faults input.new)) }
    ensures unread { (¬ AreProper words.now) ⊎ IsSome (generate_of words.now) → input.new ≡ input.old }
    ensures rises { S.faults input.old ≤ S.faults input.new }
{
    let command = match read_words(alloc, words) {
        Ok(command) => command,
        Err(WordsFault::Refused) => return Ok(Answer::Words),
        Err(WordsFault::OutOfMemory) => return Err(AllocError),
    };
    match command.generate {
        Some(count) => answer_to_count(alloc, count, &command.options),
        None => match read_input(alloc, input) {
            Ok(bytes) => answer_to(alloc, &bytes, &command.options),
            Err(ReadError::Fault) => Ok(Answer::ReadFault),
            Err(ReadError::TooLong) => Ok(Answer::TooLong),
            Err(ReadError::OutOfMemory) => Err(AllocError),
        },
    }
}

/// The job's answer to an input of these bytes, under these options.
fn answer_to(alloc: Global, bytes: &[u8], options: &EnvOptions) -> Result<Answer, AllocError>
    ensures { IfOk result (λ answer. IsJobAnswer options.now answer bytes.now) }
{
    match lower_text(alloc, bytes, options) {
        Ok(texts) => Ok(Answer::Lowered(texts)),
        Err(error) => Ok(Answer::Refused(refusal_line(alloc, error)?)),
    }
}

/// The job's answer to the made script of this many statements, under these options.
fn answer_to_count(alloc: Global, count: u32, options: &EnvOptions) -> Result<Answer, AllocError>
    requires { count ≤ 20000 }
    ensures { IfOk result (λ answer. IsGeneratedAnswer options.now count answer) }
{
    match generated_line(alloc, count, options) {
        Ok(line) => Ok(Answer::Generated(line)),
        Err(error) => Ok(Answer::Refused(refusal_line(alloc, error)?)),
    }
}

/// Writes an answer: all of its text for the output, and then all of that for the notes. It takes no memory.
fn give<O: Sink, E: Sink>(answer: &Answer, output: &mut O, notes: &mut E) -> Result<(), Failed>
    ensures all { OnOk result (TookAll answer.now
        (end_of O.taken O.faults output.old) (end_of O.taken O.faults output.new)
        (end_of E.taken E.faults notes.old) (end_of E.taken E.faults notes.new)) }
    ensures front { OnErr result (TookFront answer.now
        (end_of O.taken O.faults output.old) (end_of O.taken O.faults output.new)
        (end_of E.taken E.faults notes.old) (end_of E.taken E.faults notes.new)) }
    ensures output_rises { O.faults output.old ≤ O.faults output.new }
    ensures notes_rises { E.faults notes.old ≤ E.faults notes.new }
    ensures output_kept { output_text answer.now ≡ [] → output.new ≡ output.old }
    ensures notes_kept { notes_text answer.now ≡ [] → notes.new ≡ notes.old }
{
    write_all(output, answer.output())?;
    write_all(notes, answer.notes())?;
    Ok(())
}
