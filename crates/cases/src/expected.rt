//! What a case says that a run is given and leaves, as bytes.
use crate::case::Case;
use es_json::program::read_program;
use es_json::writer::program_text;
use lower_command::generated::generate_program;
use lower_command::refusal::refusal_line;
use serde_json::Value;
use std::alloc::{AllocError, Global};

/// The words, with these flags behind them.
pub fn words_of(alloc: Global, case: Case<'_>, flags: &[&str]) -> Result<Vec<String>, AllocError> {
    let mut words = Vec::new(alloc);
    if let Some(texts) = case.words() {
        for text in texts {
            words.push(String::from_str(alloc, text.as_str().unwrap_or(""))?)?;
        }
    }
    for flag in flags {
        words.push(String::from_str(alloc, flag)?)?;
    }
    Ok(words)
}

/// The input, if there is one.
pub fn input_of(alloc: Global, case: Case<'_>) -> Result<Option<Vec<u8>>, AllocError> {
    if let Some(tree) = case.input() {
        return Ok(Some(tree.to_vec(alloc)?));
    }
    if let Some(text) = case.bytes() {
        return Ok(Some(text.as_bytes().to_vec(alloc)?));
    }
    match made_input_of(alloc, case)? {
        Some(text) => Ok(Some(text.as_bytes().to_vec(alloc)?)),
        None => Ok(None),
    }
}

/// The input that is made, if it is.
fn made_input_of(alloc: Global, case: Case<'_>) -> Result<Option<String>, AllocError> {
    match (case.input_parts(), case.made_statements()) {
        (Some(parts), _) => Ok(Some(text_of(alloc, parts)?)),
        (None, Some(count)) => Ok(Some(script_of(alloc, count)?)),
        (None, None) => Ok(None),
    }
}

/// The text of parts, each of which stands as often as it says.
fn text_of(alloc: Global, parts: &[Value]) -> Result<String, AllocError> {
    let mut text = String::new(alloc);
    for part in parts {
        let piece = part.get("text").and_then(Value::as_str).unwrap_or("");
        let times = part.get("times").and_then(Value::as_u64).unwrap_or(0);
        for _time in 0..times {
            text.push_str(piece)?;
        }
    }
    Ok(text)
}

/// The text of the made script of so many statements; nothing where that is more than may be.
fn script_of(alloc: Global, count: u64) -> Result<String, AllocError> {
    if count > 20_000 {
        return Ok(String::new(alloc));
    }
    let made = generate_program(alloc, count as u32)?;
    program_text(alloc, &made.program)
}

/// The output.
pub fn output_of(alloc: Global, case: Case<'_>) -> Result<String, AllocError> {
    if let Some(tree) = case.output() {
        return canonical_line(alloc, tree);
    }
    if let Some(parts) = case.line_parts() {
        let mut line = text_of(alloc, parts)?;
        line.push_str("\n")?;
        return Ok(line);
    }
    match (case.canonical(), case.line()) {
        (Some(tree), _) => format!(in alloc; "{tree}\n"),
        (None, Some(line)) => format!(in alloc; "{line}\n"),
        (None, None) => Ok(String::new(alloc)),
    }
}

/// The line of a tree: its canonical form, or why it is refused.
fn canonical_line(alloc: Global, tree: &Value) -> Result<String, AllocError> {
    match read_program(alloc, tree) {
        Ok(read) => {
            let mut line = program_text(alloc, &read.program)?;
            line.push_str("\n")?;
            Ok(line)
        }
        Err(error) => refusal_line(alloc, error),
    }
}

/// The notes.
pub fn notes_of(alloc: Global, case: Case<'_>) -> Result<String, AllocError> {
    let mut notes = String::new(alloc);
    if let Some(lines) = case.notes() {
        for line in lines {
            notes.push_str(line.as_str().unwrap_or(""))?;
            notes.push_str("\n")?;
        }
    }
    Ok(notes)
}
