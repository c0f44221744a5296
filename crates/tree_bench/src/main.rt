//! What values, trees and walks cost: one job of a given size, to be run under a counter of instructions
//! (docs/PERFORMANCE.md).
//!
//! Words: `values N` reads the JSON text of a script of N statements by serde_json and writes it again,
//! `trees N` reads it as a tree and writes that, and `walks N` reads it, copies it, counts it and checks its
//! rules. With `-` in place of N the text is that of standard input. Each prints the nodes that it counted and the
//! bytes that it wrote.
#![tactic(auto)]

use es_json::program::read_program;
use es_json::writer::program_text;
use es_nodes::count::count_nodes;
use es_static_rules::static_rules::check_static;
use es_tree::error::LowerError;
use serde_json::Value;
use std::alloc::{AllocError, Global};
use std::process::ExitCode;
use std::rt::Env;
use std::{env, io};

/// `v = o.p ?? d;`, of eight nodes.
const STATEMENT: &str =
    r#"{"type":"ExpressionStatement","expression":{"type":"AssignmentExpression","operator":"=","left":{"type":"Identifier","name":"v"},"right":{"type":"LogicalExpression","operator":"??","left":{"type":"MemberExpression","object":{"type":"Identifier","name":"o"},"property":{"type":"Identifier","name":"p"}},"right":{"type":"Identifier","name":"d"}}}}"#;

/// What a job did.
#[derive(Clone, Copy)]
struct Done {
    nodes: u64,
    bytes: usize,
}

/// The JSON text of a script of so many of these statements.
fn script(alloc: Global, count: u32) -> Result<String, AllocError> {
    let mut text = String::from_str(alloc, r#"{"type":"Program","sourceType":"script","body":["#)?;
    for index in 0..count {
        if index > 0 {
            text.push_str(",")?;
        }
        text.push_str(STATEMENT)?;
    }
    text.push_str("]}")?;
    Ok(text)
}

/// The value of the text.
fn read_value(alloc: Global, text: &str) -> Result<Value, LowerError> {
    Value::from_slice(alloc, text.as_bytes()).map_err(|_error| LowerError::Json)
}

fn values(alloc: Global, text: &str) -> Result<Done, LowerError> {
    let written = read_value(alloc, text)?.to_string(alloc)?;
    Ok(Done {
        nodes: 0,
        bytes: written.len(),
    })
}

fn trees(alloc: Global, text: &str) -> Result<Done, LowerError> {
    let value = read_value(alloc, text)?;
    let read = read_program(alloc, &value)?;
    let written = program_text(alloc, &read.program)?;
    Ok(Done {
        nodes: count_nodes(&read.program),
        bytes: written.len(),
    })
}

fn walks(alloc: Global, text: &str) -> Result<Done, LowerError> {
    let value = read_value(alloc, text)?;
    let read = read_program(alloc, &value)?;
    let copy = read.program.clone_tree(alloc)?;
    check_static(alloc, &copy)?;
    Ok(Done {
        nodes: count_nodes(&copy),
        bytes: 0,
    })
}

/// Does the job of this name, or none where no job has it.
fn job(alloc: Global, name: &str, text: &str) -> Result<Option<Done>, LowerError> {
    match name {
        "values" => Ok(Some(values(alloc, text)?)),
        "trees" => Ok(Some(trees(alloc, text)?)),
        "walks" => Ok(Some(walks(alloc, text)?)),
        _ => Ok(None),
    }
}

/// The words after the program's name.
fn read_words(rt: &(impl Env + AllocGlobal)) -> io::Result<Vec<String>> {
    let words = env::args(rt)?.skip(1).collect(rt.alloc())?;
    Ok(words)
}

/// The text for a job: that of standard input where the word is `-`, else a script of so many statements, and none where
/// the word is no number.
fn given_text(rt: &HostRuntime, word: &str) -> io::Result<Option<String>> {
    if word == "-" {
        let text = io::read_to_string(rt.alloc(), rt.stdin())?;
        return Ok(Some(text));
    }
    let Ok(count) = word.parse::<u32>() else {
        return Ok(None);
    };
    let text = script(rt.alloc(), count)?;
    Ok(Some(text))
}

fn run(rt: &HostRuntime) -> io::Result<ExitCode> {
    let words = read_words(rt)?;
    let [name, word] = words.as_slice() else {
        return Ok(ExitCode::from(2));
    };
    let Some(text) = given_text(rt, word.as_str())? else {
        return Ok(ExitCode::from(2));
    };
    match job(rt.alloc(), name.as_str(), text.as_str()) {
        Ok(Some(done)) => {
            println!(rt; "{} nodes {} bytes {}", name, done.nodes, done.bytes)?;
            Ok(ExitCode::SUCCESS)
        }
        Ok(None) => Ok(ExitCode::from(2)),
        Err(_refused) => Ok(ExitCode::from(1)),
    }
}

fn main(rt: HostRuntime) -> ExitCode {
    match run(&rt) {
        Ok(code) => code,
        Err(_fault) => ExitCode::from(1),
    }
}
