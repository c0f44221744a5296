//! Reads a program of JavaScript in its tree form from standard input, lowers it as its words say, and writes it out.
//! Warnings, faults and refusals go to standard error, a line each, and the status of the process says which it was.
#![tactic(auto)]

use lower_command::answer::OUT_OF_MEMORY;
use lower_command::run::run_tool;
use lower_command::std_ends::{StdSink, StdSource};
use lower_command::words::refused_words;
use std::alloc::AllocError;
use std::env;
use std::io::{self, ErrorKind};
use std::process::ExitCode;
use std::rt::Env;

/// The words after the program's name. `InvalidData` says that one of them isn't UTF-8.
fn given_words(rt: &(impl Env + AllocGlobal)) -> io::Result<Vec<String>> {
    let words = env::args(rt)?.skip(1).collect(rt.alloc())?;
    Ok(words)
}

fn main(rt: HostRuntime) -> ExitCode {
    let mut input = StdSource::new(rt.stdin());
    let mut output = StdSink::new(rt.stdout());
    let mut notes = StdSink::new(rt.stderr());
    let words = match given_words(&rt) {
        Ok(words) => words,
        Err(error) if error.kind() == ErrorKind::OutOfMemory => {
            return ExitCode::from(OUT_OF_MEMORY);
        }
        // A word that isn't UTF-8 is none of the command's.
        Err(_) => match refused_words(rt.alloc()) {
            Ok(words) => words,
            Err(AllocError) => return ExitCode::from(OUT_OF_MEMORY),
        },
    };
    let status = run_tool(rt.alloc(), &words, &mut input, &mut output, &mut notes);
    ExitCode::from(status)
}
