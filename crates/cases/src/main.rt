//! Runs worked cases through the tool, over ends in memory, and tells each that differs.
//!
//! Its words are files of cases, read from the folder that it runs in. Some cases are wrong on purpose: each says what is
//! to be told of it. The program fails where a case differs, or a wrong one isn't told as it says, where a file holds no
//! cases, and where no file is named.
#![tactic(auto)]

mod case;
mod comparing;
mod expected;
mod flag_pairs;
mod judging;
mod running;

use case::{Case, read_cases};
use judging::differences_of;
use serde_json::Value;
use std::process::ExitCode;
use std::rt::{Env, Files};
use std::{env, io};

/// What was run, and how much of it isn't as it should be.
#[derive(Clone, Copy, Default)]
struct Counts {
    files: u64,
    cases: u64,
    /// The cases that are wrong on purpose.
    wrong: u64,
    /// The cases that aren't as they should be, and the files without cases.
    differing: u64,
}

fn main(rt: HostRuntime) -> ExitCode {
    match run_files(&rt) {
        Ok(counts) if counts.files > 0 && counts.differing == 0 => ExitCode::SUCCESS,
        Ok(_) => ExitCode::from(1),
        Err(_) => ExitCode::from(2),
    }
}

/// Runs the cases of the files that the words name. A line goes out for each that differs, and one line of counts.
fn run_files(rt: &(impl Env + Files + Print + AllocGlobal)) -> io::Result<Counts> {
    let mut counts = Counts::default();
    for path in env::args(rt)?.skip(1) {
        run_file(rt, path.as_str(), &mut counts)?;
    }
    show(rt, counts)?;
    Ok(counts)
}

fn show(rt: &impl Print, counts: Counts) -> io::Result<()> {
    println!(rt;
        "{} files, {} cases, {} of them wrong on purpose: {} differ",
        counts.files, counts.cases, counts.wrong, counts.differing
    )
}

/// Runs the cases of one file, and counts them.
fn run_file(
    rt: &(impl Files + Print + AllocGlobal),
    path: &str,
    counts: &mut Counts,
) -> io::Result<()> {
    counts.files = counts.files.saturating_add(1);
    match read_cases(rt, path) {
        Ok(file) => run_cases(rt, path, file.cases(), counts),
        Err(error) => {
            counts.differing = counts.differing.saturating_add(1);
            println!(rt; "{path}: {error}")
        }
    }
}

fn run_cases(
    rt: &(impl Print + AllocGlobal),
    path: &str,
    cases: &[Value],
    counts: &mut Counts,
) -> io::Result<()> {
    for case in cases {
        let case = Case(case);
        let wanted = case.differs();
        counts.cases = counts.cases.saturating_add(1);
        counts.wrong = counts.wrong.saturating_add(u64::from(wanted.is_some()));
        let differences = differences_of(rt.alloc(), case)?;
        if let Some(told) = differences.told_beside(wanted) {
            counts.differing = counts.differing.saturating_add(1);
            let name = case.name().unwrap_or("");
            println!(rt; "{path}: {name}: {told}")?;
        }
    }
    Ok(())
}
