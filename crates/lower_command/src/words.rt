//! The words of a run: flags and options that say what it lowers and what it may assume, and whether it lowers its
//! input or a made script.
ghost use Rattle.std.specs.Prelude.{◌≡◌, IfOk, IfErr, codes};
ghost use Rattle.clap.specs.Matches.{found_of};
ghost use Rattle.clap.specs.Walk.{first_of, rows_of};
ghost use Rattle.lower_command.specs.Words.{AreAsked, AreProper, AreValues, Asks, count_of, generate_of};

use crate::asked::{options_of, read_count, read_mode, read_module, value_of};
use crate::command_line::new_command_line;
use clap::ArgMatches;
use clap::error::ErrorKind;
use es_tree::options::EnvOptions;
use std::alloc::{AllocError, Global};

/// What the words ask for.
#[derive(Drop)]
pub struct Command {
    pub options: EnvOptions,
    /// How many statements the script has that is made in place of the input, where the words ask for one.
    pub generate: Option<u32>,
}

/// Why the words give no command.
#[derive(Clone, Copy, Debug, PartialEq, Eq)]
pub enum WordsFault {
    /// They aren't the command's.
    Refused,
    /// Memory ran out.
    OutOfMemory,
}

/// Reads the words after the program's name: flags, each at most once and without a value, and the options `--helpers`,
/// `--helper-module` and `--generate`, each at most once and with a value that it takes.
///
/// Fails with `Refused` at all other words, and with `OutOfMemory` where memory runs out.
pub fn read_words(alloc: Global, words: &[String]) -> Result<Command, WordsFault>
    ensures proper { IfOk result (λ _. AreProper words.now) }
    ensures asked { IfOk result (λ command. Asks words.now command.options) }
    ensures generate { IfOk result (λ command. command.generate ≡ generate_of words.now) }
    ensures refused { IfErr result (λ fault. fault ≡ WordsFault.Refused → ¬ AreProper words.now) }
{
    let Ok(command_line) = new_command_line(alloc) else {
        return Err(WordsFault::OutOfMemory);
    };
    match command_line.try_get_matches_from(words) {
        Ok(matches) => command_of(alloc, &matches),
        Err(error) if error.kind() == ErrorKind::OutOfMemory => Err(WordsFault::OutOfMemory),
        Err(_) => Err(WordsFault::Refused),
    }
}

/// Words that no command line takes: one without a letter. Fails only where memory runs out.
pub fn refused_words(alloc: Global) -> Result<Vec<String>, AllocError>
    ensures { IfOk result (λ words. ¬ AreProper words.items) }
{
    let mut words = Vec::new(alloc);
    words.push(String::new(alloc))?;
    Ok(words)
}

/// The command of words that `clap` takes. Fails with `Refused` where an option has a value that it doesn't take, and with
/// `OutOfMemory` where memory runs out.
fn command_of(alloc: Global, matches: &ArgMatches<'_>) -> Result<Command, WordsFault>
    ensures values { IfOk result (λ _. AreValues (rows_of (found_of matches.now))) }
    ensures asked { IfOk result (λ command. AreAsked (rows_of (found_of matches.now)) command.options) }
    ensures generate { IfOk result (λ command. command.generate ≡ count_of (first_of (codes "generate") (rows_of (found_of matches.now)))) }
    ensures refused { IfErr result (λ fault. fault ≡ WordsFault.Refused → ¬ AreValues (rows_of (found_of matches.now))) }
{
    let mode = read_mode(value_of(matches, "helpers"))?;
    let module_name = read_module(value_of(matches, "helper-module"))?;
    let generate = read_count(value_of(matches, "generate"))?;
    match options_of(alloc, matches, mode, module_name) {
        Ok(options) => Ok(Command { options, generate }),
        Err(AllocError) => Err(WordsFault::OutOfMemory),
    }
}
