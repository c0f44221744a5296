//! The command line of the tool, as `clap` reads it.
ghost use Rattle.std.specs.Prelude.{◌≡◌, IfOk, fold, false};
ghost use Rattle.clap.specs.Simple.{app_of, with_rule};
ghost use Rattle.clap.specs.Walk.{rule_of};
ghost use Rattle.lower_command.specs.Words.{argument_rule, tool_app};

use clap::{Arg, ArgAction};
use std::alloc::{AllocError, Global};

/// The flags: the lowerings, all of them, the warnings, and what may be assumed.
static FLAGS: [&str; 13] = [
    "exponentiation",
    "catch",
    "namespace",
    "nullish",
    "chaining",
    "logical",
    "rest-spread",
    "using",
    "arrows",
    "all",
    "bigint-warnings",
    "name-warnings",
    "no-document-all",
];

/// The options, each with one value.
static OPTIONS: [&str; 3] = ["helpers", "helper-module", "generate"];

/// The command line of the tool. It has no flag for help and none for the version.
/// Fails only where memory runs out.
pub fn new_command_line<'a>(alloc: Global) -> Result<clap::Command<'a>, AllocError>
    ensures { IfOk result (λ command_line. app_of command_line ≡ tool_app) }
{
    let command_line = clap::Command::new(alloc, "lower")
        .no_binary_name(true)
        .disable_help_flag(true)
        .disable_version_flag(true);
    let command_line = add_arguments(alloc, command_line, ArgAction::SetTrue, &FLAGS)?;
    add_arguments(alloc, command_line, ArgAction::Set, &OPTIONS)
}

/// The command line with an argument more for each name, all with this action.
fn add_arguments<'a>(
    alloc: Global,
    mut command_line: clap::Command<'a>,
    action: ArgAction,
    names: &[&'static str],
) -> Result<clap::Command<'a>, AllocError>
    ensures { IfOk result (λ more. app_of more ≡ fold (λ app name. with_rule app (argument_rule action name.now)) (app_of command_line.entry) names.now) }
{
    for name in names {
        command_line = command_line.arg(new_argument(alloc, action, *name))?;
    }
    Ok(command_line)
}

/// The argument `--NAME`.
fn new_argument<'a>(alloc: Global, action: ArgAction, name: &'a str) -> Arg<'a>
    ensures rule { rule_of result ≡ argument_rule action name.now }
    ensures local { result.global ≡ false }
{
    Arg::new(alloc, name).long(name).action(action)
}
