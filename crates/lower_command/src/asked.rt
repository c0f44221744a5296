//! What the words ask for, read from what `clap` makes of them.
ghost use Rattle.std.specs.Prelude.{◌≡◌, IfErr, IfOk, OkIff, codes, true};
ghost use Rattle.std.specs.Option.{option_copied};
ghost use Rattle.clap.specs.Matches.{found_of};
ghost use Rattle.clap.specs.Walk.{first_of, rows_of};
ghost use Rattle.lower_command.specs.Words.{AreAsked, IsCount, IsCountGiven, IsModeGiven, IsModuleGiven, count_of, is_asked, is_mode, is_set, mode_named, mode_of, module_of, number_of, arrows_if, rest_spread_if};

use crate::words::WordsFault;
use clap::ArgMatches;
use es_tree::options::{
    ArrowFunctionsOptions, Assumptions, ES2015Options, ES2016Options, ES2017Options, ES2018Options,
    ES2019Options, ES2020Options, ES2021Options, ES2026Options, EnvOptions, HelperLoaderMode,
    HelperLoaderOptions, ObjectRestSpreadOptions,
};
use std::alloc::{AllocError, Global};

/// The module that has the helpers, where the words name none.
const HELPER_MODULE: &str = "@oxc-project/runtime";
/// The most statements that a made script has.
const MOST_STATEMENTS: u32 = 20_000;

/// The value that the words give the option.
pub fn value_of<'a>(matches: &ArgMatches<'a>, name: &str) -> Option<&'a str>
    ensures { option_copied result ≡ first_of name.now (rows_of (found_of matches.now)) }
{
    matches.get_str(name)
}

/// Whether the words set the flag.
fn is_set(matches: &ArgMatches<'_>, name: &str) -> bool
    ensures { result ≡ is_set name.now (rows_of (found_of matches.now)) }
{
    match value_of(matches, name) {
        Some(text) => text == "true",
        None => false,
    }
}

/// Whether the words set the flag of this lowering, or that of all of them.
fn is_asked(matches: &ArgMatches<'_>, name: &str) -> bool
    ensures { result ≡ is_asked name.now (rows_of (found_of matches.now)) }
{
    is_set(matches, name) || is_set(matches, "all")
}

/// Where helpers come from: `external`, `runtime` or `inline`. Fails with `Refused` at any other value.
pub fn read_mode(value: Option<&str>) -> Result<HelperLoaderMode, WordsFault>
    ensures { OkIff result (IsModeGiven (option_copied value.entry)) (mode_of (option_copied value.entry)) }
{
    match value {
        None => Ok(HelperLoaderMode::Runtime),
        Some(text) => mode_named(text),
    }
}

/// The mode of this name. Fails with `Refused` where there is none.
fn mode_named(text: &str) -> Result<HelperLoaderMode, WordsFault>
    ensures { OkIff result (is_mode text.now ≡ true) (mode_named text.now) }
{
    if text == "external" {
        Ok(HelperLoaderMode::External)
    } else if text == "runtime" {
        Ok(HelperLoaderMode::Runtime)
    } else if text == "inline" {
        Ok(HelperLoaderMode::Inline)
    } else {
        Err(WordsFault::Refused)
    }
}

/// The name of the module that has the helpers. Fails with `Refused` where it is empty.
pub fn read_module<'a>(value: Option<&'a str>) -> Result<&'a str, WordsFault>
    ensures ok { IfOk result (λ name. IsModuleGiven (option_copied value.entry) × (name.now ≡ module_of (option_copied value.entry))) }
    ensures refused { IfErr result (λ _. ¬ IsModuleGiven (option_copied value.entry)) }
{
    match value {
        None => Ok(HELPER_MODULE),
        Some(text) if text.is_empty() => Err(WordsFault::Refused),
        Some(text) => Ok(text),
    }
}

/// How many statements the made script is to have: decimal digits, the first not 0, up to 20000. Fails with `Refused` at any other value.
pub fn read_count(value: Option<&str>) -> Result<Option<u32>, WordsFault>
    ensures { OkIff result (IsCountGiven (option_copied value.entry)) (count_of (option_copied value.entry)) }
{
    match value {
        None => Ok(None),
        Some(text) => Ok(Some(count_named(text)?)),
    }
}

/// The number that the text writes. Fails with `Refused` where it isn't such a number of statements.
fn count_named(text: &str) -> Result<u32, WordsFault>
    ensures { OkIff result (IsCount text.now) (number_of text.now) }
{
    let bytes = text.as_bytes();
    if bytes.is_empty() || bytes[0] == b'0' || bytes[0] == b'+' {
        return Err(WordsFault::Refused);
    }
    match text.parse::<u32>() {
        Ok(count) if count <= MOST_STATEMENTS => Ok(count),
        _ => Err(WordsFault::Refused),
    }
}

/// The options that the words ask for, where helpers come from this module in this mode. Fails only where memory runs out.
pub fn options_of(
    alloc: Global,
    matches: &ArgMatches<'_>,
    mode: HelperLoaderMode,
    module_name: &str,
) -> Result<EnvOptions, AllocError>
    requires mode { mode ≡ mode_of (first_of (codes "helpers") (rows_of (found_of matches.now))) }
    requires module { module_name.now ≡ module_of (first_of (codes "helper-module") (rows_of (found_of matches.now))) }
    ensures { IfOk result (λ options. AreAsked (rows_of (found_of matches.now)) options) }
{
    let module_name = String::from_str(alloc, module_name)?;
    Ok(EnvOptions {
        es2015: ES2015Options {
            arrow_function: arrows_if(is_asked(matches, "arrows")),
        },
        es2016: ES2016Options {
            exponentiation_operator: is_asked(matches, "exponentiation"),
        },
        es2017: ES2017Options::default(),
        es2018: ES2018Options {
            object_rest_spread: rest_spread_if(is_asked(matches, "rest-spread")),
            ..ES2018Options::default()
        },
        es2019: ES2019Options {
            optional_catch_binding: is_asked(matches, "catch"),
        },
        es2020: es2020_of(matches),
        es2021: ES2021Options {
            logical_assignment_operators: is_asked(matches, "logical"),
        },
        es2026: ES2026Options {
            explicit_resource_management: is_asked(matches, "using"),
        },
        assumptions: Assumptions {
            no_document_all: is_set(matches, "no-document-all"),
            ..Assumptions::default()
        },
        helper_loader: HelperLoaderOptions { module_name, mode },
    })
}

/// The options of ECMAScript 2020 that the words ask for.
fn es2020_of(matches: &ArgMatches<'_>) -> ES2020Options
    ensures namespace { result.export_namespace_from ≡ is_asked (codes "namespace") (rows_of (found_of matches.now)) }
    ensures nullish { result.nullish_coalescing_operator ≡ is_asked (codes "nullish") (rows_of (found_of matches.now)) }
    ensures chaining { result.optional_chaining ≡ is_asked (codes "chaining") (rows_of (found_of matches.now)) }
    ensures bigint_warnings { result.big_int ≡ is_set (codes "bigint-warnings") (rows_of (found_of matches.now)) }
    ensures name_warnings { result.arbitrary_module_namespace_names ≡ is_set (codes "name-warnings") (rows_of (found_of matches.now)) }
{
    ES2020Options {
        export_namespace_from: is_asked(matches, "namespace"),
        nullish_coalescing_operator: is_asked(matches, "nullish"),
        optional_chaining: is_asked(matches, "chaining"),
        big_int: is_set(matches, "bigint-warnings"),
        arbitrary_module_namespace_names: is_set(matches, "name-warnings"),
    }
}

/// The lowering of arrow functions, where it is asked for, with `this` taken as it is.
fn arrows_if(asked: bool) -> Option<ArrowFunctionsOptions>
    ensures { result ≡ arrows_if asked }
{
    asked.then_some(ArrowFunctionsOptions { spec: false })
}

/// The lowering of object rest and spread, where it is asked for, by helpers that define properties.
fn rest_spread_if(asked: bool) -> Option<ObjectRestSpreadOptions>
    ensures { result ≡ rest_spread_if asked }
{
    asked.then_some(ObjectRestSpreadOptions {
        loose: false,
        use_built_ins: false,
    })
}
