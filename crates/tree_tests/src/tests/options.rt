//! What options ask for: how each is asked for by a word, which is told first, and the helpers by name.
use es_tree::error::OptionName;
use es_tree::helper::Helper;
use es_tree::options::{
    ArrowFunctionsOptions, Assumptions, ES2015Options, ES2016Options, ES2017Options, ES2018Options,
    ES2019Options, ES2020Options, ES2021Options, ES2026Options, EnvOptions, HelperLoaderMode,
    HelperLoaderOptions, ObjectRestSpreadOptions, options_fault,
};
use std::alloc::{AllocError, Global};
use std::test::Fail;

/// Options that ask for nothing.
pub fn no_options(alloc: Global) -> Result<EnvOptions, AllocError> {
    Ok(EnvOptions {
        es2015: ES2015Options::default(),
        es2016: ES2016Options::default(),
        es2017: ES2017Options::default(),
        es2018: ES2018Options::default(),
        es2019: ES2019Options::default(),
        es2020: ES2020Options::default(),
        es2021: ES2021Options::default(),
        es2026: ES2026Options::default(),
        assumptions: Assumptions::default(),
        helper_loader: HelperLoaderOptions::new(alloc)?,
    })
}

/// Asks for a lowering; an unknown word asks for nothing.
pub fn ask(options: &mut EnvOptions, word: &str) {
    match word {
        "exponentiation" => options.es2016.exponentiation_operator = true,
        "catch" => options.es2019.optional_catch_binding = true,
        "namespace" => options.es2020.export_namespace_from = true,
        "nullish" => options.es2020.nullish_coalescing_operator = true,
        "chaining" => options.es2020.optional_chaining = true,
        "logical" => options.es2021.logical_assignment_operators = true,
        "spread" => options.es2018.object_rest_spread = Some(ObjectRestSpreadOptions::default()),
        "using" => options.es2026.explicit_resource_management = true,
        "arrows" => options.es2015.arrow_function = Some(ArrowFunctionsOptions::default()),
        _ => {}
    }
}

/// The words of `ask`.
pub static LOWERINGS: [&str; 9] = [
    "exponentiation",
    "nullish",
    "chaining",
    "logical",
    "catch",
    "namespace",
    "spread",
    "using",
    "arrows",
];

/// Asks for what is never done, in the order of `FAULTS`.
fn ask_for_fault(options: &mut EnvOptions, number: usize) {
    let objects = |loose, use_built_ins| {
        Some(ObjectRestSpreadOptions {
            loose,
            use_built_ins,
        })
    };
    match number {
        0 => options.helper_loader.mode = HelperLoaderMode::Inline,
        1 => options.es2015.arrow_function = Some(ArrowFunctionsOptions { spec: true }),
        2 => options.es2018.object_rest_spread = objects(true, true),
        3 => options.es2018.object_rest_spread = objects(false, true),
        4 => options.es2017.async_to_generator = true,
        5 => options.es2018.async_generator_functions = true,
        6 => options.assumptions.pure_getters = true,
        7 => options.assumptions.object_rest_no_symbols = true,
        _ => options.assumptions.ignore_function_length = true,
    }
}

/// What is told, the first that is asked for.
static FAULTS: [OptionName; 9] = [
    OptionName::InlineHelpers,
    OptionName::Spec,
    OptionName::Loose,
    OptionName::UseBuiltIns,
    OptionName::AsyncToGenerator,
    OptionName::AsyncGeneratorFunctions,
    OptionName::PureGetters,
    OptionName::ObjectRestNoSymbols,
    OptionName::IgnoreFunctionLength,
];

#[test]
fn the_first_fault_of_options_is_told(rt: HostRuntime) -> Result<(), Fail> {
    let alloc = rt.alloc();
    let mut together = no_options(alloc)?;
    together.es2020.big_int = true;
    together.assumptions.no_document_all = true;
    for word in LOWERINGS.iter() {
        let mut options = no_options(alloc)?;
        ask(&mut options, word);
        assert_eq!(rt; options_fault(&options), None, "{word}");
        ask(&mut together, word);
    }
    assert_eq!(rt; options_fault(&together), None);
    together.helper_loader.mode = HelperLoaderMode::External;
    assert_eq!(rt; options_fault(&together), None);
    for (number, name) in FAULTS.iter().enumerate().rev() {
        let mut alone = no_options(alloc)?;
        ask_for_fault(&mut alone, number);
        assert_eq!(rt; options_fault(&alone), Some(*name));
        ask_for_fault(&mut together, number);
        assert_eq!(rt; options_fault(&together), Some(*name));
    }
    Ok(())
}

#[test]
fn helpers_have_their_names(rt: HostRuntime) -> Result<(), Fail> {
    for (helper, name, pure) in [
        (Helper::AwaitAsyncGenerator, "awaitAsyncGenerator", false),
        (Helper::ObjectSpread2, "objectSpread2", false),
        (Helper::ToPropertyKey, "toPropertyKey", false),
        (
            Helper::ClassPrivateFieldLooseKey,
            "classPrivateFieldLooseKey",
            true,
        ),
        (
            Helper::ClassPrivateFieldLooseBase,
            "classPrivateFieldLooseBase",
            false,
        ),
        (Helper::CheckInRHS, "checkInRHS", false),
        (Helper::SetFunctionName, "setFunctionName", false),
    ] {
        assert_eq!(rt; helper.name(), name);
        assert_eq!(rt; helper.pure(), pure);
    }
    Ok(())
}
