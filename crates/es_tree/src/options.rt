//! What a run is asked to lower, and how.
ghost use Rattle.std.specs.Prelude.{◌≡◌, IfOk, codes, string_bytes};
ghost use Rattle.es_tree.specs.Options.{first_fault, is_inline, is_loose, is_spec, uses_built_ins};

use crate::error::OptionName;
use std::alloc::{AllocError, Global};

/// How arrow functions are lowered.
#[derive(Clone, Copy, Debug, Default)]
pub struct ArrowFunctionsOptions {
    /// Asks for functions bound to `this`, with a check that none is called by `new`.
    pub spec: bool,
}

/// Lowerings of ECMAScript 2015.
#[derive(Clone, Copy, Debug, Default)]
pub struct ES2015Options {
    pub arrow_function: Option<ArrowFunctionsOptions>,
}

/// Lowerings of ECMAScript 2016.
#[derive(Clone, Copy, Debug, Default)]
pub struct ES2016Options {
    pub exponentiation_operator: bool,
}

/// Lowerings of ECMAScript 2017.
#[derive(Clone, Copy, Debug, Default)]
pub struct ES2017Options {
    pub async_to_generator: bool,
}

/// How object rest and spread are lowered.
#[derive(Clone, Copy, Debug, Default)]
pub struct ObjectRestSpreadOptions {
    /// Asks for properties that are assigned rather than defined.
    pub loose: bool,
    /// Asks for `Object.assign` in place of a helper.
    pub use_built_ins: bool,
}

/// Lowerings of ECMAScript 2018.
#[derive(Clone, Copy, Debug, Default)]
pub struct ES2018Options {
    pub object_rest_spread: Option<ObjectRestSpreadOptions>,
    pub async_generator_functions: bool,
}

/// Lowerings of ECMAScript 2019.
#[derive(Clone, Copy, Debug, Default)]
pub struct ES2019Options {
    pub optional_catch_binding: bool,
}

/// Lowerings of ECMAScript 2020, and warnings of what has none.
#[derive(Clone, Copy, Debug, Default)]
pub struct ES2020Options {
    pub export_namespace_from: bool,
    pub nullish_coalescing_operator: bool,
    pub optional_chaining: bool,
    /// Asks for a warning of BigInt literals.
    pub big_int: bool,
    /// Asks for a warning of strings that name imports and exports.
    pub arbitrary_module_namespace_names: bool,
}

/// Lowerings of ECMAScript 2021.
#[derive(Clone, Copy, Debug, Default)]
pub struct ES2021Options {
    pub logical_assignment_operators: bool,
}

/// Lowerings of ECMAScript 2026.
#[derive(Clone, Copy, Debug, Default)]
pub struct ES2026Options {
    pub explicit_resource_management: bool,
}

/// What a lowering may take for granted of the programs.
#[derive(Clone, Copy, Debug, Default)]
pub struct Assumptions {
    /// Getters have no effects.
    pub pure_getters: bool,
    /// Objects that a rest is taken of have no symbols as keys.
    pub object_rest_no_symbols: bool,
    /// Nobody reads the `length` of a function.
    pub ignore_function_length: bool,
    /// No operand of a test for null or undefined is `document.all`.
    pub no_document_all: bool,
}

/// Where helpers come from.
#[derive(Clone, Copy, Debug, Default)]
pub enum HelperLoaderMode {
    /// Written into the program.
    Inline,
    /// Properties of the object `babelHelpers`.
    External,
    /// Imported from a module.
    #[default]
    Runtime,
}

/// Where helpers come from, and the module that has them.
#[derive(Debug, Drop)]
pub struct HelperLoaderOptions {
    pub module_name: String,
    pub mode: HelperLoaderMode,
}

impl HelperLoaderOptions {
    /// Imports from `@oxc-project/runtime`. Answers an error only for want of memory.
    pub fn new(alloc: Global) -> Result<HelperLoaderOptions, AllocError>
        ensures module_name { IfOk result (λ made. string_bytes made.module_name ≡ codes "@oxc-project/runtime") }
        ensures mode { IfOk result (λ made. made.mode ≡ HelperLoaderMode.Runtime) }
    {
        let module_name = String::from_str(alloc, "@oxc-project/runtime")?;
        Ok(HelperLoaderOptions {
            module_name,
            mode: HelperLoaderMode::Runtime,
        })
    }
}

/// What a run is asked to lower, and how.
#[derive(Debug, Drop)]
pub struct EnvOptions {
    pub es2015: ES2015Options,
    pub es2016: ES2016Options,
    pub es2017: ES2017Options,
    pub es2018: ES2018Options,
    pub es2019: ES2019Options,
    pub es2020: ES2020Options,
    pub es2021: ES2021Options,
    pub es2026: ES2026Options,
    pub assumptions: Assumptions,
    pub helper_loader: HelperLoaderOptions,
}

/// The first name, in the order of `OptionName`, that the options ask for. Takes no memory.
pub fn options_fault(options: &EnvOptions) -> Option<OptionName>
    ensures { result ≡ first_fault options.now }
{
    if is_inline(options.helper_loader.mode) {
        return Some(OptionName::InlineHelpers);
    }
    if is_spec(options.es2015.arrow_function) {
        return Some(OptionName::Spec);
    }
    if is_loose(options.es2018.object_rest_spread) {
        return Some(OptionName::Loose);
    }
    if uses_built_ins(options.es2018.object_rest_spread) {
        return Some(OptionName::UseBuiltIns);
    }
    if options.es2017.async_to_generator {
        return Some(OptionName::AsyncToGenerator);
    }
    if options.es2018.async_generator_functions {
        return Some(OptionName::AsyncGeneratorFunctions);
    }
    if options.assumptions.pure_getters {
        return Some(OptionName::PureGetters);
    }
    if options.assumptions.object_rest_no_symbols {
        return Some(OptionName::ObjectRestNoSymbols);
    }
    if options.assumptions.ignore_function_length {
        return Some(OptionName::IgnoreFunctionLength);
    }
    None
}

fn is_inline(mode: HelperLoaderMode) -> bool
    ensures { result ≡ is_inline mode }
{
    matches!(mode, HelperLoaderMode::Inline)
}

fn is_spec(arrows: Option<ArrowFunctionsOptions>) -> bool
    ensures { result ≡ is_spec arrows }
{
    match arrows {
        Some(arrows) => arrows.spec,
        None => false,
    }
}

fn is_loose(objects: Option<ObjectRestSpreadOptions>) -> bool
    ensures { result ≡ is_loose objects }
{
    match objects {
        Some(objects) => objects.loose,
        None => false,
    }
}

fn uses_built_ins(objects: Option<ObjectRestSpreadOptions>) -> bool
    ensures { result ≡ uses_built_ins objects }
{
    match objects {
        Some(objects) => objects.use_built_ins,
        None => false,
    }
}
