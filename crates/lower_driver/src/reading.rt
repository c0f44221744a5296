//! What a run is given, and why it is refused.
ghost use Rattle.std.specs.Prelude.{◌≡◌, ◌<◌, ◌^◌, [], IfOk, IfErr, None, true};
ghost use Rattle.serde_json.specs.View.{view};
ghost use Rattle.es_tree.specs.HasForm.{has_form};
ghost use Rattle.es_tree.specs.Options.{first_fault};
ghost use Rattle.es_tree.specs.StaticRules.{breaks};
ghost use Rattle.es_tree.specs.Tree.{tree_size};
ghost use Rattle.es_tree.specs.declared.table.Sort.TheVariants.{Program as s-Program};
ghost use Rattle.lower_driver.specs.Sources.{IsCauseOrMemory, IsNoValue, IsReading, IsSource, IsValueCauseOrMemory, Reads};

use es_json::program::{ReadProgram, read_program};
use es_static_rules::static_rules::check_static;
use es_tree::error::LowerError;
use es_tree::options::{EnvOptions, options_fault};
use serde_json::{Category, Value};
use std::alloc::Global;

/// The program that the bytes read as, which keeps the static rules. Their value is let go once it is read.
///
/// Fails with `Json`, before all other causes, where the bytes have no reading, and else as `read_source` does.
pub fn read_bytes(
    alloc: Global,
    bytes: &[u8],
    options: &EnvOptions,
) -> Result<ReadProgram, LowerError>
    ensures source { IfOk result (λ read. Reads bytes.now read.program) }
    ensures form { IfOk result (λ read. has_form s-Program read.program ≡ true) }
    ensures kept { IfOk result (λ read. breaks read.program ≡ []) }
    ensures size { IfOk result (λ read. tree_size read.program < 2 ^ 20) }
    ensures next { IfOk result (λ read. read.ast.next ≡ tree_size read.program) }
    ensures done { IfOk result (λ _. first_fault options.now ≡ None) }
    ensures cause { IfErr result (λ error. IsCauseOrMemory options.now bytes.now error) }
{
    let value = read_value(alloc, bytes)?;
    let read = read_source(alloc, &value, options)?;
    Ok(read)
}

/// The program that the value is the form of, which keeps the static rules.
///
/// Fails for the first of these causes that holds: `Option` where the options ask for what isn't done;
/// `TooLarge`, `TooDeep` and `Shape` as `read_program` has them; `Invalid` as `check_static` has it. It
/// fails with `OutOfMemory` where memory runs out.
pub fn read_source(
    alloc: Global,
    value: &Value,
    options: &EnvOptions,
) -> Result<ReadProgram, LowerError>
    ensures source { IfOk result (λ read. IsSource (view value.now) read.program) }
    ensures form { IfOk result (λ read. has_form s-Program read.program ≡ true) }
    ensures kept { IfOk result (λ read. breaks read.program ≡ []) }
    ensures size { IfOk result (λ read. tree_size read.program < 2 ^ 20) }
    ensures next { IfOk result (λ read. read.ast.next ≡ tree_size read.program) }
    ensures done { IfOk result (λ _. first_fault options.now ≡ None) }
    ensures cause { IfErr result (λ error. IsValueCauseOrMemory options.now (view value.now) error) }
{
    if let Some(name) = options_fault(options) {
        return Err(LowerError::Option(name));
    }
    let read = read_program(alloc, value)?;
    check_static(alloc, &read.program)?;
    Ok(read)
}

/// The JSON value that the bytes are. Fails with `Json` where they have no reading.
fn read_value(alloc: Global, bytes: &[u8]) -> Result<Value, LowerError>
    ensures reading { IfOk result (λ value. IsReading bytes.now (view value)) }
    ensures cause { IfErr result (λ error. IsNoValue bytes.now error) }
{
    match Value::from_slice(alloc, bytes) {
        Ok(value) => Ok(value),
        Err(error) if error.classify() == Category::Memory => Err(LowerError::OutOfMemory),
        Err(_error) => Err(LowerError::Json),
    }
}
