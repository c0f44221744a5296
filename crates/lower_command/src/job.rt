//! The job: from the bytes of an input to the texts that go out.
ghost use Rattle.std.specs.Prelude.{IfOk, IfErr, string_bytes};
ghost use Rattle.lower_driver.specs.Sources.{IsCauseOrMemory};
ghost use Rattle.lower_command.specs.Job.{IsLoweredText, IsTakenSource};

use crate::answer::Texts;
use crate::warnings::warning_lines;
use es_tree::error::LowerError;
use es_tree::options::EnvOptions;
use lower_driver::driver::lower_bytes;
use std::alloc::Global;

/// What goes out for an input of these bytes: the program that they read as, lowered as the options ask, and
/// a line for each warning that they ask for.
///
/// Fails for the first of these causes that holds: `Json` where the bytes have no reading as JSON;
/// `Option` where the options ask for what isn't done; `TooLarge`, `TooDeep` and `Shape` as
/// `read_program` has them; `Invalid` as `check_static` has it; `Unsupported` at the first node with a shape
/// that their lowerings don't take: `MathBound` an exponentiation that would be lowered where `Math` is bound,
/// `TagChain` a template whose tag is a chain that would be. It fails with `OutOfMemory` where memory runs out.
pub fn lower_text(alloc: Global, bytes: &[u8], options: &EnvOptions) -> Result<Texts, LowerError>
    ensures taken { IfOk result (λ _. IsTakenSource options.now bytes.now) }
    ensures text { IfOk result (λ texts. IsLoweredText options.now bytes.now (string_bytes texts.text) (string_bytes texts.warnings)) }
    ensures cause { IfErr result (λ error. IsCauseOrMemory options.now bytes.now error) }
{
    let lowered = lower_bytes(alloc, bytes, options)?;
    let mut text = lowered.value.to_string(alloc)?;
    text.push_str("\n")?;
    let warnings = warning_lines(alloc, &lowered.tree.warnings)?;
    Ok(Texts { text, warnings })
}
