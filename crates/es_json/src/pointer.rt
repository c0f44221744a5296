//! The text of a path.
ghost use Rattle.std.specs.Prelude.{◌≡◌, ◌∷◌, ◌++◌, IfOk, string_bytes, reverse};
ghost use Rattle.es_json.specs.Pointer.{step_text, pointer};

use crate::error::Step;
use std::alloc::{AllocError, Global};

/// The JSON pointer (RFC 6901) of the place that these steps lead to, the last step first. No listed
/// name of a field holds `~` or `/`, so nothing is escaped. Fails only where memory runs out.
pub(crate) fn pointer(alloc: Global, steps: Vec<Step>) -> Result<String, AllocError>
    ensures { IfOk result (λ text. string_bytes text ≡ pointer (reverse steps.items)) }
{
    let mut steps = steps;
    let mut text = String::new(alloc);
    while let Some(step) = steps.pop() {
        text.push_str("/")?;
        push_step(alloc, &mut text, step)?;
    }
    Ok(text)
}

/// Appends the name of a field, or an index in decimal.
fn push_step(alloc: Global, text: &mut String, step: Step) -> Result<(), AllocError>
    ensures { IfOk result (λ _. string_bytes text.new ≡ string_bytes text.old ++ step_text step) }
{
    match step {
        Step::Field(name) => text.push_str(name.as_str())?,
        Step::Index(index) => text.push_str(index.to_string(alloc)?.as_str())?,
    }
    Ok(())
}
