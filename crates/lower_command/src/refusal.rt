//! The lines that tell why an input is refused.
ghost use Rattle.std.specs.Prelude.{◌≡◌, IfOk, IfErr, string_bytes};
ghost use Rattle.lower_command.specs.Answer.{refusal_text};
ghost use Rattle.lower_command.specs.Refusals.{IsNoMemory};

use es_tree::error::LowerError;
use std::alloc::{AllocError, Global};

/// The line for an input that is refused for this cause, its newline included. Fails where memory
/// runs out, or had run out before.
pub fn refusal_line(alloc: Global, error: LowerError) -> Result<String, AllocError>
    ensures line { IfOk result (λ line. string_bytes line ≡ refusal_text error) }
    ensures told { IfOk result (λ _. IsNoMemory error → ⊥) }
{
    match error {
        LowerError::Json => String::from_str(alloc, "lower: json\n"),
        LowerError::Option(name) => {
            let name = name.as_str();
            format!(in alloc; "lower: option {name}\n")
        }
        LowerError::TooLarge(count) => format!(in alloc; "lower: too large {count}\n"),
        LowerError::TooDeep(depth) => format!(in alloc; "lower: too deep {depth}\n"),
        LowerError::Shape(path) => format!(in alloc; "lower: shape {path}\n"),
        LowerError::Invalid(rule, node) => {
            let rule = rule.as_str();
            let id = node.0;
            format!(in alloc; "lower: invalid {rule} at node {id}\n")
        }
        LowerError::Unsupported(kind, node) => {
            let kind = kind.as_str();
            let id = node.0;
            format!(in alloc; "lower: unsupported {kind} at node {id}\n")
        }
        LowerError::OutOfMemory => Err(AllocError),
    }
}
