//! The lines that tell what is warned of.
ghost use Rattle.std.specs.Prelude.{◌≡◌, IfOk, string_bytes};
ghost use Rattle.lower_command.specs.Answer.{warning_line, warning_lines, warning_name};

use lower_temporaries::warning::{Warning, WarningKind};
use std::alloc::{AllocError, Global};

/// A line for each warning, in their order. Fails only where memory runs out.
pub fn warning_lines(alloc: Global, warnings: &[Warning]) -> Result<String, AllocError>
    ensures { IfOk result (λ lines. string_bytes lines ≡ warning_lines warnings.now) }
{
    let mut lines = String::new(alloc);
    for warning in warnings {
        let line = warning_line(alloc, *warning)?;
        lines.push_str(&line)?;
    }
    Ok(lines)
}

/// The line for a warning, its newline included. Fails only where memory runs out.
fn warning_line(alloc: Global, warning: Warning) -> Result<String, AllocError>
    ensures { IfOk result (λ line. string_bytes line ≡ warning_line warning) }
{
    let what = warning_name(warning.kind);
    let start = warning.span.start;
    let end = warning.span.end;
    format!(in alloc; "warning: {what} at {start}..{end}\n")
}

/// What a warning is of.
fn warning_name(kind: WarningKind) -> &'static str
    ensures { result.now ≡ warning_name kind }
{
    match kind {
        WarningKind::BigInt => "bigint",
        WarningKind::ModuleName => "module name",
    }
}
