//! Lowering a program by each flag alone, and by each two of them.
use crate::case::Case;
use crate::comparing::Differences;
use crate::running::compare_run;
use std::alloc::{AllocError, Global};

/// The flags of the nine lowerings.
const FLAGS: [&str; 9] = [
    "--nullish",
    "--chaining",
    "--logical",
    "--exponentiation",
    "--catch",
    "--namespace",
    "--rest-spread",
    "--using",
    "--arrows",
];

/// Tells what isn't as it should be by the first flag, or the first two flags, by which anything isn't.
pub fn compare_by_pairs(
    alloc: Global,
    case: Case<'_>,
    differences: &mut Differences,
) -> Result<(), AllocError> {
    for (number, first) in FLAGS.iter().enumerate() {
        for second in FLAGS.iter().skip(number) {
            compare_by_flags(alloc, case, first, second, differences)?;
            if differences.told().is_some() {
                differences.tell(first)?;
                return differences.tell(second);
            }
        }
    }
    Ok(())
}

/// Runs the case by two flags, or by one where both are the same.
fn compare_by_flags(
    alloc: Global,
    case: Case<'_>,
    first: &str,
    second: &str,
    differences: &mut Differences,
) -> Result<(), AllocError> {
    if first == second {
        compare_run(alloc, case, &[first], differences)
    } else {
        compare_run(alloc, case, &[first, second], differences)
    }
}
