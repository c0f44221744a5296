//! What there is to tell of a case.
use crate::case::Case;
use crate::comparing::Differences;
use crate::flag_pairs::compare_by_pairs;
use crate::running::compare_run;
use std::alloc::{AllocError, Global};

/// All that isn't as the case says.
pub fn differences_of(alloc: Global, case: Case<'_>) -> Result<Differences, AllocError> {
    let mut differences = Differences::new(alloc);
    compare(alloc, case, &mut differences)?;
    Ok(differences)
}

fn compare(alloc: Global, case: Case<'_>, differences: &mut Differences) -> Result<(), AllocError> {
    if let Some(field) = case.wrong_field() {
        differences.tell("has a field that no case has, or that holds something else")?;
        return differences.tell(field);
    }
    if let Some(flaw) = case.flaw() {
        return differences.tell(flaw);
    }
    if case.is_by_pairs() {
        compare_by_pairs(alloc, case, differences)
    } else {
        compare_run(alloc, case, &[], differences)
    }
}
