//! Numbers that were drawn.
use std::alloc::{AllocError, Global};

// Whether the numbers, sorted, are all from the first on.
fn are_all_from(first: u64, numbers: &[u64]) -> bool {
    let mut next = first;
    for number in numbers {
        if *number != next {
            return false;
        }
        next = number.wrapping_add(1);
    }
    true
}

/// Whether two lists have all numbers from the first on, each once.
pub(crate) fn drew_all(
    first: u64,
    ones: &[u64],
    others: &[u64],
    alloc: Global,
) -> Result<bool, AllocError> {
    let mut all = Vec::new(alloc);
    all.extend_from_slice(ones)?;
    all.extend_from_slice(others)?;
    all.sort()?;
    Ok(are_all_from(first, &all))
}
