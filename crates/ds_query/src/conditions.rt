//! What one branch of a query asks, gathered filter by filter.
use crate::branch::{Pairs, Range};
use ds_base::TryCopy;
use std::alloc::{AllocError, Global};

/// The equalities as they are written, and the range that all inequalities leave.
#[derive(Drop)]
pub struct Conditions {
    /// One pair for each equality, in the order of the filters.
    pub equal: Pairs,
    /// The values that meet each inequality.
    pub range: Range,
}

impl TryCopy for Conditions {
    fn copy(&self, alloc: Global) -> Result<Conditions, AllocError> {
        Ok(Conditions {
            equal: self.equal.copy(alloc)?,
            range: self.range.copy(alloc)?,
        })
    }
}
