//! What a plan is: scans, each of one index with the values that it is bound to.
use ds_base::{Key, Sequence, TextString};
use ds_query::Pairs;

/// An index of a branch's kind, or of all entities for a branch without one.
#[derive(Drop)]
pub enum PlannedIndex {
    /// The index of all entities by key, which serves branches without a kind.
    AllByKey,
    /// The index of the kind's entities by key.
    KindByKey,
    /// The index of one property of the kind, in one direction.
    Property {
        /// The property's name.
        name: TextString,
        /// Whether its values go from the greatest to the least.
        descending: bool,
    },
    /// A composite index.
    Composite {
        /// The place of its definition, counted from 0.
        position: u32,
    },
}

/// A scan of one index, with the values that it is bound to.
#[derive(Drop)]
pub struct PlannedScan {
    /// The index whose rows are read.
    pub index: PlannedIndex,
    /// One of the branch's pairs for each property of the index that isn't one of the branch's columns.
    pub equal: Pairs,
    /// The branch's ancestor where the index's definition has the ancestor flag; none otherwise.
    pub ancestor: Option<Key>,
}

/// Scans in the order in which they were chosen.
pub type PlannedScans = Sequence<PlannedScan>;

/// Scans that answer a branch together: the rows that all of them have are its rows.
#[derive(Drop)]
pub struct ScanPlan {
    /// The scans; at least one where the plan suits a branch.
    pub scans: PlannedScans,
}
