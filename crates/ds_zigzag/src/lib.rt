//! The strings that several ordered scans have in common, found by leaps: the merge join that the Datastore's
//! documentation calls "zigzag". The bounds on its steps are our own.
//!
//! A query that filters several properties is answered from one index for each: the rows of each index that meet its
//! filter are a scan in the order of the results, and the results are the strings that all scans have. `Join::next`
//! leaps from one such string to the next, and its steps are bounded by the scan that has the fewest strings on the
//! way. `Walk::next` does the same from its own last answer, and says how the bounds of successive calls add up. The
//! crate stands on `ds_io` for counted steps and on `ds_base` for the order of bytes. Begin with `Scan`, in `scan`,
//! then `Join`, in `join`, and `Walk`, in `walk`; both call the leapfrog, in `leapfrog`. The definitions that the
//! contracts cite are in `specs/`: `Spans` (the order, and counts of strings between two others), `CommonStrings` and
//! `Walks`. Why the sums hold is shown in `proofs/SpanLaws` and `proofs/Walks`.
#![tactic(auto)]

mod join;
mod leapfrog;
mod scan;
mod target;
mod walk;

pub use join::Join;
pub use scan::Scan;
pub use walk::Walk;
