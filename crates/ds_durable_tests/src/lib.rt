//! Tests of runs over a kept journal, on a disk in memory. There is no code but tests, so that the libraries are proved once.
//!
//! `kept` holds what they share: a run over a disk, and how its end is compared. `restarts` has runs one behind another, and `crashes` runs
//! of which each call of the disk fails in turn.
#![tactic(auto)]

#[cfg(test)]
mod crashes;
#[cfg(test)]
mod kept;
#[cfg(test)]
mod restarts;
