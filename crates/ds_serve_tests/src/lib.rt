//! Tests of whole runs: the server's calls over memory. There is no code but tests, so that the libraries are proved once. The judge of a
//! run is tried by the auditor's tests.
//!
//! `serving` holds what the tests of the server share: a run over a source and a sink in memory, and how its text is compared. `inputs` are
//! runs where nothing fails, `faults` those where the outside fails, `limits` long lines and rounds, and `waiting` is a source that
//! waits for the replies to a round. In `at_once` clients and an applier are at work at once.
#![tactic(auto)]

#[cfg(test)]
mod at_once;
#[cfg(test)]
mod faults;
#[cfg(test)]
mod inputs;
#[cfg(test)]
mod limits;
#[cfg(test)]
mod serving;
#[cfg(test)]
mod waiting;
