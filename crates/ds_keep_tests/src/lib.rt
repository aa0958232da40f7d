//! Tests of the public calls of `ds_keep` over the disk in memory: what files open as, and what each call that fails and each moment at
//! which a crash comes leaves of a short run. There is no code but tests, so that the library is proved once.
//!
//! Begin with `files`; `crashes` has the run.
#![tactic(auto)]

#[cfg(test)]
mod crashes;
#[cfg(test)]
mod files;
#[cfg(test)]
mod keeping;
