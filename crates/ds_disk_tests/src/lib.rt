//! Tests of the public calls of `ds_disk`: the disk in memory with each call failing in turn and with what a crash may
//! leave, and the file of the operating system. There is no code but tests, so that the library is proved once.
//!
//! Begin with `memory`; `file` has the trusted part.
#![tactic(auto)]

#[cfg(test)]
mod file;
#[cfg(test)]
mod memory;
