//! The outside of a program as traits: where bytes come from, where they go, and files that are loaded whole, with
//! the causes of each refusal; and counted steps.
//!
//! Each trait has a count of faults that never falls: a call that answers a failure raises it by one, and nothing else
//! raises it. What a source has left, what a sink holds and what a file contains is told by the forms in memory; those
//! over std tell what std tells, which of a terminal or a file is nothing. It stands on `ds_base` alone. Begin with
//! `traits`; the definitions that the contracts cite are in `specs/`: `Faults` (counts of faults), `Memory` (what the
//! forms in memory tell) and `Standard` (what those over std tell). `steps` says how a call's bound on steps is stated.
#![tactic(auto)]

pub mod memory_files;
pub mod memory_sink;
pub mod memory_source;
mod schedule;
pub mod standard;
pub mod steps;
pub mod traits;
pub mod writing;

pub use memory_files::MemoryFiles;
pub use memory_sink::MemorySink;
pub use memory_source::MemorySource;
pub use standard::{StdFiles, StdSink, StdSource};
pub use steps::Steps;
pub use traits::{Failed, Files, Gate, LoadFault, NoGate, Sink, Source};
pub use writing::write_all;
