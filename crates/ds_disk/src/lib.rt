//! A disk of which a crash may lose what was not synced, as a trait; a disk in memory that is proved to be such a disk; and
//! a file of the operating system as one.
//!
//! It is for what must outlive a crash: whoever writes to a `Disk` can prove what a crash at any moment leaves. It stands
//! on `ds_base` and, for a failure and the counts of faults, `ds_io`. Begin with `disk`, the trait, and `specs/Crashes`,
//! what its calls do and what a crash may make of them. `specs/CrashLaws` and `specs/TornLaws` are what a caller's proof
//! needs: how a run of calls goes on, and what unsynced writes and cuts leave. `memory_disk` keeps its calls, and
//! `specs/Memory` says what follows from them; `file_disk` is the trusted part.
#![tactic(auto)]

pub mod call;
pub mod disk;
pub mod file_disk;
mod history;
pub mod memory_disk;
mod state;
mod system_file;

pub use disk::Disk;
pub use file_disk::FileDisk;
pub use memory_disk::MemoryDisk;
pub use system_file::Cause;
