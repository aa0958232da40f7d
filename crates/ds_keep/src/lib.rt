//! A journal that is kept in a file, which a crash can't cut.
//!
//! It stands on `ds_kept_file` (the file's format) and on `ds_disk` (a disk, and what a crash may leave on it). Of the definitions begin
//! with `specs/Keepers`: when a keeper is settled, and what each image stands for. Of the code begin with `keeper`; `reading` reads a disk,
//! `opening` closes its file behind the last batch, `appending` puts a batch behind the closed gate and opens that, and `steps` has the
//! changes of a disk that both make, each with its sync.
//!
//! A caller opens the disk, appends what is new after each round, and sends replies only then:
//!
//!     let Opened { keeper, journal, next } = Keeper::open(alloc, &mut disk)?;
//!     let keeper = keeper.append(alloc, &mut disk, &commits, next)?;
//!
//! A keeper doesn't hold its disk, which each call is handed: what it promises of a disk is about the disk that it was opened on.
#![tactic(auto)]

mod appending;
pub mod keeper;
mod opening;
mod reading;
pub mod refusals;
mod steps;

pub use keeper::{Keeper, Opened};
pub use refusals::{KeepRefused, Stopped};
