//! The command line: which words the program takes, what they say, and the number with which it ends.
//!
//! It stands on `ds_base`. Begin with `read_words`, in `words`. The definitions that the contracts cite are in `specs/`: `Form`
//! (the form of the words) and `Exits` (the exit numbers).
#![tactic(auto)]

mod item;
pub mod number;
pub mod options;
pub mod status;
pub mod words;

pub use number::number_of;
pub use options::{Options, WordsRefused};
pub use status::Status;
pub use words::read_words;
