//! The rounds of an input: its lines, numbered, in groups that are answered together.
//!
//! It stands on `ds_base` and `ds_io`. Begin with `Rounds`, in `rounds`, which reads one round after another from a source,
//! and `Round` with its `Lines`, which it gives. The definitions that the contracts cite are in `specs/`: `Lines` (where a line
//! ends, what is kept of it), `Rounds` (where a round ends) and `Reading` (what one call reads and gives). How the answers of
//! successive calls join to the rounds of the whole input is shown in `specs/ReadingLaws`.
#![tactic(auto)]

mod draft;
pub mod line;
pub mod lines;
pub mod newline;
mod piece;
pub mod round;
pub mod rounds;
pub mod stage;

pub use line::Line;
pub use lines::{Chunk, Lines};
pub use newline::split_line;
pub use round::Round;
pub use rounds::Rounds;
pub use stage::{RoundRefused, Stage};
