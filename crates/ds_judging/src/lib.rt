//! Whether one reply is an answer to its line, and what its client has seen behind it.
//!
//! It stands on `ds_judging_lines`, which has a line with its reply and what each client has seen, on `ds_judging_reads` and
//! `ds_judging_writes`, which judge replies to reads and to writes, on the definitions (`ds_model`), on the protocol's two sides without
//! any store (`ds_protocol`), and on `ds_asked` for what a line asks. Begin with `judging`, whose call is `judge`; `transactions` judges
//! the replies to begin, commit and rollback.
#![tactic(auto)]

pub mod judging;
mod transactions;

pub use judging::judge;
