//! Whether a reply to a write, or to a request for ids, is an answer.
//!
//! It stands on `ds_judging_lines`, which has a line with its reply and what each client has seen; on the definitions (`ds_model`), on the
//! protocol's two sides without any store (`ds_protocol`), and on `ds_journal_text` for whether a commit is one of the journal. Begin with
//! `writes`; `commits` says whether a commit is one of the journal. In `specs/`, `Writing` and `Committing` have the parts of the answers.
#![tactic(auto)]

pub mod commits;
pub mod writes;

pub use commits::is_commit;
pub use writes::{judge_allocate, judge_delete, judge_put};
