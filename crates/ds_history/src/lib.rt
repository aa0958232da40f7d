//! A journal as the replies of a run are held against it: what its first commits leave, who wrote a group last, and how many entries a
//! shard has.
//!
//! It stands on `ds_log` (journals and their entries), `ds_applied` (the entries of all shards) and `ds_model` (views). Begin with
//! `History`, in `history`; `writers` notes which commits wrote a group, so that a strong read looks at its own group's commits alone;
//! `versions` notes what was written at each key, by kind, so that a query of all shards looks at the keys of its kind and rebuilds nothing
//! (`seeing`). In `specs/`, `Histories` has what is kept, `Writers` which commits wrote a group, and `Versions` what is seen at counts.
//! `proofs/StrongReads` has what is seen of a group, `proofs/KindResults` that a query of one kind sees nothing of others.
#![tactic(auto)]

pub mod history;
mod reads;
mod seeing;
mod versions;
mod writers;

pub use history::History;
