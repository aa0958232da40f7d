//! What searches: keys and queries in the shards that a pass of a running store has entered.
//!
//! Nothing here takes a lock or waits. A pass enters its shards (or stands in one, where the store let it enter), what is asked is found in
//! their snapshots, by `ds_engine` for queries, and the pass leaves them.
//!
//! Begin with `searching` (queries without an ancestor, in `specs/Searched.antt`), then `group` (those with one) and `looking_up` (keys, in
//! `specs/Found.antt`); `entity_at` looks into one shard. All count the steps that they take on the ledger that they are handed, but
//! `query_wide` and `query_uncounted`, which alone have the right to ledgers of their own (`uncounted`).
#![tactic(auto)]

mod entity_at;
mod group;
mod looking_up;
mod searching;
mod uncounted;

pub use group::query_in;
pub use looking_up::{Found, look_up};
pub use searching::{query, query_uncounted, query_wide};
pub use uncounted::{Uncounted, UncountedScans};
