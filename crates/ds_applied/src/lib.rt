//! What the shards of one process have applied, over plain lists: per shard the log entries that the journal gives it, how many
//! of them are applied, and the entities that those leave, kept by key.
//!
//! `Applied` follows a journal: `pull` looks at each new commit once, and `apply_one` applies an entry. Reads take
//! the entities of one shard (`visible`) or of all (`all_visible`) at a count of entries. Contracts see it as `AppliedParts` of
//! `specs/AppliedLists`, whose `Follows` says which journal it follows. The laws of `proofs/` lead from there to what a client may
//! be answered: `StrongViews` for reads of one entity group, `GlobalViews` for reads of all, `ResultOrder` for queries over
//! entities in any order. Begin with `applied`.
#![tactic(auto)]

pub mod applied;
pub mod entity_map;
mod routing;
mod shard;
pub mod visible;

pub use applied::Applied;
pub use entity_map::EntityMap;
pub use visible::{AllVisible, Visible};
