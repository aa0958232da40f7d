//! One shard of the datastore: log entries become versions of entities and their index rows, which queries are answered from.
//!
//! A `Shard` absorbs its log entries one by one; the number of an entry is its stamp. It keeps what a window of stamps sees: the
//! entities by key, each with its versions, and the rows of all versions in a table. It is `Tables` of `ds_rows`, so it is read by
//! seeks and look-ups at any stamp that it keeps.
//!
//! Begin with `specs/Shards`, which says what a shard holds and what an entry makes of it; `Histories` says what one write does
//! to versions of entities, `Rows` how a table holds their rows, and `Expiries` how those are found that leave the window. `shard`
//! has the type and its calls, `tables` its seeks, and `state` is a shard as the state of a hub of `ds_hub`. Below them `contents`
//! does the writes of an entry to table and entities, `rows` closes and adds rows in the table, `entity_versions` keeps the
//! versions of all entities and `version_list` those of one, and `expiring` notes which of them ended.
#![tactic(auto)]

mod contents;
mod entity_versions;
mod expiring;
pub mod laws;
mod rows;
pub mod shard;
pub mod state;
pub mod tables;
mod version_list;

pub use laws::entries_are_kept;
pub use shard::Shard;
pub use state::ShardState;
pub use tables::ShardTables;
