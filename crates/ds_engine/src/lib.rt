//! Queries over shards, each as it stands at a stamp.
//!
//! It stands on `ds_shard` (shards) and on `ds_branch` (a branch's results in one shard, and their merged columns). It knows no lock and
//! no journal: of the running store it is handed the slots through which a reader sees the shards.
//!
//! A `ShardSnapshot` is a shard at one of the stamps that it keeps. `search` answers a query from the indexes of several snapshots: each
//! gives its own results, as many as a page may need, and their page is that of the query over the entities of all; `search_wide` scans
//! all at once. `plans_of` plans each branch once for all shards, and a `PlannedQuery` hands query, page and plans down to the scans. `query_slots` enters the shards of a reader for a query without an
//! ancestor, and `query_slot` searches the one shard of an ancestor's group.
//!
//! Begin with `specs/Searches`, then `searching`. `planned` has what is handed down, `planning` the plans, `snapshot` a shard at a stamp, `rows` what a shard gives,
//! `alone` the page where one branch is asked of one shard, `over_shards` that where it is asked of several (which put the places of rows
//! in order, and read those of the page alone), `items` what is told of each result, and `wide` the scans that run at once; `slots` and
//! `group` are the calls of the store (`entered` what both ask of a slot), whose promises are in `specs/Counted` and `specs/Groups`.
//! What is proved of lists and views stands in `proofs/`. Two laws say that shards can be answered one by one: `ShardResults` (of a query
//! of one branch the page is told by the first results of each shard, as many as are skipped and taken) and `UnitedResults` (of a query
//! of several branches by the results of each branch over each shard, put into the merged columns, and where no projection is selected by
//! as many of each as are skipped and taken). On them stand `ShardPages` (the page of what the shards give is that over all entities),
//! `OneShard` (so is what the window cuts of one shard's results), `Placings` (and what is read of the places of a page), `InShards` (an
//! entity is found in the shard of its group), `GlobalPages` and `GroupPages` (these are the views of a journal) and `FewerSteps` (sums of
//! bounds).
#![tactic(auto)]

mod alone;
mod answer;
mod entered;
mod group;
mod items;
mod over_shards;
mod planned;
mod planning;
mod rows;
mod searching;
mod slots;
mod snapshot;
mod wide;

pub use answer::Answer;
pub use ds_branch::EngineRefused;
pub use entered::shard_in;
pub use group::{GroupFound, query_slot};
pub use planned::PlannedQuery;
pub use planning::plans_of;
pub use searching::{Found, search};
pub use slots::{query_slots, query_slots_wide};
pub use snapshot::ShardSnapshot;
pub use wide::{AtOnce, search_wide};
