//! The definitions that the main theorem is made of; no running code.
//!
//! `specs/` holds them. Begin with `Legal` (what a legal run is), then `Answers` (what one reply says), `Asked` (what a line asks),
//! `Refusals` (why a request is refused, in which order), `Groups` (transactions), `Sessions` (what a client has seen), `Worlds`
//! and `Views` (which entities are visible), `ByKey` (in the order of their keys), `Rows` and `Results` (filter, order and first
//! occurrence) and `Bounds` (how many steps an answer may take). What is read from a line is an argument of `Answers`; `Legal` is of
//! lines that are read by the tables of requests. The definitions of the crates below are handed on: keys and their order, lines and
//! rounds (`ds_rounds`), requests and reply texts, commits and shard lists, plans, cursors, and places, first rows and pages (`ds_pages`).
//!
//! `proofs/` has their laws, over journals and lists alone: `LongerJournals` (an answer holds over every longer journal and longer lists),
//! `GroupViews` (a transaction reads what stood just before its commit), `GroupReads` and `AncestorResults` (a strong read sees in its
//! shard's entities what it sees in the journal), `GroupPrefixes` (a global view shows each group at a prefix of its log), `ShardViews`
//! (the entities of all shards are those of the global view), `ResultOrder` (results don't depend on the order of the entities),
//! `Paging` (pages are joined the whole result), `SerialRuns` (a legal run's journal is one serial history, and each line has one
//! reply), `SeenGrows` and `Visibility` (what a client has seen never shrinks, and what it finds then), and examples computed by the
//! definitions.
#![tactic(auto)]
