//! Tests of the public calls of the crates that a write goes through: commits, the ids that they draw, their shard lists and transactions,
//! and the index rows of an entity. There is no code but tests, so that the libraries are proved once.
//!
//! `commits` has the book of commits and which of them conflict, `ids` the ids that it draws, `transactions` what a transaction takes, and
//! `shards` what shards take of a journal, over the deletes and touches of `writes`. `counts` says how many rows an entity has, and `rows`
//! what they are, byte for byte. `parts` makes keys, properties and definitions.
#![tactic(auto)]

#[cfg(test)]
mod commits;
#[cfg(test)]
mod counts;
#[cfg(test)]
mod ids;
#[cfg(test)]
mod parts;
#[cfg(test)]
mod rows;
#[cfg(test)]
mod shards;
#[cfg(test)]
mod transactions;
#[cfg(test)]
mod writes;
