//! Tests of the running store with several threads, which no clause tells of. They stand above the store, so that it is proved without
//! them. There is no code but tests. What one caller is answered is proved, and tried by the tests of the programs.
//!
//! Begin with `store`, which has the tests; `trial` opens a store for each, picks its names and closes it. `wide` searches all shards at
//! once, `race` has two callers that commit at once, and `crowd` sixteen that call at random, with eight that apply.
//!
//! `made` makes keys and drafts, `calls` and `asking` call the store, `told` keeps what was told and compares it with the journal that is
//! left, and `dice` draws numbers that look random.
#![tactic(auto)]

#[cfg(test)]
mod asking;
#[cfg(test)]
mod calls;
#[cfg(test)]
mod crowd;
#[cfg(test)]
mod dice;
#[cfg(test)]
mod made;
#[cfg(test)]
mod race;
#[cfg(test)]
mod store;
#[cfg(test)]
mod told;
#[cfg(test)]
mod trial;
#[cfg(test)]
mod wide;
