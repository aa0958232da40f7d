//! Tests of the public calls of the crates that everything stands on: each call once where it succeeds, tables of limits and orders with
//! values that were worked out by hand, and the formats: what encodings of bytes look like, what is none, the hash that tells shards
//! apart, and what a query means. There is no code but tests, so that the libraries are proved once. `ds_input_tests` tries how input is
//! read; what is read of a line, and what replies look like, is tried by the tests of the programs.
//!
//! One module for each library, named for what it holds; begin with `base`.
#![tactic(auto)]

#[cfg(test)]
mod base;
#[cfg(test)]
mod bytes;
#[cfg(test)]
mod indexdef;
#[cfg(test)]
mod lanes;
#[cfg(test)]
mod log;
#[cfg(test)]
mod query;
