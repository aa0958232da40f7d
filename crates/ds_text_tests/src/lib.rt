//! Tests of texts that are written and read back, and of plans: index files, journals, GQL statements, and queries with the scans that
//! answer them, as tables whose values were worked out by hand or made outside. There is no code but tests, so that the libraries are
//! proved once. Cursors are tried by the tests of the programs.
//!
//! `index_reading` has index files that are read or refused, `index_many` those of about 200 definitions, and `index_writing` what is
//! written. `journal` has journals that come back, and the first wrong line of a text that is none.
//!
//! `statements` has texts with the statements that they are, and with the bytes at which they stop being one, each told as one line by
//! `told`, and `printed` statements as they are printed. `plans` has queries with the scans that answer them over definitions, or what is
//! missing where none do.
#![tactic(auto)]

#[cfg(test)]
mod index_many;
#[cfg(test)]
mod index_reading;
#[cfg(test)]
mod index_writing;
#[cfg(test)]
mod journal;
#[cfg(test)]
mod plans;
#[cfg(test)]
mod printed;
#[cfg(test)]
mod statements;
#[cfg(test)]
mod told;
