//! Tests of the public calls by which a program reads its input: sources and sinks in memory and over files, the rounds of lines into which
//! the bytes are cut, and the words of a command. There is no code but tests, so that the libraries are proved once.
//!
//! One module for each library, named for what it holds; begin with `io`.
#![tactic(auto)]

#[cfg(test)]
mod io;
#[cfg(test)]
mod rounds;
#[cfg(test)]
mod words;
