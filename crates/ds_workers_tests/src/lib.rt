//! Tests of workers, by their public calls alone: that clients are handled at once, which no clause says. There is no code but tests.
#![tactic(auto)]

#[cfg(test)]
mod held;
