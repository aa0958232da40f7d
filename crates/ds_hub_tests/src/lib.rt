//! Tests of hubs and of drawn numbers, by their public calls alone. They stand above these crates, so that each is proved without
//! its tests. There is no code but tests.
//!
//! `hub` has one hub with its readers, `slots` the lists of readers and slots and what a journal's hub needs, and `draw` the drawn
//! numbers; `opened` makes what they try.
#![tactic(auto)]

#[cfg(test)]
mod draw;
#[cfg(test)]
mod hub;
#[cfg(test)]
mod numbers;
#[cfg(test)]
mod opened;
#[cfg(test)]
mod slots;
