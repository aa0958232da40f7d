//! A round.

use crate::lines::Lines;

/// A round: the number of its first line, counted from 1 through the whole input, and its lines, which stand one behind
/// another. So the line at place `i` has the number `first + i`.
#[derive(Drop)]
pub struct Round {
    pub first: u64,
    pub lines: Lines,
}
