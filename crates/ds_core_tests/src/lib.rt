//! Tests of runs over single events: the same requests under different orders of steps, with the replies that each order gives.
//!
//! `scripts` runs a list of steps and gives the replies as text; `schedules` has the lists.
#![tactic(auto)]

#[cfg(test)]
mod schedules;
#[cfg(test)]
mod scripts;
