//! Tests of replicated group logs: scripts with what they print, and worlds over whole schedules. There is no code but tests, so that the
//! libraries are proved once.
//!
//! `scripts` has inputs of the program with its status and output. `duels` has two proposers that overtake one another for fifty ballots,
//! and a minority that restarts between promise and accept. `schedules` plays messages in orders that seeds give, some lost and some
//! repeated. `journal` replicates the lines of a journal's text.
#![tactic(auto)]

#[cfg(test)]
mod duels;
#[cfg(test)]
mod journal;
#[cfg(test)]
mod play;
#[cfg(test)]
mod schedules;
#[cfg(test)]
mod scripts;
