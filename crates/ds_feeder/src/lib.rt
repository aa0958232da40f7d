//! A second store that is fed while clients use the first one: in a thread of its own, beside whatever work is done there.
//!
//! `feed_beside` calls the work while the feeder runs, and joins both. The feeder holds the journal's lock of the first store for at most
//! 1,024 commits at a time, so clients aren't held up for long; where there is nothing to feed it sleeps until a commit wakes it.
#![tactic(auto)]

mod feeder;

pub use feeder::feed_beside;
