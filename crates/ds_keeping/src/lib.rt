//! Keeping what a run's rounds commit and draw, and sending the replies only then.
//!
//! It stands on `ds_keep`, whose keeper appends commits to a disk, and on `ds_clients`, whose sessions hold a round's replies. Begin with
//! `specs/Moments`, what each moment of a run leaves on its disk, and `specs/Holding`, what of a run is kept. `keeping` appends what a
//! round committed and drew, and `sending` writes its replies, which tells nothing that a crash could lose. The rounds of a run stand in
//! `ds_kept_rounds`.
#![tactic(auto)]

pub mod keeping;
pub mod sending;

pub use keeping::{Follower, Unkept, keep_round};
pub use sending::send;
