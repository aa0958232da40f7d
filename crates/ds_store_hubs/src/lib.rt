//! The hubs and words of a running store: how they are opened before their names are picked, and how what is published and drawn comes to
//! be known.
//!
//! Of a value under a lock only its type is known, so the names of all hubs and words of a store are ghost members of the trait `Names`, in
//! which the store's types are generic. `open` makes all hubs and words; who opened them picks the names. `arriving` takes the entries of a
//! shard from the journal's commits to the shard's hub, `showing` tells readers and seats what is there, `seat_room` has room for all
//! seats, and `ledgers` is the right to open ledgers on which the shards are read.
//!
//! Begin with `specs/Opening`, what contracts see of what was opened. It stands on `ds_hub` and `ds_draw`, and on `ds_shard`, whose shards
//! are the states of hubs.
#![tactic(auto)]

mod arriving;
mod journal_state;
mod ledgers;
mod names;
mod opened;
mod seat_room;
mod showing;

pub use arriving::{later_entries, publish_waiting, take_in};
pub use journal_state::JournalState;
pub use ledgers::Ledgers;
pub use names::Names;
pub use opened::{Opened, OpenedShard, open};
pub use seat_room::SeatRoom;
pub use showing::{draw_one, look_up_to, see_all, see_shard_in, tell};
