//! What each caller of a running store has seen, and what the calls of the store answer over it.
//!
//! A `Pass` is a reader of the journal's hub and one of each shard's, with seats on the words from which the numbers of commits and the
//! ids are drawn (`ds_store_hubs`). Contracts see it as its lists: the journal's commits, and of each shard the entries. The crates of the
//! store take it by `&mut`: `ds_store_journal` shows it commits and appends its own, `ds_store_shards` shows it entries, and
//! `ds_store_reads` searches the shards that it has entered.
//!
//! Begin with `specs/Passes.antt`, what contracts see of a pass, and with `pass`. `specs/Answered.antt` has what each call of the store
//! answers, over what its pass had seen before and has seen after, and `answers` the values that it gives. `learning` is what a pass learns
//! without a lock, `making` makes passes that have seen nothing, and `ending` takes their seats, by which `specs/Ending.antt` says what
//! all passes did.
#![tactic(auto)]

mod answers;
mod ending;
mod learning;
mod making;
mod pass;

pub use answers::{
    Applied, Expired, GetRefused, Got, NewCause, NewCommit, NewRefused, Settled, Since,
};
pub use ending::all_seats;
pub use making::{Passes, a_reader, a_seat, all_passes};
pub use pass::{Pass, Shown};
