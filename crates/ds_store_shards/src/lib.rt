//! What applies and settles: the shards' desks of a running store, each of which stands under a lock of its own.
//!
//! A `ShardDesk` has the writer of the shard's hub (`ds_shard` is the state), its own reader of the journal, and the entries that wait. It
//! takes the entries of later commits from the journal (`fetch`), and applies them: the next ones, or all up to a place, as a settle or a
//! strong read needs them. It shows a pass what is published. It knows no lock, so what it asks of the journal it is handed.
//!
//! Begin with `shard_desk`, then `applying` and `standing`; `specs/Standing.antt` says where strong reads stand, and what settling one
//! shard leaves. `making` makes the desks of all shards, and `ending` is what is known of all passes once the writers have confirmed them.
#![tactic(auto)]

mod applying;
mod ending;
mod making;
mod shard_desk;
mod standing;

pub use applying::{apply_known, settle_known};
pub use ending::confirm_shards;
pub use making::shard_desks;
pub use shard_desk::ShardDesk;
pub use standing::{Stand, stand_known};
