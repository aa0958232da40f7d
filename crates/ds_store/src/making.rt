//! How a store is made of what was opened.
ghost use Rattle.std.specs.Prelude.{◌≡◌, IfOk, length, replicate};
ghost use Rattle.ds_store_hubs.specs.Opening.{AreNamesOf, AreBegun};
ghost use Rattle.ds_store_passes.specs.Passes.{nothing_seen};

use crate::loading::Loading;
use ds_base::NoMemory;
use ds_store_hubs::{Ledgers, Names, Opened};
use ds_store_passes::Passes;
use ds_store_running::{Store, Tail};
use std::alloc::Global;
use std::sync::Wait;

/// A store, with all that belongs to it.
#[derive(Drop)]
pub struct Made<J: Names, H: Wait + Drop> {
    /// The store, for all threads.
    pub store: Store<J, H>,
    /// For `commits_after`, which no client calls.
    pub tail: Tail<J>,
    /// For who runs sessions: on these ledgers the steps count that calls of the store take.
    pub ledgers: Ledgers<J>,
    /// As many as it was opened for.
    pub passes: Passes<J>,
}

/// Makes a store of what was opened, whose names these are. A refusal means out of memory.
pub fn make<J: Names, H: Wait + Drop>(
    alloc: Global,
    opened: Opened<H>,
) -> Result<Made<J, H>, NoMemory>
    requires names { AreNamesOf opened J.journal J.shards J.commits J.ids J.definitions J.window J.ledger }
    requires begun { AreBegun opened }
    ensures store { IfOk result (λ made. (made.store.shards ≡ length opened.shards) × (made.store.passes ≡ opened.passes)) }
    ensures passes { IfOk result (λ made. made.passes ≡ replicate opened.passes (nothing_seen (length opened.shards))) }
{
    let loading = Loading::make(alloc, opened)?;
    Ok(loading.share())
}
