//! The right to search a store's shards without counting steps.
use ds_store_hubs::{Ledgers, Names};

/// What `query_wide` opens its ledgers by, on which steps are counted for nobody. A store has it; what its calls do otherwise counts where
/// they are asked to, since nobody but `query_wide` is told how a ledger of the store is opened.
#[derive(Drop)]
pub struct Uncounted<J: Names> {
    pub(crate) ledgers: Ledgers<J>,
}

impl<J: Names> Uncounted<J> {
    /// By these ledgers of the store.
    pub fn new(ledgers: Ledgers<J>) -> Uncounted<J> {
        Uncounted { ledgers }
    }
}

/// How a store's shards are scanned at once.
#[derive(Drop)]
pub struct UncountedScans<'a, J: Names, G> {
    /// What is called before and after each shard's scan, with the shard's number and line 0.
    pub gate: &'a G,
    /// The right to scan them on ledgers of their own.
    pub right: &'a Uncounted<J>,
}
