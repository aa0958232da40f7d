//! The ledgers on which a store's shards are read.
ghost use Rattle.std.specs.Prelude.{◌≡◌, ◌≤◌};

use crate::names::Names;
use std::marker::PhantomData;
use std::sync::ledger::Blank;

/// The right to open ledgers on which the seeks and look-ups in a store's shards count. Who runs sessions has it, and lends them a ledger
/// for the lines that they answer; no session is lent the right itself, so it counts where it is asked to.
#[derive(Drop)]
pub struct Ledgers<J: Names> {
    parts: u64,
    of: PhantomData<J>,
    ghost own: { parts ≡ J.ledger },
    ghost some: { 1 ≤ parts },
}

impl<J: Names> Ledgers<J> {
    /// Of the store that was opened with ledgers of so many parts.
    pub fn new(parts: u64) -> Ledgers<J>
        requires own { parts ≡ J.ledger }
        requires some { 1 ≤ parts }
    {
        Ledgers {
            parts,
            of: PhantomData,
        }
    }

    /// The same right for one more holder. Its type says all of it, so there is nothing that a clause could add.
    pub fn again(&self) -> Ledgers<J> {
        Ledgers {
            parts: self.parts,
            of: PhantomData,
        }
    }

    /// Into how many parts each ledger is cut.
    pub fn parts(&self) -> u64
        ensures own { result ≡ J.ledger }
        ensures some { 1 ≤ result }
    {
        self.parts
    }

    /// A ledger of the store on which nothing is counted yet.
    pub fn blank(&self) -> Blank
        ensures own { result.parts ≡ J.ledger }
        ensures some { 1 ≤ result.parts }
    {
        Blank::new(self.parts)
    }
}
