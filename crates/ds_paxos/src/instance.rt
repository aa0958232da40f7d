//! What a member keeps of an instance.
ghost use Rattle.std.specs.Prelude.{◌≡◌};
ghost use Rattle.ds_paxos.specs.Members.{blank};

use crate::entry::Entry;
use crate::message::{Promised, Proposal};
use ds_base::{NoMemory, Numbers, Sequence, TryCopy};
use std::alloc::Global;

/// A running attempt of a proposer to have an entry chosen. A restart drops it.
#[derive(Drop)]
pub struct Attempt {
    /// Its ballot.
    pub ballot: u64,
    /// The entry that the proposer was asked to propose.
    pub entry: Entry,
    /// The promises that came for the ballot, one a member, until they are from a majority.
    pub promises: Sequence<Promised>,
    /// The members that accepted the ballot's entry as far as they told it, until they are a majority.
    pub accepters: Numbers,
}

impl TryCopy for Attempt {
    fn copy(&self, alloc: Global) -> Result<Attempt, NoMemory> {
        Ok(Attempt {
            ballot: self.ballot,
            entry: self.entry.copy(alloc)?,
            promises: self.promises.copy(alloc)?,
            accepters: self.accepters.copy(alloc)?,
        })
    }
}

/// What a member keeps of one instance. All but the attempt outlives a restart.
#[derive(Drop)]
pub struct Instance {
    /// The greatest ballot with which the member began an attempt, or 0.
    pub used: u64,
    /// The greatest ballot that it promised, or 0: it accepts nothing under a lower one.
    pub promised: u64,
    /// The proposal that it accepted last.
    pub accepted: Option<Proposal>,
    /// The entry that it knows to be chosen.
    pub held: Option<Entry>,
    /// The attempt that is running.
    pub attempt: Option<Attempt>,
}

impl Instance {
    /// What a member keeps before it heard of the instance. It takes no memory.
    pub fn blank() -> Instance
        ensures { result ≡ blank }
    {
        Instance {
            used: 0,
            promised: 0,
            accepted: None,
            held: None,
            attempt: None,
        }
    }
}

impl TryCopy for Instance {
    fn copy(&self, alloc: Global) -> Result<Instance, NoMemory> {
        Ok(Instance {
            used: self.used,
            promised: self.promised,
            accepted: self.accepted.copy(alloc)?,
            held: self.held.copy(alloc)?,
            attempt: self.attempt.copy(alloc)?,
        })
    }
}
