//! What an answer says and changes, before it does.
ghost use Rattle.std.specs.Prelude.{◌≡◌};

use crate::gathered::Step;
use ds_base::Key;
use ds_journal::Draft;
use ds_log::Write;
use ds_protocol::{CountSeen, CountsSeen, GroupRead};
use ds_reply::Body;

/// What an answer changes of the store and of its client's session.
#[derive(Drop)]
pub enum Effect {
    /// Nothing changes.
    Nothing,
    /// An id counter is shown.
    SeeNext { next: u64 },
    /// A transaction begins.
    Begin { several_groups: bool },
    /// The transaction ends.
    End,
    /// The transaction ends, and a place is shown.
    EndAt { place: u64 },
    /// A write is committed by itself.
    CommitWrite(WriteCommit),
    /// The transaction is committed and ends, and the commit's number is shown.
    CommitTransaction(Draft),
    /// The transaction takes a write.
    WriteGroup(GroupWrite),
    /// A group is read.
    ReadGroup(GroupRead),
    /// A count of each shard is shown.
    SeeCounts(CountsSeen),
    /// A place is shown, and a count of each shard.
    Settle { place: u64, seen: CountsSeen },
    /// A place is shown, and a count of one shard.
    SeeCount(CountSeen),
}

/// A write that is committed by itself, and its number is shown.
#[derive(Drop)]
pub struct WriteCommit {
    /// The commit.
    pub draft: Draft,
    /// The id counter that is shown.
    pub next: u64,
}

/// A write of the transaction, which touches its group.
#[derive(Drop)]
pub struct GroupWrite {
    /// The group's root key.
    pub group: Key,
    /// Where the group stands, which is shown.
    pub place: u64,
    /// The write.
    pub write: Write,
    /// The id counter that is shown.
    pub next: u64,
}

/// What an answer says, and what it changes.
#[derive(Drop)]
pub struct Plan {
    pub body: Body,
    pub effect: Effect,
}

impl Plan {
    /// A refusal that changes nothing.
    pub fn refused(body: Body) -> Plan
        ensures body { result.body ≡ body }
        ensures effect { result.effect ≡ Effect.Nothing }
    {
        Plan {
            body,
            effect: Effect::Nothing,
        }
    }

    /// Want of memory.
    pub fn no_memory() -> Plan
        ensures body { result.body ≡ Body.NoMemory }
        ensures effect { result.effect ≡ Effect.Nothing }
    {
        Plan::refused(Body::NoMemory)
    }
}

/// What an open request comes to at a step.
#[derive(Drop)]
pub enum Due {
    /// Nothing is missing: this is said, and changed by it.
    Reply(Plan),
    /// This step of its client is missing.
    Waits(Step),
}
