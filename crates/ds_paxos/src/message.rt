//! Messages between the members, and what they speak of.
use crate::entry::Entry;
use ds_base::{NoMemory, TryCopy};
use std::alloc::Global;

/// A position of a log: one instance of Paxos decides its entry.
#[derive(Clone, Copy, PartialEq, Eq, PartialOrd, Ord, Debug, Drop)]
pub struct Place {
    /// The number of the log.
    pub log: u32,
    /// Counted from 1.
    pub position: u64,
}

/// An entry with the ballot under which it is asked for.
#[derive(Drop)]
pub struct Proposal {
    /// The number of the ballot, at least 1.
    pub ballot: u64,
    /// The entry.
    pub entry: Entry,
}

impl TryCopy for Proposal {
    fn copy(&self, alloc: Global) -> Result<Proposal, NoMemory> {
        Ok(Proposal {
            ballot: self.ballot,
            entry: self.entry.copy(alloc)?,
        })
    }
}

/// What a member tells in a promise: itself, and the last proposal that it accepted.
#[derive(Drop)]
pub struct Promised {
    /// The member that promises.
    pub member: u32,
    /// The proposal that it accepted last, if any.
    pub accepted: Option<Proposal>,
}

impl TryCopy for Promised {
    fn copy(&self, alloc: Global) -> Result<Promised, NoMemory> {
        Ok(Promised {
            member: self.member,
            accepted: self.accepted.copy(alloc)?,
        })
    }
}

/// What a message says of its ballot.
#[derive(Drop)]
pub enum Content {
    /// The proposer asks for a promise to accept nothing under a lower ballot.
    Prepare,
    /// A member gives that promise.
    Promise(Promised),
    /// The proposer asks to accept an entry.
    Accept(Entry),
    /// This member has accepted the ballot's entry.
    Accepted(u32),
    /// The entry is chosen: a majority accepted it.
    Chosen(Entry),
}

impl TryCopy for Content {
    fn copy(&self, alloc: Global) -> Result<Content, NoMemory> {
        match self {
            Content::Prepare => Ok(Content::Prepare),
            Content::Promise(promised) => Ok(Content::Promise(promised.copy(alloc)?)),
            Content::Accept(entry) => Ok(Content::Accept(entry.copy(alloc)?)),
            Content::Accepted(member) => Ok(Content::Accepted(*member)),
            Content::Chosen(entry) => Ok(Content::Chosen(entry.copy(alloc)?)),
        }
    }
}

/// A message.
#[derive(Drop)]
pub struct Message {
    /// The member that it is for.
    pub to: u32,
    /// The instance that it belongs to.
    pub place: Place,
    /// The ballot that it speaks of.
    pub ballot: u64,
    /// What it says.
    pub content: Content,
}
