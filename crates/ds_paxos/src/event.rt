//! Events, and why one is refused.
ghost use Rattle.std.specs.Prelude.{◌≡◌, ◌==◌};
ghost use Rattle.std.specs.List.{list_any};
ghost use Rattle.ds_paxos.specs.Forms.{is_entry, is_well_formed};

use ds_base::{NoMemory, TextString};

/// The most bytes of an entry.
const MAX_ENTRY_BYTES: usize = 1500;

/// What happens next. A message that is lost is one that is never delivered.
#[derive(Drop)]
pub enum Event {
    /// A member is asked to have an entry chosen for a position of a log.
    Propose {
        /// The member, counted from 0.
        member: u32,
        /// The number of the log.
        log: u32,
        /// Counted from 1.
        position: u64,
        /// 1 to 1,500 bytes without a newline.
        entry: TextString,
    },
    /// A message comes to its member, for the first time or again.
    Deliver {
        /// Its number, in the order in which messages were sent, from 0.
        message: u64,
    },
    /// A member restarts: its running attempts are dropped.
    Restart {
        /// The member, counted from 0.
        member: u32,
    },
}

impl Event {
    /// Whether the event has the form that a step needs: positions are counted from 1, and an entry has 1 to 1,500 bytes and no newline.
    pub fn is_well_formed(&self) -> bool
        ensures { result ≡ is_well_formed self.now }
    {
        match self {
            Event::Propose {
                member: _,
                log: _,
                position,
                entry,
            } => *position >= 1 && is_entry(entry.bytes()),
            Event::Deliver { message: _ } => true,
            Event::Restart { member: _ } => true,
        }
    }
}

/// Whether these bytes have the form of an entry.
fn is_entry(entry: &[u8]) -> bool
    ensures { result ≡ is_entry entry.now }
{
    !entry.is_empty() && (entry.len() <= MAX_ENTRY_BYTES && !has_newline(entry))
}

fn has_newline(entry: &[u8]) -> bool
    ensures { result ≡ list_any (λ byte. byte == 10) entry.now }
{
    entry.iter().any(|byte| *byte == b'\n')
}

/// Why a step isn't taken. The world stays as it was.
#[derive(Clone, Copy, PartialEq, Eq, Debug, Drop)]
pub enum StepRefused {
    /// There is no such member.
    NoMember,
    /// There is no such message.
    NoMessage {
        /// How many messages were sent so far.
        sent: u64,
    },
    /// The ballot of the proposal would pass 2^63 - 1.
    NoBallot,
    /// There was no memory.
    NoMemory,
}

impl From<NoMemory> for StepRefused {
    ghost use Rattle.std.specs.Prelude.{◌≡◌};
    ghost use Rattle.ds_paxos.specs.declared.event.StepRefused.{StepRefused};
    ghost use Rattle.ds_paxos.specs.declared.event.StepRefused.TheVariants.{NoMemory};

    ghost from_gives = { λ _ refused. refused ≡ NoMemory };

    /// Want of memory.
    fn from(_error: NoMemory) -> StepRefused {
        StepRefused::NoMemory
    }
}
