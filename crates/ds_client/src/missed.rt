//! What a session has yet to take of what other clients were shown.
ghost use Rattle.std.specs.Prelude.{◌≡◌, [], length, IfOk};
ghost use Rattle.ds_protocol.specs.Watermarks.{nothing_seen, raised_by};
ghost use Rattle.ds_session.specs.Meeting.{HasTaken};

use ds_base::{Counts, NoMemory};
use ds_protocol::Watermark;
use ds_session::Session;
use ds_store::{Names, Store};
use std::alloc::Global;
use std::marker::Model;
use std::sync::Wait;

/// What others were shown since a session met them: it is noted here while its client has no lines, without a lock, and the session takes
/// it before the client's next line is answered.
#[derive(Drop)]
pub struct Missed {
    seen: Watermark,
    /// Room for the same counts, as a store is told them.
    counts: Vec<u64>,
}

impl Model for Missed {
    ghost use Rattle.std.specs.Prelude.{◌≡◌, length};
    ghost use Rattle.ds_model.specs.Sessions.{Session};

    ghost Value = { Session };

    ghost view = { λ m. m.seen };

    ghost invariant = { λ m. length m.counts.items ≡ length m.seen.counts };
}

impl Missed {
    /// Nothing of so many shards. A refusal means out of memory.
    pub fn make(alloc: Global, shards: u32) -> Result<Missed, NoMemory>
        ensures { IfOk result (λ m. m ≡ nothing_seen shards) }
    {
        let mut seen = Watermark::first(alloc, shards)?;
        seen.clear();
        let counts = Vec::from_slice(alloc, seen.counts())?;
        Ok(Missed { seen, counts })
    }

    /// Others were shown this.
    pub fn add(&mut self, shown: &Watermark)
        ensures { self.new ≡ raised_by shown.now self.old }
    {
        self.seen.raise(shown);
    }

    /// Raises a watermark by it.
    pub fn add_to(&self, greatest: &mut Watermark)
        ensures { greatest.new ≡ raised_by self.now greatest.old }
    {
        greatest.raise(&self.seen);
    }

    /// The session takes it, and its pass sees as much; nothing is missed then. No reply may be left from an earlier round. It takes no
    /// memory.
    pub fn pass_on<J: Names, R: Wait, H: Wait + Drop>(
        &mut self,
        rt: &R,
        store: &Store<J, H>,
        session: &mut Session<J>,
    )
        requires shards { length self.old.counts ≡ store.now.shards }
        requires written { session.old.text ≡ [] }
        ensures taken { HasTaken self.old session.old session.new }
        ensures room { session.new.room ≡ session.old.room }
        ensures counts { length session.new.seen.counts ≡ length session.old.seen.counts }
        ensures nothing { self.new ≡ nothing_seen (length self.old.counts) }
    {
        meet(rt, store, session, &self.seen, &mut self.counts);
        self.seen.clear();
    }
}

/// The session takes what was seen, whose counts the store is told in this room for them.
fn meet<J: Names, R: Wait, H: Wait + Drop>(
    rt: &R,
    store: &Store<J, H>,
    session: &mut Session<J>,
    seen: &Watermark,
    counts: &mut Vec<u64>,
)
    requires room { length counts.old.items ≡ length seen.now.counts }
    requires shards { length seen.now.counts ≡ store.now.shards }
    requires written { session.old.text ≡ [] }
    ensures taken { HasTaken seen.now session.old session.new }
    ensures spare { session.new.room ≡ session.old.room }
    ensures counts { length session.new.seen.counts ≡ length session.old.seen.counts }
    ensures room { length counts.new.items ≡ length seen.now.counts }
{
    counts.as_mut_slice().copy_from_slice(seen.counts());
    let told = Counts::from(std::mem::replace(counts, Vec::new(session.alloc())));
    session.meet(rt, store, seen, &told);
    *counts = told.into_vec();
}
