//! What one client has seen, and its transaction.
ghost use Rattle.std.specs.Prelude.{◌≡◌, None, Some, IfOk, OnOk, OnErr};
ghost use Rattle.ds_model.specs.Answers.{begun};
ghost use Rattle.ds_model.specs.Groups.{place_in, touching, touching_if, writing, with_transaction};
ghost use Rattle.ds_model.specs.Sessions.{first_session, greater_counts, saw_place, saw_next, saw_entries};

use crate::seen::{CountSeen, CountsSeen, GroupRead};
use crate::transaction::OpenTransaction;
use crate::watermark::Watermark;
use ds_base::{Key, NoMemory};
use ds_log::Write;
use ds_reply::Body;
use ds_txn::Txn;
use std::alloc::Global;
use std::marker::Model;

/// What a client has seen, and its open transaction.
///
/// Contracts see it as the session of the definitions.
#[derive(Drop)]
pub struct Session {
    /// What it was shown.
    pub seen: Watermark,
    /// Its transaction, if there is one.
    pub transaction: OpenTransaction,
}

impl Model for Session {
    ghost use Rattle.ds_model.specs.Sessions.{Session as SessionParts};

    ghost Value = { SessionParts };

    ghost view = { λ s. record {
      place = s.seen.place;
      counts = s.seen.counts;
      next_id = s.seen.next_id;
      transaction = s.transaction.transaction;
    } };
}

impl Session {
    /// Nothing seen, and no transaction.
    pub fn first(alloc: Global, shards: u32) -> Result<Session, NoMemory>
        ensures { IfOk result (λ s. s ≡ first_session shards) }
    {
        Ok(Session {
            seen: Watermark::first(alloc, shards)?,
            transaction: OpenTransaction::none(),
        })
    }

    /// The client was shown a place.
    pub fn see_place(&mut self, place: u64)
        ensures { self.new ≡ saw_place place self.old }
    {
        self.seen.see_place(place);
    }

    /// The client was shown an id counter.
    pub fn see_next(&mut self, next: u64)
        ensures { self.new ≡ saw_next next self.old }
    {
        self.seen.see_next(next);
    }
}

impl Session {
    ghost use Rattle.std.specs.Prelude.{is_some, IfSome, IsTrue};
    ghost use Rattle.std.specs.Option.{option_copied, option_map};
    ghost use Rattle.ds_model.specs.Groups.{group_refusal};
    ghost use Rattle.ds_protocol.specs.Refused.{IsRefusal, is_quiet, tells_no_step};
    ghost use Rattle.ds_protocol.specs.Transactions.{MayWrite, transaction_of};

    /// Whether there is a transaction.
    pub fn in_transaction(&self) -> bool
        ensures { result ≡ is_some self.now.transaction }
    {
        self.transaction.is_open()
    }

    /// The client's transaction, or none.
    pub fn open(&self) -> &OpenTransaction
        ensures { result.now.transaction ≡ self.now.transaction }
    {
        &self.transaction
    }

    /// The open transaction.
    pub fn transaction(&self) -> Option<&Txn>
        ensures { self.now.transaction ≡ option_map transaction_of (option_copied result) }
    {
        self.transaction.transaction()
    }

    /// A transaction begins.
    pub fn begin(&mut self, alloc: Global, several_groups: bool)
        ensures { self.new ≡ with_transaction (Some (begun several_groups)) self.old }
    {
        self.transaction.begin(alloc, several_groups);
    }

    /// The transaction ends, if there is one.
    pub fn end(&mut self)
        ensures { self.new ≡ with_transaction None self.old }
    {
        self.transaction.end();
    }

    /// The transaction ends, and the client is shown a place.
    pub fn end_at(&mut self, place: u64)
        ensures { self.new ≡ saw_place place (with_transaction None self.old) }
    {
        self.end();
        self.see_place(place);
    }

    /// A group is read, and the transaction, if there is one, touches it. A refusal means out of memory and changes nothing.
    pub fn read_group(&mut self, read: GroupRead) -> Result<(), NoMemory>
        requires { group_refusal self.old.transaction (Some read.group) ≡ None }
        ensures ok { OnOk result (self.new
            ≡ saw_entries read.shard read.entries
            (saw_place read.place (with_transaction (touching_if read.group read.place self.old.transaction) self.old))) }
        ensures err { OnErr result (self.new ≡ self.old) }
    {
        self.transaction.make_room()?;
        self.transaction.touch(read.group, read.place);
        self.seen.see_place(read.place);
        self.seen.see_entries(read.shard as usize, read.entries);
        Ok(())
    }

    /// The client was shown a count of each shard.
    pub fn see_all(&mut self, seen: &CountsSeen)
        ensures { self.new ≡ saw_place seen.now.commit (record self.old { counts = greater_counts self.old.counts seen.now.counts }) }
    {
        self.seen.see_counts(seen.counts.as_slice(), seen.commit);
    }

    /// The client was shown a place and a count of each shard.
    pub fn settle(&mut self, place: u64, seen: &CountsSeen)
        ensures { self.new
            ≡ saw_place seen.now.commit (record (saw_place place self.old) { counts = greater_counts self.old.counts seen.now.counts }) }
    {
        self.see_place(place);
        self.see_all(seen);
    }

    /// The client was shown a place and a count of one shard.
    pub fn see_one(&mut self, seen: &CountSeen)
        ensures { self.new
            ≡ saw_place seen.now.commit (saw_entries seen.now.shard seen.now.count (saw_place seen.now.place self.old)) }
    {
        self.seen.see_place(seen.place);
        self.seen
            .see_count(seen.shard as usize, seen.count, seen.commit);
    }

    /// The transaction touches a group and takes a write. A refusal means out of memory and changes nothing.
    pub fn write(&mut self, group: Key, place: u64, write: Write) -> Result<(), NoMemory>
        requires { MayWrite self.old.transaction group }
        ensures ok { OnOk result (self.new
            ≡ with_transaction (option_map (λ t. writing write (touching group place t)) self.old.transaction) self.old) }
        ensures err { OnErr result (self.new ≡ self.old) }
    {
        self.transaction.make_room()?;
        self.transaction.write(group, place, write);
        Ok(())
    }

    /// The place at which the group was touched.
    pub fn touch_place(&self, group: &Key) -> Option<u64>
        ensures { result ≡ place_in self.now.transaction group.now }
    {
        self.transaction.place(group)
    }

    /// Why the transaction, if there is one, may not touch the group, `None` standing for one of a new root; or that there is no memory
    /// to tell it.
    pub fn group_refusal(&self, alloc: Global, group: Option<&Key>) -> Option<Body>
        ensures told { IsRefusal (group_refusal self.now.transaction (option_copied group.entry)) result }
        ensures quiet { IfSome result (λ b. IsTrue (is_quiet b)) }
        ensures numberless { IfSome result (λ b. IsTrue (tells_no_step b)) }
    {
        self.transaction.group_refusal(alloc, group)
    }
}
