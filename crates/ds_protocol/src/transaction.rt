//! The transaction of a client: what it touches and writes, and what it refuses.
ghost use Rattle.std.specs.Prelude.{◌≡◌, ◌<◌, ◌∷◌, [], None, Some, is_some, length, IfSome, IsTrue, OnOk};
ghost use Rattle.std.specs.Option.{option_copied, option_map};
ghost use Rattle.ds_base.specs.Keys.{root_of};
ghost use Rattle.ds_base.specs.Limits.{most_writes};
ghost use Rattle.ds_model.specs.Answers.{begun};
ghost use Rattle.ds_model.specs.Groups.{group_refusal, place_in, touching, touching_if, write_refusal, writing};
ghost use Rattle.ds_model.specs.Refusals.{first_refusal, group_asked};
ghost use Rattle.ds_protocol.specs.Refused.{IsRefusal, is_quiet, tells_no_step};
ghost use Rattle.ds_protocol.specs.Transactions.{MayWrite, transaction_of};

use crate::ids::group_asked;
use ds_base::{Key, NoMemory, copy_of};
use ds_log::Write;
use ds_reply::Body;
use ds_txn::{Txn, TxnRefused};
use std::alloc::Global;
use std::marker::Model;

/// The transaction that a client has open, or none. It is the half of a session that no store knows of.
///
/// Contracts see it as the definitions of sessions do.
#[derive(Drop)]
pub struct OpenTransaction {
    open: Option<Txn>,
}

impl Model for OpenTransaction {
    ghost use Rattle.ds_protocol.specs.Transactions.{OpenParts, open_parts};

    ghost Value = { OpenParts };

    ghost view = { λ t. open_parts t.open };
}

impl OpenTransaction {
    /// No transaction.
    pub fn none() -> OpenTransaction
        ensures { result.transaction ≡ None }
    {
        OpenTransaction { open: None }
    }

    /// Whether there is a transaction.
    pub fn is_open(&self) -> bool
        ensures { result ≡ is_some self.now.transaction }
    {
        self.open.is_some()
    }

    /// The transaction, if there is one.
    pub fn transaction(&self) -> Option<&Txn>
        ensures { self.now.transaction ≡ option_map transaction_of (option_copied result) }
    {
        self.open.as_ref()
    }

    /// A transaction begins, which may touch several groups where that was asked for. It takes no memory.
    pub fn begin(&mut self, alloc: Global, several_groups: bool)
        ensures { self.new.transaction ≡ Some (begun several_groups) }
    {
        self.open = Some(Txn::begin(alloc, several_groups));
    }

    /// The transaction ends, if there is one.
    pub fn end(&mut self)
        ensures { self.new.transaction ≡ None }
    {
        self.open = None;
    }

    /// The place at which the group of this root key was touched; `None` where it wasn't.
    pub fn place(&self, group: &Key) -> Option<u64>
        ensures { result ≡ place_in self.now.transaction group.now }
    {
        self.open.as_ref()?.place(group)
    }

    /// Makes room for a touch and a write behind it, where there is a transaction. A refusal means out of memory and changes nothing.
    pub fn make_room(&mut self) -> Result<(), NoMemory>
        ensures same { self.new.transaction ≡ self.old.transaction }
        ensures room { OnOk result (IsTrue (is_some self.new.transaction) → 0 < self.new.room) }
    {
        match &mut self.open {
            Some(txn) => txn.make_room(),
            None => Ok(()),
        }
    }

    /// The transaction, if there is one, touches a group, at this place where it hasn't touched it before. It takes no memory.
    pub fn touch(&mut self, group: Key, place: u64)
        requires allowed { group_refusal self.old.transaction (Some group) ≡ None }
        requires room { IsTrue (is_some self.old.transaction) → 0 < self.old.room }
        ensures { self.new.transaction ≡ touching_if group place self.old.transaction }
    {
        if let Some(txn) = &mut self.open {
            touch(txn, group, place);
        }
    }

    /// The transaction touches a group, at this place where it hasn't touched it before, and takes a write. It takes no memory.
    pub fn write(&mut self, group: Key, place: u64, write: Write)
        requires allowed { MayWrite self.old.transaction group }
        requires room { 0 < self.old.room }
        ensures { self.new.transaction ≡ option_map (λ t. writing write (touching group place t)) self.old.transaction }
    {
        if let Some(txn) = &mut self.open {
            touch(txn, group, place);
            add_write(txn, write);
        }
    }

    /// Why the transaction, if there is one, may not touch the group, `None` standing for one of a new root; or that there is no memory
    /// to tell it.
    pub fn group_refusal(&self, alloc: Global, group: Option<&Key>) -> Option<Body>
        ensures told { IsRefusal (group_refusal self.now.transaction (option_copied group.entry)) result }
        ensures quiet { IfSome result (λ b. IsTrue (is_quiet b)) }
        ensures numberless { IfSome result (λ b. IsTrue (tells_no_step b)) }
    {
        let txn = self.open.as_ref()?;
        match txn.may_touch(group) {
            Ok(()) => None,
            Err(TxnRefused::SecondGroup) => match copy_of(alloc, group) {
                Ok(group) => Some(Body::SecondGroup { group }),
                Err(_) => Some(Body::NoMemory),
            },
            Err(TxnRefused::TooManyGroups) => Some(Body::TooManyGroups),
            Err(TxnRefused::NoMemory) => Some(Body::NoMemory),
        }
    }

    /// Why the transaction, if there is one, takes no write to the group; or that there is no memory to tell it.
    pub fn refusal(&self, alloc: Global, group: Option<&Key>) -> Option<Body>
        ensures told { IsRefusal (first_refusal (group_refusal self.now.transaction (option_copied group.entry)
            ∷ write_refusal self.now.transaction ∷ [])) result }
        ensures quiet { IfSome result (λ b. IsTrue (is_quiet b)) }
        ensures numberless { IfSome result (λ b. IsTrue (tells_no_step b)) }
    {
        match self.group_refusal(alloc, group) {
            Some(body) => Some(body),
            None => match &self.open {
                Some(txn) if txn.may_write().is_err() => Some(Body::TooManyWrites),
                _ => None,
            },
        }
    }

    /// Why the transaction, if there is one, doesn't read the group of a key; or that there is no memory to tell it. Outside a transaction
    /// nothing is copied.
    pub fn read_refusal(&self, alloc: Global, key: &Key) -> Option<Body>
        ensures told { IsRefusal (group_refusal self.now.transaction (Some (root_of key.now))) result }
        ensures quiet { IfSome result (λ b. IsTrue (is_quiet b)) }
        ensures numberless { IfSome result (λ b. IsTrue (tells_no_step b)) }
    {
        if !self.is_open() {
            return None;
        }
        match key.root(alloc) {
            Ok(group) => self.group_refusal(alloc, Some(&group)),
            Err(_) => Some(Body::NoMemory),
        }
    }

    /// Why the transaction, if there is one, takes no write of a key, whose last id isn't drawn yet where it is incomplete; or that there
    /// is no memory to tell it. Outside a transaction nothing is copied.
    pub fn key_refusal(&self, alloc: Global, key: &Key, incomplete: bool) -> Option<Body>
        ensures told { IsRefusal (first_refusal (group_refusal self.now.transaction (group_asked incomplete key.now)
            ∷ write_refusal self.now.transaction ∷ [])) result }
        ensures quiet { IfSome result (λ b. IsTrue (is_quiet b)) }
        ensures numberless { IfSome result (λ b. IsTrue (tells_no_step b)) }
    {
        if !self.is_open() {
            return None;
        }
        match group_asked(alloc, key, incomplete) {
            Ok(group) => self.refusal(alloc, group.as_ref()),
            Err(_) => Some(Body::NoMemory),
        }
    }
}

/// Touches a group that may be touched, for which there is room.
fn touch(txn: &mut Txn, group: Key, place: u64)
    requires allowed { group_refusal (Some (transaction_of txn.old)) (Some group) ≡ None }
    requires room { 0 < txn.old.touch_spare }
    ensures touched { transaction_of txn.new ≡ touching group place (transaction_of txn.old) }
    ensures write_room { txn.new.write_spare ≡ txn.old.write_spare }
{
    if txn.touch(group, place).is_err() {
        unreachable!();
    }
}

/// Takes a write, for which there is room.
fn add_write(txn: &mut Txn, write: Write)
    requires room { 0 < txn.old.write_spare }
    requires few { length txn.old.writes < most_writes }
    ensures { transaction_of txn.new ≡ writing write (transaction_of txn.old) }
{
    let taken = match write {
        Write::Put(entity) => txn.put(entity).is_ok(),
        Write::Delete(key) => txn.delete(key).is_ok(),
    };
    if !taken {
        unreachable!();
    }
}
