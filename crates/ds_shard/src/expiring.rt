//! Which versions will go as the floor rises.
ghost use Rattle.std.specs.Prelude.{◌≡◌, ℕ, ◌≤◌, [], ◌∷◌, ◌++◌, IfSome, IfNone, OnOk, OnErr};
ghost use Rattle.ds_shard.specs.declared.expiring.Expiry.{Expiry};
ghost use Rattle.ds_shard.specs.Expiries.{AreBy, AreAfter, DoNotFall, others, first_is_due, last_is_at};

use ds_base::{Key, NoMemory};
use std::alloc::Global;
use std::collections::VecDeque;
use std::marker::Model;

/// A version of the entity of this key that ended at the stamp.
#[derive(Drop)]
pub(crate) struct Expiry {
    pub(crate) stamp: u64,
    pub(crate) key: Key,
}

/// The ends of versions in the order of their stamps: so those that a floor takes out stand in front. Contracts see them as a list.
#[derive(Drop)]
pub(crate) struct Expiring {
    queue: VecDeque<Expiry>,
}

impl Model for Expiring {
    ghost use Rattle.std.specs.Prelude.{List};
    ghost use Rattle.ds_shard.specs.declared.expiring.Expiry.{Expiry};
    ghost use Rattle.ds_shard.specs.Expiries.{DoNotFall};

    ghost Value = { List Expiry };

    ghost view = { λ e. e.queue.items };

    ghost invariant = { λ e. DoNotFall e.queue.items };
}

impl Expiring {
    /// No end. It takes no memory.
    pub(crate) fn new(alloc: Global) -> Expiring
        ensures { result ≡ [] }
    {
        Expiring {
            queue: VecDeque::new(alloc),
        }
    }

    /// Notes that a version of this key ended at the stamp, by which all others ended. A refusal means out of memory.
    pub(crate) fn push(&mut self, key: Key, stamp: u64) -> Result<(), NoMemory>
        requires { AreBy stamp self.old }
        ensures noted { OnOk result (self.new ≡ self.old ++ record { stamp = stamp; key = key } ∷ []) }
        ensures unchanged { OnErr result (self.new ≡ self.old) }
    {
        self.queue.push_back(Expiry { stamp, key })?;
        Ok(())
    }

    /// The first end, which is forgotten then, where it is at or before the floor; `None` where there is none. It takes no memory.
    pub(crate) fn pop_due(&mut self, floor: u64) -> Option<Expiry>
        ensures first { IfSome result (λ e. (e.stamp ≤ floor) × (self.old ≡ e ∷ self.new)) }
        ensures none_due { IfNone result (AreAfter floor self.new) }
        ensures unchanged { IfNone result (self.new ≡ self.old) }
    {
        if is_first_due(&self.queue, floor) {
            self.queue.pop_front()
        } else {
            None
        }
    }

    /// Forgets the ends at the stamp that stand behind all others. It takes no memory.
    pub(crate) fn undo(&mut self, stamp: u64)
        ensures same_others { others stamp self.new ≡ others stamp self.old }
        ensures still_by { (most : ℕ) → AreBy most self.old → AreBy most self.new }
    {
        take_off(&mut self.queue, stamp);
    }
}

/// Whether there is an end and the first one is at or before the floor.
fn is_first_due(queue: &VecDeque<Expiry>, floor: u64) -> bool
    ensures { result ≡ first_is_due floor queue.now.items }
{
    match queue.front() {
        Some(first) => first.stamp <= floor,
        None => false,
    }
}

/// Takes off the ends at the stamp that stand behind all others.
fn take_off(queue: &mut VecDeque<Expiry>, stamp: u64)
    requires { DoNotFall queue.old.items }
    ensures fall { DoNotFall queue.new.items }
    ensures same_others { others stamp queue.new.items ≡ others stamp queue.old.items }
    ensures still_by { (most : ℕ) → AreBy most queue.old.items → AreBy most queue.new.items }
{
    while is_last_at(queue, stamp) {
        let _ = queue.pop_back();
    }
}

/// Whether there is an end and the last one is at the stamp.
fn is_last_at(queue: &VecDeque<Expiry>, stamp: u64) -> bool
    ensures { result ≡ last_is_at stamp queue.now.items }
{
    match queue.back() {
        Some(last) => last.stamp == stamp,
        None => false,
    }
}
