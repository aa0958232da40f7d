//! What a step reads of the store, and what it changes of it.
ghost use Rattle.std.specs.Prelude.{◌≡◌, ◌<◌, ◌&&◌, true, length, nat_lt, IfOk, OnOk};
ghost use Rattle.ds_model.specs.Sessions.{count_of, list_of};
ghost use Rattle.ds_machine.specs.Gathering.{counts_applied, is_pending};
ghost use Rattle.ds_machine.specs.Missing.{shown};
ghost use Rattle.ds_machine.specs.Reads.{IsPulled};
ghost use Rattle.ds_machine.specs.States.{AreUpTo};

use crate::state::State;
use ds_base::NoMemory;
use std::alloc::Global;

impl State {
    /// The journal's length.
    pub fn length(&self) -> u64
        ensures { result ≡ length self.now.store.journal }
    {
        self.book.journal().len() as u64
    }

    /// How many entries of a shard are applied.
    pub fn count(&self, shard: u32) -> u64
        requires { shard < self.now.store.shards }
        ensures value { result ≡ count_of self.now.applied.counts shard }
        ensures counted { shard < length self.now.applied.counts }
    {
        // the state's invariant bounds the shards
        let _ = &self.shards;
        self.applied.count(shard)
    }

    /// A shard applies its next entry; false where it has none, or isn't there. A refusal means out of memory.
    #[tactic(auto, using(crate::proofs::Citing::count_laws))]
    pub fn apply_there(&mut self, alloc: Global, shard: u32) -> Result<bool, NoMemory>
        ensures applied { IfOk result (λ applied. applied ≡ (nat_lt shard self.old.store.shards && is_pending (shown self.old) shard)) }
        ensures store { self.new.store ≡ self.old.store }
        ensures counts { OnOk result (self.new.applied.counts ≡ counts_applied (shown self.old) shard) }
        ensures grows { AreUpTo self.old.applied.counts self.new.applied.counts }
    {
        if shard >= self.shards() {
            return Ok(false);
        }
        self.pull(alloc)?;
        if !self.has_pending(shard) {
            return Ok(false);
        }
        self.applied.apply_one(alloc, shard)?;
        Ok(true)
    }

    /// Whether a shard has an entry that isn't applied, once each commit of the journal was looked at.
    fn has_pending(&self, shard: u32) -> bool
        requires pulled { IsPulled self.now }
        requires shard { shard < self.now.store.shards }
        ensures value { result ≡ is_pending (shown self.now) shard }
        ensures left { result ≡ true → count_of self.now.applied.counts shard < length (list_of self.now.applied.lists shard) }
    {
        // the state's invariant: its shards follow the journal
        let _ = &self.shards;
        self.applied.count(shard) < self.applied.entries(shard)
    }
}
