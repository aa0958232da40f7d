//! A step of a client whose request is open: what it changes of the store, and what the request gathers by it.
ghost use Rattle.std.specs.Prelude.{◌≡◌, ◌≤◌, ◌<◌, length, slice_index_or, None, IfOk, IfSome, OnErr, OnOk};
ghost use Rattle.ds_machine.specs.Gathering.{counts_by, draws, gathered_by, gathers_entry, gathers_view, settles, store_by};
ghost use Rattle.ds_machine.specs.Missing.{shown};
ghost use Rattle.ds_machine.specs.States.{AreUpTo};

use crate::state::State;
use ds_base::NoMemory;
use ds_base::limits::MAX_ID;
use ds_effects::{Gathered, Step};
use ds_protocol::Operation;
use std::alloc::Global;

impl State {
    /// Takes a step: an Apply applies the shard's next entry, if there is one; and the open request gathers what it calls for. A shard that
    /// isn't there has no steps, and a Commit is taken by the reply. A refusal means out of memory.
    #[tactic(auto, using(crate::proofs::Citing::count_laws))]
    pub fn step(
        &mut self,
        alloc: Global,
        operation: &Operation,
        gathered: &mut Gathered,
        step: Step,
    ) -> Result<(), NoMemory>
        requires views { length gathered.old.views ≡ self.old.store.shards }
        requires place { IfSome gathered.old.place (λ m. m ≤ length self.old.store.journal) }
        ensures gathered { OnOk result (gathered.new ≡ gathered_by (shown self.old) operation.now gathered.old step) }
        ensures store { OnOk result (self.new.store ≡ store_by self.old operation.now gathered.old step) }
        ensures counts { OnOk result (self.new.applied.counts ≡ counts_by (shown self.old) step) }
        ensures err { OnErr result (self.new.store ≡ self.old.store) }
        ensures grows { AreUpTo self.old.applied.counts self.new.applied.counts }
    {
        match step {
            Step::Commit => Ok(()),
            Step::Touch => {
                gathered.touch(self.length());
                Ok(())
            }
            Step::View { shard } => self.view(alloc, operation, gathered, shard),
            Step::Issue { count } => {
                self.issue(operation, gathered, count);
                Ok(())
            }
            Step::Apply { shard } => self.apply(alloc, operation, gathered, shard),
        }
    }

    /// Takes a step of a client that has no request open: an Apply alone does something.
    #[tactic(auto, using(crate::proofs::Citing::count_laws))]
    pub fn step_alone(&mut self, alloc: Global, step: Step) -> Result<(), NoMemory>
        ensures store { self.new.store ≡ self.old.store }
        ensures counts { OnOk result (self.new.applied.counts ≡ counts_by (shown self.old) step) }
        ensures grows { AreUpTo self.old.applied.counts self.new.applied.counts }
    {
        match step {
            Step::Apply { shard } => match self.apply_there(alloc, shard) {
                Ok(_) => Ok(()),
                Err(refused) => Err(refused),
            },
            _ => Ok(()),
        }
    }

    fn view(
        &mut self,
        alloc: Global,
        operation: &Operation,
        gathered: &mut Gathered,
        shard: u32,
    ) -> Result<(), NoMemory>
        requires views { length gathered.old.views ≡ self.old.store.shards }
        requires place { IfSome gathered.old.place (λ m. m ≤ length self.old.store.journal) }
        ensures gathered { OnOk result (gathered.new ≡ gathered_by (shown self.old) operation.now gathered.old (Step.View shard)) }
        ensures store { self.new.store ≡ self.old.store }
        ensures counts { self.new.applied.counts ≡ self.old.applied.counts }
    {
        if shard >= self.shards() {
            return Ok(());
        }
        if !self.gathers_view(alloc, operation, gathered, shard)? {
            return Ok(());
        }
        let count = self.count(shard);
        gathered.view(shard, count);
        Ok(())
    }

    /// Whether the request gathers the count of a shard as it is.
    fn gathers_view(
        &mut self,
        alloc: Global,
        operation: &Operation,
        gathered: &Gathered,
        shard: u32,
    ) -> Result<bool, NoMemory>
        requires shard { shard < self.old.store.shards }
        requires views { length gathered.now.views ≡ self.old.store.shards }
        requires place { IfSome gathered.now.place (λ m. m ≤ length self.old.store.journal) }
        ensures value { IfOk result (λ b. b ≡ gathers_view (shown self.old) operation.now gathered.now shard) }
        ensures store { self.new.store ≡ self.old.store }
        ensures counts { self.new.applied.counts ≡ self.old.applied.counts }
    {
        match operation {
            Operation::Settle => self.settles(alloc, gathered, shard),
            _ => Ok(gathered.viewed(shard).is_none()),
        }
    }

    /// Whether the shard covers the place of a settle, and its View doesn't yet.
    fn settles(&mut self, alloc: Global, gathered: &Gathered, shard: u32) -> Result<bool, NoMemory>
        requires shard { shard < self.old.store.shards }
        requires views { length gathered.now.views ≡ self.old.store.shards }
        requires place { IfSome gathered.now.place (λ m. m ≤ length self.old.store.journal) }
        ensures value { IfOk result (λ b. b
            ≡ settles (shown self.old) shard gathered.now.place (slice_index_or gathered.now.views shard None)) }
        ensures store { self.new.store ≡ self.old.store }
        ensures counts { self.new.applied.counts ≡ self.old.applied.counts }
    {
        // the state's invariant bounds the shards
        let _ = &self.shards;
        let Some(place) = gathered.place() else {
            return Ok(false);
        };
        self.pull(alloc)?;
        let up_to = self.applied.entries_up_to(shard, place);
        if gathered.has_covered(shard, up_to) {
            return Ok(false);
        }
        Ok(up_to <= self.applied.count(shard))
    }

    fn issue(&mut self, operation: &Operation, gathered: &mut Gathered, count: u64)
        ensures gathered { gathered.new ≡ gathered_by (shown self.old) operation.now gathered.old (Step.Issue count) }
        ensures store { self.new.store ≡ store_by self.old operation.now gathered.old (Step.Issue count) }
        ensures applied { self.new.applied ≡ self.old.applied }
    {
        if self.draws(operation, gathered, count) {
            let first = self.book.next();
            gathered.draw(first);
            self.book.raise(first + count);
        }
    }

    /// Whether so many ids are asked for, none are drawn yet, and so many are left.
    fn draws(&self, operation: &Operation, gathered: &Gathered, count: u64) -> bool
        ensures { result ≡ draws (shown self.now) operation.now gathered.now count }
    {
        if count == 0 || count != operation.ids_asked() || gathered.first().is_some() {
            return false;
        }
        count <= MAX_ID - self.book.next()
    }

    #[tactic(auto, using(crate::proofs::Stepped::entry_gathered))]
    fn apply(
        &mut self,
        alloc: Global,
        operation: &Operation,
        gathered: &mut Gathered,
        shard: u32,
    ) -> Result<(), NoMemory>
        ensures gathered { OnOk result (gathered.new ≡ gathered_by (shown self.old) operation.now gathered.old (Step.Apply shard)) }
        ensures store { self.new.store ≡ self.old.store }
        ensures counts { OnOk result (self.new.applied.counts ≡ counts_by (shown self.old) (Step.Apply shard)) }
        ensures grows { AreUpTo self.old.applied.counts self.new.applied.counts }
    {
        let applied = self.apply_there(alloc, shard)?;
        if !applied {
            return Ok(());
        }
        if !gathers_entry(operation, gathered, shard) {
            return Ok(());
        }
        let count = self.count(shard);
        gathered.apply(count);
        Ok(())
    }
}

/// Whether it is an apply of the shard that has its place.
fn gathers_entry(operation: &Operation, gathered: &Gathered, shard: u32) -> bool
    ensures { result ≡ gathers_entry operation.now gathered.now shard }
{
    match operation {
        Operation::Apply { shard: own } => *own == shard as u64 && gathered.place().is_some(),
        _ => false,
    }
}
