//! Applying entries, and meeting what other passes have seen.
ghost use Rattle.std.specs.Prelude.{◌≡◌, ◌<◌, ◌≤◌, ◌++◌, ◌∷◌, [], IfOk, MatchOption, OnErr, OnOk, length};
ghost use Rattle.ds_model.specs.Sessions.{count_of};
ghost use Rattle.ds_shard.specs.Shards.{last_commit};
ghost use Rattle.ds_store_passes.specs.Answered.{HasApplied, HasSettled, AreAtLeast};
ghost use Rattle.ds_store_passes.specs.Passes.{HasRead, counts_of};
ghost use Rattle.ds_store_shards.specs.Standing.{IsSettled};

use crate::store::Store;
use ds_base::{Counts, NoMemory};
use ds_store_hubs::Names;
use ds_store_passes::{Applied, Pass, Settled};
use ds_store_shards::{ShardDesk, apply_known, settle_known};
use std::alloc::AllocError;
use std::sync::Wait;
use std::thread;

/// So many entries at most are applied at once for an applier: readers are waited for once, and the shard's lock isn't held for long.
const MOST_AT_ONCE: u64 = 64;

impl<J: Names, H: Wait + Drop> Store<J, H> {
    /// Applies the next entry of a shard, below the number of shards: `moved` says whether, at the place that it looked at, the shard's
    /// list was longer than its count. A refusal means out of memory.
    pub fn apply_one<R: Wait>(
        &self,
        rt: &R,
        pass: &mut Pass<J>,
        shard: u32,
    ) -> Result<Applied, NoMemory>
        requires { shard < self.now.shards }
        ensures applied { IfOk result (λ a. HasApplied self.now.shards pass.old pass.new shard a.moved a.count a.place a.commit) }
        ensures read { OnErr result (HasRead pass.old pass.new) }
    {
        let mut desk = self.desk_of(rt, shard)?;
        self.apply_with(rt, pass, &mut desk, 1)
    }

    /// Applies the next entries of a shard, at most 64 at once, unless another thread works on the shard: what an applier asks, which then
    /// goes on to another shard. `None` tells of such a thread, or of lack of memory. It may also come without a cause: who is told it
    /// by all shards asks `apply_one`, which waits.
    pub fn apply_if_free<R: Wait>(&self, rt: &R, pass: &mut Pass<J>, shard: u32) -> Option<Applied>
        requires { shard < self.now.shards }
        ensures { MatchOption result (HasRead pass.old pass.new)
            (λ a. HasApplied self.now.shards pass.old pass.new shard a.moved a.count a.place a.commit) }
    {
        let mut desk = self.shards[shard as usize].try_lock()?;
        if desk.number != shard {
            return None;
        }
        self.apply_with(rt, pass, &mut desk, MOST_AT_ONCE).ok()
    }

    /// The same, with the shard's desk.
    fn apply_with<R: Wait>(
        &self,
        rt: &R,
        pass: &mut Pass<J>,
        desk: &mut ShardDesk<J, H>,
        most: u64,
    ) -> Result<Applied, NoMemory>
        requires { 1 ≤ most }
        ensures applied { IfOk result (λ a. HasApplied desk.old.shards pass.old pass.new desk.old.number a.moved a.count a.place a.commit) }
        ensures read { OnErr result (HasRead pass.old pass.new) }
    {
        let anyway = !desk.is_behind();
        self.catch_up(rt, desk, pass.least_place(), anyway)?;
        apply_known(rt, pass, desk, most)
    }

    /// Applies all entries up to a place. A refusal means out of memory; it may then have applied some.
    pub fn settle<R: Wait>(&self, rt: &R, pass: &mut Pass<J>) -> Result<Settled, NoMemory>
        ensures settled { IfOk result (λ s. HasSettled self.now.shards pass.old pass.new s.place s.counts s.commit) }
        ensures read { OnErr result (HasRead pass.old pass.new) }
    {
        let shards = pass.slots();
        let place = self.touch(rt, pass);
        let mut counts = Counts::new(self.alloc);
        let mut commit = 0;
        for shard in 0..shards {
            let applied = self.settle_shard(rt, pass, shard as u32, place)?;
            let Ok(()) = counts.push(applied.count) else {
                return Err(AllocError);
            };
            let greatest = applied.commit.max(commit);
            commit = greatest;
        }
        Ok(Settled {
            place,
            counts,
            commit,
        })
    }

    /// Applies a shard's entries up to a place.
    fn settle_shard<R: Wait>(
        &self,
        rt: &R,
        pass: &mut Pass<J>,
        shard: u32,
        place: u64,
    ) -> Result<Applied, NoMemory>
        requires { shard < self.now.shards }
        ensures settled { IfOk result (λ a. IsSettled self.now.shards pass.old pass.new shard place a.count a.commit) }
        ensures read { OnErr result (HasRead pass.old pass.new) }
    {
        let mut desk = self.desk_of(rt, shard)?;
        self.settle_with(rt, pass, &mut desk, place)
    }

    /// The same, with the shard's desk.
    fn settle_with<R: Wait>(
        &self,
        rt: &R,
        pass: &mut Pass<J>,
        desk: &mut ShardDesk<J, H>,
        place: u64,
    ) -> Result<Applied, NoMemory>
        ensures settled { IfOk result (λ a. IsSettled desk.old.shards pass.old pass.new desk.old.number place a.count a.commit) }
        ensures read { OnErr result (HasRead pass.old pass.new) }
    {
        self.catch_up(rt, desk, place, false)?;
        settle_known(rt, pass, desk, place)
    }

    /// Meets what another pass has seen, with one count for each shard: this pass's place, counts and id counter are then no lower. It
    /// takes a lock again while that shows less. It takes no memory.
    pub fn meet<R: Wait>(&self, rt: &R, pass: &mut Pass<J>, place: u64, counts: &Counts, next: u64)
        requires { length counts.now ≡ self.now.shards }
        ensures read { HasRead pass.old pass.new }
        ensures place { place ≤ pass.new.place }
        ensures counts { AreAtLeast counts.now (counts_of pass.new) }
        ensures next { next ≤ pass.new.next }
    {
        // For the proof alone: there is a slot for each shard.
        let _ = &self.shards;
        let _shards = pass.slots();
        pass.stand(place);
        self.look_up_to(rt, pass, next);
        for (shard, count) in counts.as_slice().iter().enumerate() {
            self.meet_count(rt, pass, shard, *count);
        }
    }

    /// Looks at the id counter until it isn't below `next`.
    pub(crate) fn look_up_to<R: Wait>(&self, rt: &R, pass: &mut Pass<J>, next: u64)
        ensures pass { pass.new ≡ record pass.old { next = pass.new.next } }
        ensures next { (pass.old.next ≤ pass.new.next) × (next ≤ pass.new.next) }
    {
        for _ in rt.forever() {
            if next <= pass.next() {
                return;
            }
            self.next_id(rt, pass);
            thread::yield_now();
        }
        unreachable!()
    }

    /// Sees what a shard has published until it is no fewer entries than `count`.
    pub(crate) fn meet_count<R: Wait>(&self, rt: &R, pass: &mut Pass<J>, shard: usize, count: u64)
        requires shard { shard < self.now.shards }
        requires seen { shard < length pass.old.lists }
        ensures met { count ≤ count_of (counts_of pass.new) shard }
        ensures place { pass.new.place ≡ pass.old.place }
        ensures next { pass.new.next ≡ pass.old.next }
        ensures read { HasRead pass.old pass.new }
    {
        for _ in rt.forever() {
            if count <= pass.count_at(shard) {
                return;
            }
            self.see_published(rt, pass, shard);
            thread::yield_now();
        }
        unreachable!()
    }

    /// Sees all that a shard has published.
    fn see_published<R: Wait>(&self, rt: &R, pass: &mut Pass<J>, shard: usize)
        requires { shard < self.now.shards }
        ensures place { pass.new.place ≡ pass.old.place }
        ensures next { pass.new.next ≡ pass.old.next }
        ensures read { HasRead pass.old pass.new }
    {
        let mut desk = self.shards[shard].lock(rt);
        desk.show(rt, pass);
    }
}
