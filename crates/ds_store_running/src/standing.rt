//! Where strong reads stand.
ghost use Rattle.std.specs.Prelude.{◌≡◌, ◌≤◌, ◌<◌, None, length, IfOk, IfSome, OnOk};
ghost use Rattle.ds_model.specs.Sessions.{list_of};
ghost use Rattle.ds_store_passes.specs.Passes.{HasRead};
ghost use Rattle.ds_store_shards.specs.Standing.{StandsAt};

use crate::store::Store;
use ds_base::NoMemory;
use ds_store_hubs::Names;
use ds_store_journal::JournalDesk;
use ds_store_passes::Pass;
use ds_store_shards::{ShardDesk, Stand, stand_known};
use std::sync::Wait;

impl<J: Names, H: Wait + Drop> Store<J, H> {
    /// Applies a shard's entries up to a place, and enters the shard for the pass; where there is an entry of later commits, it stays
    /// waiting. The place is the given one, and else that of all commits that the shard's desk knows, which are no fewer than the pass
    /// has seen. The place is taken and the shard entered while the shard's lock is held, so that without a given place nothing is
    /// published between the two. A refusal means out of memory, or that the shard's hub has ended.
    pub(crate) fn stand<R: Wait>(
        &self,
        rt: &R,
        pass: &mut Pass<J>,
        shard: u32,
        at: Option<u64>,
    ) -> Result<Stand, NoMemory>
        requires shard { shard < self.now.shards }
        requires at { IfSome at (λ place. place ≤ pass.old.place) }
        ensures stands { IfOk result (λ s. StandsAt self.now.shards pass.old pass.new shard at s.place s.entries) }
        ensures all { at ≡ None → IfOk result (λ s. s.entries ≡ length (list_of pass.new.lists shard)) }
        ensures read { HasRead pass.old pass.new }
    {
        let mut desk = self.desk_of(rt, shard)?;
        self.stand_with(rt, pass, &mut desk, at)
    }

    /// The same, with the shard's desk.
    fn stand_with<R: Wait>(
        &self,
        rt: &R,
        pass: &mut Pass<J>,
        desk: &mut ShardDesk<J, H>,
        at: Option<u64>,
    ) -> Result<Stand, NoMemory>
        requires { IfSome at (λ place. place ≤ pass.old.place) }
        ensures stands { IfOk result (λ s. StandsAt desk.old.shards pass.old pass.new desk.old.number at s.place s.entries) }
        ensures all { at ≡ None → IfOk result (λ s. s.entries ≡ length (list_of pass.new.lists desk.old.number)) }
        ensures read { HasRead pass.old pass.new }
    {
        self.catch_up(rt, desk, at.unwrap_or(pass.least_place()), false)?;
        stand_known(rt, pass, desk, at)
    }

    /// Lets a shard's desk know at least so many commits: it looks at the journal where it knows fewer, or where it is to look anyway.
    /// `Err` means out of memory; then it knows what it knew.
    pub(crate) fn catch_up<R: Wait>(
        &self,
        rt: &R,
        desk: &mut ShardDesk<J, H>,
        least: u64,
        anyway: bool,
    ) -> Result<(), NoMemory>
        ensures known { OnOk result (least ≤ length desk.new.journal.known) }
        ensures same { (desk.new.number ≡ desk.old.number) × (desk.new.shards ≡ desk.old.shards)
            × (desk.new.writer.writer ≡ desk.old.writer.writer) }
    {
        if !anyway && desk.journal.len() >= least {
            return Ok(());
        }
        let mut guard = self.lock_at(rt, least);
        let journal: &mut JournalDesk<J, H> = &mut guard;
        desk.fetch(
            rt,
            self.alloc,
            journal.book.journal(),
            &mut journal.writer.writer,
        )
    }
}
