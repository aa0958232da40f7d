//! Looking at the journal, and at the id counter, and drawing ids.
ghost use Rattle.std.specs.Prelude.{◌≡◌, ◌+◌, ◌<◌, ◌≤◌, IfOk, IfErr, None, Some, length};
ghost use Rattle.ds_base.specs.Limits.{greatest_id};
ghost use Rattle.ds_log.specs.Ids.{unissued_id};
ghost use Rattle.ds_store_passes.specs.Answered.{HasLooked, HasDrawn, HasSeenNext, AreAtLeast};
ghost use Rattle.ds_store_passes.specs.Passes.{HasRead};

use crate::store::Store;
use ds_base::Counts;
use ds_base::limits::FIRST_DRAWN_ID;
use ds_journal::{IdNotIssued, IdsExhausted};
use ds_store_hubs::Names;
use ds_store_passes::Pass;
use std::sync::Wait;

impl<J: Names, H: Wait + Drop> Store<J, H> {
    /// Looks at the journal, and gives the place of all commits: the place at which a transaction reads a group that it touches now. It
    /// takes no memory.
    pub fn touch<R: Wait>(&self, rt: &R, pass: &mut Pass<J>) -> u64
        ensures looked { HasLooked pass.old pass.new result }
        ensures same { (pass.new.lists ≡ pass.old.lists) × (pass.new.next ≡ pass.old.next) }
    {
        let mut desk = self.lock_at(rt, pass.place());
        desk.show(rt, pass)
    }

    /// Draws the next `count` ids, at least one, and gives the first of them: they are `first` up to but without `first + count`.
    /// `IdsExhausted` comes exactly where that is above 2^63 - 1. It takes no memory.
    pub fn issue<R: Wait>(
        &self,
        rt: &R,
        pass: &mut Pass<J>,
        count: u64,
    ) -> Result<u64, IdsExhausted>
        requires { 1 ≤ count }
        ensures drawn { IfOk result (λ first. HasDrawn pass.old pass.new first count) }
        ensures exhausted { IfErr result (λ refused. HasSeenNext pass.old pass.new refused.next × (greatest_id < refused.next + count)) }
    {
        let mut desk = self.lock_at(rt, 0);
        desk.issue(rt, &self.words.ids, pass, count)
    }

    /// Whether an id may stand in a written key: refused exactly where it is at least 2^52 and not below the id counter, which is
    /// looked at. It takes no memory.
    pub fn check_id<R: Wait>(&self, rt: &R, pass: &mut Pass<J>, id: u64) -> Result<(), IdNotIssued>
        ensures seen { HasSeenNext pass.old pass.new pass.new.next }
        ensures issued { IfOk result (λ _. unissued_id pass.new.next id ≡ None) }
        ensures refused { IfErr result (λ refused. (refused ≡ record { id = id; next = pass.new.next })
            × (unissued_id pass.new.next id ≡ Some id)) }
    {
        let next = self.next_id(rt, pass);
        if FIRST_DRAWN_ID <= id && next <= id {
            return Err(IdNotIssued { id, next });
        }
        Ok(())
    }

    /// The id counter, by one look while the journal's lock is held. It takes no memory.
    pub fn next_id<R: Wait>(&self, rt: &R, pass: &mut Pass<J>) -> u64
        ensures { HasSeenNext pass.old pass.new result }
    {
        let _desk = self.lock_at(rt, 0);
        pass.look(&self.words.ids);
        pass.next()
    }
}
