//! Handing out commits.
ghost use Rattle.std.specs.Prelude.{◌≡◌, ◌≤◌, ◌++◌, All, IfOk, OnErr, OnOk, length, take, drop};
ghost use Rattle.ds_base.specs.Limits.{first_drawn_id, greatest_id};
ghost use Rattle.ds_log.specs.Ids.{AllIssued};
ghost use Rattle.ds_log.specs.Conflicts.{IsSerial};
ghost use Rattle.ds_store_passes.specs.Answered.{AreSince};
ghost use Rattle.ds_store_passes.specs.Passes.{HasRead};

use crate::desk::JournalDesk;
use ds_base::{NoMemory, TryCopy};
use ds_draw::Word;
use ds_log::{Commit, Commits};
use ds_store_hubs::Names;
use ds_store_passes::{Pass, Since};
use std::alloc::{AllocError, Global};
use std::sync::Wait;

impl<J: Names, H: Wait + Drop> JournalDesk<J, H> {
    /// The commits above `from`, which is not above the pass's place, up to the journal's length, and the id counter: each id of 2^52 or
    /// more in a written key is below it. A refusal means out of memory.
    pub fn hand_out<R: Wait>(
        &mut self,
        rt: &R,
        alloc: Global,
        ids: &Word,
        pass: &mut Pass<J>,
        from: u64,
    ) -> Result<Since, NoMemory>
        requires place { pass.old.place ≤ length self.old.book.journal }
        requires from { from ≤ pass.old.place }
        requires ids { ids.now.name ≡ J.ids }
        ensures since { IfOk result (λ s. AreSince pass.old pass.new from s.place s.next s.commits) }
        ensures serial { IfOk result (λ s. IsSerial pass.new.journal) }
        ensures issued { IfOk result (λ s. AllIssued s.next s.commits) }
        ensures drawn { IfOk result (λ s. (first_drawn_id ≤ s.next) × (s.next ≤ greatest_id)) }
        ensures read { OnErr result (HasRead pass.old pass.new) }
    {
        let place = self.show(rt, pass);
        pass.look_past(rt, ids, self.book.next());
        let commits = copied(alloc, self.book.journal(), from as usize)?;
        Ok(Since {
            commits,
            place,
            next: pass.next(),
        })
    }
}

/// Copies of the commits behind the first `from`.
fn copied(alloc: Global, journal: &[Commit], from: usize) -> Result<Commits, NoMemory>
    requires { from ≤ length journal.now }
    ensures { IfOk result (λ commits. commits ≡ drop from journal.now) }
{
    let mut commits = Commits::new(alloc);
    for commit in &journal[from..] {
        commits.push(commit.copy(alloc)?).map_err(|_| AllocError)?;
    }
    Ok(commits)
}
