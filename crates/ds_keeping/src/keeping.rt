//! Keeping what a round committed and drew: a pass of the store catches up with those of the sessions, and what it then sees behind the
//! kept journal is appended to the disk.
ghost use Rattle.std.specs.Prelude.{◌≡◌, ◌+◌, ◌≤◌, All, Err, IfOk, IsTrue, length};
ghost use mathlib.Core.List.{IsPrefix};
ghost use Rattle.ds_base.specs.Limits.{greatest_id, most_writes};
ghost use Rattle.ds_disk.specs.Crashes.{LeavesOnly};
ghost use Rattle.ds_keeping.specs.Holding.{AreCovered, StandsWith, kept_at};
ghost use Rattle.ds_keeping.specs.Moments.{IsBetween};
ghost use Rattle.ds_io.specs.Faults.{Rose};
ghost use Rattle.ds_keep.specs.Keepers.{IsSettled, MayAppend, StandsForEither, batch_of};
ghost use Rattle.ds_kept_file.specs.Files.{Kept, with_batch};
ghost use Rattle.ds_store.specs.Passes.{HasRead};

use ds_base::Counts;
use ds_clients::Sessions;
use ds_disk::Disk;
use ds_keep::{Keeper, Stopped};
use ds_store::{Names, Pass, Since, Store, Tail};
use std::alloc::Global;
use std::sync::Wait;

/// What follows the journal of a running store for the keeper.
#[derive(Drop)]
pub struct Follower<J: Names> {
    /// It has seen all that is kept.
    pub pass: Pass<J>,
    /// From where it is told what stands behind the kept commits.
    pub tail: Tail<J>,
    /// As many zeros as there are shards: the pass waits for no entry to be applied.
    pub counts: Counts,
}

/// Why what a round committed and drew isn't kept.
#[derive(Clone, Copy, Drop)]
pub enum Unkept {
    /// A call of the disk failed.
    DiskFault,
    /// There was no memory, or the journal would have more than 2^48 commits.
    NoMemory,
}

/// Keeps all that the sessions' passes committed and drew: the follower's pass catches up with theirs, and what it then sees behind the
/// kept commits is appended as one batch, if there is any, or if the id counter grew. A refusal ends the keeper; `DiskFault` comes only
/// where the disk's count of faults rose in this call. At every moment, also inside the call, a crash leaves what was kept, or that with
/// the new batch. It is linear in the new commits.
pub fn keep_round<J: Names, R: Wait, H: Wait + Drop, D: Disk>(
    rt: &R,
    alloc: Global,
    store: &Store<J, H>,
    sessions: &Sessions<J>,
    follower: &mut Follower<J>,
    keeper: Keeper,
    disk: &mut D,
) -> Result<Keeper, Unkept>
    requires counts { length follower.old.counts ≡ store.now.shards }
    requires stands { StandsWith keeper follower.old.pass }
    requires settled { IsTrue (D.is_honest disk.old)
        → IsSettled D.is_honest D.contents D.images keeper (kept_at follower.old.pass keeper.next) disk.old }
    ensures read { HasRead follower.old.pass follower.new.pass }
    ensures counts { follower.new.counts ≡ follower.old.counts }
    ensures stands { IfOk result (λ k. StandsWith k follower.new.pass) }
    ensures rises { IfOk result (λ k. (keeper.commits ≤ k.commits) × (keeper.next ≤ k.next)) }
    ensures covered { IfOk result (λ k. AreCovered k.commits k.next sessions.now) }
    ensures settled { IfOk result (λ k. IsTrue (D.is_honest disk.old)
        → IsSettled D.is_honest D.contents D.images k (kept_at follower.new.pass k.next) disk.new) }
    ensures any_moment { IsTrue (D.is_honest disk.old) → LeavesOnly D.moment D.left_since disk.old disk.new
        (IsBetween (kept_at follower.old.pass keeper.next) follower.new.pass.journal) }
    ensures failed_by_a_fault { result ≡ Err Unkept.DiskFault → Rose (D.faults disk.old) (D.faults disk.new) }
    ensures faults_stay_counted { D.faults disk.old ≤ D.faults disk.new }
    ensures honest { D.is_honest disk.new ≡ D.is_honest disk.old }
{
    let shown = sessions.shown();
    store.meet(
        rt,
        &mut follower.pass,
        shown.place,
        &follower.counts,
        shown.next,
    );
    keep_seen(rt, alloc, store, follower, keeper, disk)
}

/// Keeps the commits of the store behind the kept ones, as many as there are now, and its id counter.
fn keep_seen<J: Names, R: Wait, H: Wait + Drop, D: Disk>(
    rt: &R,
    alloc: Global,
    store: &Store<J, H>,
    follower: &mut Follower<J>,
    keeper: Keeper,
    disk: &mut D,
) -> Result<Keeper, Unkept>
    requires place { keeper.commits ≤ follower.old.pass.place }
    requires within { keeper.commits ≤ length follower.old.pass.journal }
    requires next { keeper.next ≤ follower.old.pass.next }
    ensures read { HasRead follower.old.pass follower.new.pass }
    ensures counts { follower.new.counts ≡ follower.old.counts }
    ensures stands { IfOk result (λ k. StandsWith k follower.new.pass) }
    ensures reached { IfOk result (λ k. (follower.old.pass.place ≤ k.commits) × (follower.old.pass.next ≤ k.next)) }
    ensures settled { IfOk result (λ k. (kept : Kept) → IsSettled D.is_honest D.contents D.images keeper kept disk.old
        → IsPrefix kept.journal follower.old.pass.journal
        → IsSettled D.is_honest D.contents D.images k (kept_at follower.new.pass k.next) disk.new) }
    ensures any_moment { (kept : Kept) → IsSettled D.is_honest D.contents D.images keeper kept disk.old
        → IsPrefix kept.journal follower.old.pass.journal
        → LeavesOnly D.moment D.left_since disk.old disk.new (IsBetween kept follower.new.pass.journal) }
    ensures failed_by_a_fault { result ≡ Err Unkept.DiskFault → Rose (D.faults disk.old) (D.faults disk.new) }
    ensures faults_stay_counted { D.faults disk.old ≤ D.faults disk.new }
    ensures honest { D.is_honest disk.new ≡ D.is_honest disk.old }
{
    match store.commits_after(rt, &follower.tail, &mut follower.pass, keeper.kept()) {
        Ok(since) => append_since(alloc, since, keeper, disk),
        Err(_) => Err(Unkept::NoMemory),
    }
}

/// Appends what there is since the last append, if there is any.
fn append_since<D: Disk>(
    alloc: Global,
    since: Since,
    keeper: Keeper,
    disk: &mut D,
) -> Result<Keeper, Unkept>
    requires few { All (λ c. length c.writes ≤ most_writes) since.commits }
    requires rises { keeper.next ≤ since.next }
    requires bounded { since.next ≤ greatest_id }
    ensures numbers { IfOk result (λ k. (k.commits ≡ keeper.commits + length since.commits) × (k.next ≡ since.next)) }
    ensures settled { IfOk result (λ k. (kept : Kept) → IsSettled D.is_honest D.contents D.images keeper kept disk.old
        → MayAppend kept since.commits since.next
        → IsSettled D.is_honest D.contents D.images k (with_batch kept (batch_of since.commits since.next)) disk.new) }
    ensures any_moment { (kept : Kept) → IsSettled D.is_honest D.contents D.images keeper kept disk.old
        → MayAppend kept since.commits since.next
        → LeavesOnly D.moment D.left_since disk.old disk.new (StandsForEither kept (batch_of since.commits since.next)) }
    ensures failed_by_a_fault { result ≡ Err Unkept.DiskFault → Rose (D.faults disk.old) (D.faults disk.new) }
    ensures faults_stay_counted { D.faults disk.old ≤ D.faults disk.new }
    ensures honest { D.is_honest disk.new ≡ D.is_honest disk.old }
{
    if since.commits.len() == 0 && since.next == keeper.kept_next() {
        return Ok(keeper);
    }
    match keeper.append(alloc, disk, &since.commits, since.next) {
        Ok(kept) => Ok(kept),
        Err(Stopped::DiskFault) => Err(Unkept::DiskFault),
        Err(Stopped::NoMemory(_keeper)) => Err(Unkept::NoMemory),
    }
}
