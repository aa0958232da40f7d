//! What is known of the shards' entries at the end.
ghost use Rattle.std.specs.Prelude.{◌≡◌, ℕ, ◌<◌, ◌≤◌, All, length};
ghost use mathlib.Core.List.{IsPrefix};
ghost use Rattle.ds_log.specs.Logs.{shard_list};
ghost use Rattle.ds_model.specs.Sessions.{list_of};

use crate::shard_desk::ShardDesk;
use ds_hub::Writer;
use ds_store_hubs::{JournalState, Names};
use ds_store_passes::Pass;
use std::mem::forget;
use std::sync::{Condvar, Mutex, Wait};
use std::time::Duration;

/// Shows that all entries that the passes saw begin the shards' lists of the journal, which the journal's writer tells. The shards' memory
/// isn't given back: to free both copies of each row by row would take a good part of a run.
pub fn confirm_shards<J: Names, H: Wait + Drop, R: Wait>(
    rt: &R,
    journal: &Writer<(), JournalState>,
    shards: Vec<Mutex<ShardDesk<J, H>>>,
    passes: &[Pass<J>],
)
    requires hub { journal.now.hub ≡ J.journal }
    requires many { length shards.items ≡ length J.shards }
    requires few { length J.shards ≤ 16 }
    ensures { (s : ℕ) → s < length J.shards
        → All (λ p. IsPrefix (list_of p.lists s) (shard_list journal.now.published s (length J.shards))) passes.now }
{
    let mut number = 0;
    for shard in shards {
        let shard = shard.into_inner();
        confirm_shard(rt, journal, &shard, number, passes);
        forget(shard);
        number += 1;
    }
}

/// Shows it of one shard. It waits for the desk to be that shard's, which it is.
fn confirm_shard<J: Names, H: Wait + Drop, R: Wait>(
    rt: &R,
    journal: &Writer<(), JournalState>,
    shard: &ShardDesk<J, H>,
    number: u32,
    passes: &[Pass<J>],
)
    requires { journal.now.hub ≡ J.journal }
    ensures { All (λ p. IsPrefix (list_of p.lists number) (shard_list journal.now.published number (length J.shards))) passes.now }
{
    is_of(rt, shard, number);
    for pass in passes {
        confirm_slot(rt, journal, shard, pass);
    }
}

/// The desk's number is this one. It never returns where another desk lies under the shard's lock, which never is: what lies there is known
/// by its type alone.
fn is_of<J: Names, H: Wait + Drop, R: Wait>(rt: &R, shard: &ShardDesk<J, H>, number: u32)
    ensures { shard.now.number ≡ number }
{
    if shard.number == number {
        return;
    }
    sleep_for_ever(rt);
    unreachable!()
}

/// Doesn't return.
fn sleep_for_ever<R: Wait>(rt: &R)
    ensures { ⊥ }
{
    let never = Condvar::new();
    for _ in rt.forever() {
        never.sleep(rt, never.notifications(), Duration::from_secs(1));
    }
    unreachable!()
}

/// Shows it of one shard and one pass: what the pass saw begins what the shard has published, which begins the shard's list of the
/// commits that the shard's own reader knows, and these begin the journal.
fn confirm_slot<J: Names, H: Wait + Drop, R: Wait>(
    rt: &R,
    journal: &Writer<(), JournalState>,
    shard: &ShardDesk<J, H>,
    pass: &Pass<J>,
)
    requires { journal.now.hub ≡ J.journal }
    ensures { IsPrefix (list_of pass.now.lists shard.now.number) (shard_list journal.now.published shard.now.number (length J.shards)) }
{
    journal.confirm(rt, &shard.journal);
    shard.confirm_pass(rt, pass);
}
