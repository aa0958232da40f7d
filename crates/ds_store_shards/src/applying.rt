//! Applying a shard's entries.
ghost use Rattle.std.specs.Prelude.{◌+◌, ◌≤◌, max, IfOk, IsTrue, OnErr, length};
ghost use Rattle.ds_store_passes.specs.Answered.{HasApplied};
ghost use Rattle.ds_store_passes.specs.Passes.{HasRead};
ghost use Rattle.ds_store_shards.specs.Applying.{IsFew};
ghost use Rattle.ds_store_shards.specs.Standing.{IsSettled};

use crate::shard_desk::ShardDesk;
use ds_base::NoMemory;
use ds_store_hubs::Names;
use ds_store_passes::{Applied, Pass};
use std::sync::Wait;

/// Applies the next entries of a shard, `most` at most, whose desk knows no fewer commits than the pass has seen and stands at. A refusal
/// means out of memory.
pub fn apply_known<J: Names, H: Wait + Drop, R: Wait>(
    rt: &R,
    pass: &mut Pass<J>,
    desk: &mut ShardDesk<J, H>,
    most: u64,
) -> Result<Applied, NoMemory>
    requires some { 1 ≤ most }
    requires known { max pass.old.place (length pass.old.journal) ≤ length desk.old.journal.known }
    ensures few { IfOk result (λ a. IsTrue a.moved → IsFew (length desk.old.writer.writer.published
        + length desk.old.writer.writer.pending) (length desk.new.writer.writer.published) most) }
    ensures applied { IfOk result (λ a. HasApplied desk.old.shards pass.old pass.new desk.old.number a.moved a.count a.place a.commit) }
    ensures read { OnErr result (HasRead pass.old pass.new) }
{
    pass.see_commits(&desk.journal);
    let place = desk.journal.len();
    pass.stand(place);
    desk.show(rt, pass);
    let moved = desk.apply_next(rt, most)?;
    desk.show(rt, pass);
    let commit = desk.last();
    pass.stand(commit);
    Ok(Applied {
        moved,
        count: desk.writer.writer.published(),
        place,
        commit,
    })
}

/// Applies a shard's entries up to a place, of which its desk knows all commits. A refusal means out of memory; it may then have applied
/// some.
pub fn settle_known<J: Names, H: Wait + Drop, R: Wait>(
    rt: &R,
    pass: &mut Pass<J>,
    desk: &mut ShardDesk<J, H>,
    place: u64,
) -> Result<Applied, NoMemory>
    requires known { place ≤ length desk.old.journal.known }
    ensures settled { IfOk result (λ a. IsSettled desk.old.shards pass.old pass.new desk.old.number place a.count a.commit) }
    ensures read { OnErr result (HasRead pass.old pass.new) }
{
    pass.see_commits(&desk.journal);
    let entries = desk.entries_up_to(place);
    desk.apply_up_to(rt, entries)?;
    desk.show(rt, pass);
    let commit = desk.last();
    pass.stand(commit);
    Ok(Applied {
        moved: false,
        count: desk.writer.writer.published(),
        place,
        commit,
    })
}
