//! Replies to settle and apply.
ghost use Rattle.std.specs.Prelude.{◌≡◌, ◌<◌, ◌≤◌, ◌↔◌, length, IfOk, IsTrue};
ghost use Rattle.ds_applied.specs.AppliedLists.{AreCounts};
ghost use Rattle.ds_request.specs.declared.call.Call.{Call};
ghost use Rattle.ds_model.specs.Answers.{AppliedCount, CallAnswers};
ghost use Rattle.ds_model.specs.Sessions.{list_of, saw_counts, saw_place, saw_shard_count};
ghost use Rattle.ds_model.specs.Worlds.{shard_lists};
ghost use Rattle.ds_judging_lines.specs.Deciding.{DecidesTurn, IsSession, world_in};

use crate::sessions::seen_count;
use crate::turn::Turn;
use ds_base::{Counts, NoMemory};
use ds_protocol::{CountSeen, Session};
use ds_reply::Body;
use std::alloc::Global;

/// The body, where it is an answer to a settle.
pub fn judge_settle(turn: &Turn<'_>, session: &mut Session) -> Result<Option<Body>, NoMemory>
    requires session { IsSession turn.now session.old }
    ensures decided { IfOk result (λ found. DecidesTurn turn.now
        (λ said after. CallAnswers (world_in turn.now) turn.now.client session.old Call.Settle said after) found
        session.new) }
    ensures kept { IfOk result (λ found. IsSession turn.now session.new) }
{
    let Some(place) = turn.place(session) else {
        return Ok(None);
    };
    let Some(counts) = turn.counts(session, place)? else {
        return Ok(None);
    };
    let applied = copy_counts(turn.alloc, counts.as_slice())?;
    let Some(said) = turn.said(Body::Settle { place, applied })? else {
        return Ok(None);
    };
    session.see_place(place);
    see_counts(turn, session, counts.as_slice());
    Ok(Some(said))
}

pub fn copy_counts(alloc: Global, counts: &[u64]) -> Result<Counts, NoMemory>
    ensures { IfOk result (λ copy. copy ≡ counts.now) }
{
    let mut copy = Vec::with_capacity(alloc, counts.len())?;
    for count in counts {
        copy.push(*count)?;
    }
    Ok(Counts::from(copy))
}

/// These counts were shown.
pub fn see_counts(turn: &Turn<'_>, session: &mut Session, counts: &[u64])
    requires { AreCounts (shard_lists turn.now.run.now.history.shards turn.now.run.now.history.journal) counts.now }
    ensures seen { session.new
        ≡ saw_counts (shard_lists turn.now.run.now.history.shards turn.now.run.now.history.journal) counts.now session.old }
    ensures kept { IsSession turn.now session.old → IsSession turn.now session.new }
{
    let commit = turn.run.history.counted_place(counts);
    session.seen.see_counts(counts, commit);
}

/// A place and a count of one shard were shown.
pub fn see_count(turn: &Turn<'_>, session: &mut Session, place: u64, shard: u32, count: u64)
    requires shard { shard < turn.now.run.now.history.shards }
    requires count { count ≤ length (list_of (shard_lists turn.now.run.now.history.shards turn.now.run.now.history.journal) shard) }
    ensures seen { session.new
        ≡ saw_shard_count (shard_lists turn.now.run.now.history.shards turn.now.run.now.history.journal) shard count
        (saw_place place session.old) }
    ensures kept { IsSession turn.now session.old → IsSession turn.now session.new }
{
    let commit = turn.run.history.last_commit(shard, count);
    session.see_one(&CountSeen {
        place,
        shard,
        count,
        commit,
    });
}

/// The body, where it is an answer to an apply of this shard.
pub fn judge_apply(
    turn: &Turn<'_>,
    session: &mut Session,
    shard: u32,
) -> Result<Option<Body>, NoMemory>
    requires session { IsSession turn.now session.old }
    requires shard { shard < turn.now.run.now.history.shards }
    ensures decided { IfOk result (λ found. DecidesTurn turn.now
        (λ said after. CallAnswers (world_in turn.now) turn.now.client session.old (Call.Apply shard) said after) found
        session.new) }
    ensures kept { IfOk result (λ found. IsSession turn.now session.new) }
{
    let Some(place) = turn.place(session) else {
        return Ok(None);
    };
    let Some(count) = turn.told.number("count") else {
        return Ok(None);
    };
    let Some(applied) = turn.told.flag("applied") else {
        return Ok(None);
    };
    let seen = seen_count(session, shard);
    let up_to = turn.run.history.entries_up_to(shard, place);
    if !fits(applied, seen, up_to, count) {
        return Ok(None);
    }
    if count > turn.run.history.entries(shard) {
        return Ok(None);
    }
    let body = Body::Apply {
        applied,
        count,
        place,
        shard,
    };
    let Some(said) = turn.said(body)? else {
        return Ok(None);
    };
    see_count(turn, session, place, shard, count);
    Ok(Some(said))
}

/// Whether an apply may tell this count, where one was seen and so many entries are of the commits up to the told place.
fn fits(applied: bool, seen: u64, up_to: u64, count: u64) -> bool
    ensures { IsTrue result ↔ AppliedCount applied seen up_to count }
{
    if applied {
        seen < count && count <= up_to
    } else {
        seen <= count && up_to <= count
    }
}
