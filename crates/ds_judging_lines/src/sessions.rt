//! The sessions of all clients, and what one client was shown.
ghost use Rattle.std.specs.Prelude.{◌≡◌, map, IfOk, OnOk};
ghost use Rattle.ds_model.specs.Sessions.{count_of, first_sessions, met};
ghost use Rattle.ds_protocol.specs.Watermarks.{HaveCounts, greatest_of, raised_by};

use ds_base::NoMemory;
use ds_base::limits::MAX_CLIENT;
use ds_protocol::{Session, Watermark};
use std::alloc::Global;

/// The place that the client was shown.
pub fn seen_place(session: &Session) -> u64
    ensures { result ≡ session.now.place }
{
    session.seen.place()
}

/// The counts that the client was shown, shard 0 first.
pub(crate) fn seen_counts(session: &Session) -> &[u64]
    ensures { result.now ≡ session.now.counts }
{
    session.seen.counts()
}

/// The count of a shard that the client was shown, 0 where there is no such shard.
pub fn seen_count(session: &Session, shard: u32) -> u64
    ensures { result ≡ count_of session.now.counts shard }
{
    match seen_counts(session).get(shard as usize) {
        Some(count) => *count,
        None => 0,
    }
}

/// The id counter that the client was shown.
pub fn seen_next(session: &Session) -> u64
    ensures { result ≡ session.now.next_id }
{
    session.seen.next()
}

/// One for each client, which has seen nothing. A refusal means out of memory.
pub fn first_sessions(alloc: Global, shards: u32) -> Result<Vec<Session>, NoMemory>
    ensures { IfOk result (λ sessions. sessions.items ≡ first_sessions shards) }
{
    let mut sessions = Vec::new(alloc);
    for _client in 0..MAX_CLIENT + 1 {
        let session = Session::first(alloc, shards)?;
        sessions.push(session)?;
    }
    Ok(sessions)
}

/// The sessions meet: each has seen what any has. A refusal means out of memory.
pub fn meet(alloc: Global, shards: u32, sessions: &mut [Session]) -> Result<(), NoMemory>
    requires { HaveCounts shards sessions.old }
    ensures { OnOk result (sessions.new ≡ met sessions.old) }
{
    let greatest = greatest_of(alloc, shards, sessions)?;
    raise_all(&greatest, sessions);
    Ok(())
}

/// The greatest that any of the sessions has seen. A refusal means out of memory.
fn greatest_of(alloc: Global, shards: u32, sessions: &[Session]) -> Result<Watermark, NoMemory>
    ensures { IfOk result (λ greatest. greatest ≡ greatest_of shards sessions.now) }
{
    let mut greatest = Watermark::first(alloc, shards)?;
    greatest.clear();
    for session in sessions {
        take_in(&mut greatest, session);
    }
    Ok(greatest)
}

/// What this session has seen is taken in.
fn take_in(greatest: &mut Watermark, session: &Session)
    ensures { greatest.new ≡ raised_by session.now greatest.old }
{
    greatest.raise(&session.seen);
}

/// What this one has seen, each session has seen too.
fn raise_all(greatest: &Watermark, sessions: &mut [Session])
    ensures { sessions.new ≡ map (raised_by greatest.now) sessions.old }
{
    for session in sessions.iter_mut() {
        raise(session, greatest);
    }
}

/// What this one has seen, the session has seen too.
fn raise(session: &mut Session, greatest: &Watermark)
    ensures { session.new ≡ raised_by greatest.now session.old }
{
    session.seen.raise(greatest);
}
