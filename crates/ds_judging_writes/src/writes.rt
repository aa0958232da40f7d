//! Replies to writes, and those that draw ids.
ghost use Rattle.std.specs.Prelude.{◌≡◌, ◌+◌, ◌<◌, ◌≤◌, ◌↔◌, codes, false, None, Some, true, IfOk, IsTrue};
ghost use Rattle.ds_base.specs.Keys.{ends_in_id, root_of};
ghost use Rattle.ds_base.specs.Limits.{greatest_id};
ghost use Rattle.ds_bytes.specs.Lawful.{IsLawfulKey};
ghost use Rattle.ds_history.specs.Writers.{nth_commit};
ghost use Rattle.ds_log.specs.Ids.{first_unissued};
ghost use Rattle.ds_log.specs.Logs.{key_of};
ghost use Rattle.ds_request.specs.declared.call.Call.{Call};
ghost use Rattle.ds_model.specs.Answers.{CallAnswers};
ghost use Rattle.ds_model.specs.Refusals.{refusal_of};
ghost use Rattle.ds_model.specs.Sessions.{saw_next, saw_place};
ghost use Rattle.ds_protocol.specs.Transactions.{MayWrite};
ghost use Rattle.ds_reply_lines.specs.ReplyLines.{number_at, told_by};
ghost use Rattle.ds_judging_writes.specs.Committing.{IsPut, MayWriteIn, own_commit, saw_write, written_body};
ghost use Rattle.ds_judging_lines.specs.Deciding.{DecidesTurn, IsSession, SaysThen, world_in};
ghost use Rattle.ds_judging_writes.specs.Writing.{IsIdNotIssued, IsIdsExhausted, IsPutExhausted, IsWritten};

use crate::commits::is_commit;
use ds_base::limits::MAX_ID;
use ds_base::{Key, NoMemory, TryCopy};
use ds_entity::Entity;
use ds_journal_text::key_is_lawful;
use ds_judging_lines::{Turn, seen_next, seen_place, tells_error};
use ds_log::{Commit, Touches, Write, Writes};
use ds_protocol::{Session, first_unissued, next_above};
use ds_reply::{Body, WriteAt};
use std::alloc::AllocError;

/// The error of a reply that an id of the key wasn't issued.
const ID_NOT_ISSUED: u64 = 21;

/// The error of a reply that too few ids are left.
const IDS_EXHAUSTED: u64 = 22;

// ---- what a reply says

/// The body, where the reply says it; then this counter was shown.
fn say_next(
    turn: &Turn<'_>,
    session: &mut Session,
    body: Body,
    next: u64,
) -> Result<Option<Body>, NoMemory>
    requires session { IsSession turn.now session.old }
    ensures said { IfOk result (λ found. SaysThen turn.now body (saw_next next session.old) found session.new) }
    ensures kept { IfOk result (λ found. IsSession turn.now session.new) }
{
    let Some(said) = turn.said(body)? else {
        return Ok(None);
    };
    session.see_next(next);
    Ok(Some(said))
}

// ---- ids

/// A reply that an id wasn't issued.
fn judge_not_issued(
    turn: &Turn<'_>,
    session: &mut Session,
    key: &Key,
) -> Result<Option<Body>, NoMemory>
    requires session { IsSession turn.now session.old }
    ensures decided { IfOk result (λ found. DecidesTurn turn.now
        (λ said after. IsIdNotIssued session.old key.now said after) found session.new) }
    ensures kept { IfOk result (λ found. IsSession turn.now session.new) }
{
    key_is_lawful(key);
    let Some(next) = turn.told.number("next") else {
        return Ok(None);
    };
    let Some(id) = first_unissued(key.elems().as_slice(), next) else {
        return Ok(None);
    };
    if next < seen_next(session) {
        return Ok(None);
    }
    say_next(turn, session, Body::IdNotIssued { id, next }, next)
}

/// A reply that so many ids are left no more.
fn judge_exhausted(
    turn: &Turn<'_>,
    session: &mut Session,
    count: u64,
) -> Result<Option<Body>, NoMemory>
    requires session { IsSession turn.now session.old }
    ensures decided { IfOk result (λ found. DecidesTurn turn.now
        (λ said after. IsIdsExhausted session.old count said after) found session.new) }
    ensures kept { IfOk result (λ found. IsSession turn.now session.new) }
{
    let Some(next) = turn.told.number("next") else {
        return Ok(None);
    };
    if next < seen_next(session) {
        return Ok(None);
    }
    if are_left(next, count) {
        return Ok(None);
    }
    say_next(turn, session, Body::IdsExhausted { next }, next)
}

/// Whether so many ids from `next` on can be drawn.
fn are_left(next: u64, count: u64) -> bool
    ensures { IsTrue result ↔ (next + count ≤ greatest_id) }
{
    match next.checked_add(count) {
        Some(end) => end <= MAX_ID,
        None => false,
    }
}

/// The body, where it is an answer to a request for so many ids.
pub fn judge_allocate(
    turn: &Turn<'_>,
    session: &mut Session,
    count: u64,
) -> Result<Option<Body>, NoMemory>
    requires session { IsSession turn.now session.old }
    ensures decided { IfOk result (λ found. DecidesTurn turn.now
        (λ said after. CallAnswers (world_in turn.now) turn.now.client session.old (Call.AllocateIds count) said after) found
        session.new) }
    ensures kept { IfOk result (λ found. IsSession turn.now session.new) }
{
    if tells_error(turn, IDS_EXHAUSTED) {
        return judge_exhausted(turn, session, count);
    }
    let Some(first) = turn.told.number("first") else {
        return Ok(None);
    };
    if first < seen_next(session) {
        return Ok(None);
    }
    if !are_left(first, count) {
        return Ok(None);
    }
    say_next(
        turn,
        session,
        Body::AllocateIds { first, count },
        first + count,
    )
}

// ---- puts and deletes

/// The body, where it is an answer to a put of this entity, whose last id is drawn where it is incomplete.
pub fn judge_put(
    turn: &Turn<'_>,
    session: &mut Session,
    entity: Entity,
    incomplete: bool,
) -> Result<Option<Body>, NoMemory>
    requires session { IsSession turn.now session.old }
    requires unrefused { refusal_of turn.now.run.now.defs.now session.old (Call.Put entity.key incomplete entity.properties)
        ≡ None }
    requires ends { IsTrue incomplete → IsTrue (ends_in_id entity.key.elems) }
    ensures decided { IfOk result (λ found. DecidesTurn turn.now
        (λ said after. CallAnswers (world_in turn.now) turn.now.client session.old
        (Call.Put entity.key incomplete entity.properties) said after) found session.new) }
    ensures kept { IfOk result (λ found. IsSession turn.now session.new) }
{
    let asked = entity.key();
    key_is_lawful(asked);
    if tells_error(turn, ID_NOT_ISSUED) {
        return judge_not_issued(turn, session, asked);
    }
    if tells_error(turn, IDS_EXHAUSTED) {
        return judge_put_exhausted(turn, session, asked, incomplete);
    }
    if incomplete {
        judge_new(turn, session, entity)
    } else {
        judge_complete(turn, session, entity)
    }
}

/// An incomplete put of a path whose other ids are issued may find none left.
fn judge_put_exhausted(
    turn: &Turn<'_>,
    session: &mut Session,
    key: &Key,
    incomplete: bool,
) -> Result<Option<Body>, NoMemory>
    requires session { IsSession turn.now session.old }
    ensures decided { IfOk result (λ found. DecidesTurn turn.now
        (λ said after. IsPutExhausted session.old incomplete key.now said after) found session.new) }
    ensures kept { IfOk result (λ found. IsSession turn.now session.new) }
{
    if !incomplete {
        return Ok(None);
    }
    let Some(next) = turn.told.number("next") else {
        return Ok(None);
    };
    if !are_issued(key, next) {
        return Ok(None);
    }
    judge_exhausted(turn, session, 1)
}

/// Whether all ids of a key are issued, with the counter at `next`.
fn are_issued(key: &Key, next: u64) -> bool
    ensures { IsTrue result ↔ (first_unissued next key.now.elems ≡ None) }
{
    first_unissued(key.elems().as_slice(), next).is_none()
}

/// A put under the key that was asked.
fn judge_complete(
    turn: &Turn<'_>,
    session: &mut Session,
    entity: Entity,
) -> Result<Option<Body>, NoMemory>
    requires session { IsSession turn.now session.old }
    requires allowed { MayWriteIn session.old.transaction (root_of entity.key) }
    ensures decided { IfOk result (λ found. DecidesTurn turn.now
        (λ said after. IsPut (world_in turn.now) turn.now.client session.old false entity said after) found
        session.new) }
    ensures kept { IfOk result (λ found. IsSession turn.now session.new) }
{
    judge_write(turn, session, Write::Put(entity))
}

/// A put under the asked key with a drawn id in place of its last one: that of the key that is told.
fn judge_new(
    turn: &Turn<'_>,
    session: &mut Session,
    mut entity: Entity,
) -> Result<Option<Body>, NoMemory>
    requires session { IsSession turn.now session.old }
    requires ends { IsTrue (ends_in_id entity.key.elems) }
    requires unrefused { refusal_of turn.now.run.now.defs.now session.old (Call.Put entity.key true entity.properties) ≡ None }
    ensures decided { IfOk result (λ found. DecidesTurn turn.now
        (λ said after. IsPut (world_in turn.now) turn.now.client session.old true entity said after)
        found session.new) }
    ensures kept { IfOk result (λ found. IsSession turn.now session.new) }
{
    let asked = entity.key();
    key_is_lawful(asked);
    let Some(id) = turn.told.last_id("key") else {
        return Ok(None);
    };
    if id < seen_next(session) {
        return Ok(None);
    }
    if id >= MAX_ID {
        return Ok(None);
    }
    entity.renumber(id);
    judge_write(turn, session, Write::Put(entity))
}

/// The body, where it is an answer to a delete of this key.
pub fn judge_delete(
    turn: &Turn<'_>,
    session: &mut Session,
    key: Key,
) -> Result<Option<Body>, NoMemory>
    requires session { IsSession turn.now session.old }
    requires unrefused { refusal_of turn.now.run.now.defs.now session.old (Call.Delete key) ≡ None }
    ensures decided { IfOk result (λ found. DecidesTurn turn.now
        (λ said after. CallAnswers (world_in turn.now) turn.now.client session.old (Call.Delete key) said after) found
        session.new) }
    ensures kept { IfOk result (λ found. IsSession turn.now session.new) }
{
    key_is_lawful(&key);
    if tells_error(turn, ID_NOT_ISSUED) {
        return judge_not_issued(turn, session, &key);
    }
    judge_write(turn, session, Write::Delete(key))
}

/// A write: a commit of its own outside a transaction, and behind the others inside one.
fn judge_write(
    turn: &Turn<'_>,
    session: &mut Session,
    write: Write,
) -> Result<Option<Body>, NoMemory>
    requires session { IsSession turn.now session.old }
    requires allowed { MayWriteIn session.old.transaction (root_of (key_of write)) }
    ensures decided { IfOk result (λ found. DecidesTurn turn.now
        (λ said after. IsWritten (world_in turn.now) turn.now.client session.old write said after) found session.new) }
    ensures kept { IfOk result (λ found. IsSession turn.now session.new) }
{
    if session.in_transaction() {
        judge_inside(turn, session, write)
    } else {
        judge_alone(turn, session, write)
    }
}

// ---- inside a transaction

/// A write inside a transaction: it stands behind the others, and its group at a touch place, which is told.
fn judge_inside(
    turn: &Turn<'_>,
    session: &mut Session,
    write: Write,
) -> Result<Option<Body>, NoMemory>
    requires session { IsSession turn.now session.old }
    requires allowed { MayWrite session.old.transaction (root_of (key_of write)) }
    ensures decided { IfOk result (λ found. DecidesTurn turn.now
        (λ said after. IsWritten (world_in turn.now) turn.now.client session.old write said after) found session.new) }
    ensures kept { IfOk result (λ found. IsSession turn.now session.new) }
{
    let key = write.key();
    key_is_lawful(key);
    let group = key.root(turn.alloc)?;
    let Some(place) = turn.group_place(session, &group) else {
        return Ok(None);
    };
    let body = body_of(turn, &write, WriteAt::Place(place))?;
    say_inside(turn, session, body, group, place, write)
}

/// The body, where the reply says it; then the transaction has touched the group at this place, and takes the write.
fn say_inside(
    turn: &Turn<'_>,
    session: &mut Session,
    body: Body,
    group: Key,
    place: u64,
    write: Write,
) -> Result<Option<Body>, NoMemory>
    requires session { IsSession turn.now session.old }
    requires own { group ≡ root_of (key_of write) }
    requires allowed { MayWrite session.old.transaction group }
    ensures said { IfOk result (λ found. SaysThen turn.now body
        (saw_write write group place session.old.transaction session.old) found session.new) }
    ensures kept { IfOk result (λ found. IsSession turn.now session.new) }
{
    let Some(said) = turn.said(body)? else {
        return Ok(None);
    };
    let above = next_above(write.key().elems().as_slice());
    session.write(group, place, write)?;
    session.see_place(place);
    session.see_next(above);
    Ok(Some(said))
}

// ---- outside a transaction

/// A write outside a transaction: the commit whose number is told is this write by itself.
fn judge_alone(
    turn: &Turn<'_>,
    session: &mut Session,
    write: Write,
) -> Result<Option<Body>, NoMemory>
    requires session { IsSession turn.now session.old }
    requires outside { session.old.transaction ≡ None }
    ensures decided { IfOk result (λ found. DecidesTurn turn.now
        (λ said after. IsWritten (world_in turn.now) turn.now.client session.old write said after) found session.new) }
    ensures kept { IfOk result (λ found. IsSession turn.now session.new) }
{
    let key = write.key();
    key_is_lawful(key);
    let Some(number) = turn.told.number("commit") else {
        return Ok(None);
    };
    if number <= seen_place(session) {
        return Ok(None);
    }
    judge_numbered(turn, session, write, number)
}

/// The same, where this number of a commit is told, above what the client has seen.
fn judge_numbered(
    turn: &Turn<'_>,
    session: &mut Session,
    write: Write,
    number: u64,
) -> Result<Option<Body>, NoMemory>
    requires session { IsSession turn.now session.old }
    requires outside { session.old.transaction ≡ None }
    requires lawful { IsLawfulKey (key_of write) }
    requires told { number_at (codes "commit") (told_by turn.now.told) ≡ Some number }
    requires later { session.old.place < number }
    ensures decided { IfOk result (λ found. DecidesTurn turn.now
        (λ said after. IsWritten (world_in turn.now) turn.now.client session.old write said after) found session.new) }
    ensures kept { IfOk result (λ found. IsSession turn.now session.new) }
{
    let above = next_above(write.key().elems().as_slice());
    let body = body_of(turn, &write, WriteAt::Commit(number))?;
    let same = is_own_commit(turn, number, write)?;
    if !same {
        return Ok(None);
    }
    say_alone(turn, session, body, number, above)
}

/// What the reply to a write says, at a place. A refusal means out of memory.
fn body_of(turn: &Turn<'_>, write: &Write, at: WriteAt) -> Result<Body, NoMemory>
    ensures { IfOk result (λ body. body ≡ written_body write.now at) }
{
    let key = write.key().copy(turn.alloc)?;
    Ok(match write {
        Write::Put(_) => Body::Put { key, at },
        Write::Delete(_) => Body::Delete { key, at },
    })
}

/// Whether commit `number` of the journal is this write by itself.
fn is_own_commit(turn: &Turn<'_>, number: u64, write: Write) -> Result<bool, NoMemory>
    ensures { IfOk result (λ same. IsTrue same
        ↔ (nth_commit turn.now.run.now.history.journal number ≡ Some (own_commit turn.now.client write))) }
{
    let commit = own_commit(turn, write)?;
    is_commit(turn, number, &commit)
}

/// The commit of a write by itself. A refusal means out of memory.
fn own_commit(turn: &Turn<'_>, write: Write) -> Result<Commit, NoMemory>
    ensures { IfOk result (λ commit. commit ≡ own_commit turn.now.client write) }
{
    let mut writes = Writes::new(turn.alloc);
    match writes.push(write) {
        Ok(()) => Ok(Commit {
            client: turn.client,
            touched: Touches::new(turn.alloc),
            writes,
        }),
        Err(_) => Err(AllocError),
    }
}

/// The body, where the reply says it; then this commit and this counter were shown.
fn say_alone(
    turn: &Turn<'_>,
    session: &mut Session,
    body: Body,
    number: u64,
    above: u64,
) -> Result<Option<Body>, NoMemory>
    requires session { IsSession turn.now session.old }
    ensures said { IfOk result (λ found. SaysThen turn.now body
        (saw_next above (saw_place number session.old)) found session.new) }
    ensures kept { IfOk result (λ found. IsSession turn.now session.new) }
{
    let Some(said) = turn.said(body)? else {
        return Ok(None);
    };
    session.see_place(number);
    session.see_next(above);
    Ok(Some(said))
}
