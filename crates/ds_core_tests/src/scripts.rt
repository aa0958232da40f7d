//! A script: steps with their clients, and the requests that they open before.
ghost use Rattle.std.specs.Prelude.{◌≤◌, All, IfOk, IsTrue, OnOk};
ghost use Rattle.ds_model.specs.Asked.{has_shard};
ghost use Rattle.ds_core.specs.Machines.{IsLawfulEvent, IsLawfulRequest};

use ds_base::{Buffer, NoMemory};
use ds_core::{Event, Events, Replies, Step, run};
use ds_indexdef::Defs;
use ds_reply::write_reply;
use ds_request::{Call, Request, read_request};
use std::alloc::{AllocError, Global};
use std::test::Fail;

/// A step of a client, and the line that it opens before; none where it is empty.
pub type Line<'a> = (u32, Step, &'a str);

/// Whether a run of these steps, in parts, over so many shards gives exactly these replies, one line each, in parts too. No run is over
/// other than one to 16 shards.
pub(crate) fn replies_are(
    alloc: Global,
    shards: u32,
    script: &[&[Line<'_>]],
    expected: &[&str],
) -> Result<bool, Fail> {
    if shards == 0 || shards > 16 {
        return Ok(false);
    }
    let expected = joined(alloc, expected)?;
    gives(alloc, shards, script, expected.as_str())
}

/// The parts, one after the other.
fn joined(alloc: Global, parts: &[&str]) -> Result<String, AllocError> {
    let mut text = String::new(alloc);
    for part in parts {
        text.push_str(*part)?;
    }
    Ok(text)
}

fn gives(alloc: Global, shards: u32, script: &[&[Line<'_>]], expected: &str) -> Result<bool, Fail>
    requires least { 1 ≤ shards }
    requires most { shards ≤ 16 }
{
    let text = text_after(alloc, shards, script)?;
    Ok(text.bytes() == expected.as_bytes())
}

/// The replies of a run of these steps, one line each.
fn text_after(alloc: Global, shards: u32, script: &[&[Line<'_>]]) -> Result<Buffer, Fail>
    requires least { 1 ≤ shards }
    requires most { shards ≤ 16 }
{
    let events = events_of(alloc, shards, script)?;
    let transcript = run(alloc, events, shards, Defs::new(alloc))?;
    text_of(alloc, &transcript.replies)
}

fn events_of(alloc: Global, shards: u32, script: &[&[Line<'_>]]) -> Result<Events, Fail>
    ensures { IfOk result (All (IsLawfulEvent shards)) }
{
    let mut events = Events::new(alloc);
    for part in script {
        add_events(alloc, shards, *part, &mut events)?;
    }
    Ok(events)
}

fn add_events(
    alloc: Global,
    shards: u32,
    part: &[Line<'_>],
    events: &mut Events,
) -> Result<(), Fail>
    requires { All (IsLawfulEvent shards) events.old }
    ensures { OnOk result (All (IsLawfulEvent shards) events.new) }
{
    for line in part {
        let (client, step, text) = *line;
        let event = event_of(alloc, shards, client, step, text)?;
        push(events, event, shards)?;
    }
    Ok(())
}

fn push(events: &mut Events, event: Event, shards: u32) -> Result<(), NoMemory>
    requires so_far { All (IsLawfulEvent shards) events.old }
    requires lawful { IsLawfulEvent shards event }
    ensures { OnOk result (All (IsLawfulEvent shards) events.new) }
{
    if events.push(event).is_err() {
        return Err(AllocError);
    }
    Ok(())
}

fn event_of(alloc: Global, shards: u32, client: u32, step: Step, text: &str) -> Result<Event, Fail>
    ensures { IfOk result (IsLawfulEvent shards) }
{
    if client > 15 {
        Err("no such script")?;
    }
    if text.is_empty() {
        return Ok(Event {
            step,
            client,
            begins: None,
        });
    }
    let request = request_of(alloc, shards, client, text)?;
    Ok(Event {
        step,
        client,
        begins: Some(request),
    })
}

fn request_of(alloc: Global, shards: u32, client: u32, text: &str) -> Result<Request, Fail>
    ensures { IfOk result (IsLawfulRequest shards client) }
{
    if text.len() > 1000 {
        Err("no such script")?;
    }
    match read_request(alloc, text.as_bytes()) {
        Ok(request) => {
            if request.client == client && is_there(shards, &request.call) {
                return Ok(request);
            }
            Err("no such script")?
        }
        Err(_) => Err("no such script")?,
    }
}

fn is_there(shards: u32, call: &Call) -> bool
    ensures { IsTrue result → IsTrue (has_shard shards call.now) }
{
    match call {
        Call::Apply { shard } => *shard < shards as u64,
        _ => true,
    }
}

fn text_of(alloc: Global, replies: &Replies) -> Result<Buffer, Fail> {
    let mut text = Buffer::new(alloc);
    for reply in replies.as_slice() {
        write_reply(reply, &mut text)?;
    }
    Ok(text)
}
