//! A round's requests, by client.
ghost use Rattle.std.specs.Prelude.{◌≡◌, ◌+◌, ◌≤◌, ◌<◌, ◌++◌, List, [], Some, length, replicate, slice_get, vec_len, IfOk, OnOk};
ghost use Rattle.ds_base.specs.Limits.{greatest_client, most_input_bytes};
ghost use Rattle.ds_rounds.specs.Lines.{IsWithinLimit, handed};
ghost use Rattle.ds_rounds.specs.Rounds.{NumberedLine, lines_of_round, numbered};
ghost use Rattle.ds_rounds.specs.Reading.{IsRound};
ghost use Rattle.ds_asked.specs.AskedLines.{AreAskedBy, Asks, with_asked};

use ds_base::Sequence;
use ds_base::limits::MAX_CLIENT;
use ds_protocol::ask;
use ds_reply::Body;
use ds_request::Request;
use ds_rounds::{Chunk, Line, Round};
use json::Scratch;
use std::alloc::{AllocError, Global};

/// What a line asks, or what its reply says instead.
#[derive(Drop)]
pub struct Asked {
    /// Whose line it is.
    pub client: u32,
    /// The line's number, counted from 1 through the whole input.
    pub number: u64,
    /// The request; or what the reply to a line says that asks nothing.
    pub request: Result<Request, Body>,
}

/// What the lines of a round ask, one list for each client from 0 on, each in the order of the lines. Every line is read once, and
/// its bytes are freed with those of its chunk. A refusal means out of memory: whose line it was isn't known then.
pub fn asked_by_client(
    alloc: Global,
    shards: u32,
    round: Round,
) -> Result<Vec<Sequence<Asked>>, AllocError>
    requires { IsRound round }
    ensures { IfOk result (λ lists. AreAskedBy shards (lines_of_round round) lists.items) }
{
    let mut lists = empty_lists(alloc)?;
    let mut scratch = Scratch::new(alloc);
    let mut number = round.first;
    let (chunks, last) = round.lines.into_chunks();
    for chunk in chunks {
        ask_chunk(alloc, shards, number, &chunk, &mut scratch, &mut lists)?;
        number += chunk.len() as u64;
    }
    ask_chunk(alloc, shards, number, &last, &mut scratch, &mut lists)?;
    Ok(lists)
}

/// Puts what the lines of a chunk ask, the first of which has this number, behind what their clients ask already. A refusal is
/// lack of memory.
fn ask_chunk(
    alloc: Global,
    shards: u32,
    first: u64,
    chunk: &Chunk,
    scratch: &mut Scratch,
    lists: &mut Vec<Sequence<Asked>>,
) -> Result<(), AllocError>
    requires clients { length lists.old.items ≡ greatest_client + 1 }
    requires numbers { first + length chunk.now ≤ most_input_bytes + 1 }
    ensures { OnOk result ((before : List NumberedLine) → AreAskedBy shards before lists.old.items
        → AreAskedBy shards (before ++ numbered first chunk.now) lists.new.items) }
{
    for i in 0..chunk.len() {
        let number = first + i as u64;
        let asked = asked_line_with(alloc, shards, number, line_at(chunk, i), scratch)?;
        put(lists, asked)?;
    }
    Ok(())
}

/// An empty list for each client.
fn empty_lists(alloc: Global) -> Result<Vec<Sequence<Asked>>, AllocError>
    ensures { IfOk result (λ lists. lists.items ≡ replicate (greatest_client + 1) []) }
{
    let mut lists = Vec::with_capacity(alloc, MAX_CLIENT as usize + 1)?;
    'fill: for _client in 0..MAX_CLIENT + 1 {
        lists.push(Sequence::new(alloc))?;
    }
    Ok(lists)
}

/// Puts what a line asks behind what its client asks already. A refusal means out of memory.
fn put(lists: &mut Vec<Sequence<Asked>>, asked: Asked) -> Result<(), AllocError>
    requires { asked.client < vec_len lists.old }
    ensures { OnOk result (lists.new.items ≡ with_asked lists.old.items asked.client asked) }
{
    match lists[asked.client as usize].push(asked) {
        Ok(()) => Ok(()),
        Err(_) => Err(AllocError),
    }
}

/// What one line asks. A refusal means out of memory.
pub fn asked_line(
    alloc: Global,
    shards: u32,
    number: u64,
    line: Line<'_>,
) -> Result<Asked, AllocError>
    requires { IsWithinLimit line }
    ensures { IfOk result (λ a. Asks shards (record { number = number; content = handed line.entry }) a) }
{
    let mut scratch = Scratch::new(alloc);
    asked_line_with(alloc, shards, number, line, &mut scratch)
}

/// The same over memory that is kept from line to line.
fn asked_line_with(
    alloc: Global,
    shards: u32,
    number: u64,
    line: Line<'_>,
    scratch: &mut Scratch,
) -> Result<Asked, AllocError>
    requires { IsWithinLimit line }
    ensures { IfOk result (λ a. Asks shards (record { number = number; content = handed line.entry }) a) }
{
    match ask(alloc, shards, line, scratch) {
        Ok(request) => Ok(Asked {
            client: request.client,
            number,
            request: Ok(request),
        }),
        Err(refused) => match refused.body {
            Body::NoMemory => Err(AllocError),
            body => Ok(Asked {
                client: refused.client,
                number,
                request: Err(body),
            }),
        },
    }
}

/// The line at a place.
fn line_at(lines: &Chunk, i: usize) -> Line<'_>
    requires { i < length lines.now }
    ensures line { slice_get lines.now i ≡ Some (handed result) }
    ensures within { IsWithinLimit result }
{
    match lines.get(i) {
        Some(line) => line,
        None => unreachable!(),
    }
}
