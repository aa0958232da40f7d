//! What the replies to a load tell.
ghost use Rattle.std.specs.Prelude.{◌≡◌, Some, true, IfOk, IfSome, IsTrue, map, option_map};
ghost use Rattle.serde_json.specs.Data.{Data};
ghost use Rattle.serde_json.specs.View.{items_view, view};
ghost use Rattle.ds_request.specs.Requests.{line_data};
ghost use Rattle.ds_reply_lines.specs.ReplyLines.{last_item};
ghost use Rattle.ds_load.specs.Telling.{CountsAll, IsOfRuns, IsSettled, IsSettledText, IsToldLast, counts_of, counts_text};
ghost use Rattle.ds_load.specs.Telling.{how_many, last_number, sum_of, summary_in, summary_of};

use crate::writing::append_number;
use ds_base::{Buffer, NoMemory};
use ds_reply_lines::{Members, whole_lines};
use serde_json::Value;
use std::alloc::Global;

/// What the query of a load found.
#[derive(Clone, Copy, Debug, PartialEq, Eq)]
pub struct Summary {
    /// How many items match.
    pub matches: u64,
    /// The number of the last of them.
    pub last: Option<u64>,
}

/// What the last of the replies tells, whose text this is, of a run over a load of so many items with four shards; `None` where it doesn't
/// tell that all of them were counted, as where a put was refused when out of memory, and where the settle was refused. Whatever the
/// schedule of the run, that is how many items match and which is the last that does. An `Err` means out of memory here.
pub fn read_summary(alloc: Global, items: u32, text: &[u8]) -> Result<Option<Summary>, NoMemory>
    ensures told { IfOk result (λ found. IfSome found (IsOfRuns items text.now)) }
    ensures settled { IfOk result (λ found. IfSome found (λ s. IsSettledText text.now)) }
{
    match whole_lines(alloc, text)? {
        Some(lines) => read_last(alloc, items, lines.as_slice()),
        None => Ok(None),
    }
}

/// What the last of these lines tells, behind a settle that was answered.
fn read_last(alloc: Global, items: u32, lines: &[&[u8]]) -> Result<Option<Summary>, NoMemory>
    ensures told { IfOk result (λ found. IfSome found (IsToldLast items (map (λ line. line.now) lines.now))) }
    ensures settled { IfOk result (λ found. IfSome found (λ s. IsSettled (map (λ line. line.now) lines.now))) }
{
    if !is_settled(lines) {
        return Ok(None);
    }
    match lines.last() {
        Some(line) => read_answer(alloc, items, *line),
        None => Ok(None),
    }
}

/// Whether the line before the last one is an answer to a settle, which begins with what was applied; a refusal begins with the client.
fn is_settled(lines: &[&[u8]]) -> bool
    ensures { IsTrue result → IsSettled (map (λ line. line.now) lines.now) }
{
    let Some(at) = lines.len().checked_sub(2) else {
        return false;
    };
    match lines.get(at) {
        Some(line) => line.starts_with(b"{\"applied\":"),
        None => false,
    }
}

/// What a line tells that counts all items; the members of a reply stand by name, and those of a refusal begin with the client.
#[tactic(auto, using(crate::proofs::TellingSome::in_some, crate::proofs::TellingSome::told_some))]
fn read_answer(alloc: Global, items: u32, line: &[u8]) -> Result<Option<Summary>, NoMemory>
    ensures counted { IfOk result (λ found. IfSome found (λ s. CountsAll items line.now)) }
    ensures told { IfOk result (λ found. IfSome found (λ s. (d : Data) → line_data line.now ≡ Some d → summary_in d ≡ Some s)) }
{
    let members = Members::of(alloc, line)?;
    if !counts_all(alloc, items, &members.value, line)? {
        return Ok(None);
    }
    Ok(told_by(&members.value))
}

/// Whether an answer, whose line this is, counts so many entries, all shards together. That the line tells these counts is seen from
/// its bytes.
fn counts_all(alloc: Global, items: u32, answer: &Value, line: &[u8]) -> Result<bool, NoMemory>
    ensures { IfOk result (λ all. all ≡ true → CountsAll items line.now) }
{
    let Some(counts) = counts_in(answer) else {
        return Ok(false);
    };
    let Some(sum) = counts.sum() else {
        return Ok(false);
    };
    if sum != u64::from(items) {
        return Ok(false);
    }
    let begins = counts.text(alloc)?;
    Ok(line.starts_with(begins.bytes()))
}

/// How many entries of each shard an answer counts.
#[derive(Clone, Copy)]
struct Counts {
    first: u64,
    second: u64,
    third: u64,
    fourth: u64,
}

impl Counts {
    /// All of them together, where that is a number of 64 bits.
    fn sum(&self) -> Option<u64>
        ensures { IfSome result (λ sum. sum ≡ sum_of (counts_of self.now)) }
    {
        let two = self.first.checked_add(self.second)?;
        let three = two.checked_add(self.third)?;
        three.checked_add(self.fourth)
    }

    /// The beginning of the answer that tells them.
    fn text(&self, alloc: Global) -> Result<Buffer, NoMemory>
        ensures { IfOk result (λ text. text.bytes ≡ counts_text (counts_of self.now)) }
    {
        let mut text = Buffer::new(alloc);
        text.append(b"{\"applied\":[")?;
        append_number(self.first, &mut text)?;
        text.append(b",")?;
        append_number(self.second, &mut text)?;
        text.append(b",")?;
        append_number(self.third, &mut text)?;
        text.append(b",")?;
        append_number(self.fourth, &mut text)?;
        text.append(b"]")?;
        Ok(text)
    }
}

/// The counts in an answer, if it has four.
fn counts_in(answer: &Value) -> Option<Counts> {
    let counts = answer.get("applied")?;
    Some(Counts {
        first: counts.get(0)?.as_u64()?,
        second: counts.get(1)?.as_u64()?,
        third: counts.get(2)?.as_u64()?,
        fourth: counts.get(3)?.as_u64()?,
    })
}

/// What the results in an answer tell.
fn told_by(answer: &Value) -> Option<Summary>
    ensures { result ≡ summary_in (view answer.now) }
{
    match answer.get("results") {
        Some(Value::Array(items)) => Some(summary_of(items.as_slice())),
        _ => None,
    }
}

/// What results tell.
fn summary_of(items: &[Value]) -> Summary
    ensures { result ≡ summary_of (items_view items.now) }
{
    Summary {
        matches: how_many(items),
        last: last_number(items),
    }
}

/// How many results there are.
fn how_many(items: &[Value]) -> u64
    ensures { result ≡ how_many (items_view items.now) }
{
    items.len() as u64
}

/// The number in the last of some results.
fn last_number(items: &[Value]) -> Option<u64>
    ensures { result ≡ last_number (items_view items.now) }
{
    last_of(items)?.get("properties")?.get("c")?.as_u64()
}

/// The last of the items.
fn last_of(items: &[Value]) -> Option<&Value>
    ensures { option_map (λ v. view v.now) result ≡ last_item (items_view items.now) }
{
    items.last()
}
