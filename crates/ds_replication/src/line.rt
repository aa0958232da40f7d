//! One line of a script.
ghost use Rattle.std.specs.Prelude.{◌≡◌, ◌+◌, ◌≤◌, ◌==◌, drop, position, length, true, false, bytes_eq, IfOk, IfSome, IsTrue, MatchOption};
ghost use Rattle.std.specs.List.{after_first, before_first, position_or_len};
ghost use Rattle.std.specs.Str.{is_utf8};
ghost use Rattle.ds_paxos.specs.Forms.{is_well_formed};
ghost use Rattle.ds_replication.specs.Lines.{at_most, deliver_of, digits_after, event_of, first_word, greatest_u32, greatest_u64};
ghost use Rattle.ds_replication.specs.Lines.{number_of, numeral_of, propose_of, proposing, rest_of, restart_of, well_formed};

use ds_base::{NoMemory, TextString};
use ds_paxos::Event;
use std::alloc::Global;

/// The event of a line; `None` where the line leaves the form. A refusal means out of memory.
pub(crate) fn event_of(alloc: Global, line: &[u8]) -> Result<Option<Event>, NoMemory>
    ensures value { IfOk result (λ found. found ≡ event_of line.now) }
    ensures form { IfOk result (λ found. IfSome found (λ event. IsTrue (is_well_formed event))) }
{
    let (word, rest) = cut(line);
    if is(word, b"propose") {
        return propose_of(alloc, rest);
    }
    if is(word, b"deliver") {
        return Ok(deliver_of(rest));
    }
    if is(word, b"restart") {
        return Ok(restart_of(rest));
    }
    Ok(None)
}

fn is(word: &[u8], text: &[u8]) -> bool
    ensures { result ≡ bytes_eq word.now text.now }
{
    word == text
}

/// What stands before the first such byte, and what stands behind it; all and nothing where there is none.
pub(crate) fn cut_at(bytes: &[u8], byte: u8) -> (&[u8], &[u8])
    ensures front { result.0.now ≡ before_first (λ b. b == byte) bytes.now }
    ensures rest { result.1.now ≡ after_first (λ b. b == byte) bytes.now }
{
    let end = place_of(bytes, byte);
    (&bytes[..end], behind(bytes, end))
}

/// The first place of such a byte, or the length.
#[tactic(auto, using(crate::proofs::Cuts::place_or_len))]
fn place_of(bytes: &[u8], byte: u8) -> usize
    ensures value { result ≡ position_or_len (λ b. b == byte) bytes.now }
    ensures within { result ≤ length bytes.now }
{
    first_place(bytes, byte).unwrap_or(bytes.len())
}

fn first_place(bytes: &[u8], byte: u8) -> Option<usize>
    ensures { result ≡ position (λ b. b == byte) bytes.now }
{
    bytes.iter().position(|b| *b == byte)
}

/// The first word, and what stands behind its space.
fn cut(line: &[u8]) -> (&[u8], &[u8])
    ensures word { result.0.now ≡ first_word line.now }
    ensures rest { result.1.now ≡ rest_of line.now }
{
    cut_at(line, b' ')
}

/// What stands behind the byte at this place.
fn behind(line: &[u8], end: usize) -> &[u8]
    requires { end ≤ length line.now }
    ensures { result.now ≡ drop (end + 1) line.now }
{
    if end < line.len() {
        &line[end + 1..]
    } else {
        &[]
    }
}

fn propose_of(alloc: Global, rest: &[u8]) -> Result<Option<Event>, NoMemory>
    ensures value { IfOk result (λ found. found ≡ propose_of rest.now) }
    ensures form { IfOk result (λ found. IfSome found (λ event. IsTrue (is_well_formed event))) }
{
    let (member, rest) = cut(rest);
    let Some(member) = small_number(member) else {
        return Ok(None);
    };
    let (log, rest) = cut(rest);
    let Some(log) = small_number(log) else {
        return Ok(None);
    };
    let (position, entry) = cut(rest);
    let Some(position) = number_of(position, u64::MAX) else {
        return Ok(None);
    };
    proposing(alloc, member, log, position, entry)
}

fn proposing(
    alloc: Global,
    member: u32,
    log: u32,
    position: u64,
    entry: &[u8],
) -> Result<Option<Event>, NoMemory>
    ensures value { IfOk result (λ found. found ≡ proposing member log position entry.now) }
    ensures form { IfOk result (λ found. IfSome found (λ event. IsTrue (is_well_formed event))) }
{
    let Some(entry) = text_of(entry) else {
        return Ok(None);
    };
    let entry = TextString::of(alloc, entry)?;
    Ok(well_formed(Event::Propose {
        member,
        log,
        position,
        entry,
    }))
}

fn well_formed(event: Event) -> Option<Event>
    ensures value { result ≡ well_formed event }
    ensures form { IfSome result (λ event. IsTrue (is_well_formed event)) }
{
    if event.is_well_formed() {
        Some(event)
    } else {
        None
    }
}

fn deliver_of(rest: &[u8]) -> Option<Event>
    ensures value { result ≡ deliver_of rest.now }
    ensures form { IfSome result (λ event. IsTrue (is_well_formed event)) }
{
    match number_of(rest, u64::MAX) {
        Some(message) => Some(Event::Deliver { message }),
        None => None,
    }
}

fn restart_of(rest: &[u8]) -> Option<Event>
    ensures value { result ≡ restart_of rest.now }
    ensures form { IfSome result (λ event. IsTrue (is_well_formed event)) }
{
    match small_number(rest) {
        Some(member) => Some(Event::Restart { member }),
        None => None,
    }
}

// The bytes as a text; `None` exactly where they aren't UTF-8.
fn text_of(bytes: &[u8]) -> Option<&str>
    ensures { MatchOption result (is_utf8 bytes.now ≡ false) (λ text. (text.now ≡ bytes.now) × (is_utf8 bytes.now ≡ true)) }
{
    match std::str::from_utf8(bytes) {
        Ok(text) => Some(text),
        Err(_) => None,
    }
}

/// The number of 32 bits that the bytes write.
fn small_number(bytes: &[u8]) -> Option<u32>
    ensures { result ≡ number_of greatest_u32 bytes.now }
{
    match number_of(bytes, u32::MAX as u64) {
        Some(number) => Some(number as u32),
        None => None,
    }
}

/// The number, of at most so much, that the bytes write: digits, and no zero in front of others.
fn number_of(bytes: &[u8], most: u64) -> Option<u64>
    ensures value { result ≡ number_of most bytes.now }
    ensures within { IfSome result (λ number. number ≤ most) }
{
    match numeral_of(bytes) {
        Some(number) if number <= most => Some(number),
        _ => None,
    }
}

fn numeral_of(bytes: &[u8]) -> Option<u64>
    ensures { result ≡ at_most greatest_u64 (numeral_of bytes.now) }
{
    match bytes {
        [] => None,
        [b'0', _, ..] => None,
        _ => digits_after(0, bytes),
    }
}

/// The number that digits write behind those of another; `None` also where it takes more than 64 bits.
#[tactic(auto, using(crate::proofs::Digits::too_large))]
fn digits_after(number: u64, bytes: &[u8]) -> Option<u64>
    ensures { result ≡ at_most greatest_u64 (digits_after number bytes.now) }
{
    match bytes {
        [] => Some(number),
        [byte, rest @ ..] => {
            if !byte.is_ascii_digit() {
                return None;
            }
            let next = number
                .checked_mul(10)?
                .checked_add(u64::from(*byte - b'0'))?;
            digits_after(next, rest)
        }
    }
}
