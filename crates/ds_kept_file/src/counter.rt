//! The line of the id counter.
ghost use Rattle.std.specs.Prelude.{◌≡◌, ◌++◌, ◌<◌, ◌^◌, ℕ, IfOk, IfSome, IfNone, OnOk, option_and_then};
ghost use Rattle.serde_json.specs.View.{view};
ghost use Rattle.ds_request.specs.Requests.{line_data};
ghost use Rattle.ds_kept_file.specs.Counters.{next_in};
ghost use Rattle.ds_kept_file.specs.Files.{next_line};

use ds_base::{Buffer, NoMemory};
use ds_journal_text::parse;
use serde_json::Value;
use std::alloc::Global;

/// Puts the line `{"next":N}` at the end, without its newline. A refusal means out of memory.
#[tactic(auto, unfolding(json::specs::Print::escape_byte))]
pub fn append_next(next: u64, onto: &mut Buffer) -> Result<(), NoMemory>
    ensures { OnOk result (onto.new.bytes ≡ onto.old.bytes ++ next_line next) }
{
    onto.append(b"{\"next\":")?;
    onto.append(itoa::Buffer::new().format(next).as_bytes())?;
    onto.append(b"}")
}

/// The number whose line this is; `None` exactly where it is the line of no number of 64 bits. A refusal means out of memory.
pub fn read_next(alloc: Global, line: &[u8]) -> Result<Option<u64>, NoMemory>
    ensures some { IfOk result (λ next. IfSome next (λ n. line.now ≡ next_line n)) }
    ensures none { IfOk result (λ next. IfNone next ((n : ℕ) → n < 2 ^ 64 → line.now ≡ next_line n → ⊥)) }
{
    match number_in(alloc, line)? {
        Some(next) => if_line(alloc, line, next),
        None => Ok(None),
    }
}

/// The number, where this is its line.
fn if_line(alloc: Global, line: &[u8], next: u64) -> Result<Option<u64>, NoMemory>
    ensures some { IfOk result (λ read. IfSome read (λ n. (n ≡ next) × (line.now ≡ next_line next))) }
    ensures none { IfOk result (λ read. IfNone read (line.now ≡ next_line next → ⊥)) }
{
    let mut written = Buffer::new(alloc);
    append_next(next, &mut written)?;
    if written.bytes() == line {
        Ok(Some(next))
    } else {
        Ok(None)
    }
}

/// The number under "next" in the JSON of a line; none where there is none.
fn number_in(alloc: Global, line: &[u8]) -> Result<Option<u64>, NoMemory>
    ensures { IfOk result (λ next. next ≡ option_and_then next_in (line_data line.now)) }
{
    match parse(alloc, line)? {
        Some(value) => Ok(next_of(&value)),
        None => Ok(None),
    }
}

/// The number under "next", if one is there.
fn next_of(value: &Value) -> Option<u64>
    ensures { result ≡ next_in (view value.now) }
{
    value.get("next").and_then(Value::as_u64)
}
