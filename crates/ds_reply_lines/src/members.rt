//! What a line of a reply tells as JSON.
ghost use Rattle.std.specs.Prelude.{◌≡◌, Some, codes, option_and_then, option_map, IfOk};
ghost use Rattle.serde_json.specs.Data.{Data, array};
ghost use Rattle.serde_json.specs.Find.{as_number, as_u64, at};
ghost use Rattle.serde_json.specs.View.{items_view, view};
ghost use Rattle.ds_request.specs.Requests.{line_data};
ghost use Rattle.ds_reply_lines.specs.ReplyLines.{flag_at, last_id_at, last_item, naturals, number_at, numbers_at, told_by};

use ds_base::NoMemory;
use serde_json::Value;
use std::alloc::{AllocError, Global};

/// What a line of a reply tells as JSON. Contracts speak of it by `told_by`.
#[derive(Drop)]
pub struct Members {
    /// The JSON that was read; null where the line is none.
    pub value: Value,
}

impl Members {
    /// Those of a line; of a line that isn't JSON nothing is told. A refusal means out of memory.
    pub fn of(alloc: Global, line: &[u8]) -> Result<Members, NoMemory>
        ensures { IfOk result (λ m. (d : Data) → line_data line.now ≡ Some d → told_by m ≡ d) }
    {
        match Value::from_slice(alloc, line) {
            Ok(value) => Ok(Members { value }),
            Err(error) => {
                if error.is_memory() {
                    return Err(AllocError);
                }
                Ok(Members { value: Value::Null })
            }
        }
    }

    /// The natural number in the member of this name, within 64 bits.
    pub fn number(&self, name: &str) -> Option<u64>
        ensures { result ≡ number_at name.now (told_by self.now) }
    {
        self.value.get(name)?.as_u64()
    }

    /// The truth value in the member of this name.
    pub fn flag(&self, name: &str) -> Option<bool>
        ensures { result ≡ flag_at name.now (told_by self.now) }
    {
        self.value.get(name)?.as_bool()
    }

    /// The natural numbers in the member of this name, which is an array of such. A refusal means out of memory.
    pub fn numbers(&self, alloc: Global, name: &str) -> Result<Option<Vec<u64>>, NoMemory>
        ensures { IfOk result (λ found. option_map (λ ns. ns.items) found ≡ numbers_at name.now (told_by self.now)) }
    {
        match self.value.get(name) {
            Some(Value::Array(items)) => naturals(alloc, items.as_slice()),
            _ => Ok(None),
        }
    }

    /// The id in which the key in the member of this name ends.
    pub fn last_id(&self, name: &str) -> Option<u64>
        ensures { result ≡ last_id_at name.now (told_by self.now) }
    {
        match self.value.get(name)? {
            Value::Array(elems) => id_of(last_of(elems.as_slice())?),
            _ => None,
        }
    }
}

/// The last of the items.
fn last_of(items: &[Value]) -> Option<&Value>
    ensures { option_map (λ v. view v.now) result ≡ last_item (items_view items.now) }
{
    items.last()
}

/// The id of a key's element: the second of two items.
fn id_of(elem: &Value) -> Option<u64>
    ensures { result ≡ option_and_then as_u64 (option_and_then as_number (at 1 (view elem.now))) }
{
    elem.get(1)?.as_u64()
}

/// Items as natural numbers; none where one isn't.
fn naturals(alloc: Global, items: &[Value]) -> Result<Option<Vec<u64>>, NoMemory>
    ensures { IfOk result (λ found. option_map (λ ns. ns.items) found ≡ naturals (items_view items.now)) }
{
    let mut numbers = Vec::with_capacity(alloc, items.len())?;
    for item in items {
        match item.as_u64() {
            Some(number) => numbers.push(number)?,
            None => return Ok(None),
        }
    }
    Ok(Some(numbers))
}
