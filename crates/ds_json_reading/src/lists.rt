//! Arrays whose items have one form.
ghost use Rattle.std.specs.Prelude.{◌≡◌, ◌≢◌, ◌↔◌, [], ◌∷◌, ◌++◌, length, IsSome, IfSome, MatchOption};
ghost use Rattle.std.specs.Vec.Iter.{into_iter_items};
ghost use Rattle.serde_json.specs.View.{view, items_view};
ghost use Rattle.ds_json_reading.specs.Reading.{Reads, read_as, each_of};
ghost use Rattle.ds_json_reading.specs.Reading.{list_of, some_of};

use crate::form::Form;
use crate::refusal::Refusal;
use ds_base::Sequence;
use serde_json::Value;
use std::alloc::Global;
use std::vec::IntoIter;

/// An array of any number of items.
#[derive(Drop)]
pub struct ListForm<F> {
    /// The form of each item.
    pub item: F,
}

impl<F: Form> Form for ListForm<F> {
    type Item = Sequence<F::Item>;

    ghost reads = { λ list. list_of (F.reads list.item) };

    fn read(&self, alloc: Global, value: Value) -> Result<Sequence<F::Item>, Refusal> {
        match value {
            Value::Array(items) => read_each(alloc, &self.item, items),
            _ => Err(Refusal::Request),
        }
    }
}

/// Reads an array of at least one item.
pub fn read_some<F: Form>(
    alloc: Global,
    form: &F,
    value: Value,
) -> Result<Sequence<F::Item>, Refusal>
    ensures { Reads Refusal.NoMemory (some_of (F.reads form.now) (view value)) result }
{
    match value {
        Value::Array(items) => {
            if items.is_empty() {
                return Err(Refusal::Request);
            }
            read_each(alloc, form, items)
        }
        _ => Err(Refusal::Request),
    }
}

/// Reads the items of an array by one form, from the first to the last; the first refusal is answered.
pub(crate) fn read_each<F: Form>(
    alloc: Global,
    form: &F,
    items: Vec<Value>,
) -> Result<Sequence<F::Item>, Refusal>
    ensures { Reads Refusal.NoMemory (each_of (F.reads form.now) (items_view items.items)) result }
{
    let Ok(read) = Vec::with_capacity(alloc, items.len()) else {
        return Err(Refusal::NoMemory);
    };
    read_rest(alloc, form, read, items.into_iter())
}

/// Reads the items that are left of an array, and puts them after those that were read.
pub(crate) fn read_rest<F: Form>(
    alloc: Global,
    form: &F,
    mut read: Vec<F::Item>,
    rest: IntoIter<Value>,
) -> Result<Sequence<F::Item>, Refusal>
    ensures { Reads Refusal.NoMemory (read_as (λ xs. read.items ++ xs)
        (each_of (F.reads form.now) (items_view (into_iter_items rest)))) result }
{
    for item in rest {
        let item = form.read(alloc, item)?;
        if let Err(_) = read.push(item) {
            return Err(Refusal::NoMemory);
        }
    }
    Ok(Sequence::from(read))
}

/// The two items of an array that has two.
pub fn take_two(mut parts: Vec<Value>) -> Option<(Value, Value)>
    ensures some { IfSome result (λ p. parts.items ≡ p.0 ∷ p.1 ∷ []) }
    ensures two { IsSome result ↔ (length parts.items ≡ 2) }
{
    if parts.len() != 2 {
        return None;
    }
    let second = parts.pop()?;
    let first = parts.pop()?;
    Some((first, second))
}

/// The three items of an array that has three.
pub fn take_three(mut parts: Vec<Value>) -> Option<(Value, Value, Value)>
    ensures { MatchOption result (length parts.items ≢ 3)
        (λ t. parts.items ≡ t.0 ∷ t.1 ∷ t.2 ∷ []) }
{
    if parts.len() != 3 {
        return None;
    }
    let third = parts.pop()?;
    let second = parts.pop()?;
    let first = parts.pop()?;
    Some((first, second, third))
}
