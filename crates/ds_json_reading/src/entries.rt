//! Objects whose members have one form.
ghost use Rattle.std.specs.Prelude.{List, ℕ, Option, Result, IfOk, string_bytes, string_cmp};
ghost use Rattle.std.specs.List.Sorted.{IsStrictlySortedBy};
ghost use Rattle.std.specs.Map.{keys_of};
ghost use Rattle.serde_json.specs.Data.{Data};
ghost use Rattle.serde_json.specs.View.{view, members_view};
ghost use Rattle.ds_json_reading.specs.declared.refusal.Refusal.{Refusal};
ghost use Rattle.ds_json_reading.specs.Reading.{Reads, each_member_of};

use crate::members::Members;
use crate::refusal::Refusal;
use ds_base::Sequence;
use serde_json::Value;
use std::alloc::Global;

/// A rule by which a member of an object is read, whatever its name.
pub trait EntryForm {
    /// What is read.
    type Item: Drop;

    ghost reads: { Self → List ℕ → Data → Result (Option Self.Item) Refusal };

    /// Reads the member as an item or as nothing, or tells what is wrong with it.
    fn read(&self, alloc: Global, name: String, value: Value) -> Result<Option<Self::Item>, Refusal>
        ensures { Reads Refusal.NoMemory (reads self.now (string_bytes name) (view value)) result };
}

/// Reads the members of an object by one form, in the order of their names; the first refusal is answered.
pub fn read_entries<F: EntryForm>(
    alloc: Global,
    form: &F,
    members: Members,
) -> Result<Sequence<F::Item>, Refusal>
    ensures read { Reads Refusal.NoMemory (each_member_of (F.reads form.now)
        (members_view members.entries)) result }
    ensures ascending { IfOk result (λ _. IsStrictlySortedBy string_cmp (keys_of members.entries)) }
{
    let Ok(mut items) = Vec::with_capacity(alloc, members.len()) else {
        return Err(Refusal::NoMemory);
    };
    for (name, value) in members {
        if let Some(item) = form.read(alloc, name, value)? {
            if let Err(_) = items.push(item) {
                return Err(Refusal::NoMemory);
            }
        }
    }
    Ok(Sequence::from(items))
}
