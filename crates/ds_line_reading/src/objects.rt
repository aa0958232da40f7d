//! Objects of which some members are wanted, in whatever order they stand.
ghost use Rattle.std.specs.Prelude.{◌≡◌, ◌<◌, ℕ, List, [], ◌∷◌, Result, Ok, false, bytes_eq, length, IsTrue, IfSome, Some, ⊤};
ghost use Rattle.serde_json.specs.Data.{Data, null, object, Members, no_members, put};
ghost use Rattle.serde_json.specs.Read.{of_json};
ghost use Rattle.json.specs.Json.{value};
ghost use Rattle.ds_json_values.specs.Outcomes.{Gives};
ghost use Rattle.ds_json_reading.specs.declared.refusal.Refusal.{Refusal};
ghost use Rattle.ds_json_reading.specs.Reading.{optional, member_of};
ghost use Rattle.ds_line_reading.specs.Parts.{IsRead, AreMembers};
ghost use Rattle.ds_line_reading.specs.Tables.{is_among, are_apart, Fills};
ghost use Rattle.ds_line_reading.specs.TableLaws.{slot_kept, first_other, rest_other};

use json::{Reader, Token};
use std::alloc::Global;

/// A member of an object: its name, and how its value is read.
pub trait Member: Drop {
    /// What is read.
    type Item: Drop;

    ghost called: { List ℕ };

    ghost reads: { Data → Result Self.Item Refusal };

    /// Whether this is the member's name.
    fn is_named(&self, name: &str) -> bool
        ensures { result ≡ bytes_eq name.now called };

    /// Reads the value, where it has a common form.
    fn read(&self, alloc: Global, reader: &mut Reader<'_>, depth: usize) -> Option<Self::Item>
        ensures { IfSome result (λ x. IsRead depth reads reader.old x reader.new) };

    ghost never_null: { (x : Self.Item) → reads null ≡ Ok x → ⊥ };
}

/// The place in a table where a member is put.
#[derive(Drop)]
pub struct Slot<M, T> {
    /// The member.
    pub member: M,
    /// What was read of it, if it was met.
    pub found: Option<T>,
}

/// A table of members, written as pairs of a place and those that follow it.
pub trait Table: Drop {
    ghost names: { List (List ℕ) };

    ghost holds: { Self → Members → Type 0 };

    /// Reads the value of the member of this name, and puts it into its place; false where there is none of this name, or the value
    /// has no common form.
    fn fill(&mut self, alloc: Global, name: &str, reader: &mut Reader<'_>, depth: usize) -> bool
        requires { IsTrue (are_apart names) }
        ensures { IsTrue result → (before : Members) → holds self.old before
            → Fills depth reader.old name.now before (holds self.new) reader.new };

    ghost keeps: { (s : Self) (name : List ℕ) (d : Data) (ms : Members) → is_among names name ≡ false → holds s ms
        → holds s (put name d ms) };
}

impl Table for () {
    ghost names = { [] };

    ghost holds = { λ _ _. ⊤ };

    ghost keeps = { λ _ _ _ _ _ _. tt };

    fn fill(
        &mut self,
        _alloc: Global,
        _name: &str,
        _reader: &mut Reader<'_>,
        _depth: usize,
    ) -> bool {
        false
    }
}

impl<T: Drop, M: Member<Item = T>, B: Table> Table for (Slot<M, T>, B) {
    ghost names = { M.called ∷ B.names };

    ghost holds = { λ s ms. (optional M.reads (member_of M.called ms) ≡ Ok s.0.found) × B.holds s.1 ms };

    ghost keeps = { λ s name d ms other h. (
      slot_kept M.reads M.called s.0.found name d ms (first_other M.called B.names name other) h.0,
      B.keeps s.1 name d ms (rest_other M.called B.names name other) h.1,
    ) };

    fn fill(&mut self, alloc: Global, name: &str, reader: &mut Reader<'_>, depth: usize) -> bool {
        if self.0.member.is_named(name) {
            return fill_slot(&mut self.0, alloc, reader, depth);
        }
        self.1.fill(alloc, name, reader, depth)
    }
}

/// Reads the value of a member into its place. Of members with one name the last counts.
fn fill_slot<T: Drop, M: Member<Item = T>>(
    slot: &mut Slot<M, T>,
    alloc: Global,
    reader: &mut Reader<'_>,
    depth: usize,
) -> bool
    ensures { IsTrue result → (x : T) × (slot.new.found ≡ Some x) × IsRead depth M.reads reader.old x reader.new }
{
    match slot.member.read(alloc, reader, depth) {
        Some(item) => {
            slot.found = Some(item);
            true
        }
        None => false,
    }
}

/// Reads an object into a table; false where that can't be done.
pub fn fill_object<T: Table>(
    alloc: Global,
    table: &mut T,
    reader: &mut Reader<'_>,
    depth: usize,
) -> bool
    requires apart { IsTrue (are_apart T.names) }
    requires empty { T.holds table.old no_members }
    ensures { IsTrue result → (ms : Members) × Gives of_json (value depth reader.old) (Some (object ms)) reader.new
        × (length reader.new < length reader.old) × T.holds table.new ms }
{
    if depth == 0 {
        return false;
    }
    let Some(Token::BeginObject) = reader.next() else {
        return false;
    };
    fill_members(alloc, table, reader, depth - 1)
}

/// Reads the members of an object that has begun.
fn fill_members<T: Table>(
    alloc: Global,
    table: &mut T,
    reader: &mut Reader<'_>,
    depth: usize,
) -> bool
    requires apart { IsTrue (are_apart T.names) }
    requires empty { T.holds table.old no_members }
    ensures { IsTrue result → (ms : Members) × AreMembers depth no_members reader.old ms reader.new
        × (length reader.new < length reader.old) × T.holds table.new ms }
{
    'members: loop {
        let Ok(next) = reader.next_key() else {
            return false;
        };
        let Some(name) = next else {
            return true;
        };
        if !table.fill(alloc, name, reader, depth) {
            return false;
        }
    }
}
