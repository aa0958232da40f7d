//! The members of an operation, one after another.
ghost use Rattle.std.specs.Prelude.{ℕ, List, [], ◌∷◌, Result, Ok, IsTrue};
ghost use Rattle.serde_json.specs.Data.{Members};
ghost use Rattle.serde_json.specs.View.{members_view};
ghost use Rattle.ds_query.specs.declared.field.Field.{Field};
ghost use Rattle.ds_request.specs.declared.call.Call.{Call};
ghost use Rattle.ds_request.specs.declared.call.RequestRefused.{RequestRefused};
ghost use Rattle.ds_json_reading.specs.Reading.{Reads, and_then, read_as};
ghost use Rattle.ds_request.specs.Requests.{member_read};
ghost use Rattle.ds_request.specs.Members.{is_apart, AgreeOn};

use crate::call::RequestRefused;
use crate::members::one::{ReadMember, read_member};
use ds_json_reading::Members;
use std::alloc::Global;

/// How members are read in their order: a table of members, written as pairs of a member and those that follow it.
pub(crate) trait ReadMembers: Drop {
    /// What is read, in pairs as the table.
    type Items: Drop;

    ghost fields: { Self → List Field };

    ghost reads: { Self → ℕ → Members → (Self.Items → Call) → Result Call RequestRefused };

    /// Reads the members up to the first that fails, so that a call can be made of them. The answer is told of every object
    /// that has the same members of these names: what was taken out before doesn't count.
    fn read(
        self,
        alloc: Global,
        client: u32,
        members: Members,
    ) -> Result<Self::Items, RequestRefused>
        requires { IsTrue (is_apart (fields self)) }
        ensures { (asked : Members) → AgreeOn (fields self) asked (members_view members.entries)
            → (make : Self.Items → Call)
            → Reads RequestRefused.NoMemory (reads self client asked make) (read_as make result) };
}

impl ReadMembers for () {
    type Items = ();

    ghost fields = { λ _. [] };

    ghost reads = { λ _ _ _ make. Ok (make tt) };

    fn read(self, _alloc: Global, _client: u32, _members: Members) -> Result<(), RequestRefused> {
        Ok(())
    }
}

impl<A: ReadMember, B: ReadMembers> ReadMembers for (A, B) {
    type Items = (A::Item, B::Items);

    ghost fields = { λ s. A.field s.0 ∷ B.fields s.1 };

    ghost reads = { λ s client ms make. and_then (member_read client ms (A.field s.0) (A.reads s.0))
        (λ x. B.reads s.1 client ms (λ xs. make (x, xs))) };

    fn read(
        self,
        alloc: Global,
        client: u32,
        mut members: Members,
    ) -> Result<(A::Item, B::Items), RequestRefused> {
        let (first, rest) = self;
        let item = read_member(alloc, client, &mut members, first)?;
        let items = rest.read(alloc, client, members)?;
        Ok((item, items))
    }
}
