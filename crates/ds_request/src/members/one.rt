//! One member of a request: the field that it is told by, its form, and what an absent one means.
ghost use Rattle.std.specs.Prelude.{◌≡◌, Option, Result, option_map};
ghost use Rattle.serde_json.specs.Data.{Data};
ghost use Rattle.serde_json.specs.View.{view, members_view};
ghost use Rattle.ds_query.specs.declared.field.Field.{Field};
ghost use Rattle.ds_query.specs.Fields.{field_name};
ghost use Rattle.ds_json_reading.specs.declared.refusal.Refusal.{Refusal};
ghost use Rattle.ds_json_reading.specs.Reading.{Reads, required, optional, defaulted};
ghost use Rattle.ds_request.specs.Requests.{member_read};
ghost use Rattle.ds_json_reading.specs.Reading.{AgreeBut};

use crate::call::RequestRefused;
use crate::members::told::told_at;
use ds_json_reading::{Form, Members, Refusal, take_member};
use ds_query::Field;
use serde_json::Value;
use std::alloc::Global;

/// How a member is read.
pub(crate) trait ReadMember: Drop {
    /// What is read.
    type Item: Drop;

    ghost field: { Self → Field };

    ghost reads: { Self → Option Data → Result Self.Item Refusal };

    /// The field by which the member is told.
    fn field(&self) -> Field
        ensures { result ≡ field self.now };

    /// Reads the member, which may be absent.
    fn read(self, alloc: Global, given: Option<Value>) -> Result<Self::Item, Refusal>
        ensures { Reads Refusal.NoMemory (reads self (option_map view given)) result };
}

/// A member that has to be there: the field that it is told by, and its form.
#[derive(Drop)]
pub(crate) struct Required<F>(pub(crate) Field, pub(crate) F);

/// A member that may be absent: the field that it is told by, and its form.
#[derive(Drop)]
pub(crate) struct Optional<F>(pub(crate) Field, pub(crate) F);

/// A member that may be absent: the field that it is told by, its form, and what stands for it then.
#[derive(Drop)]
pub(crate) struct Defaulted<F, T>(pub(crate) Field, pub(crate) F, pub(crate) T);

impl<F: Form> ReadMember for Required<F> {
    type Item = F::Item;

    ghost field = { λ m. m.0 };

    ghost reads = { λ m. required (F.reads m.1) };

    fn field(&self) -> Field {
        self.0
    }

    fn read(self, alloc: Global, given: Option<Value>) -> Result<F::Item, Refusal> {
        match given {
            Some(value) => self.1.read(alloc, value),
            None => Err(Refusal::Request),
        }
    }
}

impl<F: Form> ReadMember for Optional<F> {
    type Item = Option<F::Item>;

    ghost field = { λ m. m.0 };

    ghost reads = { λ m. optional (F.reads m.1) };

    fn field(&self) -> Field {
        self.0
    }

    fn read(self, alloc: Global, given: Option<Value>) -> Result<Option<F::Item>, Refusal> {
        match given {
            Some(value) => Ok(Some(self.1.read(alloc, value)?)),
            None => Ok(None),
        }
    }
}

impl<T: Drop, F: Form<Item = T>> ReadMember for Defaulted<F, T> {
    type Item = T;

    ghost field = { λ m. m.0 };

    ghost reads = { λ m. defaulted m.2 (F.reads m.1) };

    fn field(&self) -> Field {
        self.0
    }

    fn read(self, alloc: Global, given: Option<Value>) -> Result<T, Refusal> {
        match given {
            Some(value) => self.1.read(alloc, value),
            None => Ok(self.2),
        }
    }
}

/// Takes a member out of an object and reads it. Every other member stays.
pub(crate) fn read_member<M: ReadMember>(
    alloc: Global,
    client: u32,
    members: &mut Members,
    member: M,
) -> Result<M::Item, RequestRefused>
    ensures read { Reads RequestRefused.NoMemory
        (member_read client (members_view members.old.entries) (M.field member) (M.reads member)) result }
    ensures others { AgreeBut (field_name (M.field member)) (members_view members.new.entries)
        (members_view members.old.entries) }
{
    let field = member.field();
    let given = take_member(members, field.name());
    told_at(client, field, member.read(alloc, given))
}
