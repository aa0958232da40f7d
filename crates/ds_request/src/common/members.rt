//! The members that common lines have.
ghost use Rattle.std.specs.Prelude.{codes};
ghost use Rattle.serde_json.specs.Data.{no_members};
ghost use Rattle.ds_json_reading.specs.declared.refusal.Refusal.TheVariants as refusal;
ghost use Rattle.ds_line_reading.specs.TableLaws.{refused};
ghost use Rattle.ds_request.specs.Common.{HoldsLine};
ghost use Rattle.ds_request.specs.Entities.{entity_of};
ghost use Rattle.ds_request.specs.Requests.{operation_of};

use crate::common::entities::LineEntityForm;
use crate::forms::entities::Written;
use crate::operation::{Operation, named};
use ds_base::Key;
use ds_line_reading::{LineForm, Member, Slot, Table, take_text};
use ds_member_reading::{
    ClientMember, CountMember, KeyMember, QueryMembers, ShardMember, XgMember, no_query_members,
};
use json::Reader;
use std::alloc::Global;

/// What is asked.
#[derive(Drop)]
pub(crate) struct OpMember;

impl Member for OpMember {
    type Item = Operation;

    ghost called = { codes "op" };

    ghost reads = { operation_of };

    ghost never_null = { refused refusal.Request };

    fn is_named(&self, name: &str) -> bool {
        name == "op"
    }

    fn read(&self, _alloc: Global, reader: &mut Reader<'_>, _depth: usize) -> Option<Operation> {
        let name = take_text(reader)?;
        match named(name) {
            Ok(operation) => Some(operation),
            Err(_) => None,
        }
    }
}

/// What a put writes.
#[derive(Drop)]
pub(crate) struct EntityMember;

impl Member for EntityMember {
    type Item = Written;

    ghost called = { codes "entity" };

    ghost reads = { entity_of };

    ghost never_null = { refused refusal.Request };

    fn is_named(&self, name: &str) -> bool {
        name == "entity"
    }

    fn read(&self, alloc: Global, reader: &mut Reader<'_>, depth: usize) -> Option<Written> {
        LineEntityForm.read(alloc, reader, depth)
    }
}

/// The members of a line, by pairs.
pub(crate) type LineSlots = (
    Slot<OpMember, Operation>,
    (
        Slot<EntityMember, Written>,
        (
            Slot<ClientMember, u32>,
            (
                Slot<KeyMember, Key>,
                (
                    Slot<XgMember, bool>,
                    (
                        Slot<CountMember, u64>,
                        (Slot<ShardMember, u64>, QueryMembers),
                    ),
                ),
            ),
        ),
    ),
);

/// The members of a line.
#[derive(Drop)]
pub(crate) struct LineTable {
    pub(crate) slots: LineSlots,
}

impl Table for LineTable {
    ghost use Rattle.ds_request.specs.Common.{line_names, HoldsLine, line_kept};

    ghost names = { line_names };

    ghost holds = { HoldsLine };

    ghost keeps = { line_kept };

    fn fill(&mut self, alloc: Global, name: &str, reader: &mut Reader<'_>, depth: usize) -> bool {
        self.slots.fill(alloc, name, reader, depth)
    }
}

/// The table of a line of which nothing was read.
pub(crate) fn new_table() -> LineTable
    ensures { HoldsLine result no_members }
{
    let op = Slot {
        member: OpMember,
        found: None,
    };
    let entity = Slot {
        member: EntityMember,
        found: None,
    };
    let client = Slot {
        member: ClientMember,
        found: None,
    };
    let key = Slot {
        member: KeyMember,
        found: None,
    };
    let xg = Slot {
        member: XgMember,
        found: None,
    };
    let count = Slot {
        member: CountMember,
        found: None,
    };
    let shard = Slot {
        member: ShardMember,
        found: None,
    };
    let query = no_query_members();
    let slots = (op, (entity, (client, (key, (xg, (count, (shard, query)))))));
    LineTable { slots }
}
