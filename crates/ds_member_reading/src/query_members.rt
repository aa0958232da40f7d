//! The members of queries in common lines.
ghost use Rattle.std.specs.Prelude.{codes};
ghost use Rattle.serde_json.specs.Data.{no_members};
ghost use Rattle.ds_json_reading.specs.declared.refusal.Refusal.TheVariants as refusal;
ghost use Rattle.ds_json_reading.specs.Reading.{list_of};
ghost use Rattle.ds_json_reading.specs.Keys.{key_of};
ghost use Rattle.ds_line_reading.specs.TableLaws.{refused};
ghost use Rattle.ds_member_reading.specs.Queries.{HoldsQuery};
ghost use Rattle.ds_member_reading.specs.Forms.{text_of, name_of, namespace_of, flag_of, results_of, filter_of, order_of, select_of};

use crate::terms::{LineFilterForm, LineOrderForm, read_name, read_results, selection_of};
use ds_base::{Columns, Key, TextString, is_namespace};
use ds_line_reading::{
    LineForm, LineKeyForm, Member, Slot, Table, read_flag, read_list, read_text, take_text,
};
use ds_query::{Filters, Select};
use json::Reader;
use std::alloc::Global;

/// The namespace of a query.
#[derive(Drop)]
pub struct NamespaceMember;

impl Member for NamespaceMember {
    type Item = TextString;

    ghost called = { codes "namespace" };

    ghost reads = { namespace_of };

    ghost never_null = { refused refusal.Request };

    fn is_named(&self, name: &str) -> bool {
        name == "namespace"
    }

    fn read(&self, alloc: Global, reader: &mut Reader<'_>, _depth: usize) -> Option<TextString> {
        let namespace = read_text(alloc, reader)?;
        if !is_namespace(namespace.bytes()) {
            return None;
        }
        Some(namespace)
    }
}

/// A query's kind.
#[derive(Drop)]
pub struct KindMember;

impl Member for KindMember {
    type Item = TextString;

    ghost called = { codes "kind" };

    ghost reads = { name_of };

    ghost never_null = { refused refusal.Request };

    fn is_named(&self, name: &str) -> bool {
        name == "kind"
    }

    fn read(&self, alloc: Global, reader: &mut Reader<'_>, _depth: usize) -> Option<TextString> {
        read_name(alloc, reader)
    }
}

/// A query's ancestor.
#[derive(Drop)]
pub struct AncestorMember;

impl Member for AncestorMember {
    type Item = Key;

    ghost called = { codes "ancestor" };

    ghost reads = { key_of };

    ghost never_null = { refused refusal.Key };

    fn is_named(&self, name: &str) -> bool {
        name == "ancestor"
    }

    fn read(&self, alloc: Global, reader: &mut Reader<'_>, depth: usize) -> Option<Key> {
        LineKeyForm.read(alloc, reader, depth)
    }
}

/// A query's filters.
#[derive(Drop)]
pub struct FiltersMember;

impl Member for FiltersMember {
    type Item = Filters;

    ghost called = { codes "filters" };

    ghost reads = { list_of filter_of };

    ghost never_null = { refused refusal.Request };

    fn is_named(&self, name: &str) -> bool {
        name == "filters"
    }

    fn read(&self, alloc: Global, reader: &mut Reader<'_>, depth: usize) -> Option<Filters> {
        read_list(alloc, &LineFilterForm, reader, depth)
    }
}

/// A query's orders.
#[derive(Drop)]
pub struct OrdersMember;

impl Member for OrdersMember {
    type Item = Columns;

    ghost called = { codes "orders" };

    ghost reads = { list_of order_of };

    ghost never_null = { refused refusal.Request };

    fn is_named(&self, name: &str) -> bool {
        name == "orders"
    }

    fn read(&self, alloc: Global, reader: &mut Reader<'_>, depth: usize) -> Option<Columns> {
        read_list(alloc, &LineOrderForm, reader, depth)
    }
}

/// What a query gives of each result: a name, as projections aren't read here.
#[derive(Drop)]
pub struct SelectMember;

impl Member for SelectMember {
    type Item = Select;

    ghost called = { codes "select" };

    ghost reads = { select_of };

    ghost never_null = { refused refusal.Request };

    fn is_named(&self, name: &str) -> bool {
        name == "select"
    }

    fn read(&self, _alloc: Global, reader: &mut Reader<'_>, _depth: usize) -> Option<Select> {
        let name = take_text(reader)?;
        selection_of(name)
    }
}

/// How many results a query skips.
#[derive(Drop)]
pub struct OffsetMember;

impl Member for OffsetMember {
    type Item = u32;

    ghost called = { codes "offset" };

    ghost reads = { results_of };

    ghost never_null = { refused refusal.Request };

    fn is_named(&self, name: &str) -> bool {
        name == "offset"
    }

    fn read(&self, _alloc: Global, reader: &mut Reader<'_>, _depth: usize) -> Option<u32> {
        read_results(reader)
    }
}

/// How many results a query gives at most.
#[derive(Drop)]
pub struct LimitMember;

impl Member for LimitMember {
    type Item = u32;

    ghost called = { codes "limit" };

    ghost reads = { results_of };

    ghost never_null = { refused refusal.Request };

    fn is_named(&self, name: &str) -> bool {
        name == "limit"
    }

    fn read(&self, _alloc: Global, reader: &mut Reader<'_>, _depth: usize) -> Option<u32> {
        read_results(reader)
    }
}

/// The cursor after which a query begins.
#[derive(Drop)]
pub struct StartMember;

impl Member for StartMember {
    type Item = TextString;

    ghost called = { codes "start" };

    ghost reads = { text_of };

    ghost never_null = { refused refusal.Request };

    fn is_named(&self, name: &str) -> bool {
        name == "start"
    }

    fn read(&self, alloc: Global, reader: &mut Reader<'_>, _depth: usize) -> Option<TextString> {
        read_text(alloc, reader)
    }
}

/// The cursor at which a query ends.
#[derive(Drop)]
pub struct EndMember;

impl Member for EndMember {
    type Item = TextString;

    ghost called = { codes "end" };

    ghost reads = { text_of };

    ghost never_null = { refused refusal.Request };

    fn is_named(&self, name: &str) -> bool {
        name == "end"
    }

    fn read(&self, alloc: Global, reader: &mut Reader<'_>, _depth: usize) -> Option<TextString> {
        read_text(alloc, reader)
    }
}

/// Whether a query gives a cursor.
#[derive(Drop)]
pub struct CursorMember;

impl Member for CursorMember {
    type Item = bool;

    ghost called = { codes "cursor" };

    ghost reads = { flag_of };

    ghost never_null = { refused refusal.Request };

    fn is_named(&self, name: &str) -> bool {
        name == "cursor"
    }

    fn read(&self, _alloc: Global, reader: &mut Reader<'_>, _depth: usize) -> Option<bool> {
        read_flag(reader)
    }
}

/// The members of a query, by pairs.
pub type QuerySlots = (
    Slot<NamespaceMember, TextString>,
    (
        Slot<KindMember, TextString>,
        (
            Slot<AncestorMember, Key>,
            (
                Slot<FiltersMember, Filters>,
                (
                    Slot<OrdersMember, Columns>,
                    (
                        Slot<SelectMember, Select>,
                        (
                            Slot<OffsetMember, u32>,
                            (
                                Slot<LimitMember, u32>,
                                (
                                    Slot<StartMember, TextString>,
                                    (Slot<EndMember, TextString>, (Slot<CursorMember, bool>, ())),
                                ),
                            ),
                        ),
                    ),
                ),
            ),
        ),
    ),
);

/// The members of a query.
#[derive(Drop)]
pub struct QueryMembers {
    pub slots: QuerySlots,
}

impl Table for QueryMembers {
    ghost use Rattle.ds_member_reading.specs.Queries.{query_names, HoldsQuery, query_kept};

    ghost names = { query_names };

    ghost holds = { HoldsQuery };

    ghost keeps = { query_kept };

    fn fill(&mut self, alloc: Global, name: &str, reader: &mut Reader<'_>, depth: usize) -> bool {
        self.slots.fill(alloc, name, reader, depth)
    }
}

/// The members of a query of which nothing was read.
pub fn no_query_members() -> QueryMembers
    ensures { HoldsQuery result no_members }
{
    let namespace = Slot {
        member: NamespaceMember,
        found: None,
    };
    let kind = Slot {
        member: KindMember,
        found: None,
    };
    let ancestor = Slot {
        member: AncestorMember,
        found: None,
    };
    let filters = Slot {
        member: FiltersMember,
        found: None,
    };
    let orders = Slot {
        member: OrdersMember,
        found: None,
    };
    let select = Slot {
        member: SelectMember,
        found: None,
    };
    let offset = Slot {
        member: OffsetMember,
        found: None,
    };
    let limit = Slot {
        member: LimitMember,
        found: None,
    };
    let start = Slot {
        member: StartMember,
        found: None,
    };
    let end = Slot {
        member: EndMember,
        found: None,
    };
    let cursor = Slot {
        member: CursorMember,
        found: None,
    };
    let slots = (
        namespace,
        (
            kind,
            (
                ancestor,
                (
                    filters,
                    (
                        orders,
                        (select, (offset, (limit, (start, (end, (cursor, ())))))),
                    ),
                ),
            ),
        ),
    );
    QueryMembers { slots }
}
