//! A statement that is being read.
ghost use Rattle.std.specs.Prelude.{◌≡◌};
ghost use Rattle.ds_gql.specs.Steps.{empty, complete, selected};

use crate::statement::Statement;
use ds_base::{Columns, Elems, Key, Names, TextString, Values};
use ds_query::{Filters, Op, Query, Select};
use std::alloc::Global;

/// What was read last, and so which tokens may come next.
#[derive(Clone, Copy)]
pub(crate) enum Phase {
    /// Nothing yet.
    Start,
    /// SELECT.
    What,
    /// `*` or `__key__` behind SELECT.
    Selected,
    /// A name of a projection.
    NameRead,
    /// The comma behind such a name.
    NextName,
    /// FROM.
    From,
    /// The kind.
    KindRead,
    /// WHERE, or AND.
    Condition,
    /// The property of a condition.
    Compare,
    /// Its operator, other than IN.
    Operand,
    /// IN.
    ListOpen,
    /// The parenthesis behind IN, or a comma of its list.
    Listed,
    /// A value of that list.
    ListedRead,
    /// ANCESTOR.
    AncestorIs,
    /// IS.
    AncestorKey,
    /// KEY.
    KeyOpen,
    /// The parenthesis behind KEY, or the comma behind an element.
    KeyKind,
    /// The kind of an element.
    KeyComma,
    /// The comma behind that kind.
    KeyIdent,
    /// The identifier of an element.
    ElemRead,
    /// A condition.
    ConditionRead,
    /// ORDER.
    OrderBy,
    /// BY, or the comma behind an order.
    Order,
    /// The name of an order.
    OrderRead,
    /// Its direction.
    DirectionRead,
    /// LIMIT.
    Limit,
    /// The count behind LIMIT.
    LimitRead,
    /// The comma behind that count.
    PairedLimit,
    /// OFFSET.
    Offset,
    /// All that a statement may have.
    Whole,
    /// The end of the text.
    Ended,
}

/// What a key literal is read for.
#[derive(Clone, Copy)]
pub(crate) enum KeyFor {
    /// The one value of a condition.
    Operand,
    /// A value of a list.
    Listed,
    /// The ancestor.
    Ancestor,
}

/// The parts of a statement as far as they are read, and those of the condition and the key literal that stand last.
#[derive(Drop)]
pub(crate) struct Draft {
    pub phase: Phase,
    /// What is selected where no name is.
    pub select: Select,
    /// The names of a projection.
    pub names: Names,
    pub kind: Option<TextString>,
    pub ancestor: Option<Key>,
    pub filters: Filters,
    pub orders: Columns,
    pub offset: u32,
    pub limit: Option<u32>,
    /// The condition, or the order, that is being read.
    pub property: TextString,
    pub op: Op,
    pub values: Values,
    /// The key literal that is being read: what for, its elements, and the kind of the next one.
    pub key_for: KeyFor,
    pub path: Elems,
    pub elem_kind: TextString,
}

impl Draft {
    /// Nothing is read yet. It takes no memory.
    pub(crate) fn new(alloc: Global) -> Draft
        ensures { result ≡ empty }
    {
        Draft {
            phase: Phase::Start,
            select: Select::Entities,
            names: Names::new(alloc),
            kind: None,
            ancestor: None,
            filters: Filters::new(alloc),
            orders: Columns::new(alloc),
            offset: 0,
            limit: None,
            property: TextString::new(alloc),
            op: Op::Equal,
            values: Values::new(alloc),
            key_for: KeyFor::Operand,
            path: Elems::new(alloc),
            elem_kind: TextString::new(alloc),
        }
    }

    /// The statement whose parts were read.
    pub(crate) fn into_statement(self, alloc: Global) -> Statement
        ensures { result ≡ complete self }
    {
        let select = selected(self.select, self.names);
        Statement {
            query: Query {
                namespace: TextString::new(alloc),
                kind: self.kind,
                ancestor: self.ancestor,
                filters: self.filters,
                orders: self.orders,
                select,
                cursors: false,
            },
            offset: self.offset,
            limit: self.limit,
        }
    }
}

/// Names are a projection.
fn selected(select: Select, names: Names) -> Select
    ensures { result ≡ selected select names }
{
    if names.len() == 0 {
        select
    } else {
        Select::Projection(names)
    }
}
