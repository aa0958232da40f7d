//! The members of requests: which form each has, and how it is read.
//!
//! It stands on `ds_base` (keys and values), `ds_query` (filters, orders and selections), `ds_json_reading` (keys, values and lists of a
//! JSON value) and `ds_line_reading` (the same of a line's tokens). `specs/Forms` says of each member what it is of its JSON value.
//!
//! Begin with `scalars`, `filters`, `orders`, `selects` and `named_values`, by which the JSON value of a member is read. `terms` reads
//! some of them from the tokens of a line; `members` and `query_members` are the members of a table that such a line fills in
//! whatever order they stand. None means there that the member has no common form, as a filter by `in`, or that there was no memory:
//! such a line is to be read as a JSON value.
#![tactic(auto)]

mod filters;
mod members;
mod named_values;
mod orders;
mod query_members;
mod scalars;
mod selects;
mod terms;

pub use filters::FilterForm;
pub use members::{ClientMember, CountMember, KeyMember, ShardMember, XgMember};
pub use named_values::NamedValuesForm;
pub use orders::OrderForm;
pub use query_members::{
    AncestorMember, CursorMember, EndMember, FiltersMember, KindMember, LimitMember,
    NamespaceMember, OffsetMember, OrdersMember, QueryMembers, QuerySlots, SelectMember,
    StartMember, no_query_members,
};
pub use scalars::{CountForm, FlagForm, NameForm, NamespaceForm, ResultsForm, ShardForm, TextForm};
pub use selects::SelectForm;
