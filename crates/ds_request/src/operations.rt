//! What each operation reads of a line: one file for each that has members.
pub(crate) mod allocate_ids;
pub(crate) mod apply;
pub(crate) mod begin;
pub(crate) mod delete;
pub(crate) mod get;
pub(crate) mod gql;
pub(crate) mod put;
pub(crate) mod query;
