//! From a line to a request.
//!
//! It stands on `ds_base` (keys and values), `ds_json_values` (the JSON value of a text), `ds_json_reading` (how keys, values and lists
//! are read), `ds_query` (filters, orders, the members that refusals tell), and on the kit's `serde_json`. A request is a function of the
//! JSON value that `serde_json` reads from the line: `specs/Requests` says which members each operation has and in which order they are
//! looked at, `specs/Forms` which form each has, and `specs/Entities` what entities look like.
//!
//! Begin with `call` (what is read) and `line` (`read_request`; `read_request_with` for many lines). `operations` has a file for each
//! operation that has members, which says what it reads; `members` reads members in order; `forms` has a rule for each form. That of
//! entities is handed on, for texts other than requests that have such parts. `common` makes the requests of nearly all lines from their
//! tokens alone (`ds_line_reading`), which are the requests that the definitions give; all other lines are read as a JSON value.
#![tactic(auto)]

pub mod call;
mod common;
mod copying;
mod forms;
pub mod line;
mod members;
mod operation;
mod operations;

pub use call::{Call, Request, RequestRefused};
pub use forms::entities::{EntityForm, Written};
pub use line::{read_request, read_request_with};
