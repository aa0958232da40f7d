//! From a reply to its line: one JSON object in compact text, its members by name in byte order, and a newline.
//!
//! Of the definitions begin with `specs/Replies` (what each reply tells, and its text); `specs/Refusals` is the table of
//! refusals, `specs/Results` says how results and index definitions are shown. Of the code begin with `write`, the public calls, then
//! `bodies` and `refusals` (what each reply tells, as the definitions say it) and `object` (members by name). It stands on
//! `ds_json_printing`, which has keys and values as JSON, on `ds_base`, `ds_query` and `ds_indexdef`, whose types replies show,
//! on `serde_json` and `json` for what a JSON text is, and on `arrayvec` for short lists without memory.
#![tactic(auto)]

mod bodies;
pub mod entities;
mod member;
mod member_name;
mod names;
mod object;
mod order;
mod projection;
mod refusals;
pub mod reply;
mod results;
mod told;
mod write;

pub use entities::append_entity;
pub use reply::{Body, Reply, WriteAt};
pub use write::write_reply;
