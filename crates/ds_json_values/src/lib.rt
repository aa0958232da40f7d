//! JSON values of many texts, read one after another over memory that is kept.
//!
//! It stands on the kit's `json`, whose reader takes its memory from the caller, and on `serde_json`, whose values it makes and
//! whose definition of a text's value it keeps. Begin with `read_text`, in `reading`.
#![tactic(auto)]

mod number;
mod reading;

pub use number::read_number;
pub use reading::read_text;
