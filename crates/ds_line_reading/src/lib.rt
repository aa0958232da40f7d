//! Parts of common lines, read from their tokens in one pass, with no JSON value in between.
//!
//! A line's tokens are those of the kit's `json`. What is read here is what `ds_json_reading` defines of the JSON value that the tokens
//! are, by the definitions of `json` and `serde_json`: `specs/Parts` says so once for all. None means that this is no common form, as a
//! key with a namespace, or that there was no memory: such a text is to be read as a JSON value.
//!
//! Begin with `form` (how a part is read), then `keys` and `values`; `objects` fills a table of members, in whatever order they stand.
#![tactic(auto)]

mod form;
mod keys;
mod lists;
mod objects;
mod scalars;
mod values;

pub use form::LineForm;
pub use keys::{LineKeyForm, read_entity_path};
pub use lists::read_list;
pub use objects::{Member, Slot, Table, fill_object};
pub use scalars::{read_flag, read_integer, read_natural, read_text, take_text};
pub use values::{LineValueForm, read_property_parts};
