//! From JSON values to keys, values and lists: the forms that requests, and other texts with such parts, have in common.
//!
//! What a form reads is a function of the JSON value that `serde_json` reads from a text: `specs/Reading` says how forms are put together,
//! `specs/Keys` and `specs/Values` what keys and values look like. Of the code begin with `form` (a rule by which a value is read) and
//! `members` (the members of an object). It stands on `ds_base`, and on the kit's `serde_json` and `base64`.
#![tactic(auto)]

mod entries;
mod form;
mod integers;
mod keys;
mod lists;
mod members;
mod refusal;
mod values;

pub use entries::{EntryForm, read_entries};
pub use form::Form;
pub use integers::{natural, up_to};
pub use keys::{KeyForm, WritableKeyForm, read_entity_key};
pub use lists::{ListForm, read_some, take_three, take_two};
pub use members::{Members, member, take_member, unless_null};
pub use refusal::Refusal;
pub use values::{ValueForm, only, read_property_values, take_only};
