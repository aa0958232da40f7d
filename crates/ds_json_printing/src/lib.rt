//! From keys and values to JSON: compact text, put piece by piece into what counts its bytes or keeps them.
//!
//! Of the definitions begin with `specs/Printing` (how keys and values are shown); `specs/Objects` says how the members of an
//! object stand. Of the code begin with `output` (what takes the pieces) and `parts` (keys alone). It stands on `ds_base`, on
//! `serde_json` and `json` for what a JSON text is, and on `base64` and `itoa` for symbols and digits.
#![tactic(auto)]

pub mod keys;
pub mod output;
mod parts;
pub mod text;
pub mod values;

pub use keys::write_key;
pub use output::{Growing, Output};
pub use parts::append_key;
pub use text::{write_boolean, write_comma, write_natural, write_string, write_text};
pub use values::{write_index_value, write_values};
