//! Keys and values as bytes whose order is theirs, for the rows of tables and for the shards of entity groups.
//!
//! It stands on `ds_base`, whose keys and values it writes and reads, and on the vector kernels of `ds_lanes`. Begin with
//! `specs/Encoding`, which says what each encoding is; `encoder` writes them, and `decoder` reads them. What later crates
//! may know of the bytes is proved in `specs/`: that they have the order of what is encoded, in both directions, and are
//! read in one way (`EncodingLaws`); the same of rows (`RowLaws`); which bytes the keys under an ancestor begin with
//! (`AncestorLaws`); and how writings in order are put together (`OrderedLaws`). The functions of `laws` tell the first three.
#![tactic(auto)]

mod blocks;
pub mod decoder;
pub mod encoder;
mod input;
pub mod laws;
mod marks;
mod output;

pub use decoder::{Decoded, DecodedKey, decode, decode_key};
pub use encoder::{encode, encode_ancestor, encode_key, encode_text};
