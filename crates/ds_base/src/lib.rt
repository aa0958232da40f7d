//! The types that everything else stands on: texts, byte strings, lists, keys and values, with their orders and limits.
//!
//! It stands on std alone. Begin with `sequence` (the one list type) and `key`; the definitions that the contracts
//! cite are in `specs/`: `Limits` (each number once), `Keys` (what a key is, reserved names), `KeyOrder` and
//! `IndexOrder` (how keys and index values compare, what lies under a key), `KeyColumn` (the column of keys), `KeyHash`
//! (what hashing a key feeds), `Values` (index values, and which values no entity may have), `Buffers`, and for the crates
//! above `Memory` (lack of memory alone is free), `Bytes`, `Least` and `Sorting` (putting a list in order). What is proved of
//! them stands apart, in the files whose names end in `Laws`.
#![tactic(auto)]

pub mod buffer;
pub mod column;
mod index_order;
pub mod index_value;
pub mod key;
pub mod key_column;
mod key_order;
pub mod limits;
pub mod lists;
pub mod named_value;
pub mod sequence;
pub mod text;
pub mod value;

pub use buffer::Buffer;
pub use column::{Column, Columns};
pub use index_value::{IndexValue, IndexValues};
pub use key::{BadKey, Elem, Elems, Ident, Key, is_name, is_namespace, is_reserved};
pub use key_column::{KEY_NAME, is_ascending_key, is_by_key, is_key_name, key_descends};
pub use lists::{ByteStrings, Counts, Names, Numbers};
pub use named_value::{NamedValue, NamedValues};
pub use sequence::{Sequence, TryCopy, copy_of};
pub use text::{ByteString, TextString};
pub use value::{Value, Values};

/// Want of memory: std's refusal of an allocation.
pub type NoMemory = std::alloc::AllocError;
