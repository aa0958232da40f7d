//! Small lists of single values.
use crate::sequence::{Sequence, TryCopy};
use crate::text::{ByteString, TextString};
use std::alloc::{AllocError, Global};

/// Names in their order, as those of a projection.
pub type Names = Sequence<TextString>;

/// Byte strings in their order.
pub type ByteStrings = Sequence<ByteString>;

/// Numbers in their order.
pub type Numbers = Sequence<u64>;

/// One count per shard, shard 0 first: how many of its log entries are applied.
pub type Counts = Sequence<u64>;

impl TryCopy for u64 {
    fn copy(&self, _alloc: Global) -> Result<u64, AllocError> {
        Ok(*self)
    }
}
