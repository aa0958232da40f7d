//! Values as the indexes hold them.
ghost use Rattle.std.specs.Prelude.{◌≡◌, Some, refl};
ghost use Rattle.std.specs.Cmp.{eq_by_cmp_equiv, partial_equiv_from_equiv};
ghost use Rattle.std.specs.Ordering.{eq_by_cmp, as_partial_cmp};

use crate::key::Key;
use crate::sequence::{Sequence, TryCopy};
use crate::text::ByteString;
use std::alloc::{AllocError, Global};
use std::cmp::Ordering;

/// A value as an index holds it. Values sort by class, in the order of the variants, and inside a class numerically,
/// `false` before `true`, by bytes, or as keys do.
#[derive(Drop)]
pub enum IndexValue {
    /// Null, before all others.
    Null,
    /// Integers, dates and ratings.
    Num(i64),
    /// Truth values.
    Bool(bool),
    /// Byte strings, and strings as UTF-8.
    Bytes(ByteString),
    /// Keys, after all others.
    Key(Key),
}

/// Index values in their order.
pub type IndexValues = Sequence<IndexValue>;

impl TryCopy for IndexValue {
    fn copy(&self, alloc: Global) -> Result<IndexValue, AllocError> {
        Ok(match self {
            IndexValue::Null => IndexValue::Null,
            IndexValue::Num(n) => IndexValue::Num(*n),
            IndexValue::Bool(b) => IndexValue::Bool(*b),
            IndexValue::Bytes(bytes) => IndexValue::Bytes(bytes.copy(alloc)?),
            IndexValue::Key(key) => IndexValue::Key(key.copy(alloc)?),
        })
    }
}
