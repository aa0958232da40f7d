//! Why a text is no cursor of a query.
ghost use Rattle.std.specs.Prelude.{◌≡◌};
ghost use Rattle.ds_cursor.specs.declared.cursor.CursorRefused.TheVariants as refused;

use std::alloc::AllocError;

/// Why a text is no cursor of a branch.
#[derive(Clone, Copy, PartialEq, Eq, Debug)]
pub enum CursorRefused {
    /// The text isn't strict base64, its bytes are no cursor of any query, or its place is no row of the branch's columns.
    BadCursor,
    /// It is a cursor of another query.
    CursorMismatch,
    /// There was no memory.
    NoMemory,
}

impl From<AllocError> for CursorRefused {
    ghost from_gives = { λ e r. r ≡ refused.NoMemory };

    fn from(_refused: AllocError) -> CursorRefused {
        CursorRefused::NoMemory
    }
}
