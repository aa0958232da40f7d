//! The calls that a disk in memory keeps.
use ds_base::ByteString;

/// What a call asked for.
#[derive(Drop)]
pub enum Change {
    /// `len` or `read`, which change nothing.
    Look,
    /// `write_at`: the piece, from the place on.
    Write { at: u64, piece: ByteString },
    /// `cut` to this length.
    Cut { len: u64 },
    /// `sync`.
    Sync,
}

/// A call: what it asked for, and whether it failed.
#[derive(Drop)]
pub struct Call {
    pub change: Change,
    pub failed: bool,
}
