//! One line, as whoever answers it is handed it.

/// A line that isn't empty.
#[derive(Clone, Copy, Debug)]
pub enum Line<'a> {
    /// Its bytes without the newline, at most `MAX_LINE_BYTES` of `ds_base`'s limits.
    Kept(&'a [u8]),
    /// It has more bytes than a line may have, and isn't kept.
    TooLong,
}
