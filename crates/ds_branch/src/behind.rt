//! Rows of which the first ones aren't asked for.
use ds_base::ByteString;
use ds_query::{Place, RowList};

/// What is given of rows of which the first so many aren't asked for.
#[derive(Drop)]
pub struct RowsBehind {
    /// The rows, without the first ones, or with all or some of them.
    pub rows: RowList,
    /// How many of these are still to be left out.
    pub left: u32,
    /// How many there were with the first ones.
    pub count: usize,
    /// The place of the last of them, if there were any.
    pub last: Option<Place>,
    /// The places of all, if they were asked for.
    pub places: Vec<ByteString>,
}
