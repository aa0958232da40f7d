//! What a window gives of rows.
use ds_query::{Place, RowList};

/// A page of rows, each with its place.
#[derive(Drop)]
pub struct RowPage {
    /// The first row of each result that is taken, in order.
    pub rows: RowList,
    /// Where the next page begins: the place of the last result skipped or taken, else the window's start.
    pub next: Option<Place>,
}
