//! What a query gives.
use ds_entity::{Results, Seen};
use ds_query::Place;

/// What a query found, and what of the store it saw.
#[derive(Drop)]
pub struct Answer {
    /// The results, in their order.
    pub results: Results,
    /// Where the next page begins.
    pub next: Option<Place>,
    /// What was looked at: a place, or a count of each shard.
    pub seen: Seen,
    /// Of a place, how many entries the commits up to there give the shard; of counts, the greatest commit of the last counted entries.
    pub beside: u64,
}
