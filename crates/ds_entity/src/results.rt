//! What queries give: items, and what of the store they saw.
use crate::entity::Entity;
use ds_base::{Counts, IndexValues, Key, Sequence};

/// One result of a query.
#[derive(Drop)]
pub struct Item {
    /// The key of the entity that matched.
    pub key: Key,
    /// Given exactly where entities are selected.
    pub entity: Option<Entity>,
    /// One value per name of a projection, in its order; empty otherwise.
    pub projected: IndexValues,
}

/// The results of a query, in its order.
pub type Results = Sequence<Item>;

/// What a query saw.
#[derive(Drop)]
pub enum Seen {
    /// Without an ancestor: so many entries of each shard's log, counted from its front.
    Counts(Counts),
    /// With an ancestor: the commits of the journal up to this one, the first being 1; 0 for none.
    Place(u64),
}
