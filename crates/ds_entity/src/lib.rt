//! Entities, with the conditions and limits that they keep, and what queries give of them.
//!
//! It stands on `ds_base`, which has their keys and values. Begin with `Entity::new`; the definitions that the contracts cite are
//! in `specs/`: `Entities` (sizes, and why an entity is refused) and `EntityOrder` (entities in the order of their keys).
#![tactic(auto)]

pub mod entity;
mod entity_rules;
pub mod results;

pub use entity::{Entities, Entity, EntityRefused, Properties, Property};
pub use results::{Item, Results, Seen};
