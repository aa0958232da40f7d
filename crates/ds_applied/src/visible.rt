//! Entities that a read sees.
ghost use Rattle.std.specs.Prelude.{◌≡◌, ◌≤◌, ◌++◌, List, [], length, map, IfOk, OnOk};
ghost use Rattle.std.specs.Option.{option_copied};
ghost use Rattle.ds_entity.specs.Entities.{EntityParts};
ghost use Rattle.ds_log.specs.declared.Entry.{Entry};
ghost use Rattle.ds_model.specs.Results.{entity_of};
ghost use Rattle.ds_applied.specs.ByKey.{joined, KeysDiffer};
ghost use Rattle.ds_entity.specs.EntityOrder.{sorted_by_key};
ghost use Rattle.ds_applied.specs.AppliedLists.{left_by};

use crate::entity_map::EntityMap;
use ds_base::{Key, NoMemory};
use ds_entity::Entity;
use ds_log::Entry;
use std::alloc::Global;
use std::marker::Model;

/// Where the entities lie: kept as they are, or rebuilt from entries.
#[derive(Drop)]
enum Source<'a> {
    Kept(&'a EntityMap),
    Rebuilt(EntityMap),
}

/// The entities that a shard's entries up to a count leave. Contracts see them as a list in the order of the keys.
#[derive(Drop)]
pub struct Visible<'a> {
    source: Source<'a>,
}

impl<'a> Model for Visible<'a> {
    ghost use Rattle.std.specs.Prelude.{List};
    ghost use Rattle.ds_entity.specs.Entities.{EntityParts};

    ghost Value = { List EntityParts };

    ghost use Rattle.ds_applied.specs.Sources.{entities_from};

    ghost view = { λ v. entities_from v.source };
}

impl<'a> Visible<'a> {
    /// The entities that are kept. It takes no memory.
    pub(crate) fn kept(entities: &'a EntityMap) -> Visible<'a>
        ensures { result ≡ entities.now }
    {
        Visible {
            source: Source::Kept(entities),
        }
    }

    /// The entities that entries leave, rebuilt from them. A refusal means out of memory.
    pub(crate) fn rebuilt(alloc: Global, entries: &[Entry]) -> Result<Visible<'a>, NoMemory>
        ensures { IfOk result (λ v. v ≡ left_by entries.now (length entries.now)) }
    {
        Ok(Visible {
            source: Source::Rebuilt(EntityMap::rebuilt(alloc, entries)?),
        })
    }

    fn map(&self) -> &EntityMap
        ensures { result.now ≡ self.now }
    {
        match &self.source {
            Source::Kept(map) => map,
            Source::Rebuilt(map) => map,
        }
    }

    /// The entity of a key; `None` exactly where there is none. It takes no memory, and time by the logarithm of the entities.
    pub fn get(&self, key: &Key) -> Option<&Entity>
        ensures { option_copied result ≡ entity_of self.now key.now }
    {
        self.map().get(key)
    }

    /// The entities by key, as references. A refusal means out of memory.
    pub fn entities(&self, alloc: Global) -> Result<Vec<&Entity>, NoMemory>
        ensures { IfOk result (λ es. map (λ e. e.now) es.items ≡ self.now) }
    {
        let mut entities = Vec::with_capacity(alloc, self.map().len())?;
        self.map().put_all(&mut entities)?;
        Ok(entities)
    }
}

/// The entities of all shards, at a count of entries for each. Contracts see them as one list, in which those of each shard stand in
/// the order of their keys.
#[derive(Drop)]
pub struct AllVisible<'a> {
    shards: Vec<Visible<'a>>,
}

impl<'a> Model for AllVisible<'a> {
    ghost use Rattle.std.specs.Prelude.{List};
    ghost use Rattle.ds_entity.specs.Entities.{EntityParts};
    ghost use Rattle.ds_applied.specs.ByKey.{joined};

    ghost Value = { List EntityParts };

    ghost view = { λ a. joined a.shards.items };
}

impl<'a> AllVisible<'a> {
    /// Those of shards, shard 0 first. It takes no memory.
    pub(crate) fn of_shards(shards: Vec<Visible<'a>>) -> AllVisible<'a>
        ensures { result ≡ joined shards.entry.items }
    {
        AllVisible { shards }
    }

    /// The entities by key, as references; shards have no key in common, so their order is the only one. n entities take the time
    /// n log n, and ascending runs are kept and merged. A refusal means out of memory.
    pub fn entities(&self, alloc: Global) -> Result<Vec<&Entity>, NoMemory>
        ensures { KeysDiffer self.now → IfOk result (λ es. map (λ e. e.now) es.items ≡ sorted_by_key self.now) }
    {
        let entities = self.unsorted(alloc)?;
        sorted(entities)
    }

    fn unsorted(&self, alloc: Global) -> Result<Vec<&Entity>, NoMemory>
        ensures { IfOk result (λ es. map (λ e. e.now) es.items ≡ self.now) }
    {
        let mut entities = Vec::new(alloc);
        for shard in self.shards.as_slice() {
            shard.map().put_all(&mut entities)?;
        }
        Ok(entities)
    }
}

/// Entities of distinct keys in the order of their keys.
fn sorted<'a>(entities: Vec<&'a Entity>) -> Result<Vec<&'a Entity>, NoMemory>
    ensures { KeysDiffer (map (λ e. e.now) entities.entry.items)
        → IfOk result (λ es. map (λ e. e.now) es.items ≡ sorted_by_key (map (λ e. e.now) entities.entry.items)) }
{
    let mut entities = entities;
    entities.sort_by(|a, b| a.key().cmp(b.key()))?;
    Ok(entities)
}
