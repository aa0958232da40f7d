//! The entities that a query of all shards sees.
ghost use Rattle.std.specs.Prelude.{◌≡◌, ◌++◌, [], map, All, IfOk, IsTrue, OnOk};
ghost use Rattle.std.specs.BTreeMap.{IsOrdered};
ghost use Rattle.std.specs.Option.{option_copied};
ghost use Rattle.ds_base.specs.KeyOrder.{key_cmp};
ghost use Rattle.ds_history.specs.Versions.{is_counted, listed, seen_at, seen_in, seen_of};

use crate::versions::{Keys, Version};
use ds_base::{Key, NoMemory, TextString};
use ds_entity::Entity;
use ds_rows::kind_of;
use std::alloc::Global;

/// Whether no entry of any shard is counted.
pub(crate) fn none_counted(counts: &[u64]) -> bool
    ensures { IsTrue result → All (λ n. n ≡ 0) counts.now }
{
    counts.iter().all(|count| *count == 0)
}

/// No entities.
pub(crate) fn no_entities<'a>(alloc: Global) -> Vec<&'a Entity>
    ensures { map (λ e. e.now) result.items ≡ [] }
{
    Vec::new(alloc)
}

/// The entities of a kind's keys, by key. A refusal means out of memory.
pub(crate) fn seen_in<'a>(
    alloc: Global,
    keys: &'a Keys,
    kind: &TextString,
    counts: &[u64],
) -> Result<Vec<&'a Entity>, NoMemory>
    ensures seen { IfOk result (λ es. map (λ e. e.now) es.items ≡ seen_in kind.now counts.now keys.now.entries) }
    ensures ordered { IsOrdered key_cmp keys.now }
{
    let mut entities = Vec::new(alloc);
    for (key, versions) in keys.iter() {
        push_some(&mut entities, seen_of(key, versions, kind, counts))?;
    }
    Ok(entities)
}

/// Puts an entity behind others, if there is one.
fn push_some<'a>(entities: &mut Vec<&'a Entity>, found: Option<&'a Entity>) -> Result<(), NoMemory>
    ensures { OnOk result (map (λ e. e.now) entities.new.items
        ≡ map (λ e. e.now) entities.old.items ++ listed (option_copied found.entry)) }
{
    if let Some(entity) = found {
        entities.push(entity)?;
    }
    Ok(())
}

/// The entity of a key of the kind.
fn seen_of<'a>(
    key: &Key,
    versions: &'a Vec<Version>,
    kind: &TextString,
    counts: &[u64],
) -> Option<&'a Entity>
    ensures { option_copied result ≡ seen_of kind.now counts.now (key.now, versions.now) }
{
    if kind.bytes() == kind_of(key) {
        seen_at(versions.as_slice(), counts)
    } else {
        None
    }
}

/// The entity that the last counted version leaves.
fn seen_at<'a>(versions: &'a [Version], counts: &[u64]) -> Option<&'a Entity>
    ensures { option_copied result ≡ seen_at counts.now versions.now }
{
    let mut earlier = versions.len();
    'back: while earlier > 0 {
        let version = &versions[earlier - 1];
        if is_counted(version, counts) {
            return version.left.as_ref();
        }
        earlier -= 1;
    }
    None
}

/// Whether a version is of a counted entry.
fn is_counted(version: &Version, counts: &[u64]) -> bool
    ensures { result ≡ is_counted counts.now version.now }
{
    match counts.get(version.shard as usize) {
        Some(count) => version.entry < *count,
        None => false,
    }
}
