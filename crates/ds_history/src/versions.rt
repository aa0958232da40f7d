//! What was written at each key, by kind: a query of all shards looks at the keys of its kind, and rebuilds nothing.
ghost use Rattle.std.specs.Prelude.{◌≡◌, ◌≤◌, ◌++◌, ◌∷◌, [], bytes_eq, cond, map, IfOk, OnOk};
ghost use Rattle.ds_base.specs.Keys.{KeyParts};
ghost use Rattle.ds_base.specs.KeyOrder.{same_key};
ghost use Rattle.ds_base.specs.Limits.{most_shards};
ghost use Rattle.ds_model.specs.Worlds.{shard_lists};
ghost use Rattle.ds_rows.specs.IndexedValues.{kind_of};
ghost use Rattle.ds_history.specs.Versions.{entries_versions, keys_in, versions_at, versions_in, versions_of, writes_versions};
ghost use Rattle.ds_history.specs.Writers.{put_by};

use ds_base::{Key, NoMemory, TextString, TryCopy};
use ds_entity::Entity;
use ds_log::{Entry, Journal, Write, project};
use indexmap::IndexMap;
use std::alloc::{AllocError, Global};
use std::collections::BTreeMap;

/// What a write left at its key.
#[derive(Drop)]
pub(crate) struct Version {
    /// The shard of the key.
    pub(crate) shard: u32,
    /// Which of the shard's entries has the write, counted from 0.
    pub(crate) entry: u64,
    /// The entity, where one was put.
    pub(crate) left: Option<Entity>,
}

/// The versions of each key, the earliest first, by key.
pub(crate) type Keys = BTreeMap<Key, Vec<Version>>;

/// The keys of each kind.
pub(crate) type Kinds = IndexMap<TextString, Keys>;

/// The versions that the entries of all shards leave, of which there are 1 to 16. A refusal means out of memory.
pub(crate) fn versions_of(alloc: Global, journal: &Journal, shards: u32) -> Result<Kinds, NoMemory>
    requires least { 1 ≤ shards }
    requires most { shards ≤ most_shards }
    ensures { IfOk result (λ kinds. (k : KeyParts) → versions_in kinds.entries k ≡ versions_of k (shard_lists shards journal.now)) }
{
    let mut kinds = IndexMap::new(alloc);
    for shard in 0..shards {
        let entries = project(alloc, journal, shard, shards)?;
        note_entries(alloc, &mut kinds, shard, entries.as_slice())?;
    }
    Ok(kinds)
}

/// Notes the versions of a shard's entries.
fn note_entries(
    alloc: Global,
    kinds: &mut Kinds,
    shard: u32,
    entries: &[Entry],
) -> Result<(), NoMemory>
    ensures { OnOk result ((k : KeyParts) → versions_in kinds.new.entries k
        ≡ versions_in kinds.old.entries k ++ entries_versions shard k entries.now) }
{
    for (i, entry) in entries.iter().enumerate() {
        note_writes(alloc, kinds, shard, i as u64, entry.writes.as_slice())?;
    }
    Ok(())
}

/// Notes the versions of an entry's writes.
fn note_writes(
    alloc: Global,
    kinds: &mut Kinds,
    shard: u32,
    entry: u64,
    writes: &[Write],
) -> Result<(), NoMemory>
    ensures { OnOk result ((k : KeyParts) → versions_in kinds.new.entries k
        ≡ versions_in kinds.old.entries k ++ writes_versions shard entry k writes.now) }
{
    for write in writes {
        let left = left_by(alloc, write)?;
        note(alloc, kinds, write.key(), Version { shard, entry, left })?;
    }
    Ok(())
}

/// The entity that a write puts. A refusal means out of memory.
fn left_by(alloc: Global, write: &Write) -> Result<Option<Entity>, NoMemory>
    ensures { IfOk result (λ left. left ≡ put_by write.now) }
{
    match write {
        Write::Put(entity) => Ok(Some(entity.copy(alloc)?)),
        Write::Delete(_) => Ok(None),
    }
}

/// Notes one version more of a key.
fn note(alloc: Global, kinds: &mut Kinds, key: &Key, version: Version) -> Result<(), NoMemory>
    ensures { OnOk result ((k : KeyParts) → versions_in kinds.new.entries k
        ≡ cond (same_key key.now k) (versions_in kinds.old.entries k ++ version ∷ []) (versions_in kinds.old.entries k)) }
{
    let kind = kind_of(alloc, key)?;
    let mut keys = take_keys(alloc, kinds, &kind);
    note_key(alloc, &mut keys, key, version)?;
    put_keys(kinds, kind, keys)
}

/// The kind of a key's entity. A refusal means out of memory.
fn kind_of(alloc: Global, key: &Key) -> Result<TextString, NoMemory>
    ensures { IfOk result (λ kind. kind ≡ kind_of key.now) }
{
    match key.elems().as_slice().last() {
        Some(elem) => elem.kind.copy(alloc),
        None => Ok(TextString::new(alloc)),
    }
}

/// Takes out the keys of a kind.
fn take_keys(alloc: Global, kinds: &mut Kinds, kind: &TextString) -> Keys
    ensures taken { result.entries ≡ keys_in kinds.old.entries kind.now }
    ensures left { (k : KeyParts) → versions_in kinds.new.entries k
        ≡ cond (bytes_eq kind.now (kind_of k)) [] (versions_in kinds.old.entries k) }
{
    match kinds.swap_remove(kind) {
        Some(keys) => keys,
        None => BTreeMap::new(alloc),
    }
}

/// Keeps these keys of a kind.
fn put_keys(kinds: &mut Kinds, kind: TextString, keys: Keys) -> Result<(), NoMemory>
    ensures { OnOk result ((k : KeyParts) → versions_in kinds.new.entries k
        ≡ cond (bytes_eq kind (kind_of k)) (versions_at keys.entries k) (versions_in kinds.old.entries k)) }
{
    match kinds.insert(kind, keys) {
        Ok(_) => Ok(()),
        Err(_) => Err(AllocError),
    }
}

/// Notes one version more of a key of the kind.
fn note_key(alloc: Global, keys: &mut Keys, key: &Key, version: Version) -> Result<(), NoMemory>
    ensures { OnOk result ((k : KeyParts) → versions_at keys.new.entries k
        ≡ cond (same_key key.now k) (versions_at keys.old.entries k ++ version ∷ []) (versions_at keys.old.entries k)) }
{
    let mut versions = take_versions(alloc, keys, key);
    versions.push(version)?;
    put_versions(keys, key.copy(alloc)?, versions)
}

/// Takes out the versions of a key.
fn take_versions(alloc: Global, keys: &mut Keys, key: &Key) -> Vec<Version>
    ensures taken { result.items ≡ versions_at keys.old.entries key.now }
    ensures left { (k : KeyParts) → versions_at keys.new.entries k
        ≡ cond (same_key key.now k) [] (versions_at keys.old.entries k) }
{
    match keys.remove(key) {
        Some(versions) => versions,
        None => Vec::new(alloc),
    }
}

/// Keeps these versions of a key.
fn put_versions(keys: &mut Keys, key: Key, versions: Vec<Version>) -> Result<(), NoMemory>
    ensures { OnOk result ((k : KeyParts) → versions_at keys.new.entries k
        ≡ cond (same_key key k) versions.items (versions_at keys.old.entries k)) }
{
    match keys.insert(key, versions) {
        Ok(_) => Ok(()),
        Err(_) => Err(AllocError),
    }
}
