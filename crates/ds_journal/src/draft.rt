//! A commit that is prepared.
ghost use Rattle.std.specs.Prelude.{◌≡◌, ◌≤◌, ◌<◌, ◌^◌, [], length, IsTrue, IfOk};
ghost use Rattle.ds_base.specs.Keys.{root_of, renumbered, ends_in_id};
ghost use Rattle.ds_base.specs.Limits.{greatest_id, most_writes};
ghost use Rattle.ds_log.specs.Logs.{key_of, groups_of};
ghost use Rattle.ds_journal.specs.Drafts.{is_one_put, renumbered_commit, renumbered_write};

use ds_base::{Key, NoMemory};
use ds_log::{Commit, Touches, Write, Writes, groups_of};
use std::alloc::{AllocError, Global};
use std::marker::Model;
use std::mem;

/// A prepared commit, which contracts see as the commit. It holds the root keys of the groups that it writes, which the
/// heads take over, so that the commit itself copies nothing.
#[derive(Drop)]
pub struct Draft {
    commit: Commit,
    groups: Vec<Key>,
}

impl Model for Draft {
    ghost use Rattle.std.specs.Prelude.{◌≡◌, ◌≤◌, ◌<◌, ◌^◌, length};
    ghost use Rattle.ds_base.specs.Limits.{most_writes};
    ghost use Rattle.ds_log.specs.declared.Commit.{Commit};
    ghost use Rattle.ds_log.specs.Logs.{groups_of};

    ghost Value = { Commit };

    ghost view = { λ d. d.commit };

    ghost invariant = { λ d. (d.groups.items ≡ groups_of d.commit.writes) × (length d.commit.writes ≤ most_writes)
        × (length d.commit.touched < 2 ^ 32) };
}

impl Draft {
    /// The commit of a client, 0 to 15, that touched these groups and makes at most 500 writes. It takes the memory that the
    /// commit needs; 2^32 touches or more are refused as out of memory.
    pub fn make(
        alloc: Global,
        client: u32,
        touched: Touches,
        writes: Writes,
    ) -> Result<Draft, NoMemory>
        requires few { length writes ≤ most_writes }
        ensures { IfOk result (λ draft. draft ≡ record { client = client; touched = touched; writes = writes }) }
    {
        if touched.len() > u32::MAX as usize {
            return Err(AllocError);
        }
        let groups = groups_of(alloc, &writes)?;
        let commit = Commit {
            client,
            touched,
            writes,
        };
        Ok(Draft { commit, groups })
    }

    /// The commit that is prepared. It takes no memory.
    pub fn commit(&self) -> &Commit
        ensures value { result.now ≡ self.now }
        ensures few { length self.now.writes ≤ most_writes }
        ensures few_groups { length self.now.touched < 2 ^ 32 }
    {
        &self.commit
    }

    /// The commit, and the root keys of the groups that it writes, each once.
    pub(crate) fn into_parts(self) -> (Commit, Vec<Key>)
        ensures commit { result.0 ≡ self }
        ensures groups { result.1.items ≡ groups_of self.writes }
        ensures few { length self.writes ≤ most_writes }
    {
        (self.commit, self.groups)
    }

    /// Gives the one entity that is put the id `id`, as the last identifier of its key; its group is then the root of the new
    /// key, and nothing else changes. It takes no memory.
    pub fn renumber(&mut self, id: u64)
        requires one_put { IsTrue (is_one_put self.old.writes) }
        requires untouched { self.old.touched ≡ [] }
        requires positive { 1 ≤ id }
        requires bounded { id ≤ greatest_id }
        ensures { self.new ≡ renumbered_commit self.old id }
    {
        let alloc = *self.groups.allocator();
        let mut writes = mem::replace(&mut self.commit.writes, Writes::new(alloc)).into_vec();
        renumber_root(&mut self.groups[0], writes[0].key(), id);
        renumber_write(&mut writes[0], id);
        self.commit.writes = Writes::from(writes);
    }
}

/// Makes the root of a key that of the renumbered key.
fn renumber_root(root: &mut Key, key: &Key, id: u64)
    requires root { root.old ≡ root_of key.now }
    requires ends_in_id { IsTrue (ends_in_id key.now.elems) }
    requires positive { 1 ≤ id }
    requires bounded { id ≤ greatest_id }
    ensures { root.new ≡ root_of (renumbered key.now id) }
{
    if key.elems().len() == 1 {
        root.renumber(id);
    }
}

fn renumber_write(write: &mut Write, id: u64)
    requires ends_in_id { IsTrue (ends_in_id (key_of write.old).elems) }
    requires positive { 1 ≤ id }
    requires bounded { id ≤ greatest_id }
    ensures { write.new ≡ renumbered_write id write.old }
{
    match write {
        Write::Put(entity) => entity.renumber(id),
        Write::Delete(key) => key.renumber(id),
    }
}
