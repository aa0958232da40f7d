//! The heads of the groups' logs, by which a commit's check takes one look-up per touched group.
ghost use Rattle.std.specs.Prelude.{◌≡◌, ◌+◌, ◌<◌, ◌≤◌, [], Some, cond, IsOk, OnOk, OnErr, IfErr};
ghost use Rattle.ds_base.specs.Keys.{KeyParts};
ghost use Rattle.ds_base.specs.KeyOrder.{same_key};
ghost use Rattle.ds_base.specs.Limits.{most_commits};
ghost use Rattle.ds_log.specs.Conflicts.{after_place};
ghost use Rattle.ds_log.specs.Heads.{last_noted};

use ds_base::{Key, NoMemory};
use indexmap::IndexMap;
use std::alloc::Global;
use std::marker::Model;

/// The last commit that wrote each group, and the journal's length. Contracts see also `spare`, how many groups are noted
/// without memory.
#[derive(Drop)]
pub struct Heads {
    lasts: IndexMap<Key, u64>,
    commits: u64,
}

impl Model for Heads {
    ghost use Rattle.std.specs.Prelude.{◌≤◌};
    ghost use Rattle.indexmap.specs.IndexMap.{spare};
    ghost use Rattle.ds_base.specs.Limits.{most_commits};
    ghost use Rattle.ds_log.specs.Heads.{HeadsParts};

    ghost Value = { HeadsParts };

    ghost view = { λ h. record { lasts = h.lasts.entries; commits = h.commits; spare = spare h.lasts } };

    ghost invariant = { λ h. h.commits ≤ most_commits };
}

impl Heads {
    /// Those of the empty journal. It takes no memory.
    pub fn make(alloc: Global) -> Heads
        ensures lasts { result.lasts ≡ [] }
        ensures commits { result.commits ≡ 0 }
    {
        Heads {
            lasts: IndexMap::new(alloc),
            commits: 0,
        }
    }

    /// The last commit that was noted for the group; `None` exactly where none was. It takes no memory.
    pub fn last(&self, group: &Key) -> Option<u64>
        ensures { result ≡ last_noted self.now group.now }
    {
        self.lasts.get(group).copied()
    }

    /// The last commit that was noted for the group, where it comes after the place: `None` exactly where none after it
    /// was. It takes no memory.
    pub fn last_after(&self, group: &Key, place: u64) -> Option<u64>
        ensures { result ≡ after_place place (last_noted self.now group.now) }
    {
        match self.last(group) {
            Some(commit) if place < commit => Some(commit),
            _ => None,
        }
    }

    /// How many commits were ended: the journal's length, at most 2^48. It takes no memory.
    pub fn length(&self) -> u64
        ensures value { result ≡ self.now.commits }
        ensures bounded { self.now.commits ≤ most_commits }
    {
        self.commits
    }

    /// Makes `commit` the group's last one; the other groups keep theirs. It is refused only when out of memory, which
    /// changes nothing and hands the group back, and never where there is room.
    pub fn note(&mut self, group: Key, commit: u64) -> Result<(), Key>
        ensures noted { OnOk result
            ((g : KeyParts) → last_noted self.new g ≡ cond (same_key group g) (Some commit) (last_noted self.old g)) }
        ensures commits { self.new.commits ≡ self.old.commits }
        ensures err { IfErr result (λ back. (back ≡ group) × (self.new.lasts ≡ self.old.lasts)) }
        ensures room { self.old.spare ≤ self.new.spare + 1 }
        ensures succeeds { 0 < self.old.spare → IsOk result }
    {
        match self.lasts.insert(group, commit) {
            Ok(_) => Ok(()),
            Err(refused) => Err(refused.value.0),
        }
    }

    /// Makes room for `groups` calls of `note`, which are not refused then. A refusal changes nothing.
    pub fn make_room(&mut self, groups: u32) -> Result<(), NoMemory>
        ensures lasts { self.new.lasts ≡ self.old.lasts }
        ensures commits { self.new.commits ≡ self.old.commits }
        ensures ok { OnOk result (groups ≤ self.new.spare) }
        ensures kept { self.old.spare ≤ self.new.spare }
        ensures succeeds { groups ≤ self.old.spare → IsOk result }
    {
        self.lasts.reserve(groups as usize)
    }

    /// Counts one more commit, whose groups are noted. It takes no memory.
    pub fn end_commit(&mut self)
        requires { self.old.commits < most_commits }
        ensures { self.new ≡ record self.old { commits = self.old.commits + 1 } }
    {
        self.commits += 1;
    }
}
