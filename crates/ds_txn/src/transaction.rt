//! A transaction before its commit.
ghost use Rattle.std.specs.Prelude.{◌≡◌, ◌+◌, ◌<◌, ◌≤◌, ◌⊎◌, ◌++◌, ◌∷◌, [], Some, None, length, unwrap_or};
ghost use Rattle.std.specs.Prelude.{slice_get, IsOk, IfOk, IfErr, OnOk, OnErr};
ghost use Rattle.std.specs.Option.{option_copied, option_map};
ghost use Rattle.std.specs.Result.{result_err};
ghost use Rattle.ds_base.specs.Limits.{most_groups, most_writes};
ghost use Rattle.ds_log.specs.declared.Write.TheVariants.{Put, Delete};
ghost use Rattle.ds_log.specs.Touches.{touch_place, with_touch};
ghost use Rattle.ds_log.specs.Conflicts.{conflict_from};
ghost use Rattle.ds_log.specs.Heads.{last_noted};
ghost use Rattle.ds_txn.specs.Transactions.{TxnParts, touches_of, touch_refusal, new_group_refusal, write_refusal};
ghost use Rattle.ds_txn.specs.Transactions.{IsWriteAnswer};

use crate::refusals::{TxnRefused, WriteCause, WriteRefused};
use ds_base::limits::{MAX_GROUPS, MAX_WRITES};
use ds_base::{Key, NoMemory, TryCopy};
use ds_entity::Entity;
use ds_log::{Conflict, Heads, Touch, Touches, Write, Writes};
use indexmap::IndexMap;
use std::alloc::Global;
use std::marker::Model;

/// The groups that a transaction touched, with the place in the journal at which it reads each, and its writes.
///
/// Contracts see also how many groups and writes it takes without memory.
#[derive(Drop)]
pub struct Txn {
    several_groups: bool,
    groups: IndexMap<Key, u64>,
    writes: Vec<Write>,
}

impl Model for Txn {
    ghost use Rattle.std.specs.Prelude.{◌-◌, ◌≤◌, length};
    ghost use Rattle.std.specs.Vec.{vec_len, vec_capacity};
    ghost use Rattle.indexmap.specs.IndexMap.{spare};
    ghost use Rattle.ds_base.specs.Limits.{most_writes};
    ghost use Rattle.ds_txn.specs.Transactions.{TxnParts, touches_of, most_touched};

    ghost Value = { TxnParts };

    ghost view = { λ t. record {
      several_groups = t.several_groups;
      touched = touches_of t.groups.entries;
      writes = t.writes.items;
      touch_spare = spare t.groups;
      write_spare = vec_capacity t.writes - vec_len t.writes;
    } };

    ghost invariant = { λ t. (length t.groups.entries ≤ most_touched t.several_groups) × (length t.writes.items ≤ most_writes) };
}

/// What a commit takes from a transaction.
#[derive(Drop)]
pub struct Parts {
    /// The touched groups in touch order, at most 25, each with its touch place.
    pub touched: Touches,
    /// The writes in their order, at most 500.
    pub writes: Writes,
}

impl Txn {
    /// An empty transaction, which may touch several groups where `xg` says so and else one. It takes no memory.
    pub fn begin(alloc: Global, xg: bool) -> Txn
        ensures several { result.several_groups ≡ xg }
        ensures touched { result.touched ≡ [] }
        ensures writes { result.writes ≡ [] }
    {
        Txn {
            several_groups: xg,
            groups: IndexMap::new(alloc),
            writes: Vec::new(alloc),
        }
    }

    /// The group's touch place, a number of commits from the front; `None` exactly where it isn't touched. It takes no
    /// memory.
    pub fn place(&self, group: &Key) -> Option<u64>
        ensures { result ≡ touch_place group.now self.now.touched }
    {
        self.groups.get(group).copied()
    }

    /// The i-th touched group in touch order, the first one being that at 0; `None` exactly where there are no more. It takes no memory.
    pub fn group(&self, i: usize) -> Option<&Key>
        ensures { option_copied result ≡ option_map (λ t. t.group) (slice_get self.now.touched i) }
    {
        match self.groups.get_index(i) {
            Some((group, _)) => Some(group),
            None => None,
        }
    }

    /// How many writes there are, at most 500. It takes no memory.
    pub fn writes(&self) -> u64
        ensures value { result ≡ length self.now.writes }
        ensures few { length self.now.writes ≤ most_writes }
    {
        self.writes.len() as u64
    }

    /// Copies of the touched groups and of the writes. An entity's copy shares its properties.
    pub fn parts(&self, alloc: Global) -> Result<Parts, NoMemory>
        ensures touched { IfOk result (λ parts. parts.touched ≡ self.now.touched) }
        ensures writes { IfOk result (λ parts. parts.writes ≡ self.now.writes) }
        ensures few_groups { length self.now.touched ≤ most_groups }
        ensures few_writes { length self.now.writes ≤ most_writes }
    {
        Ok(Parts {
            touched: copy_touches(alloc, &self.groups)?,
            writes: copy_writes(alloc, self.writes.as_slice())?,
        })
    }

    /// Makes room, so that the next `touch`, and the next `put` or `delete`, are not refused when out of memory. A refusal
    /// changes nothing.
    pub fn make_room(&mut self) -> Result<(), NoMemory>
        ensures several { self.new.several_groups ≡ self.old.several_groups }
        ensures touched { self.new.touched ≡ self.old.touched }
        ensures writes { self.new.writes ≡ self.old.writes }
        ensures touch_room { OnOk result (0 < self.new.touch_spare) }
        ensures write_room { OnOk result (0 < self.new.write_spare) }
    {
        self.groups.reserve(1)?;
        self.writes.reserve(1)
    }

    /// Touches the group of this root key, and gives its touch place: `place`, or the one that it has where it was touched
    /// before. A refusal is the one that `may_touch` answers, or lack of memory, which doesn't come where there is room, and
    /// changes nothing.
    pub fn touch(&mut self, group: Key, place: u64) -> Result<u64, TxnRefused>
        ensures place { IfOk result (λ m. m ≡ unwrap_or (touch_place group self.old.touched) place) }
        ensures touched { OnOk result (self.new.touched ≡ with_touch group place self.old.touched) }
        ensures refused { (result_err result ≡ touch_refusal self.old (Some group))
            ⊎ ((result_err result ≡ Some TxnRefused.NoMemory) × (touch_refusal self.old (Some group) ≡ None)) }
        ensures room { 0 < self.old.touch_spare → result_err result ≡ touch_refusal self.old (Some group) }
        ensures err { OnErr result (self.new.touched ≡ self.old.touched) }
        ensures several { self.new.several_groups ≡ self.old.several_groups }
        ensures writes { self.new.writes ≡ self.old.writes }
        ensures write_room { self.new.write_spare ≡ self.old.write_spare }
    {
        if let Some(first) = self.place(&group) {
            return Ok(first);
        }
        self.may_touch_new()?;
        match self.touch_new(group, place) {
            Ok(()) => Ok(place),
            Err(_) => Err(TxnRefused::NoMemory),
        }
    }

    /// Touches a group that isn't touched and may be.
    fn touch_new(&mut self, group: Key, place: u64) -> Result<(), NoMemory>
        requires untouched { touch_place group self.old.touched ≡ None }
        requires allowed { new_group_refusal self.old ≡ None }
        ensures ok { OnOk result (self.new.touched ≡ self.old.touched ++ record { group = group; place = place } ∷ []) }
        ensures err { OnErr result (self.new.touched ≡ self.old.touched) }
        ensures room { 0 < self.old.touch_spare → IsOk result }
        ensures several { self.new.several_groups ≡ self.old.several_groups }
        ensures writes { self.new.writes ≡ self.old.writes }
        ensures write_room { self.new.write_spare ≡ self.old.write_spare }
    {
        self.groups.insert(group, place)?;
        Ok(())
    }

    /// Whether the group may be touched, `None` standing for one that isn't touched yet: `SecondGroup` exactly where it
    /// would be a second one and the transaction has one alone, `TooManyGroups` exactly where it would be the 26th. It takes
    /// no memory.
    pub fn may_touch(&self, group: Option<&Key>) -> Result<(), TxnRefused>
        ensures { result_err result ≡ touch_refusal self.now (option_copied group.entry) }
    {
        match group {
            Some(group) if self.place(group).is_some() => Ok(()),
            _ => self.may_touch_new(),
        }
    }

    fn may_touch_new(&self) -> Result<(), TxnRefused>
        ensures { result_err result ≡ new_group_refusal self.now }
    {
        if self.several_groups {
            if self.groups.len() < MAX_GROUPS {
                Ok(())
            } else {
                Err(TxnRefused::TooManyGroups)
            }
        } else if self.groups.is_empty() {
            Ok(())
        } else {
            Err(TxnRefused::SecondGroup)
        }
    }

    /// Takes the put of an entity as the last write. `TooManyWrites` comes exactly where there are 500 writes; want of
    /// memory doesn't come where there is room. A refusal changes nothing and hands the entity back.
    pub fn put(&mut self, entity: Entity) -> Result<(), WriteRefused<Entity>>
        ensures ok { OnOk result (self.new.writes ≡ self.old.writes ++ Put entity ∷ []) }
        ensures back { IfErr result (λ refused. refused.thing ≡ entity) }
        ensures refused { IsWriteAnswer (write_refusal self.old) (option_map (λ refused. refused.cause) (result_err result)) }
        ensures room { 0 < self.old.write_spare → option_map (λ refused. refused.cause) (result_err result) ≡ write_refusal self.old }
        ensures err { OnErr result (self.new.writes ≡ self.old.writes) }
        ensures several { self.new.several_groups ≡ self.old.several_groups }
        ensures touched { self.new.touched ≡ self.old.touched }
        ensures touch_room { self.new.touch_spare ≡ self.old.touch_spare }
    {
        match self.room_for_write() {
            Ok(()) => {
                self.push_write(Write::Put(entity));
                Ok(())
            }
            Err(cause) => Err(WriteRefused {
                cause,
                thing: entity,
            }),
        }
    }

    /// Takes the delete of the entity with this key as the last write. It is refused as `put` is, and hands the key back.
    pub fn delete(&mut self, key: Key) -> Result<(), WriteRefused<Key>>
        ensures ok { OnOk result (self.new.writes ≡ self.old.writes ++ Delete key ∷ []) }
        ensures back { IfErr result (λ refused. refused.thing ≡ key) }
        ensures refused { IsWriteAnswer (write_refusal self.old) (option_map (λ refused. refused.cause) (result_err result)) }
        ensures room { 0 < self.old.write_spare → option_map (λ refused. refused.cause) (result_err result) ≡ write_refusal self.old }
        ensures err { OnErr result (self.new.writes ≡ self.old.writes) }
        ensures several { self.new.several_groups ≡ self.old.several_groups }
        ensures touched { self.new.touched ≡ self.old.touched }
        ensures touch_room { self.new.touch_spare ≡ self.old.touch_spare }
    {
        match self.room_for_write() {
            Ok(()) => {
                self.push_write(Write::Delete(key));
                Ok(())
            }
            Err(cause) => Err(WriteRefused { cause, thing: key }),
        }
    }

    /// Whether one more write is taken: refused, with `TooManyWrites`, exactly where there are 500. It takes no memory.
    pub fn may_write(&self) -> Result<(), WriteCause>
        ensures { result_err result ≡ write_refusal self.now }
    {
        if self.writes.len() >= MAX_WRITES {
            Err(WriteCause::TooManyWrites)
        } else {
            Ok(())
        }
    }

    /// Makes room for one write, where one more is taken.
    fn room_for_write(&mut self) -> Result<(), WriteCause>
        ensures ok { OnOk result (0 < self.new.write_spare) }
        ensures refused { IsWriteAnswer (write_refusal self.old) (result_err result) }
        ensures room { 0 < self.old.write_spare → result_err result ≡ write_refusal self.old }
        ensures several { self.new.several_groups ≡ self.old.several_groups }
        ensures touched { self.new.touched ≡ self.old.touched }
        ensures writes { self.new.writes ≡ self.old.writes }
        ensures touch_room { self.new.touch_spare ≡ self.old.touch_spare }
    {
        self.may_write()?;
        match self.writes.reserve(1) {
            Ok(()) => Ok(()),
            Err(_) => Err(WriteCause::NoMemory),
        }
    }

    /// Puts a write at the end, for which there is room.
    fn push_write(&mut self, write: Write)
        requires room { 0 < self.old.write_spare }
        requires few { length self.old.writes < most_writes }
        ensures writes { self.new.writes ≡ self.old.writes ++ write ∷ [] }
        ensures several { self.new.several_groups ≡ self.old.several_groups }
        ensures touched { self.new.touched ≡ self.old.touched }
        ensures touch_room { self.new.touch_spare ≡ self.old.touch_spare }
    {
        self.writes.push(write).unwrap();
    }

    /// The conflict that a commit of the transaction has by these heads: the first touched group that a commit after its
    /// touch place wrote, with the last such commit, and the journal's length. Groups only read are among the touched
    /// ones. It takes no memory.
    pub fn check(&self, heads: &Heads) -> Result<(), Conflict>
        ensures { result_err result ≡ conflict_from (last_noted heads.now) heads.now.commits 0 self.now.touched }
    {
        let mut i = 0;
        while let Some((group, place)) = self.groups.get_index(i) {
            if let Some(commit) = heads.last_after(group, *place) {
                return Err(Conflict {
                    group: i as u32,
                    commit,
                    place: heads.length(),
                });
            }
            i += 1;
        }
        Ok(())
    }
}

fn copy_touches(alloc: Global, groups: &IndexMap<Key, u64>) -> Result<Touches, NoMemory>
    ensures { IfOk result (λ touched. touched ≡ touches_of groups.now.entries) }
{
    let mut touched = Vec::with_capacity(alloc, groups.len())?;
    for (group, place) in groups {
        let group = group.copy(alloc)?;
        touched.push(Touch {
            group,
            place: *place,
        })?;
    }
    Ok(Touches::from(touched))
}

fn copy_writes(alloc: Global, writes: &[Write]) -> Result<Writes, NoMemory>
    ensures { IfOk result (λ copies. copies ≡ writes.now) }
{
    let mut copies = Vec::with_capacity(alloc, writes.len())?;
    for write in writes {
        let copy = write.copy(alloc)?;
        copies.push(copy)?;
    }
    Ok(Writes::from(copies))
}
