//! The versions of one entity.
ghost use Rattle.std.specs.Prelude.{◌≡◌, ◌↔◌, ◌++◌, [], ◌∷◌, None, Some, cond, map, find, option_map, if◌then◌else◌, OnOk, OnErr};
ghost use Rattle.std.specs.Prelude.{IsFalse, IsTrue};
ghost use Rattle.std.specs.List.{filter_map};
ghost use Rattle.std.specs.Option.{option_copied};
ghost use Rattle.ds_rows.specs.Versions.{Version, is_before, is_seen};
ghost use Rattle.ds_shard.specs.Histories.{is_open, until_stamp, before_stamp, trimmed, version_of, last_begins_at, ends_at};
ghost use Rattle.ds_shard.specs.Histories.{first_is_over, BeginsBy, IsOver, IsHistory};
ghost use Rattle.std.specs.List.{AllByRecursion as Each};

use ds_base::{NoMemory, TryCopy};
use ds_entity::Entity;
use std::alloc::Global;
use std::collections::VecDeque;
use std::marker::Model;

/// An entity as a write left it, from the stamp of that write on, up to the one that replaced or deleted it, without it.
#[derive(Drop)]
pub(crate) struct Kept {
    pub(crate) entity: Entity,
    pub(crate) from: u64,
    pub(crate) until: Option<u64>,
}

impl Kept {
    /// The entity, unless the version has ended.
    fn current(&self) -> Option<&Entity>
        ensures { option_copied result ≡ cond (is_open self.now.until) (Some self.now.entity) None }
    {
        match self.until {
            None => Some(&self.entity),
            Some(_) => None,
        }
    }

    /// The entity, unless the version has ended by the stamp.
    fn before_end(&self, at: u64) -> Option<&Entity>
        ensures { option_copied result ≡ cond (is_before self.now.until at) (Some self.now.entity) None }
    {
        if is_before(self.until, at) {
            Some(&self.entity)
        } else {
            None
        }
    }

    /// Ends the version at the stamp, unless it has ended.
    fn end(&mut self, stamp: u64)
        ensures { version_of self.new ≡
            (if is_open self.old.until then until_stamp (Some stamp) (version_of self.old) else version_of self.old) }
    {
        if let None = self.until {
            self.until = Some(stamp);
        }
    }

    /// Opens the version where it ended at the stamp.
    fn reopen(&mut self, stamp: u64)
        ensures { version_of self.new ≡
            (if ends_at stamp self.old.until then until_stamp None (version_of self.old) else version_of self.old) }
    {
        if ends_at(self.until, stamp) {
            self.until = None;
        }
    }
}

/// Whether the stamp is before the end, if there is one.
fn is_before(until: Option<u64>, stamp: u64) -> bool
    ensures { result ≡ is_before until stamp }
{
    match until {
        None => true,
        Some(until) => stamp < until,
    }
}

/// The versions of the entity of one key in the order of their stamps: each ended when the next began, or before.
#[derive(Drop)]
pub(crate) struct VersionList {
    items: VecDeque<Kept>,
}

impl Model for VersionList {
    ghost use Rattle.std.specs.Prelude.{List, map};
    ghost use Rattle.ds_rows.specs.Versions.{Version};
    ghost use Rattle.ds_shard.specs.Histories.{version_of, IsHistory};

    ghost Value = { List Version };

    ghost view = { λ l. map version_of l.items.items };

    ghost invariant = { λ l. IsHistory (map version_of l.items.items) };
}

impl VersionList {
    /// No version. It takes no memory.
    pub(crate) fn new(alloc: Global) -> VersionList
        ensures { result ≡ [] }
    {
        VersionList {
            items: VecDeque::new(alloc),
        }
    }

    /// Whether there is no version.
    pub(crate) fn is_empty(&self) -> bool
        ensures { IsTrue result ↔ (self.now ≡ []) }
    {
        self.items.is_empty()
    }

    /// The entity that nothing replaced or deleted; `None` exactly where there is none.
    pub(crate) fn current(&self) -> Option<&Entity>
        ensures { option_copied result ≡ option_map (λ (v : Version). v.entity) (find (λ v. is_open v.until) self.now) }
    {
        match self.items.back() {
            Some(last) => last.current(),
            None => None,
        }
    }

    /// The entity that is seen at the stamp, by bisection; `None` exactly where there is none.
    pub(crate) fn seen_at(&self, at: u64) -> Option<&Entity>
        ensures { option_copied result ≡ option_map (λ (v : Version). v.entity) (find (is_seen at) self.now) }
    {
        let begun = self.items.partition_point(|v| v.from <= at);
        if begun == 0 {
            return None;
        }
        self.items[begun - 1].before_end(at)
    }

    /// Ends the version that isn't ended, if there is one, at the stamp, by which each one began. It takes no memory.
    pub(crate) fn end(&mut self, stamp: u64)
        requires { Each (BeginsBy stamp) self.old }
        ensures ended { self.new ≡ map (λ v. if is_open v.until then until_stamp (Some stamp) v else v) self.old }
        ensures history { IsHistory self.new }
    {
        end_last(&mut self.items, stamp);
    }

    /// Begins a version at the stamp, by which each one has ended. A refusal, which means out of memory, changes nothing.
    pub(crate) fn begin(
        &mut self,
        alloc: Global,
        entity: &Entity,
        stamp: u64,
    ) -> Result<(), NoMemory>
        requires { Each (IsOver stamp) self.old }
        ensures begun { OnOk result (self.new ≡ self.old ++ record { entity = entity.now; from = stamp; until = None } ∷ []) }
        ensures unchanged { OnErr result (self.new ≡ self.old) }
        ensures history { OnOk result (IsHistory self.new) }
    {
        let version = Kept {
            entity: entity.copy(alloc)?,
            from: stamp,
            until: None,
        };
        make_room(&mut self.items)?;
        self.items.push_back(version)?;
        Ok(())
    }

    /// Takes back what was done at the stamp, after which nothing began. It takes no memory.
    pub(crate) fn undo(&mut self, stamp: u64)
        requires { Each (BeginsBy stamp) self.old }
        ensures undone { self.new ≡ filter_map (before_stamp stamp) self.old }
        ensures history { IsHistory self.new }
    {
        take_off(&mut self.items, stamp);
        open_last(&mut self.items, stamp);
    }

    /// Takes out the versions that ended at or before the floor, which stand in front. It takes no memory.
    pub(crate) fn trim(&mut self, floor: u64)
        ensures trimmed { self.new ≡ trimmed floor self.old }
        ensures history { IsHistory self.new }
    {
        trim_front(&mut self.items, floor);
    }
}

/// Makes room for the first version alone: most entities are never written again. A refusal means out of memory.
fn make_room(items: &mut VecDeque<Kept>) -> Result<(), NoMemory>
    ensures { items.new.items ≡ items.old.items }
{
    if items.is_empty() {
        items.reserve_exact(1)
    } else {
        Ok(())
    }
}

/// Ends the last version at the stamp, unless it has ended.
fn end_last(items: &mut VecDeque<Kept>, stamp: u64)
    requires { IsHistory (map version_of items.old.items) }
    ensures { map version_of items.new.items
        ≡ map (λ v. if is_open v.until then until_stamp (Some stamp) v else v) (map version_of items.old.items) }
{
    if let Some(last) = items.back_mut() {
        last.end(stamp);
    }
}

/// Takes off the versions that began at the stamp, after which none did.
fn take_off(items: &mut VecDeque<Kept>, stamp: u64)
    requires history { IsHistory (map version_of items.old.items) }
    requires begun { Each (BeginsBy stamp) (map version_of items.old.items) }
    ensures history { IsHistory (map version_of items.new.items) }
    ensures begun { Each (BeginsBy stamp) (map version_of items.new.items) }
    ensures before { IsFalse (last_begins_at stamp (map version_of items.new.items)) }
    ensures same { filter_map (before_stamp stamp) (map version_of items.new.items)
        ≡ filter_map (before_stamp stamp) (map version_of items.old.items) }
{
    while begins_last_at(items, stamp) {
        let _ = items.pop_back();
    }
}

/// Whether there is a version and the last one began at the stamp.
fn begins_last_at(items: &VecDeque<Kept>, stamp: u64) -> bool
    ensures { result ≡ last_begins_at stamp (map version_of items.now.items) }
{
    match items.back() {
        Some(last) => last.from == stamp,
        None => false,
    }
}

/// Opens the last version, which began before the stamp, where it ended there.
fn open_last(items: &mut VecDeque<Kept>, stamp: u64)
    requires history { IsHistory (map version_of items.old.items) }
    requires begun { Each (BeginsBy stamp) (map version_of items.old.items) }
    requires before { IsFalse (last_begins_at stamp (map version_of items.old.items)) }
    ensures { map version_of items.new.items ≡ filter_map (before_stamp stamp) (map version_of items.old.items) }
{
    if let Some(last) = items.back_mut() {
        last.reopen(stamp);
    }
}

/// Whether there is an end, and it is the stamp.
fn ends_at(until: Option<u64>, stamp: u64) -> bool
    ensures { result ≡ ends_at stamp until }
{
    match until {
        None => false,
        Some(until) => until == stamp,
    }
}

/// Takes out the versions that ended at or before the floor.
fn trim_front(items: &mut VecDeque<Kept>, floor: u64)
    requires { IsHistory (map version_of items.old.items) }
    ensures { map version_of items.new.items ≡ trimmed floor (map version_of items.old.items) }
{
    while is_first_over(items, floor) {
        let _ = items.pop_front();
    }
}

/// Whether there is a version and the first one ended at or before the floor.
fn is_first_over(items: &VecDeque<Kept>, floor: u64) -> bool
    ensures { result ≡ first_is_over floor (map version_of items.now.items) }
{
    match items.front() {
        Some(first) => !is_before(first.until, floor),
        None => false,
    }
}
