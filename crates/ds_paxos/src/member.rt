//! What a member keeps of all its instances.
ghost use Rattle.std.specs.Prelude.{◌≡◌, ◌++◌, List, [], ◌∷◌, ◌&&◌, not, is_some, map, IfOk, OnOk, OnErr};
ghost use Rattle.std.specs.Option.{option_copied};
ghost use Rattle.ds_paxos.specs.declared.message.Place.{Place};
ghost use Rattle.ds_paxos.specs.Holdings.{holding_of, member_holdings};
ghost use Rattle.ds_paxos.specs.Members.{highest, instance_in, restarted, with_instance, AreListed};

use crate::instance::Instance;
use crate::message::Place;
use crate::world::Held;
use ds_base::{NoMemory, TextString, TryCopy};
use std::alloc::Global;
use std::collections::BTreeMap;
use std::marker::Model;

/// A member: its instances by log and position. It is one map, so that each event looks up and puts one instance, in time by the
/// logarithm of their number. Beside it stand the places where an attempt may run, so that a restart goes over these alone.
#[derive(Drop)]
pub struct Member {
    instances: BTreeMap<Place, Instance>,
    running: Vec<Place>,
}

impl Model for Member {
    ghost use Rattle.std.specs.Prelude.{List};
    ghost use Rattle.ds_paxos.specs.declared.instance.Instance.{Instance};
    ghost use Rattle.ds_paxos.specs.declared.message.Place.{Place};
    ghost use Rattle.ds_paxos.specs.Members.{AreListed};

    ghost Value = { List (Place × Instance) };

    ghost view = { λ m. m.instances.entries };

    ghost invariant = { λ m. AreListed m.running.items m.instances.entries };
}

impl Member {
    /// A member that heard of nothing. It takes no memory.
    pub(crate) fn new(alloc: Global) -> Member
        ensures { result ≡ [] }
    {
        Member {
            instances: BTreeMap::new(alloc),
            running: Vec::new(alloc),
        }
    }

    /// A copy of the instance of this place. A refusal means out of memory.
    pub(crate) fn instance(&self, alloc: Global, place: Place) -> Result<Instance, NoMemory>
        ensures { IfOk result (λ instance. instance ≡ instance_in self.now place) }
    {
        match self.instances.get(&place) {
            Some(instance) => instance.copy(alloc),
            None => Ok(Instance::blank()),
        }
    }

    /// The greatest ballot that the member used or promised in this instance, or 0.
    pub(crate) fn highest(&self, place: Place) -> u64
        ensures { result ≡ highest (instance_in self.now place) }
    {
        match self.instances.get(&place) {
            Some(instance) => instance.used.max(instance.promised),
            None => 0,
        }
    }

    /// The entry that the member holds at this place; `None` exactly where it holds nothing there.
    pub(crate) fn held(&self, place: Place) -> Option<&TextString>
        ensures { option_copied result ≡ (instance_in self.now place).held }
    {
        match self.instances.get(&place) {
            Some(instance) => held_in(instance),
            None => None,
        }
    }

    /// Puts each entry that this member holds at the end, by log and position. A refusal, which means out of memory, leaves some there.
    pub(crate) fn put_holdings<'a>(
        &'a self,
        member: u32,
        list: &mut Vec<Held<'a>>,
    ) -> Result<(), NoMemory>
        ensures { OnOk result (map (λ h. holding_of h.member h.log h.position h.entry.now) list.new.items
            ≡ map (λ h. holding_of h.member h.log h.position h.entry.now) list.old.items ++ member_holdings member self.now) }
    {
        for (place, instance) in self.instances.iter() {
            if let Some(entry) = held_in(instance) {
                list.push(Held {
                    member,
                    log: place.log,
                    position: place.position,
                    entry,
                })?;
            }
        }
        Ok(())
    }

    /// Puts another instance at this place. A refusal, which means out of memory, changes nothing.
    pub(crate) fn put(&mut self, place: Place, instance: Instance) -> Result<(), NoMemory>
        ensures ok { OnOk result (self.new ≡ with_instance self.old place instance) }
        ensures err { OnErr result (self.new ≡ self.old) }
    {
        if self.begins(place, &instance) {
            return self.put_begun(place, instance);
        }
        self.instances.insert(place, instance)?;
        Ok(())
    }

    /// Puts an instance whose attempt begins.
    fn put_begun(&mut self, place: Place, instance: Instance) -> Result<(), NoMemory>
        ensures ok { OnOk result (self.new ≡ with_instance self.old place instance) }
        ensures err { OnErr result (self.new ≡ self.old) }
    {
        self.running.reserve(1)?;
        self.instances.insert(place, instance)?;
        self.running.push(place)?;
        Ok(())
    }

    /// Whether an attempt runs in this instance, and none at its place.
    fn begins(&self, place: Place, instance: &Instance) -> bool
        ensures { result ≡ (is_some instance.now.attempt && not (is_some (instance_in self.now place).attempt)) }
    {
        instance.attempt.is_some() && !self.runs(place)
    }

    /// Whether an attempt runs there.
    fn runs(&self, place: Place) -> bool
        ensures { result ≡ is_some (instance_in self.now place).attempt }
    {
        match self.instances.get(&place) {
            Some(instance) => instance.attempt.is_some(),
            None => false,
        }
    }

    /// Drops each running attempt. It takes no memory, and time by the number of attempts that began since the last restart.
    pub(crate) fn restart(&mut self)
        ensures { self.new ≡ restarted self.old }
    {
        stop_all(&mut self.instances, &mut self.running);
    }
}

/// Drops the attempt of each of these places, and the places.
fn stop_all(instances: &mut BTreeMap<Place, Instance>, running: &mut Vec<Place>)
    requires { AreListed running.old.items instances.old.entries }
    ensures restarted { instances.new.entries ≡ restarted instances.old.entries }
    ensures idle { AreListed running.new.items instances.new.entries }
{
    while let Some(place) = running.pop() {
        stop(instances, place);
    }
}

/// Drops the attempt of this place.
fn stop(instances: &mut BTreeMap<Place, Instance>, place: Place)
    ensures same { restarted instances.new.entries ≡ restarted instances.old.entries }
    ensures listed { (places : List Place) → AreListed (places ++ place ∷ []) instances.old.entries → AreListed places instances.new.entries }
{
    if let Some(instance) = instances.get_mut(&place) {
        instance.attempt = None;
    }
}

fn held_in(instance: &Instance) -> Option<&TextString>
    ensures { option_copied result ≡ instance.now.held }
{
    match &instance.held {
        Some(entry) => Some(entry.text()),
        None => None,
    }
}
