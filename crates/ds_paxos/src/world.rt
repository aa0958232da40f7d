//! The members and all messages, and the step of both.
ghost use Rattle.std.specs.Prelude.{◌≡◌, ◌≤◌, ◌⊎◌, ℕ, Err, List, Ok, Some, map, IfErr, IfOk, IfSome, IsTrue, OnOk, OnErr};
ghost use Rattle.std.specs.Option.{option_copied};
ghost use Rattle.ds_paxos.specs.declared.event.StepRefused.{StepRefused};
ghost use Rattle.ds_paxos.specs.Forms.{is_well_formed};
ghost use Rattle.ds_paxos.specs.Holdings.{holding_of, holdings};
ghost use Rattle.ds_paxos.specs.Runs.{Agree};
ghost use Rattle.ds_paxos.specs.Worlds.{fresh, held_by, step_of};

use crate::cluster::Cluster;
use crate::event::{Event, StepRefused};
use ds_base::{NoMemory, TextString};
use std::alloc::Global;
use std::marker::Model;

/// 1 to 9 members, and every message that was ever sent. Some events led to it, so that what is promised of every list of events holds.
#[derive(Drop)]
pub struct World {
    cluster: Cluster,
}

impl Model for World {
    ghost use Rattle.ds_paxos.specs.Runs.{IsWorld};
    ghost use Rattle.ds_paxos.specs.Worlds.{WorldParts};

    ghost Value = { WorldParts };

    ghost view = { λ w. w.cluster };

    ghost invariant = { λ w. IsWorld w.cluster };
}

/// An entry that a member holds.
#[derive(Clone, Copy, Drop)]
pub struct Held<'a> {
    /// The member, counted from 0.
    pub member: u32,
    /// The number of the log.
    pub log: u32,
    /// The position in it.
    pub position: u64,
    /// The entry.
    pub entry: &'a TextString,
}

impl World {
    /// A world of 1 to 9 members that heard of nothing. A refusal means out of memory.
    pub fn make(alloc: Global, members: u32) -> Result<World, NoMemory>
        requires least { 1 ≤ members }
        requires most { members ≤ 9 }
        ensures { IfOk result (λ w. w ≡ fresh members) }
    {
        Ok(World {
            cluster: Cluster::make(alloc, members)?,
        })
    }

    /// Takes the step of an event. A refusal leaves the world as it was.
    ///
    /// `NoMember`: exactly where the event names a member that there isn't. `NoMessage`: exactly where so many messages weren't sent yet.
    /// `NoBallot`: exactly where the ballot of a proposal would pass 2^63 - 1. `NoMemory` means out of memory, where none of these holds.
    /// A delivery takes time by the logarithm of what its member keeps, and a restart as much for each attempt that began at its member
    /// since the last one.
    pub fn step(&mut self, alloc: Global, event: Event) -> Result<(), StepRefused>
        requires { IsTrue (is_well_formed event) }
        ensures taken { OnOk result (step_of self.old event ≡ Ok self.new) }
        ensures refused { (cause : StepRefused) → step_of self.old event ≡ Err cause → result ≡ Err cause }
        ensures causes { IfErr result (λ cause. (cause ≡ StepRefused.NoMemory) ⊎ (step_of self.old event ≡ Err cause)) }
        ensures unchanged { OnErr result (self.new ≡ self.old) }
        ensures agree { Agree self.new }
    {
        self.cluster.step(alloc, event)
    }

    /// The entry that a member holds at a position of a log; `None` exactly where it holds nothing there. Who else holds an entry there
    /// holds the same one. It takes no memory.
    pub fn held(&self, member: u32, log: u32, position: u64) -> Option<&TextString>
        ensures value { option_copied result ≡ held_by self.now member log position }
        ensures agreed { IfSome result (λ entry. (other : ℕ) (second : List ℕ)
            → held_by self.now other log position ≡ Some second → second ≡ entry.now) }
    {
        self.cluster.held(member, log, position)
    }

    /// All entries that are held, by member, log and position. A refusal means out of memory.
    pub fn holdings(&self, alloc: Global) -> Result<Vec<Held<'_>>, NoMemory>
        ensures { IfOk result (λ list. map (λ h. holding_of h.member h.log h.position h.entry.now) list.items ≡ holdings self.now) }
    {
        let mut list = Vec::new(alloc);
        for (member, kept) in self.cluster.members().iter().enumerate() {
            kept.put_holdings(member as u32, &mut list)?;
        }
        Ok(list)
    }
}
