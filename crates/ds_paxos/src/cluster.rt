//! The members and their messages, as a step changes them.
ghost use Rattle.std.specs.Prelude.{◌≡◌, ◌≤◌, ◌<◌, ◌⊎◌, [], Err, Ok, length, replicate, slice_get, IfErr, IfOk, MatchOption, OnOk, OnErr};
ghost use Rattle.std.specs.Option.{option_copied};
ghost use Rattle.ds_paxos.specs.declared.event.StepRefused.{StepRefused};
ghost use Rattle.ds_paxos.specs.declared.message.Content.{Content};
ghost use Rattle.ds_paxos.specs.Rules.{ballot_of, begun, on_content, to_all};
ghost use Rattle.ds_paxos.specs.Worlds.{AreForMembers, changed, delivering, fresh, greatest_ballot, held_by, instance_of, proposing_at, restarting_at, step_of};

use crate::change::Change;
use crate::entry::Entry;
use crate::event::{Event, StepRefused};
use crate::member::Member;
use crate::message::{Message, Place};
use crate::rules::{Site, next_ballot, on_content, on_propose};
use ds_base::{NoMemory, TextString};
use std::alloc::Global;
use std::marker::Model;

/// Members, and every message that was ever sent.
#[derive(Drop)]
pub(crate) struct Cluster {
    members: Vec<Member>,
    sent: Vec<Message>,
}

impl Model for Cluster {
    ghost use Rattle.ds_paxos.specs.Worlds.{WorldParts};

    ghost Value = { WorldParts };

    ghost view = { λ c. record { members = c.members.items; sent = c.sent.items } };
}

impl Cluster {
    /// Members that heard of nothing. A refusal means out of memory.
    pub(crate) fn make(alloc: Global, members: u32) -> Result<Cluster, NoMemory>
        ensures { IfOk result (λ c. c ≡ fresh members) }
    {
        Ok(Cluster {
            members: blank_members(alloc, members)?,
            sent: Vec::new(alloc),
        })
    }

    /// The members.
    pub(crate) fn members(&self) -> &[Member]
        ensures { result.now ≡ self.now.members }
    {
        self.members.as_slice()
    }

    /// The entry that a member holds at a position of a log; `None` exactly where it holds nothing there.
    pub(crate) fn held(&self, member: u32, log: u32, position: u64) -> Option<&TextString>
        ensures { option_copied result ≡ held_by self.now member log position }
    {
        let members = self.members.as_slice();
        members.get(member as usize)?.held(Place { log, position })
    }

    /// Takes the step of an event. A refusal changes nothing.
    pub(crate) fn step(&mut self, alloc: Global, event: Event) -> Result<(), StepRefused>
        requires members { length self.old.members ≤ 9 }
        requires messages { AreForMembers self.old }
        ensures taken { OnOk result (step_of self.old event ≡ Ok self.new) }
        ensures refused { (cause : StepRefused) → step_of self.old event ≡ Err cause → result ≡ Err cause }
        ensures causes { IfErr result (λ cause. (cause ≡ StepRefused.NoMemory) ⊎ (step_of self.old event ≡ Err cause)) }
        ensures unchanged { OnErr result (self.new ≡ self.old) }
    {
        match event {
            Event::Propose {
                member,
                log,
                position,
                entry,
            } => self.propose(alloc, member, Place { log, position }, entry),
            Event::Deliver { message } => self.deliver(alloc, message),
            Event::Restart { member } => self.restart(member),
        }
    }

    /// A member proposes an entry.
    fn propose(
        &mut self,
        alloc: Global,
        member: u32,
        place: Place,
        entry: TextString,
    ) -> Result<(), StepRefused>
        requires members { length self.old.members ≤ 9 }
        ensures taken { OnOk result (proposing_at self.old member place entry ≡ Ok self.new) }
        ensures refused { (cause : StepRefused) → proposing_at self.old member place entry ≡ Err cause → result ≡ Err cause }
        ensures causes { IfErr result (λ cause. (cause ≡ StepRefused.NoMemory) ⊎ (proposing_at self.old member place entry ≡ Err cause)) }
        ensures unchanged { OnErr result (self.new ≡ self.old) }
    {
        if member as usize >= self.members.len() {
            return Err(StepRefused::NoMember);
        }
        let Some(ballot) = self.next_ballot(member, place) else {
            return Err(StepRefused::NoBallot);
        };
        let change = self.proposal(alloc, self.site(member, place, ballot), entry)?;
        self.change(member, place, change)?;
        Ok(())
    }

    /// A message comes to its member.
    fn deliver(&mut self, alloc: Global, number: u64) -> Result<(), StepRefused>
        requires members { length self.old.members ≤ 9 }
        requires messages { AreForMembers self.old }
        ensures taken { OnOk result (delivering self.old (slice_get self.old.sent number) ≡ Ok self.new) }
        ensures refused { (cause : StepRefused) → delivering self.old (slice_get self.old.sent number) ≡ Err cause → result ≡ Err cause }
        ensures causes { IfErr result (λ cause. (cause ≡ StepRefused.NoMemory)
            ⊎ (delivering self.old (slice_get self.old.sent number) ≡ Err cause)) }
        ensures unchanged { OnErr result (self.new ≡ self.old) }
    {
        let Some(message) = self.sent.as_slice().get(number as usize) else {
            return Err(StepRefused::NoMessage {
                sent: self.sent.len() as u64,
            });
        };
        let (to, place) = (message.to, message.place);
        if let Some(change) = self.outcome(alloc, message)? {
            self.change(to, place, change)?;
        }
        Ok(())
    }

    /// A member restarts.
    fn restart(&mut self, member: u32) -> Result<(), StepRefused>
        ensures taken { OnOk result (restarting_at self.old member ≡ Ok self.new) }
        ensures refused { IfErr result (λ cause. restarting_at self.old member ≡ Err cause) }
        ensures unchanged { OnErr result (self.new ≡ self.old) }
    {
        if member as usize >= self.members.len() {
            return Err(StepRefused::NoMember);
        }
        self.members[member as usize].restart();
        Ok(())
    }

    /// The next ballot of a member; `None` exactly where it would pass the greatest.
    fn next_ballot(&self, member: u32, place: Place) -> Option<u64>
        requires members { length self.now.members ≤ 9 }
        requires member { member < length self.now.members }
        ensures { let ballot = ballot_of (length self.now.members) member (instance_of self.now member place) in
            MatchOption result (greatest_ballot < ballot) (λ next. (next ≡ ballot) × (next ≤ greatest_ballot)) }
    {
        let above = self.members[member as usize].highest(place);
        next_ballot(self.members.len() as u32, member, above)
    }

    /// What a proposal changes. A refusal means out of memory.
    fn proposal(&self, alloc: Global, site: Site, entry: TextString) -> Result<Change, NoMemory>
        requires { site.member < length self.now.members }
        ensures { IfOk result (λ change. (change.instance ≡ begun site.ballot entry (instance_of self.now site.member site.place))
            × (change.sends ≡ to_all site.members site.place site.ballot Content.Prepare)) }
    {
        let instance = self.members[site.member as usize].instance(alloc, site.place)?;
        let entry = Entry::new(alloc, entry)?;
        on_propose(alloc, site, entry, instance)
    }

    /// What a message changes at its member; `None` where it has no effect. A refusal means out of memory.
    fn outcome(&self, alloc: Global, message: &Message) -> Result<Option<Change>, NoMemory>
        requires members { length self.now.members ≤ 9 }
        requires member { message.now.to < length self.now.members }
        ensures { let m = message.now in IfOk result (λ change. change
            ≡ on_content (length self.now.members) m.to m.place m.ballot m.content (instance_of self.now m.to m.place)) }
    {
        let instance = self.members[message.to as usize].instance(alloc, message.place)?;
        let site = self.site(message.to, message.place, message.ballot);
        on_content(alloc, site, &message.content, instance)
    }

    fn site(&self, member: u32, place: Place, ballot: u64) -> Site
        requires { length self.now.members ≤ 9 }
        ensures { result ≡ record { members = length self.now.members; member = member; place = place; ballot = ballot } }
    {
        Site {
            members: self.members.len() as u32,
            member,
            place,
            ballot,
        }
    }

    /// Puts another instance at a member, and sends messages. A refusal, which means out of memory, changes nothing.
    fn change(&mut self, member: u32, place: Place, change: Change) -> Result<(), NoMemory>
        requires { member < length self.old.members }
        ensures ok { OnOk result (self.new ≡ changed self.old member place change) }
        ensures err { OnErr result (self.new ≡ self.old) }
    {
        let Change { instance, sends } = change;
        let mut sends = sends.into_vec();
        self.sent.reserve(sends.len())?;
        self.members[member as usize].put(place, instance)?;
        self.sent.append(&mut sends)
    }
}

fn blank_members(alloc: Global, members: u32) -> Result<Vec<Member>, NoMemory>
    ensures { IfOk result (λ list. list.items ≡ replicate members []) }
{
    let mut list = Vec::new(alloc);
    for _ in 0..members {
        list.push(Member::new(alloc))?;
    }
    Ok(list)
}
