//! The rules of Paxos, as functions of an instance: what an event makes of it, and which messages are sent.
ghost use Rattle.std.specs.Prelude.{◌≡◌, ◌+◌, ◌%◌, ◌^◌, ◌<◌, ◌≤◌, ◌&&◌, ◌==◌, not, length, [], Some, None, IfOk, MatchOption, if◌then◌else◌};
ghost use Rattle.std.specs.List.{list_any};
ghost use Rattle.std.specs.Option.{option_copied};
ghost use Rattle.ds_paxos.specs.Ballots.{is_majority, next_ballot};
ghost use Rattle.ds_paxos.specs.Rules.{answer, asked, begun, chosen, counts_accepted, counts_promise, entry_of, greatest};
ghost use Rattle.ds_paxos.specs.Rules.{later, on_accept, on_accepted, on_chosen, on_content, on_prepare, on_promise, on_propose, to_all};
ghost use Rattle.ds_paxos.specs.Rules.{with_accepter, with_promise};
ghost use Rattle.ds_paxos.specs.Worlds.{greatest_ballot};

use crate::change::Change;
use crate::entry::Entry;
use crate::instance::{Attempt, Instance};
use crate::message::{Content, Message, Place, Promised, Proposal};
use ds_base::{NoMemory, Sequence, TryCopy};
use std::alloc::{AllocError, Global};

/// The greatest ballot.
const MAX_BALLOT: u64 = 9_223_372_036_854_775_807;

/// Where an event happens: at one of so many members, in the instance of a place, under a ballot.
#[derive(Clone, Copy, Drop)]
pub(crate) struct Site {
    pub(crate) members: u32,
    pub(crate) member: u32,
    pub(crate) place: Place,
    pub(crate) ballot: u64,
}

impl Site {
    /// The same under another ballot.
    fn under(self, ballot: u64) -> Site
        ensures { result ≡ record { members = self.members; member = self.member; place = self.place; ballot = ballot } }
    {
        Site { ballot, ..self }
    }
}

/// Whether so many are more than half of the members.
fn is_majority(members: u32, count: usize) -> bool
    ensures { result ≡ is_majority members count }
{
    count > members as usize / 2
}

/// The next ballot of a member above this one; `None` exactly where it would pass the greatest.
pub(crate) fn next_ballot(members: u32, member: u32, above: u64) -> Option<u64>
    requires { member < members }
    ensures { MatchOption result (greatest_ballot < next_ballot members member above)
        (λ ballot. (ballot ≡ next_ballot members member above) × (ballot ≤ greatest_ballot)) }
{
    if above >= MAX_BALLOT {
        return None;
    }
    let next = above + 1;
    let members = u64::from(members);
    let ballot = next + ((u64::from(member) + members) - next % members) % members;
    if ballot > MAX_BALLOT {
        None
    } else {
        Some(ballot)
    }
}

/// One message, to the ballot's proposer. A refusal means out of memory.
fn answer(alloc: Global, site: Site, content: Content) -> Result<Sequence<Message>, NoMemory>
    requires { site.member < site.members }
    ensures { IfOk result (λ sends. sends ≡ answer site.members site.place site.ballot content) }
{
    let to = (site.ballot % u64::from(site.members)) as u32;
    Sequence::of_one(
        alloc,
        Message {
            to,
            place: site.place,
            ballot: site.ballot,
            content,
        },
    )
}

/// The same message to each member. A refusal means out of memory.
fn to_all(alloc: Global, site: Site, content: &Content) -> Result<Sequence<Message>, NoMemory>
    ensures { IfOk result (λ sends. sends ≡ to_all site.members site.place site.ballot content.now) }
{
    let mut sends = Vec::with_capacity(alloc, site.members as usize)?;
    for to in 0..site.members {
        let content = content.copy(alloc)?;
        sends.push(Message {
            to,
            place: site.place,
            ballot: site.ballot,
            content,
        })?;
    }
    Ok(Sequence::from(sends))
}

/// What a proposal changes, whose ballot is the site's. A refusal means out of memory.
pub(crate) fn on_propose(
    alloc: Global,
    site: Site,
    entry: Entry,
    mut instance: Instance,
) -> Result<Change, NoMemory>
    ensures { IfOk result (λ change. (change.instance ≡ begun site.ballot entry instance)
        × (change.sends ≡ to_all site.members site.place site.ballot Content.Prepare)) }
{
    let sends = to_all(alloc, site, &Content::Prepare)?;
    instance.used = site.ballot;
    instance.attempt = Some(Attempt {
        ballot: site.ballot,
        entry,
        promises: Sequence::new(alloc),
        accepters: Sequence::new(alloc),
    });
    Ok(Change { instance, sends })
}

/// What a message changes at its member; `None` where it has no effect. A refusal means out of memory.
pub(crate) fn on_content(
    alloc: Global,
    site: Site,
    content: &Content,
    instance: Instance,
) -> Result<Option<Change>, NoMemory>
    requires { site.member < site.members }
    ensures { IfOk result (λ change. change ≡ on_content site.members site.member site.place site.ballot content.now instance) }
{
    match content {
        Content::Prepare => on_prepare(alloc, site, instance),
        Content::Promise(promised) => on_promise(alloc, site, promised, instance),
        Content::Accept(entry) => on_accept(alloc, site, entry, instance),
        Content::Accepted(member) => on_accepted(alloc, site, *member, instance),
        Content::Chosen(entry) => on_chosen(alloc, entry, instance),
    }
}

fn on_prepare(alloc: Global, site: Site, mut instance: Instance) -> Result<Option<Change>, NoMemory>
    requires { site.member < site.members }
    ensures { IfOk result (λ change. change ≡ on_prepare site.members site.member site.place site.ballot instance) }
{
    if instance.promised > site.ballot {
        return Ok(None);
    }
    let promised = Promised {
        member: site.member,
        accepted: instance.accepted.copy(alloc)?,
    };
    let sends = answer(alloc, site, Content::Promise(promised))?;
    instance.promised = site.ballot;
    Ok(Some(Change { instance, sends }))
}

fn on_accept(
    alloc: Global,
    site: Site,
    entry: &Entry,
    mut instance: Instance,
) -> Result<Option<Change>, NoMemory>
    requires { site.member < site.members }
    ensures { IfOk result (λ change. change ≡ on_accept site.members site.member site.place site.ballot entry.now instance) }
{
    if site.ballot < instance.promised {
        return Ok(None);
    }
    let entry = entry.copy(alloc)?;
    let sends = answer(alloc, site, Content::Accepted(site.member))?;
    instance.promised = site.ballot;
    instance.accepted = Some(Proposal {
        ballot: site.ballot,
        entry,
    });
    Ok(Some(Change { instance, sends }))
}

fn on_chosen(
    alloc: Global,
    entry: &Entry,
    mut instance: Instance,
) -> Result<Option<Change>, NoMemory>
    ensures { IfOk result (λ change. change ≡ Some (on_chosen entry.now instance)) }
{
    instance.held = Some(entry.copy(alloc)?);
    Ok(Some(Change {
        instance,
        sends: Sequence::new(alloc),
    }))
}

/// The accepted proposal with the greatest ballot that the promises tell of.
fn greatest(promises: &[Promised]) -> Option<&Proposal>
    ensures { option_copied result ≡ greatest promises.now }
{
    match promises {
        [] => None,
        [first, rest @ ..] => later(first.accepted.as_ref(), greatest(rest)),
    }
}

/// The one with the greater ballot.
fn later<'a>(first: Option<&'a Proposal>, second: Option<&'a Proposal>) -> Option<&'a Proposal>
    ensures { option_copied result ≡ later (option_copied first.entry) (option_copied second.entry) }
{
    match (first, second) {
        (Some(first), Some(second)) if second.ballot <= first.ballot => Some(first),
        (Some(first), None) => Some(first),
        (_, second) => second,
    }
}

/// What the proposer asks to accept.
fn entry_of(attempt: &Attempt) -> &Entry
    ensures { result.now ≡ entry_of attempt.now }
{
    match greatest(attempt.promises.as_slice()) {
        Some(proposal) => &proposal.entry,
        None => &attempt.entry,
    }
}

/// Whether a promise counts for the running attempt.
fn counts_promise(site: Site, promised: &Promised, attempt: &Attempt) -> bool
    ensures { result ≡ counts_promise site.members site.ballot promised.now attempt.now }
{
    attempt.ballot == site.ballot
        && (!is_majority(site.members, attempt.promises.len())
            && !has_promised(attempt.promises.as_slice(), promised.member))
}

fn has_promised(promises: &[Promised], member: u32) -> bool
    ensures { result ≡ list_any (λ other. other.member == member) promises.now }
{
    promises.iter().any(|other| other.member == member)
}

fn on_promise(
    alloc: Global,
    site: Site,
    promised: &Promised,
    mut instance: Instance,
) -> Result<Option<Change>, NoMemory>
    ensures { IfOk result (λ change. change ≡ on_promise site.members site.place site.ballot promised.now instance instance.attempt) }
{
    match instance.attempt.take() {
        Some(attempt) if counts_promise(site, promised, &attempt) => {
            let attempt = with_promise(alloc, promised, attempt)?;
            Ok(Some(asked(alloc, site, instance, attempt)?))
        }
        _ => Ok(None),
    }
}

fn with_promise(
    alloc: Global,
    promised: &Promised,
    mut attempt: Attempt,
) -> Result<Attempt, NoMemory>
    ensures { IfOk result (λ next. next ≡ with_promise promised.now attempt) }
{
    let promised = promised.copy(alloc)?;
    match attempt.promises.push(promised) {
        Ok(()) => Ok(attempt),
        Err(_) => Err(AllocError),
    }
}

/// Goes on with the attempt: when promises have come from a majority, all are asked to accept.
fn asked(
    alloc: Global,
    site: Site,
    mut instance: Instance,
    attempt: Attempt,
) -> Result<Change, NoMemory>
    ensures { IfOk result (λ change. change ≡ asked site.members site.place instance attempt) }
{
    let sends = accepts(alloc, site, &attempt)?;
    instance.attempt = Some(attempt);
    Ok(Change { instance, sends })
}

/// The messages by which all are asked to accept, once promises have come from a majority.
fn accepts(alloc: Global, site: Site, attempt: &Attempt) -> Result<Sequence<Message>, NoMemory>
    ensures { IfOk result (λ sends. sends ≡ (if is_majority site.members (length attempt.now.promises)
        then to_all site.members site.place attempt.now.ballot (Content.Accept (entry_of attempt.now)) else [])) }
{
    if !is_majority(site.members, attempt.promises.len()) {
        return Ok(Sequence::new(alloc));
    }
    let entry = entry_of(attempt).copy(alloc)?;
    to_all(alloc, site.under(attempt.ballot), &Content::Accept(entry))
}

/// Whether a member's acceptance counts for the running attempt.
fn counts_accepted(site: Site, member: u32, attempt: &Attempt) -> bool
    ensures { result ≡ counts_accepted site.members site.ballot member attempt.now }
{
    attempt.ballot == site.ballot
        && (!is_majority(site.members, attempt.accepters.len())
            && !has_accepted(attempt.accepters.as_slice(), u64::from(member)))
}

fn has_accepted(accepters: &[u64], member: u64) -> bool
    ensures { result ≡ list_any (λ other. other == member) accepters.now }
{
    accepters.iter().any(|other| *other == member)
}

fn on_accepted(
    alloc: Global,
    site: Site,
    member: u32,
    mut instance: Instance,
) -> Result<Option<Change>, NoMemory>
    ensures { IfOk result (λ change. change ≡ on_accepted site.members site.place site.ballot member instance instance.attempt) }
{
    match instance.attempt.take() {
        Some(attempt) if counts_accepted(site, member, &attempt) => {
            let attempt = with_accepter(member, attempt)?;
            Ok(Some(chosen(alloc, site, instance, attempt)?))
        }
        _ => Ok(None),
    }
}

fn with_accepter(member: u32, mut attempt: Attempt) -> Result<Attempt, NoMemory>
    ensures { IfOk result (λ next. next ≡ with_accepter member attempt) }
{
    match attempt.accepters.push(u64::from(member)) {
        Ok(()) => Ok(attempt),
        Err(_) => Err(AllocError),
    }
}

/// Goes on with the attempt: when a majority has accepted, the proposer holds the entry and tells all.
fn chosen(
    alloc: Global,
    site: Site,
    mut instance: Instance,
    attempt: Attempt,
) -> Result<Change, NoMemory>
    ensures { IfOk result (λ change. change ≡ chosen site.members site.place instance attempt) }
{
    if !is_majority(site.members, attempt.accepters.len()) {
        instance.attempt = Some(attempt);
        let sends = Sequence::new(alloc);
        return Ok(Change { instance, sends });
    }
    let entry = entry_of(&attempt).copy(alloc)?;
    let told = Content::Chosen(entry.copy(alloc)?);
    let sends = to_all(alloc, site.under(attempt.ballot), &told)?;
    instance.held = Some(entry);
    instance.attempt = Some(attempt);
    Ok(Change { instance, sends })
}
