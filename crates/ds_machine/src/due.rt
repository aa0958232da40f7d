//! What an open request comes to at a step: its reply as soon as nothing is missing, and else the step that it waits for.
ghost use Rattle.std.specs.Prelude.{◌≡◌, ◌+◌, ◌≤◌, ◌<◌, [], false, None, length, IfSome, IsTrue};
ghost use Rattle.ds_request.specs.declared.call.Call.{Call};
ghost use Rattle.ds_base.specs.Limits.{greatest_id};
ghost use Rattle.ds_protocol.specs.Operations.{IsOperationOf, call_of};
ghost use Rattle.ds_applied.specs.AppliedLists.{entries_by};
ghost use Rattle.ds_model.specs.Answers.{AppliedCount};
ghost use Rattle.ds_model.specs.Sessions.{count_of};
ghost use Rattle.ds_machine.specs.Due.{AreViewed, IsDuePlan, IsGathered, ids_of};
ghost use Rattle.ds_machine.specs.Missing.{IfReply, IsNext, first_uncovered, is_within, missing, missing_ids, shown, view_or_apply};
ghost use Rattle.ds_machine.specs.Opening.{IsReadyFor, IsUnrefused};
ghost use Rattle.ds_machine.specs.Reads.{IsPulled};
ghost use Rattle.ds_machine.specs.States.{IsSession};
ghost use Rattle.ds_machine.specs.Told.{IsCountBy, IsTold, is_silent};
ghost use Rattle.ds_machine.specs.Turns.{AreSeenIn, ComesTo, IsToldIn, IsTurn};

use crate::opening::Work;
use crate::state::State;
use ds_base::TryCopy;
use ds_base::limits::MAX_ID;
use ds_effects::effect::{Due, Effect, Plan};
use ds_effects::{Gathered, Step};
use ds_protocol::{CountSeen, CountsSeen, Operation, Session};
use ds_reply::Body;
use std::alloc::Global;

/// A client's open request at a step.
#[derive(Drop)]
pub(crate) struct Turn<'a> {
    /// The client, from 0 to 15.
    pub(crate) client: u32,
    /// What it has seen, and its transaction.
    pub(crate) session: &'a Session,
    /// What its request has gathered.
    pub(crate) gathered: &'a Gathered,
    /// The step that was just taken.
    pub(crate) taken: Step,
}

impl State {
    /// The reply to an open request as soon as nothing is missing, with what it changes; and else the step of its client that it waits for
    /// next, by the table of steps. `taken` is the step that was just taken; where none was, as at the opening, it is a Touch, which by
    /// itself ends no request. The store and the applied counts stay as they are.
    pub fn due(
        &mut self,
        alloc: Global,
        session: &Session,
        client: u32,
        work: &Work,
        gathered: &Gathered,
        taken: Step,
    ) -> Due
        requires work { IsUnrefused self.old session.now work.now.operation work.now.ready }
        requires seen { IsSession self.old session.now }
        requires gathered { IsGathered self.old session.now (call_of work.now.operation) gathered.now }
        requires views { length gathered.now.views ≡ self.old.store.shards }
        ensures plan { IfReply result (λ p. (call : Call) → IsOperationOf call work.now.operation
            → IsDuePlan self.new session.now client call (ids_of call gathered.now) p.body p.effect) }
        ensures told { IfReply result (λ p. IsTold self.new session.now gathered.now taken p.body p.effect) }
        ensures next { IsNext (missing (shown self.old) session.now work.now.operation gathered.now taken) result }
        ensures store { self.new.store ≡ self.old.store }
        ensures counts { self.new.applied.counts ≡ self.old.applied.counts }
    {
        if self.pull(alloc).is_err() {
            return Due::Reply(Plan::no_memory());
        }
        let turn = Turn {
            client,
            session,
            gathered,
            taken,
        };
        self.operation_due(alloc, &turn, work)
    }

    /// The same where each commit of the journal was looked at.
    fn operation_due(&self, alloc: Global, turn: &Turn, work: &Work) -> Due
        requires turn { IsTurn self.now turn.now work.now.operation }
        requires ready { IsReadyFor self.now turn.now.session.now work.now.operation work.now.ready }
        ensures { ComesTo self.now turn.now work.now.operation result }
    {
        match &work.operation {
            Operation::Put { entity, incomplete } => self.put_due(alloc, turn, entity, *incomplete),
            Operation::Delete { key } => self.delete_due(alloc, turn, key),
            Operation::Begin { several_groups } => Due::Reply(Plan {
                body: Body::Begin,
                effect: Effect::Begin {
                    several_groups: *several_groups,
                },
            }),
            Operation::Commit => self.commit_due(alloc, turn),
            Operation::Rollback => Due::Reply(Plan {
                body: Body::Rollback,
                effect: Effect::End,
            }),
            Operation::AllocateIds { count } => self.allocate_due(turn, *count),
            Operation::Get { key } => self.get_due(alloc, turn, key),
            Operation::Settle => self.settle_due(alloc, turn),
            Operation::Apply { shard } => self.apply_due(turn, *shard),
            Operation::Find(search) => self.found_due(alloc, turn, search, &work.ready),
        }
    }

    /// A request for ids waits for its Issue; it is told where so many ids are not left.
    fn allocate_due(&self, turn: &Turn, count: u64) -> Due
        requires { IsTurn self.now turn.now (Operation.AllocateIds count) }
        ensures { ComesTo self.now turn.now (Operation.AllocateIds count) result }
    {
        let Some(first) = turn.gathered.first() else {
            return self.ids_due(count, turn.taken);
        };
        // the state's invariant bounds the counter
        let _ = &self.shards;
        Due::Reply(Plan {
            body: Body::AllocateIds { first, count },
            effect: Effect::SeeNext {
                next: first + count,
            },
        })
    }

    /// The Issue of so many ids; or, at an Issue that finds too few of them left, that they are exhausted.
    pub(crate) fn ids_due(&self, count: u64, taken: Step) -> Due
        ensures plan { IfReply result (λ p. (p.body ≡ Body.IdsExhausted self.now.store.next)
            × (p.effect ≡ Effect.SeeNext self.now.store.next) × (greatest_id < self.now.store.next + count)) }
        ensures silent { IfReply result (λ p. IsTrue (is_silent self.now p.body p.effect)) }
        ensures next { IsNext (missing_ids (shown self.now) count None taken None) result }
    {
        let next = self.book.next();
        if taken.is_issue(count) && count > MAX_ID - next {
            return Due::Reply(Plan {
                body: Body::IdsExhausted { next },
                effect: Effect::SeeNext { next },
            });
        }
        Due::Waits(Step::Issue { count })
    }

    /// A settle waits for its Touch, and for a View of each shard that covers its place.
    fn settle_due(&self, alloc: Global, turn: &Turn) -> Due
        requires { IsTurn self.now turn.now Operation.Settle }
        ensures { ComesTo self.now turn.now Operation.Settle result }
    {
        // the state's invariant: there are as many shards as the store has
        let _ = &self.shards;
        let Some(place) = turn.gathered.place() else {
            return Due::Waits(Step::Touch);
        };
        match self.uncovered(place, turn.gathered) {
            Some(shard) => Due::Waits(self.view_or_apply(shard, place)),
            None => Due::Reply(self.tell_settled(alloc, turn, place)),
        }
    }

    /// The first shard without a View that covers the place.
    fn uncovered(&self, place: u64, gathered: &Gathered) -> Option<u32>
        requires pulled { IsPulled self.now }
        requires place { place ≤ length self.now.store.journal }
        requires views { length gathered.now.views ≡ self.now.store.shards }
        ensures first { result ≡ first_uncovered (shown self.now) place 0 gathered.now.views }
        ensures below { IfSome result (λ shard. shard < self.now.store.shards) }
    {
        for shard in 0..self.shards {
            let up_to = self.applied.entries_up_to(shard, place);
            if !gathered.has_covered(shard, up_to) {
                return Some(shard);
            }
        }
        None
    }

    /// A View of the shard, if it covers the place, and else an Apply.
    fn view_or_apply(&self, shard: u32, place: u64) -> Step
        requires pulled { IsPulled self.now }
        requires shard { shard < self.now.store.shards }
        requires place { place ≤ length self.now.store.journal }
        ensures { result ≡ view_or_apply (shown self.now) place shard }
    {
        // the state's invariant bounds the shards
        let _ = &self.shards;
        if self.applied.entries_up_to(shard, place) <= self.applied.count(shard) {
            Step::View { shard }
        } else {
            Step::Apply { shard }
        }
    }

    /// A settle whose Views cover its place.
    fn tell_settled(&self, alloc: Global, turn: &Turn, place: u64) -> Plan
        requires turn { IsTurn self.now turn.now Operation.Settle }
        requires touched { turn.now.gathered.now.place ≡ Some place }
        requires covered { first_uncovered (shown self.now) place 0 turn.now.gathered.now.views ≡ None }
        ensures plan { IsDuePlan self.now turn.now.session.now turn.now.client Call.Settle [] result.body result.effect }
        ensures told { IsToldIn self.now turn.now result }
    {
        // the state's invariant: its shards follow the journal
        let _ = &self.shards;
        let Some(seen) = self.counts_viewed(alloc, turn) else {
            return Plan::no_memory();
        };
        let Ok(applied) = seen.counts.copy(alloc) else {
            return Plan::no_memory();
        };
        Plan {
            body: Body::Settle { place, applied },
            effect: Effect::Settle { place, seen },
        }
    }

    /// The counts that an open request viewed, with the last commit that they count. `None` is a View that is missing, or lack of memory.
    pub(crate) fn counts_viewed(&self, alloc: Global, turn: &Turn) -> Option<CountsSeen>
        requires { AreViewed turn.now.session.now.counts turn.now.gathered.now.views self.now.applied.counts }
        ensures { IfSome result (AreSeenIn self.now turn.now) }
    {
        let Ok(Some(counts)) = turn.gathered.counts(alloc) else {
            return None;
        };
        // for the proof alone: no more is applied than there is
        let _ = self.applied.shards();
        let commit = self.applied.counted_place(counts.as_slice());
        Some(CountsSeen { commit, counts })
    }

    /// An apply waits for its Touch. Then it waits for an Apply, as long as its shard has an entry up to the place that isn't applied, and
    /// for a View of the shard as soon as it has none.
    #[tactic(auto, using(crate::proofs::Citing::count_laws))]
    fn apply_due(&self, turn: &Turn, shard: u64) -> Due
        requires { IsTurn self.now turn.now (Operation.Apply shard) }
        ensures { ComesTo self.now turn.now (Operation.Apply shard) result }
    {
        // the state's invariant bounds the shards, and so the number
        let _ = &self.shards;
        let shard = shard as u32;
        let Some(place) = turn.gathered.place() else {
            return Due::Waits(Step::Touch);
        };
        let up_to = self.applied.entries_up_to(shard, place);
        let applied = self.applied.count(shard);
        match raised_within(turn.gathered, up_to) {
            Some(count) => Due::Reply(self.tell_applied(turn, shard, place, true, count)),
            None if applied < up_to => Due::Waits(Step::Apply { shard }),
            None if turn.taken.is_view(shard) => {
                Due::Reply(self.tell_applied(turn, shard, place, false, applied))
            }
            None => Due::Waits(Step::View { shard }),
        }
    }

    /// Tells whether an entry up to the place was applied for the request, and how many entries of the shard are.
    #[tactic(auto, using(crate::proofs::Citing::outside, crate::proofs::DuePlans::apply_due))]
    fn tell_applied(&self, turn: &Turn, shard: u32, place: u64, applied: bool, count: u64) -> Plan
        requires turn { IsTurn self.now turn.now (Operation.Apply shard) }
        requires touched { turn.now.gathered.now.place ≡ Some place }
        requires within { count ≤ count_of self.now.applied.counts shard }
        requires counted { IsCountBy (shown self.now) turn.now.gathered.now turn.now.taken applied count shard }
        requires applied { AppliedCount applied (count_of turn.now.session.now.counts shard)
            (entries_by self.now.store.journal self.now.store.shards shard place) count }
        ensures plan { IsDuePlan self.now turn.now.session.now turn.now.client (Call.Apply shard) [] result.body result.effect }
        ensures told { IsToldIn self.now turn.now result }
    {
        // for the proof alone: no more is applied than there is
        let _applied = self.applied.count(shard);
        Plan {
            body: Body::Apply {
                applied,
                count,
                place,
                shard,
            },
            effect: Effect::SeeCount(CountSeen {
                place,
                shard,
                count,
                commit: self.applied.last_commit(shard, count),
            }),
        }
    }
}

/// The count to which an Apply of the request raised its shard's, if there was one and it isn't above this.
fn raised_within(gathered: &Gathered, most: u64) -> Option<u64>
    ensures some { IfSome result (λ count. (gathered.now.applied ≡ Some count) × (count ≤ most)) }
    ensures none { result ≡ None → is_within most gathered.now.applied ≡ false }
{
    match gathered.applied() {
        Some(count) if count <= most => Some(count),
        _ => None,
    }
}
