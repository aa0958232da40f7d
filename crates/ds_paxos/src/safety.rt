//! What Paxos promises.
ghost use Rattle.std.specs.Prelude.{ℕ, ◌<◌, List};
ghost use Rattle.ds_paxos.specs.declared.event.Event.{Event};
ghost use Rattle.ds_paxos.specs.Ballots.{IsNextBallot, next_ballot};
ghost use Rattle.ds_paxos.specs.Runs.{Agree, HoldsProposed, run};

/// No two members hold different entries of one log and position, and each entry that is held was proposed for them, after every list of
/// events: whatever is lost, repeated, reordered or restarted.
///
/// Why: a member's promise is never lowered; a ballot has one proposer and one entry; what a member accepted, the proposer asked for; an
/// entry that is chosen was accepted by a majority under one ballot; and who asks for an entry under a later ballot has promises of a
/// majority, which shares a member with that one, so that it asks for the chosen entry.
pub fn agreement()
    ensures same { (n : ℕ) (events : List Event) → Agree (run n events) }
    ensures proposed { (n : ℕ) (events : List Event) → HoldsProposed events (run n events) }
{}

/// A member's next ballot is above all that it used or promised, it is its own, and the least such: no two members ever use the same one.
pub fn next_ballots()
    ensures { (n member above : ℕ) → member < n → IsNextBallot n member above (next_ballot n member above) }
{}
