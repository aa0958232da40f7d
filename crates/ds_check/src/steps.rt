//! A run as steps: sessions meet, and lines are answered.
ghost use Rattle.std.specs.Prelude.{◌≡◌, ◌≤◌, ◌∷◌, ◌++◌, [], IfOk, OnOk};
ghost use Rattle.ds_check.specs.Walks.{asks, client_steps, round_steps, steps_of};

use ds_asked::Asked;
use ds_base::{NoMemory, Sequence};
use std::alloc::Global;

/// A step of a run.
#[derive(Drop)]
pub(crate) enum Step {
    /// The sessions of all clients meet, at the start of a round.
    Meet,
    /// What a line asks is answered.
    Ask(Asked),
}

/// The steps of rounds, in the order of their replies. A refusal means out of memory.
pub(crate) fn steps_of(
    alloc: Global,
    rounds: Vec<Sequence<Sequence<Asked>>>,
) -> Result<Vec<Step>, NoMemory>
    ensures { IfOk result (λ steps. steps.items ≡ steps_of rounds.items) }
{
    let mut steps = Vec::new(alloc);
    'rounds: for round in rounds {
        put_round(&mut steps, round)?;
    }
    Ok(steps)
}

/// Puts the steps of a round behind others.
fn put_round(steps: &mut Vec<Step>, round: Sequence<Sequence<Asked>>) -> Result<(), NoMemory>
    ensures { OnOk result (steps.new.items ≡ steps.old.items ++ round_steps round) }
{
    steps.push(Step::Meet)?;
    'clients: for own in round.into_vec() {
        put_client(steps, own)?;
    }
    Ok(())
}

/// Puts the steps of one client's lines in a round behind others.
fn put_client(steps: &mut Vec<Step>, own: Sequence<Asked>) -> Result<(), NoMemory>
    ensures { OnOk result (steps.new.items ≡ steps.old.items ++ client_steps own) }
{
    'lines: for asked in own.into_vec() {
        steps.push(Step::Ask(asked))?;
    }
    Ok(())
}

/// How many lines are answered.
pub(crate) fn asks(steps: &[Step]) -> usize
    ensures { result ≡ asks steps.now }
{
    let mut count = 0;
    for step in steps {
        count += asks_one(step);
    }
    count
}

fn asks_one(step: &Step) -> usize
    ensures one { result ≡ asks (step.now ∷ []) }
    ensures most { result ≤ 1 }
{
    match step {
        Step::Meet => 0,
        Step::Ask(_) => 1,
    }
}
