//! The cut: clients go from the first store to the second.
ghost use Rattle.std.specs.Prelude.{◌≡◌, ℕ, ◌+◌, ◌≤◌, ◌++◌, ◌∷◌, List, Option, [], All, length, vec_len};
ghost use Rattle.std.specs.Vec.{vec_capacity};
ghost use Rattle.ds_base.specs.Limits.{greatest_client, most_input_bytes};
ghost use Rattle.ds_protocol.specs.Watermarks.{HaveCounts};
ghost use Rattle.ds_clients.specs.Moving.{HaveBeenMet};
ghost use Rattle.ds_clients.specs.Runs.{AreWritten, IsIdle, passes_of, seen_of};
ghost use Rattle.ds_serving.specs.Rounds.{HasServed};
ghost use Rattle.ds_serve.specs.RunSteps.{Counted, Exactly};
ghost use Rattle.ds_cutting.specs.CutSteps.{EndsBegun, EndsUncut, IsCutTo, IsFeeding, IsLegalOf, RanFirst, asked_of, of_refused};

use crate::later::{Later, run_later};
use crate::outcome::{CutRun, CutStatus};
use crate::plan::{Host, Plan};
use ds_clients::{Sessions, Unsent};
use ds_feeding::{Cut, Reindex, ReindexRefused};
use ds_io::{Gate, Sink, Source};
use ds_rounds::Rounds;
use ds_serve::Stopped;
use ds_store::{Closed, Names, Pass, Passes, Store, Tail};
use ds_words::Status;
use std::sync::Wait;
use std::thread::Threads;

/// What a run is made of where the rounds before the cut were served. No thread uses it.
#[derive(Drop)]
pub struct AtCut<J: Names, K: Names, H: Wait + Drop> {
    /// The first store.
    pub store: Store<J, H>,
    /// Leave to be handed its commits.
    pub tail: Tail<J>,
    /// The pass that feeds the second store.
    pub feeder: Pass<J>,
    /// The passes of the appliers, with room for all others.
    pub passes: Vec<Pass<J>>,
    /// The sessions of all clients.
    pub sessions: Sessions<J>,
    /// The reader of the input.
    pub rounds: Rounds,
    /// The second store.
    pub reindex: Reindex<K, H>,
}

/// Ends a run that has stopped before the cut: there is none, and the journal is the first store's.
pub fn end_uncut<J: Names, K: Names, Rt: Wait, H: Wait + Drop, G>(
    host: &Host<'_, Rt, H, G>,
    at: AtCut<J, K, H>,
    stopped: Stopped,
) -> CutRun
    requires all { vec_len at.passes + (greatest_client + 2) ≡ at.store.passes }
    requires room { at.store.passes ≤ vec_capacity at.passes }
    ensures { EndsUncut at.store.shards ((at.passes.items ++ at.feeder ∷ []) ++ passes_of at.sessions) (CutStatus.Served stopped.status)
        stopped.unsent result }
{
    let AtCut {
        store,
        tail: _tail,
        feeder,
        passes,
        sessions,
        rounds: _rounds,
        reindex,
    } = at;
    let _fed = reindex.end(host.rt);
    let Stopped { status, unsent } = stopped;
    end_with(
        host.rt,
        Old {
            store,
            feeder,
            passes,
        },
        sessions,
        CutStatus::Served(status),
        unsent,
    )
}

/// The first store with the passes that the sessions don't have.
#[derive(Drop)]
struct Old<J: Names, H: Wait + Drop> {
    store: Store<J, H>,
    feeder: Pass<J>,
    passes: Vec<Pass<J>>,
}

/// Ends the sessions and the first store.
fn end_with<J: Names, Rt: Wait, H: Wait + Drop>(
    rt: &Rt,
    old: Old<J, H>,
    sessions: Sessions<J>,
    status: CutStatus,
    unsent: Unsent,
) -> CutRun
    requires all { vec_len old.passes + (greatest_client + 2) ≡ old.store.passes }
    requires room { old.store.passes ≤ vec_capacity old.passes }
    ensures { EndsUncut old.store.shards ((old.passes.items ++ old.feeder ∷ []) ++ passes_of sessions) status unsent result }
{
    let Old {
        store,
        feeder,
        mut passes,
    } = old;
    passes.push_reserved(feeder);
    sessions.end(&mut passes);
    let Closed { journal, next: _ } = store.close(rt, Passes::from(passes));
    CutRun {
        status,
        cut: None,
        journal: Some(journal),
        unsent,
    }
}

/// Goes over to the second store, and serves the later rounds of an input: what is left is fed to the second store, each session goes on
/// with a pass of it that has seen no less, and the first store is closed. Where a put of the earlier rounds has too many index rows under
/// the second definitions, or when out of memory, the run ends there, and no later round is run.
pub fn cut_over<
    J: Names + Send + Sync,
    K: Names + Send + Sync,
    Rt: Threads + Wait + Sync,
    H: Wait + Drop + Send,
    I: Source,
    O: Sink,
    G: Gate + Sync,
>(
    host: &Host<'_, Rt, H, G>,
    plan: &Plan<'_>,
    at: AtCut<J, K, H>,
    input: &mut I,
    output: &mut O,
) -> CutRun
    requires first { (at.store.shards ≡ plan.now.shards) × (length J.shards ≡ plan.now.shards) × (J.definitions ≡ plan.now.first.now)
        × (J.window ≡ plan.now.window) }
    requires second { (K.definitions ≡ plan.now.second.now) × (K.window ≡ plan.now.window) }
    requires idle { IsIdle at.feeder × All IsIdle at.passes.items }
    requires all { vec_len at.passes + (greatest_client + 2) ≡ at.store.passes }
    requires room { at.store.passes ≤ vec_capacity at.passes }
    requires fed { IsFeeding K.definitions at.store.shards at.store.passes at.reindex at.feeder }
    requires reader { at.rounds.number ≤ most_input_bytes + 1 }
    requires counts { HaveCounts at.store.shards (seen_of at.sessions) }
    requires written { AreWritten at.sessions }
    ensures legal { (left held : Option (List ℕ))
        → HasServed (Counted (Exactly plan.now.after) (RanFirst (asked_of plan.now.shards plan.now.window plan.now.first.now))) left
        (I.left input.old) held (O.held output.old) at.rounds at.sessions
        → IsLegalOf (asked_of plan.now.shards plan.now.window plan.now.first.now) plan.now.second.now plan.now.after left
        (I.left input.new) held (O.held output.new) result }
    ensures ends { EndsBegun (I.faults input.old) (I.faults input.new) (O.faults output.old) (O.faults output.new) result }
{
    let AtCut {
        mut store,
        tail,
        mut feeder,
        passes,
        sessions,
        rounds,
        reindex,
    } = at;
    sessions.met_by(host.rt, &store, &mut feeder);
    // For the proof alone: the feeder has a list of each shard.
    let _slots = feeder.slots();
    let finished = reindex.finish(host.rt, &mut store, &tail, &mut feeder);
    let old = Old {
        store,
        feeder,
        passes,
    };
    match finished {
        Ok(cut) => move_over(
            host,
            plan,
            old,
            Gone {
                sessions,
                rounds,
                cut,
            },
            input,
            output,
        ),
        Err(refused) => end_with(
            host.rt,
            old,
            sessions,
            of_refused(refused),
            Unsent::none(host.alloc),
        ),
    }
}

fn of_refused(refused: ReindexRefused) -> CutStatus
    ensures { result ≡ of_refused refused }
{
    match refused {
        ReindexRefused::TooManyRows { commit, count } => CutStatus::TooManyRows { commit, count },
        ReindexRefused::NoMemory => CutStatus::Served(Status::NoMemory),
    }
}

/// What goes over to the second store, and that store.
#[derive(Drop)]
struct Gone<J: Names, K: Names, H: Wait + Drop> {
    sessions: Sessions<J>,
    rounds: Rounds,
    cut: Cut<K, H>,
}

/// Gives the sessions passes of the second store, closes the first one, and serves the later rounds.
fn move_over<
    J: Names + Send + Sync,
    K: Names + Send + Sync,
    Rt: Threads + Wait + Sync,
    H: Wait + Drop + Send,
    I: Source,
    O: Sink,
    G: Gate + Sync,
>(
    host: &Host<'_, Rt, H, G>,
    plan: &Plan<'_>,
    old: Old<J, H>,
    gone: Gone<J, K, H>,
    input: &mut I,
    output: &mut O,
) -> CutRun
    requires first { (old.store.shards ≡ plan.now.shards) × (J.definitions ≡ plan.now.first.now) × (J.window ≡ plan.now.window) }
    requires second { (K.definitions ≡ plan.now.second.now) × (K.window ≡ plan.now.window) }
    requires idle { IsIdle old.feeder × All IsIdle old.passes.items }
    requires all { vec_len old.passes + (greatest_client + 2) ≡ old.store.passes }
    requires room { old.store.passes ≤ vec_capacity old.passes }
    requires cut { IsCutTo plan.now.second.now old.store.shards old.store.passes old.feeder gone.cut.store gone.cut.passes gone.cut.place }
    requires met { HaveBeenMet old.feeder gone.sessions }
    requires reader { gone.rounds.number ≤ most_input_bytes + 1 }
    requires counts { HaveCounts old.store.shards (seen_of gone.sessions) }
    requires written { AreWritten gone.sessions }
    ensures legal { (left held : Option (List ℕ))
        → HasServed (Counted (Exactly plan.now.after) (RanFirst (asked_of plan.now.shards plan.now.window plan.now.first.now))) left
        (I.left input.old) held (O.held output.old) gone.rounds gone.sessions
        → IsLegalOf (asked_of plan.now.shards plan.now.window plan.now.first.now) plan.now.second.now plan.now.after left
        (I.left input.new) held (O.held output.new) result }
    ensures ends { EndsBegun (I.faults input.old) (I.faults input.new) (O.faults output.old) (O.faults output.new) result }
{
    let Gone {
        sessions,
        rounds,
        cut,
    } = gone;
    let Cut {
        store: second,
        passes: later,
        ledgers,
        place,
    } = cut;
    let Old {
        store,
        feeder,
        mut passes,
    } = old;
    passes.push_reserved(feeder);
    let mut later = later.into_vec();
    let loader = later.take_last();
    match sessions.moved(&mut later, &mut passes, &ledgers) {
        Ok(sessions) => {
            let _closed = store.close(host.rt, Passes::from(passes));
            run_later(
                host,
                plan,
                Later {
                    store: second,
                    loader,
                    passes: later,
                    sessions,
                    rounds,
                    place,
                },
                input,
                output,
            )
        }
        Err(sessions) => {
            sessions.end(&mut passes);
            let Closed { journal, next: _ } = store.close(host.rt, Passes::from(passes));
            CutRun {
                status: CutStatus::Served(Status::NoMemory),
                cut: None,
                journal: Some(journal),
                unsent: Unsent::none(host.alloc),
            }
        }
    }
}
