//! A run until the cut: two stores, and the rounds before it, whose commits are fed to the second store beside them.
ghost use Rattle.std.specs.Prelude.{◌≡◌, ◌+◌, ◌≤◌, [], All, IfOk, length, replicate, vec_len};
ghost use Rattle.std.specs.Vec.{vec_capacity};
ghost use Rattle.ds_base.specs.Limits.{first_drawn_id, greatest_client, greatest_window, most_input_bytes, most_shards};
ghost use Rattle.ds_protocol.specs.Watermarks.{HaveCounts};
ghost use Rattle.ds_rounds.specs.Reading.{first_reader};
ghost use Rattle.ds_clients.specs.Clients.{AreNew};
ghost use Rattle.ds_clients.specs.Runs.{AreWritten, IsIdle, seen_of};
ghost use Rattle.ds_store_hubs.specs.Opening.{AreBegun, AreNamesOf};
ghost use Rattle.ds_store.specs.Passes.{nothing_seen};
ghost use Rattle.ds_cutting.specs.CutSteps.{HasServedSome, IsCutRunOf, IsFeeding, asked_of};

use crate::before::{Before, serve_before};
use ds_base::{NoMemory, TryCopy};
use ds_clients::Sessions;
use ds_cutting::{AtCut, CutRun, CutStatus, Host, Plan, cut_over, end_uncut, nothing_run};
use ds_feeder::feed_beside;
use ds_feeding::Reindex;
use ds_indexdef::Defs;
use ds_io::{Gate, Sink, Source};
use ds_rounds::Rounds;
use ds_serve::RoundOutcome;
use ds_serving::{Begun, Serving, begin};
use ds_store::{Made, Names, Opened, Pass, Store, Tail, make, open};
use ds_words::Status;
use std::alloc::Global;
use std::marker::Brand;
use std::sync::Wait;
use std::thread::Threads;

/// Makes the first store of what was opened, whose names these are, opens the second one, and serves an input.
pub(crate) fn run_opened<
    J: Names + Send + Sync,
    Rt: Threads + Wait + Sync,
    H: Wait + Drop + Send + Copy,
    I: Source,
    O: Sink,
    G: Gate + Sync,
>(
    host: &Host<'_, Rt, H, G>,
    plan: &Plan<'_>,
    opened: Opened<H>,
    input: &mut I,
    output: &mut O,
) -> CutRun
    requires names { AreNamesOf opened J.journal J.shards J.commits J.ids J.definitions J.window J.ledger }
    requires begun { AreBegun opened }
    requires given { (length opened.shards ≡ plan.now.shards) × (opened.definitions ≡ plan.now.first.now)
        × (opened.window ≡ plan.now.window) × (opened.passes ≡ plan.now.passes) }
    requires shards { (1 ≤ plan.now.shards) × (plan.now.shards ≤ most_shards) }
    requires window { (1 ≤ plan.now.window) × (plan.now.window ≤ greatest_window) }
    requires passes { (greatest_client + 2 ≤ plan.now.passes) × (plan.now.passes ≤ 26) }
    ensures { IsCutRunOf (asked_of plan.now.shards plan.now.window plan.now.first.now) plan.now.second.now plan.now.after
        (I.left input.old) (I.left input.new) (O.held output.old) (O.held output.new) (I.faults input.old) (I.faults input.new)
        (O.faults output.old) (O.faults output.new) result }
{
    let Ok(made) = make::<J, H>(host.alloc, opened) else {
        return nothing_run(host.alloc, CutStatus::Served(Status::NoMemory));
    };
    match open(
        host.rt,
        host.handle,
        host.alloc,
        plan.second,
        plan.shards,
        plan.passes,
        plan.window,
    ) {
        Ok(second) => run_both::<J, Brand, Rt, H, I, O, G>(host, plan, made, second, input, output),
        Err(_) => nothing_run(host.alloc, CutStatus::Served(Status::NoMemory)),
    }
}

/// The same, with the first store and with what the second was opened with, whose names these are.
fn run_both<
    J: Names + Send + Sync,
    K: Names + Send + Sync,
    Rt: Threads + Wait + Sync,
    H: Wait + Drop + Send + Copy,
    I: Source,
    O: Sink,
    G: Gate + Sync,
>(
    host: &Host<'_, Rt, H, G>,
    plan: &Plan<'_>,
    made: Made<J, H>,
    second: Opened<H>,
    input: &mut I,
    output: &mut O,
) -> CutRun
    requires first { (made.store.shards ≡ plan.now.shards) × (length J.shards ≡ plan.now.shards)
        × (J.definitions ≡ plan.now.first.now) × (J.window ≡ plan.now.window) × (made.store.passes ≡ plan.now.passes) }
    requires new { made.passes ≡ replicate plan.now.passes (nothing_seen plan.now.shards) }
    requires names { AreNamesOf second K.journal K.shards K.commits K.ids K.definitions K.window K.ledger }
    requires begun { AreBegun second }
    requires given { (length second.shards ≡ plan.now.shards) × (second.definitions ≡ plan.now.second.now)
        × (second.window ≡ plan.now.window) × (second.passes ≡ plan.now.passes) }
    requires passes { greatest_client + 2 ≤ plan.now.passes }
    ensures { IsCutRunOf (asked_of plan.now.shards plan.now.window plan.now.first.now) plan.now.second.now plan.now.after
        (I.left input.old) (I.left input.new) (O.held output.old) (O.held output.new) (I.faults input.old) (I.faults input.new)
        (O.faults output.old) (O.faults output.new) result }
{
    match second_store::<K, H>(host.alloc, second, plan.second) {
        Ok(reindex) => run_made(host, plan, made, reindex, input, output),
        Err(_) => nothing_run(host.alloc, CutStatus::Served(Status::NoMemory)),
    }
}

/// The same, with both stores, of which nothing was used yet.
fn run_made<
    J: Names + Send + Sync,
    K: Names + Send + Sync,
    Rt: Threads + Wait + Sync,
    H: Wait + Drop + Send + Copy,
    I: Source,
    O: Sink,
    G: Gate + Sync,
>(
    host: &Host<'_, Rt, H, G>,
    plan: &Plan<'_>,
    made: Made<J, H>,
    reindex: Reindex<K, H>,
    input: &mut I,
    output: &mut O,
) -> CutRun
    requires first { (made.store.shards ≡ plan.now.shards) × (length J.shards ≡ plan.now.shards)
        × (J.definitions ≡ plan.now.first.now) × (J.window ≡ plan.now.window) × (made.store.passes ≡ plan.now.passes) }
    requires second { (K.definitions ≡ plan.now.second.now) × (K.window ≡ plan.now.window) }
    requires new { made.passes ≡ replicate plan.now.passes (nothing_seen plan.now.shards) }
    requires unfed { reindex ≡ record {
      shards = plan.now.shards;
      passes = plan.now.passes;
      journal = [];
      next = first_drawn_id;
    } }
    requires passes { greatest_client + 2 ≤ plan.now.passes }
    ensures { IsCutRunOf (asked_of plan.now.shards plan.now.window plan.now.first.now) plan.now.second.now plan.now.after
        (I.left input.old) (I.left input.new) (O.held output.old) (O.held output.new) (I.faults input.old) (I.faults input.new)
        (O.faults output.old) (O.faults output.new) result }
{
    let Made {
        store,
        tail,
        ledgers,
        passes,
    } = made;
    let stores = Stores {
        store,
        tail,
        reindex,
    };
    match begin(host.alloc, plan.shards, passes, &ledgers) {
        Ok(begun) => run_begun(host, plan, stores, begun, input, output),
        Err(_) => nothing_run(host.alloc, CutStatus::Served(Status::NoMemory)),
    }
}

/// The second store, to which nothing is fed yet.
fn second_store<K: Names, H: Wait + Drop>(
    alloc: Global,
    opened: Opened<H>,
    defs: &Defs,
) -> Result<Reindex<K, H>, NoMemory>
    requires names { AreNamesOf opened K.journal K.shards K.commits K.ids K.definitions K.window K.ledger }
    requires begun { AreBegun opened }
    requires definitions { opened.definitions ≡ defs.now }
    ensures { IfOk result (λ r. r ≡ record {
      shards = length opened.shards;
      passes = opened.passes;
      journal = [];
      next = first_drawn_id;
    }) }
{
    let defs = defs.copy(alloc)?;
    Reindex::make(alloc, opened, defs)
}

/// The first store with its tail, and the second one.
#[derive(Drop)]
struct Stores<J: Names, K: Names, H: Wait + Drop> {
    store: Store<J, H>,
    tail: Tail<J>,
    reindex: Reindex<K, H>,
}

/// Serves the rounds before the cut, and what follows.
fn run_begun<
    J: Names + Send + Sync,
    K: Names + Send + Sync,
    Rt: Threads + Wait + Sync,
    H: Wait + Drop + Send + Copy,
    I: Source,
    O: Sink,
    G: Gate + Sync,
>(
    host: &Host<'_, Rt, H, G>,
    plan: &Plan<'_>,
    stores: Stores<J, K, H>,
    begun: Begun<J>,
    input: &mut I,
    output: &mut O,
) -> CutRun
    requires first { (stores.store.shards ≡ plan.now.shards) × (length J.shards ≡ plan.now.shards) × (J.definitions ≡ plan.now.first.now)
        × (J.window ≡ plan.now.window) }
    requires second { (K.definitions ≡ plan.now.second.now) × (K.window ≡ plan.now.window) }
    requires rounds { begun.rounds ≡ first_reader }
    requires sessions { AreNew plan.now.shards begun.sessions }
    requires others { (All IsIdle begun.passes.items) × (1 ≤ vec_len begun.passes) }
    requires all { vec_len begun.passes + (greatest_client + 1) ≡ stores.store.passes }
    requires room { stores.store.passes ≤ vec_capacity begun.passes }
    requires unfed { stores.reindex ≡ record {
      shards = plan.now.shards;
      passes = stores.store.passes;
      journal = [];
      next = first_drawn_id;
    } }
    ensures { IsCutRunOf (asked_of plan.now.shards plan.now.window plan.now.first.now) plan.now.second.now plan.now.after
        (I.left input.old) (I.left input.new) (O.held output.old) (O.held output.new) (I.faults input.old) (I.faults input.new)
        (O.faults output.old) (O.faults output.new) result }
{
    let Stores {
        store,
        tail,
        reindex,
    } = stores;
    let Begun {
        mut sessions,
        mut passes,
        mut rounds,
    } = begun;
    let feeder = passes.take_last();
    // For the proof alone: no pass shows a lower id counter than the first one.
    let _least = feeder.next();
    let mut fed = Fed {
        tail,
        feeder,
        reindex,
        before: Before {
            alloc: host.alloc,
            many: plan.after,
        },
    };
    let serving = Serving::new(host.rt, &store, plan.first, host.gate);
    let outcome = serve_fed(
        &serving,
        &mut fed,
        &mut rounds,
        &mut sessions,
        passes.as_mut_slice(),
        input,
        output,
    );
    let at = at_cut(store, fed, passes, sessions, rounds);
    match outcome {
        RoundOutcome::Stopped(stopped) => end_uncut(host, at, stopped),
        RoundOutcome::Served => cut_over(host, plan, at, input, output),
    }
}

/// What a run is made of behind the rounds before the cut.
fn at_cut<J: Names, K: Names, H: Wait + Drop>(
    store: Store<J, H>,
    fed: Fed<J, K, H>,
    passes: Vec<Pass<J>>,
    sessions: Sessions<J>,
    rounds: Rounds,
) -> AtCut<J, K, H>
    ensures store { result.store ≡ store }
    ensures feeder { result.feeder ≡ fed.feeder }
    ensures others { result.passes.items ≡ passes.items }
    ensures len { vec_len result.passes ≡ vec_len passes }
    ensures capacity { vec_capacity result.passes ≡ vec_capacity passes }
    ensures sessions { result.sessions ≡ sessions }
    ensures rounds { result.rounds ≡ rounds }
    ensures reindex { result.reindex ≡ fed.reindex }
{
    let Fed {
        tail,
        feeder,
        reindex,
        before: _,
    } = fed;
    AtCut {
        store,
        tail,
        feeder,
        passes,
        sessions,
        rounds,
        reindex,
    }
}

/// The second store while the rounds before the cut are served, and what feeds it: the first store's tail, and the pass that has seen the
/// commits that were fed.
#[derive(Drop)]
struct Fed<J: Names, K: Names, H: Wait + Drop> {
    tail: Tail<J>,
    feeder: Pass<J>,
    reindex: Reindex<K, H>,
    before: Before,
}

/// Serves the rounds before the cut while their commits are fed to the second store.
fn serve_fed<
    J: Names + Send + Sync,
    K: Names + Send + Sync,
    Rt: Threads + Wait + Sync,
    H: Wait + Drop + Send,
    I: Source,
    O: Sink,
    G: Gate + Sync,
>(
    serving: &Serving<'_, J, Rt, H, G>,
    fed: &mut Fed<J, K, H>,
    rounds: &mut Rounds,
    sessions: &mut Sessions<J>,
    appliers: &mut [Pass<J>],
    input: &mut I,
    output: &mut O,
) -> RoundOutcome
    requires fed { IsFeeding K.definitions serving.now.shards fed.old.reindex.passes fed.old.reindex fed.old.feeder }
    requires feeder { IsIdle fed.old.feeder }
    requires reader { rounds.old.number ≤ most_input_bytes + 1 }
    requires counts { HaveCounts serving.now.shards (seen_of sessions.old) }
    requires written { AreWritten sessions.old }
    requires idle { All IsIdle appliers.old }
    ensures served { HasServedSome serving.now fed.old.before.many rounds.old rounds.new (I.left input.old) (I.left input.new)
        (O.held output.old) (O.held output.new) (I.faults input.old) (I.faults input.new) (O.faults output.old) (O.faults output.new)
        sessions.old sessions.new result }
    ensures idle { All IsIdle appliers.new }
    ensures many { length appliers.new ≡ length appliers.old }
    ensures fed { IsFeeding K.definitions serving.now.shards fed.old.reindex.passes fed.new.reindex fed.new.feeder }
    ensures feeder { IsIdle fed.new.feeder }
{
    let before = fed.before;
    let (outcome, _fed) = feed_beside(
        serving.rt(),
        serving.store(),
        &fed.tail,
        &mut fed.feeder,
        &mut fed.reindex,
        &mut || -> RoundOutcome
            requires reader { rounds.now.number ≤ most_input_bytes + 1 }
            requires counts { HaveCounts serving.now.shards (seen_of sessions.now) }
            requires written { AreWritten sessions.now }
            requires idle { All IsIdle appliers.now }
            ensures served { HasServedSome serving.entry.now before.many rounds.entry.now rounds.exit.now (I.left input.entry.now)
                (I.left input.exit.now) (O.held output.entry.now) (O.held output.exit.now) (I.faults input.entry.now)
                (I.faults input.exit.now) (O.faults output.entry.now) (O.faults output.exit.now) sessions.entry.now sessions.exit.now
                result }
            ensures idle { All IsIdle appliers.exit.now }
            ensures many { length appliers.exit.now ≡ length appliers.entry.now }
        { serve_before(serving, before, rounds, sessions, appliers, input, output) },
    );
    outcome
}
