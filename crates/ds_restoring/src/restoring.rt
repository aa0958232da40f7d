//! A run that begins with what is kept: a store is loaded with the kept journal and counter, and the sessions begin behind them.
ghost use Rattle.std.specs.Prelude.{◌≡◌, ◌+◌, ◌-◌, ◌≤◌, ◌++◌, ◌∷◌, All, IfOk, None, OnOk, [], length, replicate, vec_len};
ghost use Rattle.std.specs.Vec.{vec_capacity};
ghost use Rattle.ds_base.specs.Limits.{first_drawn_id, greatest_client, most_writes};
ghost use Rattle.ds_clients.specs.Clients.{AreNew};
ghost use Rattle.ds_clients.specs.Runs.{AreWritten, IsIdle, seen_of};
ghost use Rattle.ds_keep.specs.Keepers.{IsHistory};
ghost use Rattle.ds_restoring.specs.Restored.{IsReady};
ghost use Rattle.ds_rounds.specs.Reading.{first_reader};
ghost use Rattle.ds_store.specs.Loads.{loaded};
ghost use Rattle.ds_store.specs.Passes.{nothing_seen};
ghost use Rattle.ds_store_hubs.specs.Opening.{AreBegun, AreNamesOf};

use ds_base::limits::MAX_CLIENT;
use ds_base::{Counts, NoMemory};
use ds_clients::{Rounds, Sessions};
use ds_journal::Draft;
use ds_log::{Commit, Journal};
use ds_serving::{Begun, begin};
use ds_store::{Ledgers, Loading, Made, Names, Opened, Pass, Passes, Store, Tail};
use std::alloc::{AllocError, Global};
use std::sync::Wait;

/// How many passes the sessions have, and the follower of the journal.
const PASSES: usize = MAX_CLIENT as usize + 2;

/// What a run has made before its first round.
#[derive(Drop)]
pub struct Ready<J: Names, H: Wait + Drop> {
    pub store: Store<J, H>,
    /// The pass that loaded the store has seen all that is kept.
    pub pass: Pass<J>,
    pub tail: Tail<J>,
    /// As many zeros as there are shards.
    pub counts: Counts,
    /// The reader of the input.
    pub rounds: Rounds,
    pub sessions: Sessions<J>,
    /// The passes of the appliers, with room for those of the sessions and the one that loaded.
    pub appliers: Vec<Pass<J>>,
}

/// Makes a store of what was opened, whose names these are, with the kept journal and the kept id counter, and lets the sessions begin
/// behind them. A refusal means out of memory, or comes where the journal has more than 2^48 commits.
pub fn restore<J: Names, R: Wait, H: Wait + Drop>(
    rt: &R,
    alloc: Global,
    opened: Opened<H>,
    journal: Journal,
    next: u64,
) -> Result<Ready<J, H>, NoMemory>
    requires names { AreNamesOf opened J.journal J.shards J.commits J.ids J.definitions J.window J.ledger }
    requires begun { AreBegun opened }
    requires passes { greatest_client + 2 ≤ opened.passes }
    requires history { IsHistory (record { journal = journal; next = next }) }
    ensures { IfOk result (λ r. IsReady (length opened.shards) (record { journal = journal; next = next }) r.store r.rounds r.sessions
        r.pass r.counts r.appliers.items (vec_capacity r.appliers)) }
{
    let mut loading = Loading::make(alloc, opened)?;
    load(rt, alloc, &mut loading, journal, next)?;
    make_ready(rt, alloc, loading)
}

/// Loads an empty store with a journal, and with an id counter below which its written ids were drawn.
fn load<J: Names, R: Wait, H: Wait + Drop>(
    rt: &R,
    alloc: Global,
    loading: &mut Loading<J, H>,
    journal: Journal,
    next: u64,
) -> Result<(), NoMemory>
    requires empty { loading.old.journal ≡ [] }
    requires rises { loading.old.next ≤ next }
    requires history { IsHistory (record { journal = journal; next = next }) }
    ensures { OnOk result (loading.new ≡ record loading.old { journal = journal; next = next }) }
{
    loading.draw_up_to(rt, next);
    for commit in journal.into_vec() {
        loading.commit(rt, draft_of(alloc, commit)?)?;
    }
    Ok(())
}

/// A commit as one that is to be appended.
fn draft_of(alloc: Global, commit: Commit) -> Result<Draft, NoMemory>
    requires { length commit.writes ≤ most_writes }
    ensures { IfOk result (λ draft. draft ≡ commit) }
{
    let Commit {
        client,
        touched,
        writes,
    } = commit;
    Draft::make(alloc, client, touched, writes)
}

/// What a run begins with behind what was loaded: the pass that loaded follows the journal.
fn make_ready<J: Names, R: Wait, H: Wait + Drop>(
    rt: &R,
    alloc: Global,
    loading: Loading<J, H>,
) -> Result<Ready<J, H>, NoMemory>
    requires { greatest_client + 2 ≤ loading.passes }
    ensures { IfOk result (λ r. IsReady loading.shards (record { journal = loading.journal; next = loading.next }) r.store r.rounds
        r.sessions r.pass r.counts r.appliers.items (vec_capacity r.appliers)) }
{
    let place = loading.len();
    let next = loading.next();
    let (made, others) = share_apart(loading)?;
    let clients = begin_clients(alloc, &made.store, others, &made.ledgers, place, next)?;
    let Loaded {
        store,
        pass,
        tail,
        ledgers: _ledgers,
    } = made;
    let Clients { begun, counts } = clients;
    let Begun {
        sessions,
        passes: appliers,
        rounds,
    } = begun;
    Ok(Ready {
        store,
        pass,
        tail,
        counts,
        rounds,
        sessions,
        appliers,
    })
}

/// A store that was loaded, and what follows its journal.
#[derive(Drop)]
struct Loaded<J: Names, H: Wait + Drop> {
    store: Store<J, H>,
    /// The pass that loaded.
    pass: Pass<J>,
    tail: Tail<J>,
    ledgers: Ledgers<J>,
}

/// Shares a loaded store. The pass that loaded it stands apart from the others. A refusal means out of memory.
fn share_apart<J: Names, H: Wait + Drop>(
    loading: Loading<J, H>,
) -> Result<(Loaded<J, H>, Passes<J>), NoMemory>
    ensures store { IfOk result (λ r. (r.0.store.shards ≡ loading.shards) × (r.0.store.passes ≡ loading.passes)) }
    ensures apart { IfOk result (λ r. (r.1 ≡ replicate (loading.passes - 1) (nothing_seen loading.shards))
        × (r.0.pass ≡ loaded loading.shards loading.journal loading.next)) }
{
    let Made {
        store,
        tail,
        ledgers,
        passes,
    } = loading.share();
    let (pass, others) = last_apart(passes)?;
    let loaded = Loaded {
        store,
        pass,
        tail,
        ledgers,
    };
    Ok((loaded, others))
}

/// What the clients of a run begin with.
#[derive(Drop)]
struct Clients<J: Names> {
    begun: Begun<J>,
    /// As many zeros as there are shards.
    counts: Counts,
}

/// What a run begins with over a store, of which these are passes. The clients begin behind this place and this id counter, and there is
/// room for their passes and one more. A refusal means out of memory.
fn begin_clients<J: Names, H: Wait + Drop>(
    alloc: Global,
    store: &Store<J, H>,
    passes: Passes<J>,
    ledgers: &Ledgers<J>,
    place: u64,
    next: u64,
) -> Result<Clients<J>, NoMemory>
    requires enough { greatest_client + 1 ≤ length passes }
    requires new { All (λ p. p ≡ nothing_seen store.now.shards) passes }
    requires next { first_drawn_id ≤ next }
    ensures rounds { IfOk result (λ c. c.begun.rounds ≡ first_reader) }
    ensures counts { IfOk result (λ c. c.counts ≡ replicate store.now.shards 0) }
    ensures seen { IfOk result (λ c. seen_of c.begun.sessions ≡ replicate (greatest_client + 1) (record {
      place = place;
      counts = replicate store.now.shards 0;
      next_id = next;
      transaction = None;
    })) }
    ensures idle { IfOk result (λ c. All (λ s. IsIdle s.pass) c.begun.sessions) }
    ensures written { IfOk result (λ c. AreWritten c.begun.sessions) }
    ensures appliers { IfOk result (λ c. All IsIdle c.begun.passes.items) }
    ensures all { IfOk result (λ c. vec_len c.begun.passes + (greatest_client + 1) ≡ length passes) }
    ensures room { IfOk result (λ c. length passes + 1 ≤ vec_capacity c.begun.passes) }
{
    let mut begun = begin_with_room(alloc, store.shards(), passes, ledgers)?;
    begun.sessions.begin_behind(store, place, next)?;
    let counts = Counts::from(vec![in alloc; 0u64; store.shards() as usize]?);
    Ok(Clients { begun, counts })
}

/// What a run begins with, as `begin` gives it, with room for the sessions' passes and one more.
fn begin_with_room<J: Names>(
    alloc: Global,
    shards: u32,
    passes: Passes<J>,
    ledgers: &Ledgers<J>,
) -> Result<Begun<J>, NoMemory>
    requires enough { greatest_client + 1 ≤ length passes }
    requires new { All (λ p. p ≡ nothing_seen shards) passes }
    ensures rounds { IfOk result (λ b. b.rounds ≡ first_reader) }
    ensures sessions { IfOk result (λ b. AreNew shards b.sessions) }
    ensures appliers { IfOk result (λ b. All IsIdle b.passes.items) }
    ensures all { IfOk result (λ b. vec_len b.passes + (greatest_client + 1) ≡ length passes) }
    ensures room { IfOk result (λ b. length passes + 1 ≤ vec_capacity b.passes) }
{
    let mut begun = begin(alloc, shards, passes, ledgers)?;
    begun.passes.reserve(PASSES)?;
    Ok(begun)
}

/// The last of these passes, and the others. A refusal means out of memory.
fn last_apart<J: Names>(passes: Passes<J>) -> Result<(Pass<J>, Passes<J>), NoMemory>
    ensures { IfOk result (λ parts. passes ≡ parts.1 ++ parts.0 ∷ []) }
{
    let mut others = passes.into_vec();
    match others.pop() {
        Some(pass) => Ok((pass, Passes::from(others))),
        None => Err(AllocError),
    }
}
