//! Workers for the clients of a run's rounds, which live as long as the run.
ghost use Rattle.std.specs.Prelude.{◌≡◌, All, Some};
ghost use Rattle.ds_clients.specs.Clients.{EachOf, HasAnsweredOwn, StartsRound};

use crate::answering::{Answering, LineHandler};
use crate::clients::CLIENTS;
use ds_client::Client;
use ds_indexdef::Defs;
use ds_io::Gate;
use ds_store::{Names, Store};
use ds_workers::{Handling, History, WorkerPool};
use std::alloc::Global;
use std::marker::{Brand, Model};
use std::sync::Wait;
use std::thread::Threads;

/// What the workers of a run know by their type: the history of what they are handed, and how many shards the store has. Each run picks it.
pub trait RunNames {
    ghost use Rattle.std.specs.Prelude.{ℕ};
    ghost use Rattle.ds_workers.specs.Marks.{HistoryId};

    // The history of what the workers are handed.
    ghost history: { HistoryId };
    // How many shards the store has.
    ghost shards: { ℕ };
}

impl RunNames for Brand {
    ghost use Rattle.ds_workers.specs.Marks.{no_history};

    ghost history = { no_history };

    ghost shards = { 0 };
}

/// What the workers of a run are made of: a history of what they are handed, with nothing in it, and where they take memory. Contracts see
/// which history it is.
#[derive(Drop)]
pub struct NewWorkers<J: Names> {
    alloc: Global,
    history: History<Client<J>>,
}

impl<J: Names> Model for NewWorkers<J> {
    ghost use Rattle.ds_workers.specs.Marks.{HistoryId};

    ghost Value = { HistoryId };

    ghost view = { λ w. w.history.history };
}

impl<J: Names> NewWorkers<J> {
    /// Of a new history, whose name is picked here: so nothing is said of it in advance, and whoever runs rounds picks its type by it. It
    /// takes no memory.
    pub fn new(alloc: Global) -> NewWorkers<J> {
        NewWorkers {
            alloc,
            history: History::new(),
        }
    }

    /// Where they take memory. Contracts see nothing of an allocator.
    pub fn alloc(&self) -> Global {
        self.alloc
    }
}

/// The workers of a run: as many as clients may have lines beside one, each of which answers the lines of one client of a round.
#[derive(Drop)]
pub struct Workers<J: Names, N: RunNames>
where
    Answering<J, N>: Handling<Client<J>>,
{
    pool: WorkerPool<Client<J>, Answering<J, N>>,
}

impl<J: Names, N: RunNames> Workers<J, N> {
    /// None has started yet. Where memory runs out there are fewer, and the clients of a round that have none are answered one after
    /// another. No clause says how many there are, as none of a round asks it.
    pub fn make(new: NewWorkers<J>) -> Workers<J, N>
        requires { new ≡ N.history }
    {
        let NewWorkers { alloc, history } = new;
        Workers {
            pool: WorkerPool::make(alloc, CLIENTS - 1, history),
        }
    }

    /// Has each client's lines answered, all clients at once.
    pub(crate) fn run_round<R: Threads + Wait + Sync, H: Wait + Drop, G: Gate>(
        &self,
        rt: &R,
        handler: &LineHandler<'_, J, N, H, G>,
        clients: &mut Vec<Client<J>>,
    )
        requires { All (λ c. StartsRound N.shards c.session c.own) clients.old.items }
        ensures { EachOf (λ c d. HasAnsweredOwn J.definitions N.shards (Some J.window) c.session c.own d.session) clients.old.items
            clients.new.items }
    {
        self.pool.run_round(rt, handler, clients);
    }
}

/// Calls `body`, which runs rounds of this store, while there are workers for them, and gives what it gave. A worker starts once a round
/// needs one more than there are, and sleeps between rounds; all have ended when this call returns. Where no thread can be made, the
/// clients of a round are answered one after another.
pub fn with_workers<
    J: Names + Send + Sync,
    N: RunNames + Send + Sync,
    R: Threads + Wait + Sync,
    H: Wait + Drop + Send,
    G: Gate + Sync,
    T,
    F: FnMut() -> T,
>(rt: &R, store: &Store<J, H>, defs: &Defs, gate: &G, workers: &Workers<J, N>, body: &mut F) -> T
    requires definitions { defs.now ≡ J.definitions }
    requires shards { store.now.shards ≡ N.shards }
    requires body { F.pre body.old }
    ensures { F.step body.old result body.new }
{
    let handler = LineHandler::<J, N, H, G>::new(store, defs, gate);
    ds_workers::with_workers(rt, &workers.pool, &handler, body)
}
