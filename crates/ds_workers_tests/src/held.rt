//! Clients that hold one another until all are being handled.
ghost use Rattle.std.specs.Prelude.{◌≡◌};

use ds_workers::{Handler, Handling, History, WorkerPool, with_workers};
use std::alloc::{AllocError, Global};
use std::marker::{Brand, PhantomData};
use std::sync::Wait;
use std::sync::atomic::{AtomicU64, Ordering};
use std::test::Fail;
use std::thread::{self, Threads};

/// How many clients there are, as many as may be busy.
const CLIENTS: usize = 16;

/// How often a client looks whether all the others are being handled.
const TURNS: u32 = 10_000_000;

/// Which history a pool has. Each call of a test picks it.
trait Naming {
    ghost use Rattle.ds_workers.specs.Marks.{HistoryId};

    ghost history: { HistoryId };
}

impl Naming for Brand {
    ghost use Rattle.ds_workers.specs.Marks.{no_history};

    ghost history = { no_history };
}

/// A client, and whether it is to be handled.
#[derive(Drop)]
struct Client {
    is_due: bool,
}

/// A client that was handled isn't due any more.
struct Dues<N> {
    of: PhantomData<N>,
}

impl<N: Naming> Handling<Client> for Dues<N> {
    ghost use Rattle.std.specs.Prelude.{◌≡◌, false, ⊤};

    ghost history = { N.history };

    ghost is_ready = { λ client. ⊤ };

    ghost handled = { λ before after. after.is_due ≡ false };
}

/// Holds each client until so many are inside at once, and counts those that saw it.
#[derive(Drop)]
struct Meeting {
    wanted: AtomicU64,
    inside: AtomicU64,
    met: AtomicU64,
}

impl Meeting {
    fn meet(&self) {
        self.inside.fetch_add(1, Ordering::SeqCst);
        let wanted = self.wanted.load(Ordering::SeqCst);
        for _ in 0..TURNS {
            if self.inside.load(Ordering::SeqCst) >= wanted {
                self.met.fetch_add(1, Ordering::SeqCst);
                return;
            }
            thread::yield_now();
        }
    }
}

impl<N: Naming> Handler<Client, Dues<N>> for Meeting {
    fn is_busy(&self, client: &Client) -> bool {
        client.is_due
    }

    fn handle<R: Threads + Wait + Sync>(&self, _rt: &R, client: &mut Client) {
        self.meet();
        client.is_due = false;
    }
}

/// How many clients a round has that are busy: two, eight and sixteen, and then few again.
const ROUNDS: [u64; 6] = [2, 8, 16, 16, 1, 2];

/// Makes so many of the clients due.
fn make_due(clients: &mut [Client], many: u64) {
    let mut left = many;
    for client in clients {
        client.is_due = left > 0;
        left = left.saturating_sub(1);
    }
}

/// Whether so many clients meet in a round.
fn meets<N: Naming, R: Threads + Wait + Sync>(
    rt: &R,
    pool: &WorkerPool<Client, Dues<N>>,
    meeting: &Meeting,
    clients: &mut Vec<Client>,
    many: u64,
) -> bool {
    make_due(clients.as_mut_slice(), many);
    meeting.wanted.store(many, Ordering::SeqCst);
    meeting.inside.store(0, Ordering::SeqCst);
    meeting.met.store(0, Ordering::SeqCst);
    pool.run_round(rt, meeting, clients);
    meeting.met.load(Ordering::SeqCst) == many && clients.iter().all(|client| !client.is_due)
}

/// Whether the clients of each round meet.
fn all_meet<N: Naming, R: Threads + Wait + Sync>(
    rt: &R,
    pool: &WorkerPool<Client, Dues<N>>,
    meeting: &Meeting,
    clients: &mut Vec<Client>,
) -> bool {
    for many in ROUNDS {
        if !meets(rt, pool, meeting, clients, many) {
            return false;
        }
    }
    true
}

fn clients(alloc: Global) -> Result<Vec<Client>, AllocError> {
    let mut clients = Vec::with_capacity(alloc, CLIENTS)?;
    for _ in 0..CLIENTS {
        clients.push(Client { is_due: false })?;
    }
    Ok(clients)
}

/// Whether the clients of each round meet, with workers of a pool of this history.
fn meet_by<N: Naming + Send + Sync, R: Threads + Wait + Sync>(
    rt: &R,
    alloc: Global,
    history: History<Client>,
) -> Result<bool, AllocError>
    requires { history.history ≡ N.history }
{
    let pool: WorkerPool<Client, Dues<N>> = WorkerPool::make(alloc, CLIENTS - 1, history);
    let mut all = clients(alloc)?;
    let meeting = Meeting {
        wanted: AtomicU64::new(0),
        inside: AtomicU64::new(0),
        met: AtomicU64::new(0),
    };
    Ok(meet_beside(rt, &pool, &meeting, &mut all))
}

fn meet_beside<N: Naming + Send + Sync, R: Threads + Wait + Sync>(
    rt: &R,
    pool: &WorkerPool<Client, Dues<N>>,
    meeting: &Meeting,
    clients: &mut Vec<Client>,
) -> bool {
    with_workers(
        rt,
        pool,
        meeting,
        &mut || all_meet(rt, pool, meeting, clients),
    )
}

fn held<R: Threads + Wait + Sync>(rt: &R, alloc: Global) -> Result<bool, AllocError> {
    meet_by::<Brand, R>(rt, alloc, History::new())
}

#[test]
fn clients_are_handled_at_once(rt: HostRuntime) -> Result<(), Fail> {
    for _ in 0..20 {
        assert!(&rt; held(&rt, rt.alloc())?);
    }
    Ok(())
}
