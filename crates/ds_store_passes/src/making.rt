//! How passes are made.
ghost use Rattle.std.specs.Prelude.{◌≡◌, ◌≤◌, [], All, IfOk, length, map, replicate};
ghost use Rattle.ds_base.specs.Limits.{first_drawn_id, most_shards};
ghost use Rattle.ds_draw.specs.Draws.{SeatView, new_seat};
ghost use Rattle.ds_hub.specs.Holding.{hub_in, known_in};
ghost use Rattle.ds_store_passes.specs.Passes.{nothing_seen};
ghost use Rattle.ds_store_hubs.specs.Origins.{origins};

use crate::pass::Pass;
use ds_base::limits::FIRST_DRAWN_ID;
use ds_base::{NoMemory, Sequence};
use ds_draw::{Seat, Seats};
use ds_hub::{Reader, Slot};
use ds_log::Entry;
use ds_shard::ShardState;
use ds_store_hubs::{JournalState, Names, OpenedShard};
use std::alloc::{AllocError, Global};
use std::marker::PhantomData;
use std::sync::Wait;

/// The passes of a store.
pub type Passes<J> = Sequence<Pass<J>>;

/// So many passes, each with a reader of each hub and a seat on each word. A refusal means out of memory.
pub fn all_passes<J: Names, H: Wait + Drop>(
    alloc: Global,
    readers: &mut Vec<Reader<(), JournalState>>,
    shards: &mut Vec<OpenedShard<H>>,
    commits: &mut Seats,
    ids: &mut Seats,
    passes: u32,
) -> Result<Passes<J>, NoMemory>
    requires readers { All (λ r. (r.hub ≡ J.journal) × (r.known ≡ [])) readers.old.items }
    requires few { (1 ≤ length J.shards) × (length J.shards ≤ most_shards) }
    requires shards { shards.old.items ≡ origins J.ledger J.definitions J.window J.shards }
    requires commits { All (λ s. s ≡ new_seat J.commits 1) commits.old }
    requires ids { All (λ s. s ≡ new_seat J.ids first_drawn_id) ids.old }
    ensures readers { All (λ r. (r.hub ≡ J.journal) × (r.known ≡ [])) readers.new.items }
    ensures shards { shards.new.items ≡ shards.old.items }
    ensures commits { All (λ s. s ≡ new_seat J.commits 1) commits.new }
    ensures ids { All (λ s. s ≡ new_seat J.ids first_drawn_id) ids.new }
    ensures passes { IfOk result (λ list. list ≡ replicate passes (nothing_seen (length J.shards))) }
{
    let mut list = Passes::new(alloc);
    for _pass in 0..passes {
        let pass = one_pass(alloc, readers, shards, commits, ids)?;
        list.push(pass).map_err(|_| AllocError)?;
    }
    Ok(list)
}

/// A pass that has seen nothing.
fn one_pass<J: Names, H: Wait + Drop>(
    alloc: Global,
    readers: &mut Vec<Reader<(), JournalState>>,
    shards: &mut Vec<OpenedShard<H>>,
    commits: &mut Seats,
    ids: &mut Seats,
) -> Result<Pass<J>, NoMemory>
    requires readers { All (λ r. (r.hub ≡ J.journal) × (r.known ≡ [])) readers.old.items }
    requires few { (1 ≤ length J.shards) × (length J.shards ≤ most_shards) }
    requires shards { shards.old.items ≡ origins J.ledger J.definitions J.window J.shards }
    requires commits { All (λ s. s ≡ new_seat J.commits 1) commits.old }
    requires ids { All (λ s. s ≡ new_seat J.ids first_drawn_id) ids.old }
    ensures readers { All (λ r. (r.hub ≡ J.journal) × (r.known ≡ [])) readers.new.items }
    ensures shards { shards.new.items ≡ shards.old.items }
    ensures commits { All (λ s. s ≡ new_seat J.commits 1) commits.new }
    ensures ids { All (λ s. s ≡ new_seat J.ids first_drawn_id) ids.new }
    ensures pass { IfOk result (λ pass. pass ≡ nothing_seen (length J.shards)) }
{
    let shards = all_slots(alloc, shards)?;
    let journal = a_reader::<J>(readers)?;
    let commits = a_seat(commits)?;
    let ids = a_seat(ids)?;
    Ok(Pass {
        journal,
        shards,
        place: 0,
        commits,
        ids,
        next: FIRST_DRAWN_ID,
        of: PhantomData,
    })
}

/// A reader of the journal that has seen nothing. There is one for each pass and each shard.
pub fn a_reader<J: Names>(
    readers: &mut Vec<Reader<(), JournalState>>,
) -> Result<Reader<(), JournalState>, NoMemory>
    requires { All (λ r. (r.hub ≡ J.journal) × (r.known ≡ [])) readers.old.items }
    ensures left { All (λ r. (r.hub ≡ J.journal) × (r.known ≡ [])) readers.new.items }
    ensures reader { IfOk result (λ r. (r.hub ≡ J.journal) × (r.known ≡ [])) }
{
    readers.pop().ok_or(AllocError)
}

/// A seat. There is one for each pass and the keeper.
pub fn a_seat(seats: &mut Seats) -> Result<Seat, NoMemory>
    ensures left { (x : SeatView) → All (λ s. s ≡ x) seats.old → All (λ s. s ≡ x) seats.new }
    ensures seat { (x : SeatView) → All (λ s. s ≡ x) seats.old → IfOk result (λ s. s ≡ x) }
{
    seats.pop().ok_or(AllocError)
}

/// A slot of each shard.
fn all_slots<H: Wait + Drop>(
    alloc: Global,
    shards: &mut Vec<OpenedShard<H>>,
) -> Result<Vec<Slot<Entry, ShardState>>, NoMemory>
    ensures shards { shards.new.items ≡ shards.old.items }
    ensures hubs { IfOk result (λ slots. map hub_in slots.items ≡ shards.old.items) }
    ensures known { IfOk result (λ slots. map known_in slots.items ≡ replicate (length shards.old.items) []) }
{
    let mut slots = Vec::with_capacity(alloc, shards.len())?;
    for shard in shards.iter_mut() {
        let Some(slot) = shard.take_slot() else {
            return Err(AllocError);
        };
        slots.push(slot)?;
    }
    Ok(slots)
}
