//! What a store is made of at first: passes that have seen nothing, and what lies under its locks.
ghost use Rattle.std.specs.Prelude.{◌≡◌, ◌-◌, ◌<◌, ◌≤◌, ◌++◌, ◌∷◌, [], All, IfOk, length, replicate};
ghost use Rattle.std.specs.Vec.{vec_capacity};
ghost use Rattle.ds_base.specs.Limits.{first_drawn_id, most_shards};
ghost use Rattle.ds_draw.specs.Draws.{new_seat};
ghost use Rattle.ds_store_hubs.specs.Origins.{origins};
ghost use Rattle.ds_store_passes.specs.Passes.{nothing_seen};

use ds_base::NoMemory;
use ds_draw::{Seat, Seats};
use ds_hub::{HeldWriter, Reader};
use ds_journal::Book;
use ds_store_hubs::{JournalState, Names, OpenedShard};
use ds_store_journal::JournalDesk;
use ds_store_passes::{Pass, Passes, a_seat, all_passes};
use ds_store_shards::{ShardDesk, shard_desks};
use std::alloc::{AllocError, Global};
use std::marker::PhantomData;
use std::sync::{Mutex, Wait};

/// What the hubs' readers and the words' seats are given to.
#[derive(Drop)]
pub(crate) struct Parts<J: Names, H: Wait + Drop> {
    /// The pass that loads.
    pub(crate) pass: Pass<J>,
    /// The other passes, with room for this one.
    pub(crate) others: Vec<Pass<J>>,
    pub(crate) shards: Vec<Mutex<ShardDesk<J, H>>>,
    /// The keeper's seat on the word of commits.
    pub(crate) commits: Seat,
    /// The keeper's seat on the word of ids.
    pub(crate) ids: Seat,
}

/// Passes that have seen nothing, the keeper's seats, and the shards' desks. A refusal means out of memory.
pub(crate) fn make_parts<J: Names, H: Wait + Drop>(
    alloc: Global,
    mut readers: Vec<Reader<(), JournalState>>,
    mut shards: Vec<OpenedShard<H>>,
    commits: Seats,
    ids: Seats,
    passes: u32,
) -> Result<Parts<J, H>, NoMemory>
    requires readers { All (λ r. (r.hub ≡ J.journal) × (r.known ≡ [])) readers.items }
    requires few { (1 ≤ length J.shards) × (length J.shards ≤ most_shards) }
    requires shards { shards.items ≡ origins J.ledger J.definitions J.window J.shards }
    requires commits { All (λ s. s ≡ new_seat J.commits 1) commits }
    requires ids { All (λ s. s ≡ new_seat J.ids first_drawn_id) ids }
    ensures pass { IfOk result (λ b. b.pass ≡ nothing_seen (length J.shards)) }
    ensures others { IfOk result (λ b. b.others.items ≡ replicate (passes - 1) (nothing_seen (length J.shards))) }
    ensures some { IfOk result (λ b. 1 ≤ passes) }
    ensures room { IfOk result (λ b. length b.others.items < vec_capacity b.others) }
    ensures shards { IfOk result (λ b. length b.shards.items ≡ length J.shards) }
    ensures commits { IfOk result (λ b. b.commits ≡ new_seat J.commits 1) }
    ensures ids { IfOk result (λ b. b.ids ≡ new_seat J.ids first_drawn_id) }
{
    let Seated {
        passes: list,
        commits,
        ids,
    } = seat_all(alloc, &mut readers, &mut shards, commits, ids, passes)?;
    let (pass, others) = last_apart(list)?;
    let shards = shard_desks(alloc, shards, &mut readers)?;
    Ok(Parts {
        pass,
        others,
        shards,
        commits,
        ids,
    })
}

/// The passes of a store, and the keeper's seats.
#[derive(Drop)]
struct Seated<J: Names> {
    passes: Passes<J>,
    commits: Seat,
    ids: Seat,
}

/// So many passes, each with a reader of each hub and a seat on each word, and a seat on each for the keeper. A refusal means out of
/// memory.
fn seat_all<J: Names, H: Wait + Drop>(
    alloc: Global,
    readers: &mut Vec<Reader<(), JournalState>>,
    shards: &mut Vec<OpenedShard<H>>,
    mut commits: Seats,
    mut ids: Seats,
    passes: u32,
) -> Result<Seated<J>, NoMemory>
    requires readers { All (λ r. (r.hub ≡ J.journal) × (r.known ≡ [])) readers.old.items }
    requires few { (1 ≤ length J.shards) × (length J.shards ≤ most_shards) }
    requires shards { shards.old.items ≡ origins J.ledger J.definitions J.window J.shards }
    requires commits { All (λ s. s ≡ new_seat J.commits 1) commits }
    requires ids { All (λ s. s ≡ new_seat J.ids first_drawn_id) ids }
    ensures readers { All (λ r. (r.hub ≡ J.journal) × (r.known ≡ [])) readers.new.items }
    ensures shards { shards.new.items ≡ shards.old.items }
    ensures passes { IfOk result (λ all. all.passes ≡ replicate passes (nothing_seen (length J.shards))) }
    ensures commits { IfOk result (λ all. all.commits ≡ new_seat J.commits 1) }
    ensures ids { IfOk result (λ all. all.ids ≡ new_seat J.ids first_drawn_id) }
{
    let list = all_passes(alloc, readers, shards, &mut commits, &mut ids, passes)?;
    let commit_keeper = a_seat(&mut commits)?;
    let id_keeper = a_seat(&mut ids)?;
    Ok(Seated {
        passes: list,
        commits: commit_keeper,
        ids: id_keeper,
    })
}

/// What lies under the journal's lock at first: no commits, the writer of a hub that has told none, and seats from which nothing was drawn.
/// It takes no memory.
pub(crate) fn first_desk<J: Names, H: Wait + Drop>(
    alloc: Global,
    writer: HeldWriter<(), JournalState, H>,
    commits: Seat,
    ids: Seat,
) -> JournalDesk<J, H>
    requires hub { writer.writer.hub ≡ J.journal }
    requires told { (writer.writer.published ≡ []) × (writer.writer.pending ≡ []) }
    requires commits { commits ≡ new_seat J.commits 1 }
    requires ids { ids ≡ new_seat J.ids first_drawn_id }
    ensures journal { result.book.journal ≡ [] }
    ensures next { result.book.next ≡ first_drawn_id }
{
    JournalDesk {
        book: Book::make(alloc),
        writer,
        commits,
        ids,
        of: PhantomData,
    }
}

/// The last of these passes, and the others with room for it. A refusal means out of memory.
fn last_apart<J: Names>(passes: Passes<J>) -> Result<(Pass<J>, Vec<Pass<J>>), NoMemory>
    ensures apart { IfOk result (λ parts. passes ≡ parts.1.items ++ parts.0 ∷ []) }
    ensures room { IfOk result (λ parts. length parts.1.items < vec_capacity parts.1) }
{
    let mut others = passes.into_vec();
    if others.is_empty() {
        return Err(AllocError);
    }
    let pass = others.take_last();
    others.reserve(1)?;
    Ok((pass, others))
}
