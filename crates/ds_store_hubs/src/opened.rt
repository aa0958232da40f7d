//! Hubs and words that were made before their names are picked.
ghost use Rattle.std.specs.Prelude.{◌≡◌, ◌+◌, ◌≤◌, ◌++◌, ◌∷◌, [], None, Some, length, map, replicate, All, IfOk, MatchOption};
ghost use Rattle.ds_base.specs.Limits.{first_drawn_id, most_shards};
ghost use Rattle.ds_hub.specs.Holding.{hub_in};
ghost use Rattle.ds_store_hubs.specs.Opening.{OpenedParts, AreBegun, ledger_parts};
ghost use Rattle.ds_store_hubs.specs.Origins.{origins_from};

use crate::journal_state::JournalState;
use ds_base::limits::FIRST_DRAWN_ID;
use ds_base::{NoMemory, TryCopy};
use ds_draw::Drawn;
use ds_hub::{HeldWriter, Hub, Reader, Slot};
use ds_indexdef::Defs;
use ds_log::Entry;
use ds_shard::ShardState;
use std::alloc::Global;
use std::marker::Model;
use std::sync::Wait;

/// A shard's hub that was opened: its writer, and readers. Contracts see the hub, and the shard with which it begins.
#[derive(Drop)]
pub struct OpenedShard<H: Wait + Drop> {
    writer: HeldWriter<Entry, ShardState, H>,
    readers: Vec<Reader<Entry, ShardState>>,
}

impl<H: Wait + Drop> Model for OpenedShard<H> {
    ghost use Rattle.std.specs.Prelude.{◌≡◌, [], Option, All};
    ghost use Rattle.ds_hub.specs.Line.{HubId};
    ghost use Rattle.ds_shard.specs.States.{StateParts};

    ghost Value = { HubId × Option StateParts };

    ghost view = { λ s. (s.writer.writer.hub, s.writer.writer.start) };

    ghost invariant = { λ s. ((s.writer.writer.published ≡ []) × (s.writer.writer.pending ≡ []))
        × All (λ r. (r.hub ≡ s.writer.writer.hub) × (r.start ≡ s.writer.writer.start) × (r.known ≡ [])) s.readers.items };
}

impl<H: Wait + Drop> OpenedShard<H> {
    /// A slot for a pass, with a reader that has seen nothing; `None` where no reader is left.
    pub fn take_slot(&mut self) -> Option<Slot<Entry, ShardState>>
        ensures same { self.new ≡ self.old }
        ensures slot { MatchOption result (Unit {0}) (λ slot. (hub_in slot ≡ self.old) × (slot.known ≡ [])) }
    {
        self.readers.pop().map(Slot::new)
    }

    /// The writer, which has published nothing.
    pub fn into_writer(self) -> HeldWriter<Entry, ShardState, H>
        ensures hub { (result.writer.hub, result.writer.start) ≡ self }
        ensures empty { (result.writer.published ≡ []) × (result.writer.pending ≡ []) }
    {
        let OpenedShard {
            writer,
            readers: _readers,
        } = self;
        writer
    }
}

/// All that a store is made of, before its names are picked. Contracts see what has a name, and for how many passes it was opened.
#[derive(Drop)]
pub struct Opened<H: Wait + Drop> {
    /// The writer of the journal's hub.
    pub journal: HeldWriter<(), JournalState, H>,
    /// Its readers: one for each pass and each shard.
    pub readers: Vec<Reader<(), JournalState>>,
    /// The shards' hubs, by number.
    pub shards: Vec<OpenedShard<H>>,
    /// The word from which the numbers of commits are drawn, with its seats.
    pub commits: Drawn,
    /// The word from which ids are drawn, with its seats.
    pub ids: Drawn,
    /// The definitions of composite indexes.
    pub definitions: Defs,
    /// How many stamps each shard keeps.
    pub window: u64,
    /// Into how many parts each ledger is cut on which the shards are read.
    pub ledger: u64,
    /// For how many passes it was opened.
    pub passes: u32,
}

impl<H: Wait + Drop> Model for Opened<H> {
    ghost use Rattle.std.specs.Prelude.{◌≡◌, ◌+◌, ◌≤◌, [], All, length, replicate};
    ghost use Rattle.ds_base.specs.Limits.{first_drawn_id, most_shards};
    ghost use Rattle.ds_draw.specs.Draws.{new_seat};
    ghost use Rattle.ds_store_hubs.specs.Opening.{OpenedParts};

    ghost Value = { OpenedParts };

    ghost view = { λ o. record {
      journal = o.journal.writer.hub;
      shards = o.shards.items;
      commits = o.commits.word.name;
      ids = o.ids.word.name;
      definitions = o.definitions;
      window = o.window;
      ledger = o.ledger;
      passes = o.passes;
    } };

    ghost invariant = { λ o. ((o.journal.writer.published ≡ []) × (o.journal.writer.pending ≡ []))
        × All (λ r. (r.hub ≡ o.journal.writer.hub) × (r.known ≡ [])) o.readers.items
        × ((1 ≤ length o.shards.items) × (length o.shards.items ≤ most_shards))
        × ((1 ≤ o.window) × (o.window ≤ 65536))
        × ((o.commits.word.first ≡ 1) × (o.commits.word.seats ≡ o.passes + 1)
        × (o.commits.seats ≡ replicate (o.passes + 1) (new_seat o.commits.word.name 1)))
        × ((o.ids.word.first ≡ first_drawn_id) × (o.ids.word.seats ≡ o.passes + 1)
        × (o.ids.seats ≡ replicate (o.passes + 1) (new_seat o.ids.word.name first_drawn_id)))
        × (1 ≤ o.ledger) };
}

/// Into how many parts each ledger is cut on which the shards are read. Any number serves: who shares a store knows it by its type alone.
const LEDGER_PARTS: u64 = 1;

/// Opens all hubs and words of a store: shards from 1 to 16, passes from 1 to 26, and a window of 1 to 65,536 stamps. Nothing is
/// published, and nothing drawn. `handle` is what ends the hubs where the store is dropped without a close. A refusal means out of memory.
pub fn open<R: Wait, H: Wait + Drop + Copy>(
    rt: &R,
    handle: H,
    alloc: Global,
    defs: &Defs,
    shards: u32,
    passes: u32,
    window: u64,
) -> Result<Opened<H>, NoMemory>
    requires shards { (1 ≤ shards) × (shards ≤ most_shards) }
    requires passes { (1 ≤ passes) × (passes ≤ 26) }
    requires window { (1 ≤ window) × (window ≤ 65536) }
    ensures begun { IfOk result (λ o. AreBegun o) }
    ensures given { IfOk result (λ o. (length o.shards ≡ shards) × (o.definitions ≡ defs.now) × (o.window ≡ window) × (o.passes ≡ passes)) }
{
    let Hub { writer, readers } = ds_hub::make(
        rt,
        alloc,
        JournalState,
        JournalState,
        passes + shards,
    )?;
    let journal = HeldWriter::new(handle, writer);
    let readers = readers.into_vec();
    let shards = open_shards(rt, handle, alloc, defs, shards, passes, window)?;
    let commits = ds_draw::make(alloc, 1, passes + 1)?;
    let ids = ds_draw::make(alloc, FIRST_DRAWN_ID, passes + 1)?;
    let definitions = defs.copy(alloc)?;
    Ok(Opened {
        journal,
        readers,
        shards,
        commits,
        ids,
        definitions,
        window,
        ledger: LEDGER_PARTS,
        passes,
    })
}

/// Opens the shards' hubs, each with a reader for each pass.
fn open_shards<R: Wait, H: Wait + Drop + Copy>(
    rt: &R,
    handle: H,
    alloc: Global,
    defs: &Defs,
    shards: u32,
    passes: u32,
    window: u64,
) -> Result<Vec<OpenedShard<H>>, NoMemory>
    requires passes { 1 ≤ passes }
    requires window { (1 ≤ window) × (window ≤ 65536) }
    ensures many { IfOk result (λ opened. length opened.items ≡ shards) }
    ensures begun { IfOk result (λ opened. opened.items
        ≡ origins_from ledger_parts shards defs.now window 0 (map (λ shard. shard.0) opened.items)) }
{
    let mut opened = Vec::with_capacity(alloc, shards as usize)?;
    for number in 0..shards {
        let both = ShardState::make_both(alloc, defs, window, LEDGER_PARTS, shards, number)?;
        opened.push(open_shard(rt, handle, alloc, both, passes)?)?;
    }
    Ok(opened)
}

fn open_shard<R: Wait, H: Wait + Drop>(
    rt: &R,
    handle: H,
    alloc: Global,
    both: (ShardState, ShardState),
    passes: u32,
) -> Result<OpenedShard<H>, NoMemory>
    requires alike { both.0 ≡ both.1 }
    requires passes { 1 ≤ passes }
    ensures { IfOk result (λ shard. shard.1 ≡ Some both.0) }
{
    let (first, second) = both;
    let Hub { writer, readers } = ds_hub::make(rt, alloc, first, second, passes)?;
    Ok(OpenedShard {
        writer: HeldWriter::new(handle, writer),
        readers: readers.into_vec(),
    })
}
