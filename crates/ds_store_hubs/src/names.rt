//! What belongs to one store.
use std::marker::Brand;

/// The names of a store's hubs and words, and what its shards begin with. Types that have to agree on them are generic in this; who
/// opened a store picks them, once all hubs and words are there (`specs/Opening`, `AreNamesOf`).
pub trait Names {
    ghost use Rattle.std.specs.Prelude.{ℕ, List};
    ghost use Rattle.ds_indexdef.specs.declared.IndexDef.{IndexDef};
    ghost use Rattle.ds_hub.specs.Line.{HubId};
    ghost use Rattle.ds_draw.specs.Draws.{WordName};

    // The journal's hub.
    ghost journal: { HubId };
    // The hubs of the shards, by number.
    ghost shards: { List HubId };
    // The word from which the numbers of commits are drawn.
    ghost commits: { WordName };
    // The word from which ids are drawn.
    ghost ids: { WordName };
    // The definitions of composite indexes.
    ghost definitions: { List IndexDef };
    // How many stamps each shard keeps.
    ghost window: { ℕ };
    // Into how many parts each ledger is cut on which the shards are read. It names these ledgers: the name of a blank ledger isn't known
    // before it is there, and a call's own is opened after the store's names are picked. No session is told the number (`Ledgers`), so a
    // ledger that it opens for itself can't be shown to be one of them.
    ghost ledger: { ℕ };
}

impl Names for Brand {
    ghost use Rattle.std.specs.Prelude.{[]};
    ghost use Rattle.ds_hub.specs.Line.{no_hub};
    ghost use Rattle.ds_draw.specs.Draws.{no_word};

    ghost journal = { no_hub };

    ghost shards = { [] };

    ghost commits = { no_word };

    ghost ids = { no_word };

    ghost definitions = { [] };

    ghost window = { 1 };

    ghost ledger = { 1 };
}
