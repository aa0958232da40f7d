//! The running store: commits appended under one lock and published at once, their entries applied later, shard by shard, and
//! readers that wait for nobody. Every answer is still that of one serial history.
//!
//! The journal's commits stand in a `Book` (`ds_journal`) under the journal's lock, beside the writer of a hub (`ds_hub`) that tells
//! them (`ds_store_journal`). Each shard is the state of a hub of its own, whose writer stands under the shard's lock with a reader of the
//! journal and the entries that wait (`ds_store_shards`). What one caller has seen is a `Pass` (`ds_store_passes`): a reader of each hub,
//! and seats (`ds_draw`) with which the numbers of commits and the ids are drawn. Contracts see a pass as its lists: the journal's
//! commits, and of each shard the entries.
//!
//! Of a value under a lock only its type is known, so the names of all hubs and words are ghost members of the trait `Names`, in
//! which the types are generic (`ds_store_hubs`). `open` makes all hubs and words; a function that is generic in `Names` makes the
//! store of them by `make`, runs it, and closes it; its caller picks the names, at `Brand`.
//!
//! What callers call of a store stands in `ds_store_running`; this crate makes a store of what was opened (`making`), or loads one first
//! (`loading`), and hands all on.
//!
//! Begin with `ds_store_passes/specs/Passes.antt`, what contracts see of a pass and of the store, and with `ds_store_running/src/store`.
//!
//! A caller that runs a store, generic in its names `J`:
//!
//!     let Made { store, mut passes, .. } = make::<J, _>(alloc, opened)?;     // `open` made `opened`; `ledgers` opens those of `steps`
//!     let mut pass = passes.pop()?;                                          // one for each caller that runs at once
//!     let number = store.commit(rt, &mut pass, draft)?;                      // appended, and published
//!     let got = store.get(rt, &mut pass, &key, None, &mut steps)?;           // by its shard, with what waits there
//!     let applied = store.apply_one(rt, &mut pass, shard)?;                  // one entry into the shard's state
//!     let answer = store.query(&mut pass, &normal, &window, &mut steps)?;    // over what is applied; waits for nobody
//!     passes.push(pass)?;
//!     let Closed { journal, next } = store.close(rt, passes);                // needs all passes
#![tactic(auto)]

mod loading;
mod making;
mod parts;

pub use ds_store_hubs::{JournalState, Ledgers, Names, Opened, open};
pub use ds_store_passes::{
    Applied, Expired, GetRefused, Got, NewCause, NewCommit, NewRefused, Pass, Passes, Settled,
    Shown, Since,
};
pub use ds_store_running::{Answer, Closed, Store, StrongRefused, Tail};
pub use loading::Loading;
pub use making::{Made, make};
