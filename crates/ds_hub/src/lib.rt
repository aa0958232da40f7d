//! Two-copy snapshots. A hub has one writer, which publishes operations, and a fixed number of readers, which enter the state
//! that the published operations make. A reader waits for nobody, and never goes back: the list of operations behind its view
//! begins with all lists that it saw before, and with all that it was told of by notes of the writer.
//!
//! It stands on `left_right`, which keeps the two copies of the state, and on `logbook`, in which the lists that a hub publishes
//! are ghost data. Each copy carries a `Prefix`, a token that says which list its state is the fold of, and so does each reader
//! and each note. Of two prefixes of one hub the shorter begins the longer, and their lengths tell which it is.
//!
//! Begin with `Absorb`, what a state must do, and with `make`. Then `Writer` and `Reader` have the calls. What contracts see of
//! them stands in `specs/Holding.antt`.
//!
//! A caller has a writer and a reader so; a shard's state is `ds_shard::ShardState`:
//!
//!     let Hub { mut writer, mut readers } = make(rt, alloc, first, second, 1)?;
//!     writer.add(operation)?;                       // handed back where memory is wanted
//!     writer.publish(rt)?;                          // waits for readers of the older copy, never for memory
//!     let note = writer.tell();
//!     let mut slot = Slot::new(readers.pop()?);
//!     slot.learn(note);                             // the next view is no older than the note
//!     if slot.enter() { look(slot.state()); }
//!     slot.leave();                                 // before this thread publishes in the hub
#![tactic(auto)]

mod absorb;
mod copies;
mod held;
mod history;
mod hub;
mod note;
mod prefix;
mod reader;
mod readers;
mod rule;
mod slot;
mod slots;
mod tells;
mod version;
mod writer;

pub use absorb::Absorb;
pub use held::HeldWriter;
pub use hub::{Hub, make};
pub use note::Note;
pub use reader::{Reader, View};
pub use readers::Readers;
pub use slot::Slot;
pub use slots::{enter_all, leave_all};
pub use std::alloc::AllocError as NoMemory;
pub use tells::{InSnapshot, Itself, Tells};
pub use writer::Writer;
