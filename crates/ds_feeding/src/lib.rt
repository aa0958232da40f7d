//! A second store that is made of the commits of a running one, under other definitions of composite indexes: an application changes its
//! index file while clients run, and the new indexes are built beside them.
//!
//! `Reindex` holds a store that nobody shares yet (`ds_store::Loading`). `feed` hands it the next commits of the running store, with their
//! numbers, and draws the ids that were drawn there; a commit with a put that has too many index rows under the new definitions ends that.
//! `finish` feeds the rest and gives the store with its passes, each of which has seen no less than a pass of the old store: clients go on
//! with them.
//!
//! Begin with `reindex`; `finishing` ends it, and `catching_up` is what its passes do then. In `specs/`, `Feeding` says what is fed;
//! `ds_row_limit` counts rows, and says when there are too many.
#![tactic(auto)]

mod catching_up;
mod finishing;
mod refused;
mod reindex;

pub use finishing::Cut;
pub use refused::ReindexRefused;
pub use reindex::{Fed, Reindex};
