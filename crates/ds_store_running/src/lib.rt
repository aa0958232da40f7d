//! The running store, which any number of threads share: what its callers call.
//!
//! Commits are appended under one lock and published at once (`committing`), their entries applied later, shard by shard (`applying`),
//! and readers wait for nobody. Queries (`searching` for those of all shards, `strong` for those of one group) are answered by `ds_engine`,
//! which knows no lock: a pass enters its shards, which waits for nobody, and leaves them (`ds_store_reads`). This crate takes the locks,
//! and puts the parts together; `ds_store` makes a store of what was opened, and hands all on.
//!
//! Begin with `store`; `closing` is what is known at the end, `standing` where strong reads stand, and `tailing` what is handed to a second
//! store. `specs/Strong.antt` has what a query with an ancestor answers, `specs/Wide.antt` which queries go over all shards at once,
//! `specs/Tailing.antt` commits in parts, and `specs/Lower.antt` how a pass of one store goes on from one of another.
#![tactic(auto)]

mod applying;
mod closing;
mod committing;
mod drawing;
mod meeting;
mod reading;
mod refused;
mod searching;
mod standing;
mod store;
mod strong;
mod tailing;

pub use closing::Closed;
pub use ds_engine::Answer;
pub use refused::StrongRefused;
pub use store::{Store, Unshared};
pub use tailing::Tail;
