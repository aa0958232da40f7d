//! Worker threads that live as long as a run: they sleep between its rounds, take clients by value, and give them back handled.
//!
//! Of what comes back from another thread a contract knows only what its type says. So a client is handed over with a mark, a beginning of
//! a history that ends in that client: the worker gives it back with the same mark, and an answer's type says that its client is what
//! handling leaves of the one in which its mark ends. When the program runs a mark is a number, and a history nothing.
//!
//! Begin with `handling`, what is said of clients and who handles them, and with `pool`: `with_workers` starts workers as they are needed
//! and ends them all, and `WorkerPool::run_round` has the clients of a round handled at once. `slot` is where a client is handed over to
//! one worker; `handed` has what lies there, and `marks` the history, which stands on `logbook`.
//!
//! No clause says that a worker wakes, or that two clients are handled at once: the tests of `ds_workers_tests` do.
#![tactic(auto)]

mod handed;
mod handling;
mod marks;
mod pool;
mod rule;
mod slot;

pub use handling::{Handler, Handling};
pub use marks::History;
pub use pool::{WorkerPool, with_workers};
