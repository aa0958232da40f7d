//! The machine of single steps, below any thread: one store, and for a client what its open request waits for, and what its reply is.
//!
//! A request is opened (`opening`): it is taken apart and tested once, and a search is made ready once. Then its client takes steps, each
//! one hold of a lock or one look at a snapshot of a store that many clients may use at once: `ds_effects` has the steps and what an open
//! request has gathered by them, `gathering` what each does. `due` (with `due_reads` and `due_writes`) tells the step that is missing, by
//! the table of steps, or the reply as soon as none is: a plan of what is said and what that changes, which `writes` (with `placing`),
//! `transactions`, `reads` and `queries` make. `taking` takes it, wholly or not at all.
//!
//! Of the definitions begin with `specs/Missing`, the table of steps, and `Gathering`, what each step gathers. `Answered` says what an
//! answer is, told of the store and of the client's session before and after; `States` what a store and a session keep, `Effects` what a
//! plan changes and when it may. `Due` says what an open request has gathered, `Opening` what is kept of it, `Told` which of these numbers
//! a reply tells, and `Turns` what is known of an open request at a step, and what it comes to. In `proofs/`, `Lifted` leads from a plan to
//! the reply and `Grown` shows that no session comes to have seen what isn't there; `PutPlans`, `TransactionPlans` and others whose names
//! end in `Plans` have what is said to each request, and `Lowering` that every step that is missing brings a request nearer to its reply.
#![tactic(auto)]

mod due;
mod due_reads;
mod due_writes;
mod gathering;
pub mod opening;
mod placing;
mod queries;
mod reads;
pub mod state;
mod steps;
mod taking;
mod transactions;
mod writes;

pub use opening::Work;
pub use state::State;
pub use taking::is_no_memory;
