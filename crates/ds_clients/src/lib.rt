//! All clients at once: rounds of their lines, and the writing of their replies.
//!
//! `Sessions` are those of all clients; `run_round` lets them meet and answers the lines of a round, the clients at once, and `write_round`
//! writes their replies; what an output doesn't take is handed out as `Unsent`. How one line is answered stands in `ds_session`.
//!
//! Begin with `rounds`. One client stands in `ds_client`; `clients` does with each client what a round asks, and `answering` has its lines
//! answered, by `workers` where several clients have some; `rounds` and `output` do it with all; `kept` has what whoever keeps the journal
//! asks of them, `moving` how they go on over another store.
//!
//! `specs/` has how sessions begin, what stays of them where no line is answered, and how their texts are written (`Clients`), what rounds
//! leave of them (`Runs`), what their passes show (`Showing`), and what a move to another store leaves (`Moving`). `proofs/` leads from
//! an answered line to a legal run: `ClientLaws` what was done with each client, `MeetingLaws`, `RunLaws` and `RoundLaws` rounds,
//! `TextLaws` texts, `ClosingLaws` the legal run, once the store has ended.
#![tactic(auto)]

mod answering;
mod clients;
mod kept;
mod moving;
mod output;
mod rounds;
mod workers;

pub use answering::Answering;
pub use ds_client::Client;
pub use ds_output::Unsent;
pub use ds_rounds::{Lines, Round, RoundRefused, Rounds};
pub use ds_store::Shown;
pub use output::write_round;
pub use rounds::{Sessions, run_round};
pub use workers::{NewWorkers, RunNames, Workers, with_workers};
