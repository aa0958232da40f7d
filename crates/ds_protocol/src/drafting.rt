//! Commits as they are asked for, before any journal takes them.
ghost use Rattle.std.specs.Prelude.{◌≡◌, ◌∷◌, [], IfOk};
ghost use Rattle.ds_model.specs.Answers.{commit_of};
ghost use Rattle.ds_protocol.specs.Transactions.{transaction_of};

use ds_base::NoMemory;
use ds_journal::Draft;
use ds_log::{Touches, Write, Writes};
use ds_txn::Txn;
use std::alloc::Global;

/// The commit of one write outside a transaction, which touched nothing. A refusal means out of memory.
pub fn draft_of_write(alloc: Global, client: u32, write: Write) -> Result<Draft, NoMemory>
    ensures { IfOk result (λ d. d ≡ record { client = client; touched = []; writes = write ∷ [] }) }
{
    let writes = Writes::of_one(alloc, write)?;
    Draft::make(alloc, client, Touches::new(alloc), writes)
}

/// The commit that a transaction asks for: its touched groups and its writes. A refusal means out of memory.
pub fn draft_of_transaction(alloc: Global, client: u32, txn: &Txn) -> Result<Draft, NoMemory>
    ensures { IfOk result (λ d. d ≡ commit_of client (transaction_of txn.now)) }
{
    let parts = txn.parts(alloc)?;
    Draft::make(alloc, client, parts.touched, parts.writes)
}
