//! What each client begins with.
ghost use Rattle.std.specs.Prelude.{◌≡◌, ◌+◌, None, replicate, IfOk};
ghost use Rattle.ds_base.specs.Limits.{greatest_client};
ghost use Rattle.ds_model.specs.Sessions.{first_sessions};

use crate::opened::Open;
use ds_base::NoMemory;
use ds_base::limits::MAX_CLIENT;
use ds_protocol::Session;
use std::alloc::Global;

/// One session for each client, who has seen nothing. A refusal means out of memory.
pub(crate) fn first_sessions(alloc: Global, shards: u32) -> Result<Vec<Session>, NoMemory>
    ensures { IfOk result (λ sessions. sessions.items ≡ first_sessions shards) }
{
    let mut sessions = Vec::new(alloc);
    for _client in 0..MAX_CLIENT + 1 {
        let session = Session::first(alloc, shards)?;
        sessions.push(session)?;
    }
    Ok(sessions)
}

/// No client has a request open. A refusal means out of memory.
pub(crate) fn none_open(alloc: Global) -> Result<Vec<Option<Open>>, NoMemory>
    ensures { IfOk result (λ opens. opens.items ≡ replicate (greatest_client + 1) None) }
{
    let mut opens = Vec::new(alloc);
    for _client in 0..MAX_CLIENT + 1 {
        opens.push(None)?;
    }
    Ok(opens)
}
