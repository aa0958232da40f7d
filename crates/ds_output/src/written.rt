//! What the reply to a write says.
ghost use Rattle.std.specs.Prelude.{◌≡◌, IfOk};
ghost use Rattle.ds_output.specs.Writes.{body_with, written_body};

use ds_base::{Key, NoMemory, TryCopy};
use ds_log::Write;
use ds_reply::{Body, WriteAt};
use std::alloc::Global;

/// What the reply to a write says, at a place. A refusal means out of memory.
pub fn body_of(alloc: Global, write: &Write, at: WriteAt) -> Result<Body, NoMemory>
    ensures { IfOk result (λ b. b ≡ written_body write.now at) }
{
    let key = write.key().copy(alloc)?;
    Ok(match write {
        Write::Put(_) => Body::Put { key, at },
        Write::Delete(_) => Body::Delete { key, at },
    })
}

/// What the reply to a write of this key says, at a place. It takes no memory.
pub fn body_with(key: Key, deletes: bool, at: WriteAt) -> Body
    ensures { result ≡ body_with deletes key at }
{
    if deletes {
        Body::Delete { key, at }
    } else {
        Body::Put { key, at }
    }
}
