//! From commits to the bytes of a batch.
ghost use Rattle.std.specs.Prelude.{◌≡◌, ◌+◌, ◌∷◌, ◌++◌, ◌<◌, ◌≤◌, ◌^◌, [], length, All, IfOk};
ghost use Rattle.ds_base.specs.Limits.{most_writes};
ghost use Rattle.ds_journal_text.specs.Lawful.{IsLawfulCommit};
ghost use Rattle.ds_kept_file.specs.Files.{body_of, sized};

use crate::counter::append_next;
use ds_base::{Buffer, NoMemory};
use ds_journal_text::write_commit;
use ds_log::Commit;
use std::alloc::Global;

/// What is written behind the closed gate of a file: the length and the body of the batch of these commits, of which the first has the
/// number `first`, and of this counter, and then a closed gate. A refusal means out of memory. It is linear in the commits.
pub fn write_batch(
    alloc: Global,
    commits: &[Commit],
    first: u64,
    next: u64,
) -> Result<Buffer, NoMemory>
    requires few { All (λ c. length c.writes ≤ most_writes) commits.now }
    requires fits { first + length commits.now < 2 ^ 64 }
    ensures bytes { IfOk result (λ written. written.bytes
        ≡ sized (body_of first (record { commits = commits.now; next = next })) ++ 0 ∷ []) }
    ensures lawful { IfOk result (λ _. All IsLawfulCommit commits.now) }
{
    let body = body(alloc, commits, first, next)?;
    let mut written = Buffer::new(alloc);
    written.append(&(body.bytes().len() as u64).to_be_bytes())?;
    written.append(body.bytes())?;
    written.append(&[0])?;
    Ok(written)
}

/// The body of the batch.
fn body(alloc: Global, commits: &[Commit], first: u64, next: u64) -> Result<Buffer, NoMemory>
    requires few { All (λ c. length c.writes ≤ most_writes) commits.now }
    requires fits { first + length commits.now < 2 ^ 64 }
    ensures bytes { IfOk result (λ body. body.bytes ≡ body_of first (record { commits = commits.now; next = next })) }
    ensures lawful { IfOk result (λ _. All IsLawfulCommit commits.now) }
{
    let mut body = Buffer::new(alloc);
    append_next(next, &mut body)?;
    body.append(b"\n")?;
    for (i, commit) in commits.iter().enumerate() {
        write_commit(alloc, commit, first + i as u64, &mut body)?;
    }
    Ok(body)
}
