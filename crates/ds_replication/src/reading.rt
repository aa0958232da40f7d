//! The input, whole.
ghost use Rattle.std.specs.Prelude.{◌≡◌, ◌≤◌, ◌<◌, length, take, IfErr, IfOk, OnErr, OnOk, vec_len};
ghost use Rattle.std.specs.Io.KnownBytes.{Consumes, IsAtEnd};
ghost use Rattle.ds_io.specs.Faults.{Rose, next_count};
ghost use Rattle.ds_replication.specs.Replicating.{IsRead, IsUnread, read_faults};

use crate::status::ReplicaStatus;
use ds_base::NoMemory;
use ds_io::{Failed, Source};
use std::alloc::Global;

/// So many bytes are taken of an input at most.
const MAX_SCRIPT_BYTES: usize = 67_108_864;

/// How many bytes are asked for at a time.
const PIECE: usize = 65_536;

/// Reads the input to its end, unless it reaches the limit; or tells why it couldn't.
pub(crate) fn read_whole<I: Source>(alloc: Global, input: &mut I) -> Result<Vec<u8>, ReplicaStatus>
    ensures read { IfOk result (λ text. IsRead (I.left input.old) (I.left input.new) text.items) }
    ensures unread { IfErr result (IsUnread (I.left input.old) (I.left input.new) (I.faults input.old) (I.faults input.new)) }
    ensures no_fault { OnOk result (I.faults input.new ≡ I.faults input.old) }
    ensures counted { IfErr result (λ status. I.faults input.new ≡ read_faults status (I.faults input.old)) }
{
    match make_piece(alloc) {
        Ok(mut piece) => read_by(alloc, input, piece.as_mut_slice()),
        Err(_) => Err(ReplicaStatus::NoMemory),
    }
}

fn make_piece(alloc: Global) -> Result<Vec<u8>, NoMemory>
    ensures { IfOk result (λ piece. vec_len piece ≡ 65536) }
{
    vec![in alloc; 0u8; PIECE]
}

/// The same, piece by piece.
fn read_by<I: Source>(
    alloc: Global,
    input: &mut I,
    piece: &mut [u8],
) -> Result<Vec<u8>, ReplicaStatus>
    requires { length piece.old ≡ 65536 }
    ensures read { IfOk result (λ text. IsRead (I.left input.old) (I.left input.new) text.items) }
    ensures unread { IfErr result (IsUnread (I.left input.old) (I.left input.new) (I.faults input.old) (I.faults input.new)) }
    ensures no_fault { OnOk result (I.faults input.new ≡ I.faults input.old) }
    ensures counted { IfErr result (λ status. I.faults input.new ≡ read_faults status (I.faults input.old)) }
{
    let mut text: Vec<u8> = Vec::new(alloc);
    'read: while text.len() < MAX_SCRIPT_BYTES {
        let most = PIECE.min(MAX_SCRIPT_BYTES - text.len());
        match read_at_most(input, piece, most) {
            Ok(0) => return Ok(text),
            Ok(n) => text.extend_from_slice(&piece[..n])?,
            Err(_) => return Err(ReplicaStatus::ReadFault),
        }
    }
    Err(ReplicaStatus::InputLimit)
}

/// Reads the next bytes, at most so many, into the front of `buffer`.
fn read_at_most<I: Source>(input: &mut I, buffer: &mut [u8], most: usize) -> Result<usize, Failed>
    requires { most ≤ length buffer.old }
    ensures same_length { length buffer.new ≡ length buffer.old }
    ensures within { IfOk result (λ n. n ≤ most) }
    ensures told { IfOk result (λ n. Consumes (I.left input.old) (I.left input.new) (take n buffer.new)) }
    ensures at_the_end { IfOk result (λ n. n ≡ 0 → 0 < most → IsAtEnd (I.left input.new)) }
    ensures no_fault { OnOk result (I.faults input.new ≡ I.faults input.old) }
    ensures fault { OnErr result (Rose (I.faults input.old) (I.faults input.new)) }
    ensures counted { OnErr result (I.faults input.new ≡ next_count (I.faults input.old)) }
{
    input.read(&mut buffer[..most])
}
