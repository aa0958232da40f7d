//! Reading the whole contents of a disk.
ghost use Rattle.std.specs.Prelude.{◌≡◌, ◌≤◌, ◌<◌, ◌+◌, [], Err, length, IsTrue, IfOk, OnOk};
ghost use Rattle.ds_io.specs.Faults.{Rose};
ghost use Rattle.ds_disk.specs.Crashes.{Only};
ghost use Rattle.ds_keep.specs.Reading.{IsPrefix, Stays};

use crate::refusals::Unread;
use ds_disk::Disk;
use std::alloc::Global;

/// How many bytes are read at once.
const PIECE: usize = 65536;

/// Syncs, and reads the whole contents, which stay as they are.
pub(crate) fn read_disk<D: Disk>(alloc: Global, disk: &mut D) -> Result<Vec<u8>, Unread>
    ensures bytes { IfOk result (λ file. IsTrue (D.is_honest disk.old) → file.items ≡ D.contents disk.old) }
    ensures contents_stay { OnOk result (IsTrue (D.is_honest disk.old) → D.contents disk.new ≡ D.contents disk.old) }
    ensures durable { OnOk result (IsTrue (D.is_honest disk.old) → Only (D.contents disk.new) (D.images disk.new)) }
    ensures stays { Stays D.is_honest D.images D.moment D.left_since D.faults disk.old disk.new }
    ensures failed_by_a_fault { result ≡ Err Unread.DiskFault → Rose (D.faults disk.old) (D.faults disk.new) }
{
    disk.sync()?;
    read_synced(alloc, disk)
}

/// The same of a disk that was synced.
fn read_synced<D: Disk>(alloc: Global, disk: &mut D) -> Result<Vec<u8>, Unread>
    ensures bytes { IfOk result (λ file. IsTrue (D.is_honest disk.old) → file.items ≡ D.contents disk.old) }
    ensures contents_stay { OnOk result (IsTrue (D.is_honest disk.old) → D.contents disk.new ≡ D.contents disk.old) }
    ensures stays { Stays D.is_honest D.images D.moment D.left_since D.faults disk.old disk.new }
    ensures failed_by_a_fault { result ≡ Err Unread.DiskFault → Rose (D.faults disk.old) (D.faults disk.new) }
{
    let len = disk.len()?;
    let mut piece = vec![in alloc; 0u8; PIECE]?;
    read_all(alloc, disk, len, piece.as_mut_slice())
}

/// Reads the `len` bytes of the contents, which are all, by way of this piece.
fn read_all<D: Disk>(
    alloc: Global,
    disk: &mut D,
    len: u64,
    piece: &mut [u8],
) -> Result<Vec<u8>, Unread>
    requires all { IsTrue (D.is_honest disk.old) → len ≡ length (D.contents disk.old) }
    requires room { 0 < length piece.old }
    ensures bytes { IfOk result (λ file. IsTrue (D.is_honest disk.old) → file.items ≡ D.contents disk.old) }
    ensures contents_stay { OnOk result (IsTrue (D.is_honest disk.old) → D.contents disk.new ≡ D.contents disk.old) }
    ensures stays { Stays D.is_honest D.images D.moment D.left_since D.faults disk.old disk.new }
    ensures failed_by_a_fault { result ≡ Err Unread.DiskFault → Rose (D.faults disk.old) (D.faults disk.new) }
{
    let mut file = Vec::new(alloc);
    match fill(disk, len, piece, &mut file) {
        Ok(()) => Ok(file),
        Err(unread) => Err(unread),
    }
}

/// Reads the `len` bytes of the contents, which are all, piece by piece.
fn fill<D: Disk>(disk: &mut D, len: u64, piece: &mut [u8], file: &mut Vec<u8>) -> Result<(), Unread>
    requires all { IsTrue (D.is_honest disk.old) → len ≡ length (D.contents disk.old) }
    requires room { 0 < length piece.old }
    requires empty { file.old.items ≡ [] }
    ensures bytes { OnOk result (IsTrue (D.is_honest disk.old) → file.new.items ≡ D.contents disk.old) }
    ensures contents_stay { OnOk result (IsTrue (D.is_honest disk.old) → D.contents disk.new ≡ D.contents disk.old) }
    ensures stays { Stays D.is_honest D.images D.moment D.left_since D.faults disk.old disk.new }
    ensures failed_by_a_fault { result ≡ Err Unread.DiskFault → Rose (D.faults disk.old) (D.faults disk.new) }
{
    'pieces: while (file.len() as u64) < len {
        if read_piece(disk, piece, file)? == 0 {
            break;
        }
    }
    Ok(())
}

/// Reads one piece more, and puts it behind what was read so far; gives the number of its bytes.
fn read_piece<D: Disk>(disk: &mut D, piece: &mut [u8], file: &mut Vec<u8>) -> Result<usize, Unread>
    ensures bytes { OnOk result (IsTrue (D.is_honest disk.old) → IsPrefix file.old.items (D.contents disk.old)
        → IsPrefix file.new.items (D.contents disk.old)) }
    ensures longer { IfOk result (λ n. length file.new.items ≡ length file.old.items + n) }
    ensures some { IfOk result (λ n. IsTrue (D.is_honest disk.old) → length file.old.items < length (D.contents disk.old)
        → 0 < length piece.old → 0 < n) }
    ensures contents_stay { OnOk result (IsTrue (D.is_honest disk.old) → D.contents disk.new ≡ D.contents disk.old) }
    ensures stays { Stays D.is_honest D.images D.moment D.left_since D.faults disk.old disk.new }
    ensures failed_by_a_fault { result ≡ Err Unread.DiskFault → Rose (D.faults disk.old) (D.faults disk.new) }
{
    let read = disk.read(file.len() as u64, piece)?;
    file.extend_from_slice(&piece[..read])?;
    Ok(read)
}
