//! Changes of a disk that are synced before anything else is done.
ghost use Rattle.std.specs.Prelude.{◌≡◌, ◌≤◌, length, take, IsTrue, OnOk, OnErr};
ghost use Rattle.ds_io.specs.Faults.{Rose};
ghost use Rattle.ds_disk.specs.Crashes.{written, length_written, Only, Torn, Cut, LeavesOnly};

use ds_disk::Disk;
use ds_io::Failed;

/// Writes a piece at a place, and syncs. At every moment a crash leaves what the disk had, but for the places of the piece.
pub(crate) fn write_synced<D: Disk>(disk: &mut D, place: u64, piece: &[u8]) -> Result<(), Failed>
    ensures written { OnOk result (IsTrue (D.is_honest disk.old) → D.contents disk.new ≡ written (D.contents disk.old) place piece.now) }
    ensures durable { OnOk result (IsTrue (D.is_honest disk.old) → Only (D.contents disk.new) (D.images disk.new)) }
    ensures any_moment { IsTrue (D.is_honest disk.old) → Only (D.contents disk.old) (D.images disk.old)
        → LeavesOnly D.moment D.left_since disk.old disk.new
        (Torn place (length piece.now) (length_written (D.contents disk.old) place piece.now) (D.contents disk.old)) }
    ensures failed_by_a_fault { OnErr result (Rose (D.faults disk.old) (D.faults disk.new)) }
    ensures faults_stay_counted { D.faults disk.old ≤ D.faults disk.new }
    ensures honest { D.is_honest disk.new ≡ D.is_honest disk.old }
{
    disk.write_at(place, piece)?;
    disk.sync()
}

/// Cuts to a length, and syncs. At every moment a crash leaves what the disk had up to that length.
pub(crate) fn cut_synced<D: Disk>(disk: &mut D, len: u64) -> Result<(), Failed>
    ensures cut { OnOk result (IsTrue (D.is_honest disk.old) → D.contents disk.new ≡ take len (D.contents disk.old)) }
    ensures durable { OnOk result (IsTrue (D.is_honest disk.old) → Only (D.contents disk.new) (D.images disk.new)) }
    ensures any_moment { IsTrue (D.is_honest disk.old) → Only (D.contents disk.old) (D.images disk.old)
        → LeavesOnly D.moment D.left_since disk.old disk.new (Cut len (D.contents disk.old)) }
    ensures failed_by_a_fault { OnErr result (Rose (D.faults disk.old) (D.faults disk.new)) }
    ensures faults_stay_counted { D.faults disk.old ≤ D.faults disk.new }
    ensures honest { D.is_honest disk.new ≡ D.is_honest disk.old }
{
    disk.cut(len)?;
    disk.sync()
}
