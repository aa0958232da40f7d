//! One batch more behind those of a file.
ghost use Rattle.std.specs.Prelude.{◌≡◌, ◌∷◌, ◌++◌, ◌+◌, ◌-◌, ◌<◌, ◌≤◌, ◌^◌, [], length, IsTrue, OnOk, OnErr};
ghost use Rattle.ds_io.specs.Faults.{Rose};
ghost use Rattle.ds_disk.specs.Crashes.{Only, LeavesOnly};
ghost use Rattle.ds_kept_file.specs.Files.{Kept, Batch, Continues, body_of, next_number, sized, with_batch};
ghost use Rattle.ds_keep.specs.Keepers.{IsWholeTo, StandsForEither};

use crate::steps::write_synced;
use ds_disk::Disk;
use ds_io::Failed;

/// Puts a batch, without its gate and with a closed gate behind it, behind the closed gate at this place, syncs, opens the gate, and syncs.
/// At every moment the file stands for what it stood for, or for it with the batch.
pub(crate) fn put<D: Disk>(disk: &mut D, gate: u64, written: &[u8]) -> Result<(), Failed>
    requires { gate < 2 ^ 64 - 1 }
    ensures kept { OnOk result ((kept : Kept) (batch : Batch) → IsTrue (D.is_honest disk.old) → IsWholeTo gate kept (D.contents disk.old)
        → Continues kept batch → written.now ≡ sized (body_of (next_number kept) batch) ++ 0 ∷ []
        → IsWholeTo (gate + length written.now) (with_batch kept batch) (D.contents disk.new)) }
    ensures durable { OnOk result (IsTrue (D.is_honest disk.old) → Only (D.contents disk.new) (D.images disk.new)) }
    ensures any_moment { (kept : Kept) (batch : Batch) → IsTrue (D.is_honest disk.old) → Only (D.contents disk.old) (D.images disk.old)
        → IsWholeTo gate kept (D.contents disk.old) → Continues kept batch
        → written.now ≡ sized (body_of (next_number kept) batch) ++ 0 ∷ []
        → LeavesOnly D.moment D.left_since disk.old disk.new (StandsForEither kept batch) }
    ensures failed_by_a_fault { OnErr result (Rose (D.faults disk.old) (D.faults disk.new)) }
    ensures faults_stay_counted { D.faults disk.old ≤ D.faults disk.new }
    ensures honest { D.is_honest disk.new ≡ D.is_honest disk.old }
{
    write_synced(disk, gate + 1, written)?;
    write_synced(disk, gate, &[1])
}
