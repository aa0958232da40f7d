//! Closing the file of a disk behind its last batch.
ghost use Rattle.std.specs.Prelude.{◌-◌, ◌<◌, ◌≤◌, ◌^◌, ◌≡◌, IsTrue, OnOk, OnErr};
ghost use Rattle.ds_io.specs.Faults.{Rose};
ghost use Rattle.ds_disk.specs.Crashes.{Only, LeavesOnly};
ghost use Rattle.ds_kept_file.specs.Files.{Kept, StandsFor};
ghost use Rattle.ds_keep.specs.Keepers.{IsClosedAt, IsWholeTo};

use crate::steps::{cut_synced, write_synced};
use ds_disk::Disk;
use ds_io::Failed;

/// Cuts behind the closed gate, and then writes that as `00`: each change is synced before the next, since behind a gate that is torn open
/// what was cut would count. At every moment the file stands for what it stood for.
pub(crate) fn close<D: Disk>(disk: &mut D, gate: u64) -> Result<(), Failed>
    requires { gate < 2 ^ 64 - 1 }
    ensures closed { OnOk result ((kept : Kept) → IsTrue (D.is_honest disk.old) → IsClosedAt gate kept (D.contents disk.old)
        → IsWholeTo gate kept (D.contents disk.new)) }
    ensures durable { OnOk result (IsTrue (D.is_honest disk.old) → Only (D.contents disk.new) (D.images disk.new)) }
    ensures any_moment { (kept : Kept) → IsTrue (D.is_honest disk.old) → Only (D.contents disk.old) (D.images disk.old)
        → IsClosedAt gate kept (D.contents disk.old) → LeavesOnly D.moment D.left_since disk.old disk.new (StandsFor kept) }
    ensures failed_by_a_fault { OnErr result (Rose (D.faults disk.old) (D.faults disk.new)) }
    ensures faults_stay_counted { D.faults disk.old ≤ D.faults disk.new }
    ensures honest { D.is_honest disk.new ≡ D.is_honest disk.old }
{
    cut_synced(disk, gate + 1)?;
    write_synced(disk, gate, &[0])
}
