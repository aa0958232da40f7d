//! Sending the replies of a round, once all that they tell is kept.
ghost use Rattle.std.specs.Prelude.{◌≡◌, IfErr, IsTrue, OnErr, OnOk};
ghost use Rattle.std.specs.Io.KnownBytes.{Appends};
ghost use Rattle.ds_clients.specs.Clients.{AreAlike, WrotePart};
ghost use Rattle.ds_clients.specs.Runs.{AreWritten, texts_of};
ghost use Rattle.ds_keeping.specs.Holding.{AreCovered};
ghost use Rattle.ds_io.specs.Faults.{next_count};
ghost use Rattle.ds_keep.specs.Keepers.{IsSettled};
ghost use Rattle.ds_kept_file.specs.Files.{Kept};

use ds_clients::{Sessions, write_round};
use ds_disk::Disk;
use ds_io::Sink;
use ds_keep::Keeper;
use ds_output::Unsent;
use ds_store::Names;

/// Writes the replies of a round, as `write_round` does. The keeper is settled on this disk, so that no crash leaves less than it keeps;
/// and it keeps all that the sessions' passes committed and drew, so that no reply tells of a commit or an id that a crash could lose.
pub fn send<J: Names, D: Disk, O: Sink>(
    keeper: &Keeper,
    _disk: &D,
    sessions: &mut Sessions<J>,
    output: &mut O,
) -> Result<(), Unsent>
    requires settled { IsTrue (D.is_honest _disk.now)
        → (kept : Kept) × IsSettled D.is_honest D.contents D.images keeper.now kept _disk.now }
    requires covered { AreCovered keeper.now.commits keeper.now.next sessions.old }
    ensures ok { OnOk result (Appends (O.held output.old) (O.held output.new) (texts_of sessions.old)) }
    ensures err { IfErr result (WrotePart (O.held output.old) (O.held output.new) (texts_of sessions.old)) }
    ensures alike { AreAlike sessions.old sessions.new }
    ensures written { AreWritten sessions.new }
    ensures fault { OnErr result (O.faults output.new ≡ next_count (O.faults output.old)) }
    ensures no_fault { OnOk result (O.faults output.new ≡ O.faults output.old) }
{
    write_round(sessions, output)
}
