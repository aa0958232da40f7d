//! Which searches go over all shards at once.
ghost use Rattle.std.specs.Prelude.{◌<◌, ◌↔◌, IsTrue};
ghost use Rattle.ds_session_reads.specs.Wide.{GoesWide, entries_seen, most_scanned_by_one};

use ds_query::Window;
use ds_store::{Names, Pass};

/// One thread scans so many entries before others have started.
const MOST_SCANNED_BY_ONE: u64 = 16_384;

/// Whether a search without an ancestor is to go over all shards at once, each in a thread of its own.
pub(crate) fn goes_wide<J: Names>(window: &Window, shards: u32, pass: &Pass<J>) -> bool
    ensures { IsTrue result ↔ GoesWide window.now shards pass.now }
{
    shards > 1 && window.limit.is_none() && has_many_entries(pass)
}

/// Whether a pass has seen more entries applied than one thread is to scan.
fn has_many_entries<J: Names>(pass: &Pass<J>) -> bool
    ensures { IsTrue result ↔ (most_scanned_by_one < entries_seen pass.now) }
{
    let mut left = MOST_SCANNED_BY_ONE;
    for shard in 0..pass.shards() {
        let count = pass.count(shard).unwrap_or(0);
        if count > left {
            return true;
        }
        left -= count;
    }
    false
}
