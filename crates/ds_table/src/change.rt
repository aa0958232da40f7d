//! What becomes of a version when stamps are undone or trimmed.
ghost use Rattle.std.specs.Prelude.{◌≡◌};
ghost use Rattle.std.specs.Option.{option_map};
ghost use Rattle.ds_table.specs.Changes.{kept_end};

/// A change of all versions.
#[derive(Clone, Copy)]
pub enum Change {
    /// Undoes what was done at this stamp.
    Undo(u64),
    /// Takes out what closed at or before this floor.
    Trim(u64),
}

/// The end that a version has after the change; `None` where the version goes.
pub fn kept_end(change: Change, from: u64, to: u64) -> Option<u64>
    ensures { result ≡ kept_end change from to }
{
    match change {
        Change::Undo(stamp) => undone_end(stamp, from, to),
        Change::Trim(floor) => (floor < to).then_some(to),
    }
}

fn undone_end(stamp: u64, from: u64, to: u64) -> Option<u64>
    ensures { result ≡ kept_end (Change.Undo stamp) from to }
{
    if from == stamp {
        None
    } else if to == stamp {
        Some(u64::MAX)
    } else {
        Some(to)
    }
}
