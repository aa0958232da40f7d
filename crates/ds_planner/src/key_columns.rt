//! The end of a list of columns: `__key__`, and its direction.
ghost use Rattle.std.specs.Prelude.{◌≡◌, ◌&&◌, not, IsTrue};
ghost use Rattle.std.specs.Option.{option_copied};
ghost use Rattle.ds_base.specs.KeyColumn.{is_key_name, is_ascending_key};
ghost use Rattle.ds_query.specs.Lawful.{ends_in_key};
ghost use Rattle.ds_planner.specs.Indexes.{with_key, in_front_of};
ghost use Rattle.ds_planner.specs.Missing.{without_key};

use ds_base::{Column, is_ascending_key, is_key_name};

/// Whether the last column is `__key__`.
fn ends_in_key(columns: &[Column]) -> bool
    ensures { result ≡ ends_in_key columns.now }
{
    match columns {
        [.., last] => is_key_name(&last.name),
        [] => false,
    }
}

/// The columns without a final `__key__` ascending.
pub(crate) fn without_key(columns: &[Column]) -> &[Column]
    ensures { result.now ≡ without_key columns.now }
{
    match columns {
        [rest @ .., last] => {
            if is_ascending_key(last) {
                rest
            } else {
                columns
            }
        }
        [] => columns,
    }
}

/// What stands in front of `last` in the columns of an index, which ends in `__key__`, ascending unless it names `__key__`
/// last; none where it doesn't end with `last`, which ends in `__key__` too.
pub(crate) fn in_front_of<'a>(last: &[Column], columns: &'a [Column]) -> Option<&'a [Column]>
    requires { IsTrue (ends_in_key last.now) }
    ensures { option_copied result ≡ in_front_of last.now (with_key columns.now) }
{
    if ends_in_key(columns) {
        return columns.strip_suffix(last);
    }
    match last {
        [rest @ .., key] => {
            if is_ascending_key(key) {
                columns.strip_suffix(rest)
            } else {
                None
            }
        }
        [] => None,
    }
}
