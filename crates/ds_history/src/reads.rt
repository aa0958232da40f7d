//! What writes leave at a key.
ghost use Rattle.std.specs.Prelude.{◌≡◌, fold};
ghost use Rattle.std.specs.Option.{option_copied};
ghost use Rattle.ds_history.specs.Writers.{left_at, put_by};

use ds_base::Key;
use ds_entity::Entity;
use ds_log::Write;

/// The entity that writes leave at a key, where this one was there before.
pub(crate) fn left_at<'a>(
    writes: &'a [Write],
    key: &Key,
    earlier: Option<&'a Entity>,
) -> Option<&'a Entity>
    ensures { option_copied result ≡ fold (left_at key.now) (option_copied earlier.entry) writes.now }
{
    let mut left = earlier;
    for write in writes {
        if write.key() == key {
            left = put_by(write);
        }
    }
    left
}

/// The entity that a write puts.
fn put_by(write: &Write) -> Option<&Entity>
    ensures { option_copied result ≡ put_by write.now }
{
    match write {
        Write::Put(entity) => Some(entity),
        Write::Delete(_) => None,
    }
}
