//! What is held is put into a list, or into its place, in functions of their own: a value of many forms that is dropped at each way
//! out of a function makes the proof of that function's steps many times as long.
ghost use Rattle.std.specs.Prelude.{◌≡◌, ◌++◌, ◌∷◌, [], OnOk};

use ds_base::{NoMemory, Sequence};
use std::alloc::AllocError;

/// The item takes the place of what was there, which is dropped.
pub(crate) fn set<T: Drop>(place: &mut T, item: T)
    ensures { place.new ≡ item }
{
    *place = item;
}

/// Puts an item behind the others. A refusal means out of memory.
pub(crate) fn put<T: Drop>(list: &mut Sequence<T>, item: T) -> Result<(), NoMemory>
    ensures { OnOk result (list.new ≡ list.old ++ item ∷ []) }
{
    match list.push(item) {
        Ok(()) => Ok(()),
        Err(_refused) => Err(AllocError),
    }
}
