//! Deletes and touches of small keys, for the tests.
ghost use Rattle.std.specs.Prelude.{◌≡◌, None, length, IfOk};
ghost use Rattle.ds_log.specs.Ids.{AreIssued, first_unissued};
ghost use Rattle.ds_log.specs.Logs.{key_of};

use crate::parts::key;
use ds_base::{Ident, Key};
use ds_log::{Touch, Touches, Write, Writes};
use std::alloc::Global;
use std::test::Fail;

fn delete(alloc: Global, name: &str) -> Result<Write, Fail>
    ensures { IfOk result (λ write. first_unissued 0 (key_of write).elems ≡ None) }
{
    Ok(Write::Delete(key(alloc, name)?))
}

/// Deletes of the keys with these names.
pub(crate) fn deletes(alloc: Global, names: &[&str]) -> Result<Writes, Fail>
    ensures issued { IfOk result (λ writes. AreIssued 0 writes) }
    ensures length { IfOk result (λ writes. length writes ≡ length names.now) }
{
    let mut writes = Vec::new(alloc);
    for name in names {
        let write = delete(alloc, *name)?;
        writes.push(write)?;
    }
    Ok(Writes::from(writes))
}

/// Touches of the groups with these names.
pub(crate) fn touches(alloc: Global, touched: &[(&str, u64)]) -> Result<Touches, Fail> {
    let mut touches = Vec::new(alloc);
    for (name, place) in touched {
        let group = key(alloc, *name)?;
        touches.push(Touch {
            group,
            place: *place,
        })?;
    }
    Ok(Touches::from(touches))
}

/// Whether a key is [T,name].
pub(crate) fn is_named(key: &Key, name: &str) -> bool {
    match key.elems().as_slice() {
        [elem] => match &elem.ident {
            Ident::Name(text) => text.text() == name,
            Ident::Id(_) => false,
        },
        _ => false,
    }
}
