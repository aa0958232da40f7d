//! The ids of a written key: which of them only the server gives, and to which group they lead.
ghost use Rattle.std.specs.Prelude.{◌≡◌, IfOk, IsTrue};
ghost use Rattle.std.specs.List.{list_all};
ghost use Rattle.ds_base.specs.Keys.{is_elem};
ghost use Rattle.ds_log.specs.Ids.{first_unissued};
ghost use Rattle.ds_model.specs.Refusals.{group_asked};
ghost use Rattle.ds_model.specs.Sessions.{next_above};

use ds_base::limits::FIRST_DRAWN_ID;
use ds_base::{Elem, Ident, Key, NoMemory};
use ds_journal::ids::check_path;
use std::alloc::Global;

/// The first id of a path that only the server gives and, with the id counter at `next`, didn't give yet. It takes no memory.
pub fn first_unissued(path: &[Elem], next: u64) -> Option<u64>
    ensures { result ≡ first_unissued next path.now }
{
    check_path(next, path).err().map(|refused| refused.id)
}

/// The id counter above each id of a path that only the server gives; 0 where there is none. A reply that accepts the path shows it. It
/// takes no memory.
pub fn next_above(path: &[Elem]) -> u64
    requires { IsTrue (list_all is_elem path.now) }
    ensures { result ≡ next_above path.now }
{
    let mut next = 0;
    for elem in path {
        next = next.max(match &elem.ident {
            Ident::Id(id) if *id >= FIRST_DRAWN_ID => *id + 1,
            Ident::Id(_) | Ident::Name(_) => 0,
        });
    }
    next
}

/// The group of a written key; `None` for an incomplete root, whose id isn't drawn yet. A refusal means out of memory.
pub(crate) fn group_asked(
    alloc: Global,
    key: &Key,
    incomplete: bool,
) -> Result<Option<Key>, NoMemory>
    ensures { IfOk result (λ group. group ≡ group_asked incomplete key.now) }
{
    match key.elems().as_slice() {
        [_] if incomplete => Ok(None),
        _ => Ok(Some(key.root(alloc)?)),
    }
}
