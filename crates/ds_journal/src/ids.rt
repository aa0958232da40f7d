//! Which ids may be drawn, and which may be written, at a counter.
ghost use Rattle.std.specs.Prelude.{◌≡◌, ◌+◌, ◌≤◌, ◌↔◌, IsOk, IfErr};
ghost use Rattle.std.specs.Option.{option_map};
ghost use Rattle.std.specs.Result.{result_err};
ghost use Rattle.ds_base.specs.Limits.{greatest_id};
ghost use Rattle.ds_log.specs.Ids.{first_unissued, unissued, unissued_id};

use crate::refusals::{IdNotIssued, IdsExhausted};
use ds_base::limits::{FIRST_DRAWN_ID, MAX_ID};
use ds_base::{Elem, Ident};

/// Whether `count` ids are left at a counter: refused exactly where the counter would rise above 2^63 - 1. It takes no memory.
pub fn check_left(next: u64, count: u64) -> Result<(), IdsExhausted>
    requires { next ≤ greatest_id }
    ensures exact { IsOk result ↔ (next + count ≤ greatest_id) }
    ensures told { IfErr result (λ refused. refused.next ≡ next) }
{
    if count > MAX_ID - next {
        Err(IdsExhausted { next })
    } else {
        Ok(())
    }
}

/// Whether an id may stand in a written key at a counter: refused exactly where it is at least 2^52 and not below the counter. It
/// takes no memory.
pub fn check_id(next: u64, id: u64) -> Result<(), IdNotIssued>
    ensures { result_err result ≡ option_map (λ i. record { id = i; next = next }) (unissued_id next id) }
{
    if FIRST_DRAWN_ID <= id && next <= id {
        Err(IdNotIssued { id, next })
    } else {
        Ok(())
    }
}

/// Whether each id of a written path may stand there at a counter: refused exactly where one may not, with the first such id. It
/// takes no memory.
pub fn check_path(next: u64, path: &[Elem]) -> Result<(), IdNotIssued>
    ensures { result_err result ≡ option_map (λ i. record { id = i; next = next }) (first_unissued next path.now) }
{
    for elem in path {
        check_ident(next, &elem.ident)?;
    }
    Ok(())
}

fn check_ident(next: u64, ident: &Ident) -> Result<(), IdNotIssued>
    ensures { result_err result ≡ option_map (λ i. record { id = i; next = next }) (unissued next ident.now) }
{
    match ident {
        Ident::Id(id) => check_id(next, *id),
        Ident::Name(_) => Ok(()),
    }
}
