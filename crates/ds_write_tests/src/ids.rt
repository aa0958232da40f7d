//! Ids that the server draws.
ghost use Rattle.std.specs.Prelude.{◌≡◌, [], IfOk, IsTrue};
ghost use Rattle.ds_base.specs.Keys.{ends_in_id};
ghost use Rattle.ds_journal.specs.Drafts.{is_one_put};

use ds_base::{Elem, Elems, Ident, Key, NoMemory, TextString};
use ds_entity::{Entity, Properties};
use ds_journal::ids::{check_left, check_path};
use ds_journal::{Book, Draft, IdNotIssued, IdsExhausted};
use ds_log::{Touches, Write, Writes};
use std::alloc::Global;
use std::test::Fail;

/// The id that is drawn first.
const FIRST: u64 = 4_503_599_627_370_496;

fn is_not_issued(answer: Result<(), IdNotIssued>, id: u64, next: u64) -> bool {
    match answer {
        Err(refused) => refused.id == id && refused.next == next,
        Ok(()) => false,
    }
}

fn is_exhausted(answer: Result<u64, IdsExhausted>, next: u64) -> bool {
    match answer {
        Err(refused) => refused.next == next,
        Ok(_) => false,
    }
}

fn is_first(answer: Result<u64, IdsExhausted>, first: u64) -> bool {
    match answer {
        Ok(id) => id == first,
        Err(_) => false,
    }
}

fn draws_ids_in_turn(alloc: Global) -> bool {
    let mut book = Book::make(alloc);
    let before = is_not_issued(book.check_id(FIRST), FIRST, FIRST);
    let small = book.check_id(FIRST - 1).is_ok();
    let drawn = is_first(book.issue(1), FIRST);
    let after = book.check_id(FIRST).is_ok();
    let exhausted = is_exhausted(book.issue(9_223_372_036_854_775_807), FIRST + 1);
    let more = is_first(book.issue(10), FIRST + 1);
    before && small && drawn && after && exhausted && more && book.next() == FIRST + 11
}

/// The same by the counter alone, as a step tells it.
fn tells_by_the_counter(alloc: Global) -> Result<bool, NoMemory> {
    let path = numbered_path(alloc)?;
    let left = check_left(FIRST, 9_223_372_036_854_775_807 - FIRST).is_ok();
    let none = check_left(9_223_372_036_854_775_807, 1).is_err();
    Ok(left && none && check_path(0, path.as_slice()).is_ok())
}

/// The counter ends at 2^63 - 1, which is never drawn.
fn draws_to_the_end(alloc: Global) -> bool {
    let mut book = Book::make(alloc);
    book.raise(9_223_372_036_854_775_806);
    let last = is_first(book.issue(1), 9_223_372_036_854_775_806);
    last && is_exhausted(book.issue(1), 9_223_372_036_854_775_807)
}

fn numbered_path(alloc: Global) -> Result<Elems, NoMemory>
    ensures { IfOk result (λ path. IsTrue (ends_in_id path)) }
{
    let kind = TextString::of(alloc, "T")?;
    Ok(Elems::from(vec![in alloc;
        Elem {
            kind,
            ident: Ident::Id(1)
        },
    ]?))
}

fn entity(alloc: Global) -> Result<Entity, Fail>
    ensures { IfOk result (λ entity. IsTrue (ends_in_id entity.key.elems)) }
{
    let key = Key::new(alloc, numbered_path(alloc)?)?;
    Ok(Entity::new(key, Properties::new(alloc))?)
}

/// A put of an entity whose id is yet to come.
fn draft(alloc: Global) -> Result<Draft, Fail>
    ensures one_put { IfOk result (λ draft. IsTrue (is_one_put draft.writes)) }
    ensures untouched { IfOk result (λ draft. draft.touched ≡ []) }
{
    let writes = Writes::from(vec![in alloc; Write::Put(entity(alloc)?)]?);
    Ok(Draft::make(alloc, 0, Touches::new(alloc), writes)?)
}

fn has_id(key: &Key, wanted: u64) -> bool {
    match key.elems().as_slice() {
        [elem] => match &elem.ident {
            Ident::Id(id) => *id == wanted,
            Ident::Name(_) => false,
        },
        _ => false,
    }
}

fn renumbers_its_entity(alloc: Global) -> Result<bool, Fail> {
    let mut draft = draft(alloc)?;
    draft.renumber(FIRST);
    match draft.commit().writes.get(0) {
        Some(write) => Ok(has_id(write.key(), FIRST)),
        None => Ok(false),
    }
}

#[test]
fn ids_are_drawn(rt: HostRuntime) -> Result<(), Fail> {
    let alloc = rt.alloc();
    assert!(rt; draws_ids_in_turn(alloc));
    assert!(rt; draws_to_the_end(alloc));
    assert!(rt; tells_by_the_counter(alloc)?);
    assert!(rt; renumbers_its_entity(alloc)?);
    Ok(())
}
