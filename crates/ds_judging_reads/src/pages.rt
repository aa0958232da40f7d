//! The page of a search, by as few entities as fill it.
ghost use Rattle.std.specs.Prelude.{◌≡◌, map, IfOk, IfSome};
ghost use Rattle.ds_query.specs.Lawful.{IsLawfulNormal};
ghost use Rattle.ds_plain.specs.Answers.{query_page};
ghost use Rattle.ds_protocol.specs.Finishing.{AreByKey};
ghost use Rattle.ds_judging_reads.specs.Filling.{IsFilledBy};

use ds_base::{NoMemory, is_by_key};
use ds_entity::Entity;
use ds_plain::{Plain, answer_of};
use ds_query::{Normal, Window};
use std::alloc::Global;

/// How many entities are looked at, one number after another, until they fill the page.
const SIZES: [usize; 4] = [64, 512, 4_096, 32_768];

/// The page of a query over entities by key. Where the query's order is that of keys and it has a limit, those in front are looked at
/// first, and the others only where they don't fill the page. A refusal means out of memory.
pub(crate) fn page_of(
    alloc: Global,
    entities: &[&Entity],
    normal: &Normal,
    window: &Window,
) -> Result<Plain, NoMemory>
    requires lawful { IsLawfulNormal normal.now }
    requires by_key { AreByKey (map (λ e. e.now) entities.now) }
    ensures { IfOk result (λ p. p ≡ query_page normal.now window.now (map (λ e. e.now) entities.now)) }
{
    match filling(normal, window) {
        Some(limit) => page_in_front(alloc, entities, normal, window, limit),
        None => answer_of(alloc, entities, normal, window),
    }
}

/// How many results fill the page, where the query's order is that of keys.
fn filling(normal: &Normal, window: &Window) -> Option<u32>
    ensures { IfSome result (λ limit. IsFilledBy normal.now window.now limit) }
{
    let limit = window.limit?;
    if limit == 0 {
        return None;
    }
    if normal.several {
        return None;
    }
    if is_by_key(normal.merged.as_slice()) {
        Some(limit)
    } else {
        None
    }
}

/// The page, by the entities in front where they fill it.
fn page_in_front(
    alloc: Global,
    entities: &[&Entity],
    normal: &Normal,
    window: &Window,
    limit: u32,
) -> Result<Plain, NoMemory>
    requires lawful { IsLawfulNormal normal.now }
    requires by_key { AreByKey (map (λ e. e.now) entities.now) }
    requires filled { IsFilledBy normal.now window.now limit }
    ensures { IfOk result (λ p. p ≡ query_page normal.now window.now (map (λ e. e.now) entities.now)) }
{
    for size in SIZES {
        if let Some(page) = full_page(alloc, entities, normal, window, limit, size)? {
            return Ok(page);
        }
    }
    answer_of(alloc, entities, normal, window)
}

/// The page, where so many entities in front fill it.
fn full_page(
    alloc: Global,
    entities: &[&Entity],
    normal: &Normal,
    window: &Window,
    limit: u32,
    size: usize,
) -> Result<Option<Plain>, NoMemory>
    requires lawful { IsLawfulNormal normal.now }
    requires by_key { AreByKey (map (λ e. e.now) entities.now) }
    requires filled { IsFilledBy normal.now window.now limit }
    ensures { IfOk result (λ found. IfSome found (λ p. p ≡ query_page normal.now window.now (map (λ e. e.now) entities.now))) }
{
    if entities.len() < size {
        return Ok(None);
    }
    let page = answer_of(alloc, &entities[..size], normal, window)?;
    if page.rows.len() < limit as usize {
        return Ok(None);
    }
    Ok(Some(page))
}
