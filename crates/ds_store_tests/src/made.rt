//! Small keys, entities and drafts for the tests.
ghost use Rattle.std.specs.Prelude.{◌≡◌, ◌+◌, ◌≤◌, ℕ, None, [], IfOk, IsTrue, length};
ghost use Rattle.ds_entity.specs.Entities.{names_ascend};
ghost use Rattle.ds_base.specs.Keys.{ends_in_id, with_last_id};
ghost use Rattle.ds_journal.specs.Drafts.{is_one_put, renumbered_commit};
ghost use Rattle.ds_log.specs.Ids.{AreIssued, first_unissued};
ghost use Rattle.ds_log.specs.Logs.{key_of};

use ds_base::{Elem, Elems, Ident, Key, NoMemory, TextString, Value, Values};
use ds_entity::{Entity, Properties, Property};
use ds_journal::Draft;
use ds_log::{Touch, Touches, Write, Writes};
use std::alloc::{AllocError, Global};

fn named_path(alloc: Global, name: &str) -> Result<Elems, NoMemory>
    ensures { IfOk result (λ path. first_unissued 0 path ≡ None) }
{
    let kind = TextString::of(alloc, "T")?;
    let ident = Ident::Name(TextString::of(alloc, name)?);
    Ok(Elems::from(vec![in alloc; Elem { kind, ident }]?))
}

/// The key [T,name].
pub(crate) fn key(alloc: Global, name: &str) -> Result<Key, NoMemory>
    ensures { IfOk result (λ key. first_unissued 0 key.elems ≡ None) }
{
    let path = named_path(alloc, name)?;
    Key::new(alloc, path).map_err(|_| AllocError)
}

/// One property with one value.
fn one_property(alloc: Global, name: &str, value: Value) -> Result<Properties, NoMemory>
    ensures ascending { IfOk result (λ properties. IsTrue (names_ascend properties)) }
    ensures one { IfOk result (λ properties. length properties ≡ 1) }
{
    let property = Property {
        name: TextString::of(alloc, name)?,
        indexed: true,
        values: Values::from(vec![in alloc; value]?),
    };
    Ok(Properties::from(vec![in alloc; property]?))
}

/// A put of the entity with this name and number.
fn put(alloc: Global, name: &str, number: i64) -> Result<Write, NoMemory>
    ensures { IfOk result (λ write. first_unissued 0 (key_of write).elems ≡ None) }
{
    let properties = one_property(alloc, "n", Value::Int(number))?;
    let key = key(alloc, name)?;
    let entity = Entity::new(key, properties).map_err(|_| AllocError)?;
    Ok(Write::Put(entity))
}

/// One such put.
#[tactic(auto, using(crate::proofs::NewIds::issued_alone))]
fn one_put(alloc: Global, name: &str, number: i64) -> Result<Writes, NoMemory>
    ensures issued { IfOk result (λ writes. AreIssued 0 writes) }
    ensures one { IfOk result (λ writes. length writes ≡ 1) }
{
    let write = put(alloc, name, number)?;
    Ok(Writes::from(vec![in alloc; write]?))
}

/// A put outside a transaction.
pub(crate) fn alone(alloc: Global, name: &str, number: i64) -> Result<Draft, NoMemory>
    ensures { IfOk result (λ draft. AreIssued 0 draft.writes) }
{
    let writes = one_put(alloc, name, number)?;
    Draft::make(alloc, 0, Touches::new(alloc), writes)
}

/// A put in a transaction that touched its group at this place.
pub(crate) fn touching(
    alloc: Global,
    name: &str,
    place: u64,
    number: i64,
) -> Result<Draft, NoMemory>
    ensures { IfOk result (λ draft. AreIssued 0 draft.writes) }
{
    let group = key(alloc, name)?;
    let touched = Touches::from(vec![in alloc; Touch { group, place }]?);
    let writes = one_put(alloc, name, number)?;
    Draft::make(alloc, 1, touched, writes)
}

/// A path that ends in an id.
#[tactic(auto, using(crate::proofs::NewIds::single_issued))]
fn path_to_come(alloc: Global) -> Result<Elems, NoMemory>
    ensures ends { IfOk result (λ path. IsTrue (ends_in_id path)) }
    ensures issued { IfOk result (λ path. (id : ℕ) → first_unissued (id + 1) (with_last_id path id) ≡ None) }
{
    let kind = TextString::of(alloc, "T")?;
    let ident = Ident::Id(1);
    Ok(Elems::from(vec![in alloc; Elem { kind, ident }]?))
}

/// A put of an entity whose id is yet to come.
pub(crate) fn incomplete(alloc: Global) -> Result<Draft, NoMemory>
    ensures untouched { IfOk result (λ draft. draft.touched ≡ []) }
    ensures one_put { IfOk result (λ draft. IsTrue (is_one_put draft.writes)) }
    ensures issued { IfOk result (λ draft. (id : ℕ) → AreIssued (id + 1) (renumbered_commit draft id).writes) }
{
    let path = path_to_come(alloc)?;
    put_to_come(alloc, path, Properties::new(alloc))
}

fn put_to_come(alloc: Global, path: Elems, properties: Properties) -> Result<Draft, NoMemory>
    requires ends { IsTrue (ends_in_id path) }
    requires ascending { IsTrue (names_ascend properties) }
    requires few { length properties ≤ 1 }
    requires issued { (id : ℕ) → first_unissued (id + 1) (with_last_id path id) ≡ None }
    ensures untouched { IfOk result (λ draft. draft.touched ≡ []) }
    ensures one_put { IfOk result (λ draft. IsTrue (is_one_put draft.writes)) }
    ensures issued { IfOk result (λ draft. (id : ℕ) → AreIssued (id + 1) (renumbered_commit draft id).writes) }
{
    let key = Key::new(alloc, path).map_err(|_| AllocError)?;
    let entity = Entity::new(key, properties).map_err(|_| AllocError)?;
    let writes = Writes::from(vec![in alloc; Write::Put(entity)]?);
    Draft::make(alloc, 0, Touches::new(alloc), writes)
}

/// The number of such an entity, 0 where there is none; `None` where it isn't one.
pub(crate) fn number_of(entity: Option<&Entity>) -> Option<i64> {
    match entity {
        Some(entity) => number_in(entity),
        None => Some(0),
    }
}

fn number_in(entity: &Entity) -> Option<i64> {
    match entity.properties().as_slice() {
        [property] => match property.values.as_slice() {
            [Value::Int(number)] => Some(*number),
            _ => None,
        },
        _ => None,
    }
}
