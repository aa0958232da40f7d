//! What a reply tells of a page of rows.
ghost use Rattle.std.specs.Prelude.{◌≡◌, map, IfOk, unwrap_or};
ghost use Rattle.std.specs.Option.{option_copied};
ghost use Rattle.ds_base.specs.declared.index_value.IndexValue.TheVariants.{Null};
ghost use Rattle.ds_model.specs.Answers.{cursor_of};
ghost use Rattle.ds_model.specs.Results.{items_of, item_of, projected_values, entity_of};
ghost use Rattle.ds_query.specs.RowValues.{value_named, value_columns};
ghost use Rattle.ds_protocol.specs.Finishing.{AreByKey, IsPlaceOf, row_parts, found_of};
ghost use Rattle.ds_protocol.specs.Quiet.{IsQuiet};

use crate::searching::Search;
use ds_base::{
    Columns, IndexValue, IndexValues, Key, Names, NoMemory, TextString, TryCopy, copy_of,
};
use ds_cursor::write;
use ds_entity::{Entity, Item, Results, Seen};
use ds_query::{Branches, Normal, Place, Row, RowList, Select, value_named};
use ds_reply::Body;
use std::alloc::Global;

/// What the reply to a search says of a page: what is selected of each row, what was seen, and the cursor of the next place where it was
/// asked for. The entities are those that were seen, by key; a row's entity is found among them by halving. The keys of the rows are moved,
/// and an entity shares its properties. A refusal means out of memory.
pub fn finish(
    alloc: Global,
    search: &Search,
    normal: &Normal,
    entities: &[&Entity],
    rows: RowList,
    next: Option<&Place>,
    seen: Seen,
) -> Result<Body, NoMemory>
    requires { AreByKey (map (λ e. e.now) entities.now) }
    ensures found { IfOk result (λ b. b ≡ found_of search.now normal.now (map (λ e. e.now) entities.now) rows (option_copied next.entry)
        seen) }
    ensures quiet { IfOk result IsQuiet }
{
    let results = items(alloc, &normal.merged, &search.query.select, entities, rows)?;
    let cursor = next_cursor(alloc, search.cursor, &normal.branches, next)?;
    let select = search.query.select.copy(alloc)?;
    if search.statement {
        Ok(Body::Gql {
            select,
            results,
            seen,
            cursor,
        })
    } else {
        Ok(Body::Query {
            select,
            results,
            seen,
            cursor,
        })
    }
}

/// The cursor of the next place, where it was asked for and there is one branch.
fn next_cursor(
    alloc: Global,
    wanted: bool,
    branches: &Branches,
    next: Option<&Place>,
) -> Result<Option<TextString>, NoMemory>
    ensures { IfOk result (λ text. text ≡ cursor_of wanted branches.now (option_copied next.entry)) }
{
    match branches.as_slice() {
        [branch] if wanted => Ok(Some(write(alloc, branch, next)?)),
        _ => Ok(None),
    }
}

/// What is told of each row: the entity of its key among these, which stand by key, the key alone, or the key with the values of the
/// projected columns. The columns are those that the rows are united by. A refusal means out of memory.
fn items(
    alloc: Global,
    columns: &Columns,
    select: &Select,
    entities: &[&Entity],
    rows: RowList,
) -> Result<Results, NoMemory>
    requires { AreByKey (map (λ e. e.now) entities.now) }
    ensures { IfOk result (λ items. items ≡ items_of columns.now select.now (map (λ e. e.now) entities.now) (map row_parts rows)) }
{
    let mut items = Vec::with_capacity(alloc, rows.len())?;
    for row in rows.into_vec() {
        items.push(item_of(alloc, columns, select, entities, row)?)?;
    }
    Ok(Results::from(items))
}

fn item_of(
    alloc: Global,
    columns: &Columns,
    select: &Select,
    entities: &[&Entity],
    row: Row,
) -> Result<Item, NoMemory>
    requires { AreByKey (map (λ e. e.now) entities.now) }
    ensures { IfOk result (λ item. item ≡ item_of columns.now select.now (map (λ e. e.now) entities.now) (row_parts row)) }
{
    let entity = match select {
        Select::Entities => copy_of(alloc, entity_of(entities, &row.key))?,
        _ => None,
    };
    let projected = match select {
        Select::Projection(names) => projected_values(alloc, columns, names, &row.values)?,
        _ => IndexValues::new(alloc),
    };
    Ok(Item {
        key: row.key,
        entity,
        projected,
    })
}

/// The values in the columns of these names, in their order.
fn projected_values(
    alloc: Global,
    columns: &Columns,
    names: &Names,
    values: &IndexValues,
) -> Result<IndexValues, NoMemory>
    ensures { IfOk result (λ vs. vs ≡ map (λ name. unwrap_or (value_named name (value_columns columns.now) values.now) Null) names.now) }
{
    let mut projected = Vec::with_capacity(alloc, names.len())?;
    for name in names.as_slice() {
        let value = copy_of(
            alloc,
            value_named(name, columns.as_slice(), values.as_slice()),
        )?;
        projected.push(value.unwrap_or(IndexValue::Null))?;
    }
    Ok(IndexValues::from(projected))
}

/// The entity of the key, found by halving; `None` exactly where there is none.
fn entity_of<'a>(entities: &[&'a Entity], key: &Key) -> Option<&'a Entity>
    requires { AreByKey (map (λ e. e.now) entities.now) }
    ensures { option_copied result ≡ entity_of (map (λ e. e.now) entities.now) key.now }
{
    let place = place_of(entities, key);
    if place < entities.len() {
        let entity = entities[place];
        if entity.key() == key {
            return Some(entity);
        }
    }
    None
}

/// How many of the entities have keys before this one.
fn place_of(entities: &[&Entity], key: &Key) -> usize
    requires { AreByKey (map (λ e. e.now) entities.now) }
    ensures { IsPlaceOf (map (λ e. e.now) entities.now) key.now result }
{
    entities.partition_point(|entity| entity.key().cmp(key).is_lt())
}
