//! What is told of each result.
ghost use Rattle.std.specs.Prelude.{◌≡◌, ◌+◌, ◌≤◌, ◌<◌, map, length, unwrap_or, IfOk, OnErr};
ghost use Rattle.ds_base.specs.declared.index_value.IndexValue.TheVariants.{Null};
ghost use Rattle.ds_base.specs.Limits.{most_shards};
ghost use Rattle.ds_query.specs.RowValues.{value_columns, value_named};
ghost use Rattle.ds_pages.specs.Places.{parts_of};
ghost use Rattle.ds_model.specs.Results.{entity_of};
ghost use Rattle.ds_engine.specs.Searches.{item_in, look_ups, shard_among, view_of};
ghost use Rattle.ds_engine.specs.Snapshots.{entities_in};

use crate::snapshot::ShardSnapshot;
use ds_base::{
    Column, Columns, IndexValue, IndexValues, Key, Names, NoMemory, TextString, TryCopy,
};
use ds_entity::{Entity, Item, Results};
use ds_io::Steps;
use ds_log::shard_of;
use ds_query::{Row, RowList, Select, value_named};
use std::alloc::Global;
use std::sync::ledger::Ledger;

/// What is selected of each row: its entity, which is looked up in the shard of its group by one step, its key alone, or the values of the
/// projected columns. The keys are moved, and an entity shares its properties. A refusal means out of memory.
pub(crate) fn items<L: Ledger>(
    alloc: Global,
    snapshots: &[ShardSnapshot<'_, L>],
    columns: &Columns,
    select: &Select,
    rows: RowList,
    steps: &mut Steps<L>,
) -> Result<Results, NoMemory>
    requires some { 1 ≤ length snapshots.now }
    requires few { length snapshots.now ≤ most_shards }
    ensures items { IfOk result (λ items. items
        ≡ map (item_in columns.now select.now (map entities_in snapshots.now)) (map parts_of rows)) }
    ensures steps { IfOk result (λ items. steps.new ≡ steps.old + look_ups select.now (length items)) }
    ensures refused { OnErr result (steps.new ≤ steps.old + length rows) }
{
    let mut items = Vec::with_capacity(alloc, rows.len())?;
    for row in rows.into_vec() {
        items.push(item(alloc, snapshots, columns, select, row, steps)?)?;
    }
    Ok(Results::from(items))
}

fn item<L: Ledger>(
    alloc: Global,
    snapshots: &[ShardSnapshot<'_, L>],
    columns: &Columns,
    select: &Select,
    row: Row,
    steps: &mut Steps<L>,
) -> Result<Item, NoMemory>
    requires some { 1 ≤ length snapshots.now }
    requires few { length snapshots.now ≤ most_shards }
    ensures item { IfOk result (λ item. item ≡ item_in columns.now select.now (map entities_in snapshots.now) (parts_of row)) }
    ensures steps { IfOk result (λ item. steps.new ≡ steps.old + look_ups select.now 1) }
    ensures refused { OnErr result (steps.new ≤ steps.old + 1) }
{
    let entity = match select {
        Select::Entities => entity(alloc, snapshots, &row.key, steps)?,
        _ => None,
    };
    let projected = match select {
        Select::Projection(names) => projected_values(alloc, columns, names, &row.values)?,
        _ => IndexValues::new(alloc),
    };
    Ok(Item {
        key: row.key,
        entity,
        projected,
    })
}

/// The entity of a key in the shard of its group.
fn entity<L: Ledger>(
    alloc: Global,
    snapshots: &[ShardSnapshot<'_, L>],
    key: &Key,
    steps: &mut Steps<L>,
) -> Result<Option<Entity>, NoMemory>
    requires some { 1 ≤ length snapshots.now }
    requires few { length snapshots.now ≤ most_shards }
    ensures found { IfOk result (λ found. found ≡ entity_of (view_of (map entities_in snapshots.now) key.now) key.now) }
    ensures steps { IfOk result (λ found. steps.new ≡ steps.old + 1) }
    ensures refused { OnErr result (steps.new ≤ steps.old + 1) }
{
    let shard = shard_among(alloc, key, snapshots.len())?;
    snapshots[shard].entity(alloc, key, steps)
}

/// The number of the shard of a key's group, among so many. Where there is one it takes no memory.
fn shard_among(alloc: Global, key: &Key, shards: usize) -> Result<usize, NoMemory>
    requires some { 1 ≤ shards }
    requires few { shards ≤ most_shards }
    ensures shard { IfOk result (λ shard. shard ≡ shard_among shards key.now) }
    ensures below { IfOk result (λ shard. shard < shards) }
{
    if shards == 1 {
        return Ok(0);
    }
    let root = key.root(alloc)?;
    Ok(shard_of(alloc, &root, shards as u32)? as usize)
}

/// The values in the columns of these names, in their order.
fn projected_values(
    alloc: Global,
    columns: &Columns,
    names: &Names,
    values: &IndexValues,
) -> Result<IndexValues, NoMemory>
    ensures { IfOk result (λ vs. vs ≡ map (λ name. unwrap_or (value_named name (value_columns columns.now) values.now) Null) names.now) }
{
    let mut projected = Vec::with_capacity(alloc, names.len())?;
    for name in names.as_slice() {
        projected.push(value_of(alloc, name, columns.as_slice(), values.as_slice())?)?;
    }
    Ok(IndexValues::from(projected))
}

fn value_of(
    alloc: Global,
    name: &TextString,
    columns: &[Column],
    values: &[IndexValue],
) -> Result<IndexValue, NoMemory>
    ensures { IfOk result (λ v. v ≡ unwrap_or (value_named name.now (value_columns columns.now) values.now) Null) }
{
    match value_named(name, columns, values) {
        Some(value) => value.copy(alloc),
        None => Ok(IndexValue::Null),
    }
}
