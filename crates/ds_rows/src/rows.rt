//! The rows of an entity.
ghost use Rattle.std.specs.Prelude.{◌≡◌, [], ◌++◌, flat_map, map, All, IfOk, OnOk};
ghost use Rattle.ds_bytes.specs.Encoding.{key_bytes};
ghost use Rattle.ds_bytes.specs.Lawful.{IsLawfulValue};
ghost use Rattle.ds_base.specs.Bytes.{AreBytes};
ghost use Rattle.ds_rows.specs.IndexedValues.{kind_of, property_values, indexed_values};
ghost use Rattle.ds_rows.specs.Indexes.{AllByKey, KindByKey, ByProperty, property_indexes};
ghost use Rattle.ds_rows.specs.Rows.{rows_in, rows_of, index_front};
ghost use Rattle.ds_rows.specs.Indexable.{IsIndexable};
ghost use Rattle.ds_rows.specs.Laws.{IsOnce};

use crate::composite::put_composite_rows;
use crate::fronts::{put_all_front, put_kind_front, put_property_front_by};
use crate::indexed::{indexed_lists, kind_of};
use crate::row_set::{RowSet, RowWriter};
use crate::ways::{ColumnValues, put_rows};
use ds_base::{Buffer, IndexValue, IndexValues, NoMemory, TextString};
use ds_bytes::encode_key;
use ds_entity::{Entity, Property};
use ds_indexdef::Defs;
use std::alloc::Global;

/// Room for the bytes of most keys and most fronts of rows, so that they don't move as they grow.
const ROOM: usize = 64;

/// Room for the bytes of most rows without their keys.
const ROW_ROOM: usize = 40;

/// The rows of the entity in all indexes, with these definitions of composite indexes: in the index of all entities, in that of
/// its kind, in an ascending and a descending index for each property, and in the composite indexes of its kind. Each row is
/// there once, however many there are.
///
/// A row begins with what tells its index, so that the rows of an index stand together, and goes on with the values of the
/// index's columns, each in its column's direction, and the key: so they have the order of the index. `specs/Rows` says what
/// they are. It takes time and memory in proportion to the bytes of the rows and of the entity.
pub fn rows_of(alloc: Global, defs: &Defs, entity: &Entity) -> Result<RowSet, NoMemory>
    ensures rows { IfOk result (λ rows. rows ≡ rows_of defs.now entity.now) }
    ensures once { IfOk result (λ rows. IsOnce rows) }
    ensures lawful { OnOk result (IsIndexable entity.now) }
{
    let properties = entity.properties().as_slice();
    let lists = indexed_lists(alloc, properties)?;
    let mut suffix = Buffer::new(alloc);
    suffix.make_room(ROOM)?;
    encode_key(entity.key(), false, &mut suffix)?;
    let mut front = Buffer::new(alloc);
    front.make_room(ROOM)?;
    let mut kind_front = Buffer::new(alloc);
    kind_front.make_room(ROOM)?;
    put_kind_front(
        entity.key().namespace(),
        kind_of(entity.key()),
        &mut kind_front,
    )?;
    let own = OwnBytes {
        kind_front: kind_front.bytes(),
        key: suffix.bytes(),
    };
    let mut rows = RowWriter::with_room(
        alloc,
        usual_rows(properties.len()),
        suffix.bytes().len().saturating_add(ROW_ROOM),
    )?;
    put_key_rows(entity, &own, &mut front, &mut rows)?;
    put_property_rows(entity, lists.as_slice(), &own, &mut front, &mut rows)?;
    put_composite_rows(alloc, defs, entity, lists.as_slice(), &mut front, &mut rows)?;
    Ok(rows.finish())
}

/// What the rows of an entity have in common.
#[derive(Drop)]
struct OwnBytes<'a> {
    /// What its row in the index of its kind begins with.
    kind_front: &'a [u8],
    /// The ascending encoding of its key.
    key: &'a [u8],
}

/// How many rows an entity with so many properties usually has: one value in each, and no composite index. Only the room that
/// is taken depends on it, so no clause tells it.
fn usual_rows(properties: usize) -> usize {
    properties.saturating_mul(2).saturating_add(2)
}

/// Puts the rows in the index of all entities and in that of the entity's kind.
fn put_key_rows(
    entity: &Entity,
    own: &OwnBytes,
    front: &mut Buffer,
    rows: &mut RowWriter,
) -> Result<(), NoMemory>
    requires encoded { own.now.key.now ≡ key_bytes entity.now.key }
    requires kind { own.now.kind_front.now ≡ index_front KindByKey entity.now.key.namespace (kind_of entity.now.key) }
    requires begun { rows.old.begun ≡ [] }
    ensures { OnOk result (rows.new ≡ record {
      rows = rows.old.rows
          ++ (rows_in entity.now AllByKey ++ rows_in entity.now KindByKey);
      begun = [];
    }) }
{
    put_all_front(entity.key().namespace(), front)?;
    put_rows(front.bytes(), &[], own.key, rows)?;
    put_rows(own.kind_front, &[], own.key, rows)
}

/// Puts the rows in the indexes of the properties, whose indexed values are given.
fn put_property_rows(
    entity: &Entity,
    lists: &[IndexValues],
    own: &OwnBytes,
    front: &mut Buffer,
    rows: &mut RowWriter,
) -> Result<(), NoMemory>
    requires theirs { lists.now ≡ map property_values entity.now.properties }
    requires encoded { own.now.key.now ≡ key_bytes entity.now.key }
    requires kind { own.now.kind_front.now ≡ index_front KindByKey entity.now.key.namespace (kind_of entity.now.key) }
    requires begun { rows.old.begun ≡ [] }
    ensures put { OnOk result (rows.new ≡ record {
      rows = rows.old.rows
          ++ flat_map (rows_in entity.now) (flat_map property_indexes entity.now.properties);
      begun = [];
    }) }
    ensures lawful { OnOk result (All (λ p. All IsLawfulValue (property_values p)) entity.now.properties) }
    ensures names { OnOk result (All (λ p. AreBytes p.name) entity.now.properties) }
{
    for (place, property) in entity.properties().as_slice().iter().enumerate() {
        put_both(entity, property, lists[place].as_slice(), own, front, rows)?;
    }
    Ok(())
}

/// Puts the rows in the ascending and the descending index of one of the entity's properties, whose indexed values are given.
fn put_both(
    entity: &Entity,
    property: &Property,
    values: &[IndexValue],
    own: &OwnBytes,
    front: &mut Buffer,
    rows: &mut RowWriter,
) -> Result<(), NoMemory>
    requires theirs { values.now ≡ indexed_values entity.now property.now.name }
    requires encoded { own.now.key.now ≡ key_bytes entity.now.key }
    requires kind { own.now.kind_front.now ≡ index_front KindByKey entity.now.key.namespace (kind_of entity.now.key) }
    requires begun { rows.old.begun ≡ [] }
    ensures put { OnOk result (rows.new ≡ record {
      rows = rows.old.rows
          ++ flat_map (rows_in entity.now) (property_indexes property.now);
      begun = [];
    }) }
    ensures lawful { OnOk result (All IsLawfulValue values.now) }
    ensures name { OnOk result (AreBytes property.now.name) }
{
    put_property(entity, &property.name, false, values, own, front, rows)?;
    put_property(entity, &property.name, true, values, own, front, rows)
}

/// Puts the rows in one index of the property of this name.
fn put_property(
    entity: &Entity,
    name: &TextString,
    descending: bool,
    values: &[IndexValue],
    own: &OwnBytes,
    front: &mut Buffer,
    rows: &mut RowWriter,
) -> Result<(), NoMemory>
    requires theirs { values.now ≡ indexed_values entity.now name.now }
    requires encoded { own.now.key.now ≡ key_bytes entity.now.key }
    requires kind { own.now.kind_front.now ≡ index_front KindByKey entity.now.key.namespace (kind_of entity.now.key) }
    requires begun { rows.old.begun ≡ [] }
    ensures put { OnOk result (rows.new ≡ record {
      rows = rows.old.rows
          ++ rows_in entity.now (ByProperty name.now descending);
      begun = [];
    }) }
    ensures lawful { OnOk result (All IsLawfulValue values.now) }
    ensures name { OnOk result (AreBytes name.now) }
{
    put_property_front_by(own.kind_front, name, descending, front)?;
    put_rows(
        front.bytes(),
        &[ColumnValues { values, descending }],
        own.key,
        rows,
    )
}
