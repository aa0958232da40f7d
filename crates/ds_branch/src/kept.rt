//! The rows of an answer, kept as they are reached.
ghost use Rattle.std.specs.Prelude.{◌≡◌, ◌<◌, ◌≤◌, ℕ, List, [], ◌∷◌, ◌++◌, ◌||◌, true, cond, length, map, nat_eq, not, None, Some};
ghost use Rattle.std.specs.Prelude.{IfOk, OnOk};
ghost use Rattle.std.specs.Cmp.Lexicographic.{pointwise};
ghost use Rattle.std.specs.List.{list_any};
ghost use Rattle.ds_base.specs.KeyColumn.{is_key_name};
ghost use Rattle.ds_base.specs.declared.column.Column.{Column};
ghost use Rattle.ds_cursor.specs.RowsOfColumns.{IsRowOf};
ghost use Rattle.ds_pages.specs.Marks.{is_same};
ghost use Rattle.ds_pages.specs.Places.{placed};
ghost use Rattle.ds_pages.specs.Slots.{slot_of};
ghost use Rattle.ds_query.specs.Reasons.{has_name};
ghost use Rattle.ds_query.specs.declared.row.Row.{Row};
ghost use Rattle.ds_branch.specs.Behind.{IsCollected};
ghost use Rattle.ds_branch.specs.Kept.{are_projected, is_known, with_one, with_row_if, AreKept, AreOfKeys, AreTold, IsBehind, IsPutByKey};
ghost use Rattle.ds_branch.specs.Kept.{IsSameKind};

use crate::behind::RowsBehind;
use crate::key_bytes::KeyBytes;
use crate::reading::{key_bytes, room_for_values, row_from, row_of};
use ds_base::{ByteString, Column, IndexValue, NoMemory, TextString, is_key_name};
use ds_pages::FirstRows;
use ds_query::{Place, Row, RowList};
use std::alloc::Global;
use std::collections::HashSet;

/// Rows in the order in which they were reached, of each mark the first. Where each value is projected, or there are none, a row is told by
/// its mark, and as no row is reached twice no mark is either: then all are taken, and none is compared with those before it. Where nothing
/// is projected a mark is a key, and a set of keys, as they stand in the places of rows, tells which are known. In both cases the first so
/// many rows are counted and not read. The places of all are kept where they are asked for.
#[derive(Drop)]
pub(crate) struct KeptRows {
    alloc: Global,
    keeps_all: bool,
    // Whether nothing is projected.
    by_key: bool,
    // How many rows at the front aren't asked for, and how many were passed over.
    skip: u32,
    skipped: u32,
    keeps_places: bool,
    // The rows behind them where all are taken, or of each key the first.
    whole: Vec<Row>,
    // The bytes of their keys and of those that were passed over, where of each key the first is taken.
    keys: HashSet<KeyBytes>,
    // Where the values of a row are read that is passed over.
    values: Vec<IndexValue>,
    // The rows otherwise, those at the front too.
    firsts: FirstRows,
    // The place of the last row that was taken.
    last: Vec<u8>,
    // The places of all that were taken, if they are kept.
    places: Vec<ByteString>,
}

impl KeptRows {
    /// No row yet, of rows of these columns with these names projected, of which the first so many aren't asked for, and whose places are
    /// kept or aren't. Refused: lack of memory.
    pub(crate) fn new(
        alloc: Global,
        columns: &[Column],
        names: &[TextString],
        skip: u32,
        keeps_places: bool,
    ) -> Result<KeptRows, NoMemory>
        ensures all { IfOk result (λ k. k.keeps_all ≡ are_projected names.now columns.now) }
        ensures slots { IfOk result (λ k. k.firsts.slots ≡ map (slot_of columns.now) names.now) }
        ensures skip { IfOk result (λ k. k.skip ≡ skip) }
        ensures places { IfOk result (λ k. k.keeps_places ≡ keeps_places) }
        ensures none { IfOk result (λ k. AreKept columns.now k []) }
    {
        let firsts = FirstRows::new(alloc, columns, names)?;
        Ok(KeptRows {
            alloc,
            keeps_all: are_projected(names, columns),
            by_key: names.is_empty(),
            skip,
            skipped: 0,
            keeps_places,
            whole: Vec::new(alloc),
            keys: HashSet::new(alloc),
            values: Vec::new(alloc),
            firsts,
            last: Vec::new(alloc),
            places: Vec::new(alloc),
        })
    }

    /// Whether rows are kept whole and in a list, each as it is taken.
    fn is_whole(&self) -> bool
        ensures { result ≡ (self.now.keeps_all || self.now.by_key) }
    {
        self.keeps_all || self.by_key
    }

    /// How many rows were taken. It takes no memory.
    pub(crate) fn len(&self) -> usize
        ensures { (columns : List Column) (rows : List Row) → AreKept columns self.now rows → result ≡ length rows }
    {
        if self.is_whole() {
            self.skipped as usize + self.whole.len()
        } else {
            self.firsts.len()
        }
    }

    /// Takes the row whose place it is, where all are taken or no row of its mark was. Refused: lack of memory.
    pub(crate) fn put(&mut self, columns: &[Column], place: &[u8]) -> Result<(), NoMemory>
        requires row { IsRowOf columns.now place.now }
        ensures rows { (rows : List Row) (r : IsRowOf columns.now place.now) → AreKept columns.now self.old rows → OnOk result
            (AreKept columns.now self.new (with_one self.old.keeps_all self.old.firsts.slots rows (placed columns.now r.row))) }
        ensures same { IsSameKind self.old self.new }
    {
        let is_new = self.take(columns, place)?;
        if !is_new {
            return Ok(());
        }
        self.last.clear();
        self.last.extend_from_slice(place)?;
        put_place(self.alloc, self.keeps_places, place, &mut self.places)?;
        Ok(())
    }

    /// The same without its place; whether the row was taken.
    fn take(&mut self, columns: &[Column], place: &[u8]) -> Result<bool, NoMemory>
        requires row { IsRowOf columns.now place.now }
        ensures told { (rows : List Row) (r : IsRowOf columns.now place.now) → AreTold columns.now self.old rows
            → IfOk result (λ is_new. AreTold columns.now self.new (with_row_if is_new rows (placed columns.now r.row))
            × (is_new ≡ not (is_known self.old.keeps_all self.old.firsts.slots rows (placed columns.now r.row)))) }
        ensures same { IsSameKind self.old self.new }
        ensures last { self.new.last.items ≡ self.old.last.items }
        ensures places { self.new.places.items ≡ self.old.places.items }
    {
        if self.keeps_all {
            put_behind(
                self.alloc,
                columns,
                place,
                self.skip,
                &mut self.skipped,
                &mut self.whole,
            )
        } else if self.by_key {
            put_by_key(
                self.alloc,
                columns,
                place,
                self.skip,
                &mut self.skipped,
                &mut self.whole,
                &mut self.keys,
                &mut self.values,
            )
        } else {
            put_by_mark(self.alloc, columns, place, &mut self.firsts)
        }
    }

    /// The rows that were taken. They are moved.
    pub(crate) fn finish(self) -> RowsBehind
        ensures { (columns : List Column) (rows : List Row) → AreKept columns self rows
            → IsCollected columns self.skip self.keeps_places rows result }
    {
        let count = self.len();
        let is_whole = self.is_whole();
        let skip = self.skip;
        let last = last_place(count, self.last);
        if is_whole {
            RowsBehind {
                rows: RowList::from(self.whole),
                left: 0,
                count,
                last,
                places: self.places,
            }
        } else {
            RowsBehind {
                rows: self.firsts.finish(),
                left: skip,
                count,
                last,
                places: self.places,
            }
        }
    }
}

/// The place of the last row, if there are rows.
fn last_place(count: usize, last: Vec<u8>) -> Option<Place>
    ensures none { count ≡ 0 → result ≡ None }
    ensures some { 0 < count → result ≡ Some (record { bytes = last.items }) }
{
    if count == 0 {
        return None;
    }
    Some(Place {
        bytes: ByteString::from_vec(last),
    })
}

/// Puts a copy of the place behind the others, if places are kept.
fn put_place(
    alloc: Global,
    keeps_places: bool,
    place: &[u8],
    places: &mut Vec<ByteString>,
) -> Result<(), NoMemory>
    ensures { OnOk result (places.new.items ≡ cond keeps_places (places.old.items ++ place.now ∷ []) places.old.items) }
{
    if !keeps_places {
        return Ok(());
    }
    let copy = ByteString::of(alloc, place)?;
    Ok(places.push(copy)?)
}

/// Takes a row: one at the front is counted, and one behind is read.
fn put_behind(
    alloc: Global,
    columns: &[Column],
    place: &[u8],
    skip: u32,
    skipped: &mut u32,
    whole: &mut Vec<Row>,
) -> Result<bool, NoMemory>
    requires row { IsRowOf columns.now place.now }
    ensures { (rows : List Row) (r : IsRowOf columns.now place.now) → IsBehind skip skipped.old whole.old.items rows
        → IfOk result (λ is_new. IsBehind skip skipped.new whole.new.items (with_row_if is_new rows (placed columns.now r.row))
        × (is_new ≡ true)) }
{
    if *skipped < skip {
        *skipped += 1;
        return Ok(true);
    }
    let row = row_of(alloc, columns, place)?;
    whole.push(row)?;
    Ok(true)
}

/// Takes a row whose key is new: of one at the front its key alone is kept.
fn put_by_key(
    alloc: Global,
    columns: &[Column],
    place: &[u8],
    skip: u32,
    skipped: &mut u32,
    whole: &mut Vec<Row>,
    keys: &mut HashSet<KeyBytes>,
    values: &mut Vec<IndexValue>,
) -> Result<bool, NoMemory>
    requires row { IsRowOf columns.now place.now }
    ensures { (rows : List Row) (r : IsRowOf columns.now place.now)
        → AreOfKeys columns.now skip skipped.old whole.old.items keys.old.keys rows
        → IfOk result (IsPutByKey columns.now skip skipped.new whole.new.items keys.new.keys rows (placed columns.now r.row)) }
{
    if *skipped < skip {
        pass_by_key(alloc, columns, place, skip, skipped, whole, keys, values)
    } else {
        read_by_key(alloc, columns, place, skip, skipped, whole, keys)
    }
}

/// The same at the front.
fn pass_by_key(
    alloc: Global,
    columns: &[Column],
    place: &[u8],
    skip: u32,
    skipped: &mut u32,
    whole: &mut Vec<Row>,
    keys: &mut HashSet<KeyBytes>,
    values: &mut Vec<IndexValue>,
) -> Result<bool, NoMemory>
    requires row { IsRowOf columns.now place.now }
    requires front { skipped.old < skip }
    ensures { (rows : List Row) (r : IsRowOf columns.now place.now)
        → AreOfKeys columns.now skip skipped.old whole.old.items keys.old.keys rows
        → IfOk result (IsPutByKey columns.now skip skipped.new whole.new.items keys.new.keys rows (placed columns.now r.row)) }
{
    values.clear();
    let key = key_bytes(alloc, columns, place, values)?;
    let is_new = add_key(alloc, keys, key)?;
    if !is_new {
        return Ok(false);
    }
    *skipped += 1;
    Ok(true)
}

/// The same behind the front.
fn read_by_key(
    alloc: Global,
    columns: &[Column],
    place: &[u8],
    skip: u32,
    skipped: &mut u32,
    whole: &mut Vec<Row>,
    keys: &mut HashSet<KeyBytes>,
) -> Result<bool, NoMemory>
    requires row { IsRowOf columns.now place.now }
    requires behind { skip ≤ skipped.old }
    ensures { (rows : List Row) (r : IsRowOf columns.now place.now)
        → AreOfKeys columns.now skip skipped.old whole.old.items keys.old.keys rows
        → IfOk result (IsPutByKey columns.now skip skipped.new whole.new.items keys.new.keys rows (placed columns.now r.row)) }
{
    let mut values = room_for_values(alloc, columns)?;
    let key = key_bytes(alloc, columns, place, &mut values)?;
    let is_new = add_key(alloc, keys, key)?;
    if !is_new {
        return Ok(false);
    }
    let row = row_from(alloc, columns, place, values, key)?;
    whole.push(row)?;
    Ok(true)
}

/// Puts the bytes of a key among the others; whether they are new.
fn add_key(alloc: Global, keys: &mut HashSet<KeyBytes>, key: &[u8]) -> Result<bool, NoMemory>
    ensures taken { IfOk result (λ is_new. is_new ≡ not (list_any (pointwise nat_eq key.now) keys.old.keys)) }
    ensures keys { OnOk result ((other : List ℕ) → list_any (pointwise nat_eq other) keys.new.keys
        ≡ cond (pointwise nat_eq key.now other) true (list_any (pointwise nat_eq other) keys.old.keys)) }
{
    let key = KeyBytes::of(alloc, key)?;
    Ok(keys.insert(key)?)
}

/// Takes a row of a new mark.
fn put_by_mark(
    alloc: Global,
    columns: &[Column],
    place: &[u8],
    firsts: &mut FirstRows,
) -> Result<bool, NoMemory>
    requires row { IsRowOf columns.now place.now }
    ensures rows { (r : IsRowOf columns.now place.now) → IfOk result (λ is_new. (firsts.new.rows
        ≡ with_row_if is_new firsts.old.rows (placed columns.now r.row))
        × (is_new ≡ not (list_any (is_same firsts.old.slots (placed columns.now r.row)) firsts.old.rows))) }
    ensures slots { firsts.new.slots ≡ firsts.old.slots }
{
    let before = firsts.len();
    let row = row_of(alloc, columns, place)?;
    firsts.put(row)?;
    Ok(before < firsts.len())
}

/// Whether each column is `__key__` or projected.
fn are_projected(names: &[TextString], columns: &[Column]) -> bool
    ensures { result ≡ are_projected names.now columns.now }
{
    columns.iter().all(|column| is_projected(names, column))
}

fn is_projected(names: &[TextString], column: &Column) -> bool
    ensures { result ≡ (is_key_name column.now.name || has_name names.now column.now.name) }
{
    is_key_name(&column.name) || has_name(names, &column.name)
}

fn has_name(names: &[TextString], name: &TextString) -> bool
    ensures { result ≡ has_name names.now name.now }
{
    names.iter().any(|other| name.text() == other.text())
}
