//! The rows of one index that begin alike: one for each way to take one of the values in each column.
ghost use Rattle.std.specs.Prelude.{◌≡◌, ℕ, ◌<◌, [], ◌++◌, map, All, MatchOption, OnOk};
ghost use Rattle.ds_bytes.specs.Rows.{columns_bytes};
ghost use Rattle.ds_bytes.specs.Lawful.{IsLawfulValue};
ghost use Rattle.ds_rows.specs.IndexedValues.{each_way};
ghost use Rattle.ds_rows.specs.Ways.{ways_count, way_at, lists_of, directions_of, row_of_way};

use crate::row_set::RowWriter;
use ds_base::{IndexValue, NoMemory};
use std::alloc::AllocError;

/// What an entity has in a column of an index.
#[derive(Drop)]
pub(crate) struct ColumnValues<'a> {
    /// The values, each once.
    pub(crate) values: &'a [IndexValue],
    /// Whether the column descends.
    pub(crate) descending: bool,
}

/// Puts one row for each way to take one of the values in each column: the bytes of `front`, the values, each in the direction
/// of its column, and the bytes of `key`. The ways are numbered, and each number tells which values are taken, so that no list
/// of ways is kept.
pub(crate) fn put_rows(
    front: &[u8],
    columns: &[ColumnValues],
    key: &[u8],
    rows: &mut RowWriter,
) -> Result<(), NoMemory>
    requires { rows.old.begun ≡ [] }
    ensures put { OnOk result (rows.new ≡ record {
      rows = rows.old.rows
          ++ map (row_of_way front.now columns.now key.now) (each_way (lists_of columns.now));
      begun = [];
    }) }
    ensures lawful { OnOk result (All (All IsLawfulValue) (each_way (lists_of columns.now))) }
{
    let ways = match count_ways(columns) {
        Some(ways) => ways,
        None => return Err(AllocError),
    };
    for way in 0..ways {
        rows.append(front)?;
        put_way(columns, way, ways, rows)?;
        rows.append(key)?;
        rows.end_row()?;
    }
    Ok(())
}

/// How many ways there are, where the number fits into 64 bits; the rows of more have no room in any memory.
fn count_ways(columns: &[ColumnValues]) -> Option<usize>
    ensures { MatchOption result (Unit {0}) (λ ways. ways ≡ ways_count (lists_of columns.now)) }
{
    let mut ways = 1usize;
    for column in columns {
        ways = match ways.checked_mul(column.values.len()) {
            Some(more) => more,
            None => return none_if_all(columns),
        };
    }
    Some(ways)
}

/// No way, where a column has no value; else none that can be counted.
fn none_if_all(columns: &[ColumnValues]) -> Option<usize>
    ensures { MatchOption result (Unit {0}) (λ ways. ways ≡ ways_count (lists_of columns.now)) }
{
    for column in columns {
        if column.values.is_empty() {
            return Some(0);
        }
    }
    None
}

/// Puts the values of the way of this number, out of so many.
fn put_way(
    columns: &[ColumnValues],
    way: usize,
    ways: usize,
    rows: &mut RowWriter,
) -> Result<(), NoMemory>
    requires below { way < ways }
    requires all { ways ≡ ways_count (lists_of columns.now) }
    ensures put { OnOk result (rows.new ≡ record {
      rows = rows.old.rows;
      begun = rows.old.begun ++ columns_bytes (directions_of columns.now) (way_at (lists_of columns.now) way);
    }) }
    ensures lawful { OnOk result (All IsLawfulValue (way_at (lists_of columns.now) way)) }
{
    let mut stride = ways;
    let mut left = way;
    for column in columns {
        stride /= column.values.len();
        rows.append_value(&column.values[left / stride], column.descending)?;
        left %= stride;
    }
    Ok(())
}
