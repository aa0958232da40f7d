//! The column of keys: by one name filters, orders, columns and index definitions speak of an entity's key, which is no property.
ghost use Rattle.std.specs.Prelude.{◌≡◌, ◌&&◌};
ghost use Rattle.ds_base.specs.KeyColumn.{is_key_name, is_ascending_key, is_by_key, key_descends};

use crate::column::Column;
use crate::text::TextString;

/// The name of the column of keys. Names of this form are reserved, so no property has it.
pub const KEY_NAME: &str = "__key__";

/// Whether this is the name of the column of keys.
pub fn is_key_name(name: &TextString) -> bool
    ensures { result ≡ is_key_name name.now }
{
    name.text() == KEY_NAME
}

/// Whether the column is that of keys, ascending: the one that ends every index and query that names no other end.
pub fn is_ascending_key(column: &Column) -> bool
    ensures { result ≡ is_ascending_key column.now }
{
    is_key_name(&column.name) && !column.descending
}

/// Whether the columns are that of keys, ascending, alone.
pub fn is_by_key(columns: &[Column]) -> bool
    ensures { result ≡ is_by_key columns.now }
{
    match columns {
        [only] => is_ascending_key(only),
        _ => false,
    }
}

/// Whether a column of keys descends; where there is none, keys ascend.
pub fn key_descends(columns: &[Column]) -> bool
    ensures { result ≡ key_descends columns.now }
{
    columns.iter().any(|column| is_descending_key(column))
}

fn is_descending_key(column: &Column) -> bool
    ensures { result ≡ (is_key_name column.now.name && column.now.descending) }
{
    is_key_name(&column.name) && column.descending
}
