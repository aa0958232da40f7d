//! Lists of rows, joined.
ghost use Rattle.std.specs.Prelude.{◌≡◌, ◌++◌, IfOk, OnOk};
ghost use Rattle.ds_pages.specs.Pages.{all_rows};

use ds_base::NoMemory;
use ds_query::{Row, RowLists};
use std::alloc::Global;

/// The rows of all lists, one list after another. They are moved. A refusal means out of memory.
pub fn joined(alloc: Global, lists: RowLists) -> Result<Vec<Row>, NoMemory>
    ensures { IfOk result (λ rows. rows.items ≡ all_rows lists) }
{
    let mut rows = Vec::new(alloc);
    for list in lists.into_vec() {
        put_rows(list.into_vec(), &mut rows)?;
    }
    Ok(rows)
}

fn put_rows(list: Vec<Row>, rows: &mut Vec<Row>) -> Result<(), NoMemory>
    ensures { OnOk result (rows.new.items ≡ rows.old.items ++ list.items) }
{
    for row in list {
        rows.push(row)?;
    }
    Ok(())
}
