//! The rows of a branch in the merged columns of its query.
ghost use Rattle.std.specs.Prelude.{◌≡◌, length, unwrap_or, IfOk};
ghost use Rattle.ds_base.specs.declared.index_value.IndexValue.TheVariants as index;
ghost use Rattle.ds_query.specs.RowValues.{asked_value, value_columns, value_named};
ghost use Rattle.ds_pages.specs.Columns.{directions};
ghost use Rattle.ds_pages.specs.Extended.{else_asked, extended_values};

use ds_base::{Column, IndexValue, IndexValues, NoMemory, TextString, TryCopy, is_key_name};
use ds_query::{Branch, Pair, asked_value, value_named};
use std::alloc::Global;

/// The values of a branch's row in the merged columns: where a column is none of the branch's it has the least value that the branch
/// asks of the property. A refusal means out of memory.
pub fn extended_values(
    alloc: Global,
    merged: &[Column],
    branch: &Branch,
    values: &IndexValues,
) -> Result<IndexValues, NoMemory>
    ensures values { IfOk result (λ all. all ≡ extended_values merged.now branch.now values.now) }
    ensures long { IfOk result (λ all. length all ≡ length (directions merged.now)) }
{
    let mut all = Vec::with_capacity(alloc, merged.len())?;
    for column in merged {
        if !is_key_name(&column.name) {
            all.push(value_for(alloc, branch, values, &column.name)?)?;
        }
    }
    Ok(IndexValues::from(all))
}

fn value_for(
    alloc: Global,
    branch: &Branch,
    values: &IndexValues,
    name: &TextString,
) -> Result<IndexValue, NoMemory>
    ensures { IfOk result (λ v. v ≡ else_asked (value_named name.now (value_columns branch.now.columns) values.now)
        (asked_value branch.now.equal name.now)) }
{
    match value_named(name, branch.columns.as_slice(), values.as_slice()) {
        Some(value) => value.copy(alloc),
        None => asked_or_null(alloc, branch.equal.as_slice(), name),
    }
}

fn asked_or_null(alloc: Global, pairs: &[Pair], name: &TextString) -> Result<IndexValue, NoMemory>
    ensures { IfOk result (λ v. v ≡ unwrap_or (asked_value pairs.now name.now) index.Null) }
{
    match asked_value(pairs, name) {
        Some(value) => value.copy(alloc),
        None => Ok(IndexValue::Null),
    }
}
