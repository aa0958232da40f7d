//! What the rows of a query are sorted by.
ghost use Rattle.std.specs.Prelude.{◌≡◌, ◌&&◌, not, map, filter, fold, IfOk, OnOk, OnErr, List, ℕ};
ghost use Rattle.std.specs.Option.{option_copied, option_to_list};
ghost use Rattle.ds_query.specs.Filters.{has_equality, has_one_of};
ghost use Rattle.ds_query.specs.Reasons.{has_name};
ghost use Rattle.ds_query.specs.ColumnLists.{AreNamesOf, with_column, ascending, up_to_key, first_of_each_name, wanted_columns, columns_of};
ghost use Rattle.ds_query.specs.ColumnLists.{merged_of};

use crate::filters::{FilterNames, inequality_of};
use crate::names::NameSet;
use crate::query::Query;
use ds_base::{Column, Columns, KEY_NAME, TextString, is_key_name};
use std::alloc::{AllocError, Global};

/// Columns that are put together, of each name the first.
#[derive(Drop)]
struct Distinct<'a> {
    columns: Vec<Column>,
    /// The columns' names.
    names: NameSet<'a>,
}

impl<'a> Distinct<'a> {
    /// One more column at the end, unless its name is there.
    fn push(&mut self, alloc: Global, name: &'a str, descending: bool) -> Result<(), AllocError>
        requires { AreNamesOf self.old.names self.old.columns.items }
        ensures ok { OnOk result (self.new.columns.items ≡ with_column self.old.columns.items
            (record { name = name.now; descending = descending })) }
        ensures named { OnOk result (AreNamesOf self.new.names self.new.columns.items) }
    {
        if self.names.contains(name) {
            return Ok(());
        }
        let column = Column {
            name: TextString::of(alloc, name)?,
            descending,
        };
        self.columns.push(column)?;
        self.names.insert(name)?;
        Ok(())
    }

    /// The orders up to the first on `__key__`, without those on names of `dropped` that aren't among `kept`.
    fn push_orders(
        &mut self,
        alloc: Global,
        orders: &'a [Column],
        dropped: &NameSet,
        kept: &NameSet,
    ) -> Result<(), AllocError>
        requires { AreNamesOf self.old.names self.old.columns.items }
        ensures ok { OnOk result (self.new.columns.items ≡ fold with_column self.old.columns.items
            (filter (λ c. not (has_name dropped.now c.name && not (has_name kept.now c.name)))
            (up_to_key orders.now))) }
        ensures named { OnOk result (AreNamesOf self.new.names self.new.columns.items) }
    {
        for order in orders {
            let name = order.name.text();
            if !dropped.contains(name) || kept.contains(name) {
                self.push(alloc, name, order.descending)?;
            }
            if is_key_name(&order.name) {
                return Ok(());
            }
        }
        Ok(())
    }

    /// The property, ascending, if there is one.
    fn push_property(
        &mut self,
        alloc: Global,
        property: Option<&'a TextString>,
    ) -> Result<(), AllocError>
        requires { AreNamesOf self.old.names self.old.columns.items }
        ensures ok { OnOk result (self.new.columns.items ≡ fold with_column self.old.columns.items
            (map ascending (option_to_list (option_copied property.entry)))) }
        ensures named { OnOk result (AreNamesOf self.new.names self.new.columns.items) }
    {
        match property {
            Some(name) => self.push(alloc, name.text(), false),
            None => Ok(()),
        }
    }

    /// The properties of these names, ascending.
    fn push_names(&mut self, alloc: Global, names: &'a [TextString]) -> Result<(), AllocError>
        requires { AreNamesOf self.old.names self.old.columns.items }
        ensures ok { OnOk result (self.new.columns.items ≡ fold with_column self.old.columns.items
            (map ascending names.now)) }
        ensures named { OnOk result (AreNamesOf self.new.names self.new.columns.items) }
    {
        for name in names {
            self.push(alloc, name.text(), false)?;
        }
        Ok(())
    }
}

/// The columns of each branch: an order on a property with an equality has no effect.
pub(crate) fn columns_of(
    alloc: Global,
    query: &Query,
    names: &FilterNames,
) -> Result<Columns, AllocError>
    requires { (n : List ℕ) → has_name names.now.equal n ≡ has_equality query.now.filters n }
    ensures { IfOk result (λ columns. columns ≡ columns_of query.now) }
{
    columns_without(alloc, query, &names.equal, &NameSet::new(alloc))
}

/// The columns that the rows of all branches are united by: an order on a property with an `in` stays.
pub(crate) fn merged_of(
    alloc: Global,
    query: &Query,
    names: &FilterNames,
) -> Result<Columns, AllocError>
    requires equal { (n : List ℕ) → has_name names.now.equal n ≡ has_equality query.now.filters n }
    requires one_of { (n : List ℕ) → has_name names.now.one_of n ≡ has_one_of query.now.filters n }
    ensures { IfOk result (λ columns. columns ≡ merged_of query.now) }
{
    columns_without(alloc, query, &names.equal, &names.one_of)
}

/// What the query is to be sorted by, where orders on names of `dropped` that aren't among `kept` have no effect.
fn columns_without(
    alloc: Global,
    query: &Query,
    dropped: &NameSet,
    kept: &NameSet,
) -> Result<Columns, AllocError>
    ensures { IfOk result (λ columns. columns ≡ first_of_each_name (wanted_columns
        (λ n. has_name dropped.now n && not (has_name kept.now n)) query.now)) }
{
    let mut distinct = Distinct {
        columns: Vec::new(alloc),
        names: NameSet::new(alloc),
    };
    distinct.push_orders(alloc, query.orders.as_slice(), dropped, kept)?;
    distinct.push_property(alloc, inequality_of(query.filters.as_slice()))?;
    distinct.push_names(alloc, query.select.projected())?;
    distinct.push(alloc, KEY_NAME, false)?;
    Ok(Columns::from(distinct.columns))
}
