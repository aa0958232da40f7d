//! The normal form of a query.
ghost use Rattle.std.specs.Prelude.{◌≡◌, ◌≢◌, map, Ok, Err, IfOk, IfErr, IsTrue, List, ℕ};
ghost use Rattle.std.specs.List.{list_all};
ghost use Rattle.ds_base.specs.Keys.{is_namespace};
ghost use Rattle.ds_query.specs.Filters.{has_equality, has_one_of, has_operands};
ghost use Rattle.ds_query.specs.Reasons.{has_name};
ghost use Rattle.ds_query.specs.ColumnLists.{columns_of};
ghost use Rattle.ds_query.specs.Branching.{sorted_pairs, branch_of};
ghost use Rattle.ds_query.specs.Normals.{normal_form, few_branches, normal_of};
ghost use Rattle.ds_query.specs.Lawful.{IsLawfulNormal};

use crate::branch::{Branch, Branches, Normal, Pair, Pairs, Target, copy_target};
use crate::columns::{columns_of, merged_of};
use crate::conditions::Conditions;
use crate::filters::{FilterNames, equality_names, is_several, one_of_names};
use crate::query::Query;
use crate::reasons::reason_of;
use crate::refusal::QueryRefused;
use crate::splitting::{conditions, count_conditions};
use ds_base::limits::MAX_BRANCHES;
use ds_base::{Columns, TryCopy};
use std::alloc::{AllocError, Global};
use std::collections::BTreeSet;

/// The normal form of a query: its branches, and the columns that their rows are united by.
///
/// `Bad` comes exactly where one of the reasons holds of the query as it is written, with the first of them in the order
/// of `Reason`. Where none holds, `TooManySubqueries` comes exactly where there are more than 30 branches, with the lesser
/// of their number and 2^63 - 1. `!=` stands for two branches, first below and then above its value, and `in` for one for
/// each listed value; branches are numbered by the filters as they are written, the last varying fastest.
pub fn normalize(alloc: Global, query: &Query) -> Result<Normal, QueryRefused>
    requires namespace { IsTrue (is_namespace query.now.namespace) }
    requires values { IsTrue (list_all has_operands query.now.filters) }
    ensures ok { IfOk result (λ n. normal_of query.now ≡ Ok n) }
    ensures lawful { IfOk result IsLawfulNormal }
    ensures refused { IfErr result (λ e. e ≢ QueryRefused.NoMemory
        → normal_of query.now ≡ Err e) }
{
    let filters = query.filters.as_slice();
    let names = FilterNames {
        equal: equality_names(alloc, filters)?,
        one_of: one_of_names(alloc, filters)?,
    };
    if let Some(reason) = reason_of(alloc, query, &names.equal)? {
        return Err(QueryRefused::Bad(reason));
    }
    let count = count_conditions(filters);
    if count > MAX_BRANCHES as u64 {
        return Err(QueryRefused::TooManySubqueries { count });
    }
    Ok(normal_form(alloc, query, &names)?)
}

/// The normal form of a query that isn't refused.
fn normal_form(alloc: Global, query: &Query, names: &FilterNames) -> Result<Normal, AllocError>
    requires equal { (n : List ℕ) → has_name names.now.equal n ≡ has_equality query.now.filters n }
    requires one_of { (n : List ℕ) → has_name names.now.one_of n ≡ has_one_of query.now.filters n }
    ensures { IfOk result (λ n. n ≡ normal_form query.now) }
{
    let columns = columns_of(alloc, query, names)?;
    let merged = merged_of(alloc, query, names)?;
    let found = conditions(alloc, query.filters.as_slice())?;
    Ok(Normal {
        branches: branches(alloc, query, &columns, found)?,
        merged,
        several: is_several(query.filters.as_slice()),
    })
}

/// The branch of each of these conditions.
fn branches(
    alloc: Global,
    query: &Query,
    columns: &Columns,
    found: Vec<Conditions>,
) -> Result<Branches, AllocError>
    requires { columns.now ≡ columns_of query.now }
    ensures { IfOk result (λ bs. bs ≡ map (branch_of query.now) found.items) }
{
    let mut branches = Vec::with_capacity(alloc, found.len())?;
    for conditions in found {
        branches.push(branch(alloc, query, columns, conditions)?)?;
    }
    Ok(Branches::from(branches))
}

fn branch(
    alloc: Global,
    query: &Query,
    columns: &Columns,
    conditions: Conditions,
) -> Result<Branch, AllocError>
    requires { columns.now ≡ columns_of query.now }
    ensures { IfOk result (λ b. b ≡ branch_of query.now conditions) }
{
    let Conditions { equal, range } = conditions;
    let equal = sorted_pairs(alloc, equal)?;
    let columns = columns.copy(alloc)?;
    let select = query.select.copy(alloc)?;
    let Target {
        namespace,
        kind,
        ancestor,
    } = copy_target(alloc, &query.namespace, &query.kind, &query.ancestor)?;
    Ok(Branch {
        namespace,
        kind,
        ancestor,
        equal,
        range,
        columns,
        select,
    })
}

/// Each pair once, ascending.
fn sorted_pairs(alloc: Global, pairs: Pairs) -> Result<Pairs, AllocError>
    ensures { IfOk result (λ ps. ps ≡ sorted_pairs pairs) }
{
    let mut sorted = BTreeSet::new(alloc);
    for pair in pairs.into_vec() {
        sorted.insert(pair)?;
    }
    let mut distinct = Vec::with_capacity(alloc, sorted.len())?;
    for pair in sorted {
        distinct.push(pair)?;
    }
    Ok(Pairs::from(distinct))
}
