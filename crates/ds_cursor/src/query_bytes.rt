//! A branch as bytes, so that a cursor of one query is never taken for another's.
ghost use Rattle.std.specs.Prelude.{◌≡◌, ◌++◌, ◌∷◌, [], List, ℕ, OnOk, cond};
ghost use Rattle.ds_bytes.specs.Encoding.{escaped, key_bytes, value_bytes};
ghost use Rattle.ds_cursor.specs.QueryBytes.{optional_bytes, listed_bytes, pair_bytes, bound_bytes, bounds_bytes, first_name, range_bytes};
ghost use Rattle.ds_cursor.specs.QueryBytes.{column_bytes, select_bytes, branch_bytes, query_bytes, version_of};

use ds_base::{Buffer, Column, IndexValue, Key, NoMemory, TextString};
use ds_bytes::{encode, encode_key, encode_text};
use ds_query::{Bound, Branch, Pair, Range, Select};

/// The tags in front of what may be absent.
const ABSENT: u8 = 0x00;

const PRESENT: u8 = 0x01;

/// The tags of a list: its end, and one more item.
const END: u8 = 0x00;

const ITEM: u8 = 0x01;

/// The tags of a bound that is there.
const EXCLUSIVE: u8 = 0x01;

const INCLUSIVE: u8 = 0x02;

/// The tags of a column's direction.
const ASCENDING: u8 = 0x00;

const DESCENDING: u8 = 0x01;

/// The tags of what a branch gives.
const ENTITIES: u8 = 0x00;

const KEYS: u8 = 0x01;

const PROJECTION: u8 = 0x02;

/// What has bytes of its own among the query bytes.
trait Put {
    ghost bytes: { Self → List ℕ };

    /// Puts them at the end. A refusal means out of memory.
    fn put(&self, onto: &mut Buffer) -> Result<(), NoMemory>
        ensures { OnOk result (onto.new.bytes ≡ onto.old.bytes ++ bytes self.now) };
}

impl Put for TextString {
    ghost bytes = { escaped };

    fn put(&self, onto: &mut Buffer) -> Result<(), NoMemory> {
        encode_text(self.bytes(), onto)
    }
}

impl Put for Key {
    ghost bytes = { key_bytes };

    fn put(&self, onto: &mut Buffer) -> Result<(), NoMemory> {
        encode_key(self, false, onto)
    }
}

impl Put for Pair {
    ghost bytes = { pair_bytes };

    fn put(&self, onto: &mut Buffer) -> Result<(), NoMemory> {
        encode_text(self.property.bytes(), onto)?;
        encode(&self.value, false, onto)
    }
}

impl Put for Column {
    ghost bytes = { column_bytes };

    fn put(&self, onto: &mut Buffer) -> Result<(), NoMemory> {
        encode_text(self.name.bytes(), onto)?;
        onto.append(&[if self.descending {
            DESCENDING
        } else {
            ASCENDING
        }])
    }
}

/// The version of the branch's cursors: 1 for the default namespace, and 2 for another one.
pub(crate) fn version_of(branch: &Branch) -> u8
    ensures { result ≡ version_of branch.now }
{
    if branch.namespace.bytes().is_empty() {
        1
    } else {
        2
    }
}

/// Puts the query bytes of the branch at the end. A refusal means out of memory.
pub(crate) fn put_query(branch: &Branch, onto: &mut Buffer) -> Result<(), NoMemory>
    ensures { OnOk result (onto.new.bytes ≡ onto.old.bytes ++ query_bytes branch.now) }
{
    let namespace = branch.namespace.bytes();
    if !namespace.is_empty() {
        encode_text(namespace, onto)?;
    }
    put_branch(branch, onto)
}

/// Puts a branch without its namespace.
fn put_branch(branch: &Branch, onto: &mut Buffer) -> Result<(), NoMemory>
    ensures { OnOk result (onto.new.bytes ≡ onto.old.bytes ++ branch_bytes branch.now) }
{
    let columns = branch.columns.as_slice();
    put_optional(&branch.kind, onto)?;
    put_optional(&branch.ancestor, onto)?;
    put_list(branch.equal.as_slice(), onto)?;
    put_range(columns, &branch.range, onto)?;
    put_list(columns, onto)?;
    put_select(&branch.select, onto)
}

fn put_optional<T: Put>(part: &Option<T>, onto: &mut Buffer) -> Result<(), NoMemory>
    ensures { OnOk result (onto.new.bytes ≡ onto.old.bytes ++ optional_bytes T.bytes part.now) }
{
    match part {
        None => onto.append(&[ABSENT]),
        Some(part) => {
            onto.append(&[PRESENT])?;
            part.put(onto)
        }
    }
}

fn put_list<T: Put>(parts: &[T], onto: &mut Buffer) -> Result<(), NoMemory>
    ensures { OnOk result (onto.new.bytes ≡ onto.old.bytes ++ listed_bytes T.bytes parts.now) }
{
    for part in parts {
        onto.append(&[ITEM])?;
        part.put(onto)?;
    }
    onto.append(&[END])
}

fn put_range(columns: &[Column], range: &Range, onto: &mut Buffer) -> Result<(), NoMemory>
    ensures { OnOk result (onto.new.bytes ≡ onto.old.bytes ++ range_bytes columns.now range.now) }
{
    if range.lower.is_none() && range.upper.is_none() {
        return onto.append(&[ABSENT]);
    }
    onto.append(&[PRESENT])?;
    encode_text(first_name(columns), onto)?;
    put_bound(&range.lower, onto)?;
    put_bound(&range.upper, onto)
}

/// The name of the first column, which a range is on.
fn first_name(columns: &[Column]) -> &[u8]
    ensures { result.now ≡ first_name columns.now }
{
    match columns {
        [] => &[],
        [first, ..] => first.name.bytes(),
    }
}

fn put_bound(bound: &Option<Bound>, onto: &mut Buffer) -> Result<(), NoMemory>
    ensures { OnOk result (onto.new.bytes ≡ onto.old.bytes ++ bound_bytes bound.now) }
{
    match bound {
        None => onto.append(&[ABSENT]),
        Some(bound) => {
            onto.append(&[if bound.inclusive {
                INCLUSIVE
            } else {
                EXCLUSIVE
            }])?;
            encode(&bound.value, false, onto)
        }
    }
}

fn put_select(select: &Select, onto: &mut Buffer) -> Result<(), NoMemory>
    ensures { OnOk result (onto.new.bytes ≡ onto.old.bytes ++ select_bytes select.now) }
{
    match select {
        Select::Entities => onto.append(&[ENTITIES]),
        Select::Keys => onto.append(&[KEYS]),
        Select::Projection(names) => {
            onto.append(&[PROJECTION])?;
            put_list(names.as_slice(), onto)
        }
    }
}
