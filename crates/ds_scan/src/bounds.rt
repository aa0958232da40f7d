//! From where to where the rows of a branch stand.
ghost use Rattle.std.specs.Prelude.{◌≡◌, true, [], ◌++◌, IfOk, OnOk, IsTrue, option_map, Some, cond};
ghost use Rattle.std.specs.Option.{option_copied};
ghost use Rattle.ds_bytes.specs.Encoding.{key_front};
ghost use Rattle.ds_bytes.specs.Lawful.{IsLawfulKey};
ghost use Rattle.ds_base.specs.KeyColumn.{is_key_name, is_by_key};
ghost use Rattle.ds_scan.specs.Bounds.{beyond, begun_with, first_descends, low_at, high_at, first_bound, last_bound};
ghost use Rattle.ds_scan.specs.Bounds.{ancestor_low, ancestor_high, behind_place, greater, lesser_end, low_of, high_of, value_in_column};
ghost use Rattle.ds_scan.specs.Scans.{IsLawfulAncestor, IsLawfulBound, IsLawfulFirst, IsLawfulInColumn};

use ds_base::{Buffer, Column, IndexValue, Key, NoMemory, is_by_key, is_key_name};
use ds_bytes::{encode, encode_key};
use ds_query::{Bound, Branch, Place, Range};
use std::alloc::Global;

/// Ends what begins alike: nothing that follows a value or a key in a row begins with this byte.
const BEYOND: u8 = 0xff;

/// The string from which on the branch's rows stand.
pub(crate) fn low_of(alloc: Global, branch: &Branch) -> Result<Buffer, NoMemory>
    ensures low { IfOk result (λ low. low.bytes ≡ low_of branch.now) }
    ensures first { IfOk result (λ low. IsLawfulBound branch.now.columns (first_bound branch.now.columns branch.now.range)) }
    ensures ancestor { IfOk result (λ low. IsTrue (is_by_key branch.now.columns) → IsLawfulAncestor branch.now.ancestor) }
{
    let columns = branch.columns.as_slice();
    let range = low_at(alloc, columns, first_bound(columns, &branch.range))?;
    let ancestor = ancestor_low(alloc, branch)?;
    Ok(greater(range, ancestor))
}

/// The string below which the branch's rows stand, up to the end place.
pub(crate) fn high_of(
    alloc: Global,
    branch: &Branch,
    end: Option<&Place>,
) -> Result<Option<Buffer>, NoMemory>
    ensures high { IfOk result (λ high. option_map (λ h. h.bytes) high ≡ high_of branch.now (option_copied end.entry)) }
    ensures last { IfOk result (λ high. IsLawfulBound branch.now.columns (last_bound branch.now.columns branch.now.range)) }
{
    let columns = branch.columns.as_slice();
    let range = high_at(alloc, columns, last_bound(columns, &branch.range))?;
    let ancestor = ancestor_high(alloc, branch)?;
    let end = behind_end(alloc, end)?;
    Ok(lesser_end(lesser_end(range, ancestor), end))
}

/// The bound that comes first in the order of the first column.
fn first_bound<'a>(columns: &[Column], range: &'a Range) -> &'a Option<Bound>
    ensures { result.now ≡ first_bound columns.now range.now }
{
    if first_descends(columns) {
        &range.upper
    } else {
        &range.lower
    }
}

/// The bound that comes last in the order of the first column.
fn last_bound<'a>(columns: &[Column], range: &'a Range) -> &'a Option<Bound>
    ensures { result.now ≡ last_bound columns.now range.now }
{
    if first_descends(columns) {
        &range.lower
    } else {
        &range.upper
    }
}

fn first_descends(columns: &[Column]) -> bool
    ensures { result ≡ first_descends columns.now }
{
    match columns {
        [first, ..] => first.descending,
        [] => false,
    }
}

fn low_at(alloc: Global, columns: &[Column], bound: &Option<Bound>) -> Result<Buffer, NoMemory>
    ensures low { IfOk result (λ low. low.bytes ≡ low_at columns.now bound.now) }
    ensures lawful { IfOk result (λ low. IsLawfulBound columns.now bound.now) }
{
    match bound {
        Some(bound) => begun_with(alloc, columns, &bound.value, !bound.inclusive),
        None => Ok(Buffer::new(alloc)),
    }
}

fn high_at(
    alloc: Global,
    columns: &[Column],
    bound: &Option<Bound>,
) -> Result<Option<Buffer>, NoMemory>
    ensures high { IfOk result (λ high. option_map (λ h. h.bytes) high ≡ high_at columns.now bound.now) }
    ensures lawful { IfOk result (λ high. IsLawfulBound columns.now bound.now) }
{
    match bound {
        Some(bound) => Ok(Some(begun_with(alloc, columns, &bound.value, bound.inclusive)?)),
        None => Ok(None),
    }
}

/// What rows of these columns begin with that have the value in the first of them, or what is above all that begin so.
fn begun_with(
    alloc: Global,
    columns: &[Column],
    value: &IndexValue,
    behind: bool,
) -> Result<Buffer, NoMemory>
    ensures begun { IfOk result (λ b. b.bytes ≡ begun_with columns.now value.now ++ cond behind beyond []) }
    ensures lawful { IfOk result (λ b. IsLawfulFirst columns.now value.now) }
{
    let mut bytes = Buffer::new(alloc);
    if let [first, ..] = columns {
        put_value(first, value, &mut bytes)?;
    }
    if behind {
        bytes.append(&[BEYOND])?;
    }
    Ok(bytes)
}

fn put_value(column: &Column, value: &IndexValue, bytes: &mut Buffer) -> Result<(), NoMemory>
    ensures put { OnOk result (bytes.new.bytes
        ≡ bytes.old.bytes ++ value_in_column (is_key_name column.now.name) column.now.descending value.now) }
    ensures lawful { OnOk result (IsLawfulInColumn (is_key_name column.now.name) value.now) }
{
    if is_key_name(&column.name) {
        put_key(column.descending, value, bytes)
    } else {
        encode(value, column.descending, bytes)
    }
}

/// Puts a key without its class; nothing where the value is none.
fn put_key(descending: bool, value: &IndexValue, bytes: &mut Buffer) -> Result<(), NoMemory>
    ensures put { OnOk result (bytes.new.bytes ≡ bytes.old.bytes ++ value_in_column true descending value.now) }
    ensures lawful { OnOk result (IsLawfulInColumn true value.now) }
{
    match value {
        IndexValue::Key(key) => encode_key(key, descending, bytes),
        _ => Ok(()),
    }
}

/// Where the rows are in the order of keys, those under the ancestor begin here.
fn ancestor_low(alloc: Global, branch: &Branch) -> Result<Buffer, NoMemory>
    ensures low { IfOk result (λ low. low.bytes ≡ ancestor_low branch.now) }
    ensures lawful { IfOk result (λ low. IsTrue (is_by_key branch.now.columns) → IsLawfulAncestor branch.now.ancestor) }
{
    match &branch.ancestor {
        Some(ancestor) if is_by_key(branch.columns.as_slice()) => key_front(alloc, ancestor),
        _ => Ok(Buffer::new(alloc)),
    }
}

fn ancestor_high(alloc: Global, branch: &Branch) -> Result<Option<Buffer>, NoMemory>
    ensures { IfOk result (λ high. option_map (λ h. h.bytes) high ≡ ancestor_high branch.now) }
{
    match &branch.ancestor {
        Some(ancestor) if is_by_key(branch.columns.as_slice()) => {
            let mut front = key_front(alloc, ancestor)?;
            front.append(&[BEYOND])?;
            Ok(Some(front))
        }
        _ => Ok(None),
    }
}

/// What the keys under an ancestor begin with: its encoding without the byte that ends its path.
fn key_front(alloc: Global, ancestor: &Key) -> Result<Buffer, NoMemory>
    ensures front { IfOk result (λ front. front.bytes ≡ key_front ancestor.now) }
    ensures lawful { IfOk result (λ front. IsLawfulKey ancestor.now) }
{
    let mut front = Buffer::new(alloc);
    encode_key(ancestor, false, &mut front)?;
    let length = front.bytes().len();
    front.truncate(length - 1);
    Ok(front)
}

/// The first string above the end place.
fn behind_end(alloc: Global, end: Option<&Place>) -> Result<Option<Buffer>, NoMemory>
    ensures { IfOk result (λ high. option_map (λ h. h.bytes) high ≡ option_map behind_place (option_copied end.entry)) }
{
    match end {
        Some(end) => {
            let mut behind = Buffer::new(alloc);
            behind.append(end.bytes.bytes())?;
            behind.append(&[0])?;
            Ok(Some(behind))
        }
        None => Ok(None),
    }
}

fn greater(a: Buffer, b: Buffer) -> Buffer
    ensures { result.bytes ≡ greater a.bytes b.bytes }
{
    if a.bytes().cmp(b.bytes()).is_lt() {
        b
    } else {
        a
    }
}

fn lesser(a: Buffer, b: Buffer) -> Buffer
    ensures { lesser_end (Some a.bytes) (Some b.bytes) ≡ Some result.bytes }
{
    if a.bytes().cmp(b.bytes()).is_lt() {
        a
    } else {
        b
    }
}

fn lesser_end(a: Option<Buffer>, b: Option<Buffer>) -> Option<Buffer>
    ensures { option_map (λ h. h.bytes) result ≡ lesser_end (option_map (λ h. h.bytes) a) (option_map (λ h. h.bytes) b) }
{
    match a {
        None => b,
        Some(a) => match b {
            None => Some(a),
            Some(b) => Some(lesser(a, b)),
        },
    }
}
