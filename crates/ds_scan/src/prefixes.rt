//! What the rows of a planned scan begin with.
ghost use Rattle.std.specs.Prelude.{◌≡◌, [], ◌++◌, unwrap_or, option_map, slice_get, Some, IfOk, OnOk};
ghost use Rattle.ds_indexdef.specs.declared.IndexDef.{IndexDef};
ghost use Rattle.ds_rows.specs.Indexes.{ByProperty, Composite};
ghost use Rattle.ds_rows.specs.Rows.{ancestor_bytes};
ghost use Rattle.ds_query.specs.RowValues.{asked_value};
ghost use Rattle.ds_scan.specs.Prefixes.{bound_bytes, columns_of, prefix_in, scan_prefix};
ghost use Rattle.ds_scan.specs.Scans.{IsLawfulAncestor, IsLawfulScan, IsLawfulIn, AreLawfulBound};

use ds_base::{Buffer, Column, Key, NoMemory, TextString};
use ds_bytes::{encode, encode_key};
use ds_indexdef::{Defs, IndexDef};
use ds_planner::{PlannedIndex, PlannedScan};
use ds_query::{Branch, Pair, asked_value};
use ds_rows::fronts::{put_all_front, put_composite_front, put_kind_front, put_property_front};
use std::alloc::Global;

/// What the rows of a planned scan begin with: their index in the branch's namespace and kind, the scan's ancestor, and its
/// values, each in the direction of its column. Refused: lack of memory.
pub(crate) fn scan_prefix(
    alloc: Global,
    branch: &Branch,
    defs: &Defs,
    scan: &PlannedScan,
) -> Result<Buffer, NoMemory>
    ensures prefix { IfOk result (λ p. p.bytes ≡ scan_prefix branch.now defs.now scan.now) }
    ensures lawful { IfOk result (λ p. IsLawfulScan defs.now scan.now) }
{
    let mut prefix = Buffer::new(alloc);
    match &scan.index {
        PlannedIndex::AllByKey => {
            put_all_front(&branch.namespace, &mut prefix)?;
            put_ancestor(&scan.ancestor, &mut prefix)?;
        }
        PlannedIndex::KindByKey => {
            put_kind_front(&branch.namespace, kind_of(branch), &mut prefix)?;
            put_ancestor(&scan.ancestor, &mut prefix)?;
        }
        PlannedIndex::Property { name, descending } => {
            put_property_prefix(branch, scan, name, *descending, &mut prefix)?;
        }
        PlannedIndex::Composite { position } => {
            put_composite_prefix(branch, defs, scan, *position, &mut prefix)?;
        }
    }
    Ok(prefix)
}

fn put_property_prefix(
    branch: &Branch,
    scan: &PlannedScan,
    name: &TextString,
    descending: bool,
    prefix: &mut Buffer,
) -> Result<(), NoMemory>
    ensures put { OnOk result (prefix.new.bytes ≡ prefix_in branch.now scan.now (ByProperty name.now descending)) }
    ensures lawful { OnOk result (IsLawfulIn scan.now (Some (ByProperty name.now descending))) }
{
    put_property_front(&branch.namespace, kind_of(branch), name, descending, prefix)?;
    put_ancestor(&scan.ancestor, prefix)?;
    put_bound(scan.equal.as_slice(), name, descending, prefix)?;
    Ok(())
}

fn put_composite_prefix(
    branch: &Branch,
    defs: &Defs,
    scan: &PlannedScan,
    position: u32,
    prefix: &mut Buffer,
) -> Result<(), NoMemory>
    requires { prefix.old.bytes ≡ [] }
    ensures put { OnOk result (prefix.new.bytes
        ≡ unwrap_or (option_map (prefix_in branch.now scan.now) (option_map (Composite position) (slice_get defs.now position))) []) }
    ensures lawful { OnOk result (IsLawfulIn scan.now (option_map (Composite position) (slice_get defs.now position))) }
{
    match defs.get(position as usize) {
        Some(def) => put_defined_prefix(branch, def, scan, position, prefix),
        None => Ok(()),
    }
}

fn put_defined_prefix(
    branch: &Branch,
    def: &IndexDef,
    scan: &PlannedScan,
    position: u32,
    prefix: &mut Buffer,
) -> Result<(), NoMemory>
    ensures put { OnOk result (prefix.new.bytes ≡ prefix_in branch.now scan.now (Composite position def.now)) }
    ensures lawful { OnOk result (IsLawfulIn scan.now (Some (Composite position def.now))) }
{
    put_composite_front(&branch.namespace, position, prefix)?;
    put_ancestor(&scan.ancestor, prefix)?;
    put_bound_columns(scan.equal.as_slice(), def.columns.as_slice(), prefix)
}

/// The branch's kind, as UTF-8; nothing where it asks for all kinds.
fn kind_of(branch: &Branch) -> &[u8]
    ensures { result.now ≡ unwrap_or branch.now.kind [] }
{
    match &branch.kind {
        Some(kind) => kind.bytes(),
        None => &[],
    }
}

fn put_ancestor(ancestor: &Option<Key>, prefix: &mut Buffer) -> Result<(), NoMemory>
    ensures put { OnOk result (prefix.new.bytes ≡ prefix.old.bytes ++ ancestor_bytes ancestor.now) }
    ensures lawful { OnOk result (IsLawfulAncestor ancestor.now) }
{
    match ancestor {
        Some(ancestor) => encode_key(ancestor, false, prefix),
        None => Ok(()),
    }
}

/// Puts the value of the one column of an index of a property, where the scan is bound to one.
fn put_bound(
    pairs: &[Pair],
    name: &TextString,
    descending: bool,
    prefix: &mut Buffer,
) -> Result<(), NoMemory>
    ensures put { OnOk result (prefix.new.bytes
        ≡ prefix.old.bytes ++ bound_bytes pairs.now (columns_of (ByProperty name.now descending))) }
    ensures lawful { OnOk result (AreLawfulBound pairs.now (columns_of (ByProperty name.now descending))) }
{
    match asked_value(pairs, name) {
        Some(value) => encode(value, descending, prefix),
        None => Ok(()),
    }
}

/// Puts the values of the columns up to the first to which the scan is bound to none.
fn put_bound_columns(
    pairs: &[Pair],
    columns: &[Column],
    prefix: &mut Buffer,
) -> Result<(), NoMemory>
    ensures put { OnOk result (prefix.new.bytes ≡ prefix.old.bytes ++ bound_bytes pairs.now columns.now) }
    ensures lawful { OnOk result (AreLawfulBound pairs.now columns.now) }
{
    for column in columns {
        match asked_value(pairs, &column.name) {
            Some(value) => encode(value, column.descending, prefix)?,
            None => return Ok(()),
        }
    }
    Ok(())
}
