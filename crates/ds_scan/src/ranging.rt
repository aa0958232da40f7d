//! The scans of a plan.
ghost use Rattle.std.specs.Prelude.{◌≡◌, option_map, All, IfOk, IsTrue};
ghost use Rattle.std.specs.Option.{option_copied};
ghost use Rattle.ds_scan.specs.Ranging.{range_of, ranges_over};
ghost use Rattle.ds_scan.specs.Scans.{IsLawfulScan, IsLawfulEnds};

use crate::bounds::{high_of, low_of};
use crate::prefixes::scan_prefix;
use crate::range::RangeScan;
use crate::stamped::StampedTables;
use ds_base::{Buffer, NoMemory};
use ds_indexdef::Defs;
use ds_planner::ScanPlan;
use ds_query::{Branch, Place};
use ds_rows::Tables;
use std::alloc::Global;

/// The scans of the plan over the tables at the stamp, one for each planned scan: of the rows that begin with what it is bound to what
/// follows, from where the branch's rows stand up to where they end. Refused: lack of memory.
pub fn scans_of<'a, T: Tables>(
    alloc: Global,
    tables: &'a T,
    at: u64,
    branch: &Branch,
    defs: &Defs,
    plan: &ScanPlan,
    end: Option<&Place>,
) -> Result<Vec<RangeScan<StampedTables<'a, T>>>, NoMemory>
    requires { IsTrue (T.keeps tables.now at) }
    ensures scans { IfOk result (λ scans. scans.items
        ≡ ranges_over (record { tables = tables.now; stamp = at }) branch.now defs.now (option_copied end.entry) plan.now.scans) }
    ensures lawful { IfOk result (λ scans. All (IsLawfulScan defs.now) plan.now.scans) }
    ensures ends { IfOk result (λ scans. IsLawfulEnds branch.now) }
{
    let low = low_of(alloc, branch)?;
    let high = high_of(alloc, branch, end)?;
    let below = bytes_of(&high);
    let mut scans = Vec::with_capacity(alloc, plan.scans.len())?;
    for planned in plan.scans.as_slice() {
        let prefix = scan_prefix(alloc, branch, defs, planned)?;
        let rows = StampedTables::new(tables, at);
        let scan = RangeScan::make(alloc, rows, prefix.bytes(), low.bytes(), below)?;
        scans.push(scan)?;
    }
    Ok(scans)
}

fn bytes_of(buffer: &Option<Buffer>) -> Option<&[u8]>
    ensures { option_copied result ≡ option_map (λ b. b.bytes) buffer.now }
{
    match buffer {
        Some(buffer) => Some(buffer.bytes()),
        None => None,
    }
}
