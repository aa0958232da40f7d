//! Whether scans answer a branch together.
ghost use Rattle.std.specs.Prelude.{◌≡◌, ◌&&◌, ◌||◌, not, IsTrue, Option, is_none};
ghost use Rattle.std.specs.List.{list_any, list_all};
ghost use Rattle.ds_query.specs.Lawful.{ends_in_key, IsLawfulBranch};
ghost use Rattle.ds_planner.specs.Indexes.{binds_ancestor};
ghost use Rattle.ds_planner.specs.Suits.{chooses, same_ancestor, bound_ancestor, is_choice, is_scan, are_some, suits};

use crate::indexes::{binds_ancestor, has_flag, is_candidate, is_paired, lead_all};
use crate::pairs::{are_among, chooses, properties_differ};
use crate::planned::{PlannedIndex, PlannedScan, ScanPlan};
use ds_base::Key;
use ds_indexdef::Defs;
use ds_query::{Branch, Pair};

/// Whether the plan answers the branch: it has a scan, each is of an index that may be scanned for the branch, with one of the
/// branch's pairs for each equality property of the index and with the ancestor where its definition has the ancestor flag;
/// each pair of the branch is chosen by one of them; and its ancestor, if there is one, is bound by an index with the ancestor
/// flag, or by a range of keys where the columns are `__key__` ascending alone. It takes no memory.
pub fn suits(plan: &ScanPlan, branch: &Branch, defs: &Defs) -> bool
    requires lawful { IsLawfulBranch branch.now }
    ensures { result ≡ suits branch.now defs.now plan.now.scans }
{
    let scans = plan.scans.as_slice();
    !scans.is_empty()
        && are_scans(branch, defs, scans)
        && choose_each(branch.equal.as_slice(), scans)
        && bind_the_ancestor(branch, defs, scans)
}

fn are_scans(branch: &Branch, defs: &Defs, scans: &[PlannedScan]) -> bool
    requires { IsTrue (ends_in_key branch.now.columns) }
    ensures { result ≡ list_all (is_scan branch.now defs.now) scans.now }
{
    scans.iter().all(|scan| is_scan(branch, defs, scan))
}

fn is_scan(branch: &Branch, defs: &Defs, scan: &PlannedScan) -> bool
    requires { IsTrue (ends_in_key branch.now.columns) }
    ensures { result ≡ is_scan branch.now defs.now scan.now }
{
    is_candidate(branch, defs, &scan.index)
        && is_choice(branch, defs, &scan.index, scan.equal.as_slice())
        && is_bound_ancestor(branch, defs, scan)
}

/// Whether the pairs are one of the branch's for each equality property of the index, and for no other property.
fn is_choice(branch: &Branch, defs: &Defs, index: &PlannedIndex, pairs: &[Pair]) -> bool
    requires { IsTrue (ends_in_key branch.now.columns) }
    ensures { result ≡ is_choice branch.now defs.now index.now pairs.now }
{
    are_among(pairs, branch.equal.as_slice())
        && lead_all(branch, defs, index, pairs)
        && is_paired(branch, defs, index, pairs)
        && properties_differ(pairs)
}

/// Whether the scan has the branch's ancestor where its index's definition has the ancestor flag, and else none.
fn is_bound_ancestor(branch: &Branch, defs: &Defs, scan: &PlannedScan) -> bool
    ensures { result ≡ same_ancestor scan.now.ancestor (bound_ancestor branch.now defs.now scan.now.index) }
{
    if has_flag(defs, &scan.index) {
        same_ancestor(&scan.ancestor, &branch.ancestor)
    } else {
        same_ancestor(&scan.ancestor, &None)
    }
}

fn same_ancestor(a: &Option<Key>, b: &Option<Key>) -> bool
    ensures { result ≡ same_ancestor a.now b.now }
{
    match (a, b) {
        (None, None) => true,
        (Some(a), Some(b)) => *a == *b,
        _ => false,
    }
}

/// Whether each pair is chosen by a scan.
fn choose_each(pairs: &[Pair], scans: &[PlannedScan]) -> bool
    ensures { result ≡ list_all (λ p. list_any (λ s. chooses s.equal p) scans.now) pairs.now }
{
    pairs.iter().all(|pair| any_chooses(scans, pair))
}

fn any_chooses(scans: &[PlannedScan], pair: &Pair) -> bool
    ensures { result ≡ list_any (λ s. chooses s.equal pair.now) scans.now }
{
    scans
        .iter()
        .any(|scan| chooses(scan.equal.as_slice(), pair))
}

/// Whether there is no ancestor, or a scan binds it.
fn bind_the_ancestor(branch: &Branch, defs: &Defs, scans: &[PlannedScan]) -> bool
    ensures { result ≡ (is_none branch.now.ancestor
        || list_any (λ s. binds_ancestor branch.now defs.now s.index) scans.now) }
{
    match &branch.ancestor {
        None => true,
        Some(_) => any_binds_ancestor(branch, defs, scans),
    }
}

fn any_binds_ancestor(branch: &Branch, defs: &Defs, scans: &[PlannedScan]) -> bool
    ensures { result ≡ list_any (λ s. binds_ancestor branch.now defs.now s.index) scans.now }
{
    scans
        .iter()
        .any(|scan| binds_ancestor(branch, defs, &scan.index))
}
