//! What is claimed of planned scans: laws of the definitions. The functions do nothing.
ghost use Rattle.std.specs.Prelude.{ℕ, Option};
ghost use Rattle.ds_query.specs.declared.row.Place.{Place};
ghost use Rattle.ds_branch.specs.BoundSums.{BoundsAddUp};
ghost use Rattle.ds_branch.specs.ScanLaws.{ScansTellRows, PlansTellRows, BoundsTellRows, ScansHaveFewStrings};

/// The rows of an entity that begin with what a scan is bound to go on with the places of its rows under what the scan binds.
pub fn scans_tell_rows()
    ensures { ScansTellRows }
{}

/// A row stands between the bounds of the scans exactly where its first value is in the branch's range, its key is under the ancestor
/// where the rows are in the order of keys, and its place is up to the end.
pub fn bounds_tell_rows()
    ensures { BoundsTellRows }
{}

/// The strings that the scans of a suiting plan have in common after the start are the places of the branch's rows between the start
/// and the end.
pub fn plans_tell_rows()
    ensures { PlansTellRows }
{}

/// Between two places no scan has more strings than the parts that it binds have rows, nor do the scans pass more.
pub fn scans_have_few_strings()
    ensures { ScansHaveFewStrings }
{}

/// The bounds of the answers of several branches over several shards add up: one more shard or branch adds its own bounds, in either
/// order.
pub fn bounds_add_up()
    ensures { (start end : Option Place) (most : Option ℕ) → BoundsAddUp start end most }
{}
