//! The rows of a range as a scan of what follows their prefix.
ghost use Rattle.std.specs.Prelude.{◌≡◌, ℕ, ◌+◌, ◌≤◌, ◌++◌, List, length, take, drop, option_copied, option_map, IfOk, IfSome, OnOk};
ghost use Rattle.ds_base.specs.Bytes.{AreBytes};
ghost use Rattle.ds_scan.specs.Ranges.{later, end_of_range};

use crate::end::end_of_prefix;
use crate::rows::Rows;
use ds_base::ByteString;
use ds_io::Steps;
use ds_zigzag::Scan;
use std::alloc::{AllocError, Global};
use std::marker::Model;
use std::sync::ledger::Ledger;

/// Of the rows that begin with a prefix what follows it, from a first string on and below a last one: a scan that can be joined
/// with others. Its strings are the rests of the rows that are seen, its passed strings those of the unseen ones, one for each
/// version. Contracts see the rows and the range.
///
/// Each seek is one seek of its rows, which begins near the place where the last one ended and ends at the end of the range. The
/// string that is sought is put into one buffer, which grows to the longest of them.
#[derive(Drop)]
pub struct RangeScan<R> {
    rows: R,
    // The prefix, and behind it what was sought last.
    sought: Vec<u8>,
    // The length of the prefix.
    front: usize,
    low: ByteString,
    // The row below which the range is. Where the rests have a bound it is the prefix with that bound, else the least string
    // above all that begin with the prefix.
    end: Option<ByteString>,
    bounded: bool,
    // Where the last seek of the rows ended.
    near: u64,
}

impl<R> Model for RangeScan<R> {
    ghost use Rattle.ds_scan.specs.Ranges.{Ranged};
    ghost use Rattle.ds_scan.specs.Kept.{range_of, IsKept};

    ghost Value = { Ranged R };

    ghost view = { λ s. record { rows = s.rows; range = range_of s.sought.items s.front s.low s.bounded s.end } };

    ghost invariant = { λ s. IsKept s.sought.items s.front s.bounded s.end };
}

impl<R: Drop> RangeScan<R> {
    /// The scan of the rows that begin with `prefix` and of which the rest, which is what follows the prefix, isn't below `low`
    /// and is below `high` where that is given. Both bound the rest, without the prefix; an empty `low` bounds nothing. Refused:
    /// there was no memory for the copies of prefix and bounds.
    pub fn make(
        alloc: Global,
        rows: R,
        prefix: &[u8],
        low: &[u8],
        high: Option<&[u8]>,
    ) -> Result<RangeScan<R>, AllocError>
        ensures { IfOk result (λ scan. scan ≡ record {
          rows = rows;
          range = record {
            prefix = prefix.now;
            low = low.now;
            high =
                option_copied high.entry;
          };
        }) }
    {
        let sought = Vec::from_slice(alloc, prefix)?;
        let low = ByteString::of(alloc, low)?;
        let end = end_of_range(alloc, prefix, high)?;
        Ok(RangeScan {
            rows,
            sought,
            front: prefix.len(),
            low,
            end,
            bounded: high.is_some(),
            near: 0,
        })
    }
}

impl<R: Rows + Drop> Scan for RangeScan<R> {
    ghost use Rattle.ds_scan.specs.Ranges.{rests};

    ghost ledger = { R.ledger };

    ghost strings = { λ s. rests s.range (R.seen s.rows) };

    ghost passed = { λ s. rests s.range (R.unseen s.rows) };

    fn seek<L: Ledger>(
        &mut self,
        at_least: &[u8],
        steps: &mut Steps<L>,
    ) -> Result<Option<&[u8]>, AllocError> {
        aim(&mut self.sought, self.front, self.low.bytes(), at_least)?;
        let found = self.rows.seek_near(
            self.sought.as_slice(),
            bytes_of(&self.end),
            &mut self.near,
            steps,
        );
        Ok(rest_of(found, self.front))
    }
}

/// The row below which the range is.
fn end_of_range(
    alloc: Global,
    prefix: &[u8],
    high: Option<&[u8]>,
) -> Result<Option<ByteString>, AllocError>
    ensures { IfOk result (λ end. end ≡ end_of_range prefix.now (option_copied high.entry)) }
{
    match high {
        Some(high) => {
            let mut end = ByteString::of(alloc, prefix)?;
            end.append(high)?;
            Ok(Some(end))
        }
        None => end_of_prefix(alloc, prefix),
    }
}

/// Puts the string from which on is sought behind the prefix, which stays: `at_least`, or `low` where that is above it. Where it
/// is refused only the prefix stays.
fn aim(sought: &mut Vec<u8>, front: usize, low: &[u8], at_least: &[u8]) -> Result<(), AllocError>
    requires { front ≤ length sought.old.items }
    ensures aimed { OnOk result (sought.new.items ≡ take front sought.old.items ++ later low.now at_least.now) }
    ensures same_front { take front sought.new.items ≡ take front sought.old.items }
    ensures within { front ≤ length sought.new.items }
{
    let from = if at_least.cmp(low).is_lt() {
        low
    } else {
        at_least
    };
    sought.truncate(front);
    sought.extend_from_slice(from)
}

fn bytes_of(text: &Option<ByteString>) -> Option<&[u8]>
    ensures { option_copied result ≡ text.now }
{
    match text {
        Some(text) => Some(text.bytes()),
        None => None,
    }
}

/// What follows the first `front` bytes of a row, which is bytes and has that many.
fn rest_of(row: Option<&[u8]>, front: usize) -> Option<&[u8]>
    requires { IfSome row (λ r. AreBytes r.now → front ≤ length r.now) }
    ensures rest { option_copied result ≡ option_map (drop front) (option_copied row.entry) }
    ensures of_bytes { IfSome row.entry (λ r. AreBytes r.now) }
{
    match row {
        Some(row) => Some(behind(row, front)),
        None => None,
    }
}

fn behind(row: &[u8], front: usize) -> &[u8]
    requires { AreBytes row.now → front ≤ length row.now }
    ensures rest { result.now ≡ drop front row.now }
    ensures of_bytes { AreBytes row.now }
{
    &row[front..]
}
