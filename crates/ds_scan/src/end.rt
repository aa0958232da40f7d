//! Where the rows that begin with a prefix end.
ghost use Rattle.std.specs.Prelude.{◌≡◌, ℕ, ◌+◌, ◌<◌, ◌≤◌, List, length, take, IfOk, slice_index};
ghost use Rattle.ds_table.specs.Versions.{in_range};
ghost use Rattle.ds_base.specs.Bytes.{AreBytes};
ghost use Rattle.ds_scan.specs.Ranges.{begins_with, prefix_end};

use ds_base::ByteString;
use std::alloc::{AllocError, Global};

/// The least string above all that begin with the prefix; `None` exactly where there is none, as all its bytes are 255. So the
/// rows that begin with a prefix are those from the prefix up to but without this end. Refused: lack of memory.
pub fn end_of_prefix(alloc: Global, prefix: &[u8]) -> Result<Option<ByteString>, AllocError>
    ensures value { IfOk result (λ end. end ≡ prefix_end prefix.now) }
    ensures parts { IfOk result (λ end. (row : List ℕ) → AreBytes row → in_range prefix.now end row ≡ begins_with prefix.now row) }
{
    let kept = without_greatest(prefix);
    if kept == 0 {
        return Ok(None);
    }
    let mut end = ByteString::of(alloc, &prefix[..kept - 1])?;
    end.append(&[prefix[kept - 1] + 1])?;
    Ok(Some(end))
}

/// How many bytes are left when the ones at the end that can't rise, those that are 255, are left out.
fn without_greatest(prefix: &[u8]) -> usize
    ensures within { result ≤ length prefix.now }
    ensures same_end { prefix_end (take result prefix.now) ≡ prefix_end prefix.now }
    ensures rises { (i : ℕ) → result ≡ i + 1 → slice_index prefix.now i < 255 }
{
    let mut kept = prefix.len();
    while kept > 0 && prefix[kept - 1] == 255 {
        kept -= 1;
    }
    kept
}
