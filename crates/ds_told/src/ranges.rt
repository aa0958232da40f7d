//! Whether numbers, or ranges of numbers, are all from a first one on, each once.
ghost use Rattle.std.specs.Prelude.{◌≡◌, ◌≤◌, ◌↔◌, All, IsPermutation, IsTrue, nat_lt, not, ◌&&◌, ◌==◌};
ghost use Rattle.std.specs.List.{range_with_len};
ghost use Rattle.ds_base.specs.Limits.{greatest_id};
ghost use Rattle.ds_told.specs.Told.{AreUpTo, EndWithin, end_from};

use ds_base::limits::FIRST_DRAWN_ID;

/// Whether these are the numbers from 1 to `last`, each once.
pub(crate) fn are_all(mut numbers: Vec<u64>, last: u64) -> bool
    ensures { IsTrue result ↔ IsPermutation numbers.items (range_with_len 1 last) }
{
    numbers.sort_unstable();
    is_range(numbers.as_slice(), last)
}

/// Whether these are the numbers from 1 to `last` in their order.
fn is_range(numbers: &[u64], last: u64) -> bool
    ensures { IsTrue result ↔ (numbers.now ≡ range_with_len 1 last) }
{
    if numbers.len() as u64 != last {
        return false;
    }
    for (i, number) in numbers.iter().enumerate() {
        if *number != i as u64 + 1 {
            return false;
        }
    }
    true
}

/// Where these ranges of ids end, which are together all from the first drawn id on, each once; none where they aren't.
pub(crate) fn end_of(mut drawn: Vec<(u64, u64)>) -> Option<u64>
    requires { All EndWithin drawn.items }
    ensures { AreUpTo drawn.items result }
{
    drawn.sort_unstable_by_key(|range| range.0);
    end_from(FIRST_DRAWN_ID, drawn.as_slice())
}

/// Where ranges end of which each begins where the one before it ends, the first one at `first`; none where one doesn't.
fn end_from(first: u64, drawn: &[(u64, u64)]) -> Option<u64>
    requires within { All EndWithin drawn.now }
    requires first { first ≤ greatest_id }
    ensures { result ≡ end_from first drawn.now }
{
    let mut end = first;
    for range in drawn {
        if is_apart(*range, end) {
            return None;
        }
        end += range.1;
    }
    Some(end)
}

/// Whether a range has ids, and begins elsewhere than where the one before it ends.
fn is_apart(range: (u64, u64), end: u64) -> bool
    ensures { result ≡ (nat_lt 0 range.1 && not (range.0 == end)) }
{
    range.1 > 0 && range.0 != end
}
