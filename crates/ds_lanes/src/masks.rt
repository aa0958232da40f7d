//! The lanes of a comparison as the bits of a number.
ghost use Rattle.std.specs.Prelude.{◌≡◌, ◌≤◌};
ghost use Rattle.ds_lanes.specs.Hits.{lanes_before};

/// How many lanes come before the first set one: all `lanes` where no bit is set.
#[inline(always)]
pub(crate) fn lanes_before(bits: u64, lanes: usize) -> usize
    requires { lanes ≤ 64 }
    ensures value { result ≡ lanes_before bits lanes }
    ensures few { result ≤ 64 }
{
    if bits == 0 {
        lanes
    } else {
        bits.trailing_zeros() as usize
    }
}
