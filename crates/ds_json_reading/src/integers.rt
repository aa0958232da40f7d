//! Numbers from 0 on.
ghost use Rattle.std.specs.Prelude.{◌≡◌};
ghost use Rattle.serde_json.specs.View.{view};
ghost use Rattle.ds_json_reading.specs.Reading.{natural_of, up_to};

use serde_json::Value;

/// The integer from 0 on that stands here. `1.0` and `-0` are no integers.
pub fn natural(value: &Value) -> Option<u64>
    ensures { result ≡ natural_of (view value.now) }
{
    let number = value.as_i64()?;
    if number >= 0 {
        Some(number as u64)
    } else {
        None
    }
}

/// The integer from 0 up to `greatest` that stands here.
pub fn up_to(greatest: u32, value: &Value) -> Option<u32>
    ensures { result ≡ up_to greatest (view value.now) }
{
    let number = natural(value)?;
    if number <= u64::from(greatest) {
        Some(number as u32)
    } else {
        None
    }
}
