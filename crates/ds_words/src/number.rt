//! Numbers on the command line.
ghost use Rattle.std.specs.Prelude.{◌≡◌, ◌≤◌, ◌<◌, ◌^◌};
ghost use Rattle.ds_words.specs.Form.{is_digits, number_of};

/// The number that a text of at most so many decimal digits stands for, where it lies within these bounds. Leading zeros are
/// digits like others.
pub fn number_of(text: &str, digits: usize, least: u32, greatest: u32) -> Option<u32>
    requires { digits ≤ 5 }
    ensures { result ≡ number_of digits least greatest text.now }
{
    if text.len() > digits || !is_digits(text.as_bytes()) {
        return None;
    }
    let Ok(number) = text.parse::<u32>() else {
        return None;
    };
    if least <= number && number <= greatest {
        Some(number)
    } else {
        None
    }
}

/// Whether all bytes are decimal digits.
fn is_digits(text: &[u8]) -> bool
    ensures { result ≡ is_digits text.now }
{
    text.iter().all(|b| *b >= b'0' && *b <= b'9')
}
