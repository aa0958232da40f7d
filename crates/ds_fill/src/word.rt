//! The word of the command line.
ghost use Rattle.std.specs.Prelude.{◌≡◌, ◌≤◌, map, IfSome};
ghost use Rattle.std.specs.String.{string_bytes};
ghost use Rattle.ds_words.specs.Form.{is_digits, number_of};
ghost use Rattle.ds_fill.specs.Filling.{items_asked};

/// How many items the words ask for: one word of one to six decimal digits, within 1 to 100,000. Leading zeros are digits like others.
pub fn items_asked(words: &[String]) -> Option<u32>
    ensures asked { result ≡ items_asked (map string_bytes words.now) }
    ensures within { IfSome result (λ n. n ≤ 100000) }
{
    if words.len() != 1 {
        return None;
    }
    number_of(words[0].as_str())
}

/// The number that a text of digits stands for, within bounds.
fn number_of(text: &str) -> Option<u32>
    ensures number { result ≡ number_of 6 1 100000 text.now }
    ensures within { IfSome result (λ n. n ≤ 100000) }
{
    if text.len() > 6 || !is_digits(text.as_bytes()) {
        return None;
    }
    let Ok(number) = text.parse::<u32>() else {
        return None;
    };
    if 1 <= number && number <= 100_000 {
        Some(number)
    } else {
        None
    }
}

/// Whether all bytes are decimal digits.
fn is_digits(text: &[u8]) -> bool
    ensures { result ≡ is_digits text.now }
{
    text.iter().all(|b| *b >= b'0' && *b <= b'9')
}
