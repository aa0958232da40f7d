//! Runs of bytes of one class, and where they end.
ghost use Rattle.std.specs.Prelude.{◌≡◌, ◌-◌, ◌<◌, ◌≤◌, ◌+◌, drop, take, length, slice_index};
ghost use Rattle.std.specs.List.{list_all, prefix_len};
ghost use Rattle.ds_tokens.specs.Fronts.{class_test};
ghost use Rattle.ds_tokens.specs.Tokens as spec;

/// A set of bytes.
#[derive(Clone, Copy)]
pub(super) enum Class {
    /// Space, tab, line feed and carriage return.
    Blank,
    /// ASCII letters and digits, `_`, `$` and `.`.
    Word,
    /// Decimal digits.
    Digit,
    /// All but double quotes.
    Name,
    /// All but quotes.
    Plain,
}

fn is_in(class: Class, byte: u8) -> bool
    ensures { result ≡ class_test class byte }
{
    match class {
        Class::Blank => byte == b' ' || byte == b'\t' || byte == b'\n' || byte == b'\r',
        Class::Word => begins_word(byte) || byte.is_ascii_digit() || byte == b'.',
        Class::Digit => byte.is_ascii_digit(),
        Class::Name => byte != b'"',
        Class::Plain => byte != b'\'',
    }
}

/// Whether a word may begin with this byte: an ASCII letter, `_` or `$`.
pub fn begins_word(byte: u8) -> bool
    ensures { result ≡ spec.begins_word byte }
{
    byte.is_ascii_alphabetic() || byte == b'_' || byte == b'$'
}

/// The byte at a place, or 0 past the end.
pub fn byte_at(text: &str, place: usize) -> u8
    ensures { result ≡ slice_index text.now place }
{
    let bytes = text.as_bytes();
    if place < bytes.len() { bytes[place] } else { 0 }
}

/// How many bytes at the front are of the class.
fn run_len(bytes: &[u8], class: Class) -> usize
    ensures len { result ≡ prefix_len (class_test class) bytes.now }
    ensures within { result ≤ length bytes.now }
{
    bytes.iter().take_while(|b| is_in(class, **b)).count()
}

/// The bytes of the class at the front, and what follows them. The class is one whose runs end where a character does.
pub(super) fn split_run(text: &str, class: Class) -> (&str, &str)
    ensures run { result.0.now ≡ take (prefix_len (class_test class) text.now) text.now }
    ensures rest { result.1.now ≡ drop (prefix_len (class_test class) text.now) text.now }
{
    text.split_at(run_len(text.as_bytes(), class))
}

/// The first byte, which is ASCII, and those of the class behind it, and what follows them.
pub(super) fn split_longer(text: &str, class: Class) -> (&str, &str)
    requires there { 0 < slice_index text.now 0 }
    requires ascii { slice_index text.now 0 < 128 }
    ensures run { result.0.now ≡ take (prefix_len (class_test class) (drop 1 text.now) + 1) text.now }
    ensures rest { result.1.now ≡ drop (prefix_len (class_test class) (drop 1 text.now)) (drop 1 text.now) }
{
    let more = run_len(skip(text, 1).as_bytes(), class);
    text.split_at(more + 1)
}

/// What follows the first `n` bytes, of which the last is ASCII.
pub fn skip(text: &str, n: usize) -> &str
    requires some { 0 < n }
    requires there { 0 < slice_index text.now (n - 1) }
    requires ascii { slice_index text.now (n - 1) < 128 }
    ensures { result.now ≡ drop n text.now }
{
    &text[n..]
}

/// Whether all bytes may stand in a word.
pub fn all_word_bytes(bytes: &[u8]) -> bool
    ensures { result ≡ list_all spec.is_word_byte bytes.now }
{
    bytes.iter().all(|byte| is_in(Class::Word, *byte))
}
