//! Where a line ends.
ghost use Rattle.std.specs.Prelude.{◌≡◌, ◌<◌, ◌==◌, ◌∷◌, ◌++◌, IfNone, IfSome, length, position};
ghost use Rattle.ds_rounds.specs.Drafts.{IsUnbroken};

/// The first line without its newline, and what stands behind that; `None` where there is no newline.
pub fn split_line(text: &[u8]) -> Option<(&[u8], &[u8])>
    ensures split { IfSome result (λ parts. text.now ≡ parts.0.now ++ 10 ∷ parts.1.now) }
    ensures whole { IfSome result (λ parts. IsUnbroken parts.0.now) }
    ensures none { IfNone result (IsUnbroken text.now) }
{
    match newline(text) {
        Some(end) => Some((&text[..end], &text[end + 1..])),
        None => None,
    }
}

/// The place of the first newline; `None` where there is none.
pub(crate) fn newline(bytes: &[u8]) -> Option<usize>
    ensures at { result ≡ position (λ b. b == 10) bytes.now }
    ensures within { IfSome result (λ end. end < length bytes.now) }
{
    memchr::memchr(b'\n', bytes)
}
