//! A gate, and a batch behind it.
ghost use Rattle.std.specs.Prelude.{◌≡◌, ◌++◌, ◌<◌, List, ℕ, length, true, IfSome, IfNone};
ghost use Rattle.ds_kept_file.specs.Files.{is_open as is_open_gate, opened};

/// Whether the bytes begin with an open gate: the byte 1, and a byte behind it.
pub fn is_open(bytes: &[u8]) -> bool
    ensures { result ≡ is_open_gate bytes.now }
{
    match bytes {
        [gate, _, ..] => *gate == 1,
        _ => false,
    }
}

/// The body of the batch behind an open gate, and the bytes behind it, at least one; `None` exactly where the batch passes the end with its
/// next gate.
pub fn split_batch(bytes: &[u8]) -> Option<(&[u8], &[u8])>
    requires { is_open_gate bytes.now ≡ true }
    ensures split { IfSome result (λ parts. bytes.now ≡ opened parts.0.now ++ parts.1.now) }
    ensures gate { IfSome result (λ parts. 0 < length parts.1.now) }
    ensures none { IfNone result ((body behind : List ℕ) → bytes.now ≡ opened body ++ behind → 0 < length behind → ⊥) }
{
    match bytes {
        [_, a, b, c, d, e, f, g, h, rest @ ..] => {
            let size = u64::from_be_bytes([*a, *b, *c, *d, *e, *f, *g, *h]);
            if size < rest.len() as u64 {
                let size = size as usize;
                Some((&rest[..size], &rest[size..]))
            } else {
                None
            }
        }
        _ => None,
    }
}
