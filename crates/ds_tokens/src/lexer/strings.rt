//! Strings.
ghost use Rattle.std.specs.Prelude.{◌≡◌, ◌<◌, ◌≤◌, ◌-◌, drop, length, slice_index, IfSome};
ghost use Rattle.ds_tokens.specs.Fronts.{Fronts};
ghost use Rattle.ds_tokens.specs.Tokens as spec;

use crate::lexer::Front;
use crate::lexer::runs::skip;
use crate::token::Piece;

/// The string whose opening quote begins the text.
#[tactic(auto, unfolding(crate::specs::Tokens::string_front))]
pub(super) fn string<'a>(text: &'a str) -> Front<'a>
    requires { slice_index text.now 0 ≡ 39 }
    ensures { Fronts (spec.string_front (drop 1 text.now)) text.now result }
{
    let inner = skip(text, 1);
    match closing(inner.as_bytes()) {
        Some(n) => {
            let (raw, rest) = inner.split_at(n - 1);
            Front {
                piece: Piece::Quoted(raw),
                rest: skip(rest, 1),
            }
        }
        None => Front::none(text),
    }
}

/// How many bytes the longest string takes behind its opening quote. Each byte is looked at once.
fn closing(bytes: &[u8]) -> Option<usize>
    ensures value { result ≡ spec.closing bytes.now }
    ensures some { IfSome result (λ n. 0 < n) }
    ensures within { IfSome result (λ n. n ≤ length bytes.now) }
    ensures quote { IfSome result (λ n. slice_index bytes.now (n - 1) ≡ 39) }
{
    let mut last = None;
    let mut at = 0;
    while at < bytes.len() {
        if bytes[at] != b'\'' {
            at += 1;
        } else if at + 1 < bytes.len() && bytes[at + 1] == b'\'' {
            last = Some(at + 1);
            at += 2;
        } else {
            return Some(at + 1);
        }
    }
    last
}
