//! Words, names in double quotes, and bindings.
ghost use Rattle.std.specs.Prelude.{◌≡◌, ◌<◌, drop, length, slice_index, true, is_some, map, MatchOption};
ghost use Rattle.std.specs.List.{before_first, after_first, position_or_len};
ghost use Rattle.std.specs.Str.{str_eq_ignore_ascii_case};
ghost use Rattle.ds_tokens.specs.Fronts.{Fronts};
ghost use Rattle.ds_tokens.specs.Pieces.{seen};
ghost use Rattle.ds_tokens.specs.Tokens as spec;

use crate::lexer::Front;
use crate::lexer::numbers::numbered;
use crate::lexer::runs::{Class, begins_word, byte_at, skip, split_longer, split_run};
use crate::token::{Mark, Piece};

/// The keywords, in capitals.
const KEYWORDS: [(&[u8], Mark); 17] = [
    (b"SELECT", Mark::Select),
    (b"FROM", Mark::From),
    (b"WHERE", Mark::Where),
    (b"AND", Mark::And),
    (b"ORDER", Mark::Order),
    (b"BY", Mark::By),
    (b"ASC", Mark::Asc),
    (b"DESC", Mark::Desc),
    (b"LIMIT", Mark::Limit),
    (b"OFFSET", Mark::Offset),
    (b"IN", Mark::In),
    (b"IS", Mark::Is),
    (b"ANCESTOR", Mark::Ancestor),
    (b"TRUE", Mark::True),
    (b"FALSE", Mark::False),
    (b"NULL", Mark::Null),
    (b"KEY", Mark::Key),
];

fn same_word(a: &[u8], b: &[u8]) -> bool
    ensures { result ≡ str_eq_ignore_ascii_case a.now b.now }
{
    a.eq_ignore_ascii_case(b)
}

/// The keyword that a word is, in any case of letters.
fn lookup(mut table: &[(&[u8], Mark)], word: &[u8]) -> Option<Mark>
    ensures { result ≡ spec.lookup (map (λ k. (k.0.now, k.1)) table.entry.now) word.now }
{
    while let [keyword, rest @ ..] = table {
        if same_word(keyword.0, word) {
            return Some(keyword.1);
        }
        table = rest;
    }
    None
}

/// A keyword, in any case of letters, or else a name.
#[tactic(auto, unfolding(crate::specs::Tokens::word_of))]
fn word_of(word: &str) -> Piece<'_>
    ensures { seen result ≡ spec.word_of word.now }
{
    match lookup(&KEYWORDS, word.as_bytes()) {
        Some(keyword) => Piece::Fixed(keyword),
        None => Piece::Name(word),
    }
}

/// Whether a word is a keyword, in any case of letters.
pub fn is_keyword(word: &str) -> bool
    ensures { result ≡ is_some (spec.lookup spec.keywords word.now) }
{
    lookup(&KEYWORDS, word.as_bytes()).is_some()
}

/// The word at the front.
#[tactic(auto, unfolding(crate::specs::Tokens::word))]
pub(super) fn word<'a>(text: &'a str) -> Front<'a>
    requires { spec.begins_word (slice_index text.now 0) ≡ true }
    ensures { Fronts (spec.word text.now) text.now result }
{
    let (word, rest) = split_longer(text, Class::Word);
    Front {
        piece: word_of(word),
        rest,
    }
}

/// The name in double quotes that begins with the text.
pub(super) fn quoted_name<'a>(text: &'a str) -> Front<'a>
    requires { slice_index text.now 0 ≡ 34 }
    ensures { Fronts (spec.quoted_name (drop 1 text.now)) text.now result }
{
    match split_name(skip(text, 1)) {
        Some((name, rest)) => {
            if name.is_empty() {
                return Front::none(text);
            }
            Front {
                piece: Piece::Name(name),
                rest,
            }
        }
        None => Front::none(text),
    }
}

/// What stands before the first double quote, and what behind it.
fn split_name(text: &str) -> Option<(&str, &str)>
    ensures { MatchOption result (position_or_len spec.is_double_quote text.now ≡ length text.now)
        (λ parts. (position_or_len spec.is_double_quote text.now < length text.now)
        × (parts.0.now ≡ before_first spec.is_double_quote text.now)
        × (parts.1.now ≡ after_first spec.is_double_quote text.now)) }
{
    text.split_once('"')
}

/// The binding whose colon begins the text.
#[tactic(auto, unfolding(crate::specs::Tokens::binding))]
pub(super) fn binding<'a>(text: &'a str) -> Front<'a>
    requires { slice_index text.now 0 ≡ 58 }
    ensures { Fronts (spec.binding (drop 1 text.now)) text.now result }
{
    let cited = skip(text, 1);
    let first = byte_at(cited, 0);
    if begins_word(first) {
        named(text, cited)
    } else if first.is_ascii_digit() && first != b'0' {
        numbered(text, cited)
    } else {
        Front::none(text)
    }
}

#[tactic(auto, unfolding(crate::specs::Tokens::named_front))]
fn named<'a>(text: &'a str, cited: &'a str) -> Front<'a>
    requires { cited.now ≡ drop 1 text.now }
    ensures { Fronts (spec.named_front cited.now) text.now result }
{
    let (name, rest) = split_run(cited, Class::Word);
    Front {
        piece: Piece::Named(name),
        rest,
    }
}
