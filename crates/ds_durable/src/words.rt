//! The words of a run over a kept journal.
ghost use Rattle.std.specs.Prelude.{◌≡◌, map, Some, None, MatchOption};
ghost use Rattle.std.specs.String.{string_bytes};
ghost use Rattle.ds_words.specs.Form.{is_value};
ghost use Rattle.ds_durable.specs.KeptWords.{kept_form};

/// The words, taken apart.
#[derive(Clone, Copy)]
pub struct KeptWords<'a> {
    /// The name of the kept file.
    pub file: &'a str,
    /// The words of the server, which follow.
    pub rest: &'a [String],
}

/// Takes the words apart: exactly `--kept FILE`, in two words and in front of all others. FILE isn't empty and doesn't begin with `-`.
/// There are none where the words leave that form; the form of the others isn't looked at.
pub fn kept_words(words: &[String]) -> Option<KeptWords<'_>>
    ensures { MatchOption result (kept_form (map string_bytes words.now) ≡ None)
        (λ kept. kept_form (map string_bytes words.now) ≡ Some (kept.file.now, map string_bytes kept.rest.now)) }
{
    match words {
        [flag, file, rest @ ..] if flag.as_str() == "--kept" && is_value(file.as_str()) => {
            Some(KeptWords {
                file: file.as_str(),
                rest,
            })
        }
        _ => None,
    }
}

// Whether a word may be a value.
fn is_value(word: &str) -> bool
    ensures { result ≡ is_value word.now }
{
    match word.as_bytes() {
        [] => false,
        [first, ..] => *first != b'-',
    }
}
