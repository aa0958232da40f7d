//! The words of a run whose index definitions change.
ghost use Rattle.std.specs.Prelude.{◌≡◌, map, Some, None, MatchOption};
ghost use Rattle.std.specs.String.{string_bytes};
ghost use Rattle.ds_words.specs.Form.{is_value};
ghost use Rattle.ds_serve_cut.specs.CutWords.{cut_form};

use ds_words::number_of;

/// The words, taken apart.
#[derive(Clone, Copy)]
pub struct CutWords<'a> {
    /// The name of the second index file.
    pub file: &'a str,
    /// Behind how many rounds it takes the place of the first, 1 to 9,999.
    pub after: u32,
    /// The words of the server, which follow.
    pub rest: &'a [String],
}

/// Takes the words apart: exactly `--next FILE --after N`, in four words and in front of all others. FILE isn't empty and doesn't begin
/// with `-`, and N has one to four digits. There are none where the words leave that form; the form of the others isn't looked at.
pub fn cut_words(words: &[String]) -> Option<CutWords<'_>>
    ensures { MatchOption result (cut_form (map string_bytes words.now) ≡ None)
        (λ cut. cut_form (map string_bytes words.now)
        ≡ Some (record { file = cut.file.now; after = cut.after; words = map string_bytes cut.rest.now })) }
{
    match words {
        [next, file, after, number, rest @ ..]
            if next.as_str() == "--next"
                && is_value(file.as_str())
                && after.as_str() == "--after" => {
            let after = number_of(number.as_str(), 4, 1, 9999)?;
            Some(CutWords {
                file: file.as_str(),
                after,
                rest,
            })
        }
        _ => None,
    }
}

// Whether a word may be a value.
fn is_value(word: &str) -> bool
    ensures { result ≡ is_value word.now }
{
    match word.as_bytes() {
        [] => false,
        [first, ..] => *first != b'-',
    }
}
