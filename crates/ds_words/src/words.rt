//! Reading the words of the command line.
ghost use Rattle.std.specs.Prelude.{◌≡◌, ◌≤◌, map, Some, None, option_map, IfOk, IfErr, IsSome, Err};
ghost use Rattle.std.specs.String.{string_bytes};
ghost use Rattle.ds_words.specs.Form.{number_in, options_of, value_in};

use crate::item::first_item;
use crate::number::number_of;
use crate::options::{Options, WordsRefused};
use ds_base::TextString;
use ds_base::limits::{MAX_APPLIERS, MAX_SHARDS, MAX_WINDOW};
use std::alloc::Global;

/// The shards where no word says how many.
const DEFAULT_SHARDS: u32 = 4;

/// The background appliers where no word says how many.
const DEFAULT_APPLIERS: u32 = 2;

/// The numbers that an option may be given: of at most so many digits, within these bounds, and the one that it has where it is
/// given none.
#[derive(Clone, Copy)]
struct Numbers {
    digits: usize,
    least: u32,
    greatest: u32,
    absent: u32,
}

/// Reads the words behind the program's name: a list of items `--x V`, which are two words, or `--x=V`, which is one, in any
/// order and each option at most once. The options are `--indexes FILE`, `--shards N` (one or two digits, 1 to 16),
/// `--appliers N` (one or two digits, 0 to 8) and `--window N` (one to five digits, 1 to 65,536). A value isn't empty and
/// doesn't begin with `-`.
///
/// `Usage`: exactly where the words leave that form, so for `--help` and `--` too. `NoMemory`: lack of memory for the name of
/// the file, where they are in it.
pub fn read_words(alloc: Global, words: &[String]) -> Result<Options, WordsRefused>
    ensures read { IfOk result (λ options. options_of (map string_bytes words.now) ≡ Some options) }
    ensures usage { result ≡ Err WordsRefused.Usage → options_of (map string_bytes words.now) ≡ None }
    ensures no_memory { result ≡ Err WordsRefused.NoMemory → IsSome (options_of (map string_bytes words.now)) }
{
    let shards = number_in(
        words,
        "--shards",
        Numbers {
            digits: 2,
            least: 1,
            greatest: MAX_SHARDS,
            absent: DEFAULT_SHARDS,
        },
    )?;
    let appliers = number_in(
        words,
        "--appliers",
        Numbers {
            digits: 2,
            least: 0,
            greatest: MAX_APPLIERS,
            absent: DEFAULT_APPLIERS,
        },
    )?;
    let window = number_in(
        words,
        "--window",
        Numbers {
            digits: 5,
            least: 1,
            greatest: MAX_WINDOW as u32,
            absent: MAX_WINDOW as u32,
        },
    )?;
    let indexes = match value_in(words, "--indexes")? {
        Some(file) => Some(TextString::of(alloc, file)?),
        None => None,
    };
    Ok(Options {
        indexes,
        shards,
        appliers,
        window: u64::from(window),
    })
}

/// The number that words give to an option.
fn number_in(words: &[String], name: &str, numbers: Numbers) -> Result<u32, WordsRefused>
    requires { numbers.digits ≤ 5 }
    ensures number { IfOk result (λ n. number_in (map string_bytes words.now) name.now numbers.digits numbers.least numbers.greatest
        numbers.absent ≡ Some n) }
    ensures usage { IfErr result (λ e. (e ≡ WordsRefused.Usage) × (number_in (map string_bytes words.now) name.now numbers.digits
        numbers.least numbers.greatest numbers.absent ≡ None)) }
{
    match value_in(words, name)? {
        Some(text) => number_of(text, numbers.digits, numbers.least, numbers.greatest).ok_or(
            WordsRefused::Usage,
        ),
        None => Ok(numbers.absent),
    }
}

/// The value that words give to an option, if they do.
fn value_in<'a>(words: &'a [String], name: &str) -> Result<Option<&'a str>, WordsRefused>
    ensures value { IfOk result (λ found. value_in (map string_bytes words.now) name.now ≡ Some (option_map (λ text. text.now) found)) }
    ensures usage { IfErr result (λ e. (e ≡ WordsRefused.Usage) × (value_in (map string_bytes words.now) name.now ≡ None)) }
{
    let mut found = None;
    let mut rest = words;
    'items: while !rest.is_empty() {
        let Some(item) = first_item(rest) else {
            return Err(WordsRefused::Usage);
        };
        if item.name == name {
            if found.is_some() {
                return Err(WordsRefused::Usage);
            }
            found = Some(item.value);
        }
        rest = &rest[item.words..];
    }
    Ok(found)
}
