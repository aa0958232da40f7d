//! The words of the command line, as a table, and the exit numbers.

use ds_words::{Options, Status, WordsRefused, read_words};
use std::alloc::{AllocError, Global};
use std::test::Fail;

/// The words of a text in which one space stands between two of them; no word of the empty text.
fn words_of(alloc: Global, text: &str) -> Result<Vec<String>, AllocError> {
    let mut words = Vec::new(alloc);
    if !text.is_empty() {
        for word in text.split(' ') {
            words.push(String::from_str(alloc, word)?)?;
        }
    }
    Ok(words)
}

/// What was read: shards, appliers, window and the name of the index file, if there is one.
fn told_options(alloc: Global, options: &Options) -> Result<String, AllocError> {
    let shards = options.shards;
    let appliers = options.appliers;
    let window = options.window;
    match &options.indexes {
        Some(file) => {
            let name = file.text();
            format!(in alloc; "{shards} {appliers} {window} {name}")
        }
        None => format!(in alloc; "{shards} {appliers} {window}"),
    }
}

fn told(alloc: Global, read: Result<Options, WordsRefused>) -> Result<String, AllocError> {
    match read {
        Ok(options) => told_options(alloc, &options),
        Err(WordsRefused::Usage) => String::from_str(alloc, "usage"),
        Err(WordsRefused::NoMemory) => String::from_str(alloc, "no memory"),
    }
}

/// Whether the words of a text are read as this.
fn are_read(alloc: Global, text: &str, want: &str) -> Result<bool, AllocError> {
    let words = words_of(alloc, text)?;
    let read = told(alloc, read_words(alloc, words.as_slice()))?;
    Ok(read.as_str() == want)
}

/// Words, and the shards, appliers, window and index file that they give.
const FORMS: [(&str, &str); 7] = [
    ("", "4 2 65536"),
    ("--shards 04", "4 2 65536"),
    ("--shards=1 --appliers=0", "1 0 65536"),
    ("--window 00002 --indexes index.yaml", "4 2 2 index.yaml"),
    (
        "--indexes=a=b --shards 16 --appliers 08 --window 65536",
        "16 8 65536 a=b",
    ),
    ("--indexes a=b --window=1", "4 2 1 a=b"),
    ("--appliers 2 --indexes --shards --shards 1", "usage"),
];

/// The first words of a table that are read otherwise.
fn first_wrong<'a>(
    alloc: Global,
    rows: &'a [(&'static str, &'static str)],
) -> Result<Option<&'a str>, AllocError> {
    for row in rows {
        if !are_read(alloc, row.0, row.1)? {
            return Ok(Some(row.0));
        }
    }
    Ok(None)
}

/// Words that aren't of the form, a line each; a bar ends each line.
const NO_FORMS: &str = "--help|
--help=1|
--|
-|
=|
x|
--shards|
--shards 1 2|
--shards 0|
--shards=17|
--shards 004|
--shards +1|
--shards 1x|
--shards=1=2|
--SHARDS 1|
--shards 1 --shards 1|
--shards=1 --shards 1|
--appliers 9|
--appliers -1|
--window 0|
--window 65537|
--window 000001|
--indexes=|
--indexes |
--indexes -a|
--indexes=-a|
--indexes a --indexes=b|";

/// The first line whose words are taken.
fn first_taken<'a>(alloc: Global, lines: &'a str) -> Result<Option<&'a str>, AllocError> {
    for line in lines.lines() {
        if !are_read(alloc, line.strip_suffix("|").unwrap_or(line), "usage")? {
            return Ok(Some(line));
        }
    }
    Ok(None)
}

/// How a run ended, and its exit number.
const NUMBERS: [(Status, u8); 8] = [
    (Status::Done, 0),
    (Status::Usage, 1),
    (Status::IndexFile { line: 9 }, 2),
    (Status::ReadFault, 3),
    (Status::WriteFault, 4),
    (Status::FileFault, 5),
    (Status::NoMemory, 6),
    (Status::InputLimit, 7),
];

/// The first number that is another.
fn first_wrong_number() -> Option<u8> {
    for row in &NUMBERS {
        if row.0.exit_number() != row.1 {
            return Some(row.1);
        }
    }
    None
}

#[test]
fn words_and_statuses_are_told(rt: HostRuntime) -> Result<(), Fail> {
    assert_eq!(rt; first_wrong(rt.alloc(), &FORMS)?, None);
    assert_eq!(rt; first_taken(rt.alloc(), NO_FORMS)?, None);
    assert_eq!(rt; first_wrong_number(), None);
    Ok(())
}
