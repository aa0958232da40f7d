//! Journals that come back, and lines that are no commit's.
use ds_base::NoMemory;
use ds_journal_text::{JournalRefused, read_journal, write_journal};
use std::alloc::{AllocError, Global};
use std::test::Fail;

const ONE: &str =
    r#"{"client":0,"commit":1,"touched":[],"writes":[{"put":{"key":[["Task","a"]],"properties":{"n":5,"s":"x"}}}]}
"#;

// Every type of value, several values, unindexed ones, a namespace, escapes, the outermost numbers; touched groups, and a delete.
const MANY: &str =
    "{\"client\":15,\"commit\":1,\"touched\":[[[\"n1\",[\"Task\",\"a\"]],0],[[[\"Task\",9223372036854775807]],\
     18446744073709551615]],\"writes\":[{\"put\":{\"key\":[\"n1\",[\"Task\",\"a\"],[\"Sub\",1]],\"properties\":{\"a\":null,\
     \"b\":[1,-9223372036854775808,9223372036854775807],\"c\":{\"date\":-1},\"d\":{\"rating\":100},\"e\":[true,\
     false],\"f\":{\"bytes\":\"AAH/\"},\"g\":{\"text\":\"long\"},\"h\":{\"unindexed\":{\"blob\":\"\"}},\"i\":{\"key\":[[\"__Kind__\",\
     \"__name__\"]]},\"j\":{\"unindexed\":[\"x\",\"\\\"\\\\\\n\\u0000é\"]}}}},{\"delete\":[[\"__Kind__\",\
     7]]}]}\n\
     {\"client\":1,\"commit\":2,\"touched\":[],\"writes\":[]}\n";

/// Whether the text is a journal's, and is written again byte by byte.
fn comes_back(alloc: Global, text: &str) -> Result<bool, NoMemory> {
    match read_journal(alloc, text.as_bytes()) {
        Ok(journal) => {
            let written = write_journal(alloc, &journal)?;
            Ok(written.bytes() == text.as_bytes())
        }
        Err(JournalRefused::Line(_)) => Ok(false),
        Err(JournalRefused::NoMemory) => Err(AllocError),
    }
}

/// The first wrong line; 0 where there is none.
fn wrong_line(alloc: Global, text: &str) -> Result<u64, NoMemory> {
    match read_journal(alloc, text.as_bytes()) {
        Ok(_) => Ok(0),
        Err(JournalRefused::Line(line)) => Ok(line),
        Err(JournalRefused::NoMemory) => Err(AllocError),
    }
}

// Texts that are a commit's but for one thing: its number, a space, the order of members, an escape, a key's form, a reserved name.
const WRONG: [&str; 9] = [
    r#"{"client":0,"commit":2,"touched":[],"writes":[]}"#,
    r#"{"client":0, "commit":1,"touched":[],"writes":[]}"#,
    r#"{"commit":1,"client":0,"touched":[],"writes":[]}"#,
    r#"{"client":4294967296,"commit":1,"touched":[],"writes":[]}"#,
    r#"{"client":0,"commit":1,"touched":[],"writes":[{"put":{"key":[["T\u0061sk","a"]],"properties":{}}}]}"#,
    r#"{"client":0,"commit":1,"touched":[],"writes":[{"put":{"key":[["Task",null]],"properties":{}}}]}"#,
    r#"{"client":0,"commit":1,"touched":[],"writes":[{"put":{"key":[["__T__","a"]],"properties":{}}}]}"#,
    r#"{"client":0,"commit":1,"touched":[],"writes":[{"put":{"key":[["Task","a"]]}}]}"#,
    "",
];

fn is_wrong(alloc: Global, line: &str) -> Result<bool, NoMemory> {
    let text = format!(in alloc; "{line}\n")?;
    Ok(wrong_line(alloc, text.as_str())? == 1)
}

/// Whether each of these lines is wrong as the first one.
fn all_wrong(alloc: Global) -> Result<bool, NoMemory> {
    for line in &WRONG {
        if !is_wrong(alloc, *line)? {
            return Ok(false);
        }
    }
    Ok(true)
}

const NOTHING: &str = r#"{"client":0,"commit":1,"touched":[],"writes":[]}"#;

/// Whether this line twice is wrong at the second one, with the number of the first.
fn is_wrong_twice(alloc: Global, line: &str) -> Result<bool, NoMemory> {
    let twice = format!(in alloc; "{line}\n{line}\n")?;
    Ok(wrong_line(alloc, twice.as_str())? == 2)
}

#[test]
fn journals_are_read(rt: HostRuntime) -> Result<(), Fail> {
    assert!(rt; comes_back(rt.alloc(), "")?);
    assert!(rt; comes_back(rt.alloc(), ONE)?);
    assert!(rt; comes_back(rt.alloc(), MANY)?);
    assert!(rt; all_wrong(rt.alloc())?);
    assert!(rt; wrong_line(rt.alloc(), NOTHING)? == 0);
    assert!(rt; is_wrong_twice(rt.alloc(), NOTHING)?);
    Ok(())
}
