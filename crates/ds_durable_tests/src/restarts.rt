//! Runs one behind another over one disk, and disks whose contents no run left.
use crate::kept::{INDEXED, PUT_A, PUT_A_REPLY, Planned, WORDS, all_end_so, done};
use ds_durable::KeptStatus;
use std::alloc::{AllocError, Global};
use std::test::Fail;

const PUT_B_GET_A: &[u8] = br#"{"op":"put","entity":{"key":[["T","b"]],"properties":{}}}
{"op":"get","key":[["T","a"]]}
"#;

const PUT_B_GET_A_REPLIES: &[u8] = br#"{"client":0,"commit":2,"key":[["T","b"]],"line":1,"ok":"put"}
{"client":0,"entity":{"key":[["T","a"]],"properties":{"v":1}},"line":2,"ok":"get","place":2}
"#;

#[test]
fn a_second_run_goes_on(rt: HostRuntime) -> Result<(), Fail> {
    let runs = [
        done(PUT_A, 0, 1, PUT_A_REPLY),
        done(PUT_B_GET_A, 1, 2, PUT_B_GET_A_REPLIES),
    ];
    assert!(rt; all_end_so(&rt, rt.alloc(), b"", &runs)?);
    Ok(())
}

const ALLOCATE: &[u8] = br#"{"op":"allocate_ids","count":5}
"#;

const FIRST_IDS: &[u8] =
    br#"{"client":0,"count":5,"first":4503599627370496,"line":1,"ok":"allocate_ids"}
"#;

const NEXT_IDS: &[u8] =
    br#"{"client":0,"count":5,"first":4503599627370501,"line":1,"ok":"allocate_ids"}
"#;

#[test]
fn ids_are_drawn_once(rt: HostRuntime) -> Result<(), Fail> {
    let runs = [
        done(ALLOCATE, 0, 0, FIRST_IDS),
        done(ALLOCATE, 0, 0, NEXT_IDS),
    ];
    assert!(rt; all_end_so(&rt, rt.alloc(), b"", &runs)?);
    Ok(())
}

const DAMAGED: Planned<'static> = Planned {
    words: &WORDS,
    text: PUT_A,
    status: KeptStatus::Damaged { at: 0 },
    start: 0,
    commits: None,
    replies: b"",
};

#[test]
fn an_open_gate_with_no_batch_is_damage(rt: HostRuntime) -> Result<(), Fail> {
    assert!(rt; all_end_so(&rt, rt.alloc(), b"\x01\x00", &[DAMAGED])?);
    Ok(())
}

#[test]
fn a_gate_that_nothing_follows_is_closed(rt: HostRuntime) -> Result<(), Fail> {
    assert!(rt; all_end_so(&rt, rt.alloc(), b"\x01", &[done(PUT_A, 0, 1, PUT_A_REPLY)])?);
    Ok(())
}

/// A put of an entity with five properties of eight values each.
fn many_values(alloc: Global) -> Result<String, AllocError> {
    let mut text = String::new(alloc);
    text.push_str(r#"{"op":"put","entity":{"key":[["T","a"]],"properties":{"x":0"#)?;
    for name in ["a", "b", "c", "d", "e"] {
        text.push_str(",\"")?;
        text.push_str(name)?;
        text.push_str("\":[1,2,3,4,5,6,7,8]")?;
    }
    text.push_str("}}}\n")?;
    Ok(text)
}

/// One row by kind, two for each of 41 values, and one for each choice of a value of the five properties in their index.
const TOO_MANY_ROWS: Planned<'static> = Planned {
    words: &INDEXED,
    text: PUT_A,
    status: KeptStatus::TooManyRows {
        commit: 1,
        count: 1 + 2 * 41 + 8 * 8 * 8 * 8 * 8,
    },
    start: 1,
    commits: None,
    replies: b"",
};

#[test]
fn a_kept_put_may_have_too_many_rows(rt: HostRuntime) -> Result<(), Fail> {
    let put = many_values(rt.alloc())?;
    let runs = [
        done(put.as_bytes(), 0, 1, PUT_A_REPLY),
        TOO_MANY_ROWS,
        done(b"", 1, 1, b""),
    ];
    assert!(rt; all_end_so(&rt, rt.alloc(), b"", &runs)?);
    Ok(())
}
