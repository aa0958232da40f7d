//! Runs where nothing fails: how lines and rounds are cut, and memory enough for each reply.
use crate::serving::{FIRST, Outside, REPLIES, STEADY, commits, ends_with, served, served_with};
use ds_serve::Status;
use std::alloc::{AllocError, Global};
use std::sync::Wait;
use std::test::Fail;
use std::thread::Threads;

/// Inputs, each with its replies: a carriage return before each newline; empty lines at the beginning, twice in a row, of
/// blanks, and at the end; no last newline; nothing; empty lines alone; and a byte order mark, which is no part of a line of JSON.
const CUT: [(&[u8], &[u8]); 7] = [
    (
        b"{\"op\":\"settle\"}\r\n\r\n{\"op\":\"settle\"}\r\n",
        b"{\"applied\":[0],\"client\":0,\"line\":1,\"ok\":\"settle\",\"place\":0}\n\
          {\"applied\":[0],\"client\":0,\"line\":3,\"ok\":\"settle\",\"place\":0}\n",
    ),
    (
        b"\n{\"op\":\"settle\"}\n\n\n{\"op\":\"settle\"}\n{}\n \t\r\n\n",
        b"{\"applied\":[0],\"client\":0,\"line\":2,\"ok\":\"settle\",\"place\":0}\n\
          {\"applied\":[0],\"client\":0,\"line\":5,\"ok\":\"settle\",\"place\":0}\n\
          {\"client\":0,\"error\":3,\"field\":\"op\",\"line\":6,\"name\":\"BadRequest\"}\n",
    ),
    (
        b"{}\n\n{}",
        b"{\"client\":0,\"error\":3,\"field\":\"op\",\"line\":1,\"name\":\"BadRequest\"}\n\
          {\"client\":0,\"error\":3,\"field\":\"op\",\"line\":3,\"name\":\"BadRequest\"}\n",
    ),
    (b"", b""),
    (b"\n\n\n", b""),
    (
        b"\xef\xbb\xbf{\"op\":\"settle\"}\n",
        b"{\"client\":0,\"error\":1,\"line\":1,\"name\":\"BadJson\"}\n",
    ),
    (FIRST, REPLIES),
];

/// Whether an input has its replies, all of which are sent.
fn is_cut<R: Threads + Wait + Sync>(
    rt: &R,
    alloc: Global,
    row: &(&[u8], &[u8]),
    outside: Outside,
) -> Result<bool, AllocError> {
    let ended = served(rt, alloc, row.0, outside)?;
    Ok(ends_with(&ended, Status::Done, row.1) && ended.run.unsent.len() == 0)
}

/// The place of the first input that hasn't, where a read gives so many bytes.
fn first_wrong<R: Threads + Wait + Sync>(
    rt: &R,
    alloc: Global,
    read: usize,
) -> Result<Option<usize>, AllocError> {
    let outside = Outside { read, ..STEADY };
    for (place, row) in CUT.iter().enumerate() {
        if !is_cut(rt, alloc, row, outside)? {
            return Ok(Some(place));
        }
    }
    Ok(None)
}

/// Lines of two clients.
const SETTLES: &[u8] = b"{\"op\":\"settle\"}\n{\"client\":3,\"op\":\"settle\"}\n";

/// Whether so many commits are told of a text, and the gate sums this before and after the answers.
fn calls_the_gate<R: Threads + Wait + Sync>(
    rt: &R,
    alloc: Global,
    text: &[u8],
    count: usize,
    sum: u64,
) -> Result<bool, AllocError> {
    let ended = served(rt, alloc, text, STEADY)?;
    Ok(commits(&ended) == Some(count) && ended.begun == sum && ended.done == sum)
}

fn refuses_seventeen_shards<R: Threads + Wait + Sync>(
    rt: &R,
    alloc: Global,
) -> Result<bool, AllocError> {
    let words = ["--shards", "17", "--appliers", "0"];
    let ended = served_with(rt, alloc, &words, FIRST, STEADY)?;
    Ok(commits(&ended) == Some(0) && ends_with(&ended, Status::Usage, b""))
}

/// A put of an entity of its own for each number from 1 on, each after the third of them in a round of its own.
fn puts(alloc: Global, count: u64) -> Result<String, AllocError> {
    let mut text = String::new(alloc);
    for n in 1..=count {
        let line = format!(in alloc; "{{\"op\":\"put\",\"entity\":{{\"key\":[[\"T\",{n}]]}}}}\n")?;
        text.push_str(line.as_str())?;
    }
    Ok(text)
}

/// The replies to them.
fn put_replies(alloc: Global, count: u64) -> Result<String, AllocError> {
    let mut text = String::new(alloc);
    for n in 1..=count {
        let line = format!(in alloc;
            "{{\"client\":0,\"commit\":{n},\"key\":[[\"T\",{n}]],\"line\":{n},\"ok\":\"put\"}}\n"
        )?;
        text.push_str(line.as_str())?;
    }
    Ok(text)
}

fn answers_puts<R: Threads + Wait + Sync>(
    rt: &R,
    alloc: Global,
    count: usize,
) -> Result<bool, AllocError> {
    let text = puts(alloc, count as u64)?;
    let replies = put_replies(alloc, count as u64)?;
    let ended = served(rt, alloc, text.as_bytes(), STEADY)?;
    Ok(commits(&ended) == Some(count) && ends_with(&ended, Status::Done, replies.as_bytes()))
}

#[test]
fn inputs_are_answered(rt: HostRuntime) -> Result<(), Fail> {
    assert_eq!(rt; first_wrong(&rt, rt.alloc(), 1)?, None);
    assert_eq!(rt; first_wrong(&rt, rt.alloc(), 1_000_000)?, None);
    assert!(rt; calls_the_gate(&rt, rt.alloc(), FIRST, 1, 6)?);
    assert!(rt; calls_the_gate(&rt, rt.alloc(), SETTLES, 0, 3_003)?);
    assert!(rt; refuses_seventeen_shards(&rt, rt.alloc())?);
    assert!(rt; answers_puts(&rt, rt.alloc(), 2_000)?);
    Ok(())
}
