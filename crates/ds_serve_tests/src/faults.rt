//! Runs where the outside fails: each read and each write in turn, and a sink that takes nothing.
use crate::serving::{
    Ended, FIRST, Outside, REPLIES, ROUND_REPLIES, ROUNDS, STEADY, commits, ends_with, joined,
    served,
};
use ds_serve::Status;
use std::alloc::{AllocError, Global};
use std::sync::Wait;
use std::test::Fail;
use std::thread::Threads;

/// Whether all replies are unsent where nothing is taken.
fn hands_all_back<R: Threads + Wait + Sync>(rt: &R, alloc: Global) -> Result<bool, AllocError> {
    let outside = Outside {
        written: 0,
        ..STEADY
    };
    let ended = served(rt, alloc, FIRST, outside)?;
    let unsent = ended.run.unsent.len() == REPLIES.len() && commits(&ended) == Some(1);
    Ok(unsent && ends_with(&ended, Status::WriteFault, REPLIES))
}

/// Of 120 bytes, 20 a read, the first round ends with byte 75 and the second with byte 92; the seventh read meets the end. The replies of
/// the rounds take 2, 2 and 3 writes of 40 bytes. The read that fails, or else the write, and how many rounds are run.
const FAULTS: [(u64, u64, usize); 13] = [
    (1, 0, 0),
    (2, 0, 0),
    (4, 0, 0),
    (5, 0, 1),
    (6, 0, 2),
    (7, 0, 2),
    (0, 1, 1),
    (0, 2, 1),
    (0, 3, 2),
    (0, 4, 2),
    (0, 5, 3),
    (0, 6, 3),
    (0, 7, 3),
];

/// How the outside is where this read fails, or else this write.
fn failing(read: u64, write: u64) -> Outside {
    if read > 0 {
        Outside {
            read: 20,
            failing_read: read,
            ..STEADY
        }
    } else {
        Outside {
            written: 40,
            failing_write: write,
            ..STEADY
        }
    }
}

fn served_rounds<R: Threads + Wait + Sync>(
    rt: &R,
    alloc: Global,
    outside: Outside,
) -> Result<Ended, AllocError> {
    let text = joined(alloc, &ROUNDS, 3)?;
    served(rt, alloc, text.as_slice(), outside)
}

/// Whether so many rounds are run where a read fails; where a write fails a part of the last one's replies is unsent too.
fn stops<R: Threads + Wait + Sync>(
    rt: &R,
    alloc: Global,
    row: &(u64, u64, usize),
) -> Result<bool, AllocError> {
    let ended = served_rounds(rt, alloc, failing(row.0, row.1))?;
    let replies = joined(alloc, &ROUND_REPLIES, row.2)?;
    let is_read = row.0 > 0;
    let status = if is_read {
        Status::ReadFault
    } else {
        Status::WriteFault
    };
    let handed = ended.run.unsent.is_empty() == is_read && commits(&ended) == Some(row.2.min(1));
    Ok(handed && ends_with(&ended, status, replies.as_slice()))
}

/// The place of the first fault for which it is otherwise.
fn first_wrong<R: Threads + Wait + Sync>(
    rt: &R,
    alloc: Global,
) -> Result<Option<usize>, AllocError> {
    for (place, row) in FAULTS.iter().enumerate() {
        if !stops(rt, alloc, row)? {
            return Ok(Some(place));
        }
    }
    Ok(None)
}

#[test]
fn faults_end_a_run(rt: HostRuntime) -> Result<(), Fail> {
    assert!(rt; hands_all_back(&rt, rt.alloc())?);
    assert_eq!(rt; first_wrong(&rt, rt.alloc())?, None);
    Ok(())
}
