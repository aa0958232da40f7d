//! Runs of which each call of the disk fails in turn.
use crate::kept::{DONE, PUT_A, PUT_A_REPLY, WORDS, commits, disk_with, ends_with, served};
use ds_disk::MemoryDisk;
use ds_durable::KeptStatus;
use std::alloc::{AllocError, Global};
use std::sync::Wait;
use std::test::Fail;
use std::thread::Threads;

/// How many commits a run finds on a disk that holds these bytes, if it is done.
fn commits_in<R: Threads + Wait + Sync>(
    rt: &R,
    alloc: Global,
    bytes: &[u8],
) -> Result<Option<usize>, AllocError> {
    let mut disk = disk_with(alloc, bytes, 0)?;
    let ended = served(rt, alloc, &mut disk, &WORDS, b"")?;
    if ended.run.status == DONE {
        Ok(commits(&ended))
    } else {
        Ok(None)
    }
}

/// Whether each image that is nearest to one of these wishes opens with no commit or with the one that was put, and with that one where its
/// reply was written.
fn opens<R: Threads + Wait + Sync>(
    rt: &R,
    alloc: Global,
    disk: &MemoryDisk,
    sent: bool,
) -> Result<bool, AllocError> {
    let mut all = true;
    for wish in [&b""[..], &[0; 200][..], &[1; 200][..], &[255; 200][..]] {
        let image = disk.image(wish)?;
        let found = commits_in(rt, alloc, image.bytes())?;
        all = all && (found == Some(1) || (found == Some(0) && !sent));
    }
    Ok(all)
}

/// Whether a run over a disk is done or fails for the disk; none where it does neither, or writes what it must not.
fn is_done<R: Threads + Wait + Sync>(
    rt: &R,
    alloc: Global,
    disk: &mut MemoryDisk,
) -> Result<Option<bool>, AllocError> {
    let ended = served(rt, alloc, disk, &WORDS, PUT_A)?;
    if ends_with(&ended, DONE, 0, PUT_A_REPLY) {
        Ok(Some(true))
    } else if ends_with(&ended, KeptStatus::DiskFault, 0, b"") {
        Ok(Some(false))
    } else {
        Ok(None)
    }
}

/// Whether a run is done of which the call of the disk of this number fails; none where it doesn't end as it has to, or leaves an image
/// that it must not.
fn ends_well<R: Threads + Wait + Sync>(
    rt: &R,
    alloc: Global,
    failing: u64,
) -> Result<Option<bool>, AllocError> {
    let mut disk = disk_with(alloc, b"", failing)?;
    match is_done(rt, alloc, &mut disk)? {
        Some(done) if opens(rt, alloc, &disk, done)? => Ok(Some(done)),
        _ => Ok(None),
    }
}

/// Whether all of them end well, the first ones by a fault and the last ones done.
fn all_end_well<R: Threads + Wait + Sync>(rt: &R, alloc: Global) -> Result<bool, AllocError> {
    let mut all = true;
    let mut any_done = false;
    for failing in 1..20u64 {
        match ends_well(rt, alloc, failing)? {
            Some(true) => any_done = true,
            Some(false) => all = all && !any_done,
            None => all = false,
        }
    }
    Ok(all && any_done)
}

#[test]
fn each_call_of_the_disk_fails(rt: HostRuntime) -> Result<(), Fail> {
    assert!(rt; all_end_well(&rt, rt.alloc())?);
    Ok(())
}
