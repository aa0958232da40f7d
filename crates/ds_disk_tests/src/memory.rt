//! The disk in memory.
use ds_base::{ByteString, Numbers};
use ds_disk::{Disk, MemoryDisk};
use std::alloc::{AllocError, Global};
use std::test::Fail;

// A disk that holds these bytes. One call fails; it has room for eight bytes, and stops after so many calls.
fn make(alloc: Global, bytes: &[u8], failing: u64, stop: u64) -> Result<MemoryDisk, AllocError> {
    let fails = Numbers::from(Vec::from_slice(alloc, &[failing])?);
    MemoryDisk::make(alloc, ByteString::of(alloc, bytes)?, fails, 8, stop)
}

// Calls each of a disk's functions in turn, and gives the place of the first that failed.
fn first_failure<D: Disk>(disk: &mut D) -> Option<usize> {
    let outcomes = [
        disk.write_at(0, b"abc").is_err(),
        disk.sync().is_err(),
        disk.write_at(1, b"X").is_err(),
        disk.cut(2).is_err(),
        disk.len().is_err(),
        disk.read(0, &mut [0; 2]).is_err(),
        disk.sync().is_err(),
    ];
    outcomes.iter().position(|failed| *failed)
}

// Whether the first failure of a fresh disk is this.
fn fails_first(
    alloc: Global,
    failing: u64,
    stop: u64,
    place: Option<usize>,
) -> Result<bool, AllocError> {
    let mut disk = make(alloc, b"", failing, stop)?;
    Ok(first_failure(&mut disk) == place)
}

#[test]
fn each_call_fails_in_turn(rt: HostRuntime) -> Result<(), Fail> {
    let alloc = rt.alloc();
    for place in 0..7usize {
        assert!(rt; fails_first(alloc, place as u64 + 1, 100, Some(place))?);
        assert!(rt; fails_first(alloc, 0, place as u64, Some(place))?);
    }
    assert!(rt; fails_first(alloc, 8, 7, None)?);
    Ok(())
}

// Whether the disk reads these bytes and no more.
fn holds<D: Disk>(disk: &mut D, bytes: &[u8]) -> bool {
    let mut buf = [0; 9];
    let read = disk.read(0, &mut buf);
    read == Ok(bytes.len()) && buf.starts_with(bytes)
}

// Whether a write is done.
fn writes<D: Disk>(disk: &mut D, at: u64, piece: &[u8]) -> bool {
    disk.write_at(at, piece).is_ok()
}

// Whether a cut is done.
fn cuts<D: Disk>(disk: &mut D, len: u64) -> bool {
    disk.cut(len).is_ok()
}

// Whether a sync is done.
fn syncs<D: Disk>(disk: &mut D) -> bool {
    disk.sync().is_ok()
}

// A list of bytes, and the image that is nearest to it.
type Row<'a> = (&'a [u8], &'a [u8]);

// Whether the images that are nearest to the rows' first bytes are their second.
fn leaves(disk: &MemoryDisk, rows: &[Row<'_>]) -> Result<bool, AllocError> {
    let mut all = true;
    for (wish, image) in rows {
        let nearest = disk.image(wish)?;
        all = nearest.bytes() == *image && all;
    }
    Ok(all)
}

#[test]
fn what_is_synced_stays(rt: HostRuntime) -> Result<(), Fail> {
    let mut disk = make(rt.alloc(), b"abcd", 0, 100)?;
    assert!(rt; leaves(&disk, &[(b"", b"abcd"), (b"zzzzz", b"abcd")])?);
    assert!(rt; writes(&mut disk, 3, b"XY"));
    assert!(rt;
        leaves(
            &disk,
            &[(b"", b"abc\0"), (b"zzzzzz", b"abczz"), (b"abcXY", b"abcXY")]
        )?
    );
    assert!(rt; cuts(&mut disk, 1));
    assert!(rt; leaves(&disk, &[(b"", b"a"), (b"zz", b"az"), (b"zzzzzz", b"azzzz")])?);
    assert!(rt; holds(&mut disk, b"a"));
    assert!(rt; syncs(&mut disk));
    assert!(rt; leaves(&disk, &[(b"", b"a"), (b"zz", b"a")])?);
    Ok(())
}

#[test]
fn a_call_that_fails_may_be_found(rt: HostRuntime) -> Result<(), Fail> {
    let mut disk = make(rt.alloc(), b"abcd", 1, 100)?;
    assert!(rt; !writes(&mut disk, 1, b"XYZV"));
    assert!(rt; holds(&mut disk, b"abcd"));
    assert!(rt;
        leaves(
            &disk,
            &[
                (b"aXcd", b"aXcd"),
                (b"zXYZVz", b"aXYZV"),
                (b"ab", b"ab\0\0")
            ]
        )?
    );
    let mut disk = make(rt.alloc(), b"abcd", 1, 100)?;
    assert!(rt; !cuts(&mut disk, 2));
    assert!(rt; leaves(&disk, &[(b"abcd", b"abcd"), (b"zzz", b"abz"), (b"", b"ab")])?);
    Ok(())
}

#[test]
fn a_call_that_changes_nothing(rt: HostRuntime) -> Result<(), Fail> {
    let mut disk = make(rt.alloc(), b"abcd", 2, 100)?;
    assert!(rt; cuts(&mut disk, 2));
    assert!(rt; !syncs(&mut disk));
    assert!(rt; leaves(&disk, &[(b"abcd", b"abcd")])?, "a sync that failed");
    let mut disk = make(rt.alloc(), b"abcd", 0, 1)?;
    assert!(rt; cuts(&mut disk, 2));
    assert!(rt; !writes(&mut disk, 0, b"X"));
    assert!(rt; leaves(&disk, &[(b"XY", b"ab")])?, "the disk has stopped");
    Ok(())
}

#[test]
fn ends_and_gaps(rt: HostRuntime) -> Result<(), Fail> {
    let mut disk = make(rt.alloc(), b"ab", 0, 100)?;
    assert!(rt; cuts(&mut disk, 5) && writes(&mut disk, 7, b"") && holds(&mut disk, b"ab"));
    assert!(rt; writes(&mut disk, 4, b"cd") && holds(&mut disk, b"ab\0\0cd"));
    assert!(rt;
        !writes(&mut disk, 6, b"efg") && !writes(&mut disk, u64::MAX, b"e"),
        "no room"
    );
    assert!(rt; writes(&mut disk, 6, b"ef") && holds(&mut disk, b"ab\0\0cdef"));
    assert_eq!(rt; disk.read(8, &mut [0; 2]), Ok(0), "the end");
    Ok(())
}
