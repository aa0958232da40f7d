//! What files open as.
use crate::keeping::{Found, disk_of, keeps_three, opens};
use ds_base::{ByteString, NoMemory};
use std::alloc::{AllocError, Global};
use std::test::Fail;

/// Whether a file opens as this, and is as it was where it is damaged.
fn opens_as(alloc: Global, bytes: &[u8], expected: Found) -> Result<bool, NoMemory> {
    let mut disk = disk_of(alloc, bytes, 0, 1_000)?;
    let is = opens(alloc, &mut disk)? == expected;
    let left = disk.image(b"")?;
    Ok(is && (!matches!(expected, Found::Damaged(_)) || left.bytes() == bytes))
}

// A file, and what it opens as: nothing stands behind a closed gate or behind the only byte; a gate is open where its byte is 01 and
// a byte follows; a batch may end neither before its length nor before its next gate.
const FILES: [(&[u8], Found); 9] = [
    (b"", Found::Empty),
    (b"\x01", Found::Empty),
    (b"\0", Found::Empty),
    (b"\0\x01\x01", Found::Empty),
    (b"\x02\0", Found::Empty),
    (b"\x01\0", Found::Damaged(0)),
    (b"\x01\0\0\0\0\0\0\0\0", Found::Damaged(0)),
    (b"\x01\0\0\0\0\0\0\0\0\0", Found::Damaged(0)),
    (b"\x01\xff\xff\xff\xff\xff\xff\xff\xff\0", Found::Damaged(0)),
];

/// Whether each of the files opens as it should.
fn all_open(alloc: Global) -> Result<bool, NoMemory> {
    for (bytes, expected) in &FILES {
        if !opens_as(alloc, *bytes, *expected)? {
            return Ok(false);
        }
    }
    Ok(true)
}

/// The file of a batch of three commits.
fn written(alloc: Global) -> Result<ByteString, NoMemory> {
    let mut disk = disk_of(alloc, b"", 0, 1_000)?;
    keeps_three(alloc, &mut disk)?;
    disk.image(b"")
}

/// Whether a file opens as it should that is cut behind each of its bytes: a gate with nothing behind it is closed, and a batch
/// without its next gate is damaged.
fn all_cuts_open(alloc: Global, whole: &[u8]) -> Result<bool, NoMemory> {
    for len in 2..whole.len() {
        if !opens_as(alloc, &whole[..len], Found::Damaged(0))? {
            return Ok(false);
        }
    }
    Ok(
        whole.len() > 300
            && opens_as(alloc, whole, Found::Three)?
            && opens_as(alloc, &whole[..1], Found::Empty)?,
    )
}

/// Whether a file with one byte of it changed is damaged at its first batch, wherever the byte stands behind the gate and before the next.
fn all_changes_are_damage(alloc: Global, whole: &[u8]) -> Result<bool, NoMemory> {
    for place in 1..whole.len().saturating_sub(1) {
        let mut bytes = Vec::from_slice(alloc, whole)?;
        bytes[place] = bytes[place].wrapping_add(128);
        if !opens_as(alloc, bytes.as_slice(), Found::Damaged(0))? {
            return Ok(false);
        }
    }
    Ok(true)
}

/// Bytes of a linear congruential generator.
fn random(alloc: Global, seed: u64, len: usize) -> Result<Vec<u8>, AllocError> {
    let mut bytes = Vec::with_capacity(alloc, len)?;
    let mut state = seed;
    for _ in 0..len {
        state = state
            .wrapping_mul(6_364_136_223_846_793_005)
            .wrapping_add(1_442_695_040_888_963_407);
        bytes.push((state / 8_589_934_592 % 256) as u8)?;
    }
    Ok(bytes)
}

/// Whether a file of random bytes is damaged at its first gate if that is open, and else empty.
fn is_told(alloc: Global, bytes: &[u8]) -> Result<bool, NoMemory> {
    let is_open = bytes.len() > 1 && bytes[0] == 1;
    opens_as(
        alloc,
        bytes,
        if is_open {
            Found::Damaged(0)
        } else {
            Found::Empty
        },
    )
}

/// The same of so many files, each with its own first byte and with an open gate before it.
fn all_are_told(alloc: Global, files: u64) -> Result<bool, NoMemory> {
    for seed in 0..files {
        let mut bytes = random(alloc, seed, 40)?;
        let closed = is_told(alloc, bytes.as_slice())?;
        if !bytes.is_empty() {
            bytes[0] = 1;
        }
        if !closed || !is_told(alloc, bytes.as_slice())? {
            return Ok(false);
        }
    }
    Ok(true)
}

#[test]
fn files_open_as_they_should(rt: HostRuntime) -> Result<(), Fail> {
    let alloc = rt.alloc();
    assert!(rt; all_open(alloc)?);
    assert!(rt; all_are_told(alloc, 200)?);
    let whole = written(alloc)?;
    assert!(rt; all_cuts_open(alloc, whole.bytes())?);
    assert!(rt; all_changes_are_damage(alloc, whole.bytes())?);
    Ok(())
}
