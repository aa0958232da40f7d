//! The state of a disk in memory, between two calls.
ghost use Rattle.std.specs.Prelude.{◌≡◌, ◌+◌, ◌-◌, ◌^◌, ◌<◌, ◌≤◌, ◌++◌, replicate, min, length, take, drop, map, cond, slice_index, Some};
ghost use Rattle.std.specs.Prelude.{IfOk, OnOk, OnErr};
ghost use Rattle.ds_disk.specs.Crashes.{written, length_written};
ghost use Rattle.ds_disk.specs.Memory.{at_rest, wiped, filled, image_by, after_change};

use crate::call::Change;
use ds_base::ByteString;
use std::alloc::{AllocError, Global};
use std::marker::Model;

/// The contents; of each place below the least length since the last sync the byte that a crash leaves there, or none
/// where it may leave any; and the greatest length since then.
#[derive(Drop)]
pub struct State {
    contents: Vec<u8>,
    stays: Vec<Option<u8>>,
    greatest: u64,
}

impl Model for State {
    ghost use Rattle.ds_disk.specs.Memory.{StateParts};

    ghost Value = { StateParts };

    ghost view = { λ s. record { contents = s.contents.items; stays = s.stays.items; greatest = s.greatest } };
}

impl State {
    /// These contents, all of them synced.
    pub fn at_rest(alloc: Global, bytes: &[u8]) -> Result<State, AllocError>
        ensures { IfOk result (λ s. s ≡ at_rest bytes.now) }
    {
        Ok(State {
            contents: Vec::from_slice(alloc, bytes)?,
            stays: each_stays(alloc, bytes)?,
            greatest: bytes.len() as u64,
        })
    }

    /// The number of bytes.
    pub fn len(&self) -> u64
        ensures { result ≡ length self.now.contents }
    {
        self.contents.len() as u64
    }

    /// Copies the bytes from `at` on into the front of `buf`, as many as there are and fit, and gives their number.
    pub fn read(&self, at: u64, buf: &mut [u8]) -> usize
        ensures amount { result ≡ min (length self.now.contents - at) (length buf.new) }
        ensures front { take result buf.new ≡ take result (drop at self.now.contents) }
    {
        copy_from(&self.contents, at as usize, buf)
    }

    /// A write, done or failed. Want of memory changes nothing.
    pub fn write(&mut self, at: u64, piece: &[u8], failed: bool) -> Result<(), AllocError>
        requires { at + length piece.now < 2 ^ 64 }
        ensures ok { OnOk result (self.new ≡ after_change self.old (Change.Write at piece.now) failed) }
        ensures err { OnErr result (self.new ≡ self.old) }
    {
        let end = length_after(&self.contents, at as usize, piece);
        write_unless(failed, &mut self.contents, at as usize, piece)?;
        wipe(&mut self.stays, at as usize, piece.len());
        self.greatest = self.greatest.max(end as u64);
        Ok(())
    }

    /// A cut, done or failed.
    pub fn cut(&mut self, len: u64, failed: bool)
        ensures { self.new ≡ after_change self.old (Change.Cut len) failed }
    {
        cut_unless(failed, &mut self.contents, len as usize);
        self.stays.truncate(len as usize);
    }

    /// A sync, done or failed. Want of memory changes nothing.
    pub fn sync(&mut self, alloc: Global, failed: bool) -> Result<(), AllocError>
        ensures ok { OnOk result (self.new ≡ after_change self.old Change.Sync failed) }
        ensures err { OnErr result (self.new ≡ self.old) }
    {
        if !failed {
            self.stays = each_stays(alloc, &self.contents)?;
            self.greatest = self.contents.len() as u64;
        }
        Ok(())
    }

    /// The image that is nearest to `wish`.
    pub fn image(&self, alloc: Global, wish: &[u8]) -> Result<ByteString, AllocError>
        ensures { IfOk result (λ image. image ≡ image_by self.now wish.now) }
    {
        let most = wish.len().min(self.greatest as usize);
        fill(alloc, &self.stays, &wish[..most])
    }
}

// Each byte stays.
fn each_stays(alloc: Global, bytes: &[u8]) -> Result<Vec<Option<u8>>, AllocError>
    ensures { IfOk result (λ stays. stays.items ≡ map (λ byte. Some byte) bytes.now) }
{
    bytes.iter().map(|byte| Some(*byte)).collect(alloc)
}

// Copies the bytes from a place on.
fn copy_from(bytes: &[u8], at: usize, buf: &mut [u8]) -> usize
    ensures amount { result ≡ min (length bytes.now - at) (length buf.new) }
    ensures front { take result buf.new ≡ take result (drop at bytes.now) }
{
    let (_, left) = bytes.split_at(at.min(bytes.len()));
    let n = left.len().min(buf.len());
    buf[..n].copy_from_slice(&left[..n]);
    n
}

// How many bytes there are once the piece is written.
fn length_after(contents: &[u8], at: usize, piece: &[u8]) -> usize
    requires { at + length piece.now < 2 ^ 64 }
    ensures { result ≡ length_written contents.now at piece.now }
{
    match piece {
        [] => contents.len(),
        _ => contents.len().max(at + piece.len()),
    }
}

// Writes the piece, unless the write failed.
fn write_unless(
    failed: bool,
    contents: &mut Vec<u8>,
    at: usize,
    piece: &[u8],
) -> Result<(), AllocError>
    requires { at + length piece.now < 2 ^ 64 }
    ensures ok { OnOk result (contents.new.items ≡ cond failed contents.old.items (written contents.old.items at piece.now)) }
    ensures err { OnErr result (contents.new.items ≡ contents.old.items) }
{
    if failed || piece.is_empty() {
        return Ok(());
    }
    overwrite(contents, at, piece)
}

// Writes the piece over what is there and past the end.
fn overwrite(contents: &mut Vec<u8>, at: usize, piece: &[u8]) -> Result<(), AllocError>
    requires some { 0 < length piece.now }
    requires fits { at + length piece.now < 2 ^ 64 }
    ensures ok { OnOk result (contents.new.items ≡ written contents.old.items at piece.now) }
    ensures err { OnErr result (contents.new.items ≡ contents.old.items) }
{
    grow(contents, at + piece.len())?;
    put(contents, at, piece);
    Ok(())
}

// Puts zeros at the end until there are `end` bytes.
fn grow(contents: &mut Vec<u8>, end: usize) -> Result<(), AllocError>
    ensures ok { OnOk result (contents.new.items ≡ contents.old.items ++ replicate (end - length contents.old.items) 0) }
    ensures err { OnErr result (contents.new.items ≡ contents.old.items) }
{
    if contents.len() < end {
        contents.resize(end, 0)?;
    }
    Ok(())
}

// Writes the piece over what is there.
fn put(contents: &mut [u8], at: usize, piece: &[u8])
    requires { at + length piece.now ≤ length contents.old }
    ensures { contents.new ≡ take at contents.old ++ piece.now ++ drop (at + length piece.now) contents.old }
{
    contents[at..at + piece.len()].copy_from_slice(piece);
}

// Cuts the contents, unless the cut failed.
fn cut_unless(failed: bool, contents: &mut Vec<u8>, len: usize)
    ensures { contents.new.items ≡ cond failed contents.old.items (take len contents.old.items) }
{
    if !failed {
        contents.truncate(len);
    }
}

// Lets the n places from `at` on hold any byte.
fn wipe(stays: &mut [Option<u8>], at: usize, n: usize)
    ensures { stays.new ≡ wiped stays.old at n }
{
    let mut i = at;
    while i < stays.len() && i - at < n {
        stays[i] = None;
        i += 1;
    }
}

// The bytes of `wish`, where none stays in their places.
fn fill(alloc: Global, stays: &[Option<u8>], wish: &[u8]) -> Result<ByteString, AllocError>
    ensures { IfOk result (λ image. image ≡ filled stays.now wish.now) }
{
    let mut image = Vec::new(alloc);
    let mut rest = wish;
    for slot in stays {
        let (next, behind) = first_of(rest);
        image.push(slot.unwrap_or(next))?;
        rest = behind;
    }
    image.extend_from_slice(rest)?;
    Ok(ByteString::from_vec(image))
}

// The first byte, or 0, and the bytes behind it.
fn first_of(bytes: &[u8]) -> (u8, &[u8])
    ensures first { result.0 ≡ slice_index bytes.now 0 }
    ensures behind { result.1.now ≡ drop 1 bytes.now }
{
    match bytes {
        [first, behind @ ..] => (*first, behind),
        [] => (0, bytes),
    }
}
