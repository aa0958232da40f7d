//! What a call that fails, and a crash at each moment, leave of a short run.
use crate::keeping::{Found, disk_of, keeps_three, opens};
use ds_base::NoMemory;
use ds_disk::MemoryDisk;
use std::alloc::Global;
use std::test::Fail;

/// A run that opens a disk and appends three commits at once. One call fails, and all do after so many.
#[derive(Drop)]
struct Ended {
    disk: MemoryDisk,
    /// Whether the commits were told to be kept.
    kept: bool,
}

fn run(alloc: Global, bytes: &[u8], failing: u64, stop: u64) -> Result<Ended, NoMemory> {
    let mut disk = disk_of(alloc, bytes, failing, stop)?;
    let kept = keeps_three(alloc, &mut disk)?;
    Ok(Ended { disk, kept })
}

/// Whether an image opens with all commits, or with none where they weren't told to be kept, and then takes them.
fn goes_on(alloc: Global, image: &[u8], kept: bool) -> Result<bool, NoMemory> {
    let mut disk = disk_of(alloc, image, 0, 1_000)?;
    match opens(alloc, &mut disk)? {
        Found::Three => Ok(true),
        Found::Empty => {
            Ok(!kept && keeps_three(alloc, &mut disk)? && opens(alloc, &mut disk)? == Found::Three)
        }
        _ => Ok(false),
    }
}

/// Each so many bytes an image ends.
const STEP: usize = 13;

/// Whether that is so of the images that are nearest to the beginnings of a list of bytes.
fn images_go_on(alloc: Global, ended: &Ended, wish: &[u8]) -> Result<bool, NoMemory> {
    for len in (0..wish.len()).step_by(STEP) {
        let image = ended.disk.image(&wish[..len])?;
        if !goes_on(alloc, image.bytes(), ended.kept)? {
            return Ok(false);
        }
    }
    let image = ended.disk.image(wish)?;
    goes_on(alloc, image.bytes(), ended.kept)
}

/// Whether that is so of all of them: with the bytes that were written, with zeros, with ones, and with opened gates, up to each length.
fn all_images_go_on(alloc: Global, ended: &Ended, whole: &[u8]) -> Result<bool, NoMemory> {
    let zeros = vec![in alloc; 0; whole.len()]?;
    let ones = vec![in alloc; 255; whole.len()]?;
    let gates = vec![in alloc; 1; whole.len()]?;
    Ok(
        images_go_on(alloc, ended, whole)?
            && images_go_on(alloc, ended, zeros.as_slice())?
            && images_go_on(alloc, ended, ones.as_slice())?
            && images_go_on(alloc, ended, gates.as_slice())?,
    )
}

/// Whether a run in which each call fails in turn, and one that stops before it, leave images that go on; and whether they tell that the
/// commits are kept exactly where no call failed.
fn each_call_may_fail(alloc: Global, whole: &[u8], calls: u64) -> Result<bool, NoMemory> {
    for call in 0..calls {
        let failed = run(alloc, b"", call.saturating_add(1), 1_000)?;
        let stopped = run(alloc, b"", 0, call)?;
        if failed.kept || stopped.kept {
            return Ok(false);
        }
        if !all_images_go_on(alloc, &failed, whole)? || !all_images_go_on(alloc, &stopped, whole)? {
            return Ok(false);
        }
    }
    Ok(true)
}

#[test]
fn a_crash_leaves_all_or_nothing(rt: HostRuntime) -> Result<(), Fail> {
    let alloc = rt.alloc();
    let done = run(alloc, b"", 0, 1_000)?;
    let whole = done.disk.image(b"")?;
    let calls = done.disk.calls() as u64;
    assert!(rt; done.kept && calls > 6);
    // An append writes twice, each time with its sync.
    let mut opened = disk_of(alloc, b"", 0, 1_000)?;
    assert!(rt; opens(alloc, &mut opened)? == Found::Empty);
    assert!(rt; calls == (opened.calls() as u64).saturating_add(4));
    assert!(rt; all_images_go_on(alloc, &done, whole.bytes())?);
    assert!(rt; each_call_may_fail(alloc, whole.bytes(), calls)?);
    Ok(())
}
