//! The file of the operating system.
use ds_disk::{Cause, Disk, FileDisk};
use std::fs;
use std::test::Fail;

// A disk of this name.
fn named<'a>(rt: &'a HostRuntime, name: &str) -> Result<FileDisk<&'a HostRuntime>, Fail> {
    Ok(FileDisk::new(rt, String::from_str(rt.alloc(), name)?))
}

// Whether the disk reads these bytes and no more.
fn holds<D: Disk>(disk: &mut D, bytes: &[u8]) -> bool {
    let mut buf = [0; 9];
    let read = disk.read(0, &mut buf);
    disk.len() == Ok(bytes.len() as u64) && read == Ok(bytes.len()) && buf.starts_with(bytes)
}

// Whether a piece is written and synced.
fn keeps<D: Disk>(disk: &mut D, at: u64, piece: &[u8]) -> bool {
    disk.write_at(at, piece).is_ok() && disk.sync().is_ok()
}

// Whether no call is answered.
fn is_refused<D: Disk>(disk: &mut D) -> bool {
    disk.len().is_err()
        && disk.read(0, &mut [0; 2]).is_err()
        && disk.write_at(0, b"xyz").is_err()
        && disk.cut(0).is_err()
        && disk.sync().is_err()
}

#[test]
fn a_file_keeps_what_is_written(rt: HostRuntime) -> Result<(), Fail> {
    let name = "ds_disk_tests_a_file_keeps";
    let _ = fs::remove_file(&rt, name);
    let mut disk = named(&rt, name)?;
    assert!(rt; !fs::exists(&rt, name)?, "it isn't opened yet");
    assert!(rt;
        holds(&mut disk, b"") && keeps(&mut disk, 2, b"abc") && holds(&mut disk, b"\0\0abc")
    );
    assert!(rt; keeps(&mut disk, 0, b"xyz") && disk.cut(9).is_ok() && keeps(&mut disk, 9, b""));
    drop(disk);
    let mut disk = named(&rt, name)?;
    assert!(rt; holds(&mut disk, b"xyzbc") && disk.cut(3).is_ok() && holds(&mut disk, b"xyz"));
    assert!(rt; disk.cause().is_none());
    assert!(rt; !keeps(&mut disk, 1 << 63, b"a"));
    assert!(rt; matches!(disk.cause(), Some(Cause::TooFar)));
    fs::remove_file(&rt, name)?;
    Ok(())
}

#[test]
fn a_file_has_one_server(rt: HostRuntime) -> Result<(), Fail> {
    let name = "ds_disk_tests_a_file_has_one_server";
    let mut first = named(&rt, name)?;
    assert!(rt; keeps(&mut first, 0, b"abc"));
    let mut second = named(&rt, name)?;
    assert!(rt; is_refused(&mut second));
    let cause = second.cause().ok_or("no cause")?;
    let told = format!(in rt.alloc(); "{cause}")?;
    assert_eq!(rt; told.as_str(), "the file is in use by another server");
    assert!(rt; holds(&mut first, b"abc"));
    drop(first);
    assert!(rt; holds(&mut second, b"abc"));
    drop(second);
    fs::remove_file(&rt, name)?;
    Ok(())
}

#[test]
fn what_is_no_file_is_refused(rt: HostRuntime) -> Result<(), Fail> {
    let mut missing = named(&rt, "ds_disk_tests_no_folder/file")?;
    assert!(rt; is_refused(&mut missing));
    assert!(rt; matches!(missing.cause(), Some(Cause::System(_))));
    let mut device = named(&rt, "/dev/null")?;
    assert!(rt; is_refused(&mut device));
    assert!(rt; matches!(device.cause(), Some(Cause::NotAFile)));
    let mut folder = named(&rt, ".")?;
    assert!(rt; is_refused(&mut folder));
    Ok(())
}
