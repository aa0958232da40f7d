//! The lines of a journal's text, replicated as the entries of a log.
use crate::play::{deliver_up_to, propose};
use ds_base::NoMemory;
use ds_journal_text::{JournalRefused, read_journal, write_journal};
use ds_paxos::World;
use std::alloc::{AllocError, Global};
use std::test::Fail;

const FIRST: &str =
    r#"{"client":0,"commit":1,"touched":[],"writes":[{"put":{"key":[["G","g"]],"properties":{"v":0}}}]}"#;

const SECOND: &str =
    r#"{"client":1,"commit":2,"touched":[[[["G","g"]],1]],"writes":[{"put":{"key":[["G","g"]],"properties":{"v":2}}}]}"#;

/// Puts the line that a member holds at a position behind a text. Gives whether it holds one.
fn put_held(
    world: &World,
    member: u32,
    position: u64,
    text: &mut Vec<u8>,
) -> Result<bool, NoMemory> {
    let Some(line) = world.held(member, 0, position) else {
        return Ok(false);
    };
    text.extend_from_slice(line.bytes())?;
    text.push(b'\n')?;
    Ok(true)
}

/// Whether each member holds the lines of this journal, and they are read as it.
fn comes_back(alloc: Global, world: &World, member: u32) -> Result<bool, NoMemory> {
    let mut text = Vec::new(alloc);
    if !put_held(world, member, 1, &mut text)? || !put_held(world, member, 2, &mut text)? {
        return Ok(false);
    }
    match read_journal(alloc, text.as_slice()) {
        Ok(journal) => {
            let whole = format!(in alloc; "{FIRST}\n{SECOND}\n")?;
            Ok(write_journal(alloc, &journal)?.bytes() == whole.as_str().as_bytes())
        }
        Err(JournalRefused::Line(_)) => Ok(false),
        Err(JournalRefused::NoMemory) => Err(AllocError),
    }
}

fn is_replicated(alloc: Global) -> Result<bool, NoMemory> {
    let mut world = World::make(alloc, 3)?;
    if !propose(alloc, &mut world, 0, 1, FIRST)? || !propose(alloc, &mut world, 1, 2, SECOND)? {
        return Ok(false);
    }
    deliver_up_to(alloc, &mut world, 100);
    Ok(
        comes_back(alloc, &world, 0)?
            && comes_back(alloc, &world, 1)?
            && comes_back(alloc, &world, 2)?,
    )
}

#[test]
fn a_journal_is_replicated(rt: HostRuntime) -> Result<(), Fail> {
    assert!(rt; is_replicated(rt.alloc())?);
    Ok(())
}
