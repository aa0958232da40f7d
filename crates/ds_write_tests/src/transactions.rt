//! Transactions before their commit: how many groups and writes they take.
ghost use Rattle.std.specs.Prelude.{◌≡◌};

use crate::parts::key;
use ds_log::Heads;
use ds_txn::{Conflict, Txn, TxnRefused, WriteCause, WriteRefused};
use std::alloc::Global;
use std::test::Fail;

/// The names of 26 groups.
const GROUPS: [&str; 26] = [
    "a", "b", "c", "d", "e", "f", "g", "h", "i", "j", "k", "l", "m", "n", "o", "p", "q", "r", "s",
    "t", "u", "v", "w", "x", "y", "z",
];

/// Whether the group [T,name] can be touched at this place, and is then touched at the wanted one.
fn touches(
    alloc: Global,
    txn: &mut Txn,
    name: &str,
    place: u64,
    wanted: u64,
) -> Result<bool, Fail> {
    match txn.touch(key(alloc, name)?, place) {
        Ok(found) => Ok(found == wanted),
        Err(_) => Ok(false),
    }
}

/// Whether these groups are touched at places 0, 1, 2 and so on.
fn takes_groups(alloc: Global, txn: &mut Txn, groups: &[&str]) -> Result<bool, Fail> {
    for (i, group) in groups.iter().enumerate() {
        if !touches(alloc, txn, *group, i as u64, i as u64)? {
            return Ok(false);
        }
    }
    Ok(true)
}

fn may_touch(alloc: Global, txn: &Txn, name: &str) -> Result<bool, Fail> {
    let key = key(alloc, name)?;
    Ok(txn.may_touch(Some(&key)).is_ok())
}

/// The place at which the group [T,name] was touched.
fn place_of(alloc: Global, txn: &Txn, name: &str) -> Result<Option<u64>, Fail> {
    let key = key(alloc, name)?;
    Ok(txn.place(&key))
}

fn is_second_group(refused: Result<u64, TxnRefused>) -> bool {
    match refused {
        Err(TxnRefused::SecondGroup) => true,
        _ => false,
    }
}

fn is_too_many_groups(refused: Result<u64, TxnRefused>) -> bool {
    match refused {
        Err(TxnRefused::TooManyGroups) => true,
        _ => false,
    }
}

fn is_full_with_25(alloc: Global, txn: &mut Txn) -> Result<bool, Fail> {
    if !takes_groups(alloc, txn, &GROUPS[..25])? {
        return Ok(false);
    }
    let again = may_touch(alloc, txn, "a")?;
    let refuses = txn.may_touch(None).is_err();
    Ok(is_too_many_groups(txn.touch(key(alloc, "z")?, 0)) && again && refuses)
}

fn takes_25_groups(alloc: Global) -> Result<bool, Fail> {
    let mut txn = Txn::begin(alloc, true);
    is_full_with_25(alloc, &mut txn)
}

fn is_full_with_one(alloc: Global, txn: &mut Txn) -> Result<bool, Fail> {
    if !takes_groups(alloc, txn, &GROUPS[..1])? {
        return Ok(false);
    }
    Ok(is_second_group(txn.touch(key(alloc, "b")?, 0)))
}

fn takes_one_group(alloc: Global) -> Result<bool, Fail> {
    let mut txn = Txn::begin(alloc, false);
    is_full_with_one(alloc, &mut txn)
}

/// A second touch gives the first one's place.
fn is_touched_at_three(alloc: Global, txn: &mut Txn) -> Result<bool, Fail> {
    let first = touches(alloc, txn, "a", 3, 3)?;
    let second = touches(alloc, txn, "a", 7, 3)?;
    let place = place_of(alloc, txn, "a")?;
    let other = place_of(alloc, txn, "b")?;
    Ok(first && second && place == Some(3) && other.is_none())
}

fn keeps_the_first_place(alloc: Global) -> Result<bool, Fail> {
    let mut txn = Txn::begin(alloc, false);
    is_touched_at_three(alloc, &mut txn)
}

/// Whether the transaction takes a delete of [T,a].
fn deletes(alloc: Global, txn: &mut Txn) -> Result<bool, Fail> {
    Ok(txn.delete(key(alloc, "a")?).is_ok())
}

fn is_too_many_writes<K: Drop>(refused: Result<(), WriteRefused<K>>) -> bool {
    match refused {
        Err(
            WriteRefused {
                cause: WriteCause::TooManyWrites,
                thing: _,
            },
        ) => true,
        _ => false,
    }
}

fn is_full_with_500(alloc: Global, txn: &mut Txn) -> Result<bool, Fail> {
    for _ in 0..500 {
        if !deletes(alloc, txn)? {
            return Ok(false);
        }
    }
    let refused = is_too_many_writes(txn.delete(key(alloc, "a")?));
    Ok(refused && txn.may_write().is_err() && txn.writes() == 500)
}

fn takes_500_writes(alloc: Global) -> Result<bool, Fail> {
    let mut txn = Txn::begin(alloc, false);
    is_full_with_500(alloc, &mut txn)
}

fn is_first_conflict(answer: Result<(), Conflict>, commit: u64, place: u64) -> bool {
    match answer {
        Err(conflict) => {
            conflict.group == 0 && conflict.commit == commit && conflict.place == place
        }
        Ok(()) => false,
    }
}

/// The last commit that wrote [T,name].
fn last_of(alloc: Global, heads: &Heads, name: &str) -> Result<Option<u64>, Fail> {
    let key = key(alloc, name)?;
    Ok(heads.last(&key))
}

/// Whether a transaction that touched [T,a] at this place conflicts with commit 1, if it is to, or is free.
fn is_checked(alloc: Global, heads: &Heads, place: u64, conflicts: bool) -> Result<bool, Fail> {
    let mut txn = Txn::begin(alloc, false);
    let touched = touches(alloc, &mut txn, "a", place, place)?;
    let answer = txn.check(heads);
    let told = if conflicts {
        is_first_conflict(answer, 1, 1)
    } else {
        answer.is_ok()
    };
    Ok(touched && told)
}

/// Commit 1 wrote [T,a]: a transaction that touched it before conflicts by the heads, one that touched it since doesn't.
fn are_told(alloc: Global, heads: &Heads) -> Result<bool, Fail> {
    let last = last_of(alloc, heads, "a")?;
    let other = last_of(alloc, heads, "b")?;
    let before = is_checked(alloc, heads, 0, true)?;
    let since = is_checked(alloc, heads, 1, false)?;
    let noted = last == Some(1) && other.is_none() && heads.length() == 1;
    Ok(before && since && noted)
}

fn tell_conflicts(alloc: Global, heads: &mut Heads) -> Result<bool, Fail>
    requires { heads.old.commits ≡ 0 }
{
    heads.make_room(1)?;
    if heads.note(key(alloc, "a")?, 1).is_err() {
        return Ok(false);
    }
    heads.end_commit();
    are_told(alloc, heads)
}

fn heads_tell_conflicts(alloc: Global) -> Result<bool, Fail> {
    let mut heads = Heads::make(alloc);
    tell_conflicts(alloc, &mut heads)
}

/// With room made the next touch and the next write are taken, and the parts are what was given.
fn has_parts(alloc: Global, txn: &mut Txn) -> Result<bool, Fail> {
    txn.make_room()?;
    let touched = touches(alloc, txn, "a", 0, 0)?;
    let taken = deletes(alloc, txn)?;
    let parts = txn.parts(alloc)?;
    Ok(touched && taken && parts.touched.len() == 1 && parts.writes.len() == 1)
}

fn takes_with_room(alloc: Global) -> Result<bool, Fail> {
    let mut txn = Txn::begin(alloc, false);
    has_parts(alloc, &mut txn)
}

#[test]
fn transactions_keep_their_limits(rt: HostRuntime) -> Result<(), Fail> {
    let alloc = rt.alloc();
    assert!(rt; takes_25_groups(alloc)?);
    assert!(rt; takes_one_group(alloc)?);
    assert!(rt; keeps_the_first_place(alloc)?);
    assert!(rt; takes_500_writes(alloc)?);
    assert!(rt; heads_tell_conflicts(alloc)?);
    assert!(rt; takes_with_room(alloc)?);
    Ok(())
}
