//! Threads that draw from one word. What they drew is proved from the public clauses alone, and tested.
ghost use Rattle.std.specs.Prelude.{◌≡◌, ◌^◌, ◌<◌, ◌++◌, [], IfOk};
ghost use Rattle.ds_draw.specs.Draws.{HasEachOnce};

use crate::numbers::drew_all;
use crate::opened::{ThreeSeats, three_seats};
use ds_draw::{Drawn, Seat, Seats, Word, make};
use std::alloc::{AllocError, Global};
use std::sync::{Mutex, Wait};
use std::test::Fail;
use std::thread::{Threads, join};

const LIMIT: u64 = i64::MAX as u64;

// Draws single numbers where the word stands, each while it holds the lock, and collects them.
fn draw_many<Rt: Threads + Wait + Sync>(
    rt: &Rt,
    alloc: Global,
    word: &Word,
    turn: &Mutex<()>,
    mut seat: Seat,
    many: usize,
) -> Result<(Seat, Vec<u64>), AllocError>
    requires word { seat.word ≡ word.now.name }
    requires new { seat.draws ≡ [] }
    ensures { IfOk result (λ r. (r.0.word ≡ word.now.name) × (r.0.draws ≡ r.1.items)) }
{
    let mut numbers = Vec::new(alloc);
    for _ in 0..many {
        numbers.reserve(1)?;
        let guard = turn.lock(rt);
        let at = word.look(&mut seat);
        if at == LIMIT {
            break;
        }
        word.draw_at(rt, &mut seat, at, 1);
        numbers.push(at)?;
        drop(guard);
    }
    Ok((seat, numbers))
}

// Two threads draw from one word, which begins at 1: where it stands at the end, and what each drew.
fn two_threads<Rt: Threads + Wait + Sync>(
    rt: &Rt,
    alloc: Global,
    many: usize,
) -> Result<(u64, Vec<u64>, Vec<u64>), AllocError>
    ensures { IfOk result (λ r. HasEachOnce 1 r.0 (r.1.items ++ r.2.items)) }
{
    let Drawn { word, mut seats } = make(alloc, 1, 2)?;
    let (Some(second), Some(first)) = (seats.pop(), seats.pop()) else {
        unreachable!()
    };
    let lock = Mutex::new(());
    let (shared, turn) = (&word, &lock);
    let (one, other) = join(
        rt,
        move || -> Result<(Seat, Vec<u64>), AllocError>
            requires { (first.word ≡ shared.now.name) × (first.draws ≡ []) }
            ensures { IfOk result (λ r. (r.0.word ≡ shared.entry.now.name) × (r.0.draws ≡ r.1.items)) }
        { draw_many(rt, alloc, shared, turn, first, many) },
        move || -> Result<(Seat, Vec<u64>), AllocError>
            requires { (second.word ≡ shared.now.name) × (second.draws ≡ []) }
            ensures { IfOk result (λ r. (r.0.word ≡ shared.entry.now.name) × (r.0.draws ≡ r.1.items)) }
        { draw_many(rt, alloc, shared, turn, second, many) },
    );
    let (first, ones) = one?;
    let (second, others) = other?;
    let mut all = Vec::with_capacity(alloc, 2)?;
    all.push(first)?;
    all.push(second)?;
    let end = word.close(Seats::from(all));
    Ok((end, ones, others))
}

// Whether two threads draw 1,000 numbers each, each of them once.
fn each_is_drawn_once<Rt: Threads + Wait + Sync>(
    rt: &Rt,
    alloc: Global,
) -> Result<bool, AllocError> {
    let (end, ones, others) = two_threads(rt, alloc, 1000)?;
    let once = drew_all(1, &ones, &others, alloc)?;
    Ok(once && end == 2001 && ones.len() == 1000 && others.len() == 1000)
}

// Draws every second number, waiting for the word to come to each.
fn draw_every_second<Rt: Threads + Wait + Sync>(
    rt: &Rt,
    word: &Word,
    mut seat: Seat,
    first: u64,
) -> Seat
    requires word { seat.word ≡ word.now.name }
    requires first { first < 2 ^ 32 }
    ensures { result.word ≡ word.now.name }
{
    for i in 0..100 {
        word.draw_at(rt, &mut seat, first + 2 * i, 1);
    }
    seat
}

// Two threads draw in turn from one word, which begins at 1: what a look finds then, and whether the list of seats gave
// them out as it says.
fn in_turn<Rt: Threads + Wait + Sync>(rt: &Rt, alloc: Global) -> Result<(u64, bool), AllocError> {
    let Drawn { word, mut seats } = make(alloc, 1, 2)?;
    let had_two = seats.len() == 2 && seats.get(1).is_some() && seats.get(2).is_none();
    let (Some(even), Some(odd)) = (seats.pop(), seats.pop()) else {
        unreachable!()
    };
    let shared = &word;
    let (mut seat, other) = join(
        rt,
        move || -> Seat
            requires { even.word ≡ shared.now.name }
            ensures { result.word ≡ shared.entry.now.name }
        { draw_every_second(rt, shared, even, 2) },
        move || -> Seat
            requires { odd.word ≡ shared.now.name }
            ensures { result.word ≡ shared.entry.now.name }
        { draw_every_second(rt, shared, odd, 1) },
    );
    let has_none = seats.is_empty() && seats.pop().is_none();
    drop(other);
    Ok((word.look(&mut seat), had_two && has_none))
}

// Draws 5, 6 and 7 with one seat, and looks with another, which drew nothing.
fn look_without_a_draw<R: Wait>(rt: &R, alloc: Global) -> Result<u64, AllocError> {
    let ThreeSeats {
        word,
        mut one,
        mut two,
        ..
    } = three_seats(alloc, 5)?;
    word.draw_at(rt, &mut one, 5, 3);
    Ok(word.look(&mut two))
}

#[test]
fn numbers_are_drawn_once(rt: HostRuntime) -> Result<(), Fail> {
    assert!(rt; each_is_drawn_once(&rt, rt.alloc())?);
    assert!(rt; in_turn(&rt, rt.alloc())? == (201, true));
    assert!(rt; look_without_a_draw(&rt, rt.alloc())? == 8);
    Ok(())
}
