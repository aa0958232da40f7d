//! One hub by its public calls: two readers beside the writer, notes of the writer and of a reader, and the two forms of absorbing.
ghost use Rattle.std.specs.Prelude.{◌≡◌, []};

use crate::opened::{Sum, TwoReaders, two_readers};
use ds_hub::{Absorb, Hub, NoMemory, Reader, Writer, make};
use std::sync::Wait;
use std::test::Fail;
use std::thread::{Threads, join};

const ROOM: u64 = 1 << 32;

const ALL: u64 = 200;

// Publishes 1, 2, up to ALL, three at a time.
fn publish_all<R: Wait>(rt: &R, writer: &mut Writer<u64, Sum>) -> bool {
    let mut done = true;
    for n in 1..=ALL {
        if writer.published() >= ROOM || writer.pending() >= ROOM {
            return false;
        }
        done = writer.add(n).is_ok() && done;
        if n % 3 == 0 {
            done = writer.publish(rt).is_ok() && done;
        }
    }
    writer.publish(rt).is_ok() && done
}

// A reader that watched, and whether no sum was below the one before.
type Watcher = Option<(Reader<u64, Sum>, bool)>;

// Enters many times, and says whether no sum was below the one before.
fn watch(mut reader: Reader<u64, Sum>) -> Watcher {
    let mut last = 0;
    let mut grows = true;
    for _ in 0..500 {
        let view = reader.enter().ok()?;
        let sum = view.state().0;
        grows = last <= sum && grows;
        last = sum;
        reader = view.leave();
    }
    Some((reader, grows))
}

// The reader after it saw what is published, with the sum of that.
pub(crate) fn look(reader: Reader<u64, Sum>) -> (Reader<u64, Sum>, Option<u64>) {
    match reader.enter() {
        Ok(view) => {
            let sum = view.state().0;
            (view.leave(), Some(sum))
        }
        Err(reader) => (reader, None),
    }
}

fn sum_of(reader: Reader<u64, Sum>) -> Option<u64> {
    look(reader).1
}

// Publishes all while two readers watch.
fn watched<R: Threads + Wait + Sync>(
    rt: &R,
    writer: &mut Writer<u64, Sum>,
    one: Option<Reader<u64, Sum>>,
    two: Option<Reader<u64, Sum>>,
) -> (bool, Watcher, Watcher) {
    let (done, (one, two)) = join(
        rt,
        || publish_all(rt, writer),
        || join(rt, || one.and_then(watch), || two.and_then(watch)),
    );
    (done, one, two)
}

// Whether no sum was below the one before, and the last is that of all numbers.
fn saw_all(watcher: Watcher) -> bool {
    match watcher {
        Some((reader, grows)) => grows && sum_of(reader) == Some(ALL * (ALL + 1) / 2),
        None => false,
    }
}

#[test]
fn readers_follow_the_writer(rt: HostRuntime) -> Result<(), Fail> {
    let Hub {
        mut writer,
        mut readers,
    } = make(&rt, rt.alloc(), Sum(0), Sum(0), 2)?;
    let (one, two) = (readers.pop(), readers.pop());
    let (done, one, two) = watched(&rt, &mut writer, one, two);
    let (one_saw, two_saw) = (saw_all(one), saw_all(two));
    writer.end(&rt);
    assert!(rt; done);
    assert!(rt; one_saw);
    assert!(rt; two_saw);
    Ok(())
}

fn has_ended(reader: Reader<u64, Sum>) -> bool {
    match reader.enter() {
        Ok(view) => {
            view.leave();
            false
        }
        Err(_) => true,
    }
}

// Publishes 7 and then adds 8, and a reader learns what is told then, of which it sees 7 alone. It says whether the writer covers that.
fn told<R: Wait>(rt: &R, writer: &mut Writer<u64, Sum>, reader: &mut Reader<u64, Sum>) -> bool
    requires hub { reader.old.hub ≡ writer.old.hub }
    requires room { (writer.old.published ≡ []) × (writer.old.pending ≡ []) }
{
    let first = writer.add(7).is_ok();
    let published = writer.publish(rt).is_ok();
    let second = writer.add(8).is_ok();
    reader.learn(writer.tell());
    first && published && second && writer.covers(reader)
}

#[test]
fn a_note_is_seen_at_the_next_enter(rt: HostRuntime) -> Result<(), Fail> {
    let Hub {
        mut writer,
        mut readers,
    } = make(&rt, rt.alloc(), Sum(0), Sum(0), 1)?;
    let Some(mut reader) = readers.pop() else {
        writer.end(&rt);
        return Err("no reader".into());
    };
    let added = told(&rt, &mut writer, &mut reader);
    let counts = (writer.published(), writer.pending());
    let (reader, seen) = look(reader);
    writer.end(&rt);
    assert!(rt; added);
    assert!(rt; counts == (1, 1));
    assert!(rt; seen == Some(7));
    assert!(rt; has_ended(reader));
    Ok(())
}

// Publishes 7, of which one reader is told, who tells the other. It says whether the writer covers what the other then knows.
fn passed_on<R: Wait>(
    rt: &R,
    writer: &mut Writer<u64, Sum>,
    one: &mut Reader<u64, Sum>,
    two: &mut Reader<u64, Sum>,
) -> bool
    requires one { one.old.hub ≡ writer.old.hub }
    requires two { two.old.hub ≡ writer.old.hub }
{
    if writer.published() >= ROOM || writer.pending() >= ROOM {
        return false;
    }
    let added = writer.add(7).is_ok();
    let published = writer.publish(rt).is_ok();
    one.learn(writer.tell());
    two.learn(one.tell());
    added && published && writer.covers(two)
}

#[test]
fn a_reader_tells_what_it_learnt(rt: HostRuntime) -> Result<(), Fail> {
    let TwoReaders {
        mut writer,
        mut one,
        mut two,
    } = two_readers(&rt, &rt, rt.alloc())?;
    let covered = passed_on(&rt, &mut writer.writer, &mut one, &mut two);
    assert!(rt; covered);
    assert!(rt; sum_of(two) == Some(7));
    Ok(())
}

/// A sum that counts how often it was lent an operation, and how often it was given one.
#[derive(Drop)]
struct Lent {
    sum: u64,
    lent: u64,
    given: u64,
}

impl Absorb<u64> for Lent {
    ghost use Rattle.std.specs.Prelude.{◌+◌, ◌%◌, ◌^◌};

    type State = u64;

    type Told = u64;

    ghost state = { λ s. s.sum };

    ghost applied = { λ total x. (total + x) % 2 ^ 64 };

    ghost asks = { λ told. told };

    fn absorb(&mut self, operation: &u64) -> Result<(), NoMemory> {
        self.sum = self.sum.wrapping_add(*operation);
        self.lent = self.lent.wrapping_add(1);
        Ok(())
    }

    fn absorb_second(&mut self, operation: u64) -> Result<(), u64> {
        self.sum = self.sum.wrapping_add(operation);
        self.given = self.given.wrapping_add(1);
        Ok(())
    }
}

fn nothing_taken_in() -> Lent
    ensures { result.sum ≡ 0 }
{
    Lent {
        sum: 0,
        lent: 0,
        given: 0,
    }
}

// Publishes 3 and then 4, each by itself.
fn publish_two<R: Wait>(rt: &R, writer: &mut Writer<u64, Lent>) -> bool {
    let mut done = true;
    for n in 3..5 {
        if writer.published() >= ROOM || writer.pending() >= ROOM {
            return false;
        }
        done = writer.add(n).is_ok() && done;
        done = writer.publish(rt).is_ok() && done;
    }
    done
}

fn counts_of(reader: Reader<u64, Lent>) -> Option<(u64, u64, u64)> {
    let view = reader.enter().ok()?;
    let state = view.state();
    let counts = (state.sum, state.lent, state.given);
    view.leave();
    Some(counts)
}

#[test]
fn the_second_copy_is_given_the_operation(rt: HostRuntime) -> Result<(), Fail> {
    let Hub {
        mut writer,
        mut readers,
    } = make(&rt, rt.alloc(), nothing_taken_in(), nothing_taken_in(), 1)?;
    let done = publish_two(&rt, &mut writer);
    let counts = readers.pop().and_then(counts_of);
    writer.end(&rt);
    assert!(rt; done);
    assert!(rt; counts == Some((7, 1, 1)));
    Ok(())
}
