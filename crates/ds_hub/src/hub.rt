//! How a hub is made.
ghost use Rattle.std.specs.Prelude.{◌≡◌, ◌++◌, ◌∷◌, ◌<◌, [], Some, None, false, replicate, IfOk};
ghost use Rattle.left_right.specs.Sides.{view as knows};
ghost use Rattle.ds_hub.specs.Holding.{IsOf, start_of};

use crate::NoMemory;
use crate::absorb::Absorb;
use crate::copies::Copies;
use crate::prefix::{Head, Prefix};
use crate::reader::{IdleReader, Reader};
use crate::readers::Readers;
use crate::rule::{Begins, HandsOn, Stays};
use crate::version::{Logged, Version};
use crate::writer::{Ruled, Writer};
use std::alloc::{AllocError, Global};
use std::sync::Wait;
use std::thread;

/// A hub: its one writer, and its readers.
pub struct Hub<O: Drop, S: Absorb<O> + Drop> {
    pub writer: Writer<O, S>,
    pub readers: Readers<O, S>,
}

/// Makes a hub of two equal states, with so many readers. The hub begins with that state, to which no operation of this hub was
/// applied: nothing is published or pending, and no reader has seen anything. Its log has room for two operations from the start,
/// and keeps it: no more are in it where each operation is published before the next is added. A place for a reader that
/// `left_right` refuses is asked for again, after a yield: `left_right` refuses one without cause only while readers come and go.
/// `Err` means out of memory.
pub fn make<O: Drop, S: Absorb<O> + Drop, Rt: Wait>(
    rt: &Rt,
    alloc: Global,
    first: S,
    second: S,
    readers: u32,
) -> Result<Hub<O, S>, NoMemory>
    requires some { 0 < readers }
    requires alike { S.state first ≡ S.state second }
    ensures writer { IfOk result (λ hub. (hub.writer.start ≡ Some (S.state first)) × (hub.writer.published ≡ [])
        × (hub.writer.pending ≡ []) × (hub.writer.is_parked ≡ false)) }
    ensures readers { IfOk result (λ hub. hub.readers ≡ replicate readers
        (record { hub = hub.writer.hub; start = Some (S.state first); known = [] })) }
{
    let (head, prefix) = Head::open();
    let mut copies = open(rt, alloc, first, second, &prefix, readers)?;
    let mut list = Readers::new(alloc);
    if seat_all(rt, &mut copies, &prefix, &mut list, readers).is_err() {
        copies.end(rt);
        return Err(AllocError);
    }
    Ok(Hub {
        writer: Writer {
            copies,
            head,
            announced: prefix,
            parked: None,
            waiting: 0,
        },
        readers: list,
    })
}

// The two copies, where the writer was told where the hub begins, with room in the log.
fn open<O: Drop, S: Absorb<O> + Drop, R: Wait>(
    rt: &R,
    alloc: Global,
    first: S,
    second: S,
    prefix: &Prefix<S::Told>,
    readers: u32,
) -> Result<Ruled<O, S>, AllocError>
    requires some { 0 < readers }
    requires alike { S.state first ≡ S.state second }
    requires empty { prefix.now.list ≡ [] }
    ensures shown { IfOk result (λ copies. (copies.shown.prefix ≡ prefix.now) × (S.state copies.shown.state ≡ S.state first)
        × (copies.log ≡ [])) }
    ensures knows { IfOk result (λ copies. copies.knows ≡ Some (record { start = S.state first; prefix = prefix.now })) }
{
    let first = Version {
        state: first,
        prefix: prefix.duplicate(),
    };
    let second = Version {
        state: second,
        prefix: prefix.duplicate(),
    };
    let mut copies = Copies::new(alloc, first, second, readers)?;
    match begin(rt, &mut copies, prefix) {
        Ok(()) => Ok(copies),
        Err(refused) => {
            copies.end(rt);
            Err(refused)
        }
    }
}

// Tells the writer where the hub begins. Two entries that change nothing go through the log, so that it has room for the operation
// that the spare copy lacks and for the next. `Err` means out of memory.
fn begin<O: Drop, S: Absorb<O> + Drop, R: Wait>(
    rt: &R,
    copies: &mut Ruled<O, S>,
    prefix: &Prefix<S::Told>,
) -> Result<(), AllocError>
    requires here { copies.old.shown.prefix ≡ prefix.now }
    requires empty { prefix.now.list ≡ [] }
    requires idle { copies.old.log ≡ [] }
    ensures shown { IfOk result (λ _. (copies.new.shown.prefix ≡ prefix.now)
        × (S.state copies.new.shown.state ≡ S.state copies.old.shown.state) × (copies.new.log ≡ [])) }
    ensures knows { IfOk result (λ _. copies.new.knows
        ≡ Some (record { start = S.state copies.old.shown.state; prefix = prefix.now })) }
{
    append_nothing(copies, prefix)?;
    append_nothing(copies, prefix)?;
    copies.publish_as::<Begins<O>, R>(rt)?;
    copies.publish_as::<Stays<O>, R>(rt)
}

// Puts an entry into the log that changes nothing. `Err` means out of memory.
fn append_nothing<O: Drop, S: Absorb<O> + Drop>(
    copies: &mut Ruled<O, S>,
    prefix: &Prefix<S::Told>,
) -> Result<(), AllocError>
    ensures { IfOk result (λ _. copies.new ≡ record copies.old {
      log = copies.old.log ++ record { operation = None; mark = prefix.now } ∷ [];
    }) }
{
    let nothing = Logged {
        operation: None,
        mark: prefix.duplicate(),
    };
    match copies.append(nothing) {
        Ok(()) => Ok(()),
        Err(_) => Err(AllocError),
    }
}

// A reader that was told where the hub begins. It waits for a place, where one is refused without cause.
fn seat<O: Drop, S: Absorb<O> + Drop, R: Wait>(rt: &R, copies: &mut Ruled<O, S>) -> IdleReader<O, S>
    ensures copies { (copies.new.shown ≡ copies.old.shown) × (copies.new.log ≡ copies.old.log) × (copies.new.knows ≡ copies.old.knows) }
    ensures told { knows result.place ≡ copies.old.knows }
{
    for _ in rt.forever() {
        if let Ok(reader) = copies.reader::<HandsOn, HandsOn>() {
            return reader;
        }
        thread::yield_now();
    }
    unreachable!()
}

// So many readers. `Err` means out of memory.
fn seat_all<O: Drop, S: Absorb<O> + Drop, R: Wait>(
    rt: &R,
    copies: &mut Ruled<O, S>,
    prefix: &Prefix<S::Told>,
    list: &mut Readers<O, S>,
    count: u32,
) -> Result<(), AllocError>
    requires told { IsOf prefix.now.hub copies.old.knows }
    requires empty { list.old ≡ [] }
    ensures copies { (copies.new.shown ≡ copies.old.shown) × (copies.new.log ≡ copies.old.log) × (copies.new.knows ≡ copies.old.knows) }
    ensures list { IfOk result (λ _. list.new ≡ replicate count
        (record { hub = prefix.now.hub; start = start_of copies.old.knows; known = prefix.now.list })) }
{
    for _place in 0..count {
        let reader = Reader {
            reader: seat(rt, copies),
            prefix: prefix.duplicate(),
        };
        if list.push(reader).is_err() {
            return Err(AllocError);
        }
    }
    Ok(())
}
