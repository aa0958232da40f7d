//! Slots of two hubs at once, readers in a list, and what the hub of a journal needs: what stands for an operation is told, and a
//! publish wants no memory.
ghost use Rattle.std.specs.Prelude.{◌≡◌, ◌∷◌, [], IfOk, IfSome};
ghost use mathlib.Core.List.{IsPrefix};

use crate::hub::look;
use crate::opened::{Sum, TwoReaders, two_readers};
use ds_hub::{
    Absorb, Hub, Itself, NoMemory, Note, Reader, Readers, Slot, Writer, enter_all, leave_all, make,
};
use std::alloc::Global;
use std::sync::Wait;
use std::test::Fail;

const ROOM: u64 = 1 << 32;

// Publishes a number. Once it was added there is memory for it: by its clause the publish can't fail.
fn publish_one<R: Wait>(rt: &R, writer: &mut Writer<u64, Sum>, number: u64) -> bool
    requires idle { writer.old.pending ≡ [] }
    ensures hub { writer.new.hub ≡ writer.old.hub }
    ensures idle { writer.new.pending ≡ [] }
{
    if writer.published() >= ROOM || writer.add(number).is_err() {
        return false;
    }
    writer.take_in_parked(rt);
    writer.publish(rt).unwrap();
    true
}

// Whether two slots show these sums, `None` where they have no view.
fn show(slots: &[Slot<u64, Sum>], one: Option<u64>, other: Option<u64>) -> bool {
    match slots {
        [first, second] => sum_in(first) == one && sum_in(second) == other,
        _ => false,
    }
}

fn sum_in(slot: &Slot<u64, Sum>) -> Option<u64> {
    slot.state().map(|sum| sum.0)
}

// Enters two slots of two hubs together and leaves them, and says whether they showed 7 and 9 inside. A view that wasn't left would
// hold the publishes behind it back.
fn in_and_out<R: Wait>(
    rt: &R,
    first: &mut Writer<u64, Sum>,
    second: &mut Writer<u64, Sum>,
    slots: &mut [Slot<u64, Sum>],
) -> bool
    requires idle { (first.old.pending ≡ []) × (second.old.pending ≡ []) }
    ensures idle { (first.new.pending ≡ []) × (second.new.pending ≡ []) }
{
    let told = publish_one(rt, first, 7);
    let both = publish_one(rt, second, 9);
    let before = show(slots, None, None);
    let entered = enter_all(slots);
    let inside = show(slots, Some(7), Some(9));
    leave_all(slots);
    let after = show(slots, None, None);
    let again = publish_one(rt, first, 1);
    let at_last = publish_one(rt, first, 1);
    told && both && before && entered && inside && after && again && at_last
}

// Whether slots of two hubs are entered and left together, and not once a hub has ended.
fn follow_two_hubs<R: Wait>(rt: &R, alloc: Global) -> Result<(bool, bool), NoMemory> {
    let TwoReaders {
        writer: mut first,
        one,
        two: _two,
    } = new_hub(rt, alloc)?;
    let TwoReaders {
        writer: mut second,
        one: other,
        two: _other_two,
    } = new_hub(rt, alloc)?;
    let mut slots = vec![in alloc; Slot::new(one), Slot::new(other)]?;
    let done = in_and_out(
        rt,
        &mut first.writer,
        &mut second.writer,
        slots.as_mut_slice(),
    );
    drop(second);
    let refused = !enter_all(slots.as_mut_slice());
    Ok((done, refused))
}

// A hub that ends with what holds it.
fn new_hub<'a, R: Wait>(rt: &'a R, alloc: Global) -> Result<TwoReaders<&'a R>, NoMemory>
    ensures { IfOk result (λ hub. (hub.writer.writer.published ≡ []) × (hub.writer.writer.pending ≡ [])) }
{
    two_readers(rt, rt, alloc)
}

// Enters, and drops what it entered.
fn drop_inside(mut slot: Slot<u64, Sum>) -> bool {
    slot.enter()
}

// Whether a dropped slot holds no publish back.
fn is_left_by_a_drop<R: Wait>(rt: &R, alloc: Global) -> Result<bool, NoMemory> {
    let TwoReaders {
        mut writer,
        one,
        two,
    } = new_hub(rt, alloc)?;
    let entered = drop_inside(Slot::new(one));
    let first = publish_one(rt, &mut writer.writer, 3);
    let second = publish_one(rt, &mut writer.writer, 4);
    let seen = look(two).1 == Some(7);
    Ok(entered && first && second && seen)
}

// A slot learns what is published, and tells it to a reader. The writer confirms what it learnt, and what the reader knows then.
fn learns<R: Wait>(
    rt: &R,
    writer: &mut Writer<u64, Sum>,
    mut slot: Slot<u64, Sum>,
    reader: &mut Reader<u64, Sum>,
) -> Option<u64>
    requires hub { slot.hub ≡ writer.old.hub }
    requires same { reader.old.hub ≡ writer.old.hub }
    requires idle { writer.old.pending ≡ [] }
{
    let published = publish_one(rt, writer, 7);
    slot.learn(writer.tell());
    let note = slot.tell();
    writer.confirm_note(rt, &note);
    reader.learn(note);
    let known = confirmed(rt, writer, reader);
    if published && slot.len() == known {
        Some(known)
    } else {
        None
    }
}

// How much a reader knows, which begins what is published.
fn confirmed<R: Wait>(rt: &R, writer: &Writer<u64, Sum>, reader: &Reader<u64, Sum>) -> u64
    requires { reader.now.hub ≡ writer.now.hub }
    ensures { IsPrefix reader.now.known writer.now.published }
{
    writer.confirm(rt, reader);
    reader.len()
}

fn learnt<R: Wait>(rt: &R, alloc: Global) -> Result<Option<u64>, NoMemory> {
    let TwoReaders {
        mut writer,
        one,
        mut two,
    } = new_hub(rt, alloc)?;
    Ok(learns(rt, &mut writer.writer, Slot::new(one), &mut two))
}

// Takes the last of two readers out, lets it look, and puts it into the place of the first, which goes behind it: how much each place
// then knows.
fn exchanged(mut readers: Readers<u64, Sum>) -> Option<(u64, u64)> {
    let (last, _) = look(readers.pop()?);
    if readers.len() == 0 {
        return None;
    }
    let first = readers.replace(0, last);
    readers.push(first).ok()?;
    let list = Readers::from(readers.into_vec());
    Some((list.get(0)?.len(), list.get(1)?.len()))
}

#[test]
fn readers_are_taken_out_and_put_back(rt: HostRuntime) -> Result<(), Fail> {
    let Hub {
        mut writer,
        readers,
    } = make(&rt, rt.alloc(), Sum(0), Sum(0), 2)?;
    let published = publish_one(&rt, &mut writer, 7);
    let known = exchanged(readers);
    writer.end(&rt);
    assert!(rt; published);
    assert!(rt; known == Some((1, 0)));
    Ok(())
}

/// A count of what was told, which keeps none of it: an operation says no more than "one more".
#[derive(Drop)]
struct Tally(u64);

impl Absorb<()> for Tally {
    ghost use Rattle.std.specs.Prelude.{◌+◌, ◌%◌, ◌^◌};

    type State = u64;

    type Told = u64;

    ghost state = { λ s. s.0 };

    ghost applied = { λ count operation. (count + 1) % 2 ^ 64 };

    ghost asks = { λ told. tt };

    ghost never_fails = { Unit {0} };

    fn absorb(&mut self, _operation: &()) -> Result<(), NoMemory> {
        self.0 = self.0.wrapping_add(1);
        Ok(())
    }
}

// Tells a number by reference, which is copied nowhere, and publishes it: the note tells just that.
fn tell_one<R: Wait>(rt: &R, writer: &mut Writer<(), Tally>, number: &u64) -> Option<Note<u64>>
    requires { (writer.old.published ≡ []) × (writer.old.pending ≡ []) }
    ensures { IfSome result (λ note. note.list ≡ number.now ∷ []) }
{
    if writer.add_as::<u64, Itself>((), number).is_err() {
        return None;
    }
    writer.take_in_parked(rt);
    writer.publish(rt).unwrap();
    Some(writer.tell())
}

// The count that a reader sees, and how long the list is that its view tells.
fn tallied(reader: Reader<(), Tally>) -> Option<(u64, u64)> {
    let view = reader.enter().ok()?;
    let seen = (view.state().0, view.tell().duplicate().len());
    view.leave();
    Some(seen)
}

#[test]
fn what_stands_for_an_operation_is_told(rt: HostRuntime) -> Result<(), Fail> {
    let Hub {
        mut writer,
        mut readers,
    } = make(&rt, rt.alloc(), Tally(0), Tally(0), 1)?;
    let told = tell_one(&rt, &mut writer, &5).map(|note| note.len());
    let seen = readers.pop().and_then(tallied);
    writer.end(&rt);
    assert!(rt; told == Some(1));
    assert!(rt; seen == Some((1, 1)));
    Ok(())
}

#[test]
fn slots_are_entered_and_left(rt: HostRuntime) -> Result<(), Fail> {
    assert!(rt; follow_two_hubs(&rt, rt.alloc())? == (true, true));
    assert!(rt; is_left_by_a_drop(&rt, rt.alloc())?);
    assert!(rt; learnt(&rt, rt.alloc())? == Some(1));
    Ok(())
}
