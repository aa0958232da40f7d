//! How readers and seats come to know what is published and what was drawn.
ghost use Rattle.std.specs.Prelude.{◌≡◌, ◌+◌, ◌^◌, ◌<◌, ◌≤◌, ◌++◌, ◌∷◌, [], None, MatchBool, length};
ghost use mathlib.Core.List.{IsPrefix};

use crate::journal_state::JournalState;
use ds_draw::{Seat, Word};
use ds_hub::{Reader, Slot, Tells, Writer};
use ds_log::{Commit, Entry};
use ds_shard::ShardState;
use std::sync::Wait;
use std::thread;

/// Shows a reader of the journal all commits that are published.
pub fn see_all<R: Wait>(
    rt: &R,
    writer: &mut Writer<(), JournalState>,
    reader: &mut Reader<(), JournalState>,
)
    requires { reader.old.hub ≡ writer.old.hub }
    ensures writer { writer.new ≡ writer.old }
    ensures hub { reader.new.hub ≡ reader.old.hub }
    ensures all { reader.new.known ≡ writer.old.published }
    ensures grown { IsPrefix reader.old.known writer.old.published }
{
    writer.confirm(rt, reader);
    reader.learn(writer.tell());
}

/// Draws one number, once the word comes to stand at it.
pub fn draw_one<R: Wait>(rt: &R, word: &Word, seat: &mut Seat, number: u64)
    requires word { seat.old.word ≡ word.now.name }
    requires limit { number + 1 < 2 ^ 63 }
    ensures { seat.new ≡ record { word = seat.old.word; draws = seat.old.draws ++ number ∷ []; counter = number + 1 } }
{
    word.draw_at(rt, seat, number, 1);
}

/// Shows a pass's reader of a shard all entries that are published. A view is left before.
pub fn see_shard_in<R: Wait>(
    rt: &R,
    writer: &mut Writer<Entry, ShardState>,
    slot: &mut Slot<Entry, ShardState>,
)
    requires { slot.old.hub ≡ writer.old.hub }
    ensures writer { writer.new ≡ writer.old }
    ensures slot { slot.new ≡ record slot.old { known = writer.old.published; shown = None } }
    ensures grown { IsPrefix slot.old.known writer.old.published }
{
    writer.confirm_note(rt, &slot.tell());
    slot.learn(writer.tell());
}

/// Tells one commit more to the readers of the journal. It says whether it did; it didn't when out of memory, and nothing is changed.
pub fn tell<X, M: Tells<X, Commit>, R: Wait>(
    rt: &R,
    writer: &mut Writer<(), JournalState>,
    about: &X,
) -> bool
    requires idle { writer.old.pending ≡ [] }
    requires room { length writer.old.published < 2 ^ 62 }
    ensures hub { writer.new.hub ≡ writer.old.hub }
    ensures told { MatchBool result ((writer.new.published ≡ writer.old.published ++ M.told about.now ∷ []) × (writer.new.pending ≡ []))
        ((writer.new.published ≡ writer.old.published) × (writer.new.pending ≡ [])) }
{
    if writer.add_as::<X, M>((), about).is_err() {
        return false;
    }
    writer.take_in_parked(rt);
    writer.publish(rt).unwrap();
    true
}

/// Looks at a word until it isn't below a number, which the seat then knows.
pub fn look_up_to<R: Wait>(rt: &R, word: &Word, seat: &mut Seat, least: u64) -> u64
    requires { seat.old.word ≡ word.now.name }
    ensures seat { seat.new ≡ record { word = seat.old.word; draws = seat.old.draws; counter = result } }
    ensures risen { (seat.old.counter ≤ result) × (least ≤ result) }
    ensures limit { result < 2 ^ 63 }
{
    for _ in rt.forever() {
        let found = word.look(seat);
        if least <= found {
            return found;
        }
        thread::yield_now();
    }
    unreachable!()
}
