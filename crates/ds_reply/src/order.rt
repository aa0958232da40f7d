//! The places of things with names, by name in byte order.
ghost use Rattle.std.specs.Prelude.{◌≡◌, ℕ, List, ◌+◌, ◌<◌, ◌≤◌, length, map, slice_index, slice_index_or, []};
ghost use Rattle.std.specs.Ordering.{nat_cmp};
ghost use Rattle.std.specs.Cmp.Lexicographic.{slice_cmp};
ghost use Rattle.ds_reply.specs.Orders.{OrdersByName, Ranks};

use arrayvec::ArrayVec;
use std::cmp::Ordering;

/// Has a name by which it stands in an object.
pub(crate) trait HasName {
    ghost text: { Self → List ℕ };

    /// Which of the two names comes first in byte order.
    fn compare(&self, other: &Self) -> Ordering
        ensures { result ≡ slice_cmp nat_cmp (text self.now) (text other.now) };
}

/// How many things are ordered without memory.
pub(crate) const MOST_PLACES: usize = 64;

/// Places of things, in the order in which they are written.
pub(crate) type Places = ArrayVec<u8, MOST_PLACES>;

/// The places of the things, by name in byte order; of those with one name the last alone.
pub(crate) fn places_by_name<T: HasName>(items: &[T]) -> Places
    requires { length items.now ≤ 64 }
    ensures { OrdersByName (map T.text items.now) (length items.now) result.items }
{
    let mut places = ArrayVec::new();
    for i in 0..items.len() {
        place(items, &mut places, i);
    }
    places
}

/// Puts the place `i` where its name stands among the others.
fn place<T: HasName>(items: &[T], places: &mut Places, i: usize)
    requires within { i < length items.now }
    requires few { length items.now ≤ 64 }
    requires ordered { OrdersByName (map T.text items.now) i places.old.items }
    ensures { OrdersByName (map T.text items.now) (i + 1) places.new.items }
{
    match rank_of(items, places.as_slice(), i) {
        Rank::Before(at) => places.insert(at, i as u8),
        Rank::At(at) => places[at] = i as u8,
    }
}

/// Where a name stands among others.
enum Rank {
    /// At this place, before the names from there on.
    Before(usize),
    /// At the place that has it already.
    At(usize),
}

/// Where the name of the thing at `i` stands among those of the places, which are in order. It is looked for from the end,
/// since most things come in their order.
fn rank_of<T: HasName>(items: &[T], places: &[u8], i: usize) -> Rank
    requires within { i < length items.now }
    requires places { (k : ℕ) → k < length places.now → slice_index places.now k < length items.now }
    ensures { Ranks (map T.text items.now) places.now (slice_index_or (map T.text items.now) i []) result }
{
    let mut at = places.len();
    while at > 0 {
        match items[places[at - 1] as usize].compare(&items[i]) {
            Ordering::Less => return Rank::Before(at),
            Ordering::Equal => return Rank::At(at - 1),
            Ordering::Greater => at -= 1,
        }
    }
    Rank::Before(0)
}
