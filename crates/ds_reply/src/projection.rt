//! The values of a projection, by name.
ghost use Rattle.std.specs.Prelude.{◌≡◌, ◌<◌, ◌≤◌, ◌⊎◌, ℕ, [], length, false, true, slice_index, slice_index_or};
ghost use Rattle.serde_json.specs.Written.{members_text};
ghost use Rattle.ds_json_printing.specs.Objects.{named, by_name};
ghost use Rattle.ds_json_printing.specs.Printing.{index_value_data};
ghost use Rattle.ds_reply.specs.Results.{projected};
ghost use Rattle.ds_reply.specs.Orders.{IsOrder, NamesAscend, OrdersByName, member_text};
ghost use Rattle.ds_reply.specs.Projections.{before, is_past, IsNextPlace};

use crate::order::{HasName, MOST_PLACES, Places, places_by_name};
use ds_base::{IndexValue, TextString};
use ds_json_printing::{Output, write_comma, write_index_value, write_text};
use std::cmp::Ordering;

/// In which order the values of a projection are written.
#[derive(Drop)]
pub(crate) enum Order {
    /// As they are given: the names ascend.
    AsGiven,
    /// In the order of these places.
    ByPlaces(Places),
    /// There are more names than are ordered without memory.
    Unknown,
}

impl HasName for TextString {
    ghost text = { λ t. t };

    fn compare(&self, other: &Self) -> Ordering {
        self.cmp(other)
    }
}

/// In which order the values of these names are written: it is the same for each result of a query.
pub(crate) fn order_of(names: &[TextString]) -> Order
    ensures { IsOrder names.now result }
{
    if are_ascending(names) {
        Order::AsGiven
    } else if names.len() <= MOST_PLACES {
        Order::ByPlaces(places_by_name(names))
    } else {
        Order::Unknown
    }
}

/// Whether each name comes before the next.
fn are_ascending(names: &[TextString]) -> bool
    ensures { result ≡ true → NamesAscend names.now }
{
    for k in 1..names.len() {
        if !comes_before(names[k - 1].bytes(), names[k].bytes()) {
            return false;
        }
    }
    true
}

/// Puts the values by name, in byte order, and the closing brace. Of equal names the last counts.
pub(crate) fn write_projected<O: Output>(
    names: &[TextString],
    order: &Order,
    values: &[IndexValue],
    out: &mut O,
)
    requires { IsOrder names.now order.now }
    ensures { O.Writes (members_text false (by_name (projected names.now values.now))) out.old out.new }
{
    match order {
        Order::AsGiven => write_in_turn(names, values, out),
        Order::ByPlaces(places) if names.len() <= values.len() => {
            write_at_places(names, places.as_slice(), values, out)
        }
        _ => write_by_search(names, values, out),
    }
}

/// Puts the values of ascending names as they are given.
fn write_in_turn<O: Output>(names: &[TextString], values: &[IndexValue], out: &mut O)
    requires { NamesAscend names.now }
    ensures { O.Writes (members_text false (by_name (projected names.now values.now))) out.old out.new }
{
    let mut later = false;
    for i in 0..names.len().min(values.len()) {
        write_comma(later, out);
        write_value_of(&names[i], &values[i], out);
        later = true;
    }
    out.put(b"}");
}

/// Puts the values at the places, one after another.
fn write_at_places<O: Output>(
    names: &[TextString],
    places: &[u8],
    values: &[IndexValue],
    out: &mut O,
)
    requires ordered { OrdersByName names.now (length names.now) places.now }
    requires given { length names.now ≤ length values.now }
    ensures { O.Writes (members_text false (by_name (projected names.now values.now))) out.old out.new }
{
    let mut later = false;
    for place in places {
        let i = *place as usize;
        write_comma(later, out);
        write_value_of(&names[i], &values[i], out);
        later = true;
    }
    out.put(b"}");
}

/// Puts a name, a colon and a value.
fn write_value_of<O: Output>(name: &TextString, value: &IndexValue, out: &mut O)
    ensures { O.Writes (member_text (named name.now (index_value_data value.now))) out.old out.new }
{
    write_text(name, out);
    out.put(b":");
    write_index_value(value, out);
}

/// Puts the values by looking each time for the least name that isn't written yet, since sorting so many names would take
/// memory.
fn write_by_search<O: Output>(names: &[TextString], values: &[IndexValue], out: &mut O)
    ensures { O.Writes (members_text false (by_name (projected names.now values.now))) out.old out.new }
{
    let mut later = false;
    let mut last: &[u8] = b"";
    while let Some(place) = next_place(names, values, later, last) {
        write_comma(later, out);
        write_value_of(&names[place], &values[place], out);
        last = names[place].bytes();
        later = true;
    }
    out.put(b"}");
}

/// The place of the least name, behind `last` once one was written; of equal names the last.
fn next_place(
    names: &[TextString],
    values: &[IndexValue],
    later: bool,
    last: &[u8],
) -> Option<usize>
    ensures { IsNextPlace names.now values.now later last.now result }
{
    let count = names.len().min(values.len());
    let mut best = count;
    for i in 0..count {
        if is_better(names, count, later, last, best, i) {
            best = i;
        }
    }
    if best < count { Some(best) } else { None }
}

/// Whether the name at `i` is to be written and doesn't come behind the best so far, which is `count` where there is none.
fn is_better(
    names: &[TextString],
    count: usize,
    later: bool,
    last: &[u8],
    best: usize,
    i: usize,
) -> bool
    requires count { count ≤ length names.now }
    requires place { i < length names.now }
    ensures yes { result ≡ true → (is_past later last.now (slice_index_or names.now i []) ≡ true)
        × (best < count → before (slice_index_or names.now best []) (slice_index_or names.now i []) ≡ false) }
    ensures no { result ≡ false → (is_past later last.now (slice_index_or names.now i []) ≡ false)
        ⊎ ((is_past later last.now (slice_index_or names.now i []) ≡ true) × (best < count)
        × (before (slice_index_or names.now best []) (slice_index_or names.now i []) ≡ true)) }
{
    if !is_unwritten(later, last, names[i].bytes()) {
        return false;
    }
    if best >= count {
        return true;
    }
    !comes_before(names[best].bytes(), names[i].bytes())
}

/// Whether nothing was written yet, or the name comes behind the last that was.
fn is_unwritten(later: bool, last: &[u8], name: &[u8]) -> bool
    ensures { result ≡ is_past later last.now name.now }
{
    if later {
        comes_before(last, name)
    } else {
        true
    }
}

fn comes_before(name: &[u8], other: &[u8]) -> bool
    ensures { result ≡ before name.now other.now }
{
    name.cmp(other).is_lt()
}
