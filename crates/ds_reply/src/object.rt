//! Objects, their members by name.
ghost use Rattle.std.specs.Prelude.{◌≤◌, ◌<◌, ℕ, map, length, false, slice_index, ◌++◌};
ghost use Rattle.serde_json.specs.Written.{compact_text, comma_if, members_text};
ghost use Rattle.ds_json_printing.specs.Objects.{object_of};
ghost use Rattle.ds_reply.specs.Orders.{members_at, member_text};
ghost use Rattle.ds_reply.specs.Shown.{shown_data, member_named};

use crate::entities::write_entity;
use crate::member::{Member, Shown};
use crate::member_name::write_name;
use crate::order::places_by_name;
use crate::results::{write_constraint, write_counts, write_index_def, write_results};
use ds_json_printing::{Output, write_boolean, write_key, write_natural, write_string};

/// Puts the object of these members, by name in byte order, whatever the order in which they are given.
pub(crate) fn write_object<O: Output>(members: &[Member], out: &mut O)
    requires { length members.now ≤ 8 }
    ensures { O.Writes (compact_text (object_of (map member_named members.now))) out.old out.new }
{
    let places = places_by_name(members);
    out.put(b"{");
    write_members(members, places.as_slice(), out);
}

/// Puts the members at the places, one after another, and the closing brace.
fn write_members<O: Output>(members: &[Member], places: &[u8], out: &mut O)
    requires { (k : ℕ) → k < length places.now → slice_index places.now k < length members.now }
    ensures { O.Writes (members_text false (members_at (map member_named members.now) places.now)) out.old out.new }
{
    let mut later = false;
    for place in places {
        write_member(&members[*place as usize], later, out);
        later = true;
    }
    out.put(b"}");
}

/// Puts a member: a comma, where something stands before, its name, a colon, and what stands there.
fn write_member<O: Output>(member: &Member, later: bool, out: &mut O)
    ensures { O.Writes (comma_if later ++ member_text (member_named member.now)) out.old out.new }
{
    write_name(member.name, later, out);
    write_shown(&member.shown, out);
}

/// Puts what stands in a member.
fn write_shown<O: Output>(shown: &Shown, out: &mut O)
    ensures { O.Writes (compact_text (shown_data shown.now)) out.old out.new }
{
    match shown {
        Shown::Null => out.put(b"null"),
        Shown::Flag(flag) => write_boolean(*flag, out),
        Shown::Number(n) => write_natural(*n, out),
        Shown::Text(text) => write_string(text, out),
        Shown::Key(key) => write_key(key, out),
        Shown::Entity(entity) => write_entity(entity, out),
        Shown::Counts(counts) => {
            out.put(b"[");
            write_counts(counts.as_slice(), out);
        }
        Shown::Results(select, results) => {
            out.put(b"[");
            write_results(select, results.as_slice(), out);
        }
        Shown::Constraint(constraint) => write_constraint(constraint, out),
        Shown::Index(index) => write_index_def(index, out),
    }
}
