//! The members of a reply, before they are written.
ghost use Rattle.std.specs.Prelude.{◌≡◌, ◌≤◌, ◌+◌, ◌++◌, map, length};
ghost use Rattle.serde_json.specs.Data.{string, array};
ghost use Rattle.arrayvec.specs.ArrayVec.{array_vec_len};
ghost use Rattle.ds_json_printing.specs.Printing.{natural, key_data, optional_key_data};
ghost use Rattle.ds_reply.specs.EntityPrinting.{optional_entity_data};
ghost use Rattle.ds_reply.specs.Results.{result_items, count_items};
ghost use Rattle.ds_json_printing.specs.Objects.{named};
ghost use Rattle.ds_reply.specs.MemberNames.{name_text};
ghost use Rattle.ds_reply.specs.Shown.{member_named};

use crate::member_name::{MemberName, compare_names};
use crate::order::HasName;
use arrayvec::ArrayVec;
use ds_base::{Counts, Key};
use ds_entity::{Entity, Results};
use ds_indexdef::IndexDef;
use ds_query::{Constraint, Select};
use std::cmp::Ordering;

/// What stands in a member.
#[derive(Clone, Copy)]
pub(crate) enum Shown<'a> {
    Null,
    Flag(bool),
    Number(u64),
    /// The bytes of a text.
    Text(&'a [u8]),
    Key(&'a Key),
    Entity(&'a Entity),
    /// One number for each shard.
    Counts(&'a Counts),
    Results(&'a Select, &'a Results),
    Constraint(&'a Constraint),
    Index(&'a IndexDef),
}

/// A member: its name, and what stands there.
#[derive(Clone, Copy)]
pub(crate) struct Member<'a> {
    pub(crate) name: MemberName,
    pub(crate) shown: Shown<'a>,
}

/// The members of a reply: no reply has more than eight.
pub(crate) type Members<'a> = ArrayVec<Member<'a>, 8>;

impl Default for Member<'_> {
    fn default() -> Self {
        Member {
            name: MemberName::Ok,
            shown: Shown::Null,
        }
    }
}

impl HasName for Member<'_> {
    ghost text = { λ m. name_text m.name };

    fn compare(&self, other: &Self) -> Ordering {
        compare_names(self.name, other.name)
    }
}

/// Puts more members behind the others.
pub(crate) fn add_members<'a>(members: &mut Members<'a>, more: &[Member<'a>])
    requires { array_vec_len members.old + length more.now ≤ 8 }
    ensures { members.new.items ≡ members.old.items ++ more.now }
{
    for member in more {
        members.push(*member);
    }
}

/// A member that is a number.
pub(crate) fn number<'a>(name: MemberName, n: u64) -> Member<'a>
    ensures { member_named result ≡ named (name_text name) (natural n) }
{
    let shown = Shown::Number(n);
    Member { name, shown }
}

/// A member that is a text.
pub(crate) fn text<'a>(name: MemberName, text: &'a [u8]) -> Member<'a>
    ensures { member_named result ≡ named (name_text name) (string text.now) }
{
    let shown = Shown::Text(text);
    Member { name, shown }
}

/// A member that is a key.
pub(crate) fn key<'a>(name: MemberName, key: &'a Key) -> Member<'a>
    ensures { member_named result ≡ named (name_text name) (key_data key.now) }
{
    let shown = Shown::Key(key);
    Member { name, shown }
}

/// A member that is one number for each shard.
pub(crate) fn counts<'a>(name: MemberName, counts: &'a Counts) -> Member<'a>
    ensures { member_named result ≡ named (name_text name) (array (count_items counts.now)) }
{
    let shown = Shown::Counts(counts);
    Member { name, shown }
}

/// A member that is a key, or null where there is none.
pub(crate) fn optional_key<'a>(name: MemberName, key: &'a Option<Key>) -> Member<'a>
    ensures { member_named result ≡ named (name_text name) (optional_key_data key.now) }
{
    let shown = match key {
        Some(key) => Shown::Key(key),
        None => Shown::Null,
    };
    Member { name, shown }
}

/// A member that is an entity, or null where there is none.
pub(crate) fn optional_entity<'a>(name: MemberName, entity: &'a Option<Entity>) -> Member<'a>
    ensures { member_named result ≡ named (name_text name) (optional_entity_data entity.now) }
{
    let shown = match entity {
        Some(entity) => Shown::Entity(entity),
        None => Shown::Null,
    };
    Member { name, shown }
}

/// A member that is a query's results.
pub(crate) fn results<'a>(name: MemberName, select: &'a Select, results: &'a Results) -> Member<'a>
    ensures { member_named result ≡ named (name_text name) (array (result_items select.now results.now)) }
{
    let shown = Shown::Results(select, results);
    Member { name, shown }
}
