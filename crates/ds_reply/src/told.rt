//! What a body tells beside the client and the line.
ghost use Rattle.std.specs.Prelude.{◌≡◌, ◌≤◌, ◌++◌, Some, length, map, option_map};
ghost use Rattle.arrayvec.specs.ArrayVec.{array_vec_len};
ghost use Rattle.ds_reply.specs.Refusals.{refused};
ghost use Rattle.ds_reply.specs.Replies.{done};
ghost use Rattle.ds_reply.specs.Shown.{member_named};

use crate::member::{Member, Members, add_members, number, text};
use crate::member_name::MemberName;
use arrayvec::ArrayVec;

/// The members that a body tells, at most five.
#[derive(Drop)]
pub(crate) struct Told<'a> {
    pub(crate) members: Members<'a>,
    ghost few: { array_vec_len members ≤ 5 },
}

impl<'a> Told<'a> {
    /// What a refusal tells: its number, more, and its name.
    pub(crate) fn refused(code: u64, name: &'static [u8], more: &[Member<'a>]) -> Option<Told<'a>>
        requires { length more.now ≤ 3 }
        ensures { option_map (λ t. map member_named t.members.items) result ≡ Some (refused code name.now (map member_named more.now)) }
    {
        let mut members = ArrayVec::new();
        members.push(number(MemberName::Error, code));
        add_members(&mut members, more);
        members.push(text(MemberName::Name, name));
        Some(Told { members })
    }

    /// What tells that an operation went well: more, and the operation.
    pub(crate) fn done(op: &'static [u8], more: &[Member<'a>]) -> Option<Told<'a>>
        requires { length more.now ≤ 4 }
        ensures { option_map (λ t. map member_named t.members.items) result ≡ Some (done op.now (map member_named more.now)) }
    {
        let mut members = ArrayVec::new();
        add_members(&mut members, more);
        members.push(text(MemberName::Ok, op));
        Some(Told { members })
    }

    /// Puts the members behind others.
    pub(crate) fn put(&self, members: &mut Members<'a>)
        requires { array_vec_len members.old ≤ 2 }
        ensures items { map member_named members.new.items ≡ map member_named members.old.items ++ map member_named self.now.members.items }
        ensures few { array_vec_len members.new ≤ 7 }
    {
        add_members(members, self.members.as_slice());
    }
}
