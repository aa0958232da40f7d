//! Where a write stands, and what it changes.
ghost use Rattle.std.specs.Prelude.{◌≡◌, true, false, is_some, IfSome};
ghost use Rattle.ds_base.specs.Keys.{KeyParts};
ghost use Rattle.ds_reply.specs.declared.reply.Body.TheVariants as body;
ghost use Rattle.ds_machine.specs.Told.{IsTold};
ghost use Rattle.ds_machine.specs.Turns.{IsWriteDue};
ghost use Rattle.ds_machine.specs.WritePlans.{IsWritePlan};

use crate::due::Turn;
use crate::state::State;
use ds_effects::effect::{Effect, GroupWrite, WriteCommit};
use ds_log::Write;
use ds_protocol::{draft_of_write, next_above};
use ds_reply::WriteAt;
use std::alloc::Global;

/// Where a write stands, and what it changes.
#[derive(Drop)]
pub(crate) struct WritePlan {
    pub(crate) at: WriteAt,
    pub(crate) effect: Effect,
}

impl State {
    /// Where a write stands that nothing refuses, and what it changes: a commit of its own outside a transaction, and a place of its
    /// group inside one. `None` means out of memory.
    pub(crate) fn place_write(&self, alloc: Global, turn: &Turn, write: Write) -> Option<WritePlan>
        requires { IsWriteDue self.now turn.now write }
        ensures plan { IfSome result (λ p. IsWritePlan self.now turn.now.session.now turn.now.client write p.at p.effect) }
        ensures told { IfSome result (λ p. (key : KeyParts)
            → IsTold self.now turn.now.session.now turn.now.gathered.now turn.now.taken (body.Put key p.at) p.effect) }
    {
        if turn.session.in_transaction() {
            self.place_in_group(alloc, turn, write)
        } else {
            self.place_commit(alloc, turn, write)
        }
    }

    fn place_commit(&self, alloc: Global, turn: &Turn, write: Write) -> Option<WritePlan>
        requires due { IsWriteDue self.now turn.now write }
        requires outside { is_some turn.now.session.now.transaction ≡ false }
        ensures plan { IfSome result (λ p. IsWritePlan self.now turn.now.session.now turn.now.client write p.at p.effect) }
        ensures told { IfSome result (λ p. (key : KeyParts)
            → IsTold self.now turn.now.session.now turn.now.gathered.now turn.now.taken (body.Put key p.at) p.effect) }
    {
        let next = next_above(write.key().elems().as_slice());
        let Ok(draft) = draft_of_write(alloc, turn.client, write) else {
            return None;
        };
        let commit = self.book.journal().len() as u64 + 1;
        Some(WritePlan {
            at: WriteAt::Commit(commit),
            effect: Effect::CommitWrite(WriteCommit { draft, next }),
        })
    }

    fn place_in_group(&self, alloc: Global, turn: &Turn, write: Write) -> Option<WritePlan>
        requires due { IsWriteDue self.now turn.now write }
        requires inside { is_some turn.now.session.now.transaction ≡ true }
        ensures plan { IfSome result (λ p. IsWritePlan self.now turn.now.session.now turn.now.client write p.at p.effect) }
        ensures told { IfSome result (λ p. (key : KeyParts)
            → IsTold self.now turn.now.session.now turn.now.gathered.now turn.now.taken (body.Put key p.at) p.effect) }
    {
        let next = next_above(write.key().elems().as_slice());
        let Ok(group) = write.key().root(alloc) else {
            return None;
        };
        let Some(place) = self.place_due(turn, &group) else {
            unreachable!();
        };
        Some(WritePlan {
            at: WriteAt::Place(place),
            effect: Effect::WriteGroup(GroupWrite {
                group,
                place,
                write,
                next,
            }),
        })
    }
}
