//! The calls of a disk in memory, with the state that they made.
ghost use Rattle.std.specs.Prelude.{◌≡◌, ◌<◌, [], ◌∷◌, ◌++◌, length, IfOk, OnOk, OnErr, vec_len, vec_capacity};
ghost use Rattle.ds_disk.specs.Memory.{at_rest, state_after, after_change, IsBelowLimit, with_call};

use crate::call::{Call, Change};
use crate::state::State;
use ds_base::ByteString;
use std::alloc::{AllocError, Global};
use std::marker::Model;

/// What a disk held at first, and its calls since then.
#[derive(Drop)]
pub struct History {
    first: ByteString,
    calls: Vec<Call>,
    state: State,
}

impl Model for History {
    ghost use Rattle.std.specs.Prelude.{◌≡◌};
    ghost use Rattle.ds_disk.specs.Memory.{HistoryParts, at_rest, state_after};

    ghost Value = { HistoryParts };

    ghost view = { λ s. record { first = s.first; calls = s.calls.items } };

    ghost invariant = { λ s. s.state ≡ state_after (at_rest s.first) s.calls.items };
}

impl History {
    /// No call so far.
    pub fn new(alloc: Global, first: ByteString) -> Result<History, AllocError>
        ensures { IfOk result (λ h. h ≡ record { first = first; calls = [] }) }
    {
        let state = State::at_rest(alloc, first.bytes())?;
        Ok(History {
            first,
            calls: Vec::new(alloc),
            state,
        })
    }

    /// How many calls there were.
    pub fn len(&self) -> usize
        ensures { result ≡ length self.now.calls }
    {
        self.calls.len()
    }

    /// The state that they made.
    pub fn state(&self) -> &State
        ensures { result.now ≡ state_after (at_rest self.now.first) self.now.calls }
    {
        &self.state
    }

    /// One call more. Want of memory changes nothing.
    pub fn enter(&mut self, alloc: Global, change: Change, failed: bool) -> Result<(), AllocError>
        requires { IsBelowLimit change }
        ensures ok { OnOk result (self.new ≡ with_call self.old change failed) }
        ensures err { OnErr result (self.new ≡ self.old) }
    {
        self.calls.reserve(1)?;
        apply(alloc, &mut self.state, &change, failed)?;
        keep(&mut self.calls, Call { change, failed });
        Ok(())
    }
}

// What a call makes of the state.
fn apply(alloc: Global, state: &mut State, change: &Change, failed: bool) -> Result<(), AllocError>
    requires { IsBelowLimit change.now }
    ensures ok { OnOk result (state.new ≡ after_change state.old change.now failed) }
    ensures err { OnErr result (state.new ≡ state.old) }
{
    match change {
        Change::Look => Ok(()),
        Change::Write { at, piece } => state.write(*at, piece.bytes(), failed),
        Change::Cut { len } => {
            state.cut(*len, failed);
            Ok(())
        }
        Change::Sync => state.sync(alloc, failed),
    }
}

// Keeps a call, for which there is room.
fn keep(calls: &mut Vec<Call>, call: Call)
    requires { vec_len calls.old < vec_capacity calls.old }
    ensures { calls.new.items ≡ calls.old.items ++ call ∷ [] }
{
    if calls.push(call).is_err() {
        unreachable!()
    }
}
