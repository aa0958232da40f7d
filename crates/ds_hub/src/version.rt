//! What readers and the writer share: a state beside the prefix that says which operations are in it.
ghost use Rattle.std.specs.Prelude.{◌≡◌, IsOk, MatchResult};
ghost use Rattle.ds_hub.specs.Logs.{changed};

use crate::NoMemory;
use crate::absorb::Absorb;
use crate::prefix::Prefix;
use std::alloc::AllocError;

/// One of the two copies: its state has the operations that the prefix's list stands for.
#[derive(Drop)]
pub struct Version<E, S: Drop> {
    pub state: S,
    pub prefix: Prefix<E>,
}

/// What a copy takes in: an operation, with the mark that says which operations are in the state after it. Where there is no
/// operation it changes nothing.
#[derive(Drop)]
pub struct Logged<O: Drop, E> {
    pub operation: Option<O>,
    pub mark: Prefix<E>,
}

impl<O: Drop, S: Absorb<O> + Drop> left_right::Absorb<Logged<O, S::Told>> for Version<S::Told, S> {
    ghost use Rattle.ds_hub.specs.Logs.{taken_in};

    type State = (S::State, Prefix<S::Told>);

    ghost state = { λ v. (S.state v.state, v.prefix) };

    ghost applied = { taken_in S.applied };

    ghost never_fails = { S.never_fails };

    fn absorb_first(
        &mut self,
        logged: &Logged<O, S::Told>,
        _other: &Version<S::Told, S>,
    ) -> Result<(), AllocError> {
        take_in(&mut self.state, &logged.operation)?;
        self.prefix = logged.mark.duplicate();
        Ok(())
    }

    fn absorb_second(
        &mut self,
        logged: Logged<O, S::Told>,
        _other: &Version<S::Told, S>,
    ) -> Result<(), Logged<O, S::Told>> {
        let Logged { operation, mark } = logged;
        match take_in_second(&mut self.state, operation) {
            Ok(()) => {
                self.prefix = mark;
                Ok(())
            }
            Err(operation) => Err(Logged { operation, mark }),
        }
    }
}

// Takes in an operation, if there is one, as `absorb` does.
fn take_in<O: Drop, S: Absorb<O>>(state: &mut S, operation: &Option<O>) -> Result<(), NoMemory>
    ensures absorbed { MatchResult result (λ _. S.state state.new ≡ changed S.applied (S.state state.old) operation.now)
        (λ _. S.state state.new ≡ S.state state.old) }
    ensures succeeds { S.never_fails → IsOk result }
{
    match operation {
        None => Ok(()),
        Some(operation) => state.absorb(operation),
    }
}

// Takes in an operation, if there is one, as `absorb_second` does.
fn take_in_second<O: Drop, S: Absorb<O>>(
    state: &mut S,
    operation: Option<O>,
) -> Result<(), Option<O>>
    ensures absorbed { MatchResult result (λ _. S.state state.new ≡ changed S.applied (S.state state.old) operation)
        (λ back. (back ≡ operation) × (S.state state.new ≡ S.state state.old)) }
    ensures succeeds { S.never_fails → IsOk result }
{
    match operation {
        None => Ok(()),
        Some(operation) => match state.absorb_second(operation) {
            Ok(()) => Ok(()),
            Err(operation) => Err(Some(operation)),
        },
    }
}
