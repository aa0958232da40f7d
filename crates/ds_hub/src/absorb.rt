//! States that take in operations.
ghost use Rattle.std.specs.Prelude.{◌≡◌, IsOk, MatchResult};

use crate::NoMemory;

/// A state that takes in operations of type `O`, one after another. A hub has two copies of it, and each operation is taken in
/// by the one and then by the other.
///
/// What a hub's list in contracts is a list of is told beside each operation, and stands for it: a journal's hub has operations
/// that say no more than "one more", and tells commits. Where a hub tells its operations themselves, `Told` is `O` and `asks`
/// the identity.
pub trait Absorb<O: Drop> {
    /// What contracts see of the state. No value of this type is made.
    type State;

    /// What a hub's list is a list of. The hub keeps no value of this type.
    type Told;

    // What contracts see of a state.
    ghost state: { Self → Self.State };

    // What an operation makes of it.
    ghost applied: { Self.State → O → Self.State };

    // The operation that a told element stands for.
    ghost asks: { Self.Told → O };

    // Whether what is told belongs to a hub that begins with a state: nothing else is added, so each list of the hub has such alone.
    ghost belongs: { Self.State → Self.Told → Type 0 } = { λ start told. Unit {0} };

    // What shows that absorbing never fails, if anything does.
    ghost never_fails: { Type 0 } = { ⊥ };

    /// Takes in an operation that the other copy will be given. `Err` means out of memory, and changes nothing that contracts see.
    fn absorb(&mut self, operation: &O) -> Result<(), NoMemory>
        ensures absorbed { MatchResult result (λ _. state self.new ≡ applied (state self.old) operation.now)
            (λ _. state self.new ≡ state self.old) }
        ensures succeeds { never_fails → IsOk result };

    /// Takes in an operation that the other copy took in before, and which nobody needs afterwards: a state that keeps parts of it
    /// moves them in here, and copies nothing. If not given, it is `absorb` and a drop. `Err` means out of memory; it hands the
    /// operation back, and changes nothing that contracts see.
    fn absorb_second(&mut self, operation: O) -> Result<(), O>
        ensures absorbed { MatchResult result (λ _. state self.new ≡ applied (state self.old) operation)
            (λ back. (back ≡ operation) × (state self.new ≡ state self.old)) }
        ensures succeeds { never_fails → IsOk result }
    {
        match self.absorb(&operation) {
            Ok(()) => Ok(()),
            Err(_) => Err(operation),
        }
    }
}
