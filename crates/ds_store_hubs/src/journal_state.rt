//! The state of the journal's hub.
use ds_hub::{Absorb, NoMemory};
use ds_log::Commit;

/// The state of the journal's hub, which tells commits and keeps none: they stand in the book. An operation says no more than "one
/// more", and how many commits there are is the length of the told list, which each reader knows. So absorbing never fails.
#[derive(Drop)]
pub struct JournalState;

impl Absorb<()> for JournalState {
    type State = ();

    type Told = Commit;

    ghost state = { λ s. tt };

    ghost applied = { λ state operation. state };

    ghost asks = { λ commit. tt };

    ghost never_fails = { Unit {0} };

    fn absorb(&mut self, _operation: &()) -> Result<(), NoMemory> {
        Ok(())
    }
}
