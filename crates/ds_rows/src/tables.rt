//! What queries are answered from: the rows and the entities that stand at a stamp.
ghost use Rattle.std.specs.Prelude.{◌≡◌, ℕ, ◌+◌, ◌≤◌, Bool, List, find, IsTrue, option_copied};
ghost use Rattle.ds_entity.specs.Entities.{EntityParts};
ghost use Rattle.ds_base.specs.KeyOrder.{same_key};
ghost use Rattle.ds_indexdef.specs.declared.IndexDef.{IndexDef};
ghost use Rattle.ds_rows.specs.Versions.{Version, entities_at, seen_rows, unseen_rows, first_row, rows_passed, AreTables};

use ds_base::Key;
use ds_entity::Entity;
use ds_io::Steps;
use std::sync::ledger::Ledger;

/// The tables of one part of a datastore, with what they held before: they are sought and not walked, so an answer is reached
/// by seeks whose number can be bounded.
///
/// Contracts see the definitions of composite indexes, the stamps that are kept, and the versions of entities, each with the
/// stamps at which it is seen. At each stamp that is kept the tables stand for the entities that are seen then and for all
/// their rows.
pub trait Tables {
    // The name of the one ledger on which its seeks count, `L.name` of the `Steps<L>` that they are handed. A caller can't seek
    // on a ledger of its own, so the bound of a call that is handed steps speaks of all its seeks.
    ghost ledger: { ℕ };

    // The definitions of composite indexes.
    ghost definitions: { Self → List IndexDef };

    // Whether a stamp is kept.
    ghost keeps: { Self → ℕ → Bool };

    // The versions of entities, also those that no stamp sees any more or that a later stamp will see first.
    ghost versions: { Self → List Version };

    /// The first row, by bytes, that is seen at the stamp `at`, isn't below `at_least`, and is below `below` where that is
    /// given; `None` exactly where there is none. It takes a step, and at most one more for each row in that range, up to the one
    /// that it gives, of a version that isn't seen at the stamp. It takes no memory.
    ///
    /// Whoever implements it shows too that its definitions are distinct, that its entities have an encoding, and that at
    /// the stamp there is one entity of each key.
    fn seek<L: Ledger>(
        &self,
        at: u64,
        at_least: &[u8],
        below: Option<&[u8]>,
        steps: &mut Steps<L>,
    ) -> Option<&[u8]>
        requires its_ledger { L.name ≡ ledger }
        requires kept { IsTrue (keeps self.now at) }
        ensures finds_the_first { option_copied result
            ≡ first_row at_least.now (option_copied below.entry) (seen_rows (definitions self.now) at (versions self.now)) }
        ensures steps_bounded { steps.new ≤ steps.old + 1
            + rows_passed at_least.now (option_copied below.entry) (option_copied result)
            (unseen_rows (definitions self.now) at (versions self.now)) }
        ensures takes_a_step { steps.old + 1 ≤ steps.new }
        ensures stands { AreTables (definitions self.now) at (versions self.now) };

    /// The same call with a place near which to look first, at first 0; it leaves there where it ended. Every place gives the
    /// same answer and the same steps.
    fn seek_near<L: Ledger>(
        &self,
        at: u64,
        at_least: &[u8],
        below: Option<&[u8]>,
        near: &mut u64,
        steps: &mut Steps<L>,
    ) -> Option<&[u8]>
        requires its_ledger { L.name ≡ ledger }
        requires kept { IsTrue (keeps self.now at) }
        ensures finds_the_first { option_copied result
            ≡ first_row at_least.now (option_copied below.entry) (seen_rows (definitions self.now) at (versions self.now)) }
        ensures steps_bounded { steps.new ≤ steps.old + 1
            + rows_passed at_least.now (option_copied below.entry) (option_copied result)
            (unseen_rows (definitions self.now) at (versions self.now)) }
        ensures takes_a_step { steps.old + 1 ≤ steps.new }
        ensures stands { AreTables (definitions self.now) at (versions self.now) }
    {
        let _near = near;
        self.seek(at, at_least, below, steps)
    }

    /// Does nothing. It tells whoever seeks nothing yet what each seek tells too: that the definitions are distinct, that the
    /// entities have an encoding, and that at the stamp there is one entity of each key.
    fn stand(&self, at: u64)
        requires kept { IsTrue (keeps self.now at) }
        ensures { AreTables (definitions self.now) at (versions self.now) };

    /// The entity of this key that is seen at the stamp `at`; `None` exactly where there is none. It takes one step, and no
    /// memory.
    fn entity<L: Ledger>(&self, at: u64, key: &Key, steps: &mut Steps<L>) -> Option<&Entity>
        requires its_ledger { L.name ≡ ledger }
        requires kept { IsTrue (keeps self.now at) }
        ensures finds { option_copied result ≡ find (λ e. same_key e.key key.now) (entities_at at (versions self.now)) }
        ensures steps { steps.new ≡ steps.old + 1 };
}
