//! How the second store takes the place of the first.
ghost use Rattle.std.specs.Prelude.{◌≡◌, ◌≤◌, IfErr, IfOk, length};
ghost use mathlib.Core.List.{IsPrefix};
ghost use Rattle.ds_store.specs.Passes.{HasRead};
ghost use Rattle.ds_feeding.specs.Feeding.{HasFedAll, HasTooManyLeft, IsCutOver, IsSharedWith, WhereTooMany};

use crate::catching_up::all_caught_up;
use crate::refused::ReindexRefused;
use crate::reindex::Reindex;
use ds_base::NoMemory;
use ds_base::limits::MAX_COMMITS;
use ds_store::{Closed, Ledgers, Made, Names, Pass, Passes, Store, Tail};
use std::sync::Wait;

/// The second store, and what belongs to it.
#[derive(Drop)]
pub struct Cut<K: Names, H: Wait + Drop> {
    /// The store, for all threads.
    pub store: Store<K, H>,
    /// All its passes, the one that fed it last.
    pub passes: Passes<K>,
    /// On these the steps count that calls of the store take.
    pub ledgers: Ledgers<K>,
    /// How many commits the old store had.
    pub place: u64,
}

impl<K: Names, H: Wait + Drop> Reindex<K, H> {
    /// Feeds what is left of the old store, which has as many shards, and shares the second one. The pass is of the old store, has seen the
    /// commits that were fed before, and stands no lower. Each pass of the second store has then seen no less than it, and all that the old
    /// store had is applied there. A refusal has the causes of `feed`, and ends the second store.
    pub fn finish<J: Names, G: Wait + Drop, R: Wait>(
        self,
        rt: &R,
        old: &mut Store<J, G>,
        tail: &Tail<J>,
        pass: &mut Pass<J>,
    ) -> Result<Cut<K, H>, ReindexRefused>
        requires begins { IsPrefix self.journal pass.old.journal }
        requires place { length self.journal ≤ pass.old.place }
        requires shards { self.shards ≡ length pass.old.lists }
        ensures read { HasRead pass.old pass.new }
        ensures same { old.new ≡ old.old }
        ensures cut { IfOk result (λ cut. IsCutOver K.definitions self pass.new cut.store cut.passes cut.place) }
        ensures refused { IfErr result (λ r. WhereTooMany (HasTooManyLeft K.definitions pass.new.journal self.journal) r) }
    {
        let (fed, place) = self.fed_all(rt, old, tail, pass)?;
        match fed.shared(rt, pass, place) {
            Ok(cut) => Ok(cut),
            Err(_) => Err(ReindexRefused::NoMemory),
        }
    }

    /// Feeds all that is left, and gives the place of the last commit.
    fn fed_all<J: Names, G: Wait + Drop, R: Wait>(
        mut self,
        rt: &R,
        old: &Store<J, G>,
        tail: &Tail<J>,
        pass: &mut Pass<J>,
    ) -> Result<(Reindex<K, H>, u64), ReindexRefused>
        requires begins { IsPrefix self.journal pass.old.journal }
        requires place { length self.journal ≤ pass.old.place }
        ensures read { HasRead pass.old pass.new }
        ensures all { IfOk result (λ fed. HasFedAll K.definitions self fed.0 pass.new fed.1) }
        ensures refused { IfErr result (λ r. WhereTooMany (HasTooManyLeft K.definitions pass.new.journal self.journal) r) }
    {
        match self.feed_some(rt, old, tail, pass, MAX_COMMITS) {
            Ok(fed) => Ok((self, fed.1)),
            Err(refused) => {
                let _fed = self.end(rt);
                Err(refused)
            }
        }
    }

    /// The store that was fed up to a place, with its passes, which have caught up with this one.
    fn shared<J: Names, R: Wait>(
        self,
        rt: &R,
        pass: &Pass<J>,
        place: u64,
    ) -> Result<Cut<K, H>, NoMemory>
        requires { self.shards ≡ length pass.now.lists }
        ensures shared { IfOk result (λ cut. IsSharedWith self pass.now cut.store cut.passes) }
        ensures place { IfOk result (λ cut. cut.place ≡ place) }
    {
        let (loading, alloc) = self.into_parts();
        let Made {
            store,
            tail: _tail,
            ledgers,
            passes,
        } = loading.share();
        match all_caught_up(rt, alloc, &store, passes, pass) {
            Ok(passes) => Ok(Cut {
                store,
                passes,
                ledgers,
                place,
            }),
            Err(refused) => {
                store.end(rt, Passes::new(alloc));
                Err(refused)
            }
        }
    }

    /// Closes the second store where clients go on with the old one, and gives what was fed: its commits, and its id counter. It takes no
    /// memory.
    pub fn end<R: Wait>(self, rt: &R) -> Closed
        ensures journal { result.journal ≡ self.journal }
        ensures next { result.next ≡ self.next }
    {
        let (loading, _) = self.into_parts();
        // For the proof alone: the id counter isn't below the first id.
        let _counter = loading.next();
        let Made {
            store,
            tail: _tail,
            ledgers: _ledgers,
            passes,
        } = loading.share();
        store.close(rt, passes)
    }
}
