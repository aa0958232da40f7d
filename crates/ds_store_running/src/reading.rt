//! Gets.
ghost use Rattle.std.specs.Prelude.{◌≡◌, ◌+◌, ◌≤◌, ◌<◌, IfOk, IfErr, IfSome, OnErr};
ghost use Rattle.ds_base.specs.Keys.{root_of};
ghost use Rattle.ds_log.specs.Shards.{shard_of};
ghost use Rattle.ds_store_passes.specs.Answered.{IsGot, IsExpired, WhereExpired};
ghost use Rattle.ds_store_passes.specs.Passes.{HasRead};

use crate::store::Store;
use ds_base::{Key, NoMemory};
use ds_io::Steps;
use ds_log::shard_of;
use ds_store_hubs::Names;
use ds_store_passes::{GetRefused, Got, Pass};
use ds_store_reads::{Found, look_up};
use std::sync::Wait;
use std::sync::ledger::Ledger;

impl<J: Names, H: Wait + Drop> Store<J, H> {
    /// The entity of a key: outside a transaction as all commits up to a new place leave it, which is no lower than the pass's, and inside
    /// one, where `at` is the group's touch place, as the commits up to there leave it. `at` is not above the pass's place. `Expired`
    /// comes only with `at`, where so many entries are applied that the window doesn't reach back to those up to the place. Else a
    /// refusal means out of memory, or that the shard's hub has ended. The look-up takes one step at most.
    pub fn get<R: Wait, L: Ledger>(
        &self,
        rt: &R,
        pass: &mut Pass<J>,
        key: &Key,
        at: Option<u64>,
        steps: &mut Steps<L>,
    ) -> Result<Got, GetRefused>
        requires at { IfSome at (λ place. place ≤ pass.old.place) }
        requires ledger { L.parts ≡ J.ledger }
        ensures got { IfOk result (λ g. IsGot self.now.shards pass.old pass.new key.now at g.entity g.place g.entries) }
        ensures expired { IfErr result (λ e. WhereExpired (λ x. IsExpired self.now.shards J.window pass.old pass.new (root_of key.now) at
            x.snapshot x.applied x.commit) e) }
        ensures read { OnErr result (HasRead pass.old pass.new) }
        ensures step { steps.new ≤ steps.old + 1 }
    {
        let shard = self.shard_of_key(key)?;
        self.get_in(rt, pass, shard, key, at, steps)
    }

    /// The same in the key's shard, which the caller knows already.
    pub fn get_in<R: Wait, L: Ledger>(
        &self,
        rt: &R,
        pass: &mut Pass<J>,
        shard: u32,
        key: &Key,
        at: Option<u64>,
        steps: &mut Steps<L>,
    ) -> Result<Got, GetRefused>
        requires shard { shard ≡ shard_of (root_of key.now) self.now.shards }
        requires below { shard < self.now.shards }
        requires at { IfSome at (λ place. place ≤ pass.old.place) }
        requires ledger { L.parts ≡ J.ledger }
        ensures got { IfOk result (λ g. IsGot self.now.shards pass.old pass.new key.now at g.entity g.place g.entries) }
        ensures expired { IfErr result (λ e. WhereExpired (λ x. IsExpired self.now.shards J.window pass.old pass.new (root_of key.now) at
            x.snapshot x.applied x.commit) e) }
        ensures read { OnErr result (HasRead pass.old pass.new) }
        ensures step { steps.new ≤ steps.old + 1 }
    {
        let stand = self.stand(rt, pass, shard, at)?;
        let found = look_up(
            pass,
            self.alloc,
            shard as usize,
            stand.entries,
            self.window,
            key,
            steps,
        )?;
        match found {
            Found::There(entity) => Ok(Got {
                entity,
                place: stand.place,
                entries: stand.entries,
            }),
            Found::Gone(expired) => {
                pass.stand(expired.commit);
                Err(GetRefused::Expired(expired))
            }
        }
    }

    pub(crate) fn shard_of_key(&self, key: &Key) -> Result<u32, NoMemory>
        ensures is { IfOk result (λ shard. shard ≡ shard_of (root_of key.now) self.now.shards) }
        ensures below { IfOk result (λ shard. shard < self.now.shards) }
    {
        let root = key.root(self.alloc)?;
        shard_of(self.alloc, &root, self.shards.len() as u32)
    }
}
