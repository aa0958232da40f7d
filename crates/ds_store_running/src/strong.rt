//! Queries with an ancestor.
ghost use Rattle.std.specs.Prelude.{◌≡◌, ℕ, ◌+◌, ◌*◌, ◌≤◌, ◌<◌, ◌∷◌, [], All, None, Some, IfOk, IfErr, IfSome, OnErr, OnOk, length};
ghost use Rattle.std.specs.Option.{option_copied};
ghost use Rattle.ds_base.specs.Keys.{KeyParts, root_of};
ghost use Rattle.ds_log.specs.Shards.{shard_of};
ghost use Rattle.ds_model.specs.Sessions.{list_of};
ghost use Rattle.ds_query.specs.Lawful.{IsLawfulNormal, SuitsSeveral};
ghost use Rattle.ds_engine.specs.Planned.{IsPlanned};
ghost use Rattle.ds_engine.specs.Plans.{first_missing};
ghost use Rattle.ds_engine.specs.Searches.{ancestor_of, look_ups, most_of, search_bound};
ghost use Rattle.ds_engine.specs.Snapshots.{snapshot_of};
ghost use Rattle.ds_store_passes.specs.Answered.{IsExpired, WhereExpired};
ghost use Rattle.ds_store_passes.specs.Passes.{HasRead};
ghost use Rattle.ds_store_running.specs.Strong.{IsFoundInGroup, WhereGone, WhereMissing};

use crate::refused::StrongRefused;
use crate::store::Store;
use ds_base::{Key, NoMemory};
use ds_engine::{Answer, GroupFound, PlannedQuery, plans_of};
use ds_entity::Seen;
use ds_io::Steps;
use ds_query::{Branch, Normal, Window};
use ds_store_hubs::Names;
use ds_store_passes::{Expired, GetRefused, Pass};
use ds_store_reads::query_in;
use std::alloc::AllocError;
use std::sync::Wait;
use std::sync::ledger::Ledger;

impl<J: Names, H: Wait + Drop> Store<J, H> {
    /// What a query with an ancestor finds in the ancestor's group. It stands where a get of the group would, and is `Expired` just as
    /// one. The steps are within the bounds of all branches over that shard, and one for each entity that is given, of which an expiry
    /// gives none. `MissingIndex` comes exactly where a branch has no plan, and tells what the first such branch misses. Else a refusal is
    /// lack of memory, or that the shard's hub has ended.
    pub fn strong_query<R: Wait, L: Ledger>(
        &self,
        rt: &R,
        pass: &mut Pass<J>,
        normal: &Normal,
        window: &Window,
        at: Option<u64>,
        steps: &mut Steps<L>,
    ) -> Result<Answer, StrongRefused>
        requires lawful { IsLawfulNormal normal.now }
        requires placeless { SuitsSeveral normal.now.several window.now }
        requires ledger { L.parts ≡ J.ledger }
        requires at { IfSome at (λ place. place ≤ pass.old.place) }
        ensures found { (ancestor : KeyParts) → ancestor_of normal.now.branches ≡ Some ancestor → IfOk result
            (λ a. IsFoundInGroup self.now.shards pass.old pass.new (root_of ancestor) at normal.now window.now a.results a.next a.seen
            a.beside) }
        ensures served { OnOk result (first_missing J.definitions normal.now.branches ≡ None) }
        ensures missing { IfErr result (WhereMissing (λ m. first_missing J.definitions normal.now.branches ≡ Some m)) }
        ensures expired { (ancestor : KeyParts) → ancestor_of normal.now.branches ≡ Some ancestor → IfErr result (WhereGone
            (λ x. IsExpired self.now.shards J.window pass.old pass.new (root_of ancestor) at x.snapshot x.applied x.commit)) }
        ensures steps_bounded { (ancestor : KeyParts) → ancestor_of normal.now.branches ≡ Some ancestor
            → IfOk result (λ a. All (λ q. steps.new ≤ (steps.old
            + search_bound normal.now window.now (most_of normal.now window.now)
            (snapshot_of J.definitions J.window (list_of pass.new.lists (shard_of (root_of ancestor) self.now.shards)) a.beside ∷ []))
            + look_ups q.select (length a.results)) normal.now.branches) }
        ensures steps_gone { (ancestor : KeyParts) → ancestor_of normal.now.branches ≡ Some ancestor
            → IfErr result (WhereGone (λ x. steps.new ≤ steps.old
            + search_bound normal.now window.now (most_of normal.now window.now)
            (snapshot_of J.definitions J.window (list_of pass.new.lists (shard_of (root_of ancestor) self.now.shards)) x.snapshot ∷ []))) }
        ensures steps_in_all { (ancestor : KeyParts) → ancestor_of normal.now.branches ≡ Some ancestor → (entries : ℕ)
            × (steps.new ≤ steps.old + 2 * search_bound normal.now window.now None
            (snapshot_of J.definitions J.window (list_of pass.new.lists (shard_of (root_of ancestor) self.now.shards)) entries ∷ [])) }
        ensures read { OnErr result (HasRead pass.old pass.new) }
    {
        let branches = normal.branches.as_slice();
        let plans = plans_of(self.alloc, branches, &self.definitions)?;
        let shard = self.shard_asked(branches)?;
        let query = PlannedQuery {
            normal,
            window,
            defs: &self.definitions,
            plans: plans.as_slice(),
        };
        Ok(self.strong_query_planned(rt, pass, &query, shard, at, steps)?)
    }

    /// The same in the ancestor's shard, by plans that are made already: for each branch one that answers it under the store's definitions
    /// and has no scan too many.
    pub fn strong_query_planned<R: Wait, L: Ledger>(
        &self,
        rt: &R,
        pass: &mut Pass<J>,
        query: &PlannedQuery<'_>,
        shard: u32,
        at: Option<u64>,
        steps: &mut Steps<L>,
    ) -> Result<Answer, GetRefused>
        requires planned { IsPlanned query.now }
        requires definitions { query.now.defs.now ≡ J.definitions }
        requires ledger { L.parts ≡ J.ledger }
        requires shard { (ancestor : KeyParts) → ancestor_of query.now.normal.now.branches ≡ Some ancestor
            → shard ≡ shard_of (root_of ancestor) self.now.shards }
        requires below { shard < self.now.shards }
        requires at { IfSome at (λ place. place ≤ pass.old.place) }
        ensures found { (ancestor : KeyParts) → ancestor_of query.now.normal.now.branches ≡ Some ancestor → IfOk result
            (λ a. IsFoundInGroup self.now.shards pass.old pass.new (root_of ancestor) at query.now.normal.now query.now.window.now a.results
            a.next a.seen a.beside) }
        ensures expired { (ancestor : KeyParts) → ancestor_of query.now.normal.now.branches ≡ Some ancestor → IfErr result (λ e. WhereExpired
            (λ x. IsExpired self.now.shards J.window pass.old pass.new (root_of ancestor) at x.snapshot x.applied x.commit) e) }
        ensures steps_bounded { (ancestor : KeyParts) → ancestor_of query.now.normal.now.branches ≡ Some ancestor
            → IfOk result (λ a. All (λ q. steps.new ≤ (steps.old
            + search_bound query.now.normal.now query.now.window.now (most_of query.now.normal.now query.now.window.now)
            (snapshot_of J.definitions J.window (list_of pass.new.lists (shard_of (root_of ancestor) self.now.shards)) a.beside ∷ []))
            + look_ups q.select (length a.results)) query.now.normal.now.branches) }
        ensures steps_gone { (ancestor : KeyParts) → ancestor_of query.now.normal.now.branches ≡ Some ancestor
            → IfErr result (λ e. WhereExpired (λ x. steps.new ≤ steps.old
            + search_bound query.now.normal.now query.now.window.now (most_of query.now.normal.now query.now.window.now)
            (snapshot_of J.definitions J.window (list_of pass.new.lists (shard_of (root_of ancestor) self.now.shards)) x.snapshot
            ∷ [])) e) }
        ensures steps_in_all { (ancestor : KeyParts) → ancestor_of query.now.normal.now.branches ≡ Some ancestor → (entries : ℕ)
            × (steps.new ≤ steps.old + 2 * search_bound query.now.normal.now query.now.window.now None
            (snapshot_of J.definitions J.window (list_of pass.new.lists (shard_of (root_of ancestor) self.now.shards)) entries ∷ [])) }
        ensures read { OnErr result (HasRead pass.old pass.new) }
    {
        has_root(query.normal.branches.as_slice());
        let stand = self.stand(rt, pass, shard, at)?;
        let found = query_in(
            pass,
            self.alloc,
            shard as usize,
            self.window,
            stand.entries,
            query,
            steps,
        )?;
        match found {
            GroupFound::There(found) => Ok(Answer {
                results: found.results,
                next: found.next,
                seen: Seen::Place(stand.place),
                beside: stand.entries,
            }),
            GroupFound::Gone { applied, commit } => {
                pass.stand(commit);
                Err(GetRefused::Expired(Expired {
                    snapshot: stand.entries,
                    applied,
                    commit,
                }))
            }
        }
    }

    /// The shard in which a query with an ancestor is asked. A refusal means out of memory.
    fn shard_asked(&self, branches: &[Branch]) -> Result<u32, NoMemory>
        ensures is { (ancestor : KeyParts) → ancestor_of branches.now ≡ Some ancestor
            → IfOk result (λ shard. shard ≡ shard_of (root_of ancestor) self.now.shards) }
        ensures below { IfOk result (λ shard. shard < self.now.shards) }
    {
        match ancestor_of(branches) {
            Some(ancestor) => self.shard_of_key(ancestor),
            None => Err(AllocError),
        }
    }
}

/// For the proof alone: the path of an ancestor has an element.
fn has_root(branches: &[Branch])
    ensures { (ancestor : KeyParts) → ancestor_of branches.now ≡ Some ancestor → 1 ≤ length ancestor.elems }
{
    let Some(ancestor) = ancestor_of(branches) else {
        return;
    };
    let _elems = ancestor.elems();
}

/// The ancestor of a query, which all its branches have.
fn ancestor_of(branches: &[Branch]) -> Option<&Key>
    ensures { option_copied result ≡ ancestor_of branches.now }
{
    match branches {
        [] => None,
        [first, ..] => first.ancestor.as_ref(),
    }
}
