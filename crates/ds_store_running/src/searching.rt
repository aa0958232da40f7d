//! Queries without an ancestor.
ghost use Rattle.std.specs.Prelude.{◌≡◌, ◌≢◌, ◌+◌, ◌*◌, ◌≤◌, All, None, Some, length, IfErr, IfOk, OnErr, OnOk};
ghost use Rattle.ds_planner.specs.Missing.{Missing};
ghost use Rattle.ds_query.specs.Lawful.{IsLawfulNormal, SuitsSeveral};
ghost use Rattle.ds_engine.specs.Counted.{FindsGlobally};
ghost use Rattle.ds_store_passes.specs.Passes.{HasRead};
ghost use Rattle.ds_engine.specs.Planned.{IsPlanned};
ghost use Rattle.ds_engine.specs.Plans.{first_missing};
ghost use Rattle.ds_store_reads.specs.Searched.{HasCounted};
ghost use Rattle.ds_engine.specs.Searches.{look_ups, most_of, search_bound};
ghost use Rattle.ds_engine.specs.Snapshots.{newest};
ghost use Rattle.ds_store_running.specs.Wide.{MayGoWide};

use crate::store::Store;
use ds_base::NoMemory;
use ds_engine::{Answer, EngineRefused, PlannedQuery, plans_of};
use ds_io::{Gate, Steps};
use ds_query::{Normal, Window};
use ds_store_hubs::{Ledgers, Names};
use ds_store_passes::Pass;
use ds_store_reads::{UncountedScans, query_uncounted, query_wide};
use std::sync::Wait;
use std::sync::ledger::Ledger;
use std::thread::Threads;

impl<J: Names, H: Wait + Drop> Store<J, H> {
    /// What a query without an ancestor finds over the entries that each shard has applied, with how many those are. It takes no lock and
    /// waits for nobody: all shards are entered, searched by index scans, and left.
    ///
    /// The results are those of the Datastore's rules over the entities that the counted entries leave; so it is in every journal whose
    /// shards' lists begin with those that the pass has then seen, as that of a close does. The steps are within the bounds of all branches
    /// over all shards, where each shard is asked for as many results of a branch as the page skips or takes, and by a projection of
    /// several branches for all, and one for each entity that is given. In all cases they are within twice the bounds of all rows: a refused
    /// query may have looked at all, each row that is given took a step, and no look-up is of a row that isn't given. `MissingIndex` comes exactly where a branch has no plan, and tells
    /// what the first such branch misses. Else a refusal is lack of memory, or that a hub has ended.
    pub fn query<L: Ledger>(
        &self,
        pass: &mut Pass<J>,
        normal: &Normal,
        window: &Window,
        steps: &mut Steps<L>,
    ) -> Result<Answer, EngineRefused>
        requires lawful { IsLawfulNormal normal.now }
        requires placeless { SuitsSeveral normal.now.several window.now }
        requires ledger { L.parts ≡ J.ledger }
        ensures counted { IfOk result (λ a. HasCounted pass.old pass.new a.seen a.beside) }
        ensures found { IfOk result (λ a. FindsGlobally pass.new.lists normal.now window.now a.results a.next) }
        ensures served { OnOk result (first_missing J.definitions normal.now.branches ≡ None) }
        ensures missing { IfErr result (λ e. e ≢ EngineRefused.NoMemory → (m : Missing)
            × (first_missing J.definitions normal.now.branches ≡ Some m)
            × (e ≡ EngineRefused.MissingIndex m.constraint m.suggestion)) }
        ensures steps_bounded { IfOk result (λ a. All (λ q. steps.new ≤ (steps.old
            + search_bound normal.now window.now (most_of normal.now window.now) (newest J.definitions J.window pass.new.lists))
            + look_ups q.select (length a.results)) normal.now.branches) }
        ensures steps_in_all { steps.new ≤ steps.old
            + 2 * search_bound normal.now window.now None (newest J.definitions J.window pass.new.lists) }
        ensures read { OnErr result (HasRead pass.old pass.new) }
    {
        let plans = plans_of(self.alloc, normal.branches.as_slice(), &self.definitions)?;
        let query = PlannedQuery {
            normal,
            window,
            defs: &self.definitions,
            plans: plans.as_slice(),
        };
        Ok(self.query_planned(pass, &query, steps)?)
    }

    /// The same by plans that are made already: for each branch one that answers it under the store's definitions and has no scan too many.
    pub fn query_planned<L: Ledger>(
        &self,
        pass: &mut Pass<J>,
        query: &PlannedQuery<'_>,
        steps: &mut Steps<L>,
    ) -> Result<Answer, NoMemory>
        requires planned { IsPlanned query.now }
        requires definitions { query.now.defs.now ≡ J.definitions }
        requires ledger { L.parts ≡ J.ledger }
        ensures counted { IfOk result (λ a. HasCounted pass.old pass.new a.seen a.beside) }
        ensures found { IfOk result (λ a. FindsGlobally pass.new.lists query.now.normal.now query.now.window.now a.results a.next) }
        ensures steps_bounded { IfOk result (λ a. All (λ q. steps.new ≤ (steps.old
            + search_bound query.now.normal.now query.now.window.now (most_of query.now.normal.now query.now.window.now)
            (newest J.definitions J.window pass.new.lists)) + look_ups q.select (length a.results)) query.now.normal.now.branches) }
        ensures steps_in_all { steps.new ≤ steps.old + 2 * search_bound query.now.normal.now query.now.window.now None
            (newest J.definitions J.window pass.new.lists) }
        ensures read { OnErr result (HasRead pass.old pass.new) }
    {
        ds_store_reads::query(pass, self.alloc, self.window, query, steps)
    }

    /// What `query` finds, where each shard is scanned in a thread of its own as far as threads can be made. The gate is called before and
    /// after each shard's scan, with the shard's number and line 0. Steps count on ledgers of their own, so who asks has the right to open
    /// such: a session has none, and can't ask a query in this way.
    pub fn query_wide<R: Threads + Sync, G: Gate + Sync>(
        &self,
        rt: &R,
        pass: &mut Pass<J>,
        normal: &Normal,
        window: &Window,
        gate: &G,
        _ledgers: &Ledgers<J>,
    ) -> Result<Answer, EngineRefused>
        requires lawful { IsLawfulNormal normal.now }
        requires placeless { SuitsSeveral normal.now.several window.now }
        ensures counted { IfOk result (λ a. HasCounted pass.old pass.new a.seen a.beside) }
        ensures found { IfOk result (λ a. FindsGlobally pass.new.lists normal.now window.now a.results a.next) }
        ensures served { OnOk result (first_missing J.definitions normal.now.branches ≡ None) }
        ensures missing { IfErr result (λ e. e ≢ EngineRefused.NoMemory → (m : Missing)
            × (first_missing J.definitions normal.now.branches ≡ Some m)
            × (e ≡ EngineRefused.MissingIndex m.constraint m.suggestion)) }
        ensures read { OnErr result (HasRead pass.old pass.new) }
    {
        let plans = plans_of(self.alloc, normal.branches.as_slice(), &self.definitions)?;
        let query = PlannedQuery {
            normal,
            window,
            defs: &self.definitions,
            plans: plans.as_slice(),
        };
        let scans = UncountedScans {
            gate,
            right: &self.uncounted,
        };
        Ok(query_uncounted(rt, pass, self.alloc, self.window, &query, &scans)?)
    }

    /// The same by plans that are made already, of a query without an ancestor and without a limit, where there are several shards. The
    /// look-ups of the entities that are given count, and the scans don't. Nothing is told of the steps: so whoever has to bound them can't
    /// ask a query in this way, be it by another page.
    pub fn query_wide_planned<R: Threads + Sync, G: Gate + Sync, L: Ledger>(
        &self,
        rt: &R,
        pass: &mut Pass<J>,
        query: &PlannedQuery<'_>,
        gate: &G,
        steps: &mut Steps<L>,
    ) -> Result<Answer, NoMemory>
        requires planned { IsPlanned query.now }
        requires definitions { query.now.defs.now ≡ J.definitions }
        requires ledger { L.parts ≡ J.ledger }
        requires wide { MayGoWide query.now.normal.now query.now.window.now self.now.shards }
        ensures counted { IfOk result (λ a. HasCounted pass.old pass.new a.seen a.beside) }
        ensures found { IfOk result (λ a. FindsGlobally pass.new.lists query.now.normal.now query.now.window.now a.results a.next) }
        ensures read { OnErr result (HasRead pass.old pass.new) }
    {
        let scans = UncountedScans {
            gate,
            right: &self.uncounted,
        };
        query_wide(rt, pass, self.alloc, self.window, query, &scans, steps)
    }
}
