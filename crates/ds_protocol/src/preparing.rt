//! The normal form and the window of a search, or the first refusal before its group is looked at.
ghost use Rattle.std.specs.Prelude.{◌≡◌, ◌⊎◌, ◌&&◌, ◌∷◌, [], false, IfOk, IfErr, OnOk, None, Some, All, IsTrue};
ghost use Rattle.std.specs.List.{list_all};
ghost use Rattle.ds_base.specs.Keys.{is_namespace};
ghost use Rattle.ds_query.specs.Filters.{has_operands};
ghost use Rattle.ds_query.specs.Lawful.{IsLawfulBranch, IsLawfulNormal, IsPlaceless, SuitsSeveral};
ghost use Rattle.ds_query.specs.Normals.{normal_form};
ghost use Rattle.ds_planner.specs.Missing.{missing_of};
ghost use Rattle.ds_model.specs.Answers.{place_found};
ghost use Rattle.ds_model.specs.Refusals.{Refused, cursor_refusal, form_refusal, missing_body, missing_refusal};
ghost use Rattle.ds_model.specs.Sessions.{Session};
ghost use Rattle.ds_protocol.specs.Cursors.{told, IsEnd, IsEndRefused, WindowRead, WindowRefused, window_between};
ghost use Rattle.ds_protocol.specs.Preparing.{IsInside, IsReady, IsRefused, IsPlanFor, ArePlacesOf, ArePlansFor};
ghost use Rattle.ds_protocol.specs.Quiet.{IsQuiet};
ghost use Rattle.ds_protocol.specs.Searches.{IsLawfulSearch, search_parts};

use crate::searching::Search;
use ds_base::TextString;
use ds_cursor::{CursorRefused, read};
use ds_indexdef::Defs;
use ds_planner::{PlanRefused, ScanPlan, plan};
use ds_query::{Branch, Field, Normal, Place, Query, QueryRefused, Window, normalize};
use ds_reply::Body;
use std::alloc::Global;

/// A search that nothing but its group can refuse.
#[derive(Drop)]
pub struct Ready {
    /// The query taken apart.
    pub normal: Normal,
    /// Which of its results are given. An end at the place before the first row is told as a limit of no results.
    pub window: Window,
    /// For each branch the index scans that answer it.
    pub plans: Vec<ScanPlan>,
}

/// The normal form and the window of a search, and a plan for each branch, where nothing is refused before its group is looked at.
///
/// The refusals, of which the first that holds is answered: a rule that the query breaks, or more than 30 branches (`BadQuery`,
/// `TooManySubqueries`); in a transaction a query without an ancestor (`NeedAncestor`); the texts of the start and then of the end that are
/// no cursors of the query (`BadCursor`, `CursorMismatch`); and what no index serves of the first branch that misses one
/// (`MissingIndex`). `NoMemory` means out of memory alone.
#[tactic(auto, using(crate::proofs::Refusals::refused_form, crate::proofs::Refusals::suits_several))]
pub fn prepare(
    alloc: Global,
    defs: &Defs,
    in_transaction: bool,
    search: &Search,
) -> Result<Ready, Body>
    requires { IsLawfulSearch search.now }
    ensures ready { IfOk result (λ r. IsReady defs.now in_transaction (search_parts search.now) r.normal r.window) }
    ensures lawful { IfOk result (λ r. IsLawfulNormal r.normal) }
    ensures planned { IfOk result (λ r. ArePlansFor defs.now r.normal.branches r.plans.items) }
    ensures places { IfOk result (λ r. All (ArePlacesOf r.window) r.normal.branches) }
    ensures placeless { IfOk result (λ r. SuitsSeveral r.normal.several r.window) }
    ensures refused { IfErr result (λ b. (b ≡ Body.NoMemory) ⊎ IsRefused defs.now in_transaction (search_parts search.now) b) }
    ensures quiet { IfErr result IsQuiet }
{
    let normal = normal_form(alloc, in_transaction, &search.query)?;
    let window = window_of(alloc, normal.branches.as_slice(), search)?;
    let plans = plans_of(alloc, defs, normal.branches.as_slice())?;
    Ok(Ready {
        normal,
        window,
        plans,
    })
}

/// The normal form, or the refusal of the query's form: a rule that it breaks, too many branches, or in a transaction no ancestor.
#[tactic(auto, using(crate::proofs::Refusals::normal_read))]
fn normal_form(alloc: Global, in_transaction: bool, query: &Query) -> Result<Normal, Body>
    requires namespace { IsTrue (is_namespace query.now.namespace) }
    requires values { IsTrue (list_all has_operands query.now.filters) }
    ensures ok { IfOk result (λ n. n ≡ normal_form query.now) }
    ensures lawful { IfOk result IsLawfulNormal }
    ensures unrefused { IfOk result (λ n. (s : Session) → IsInside in_transaction s → form_refusal s query.now ≡ None) }
    ensures cursorless { IfOk result (λ n. (n.several && query.now.cursors) ≡ false) }
    ensures refused { IfErr result (λ b. (b ≡ Body.NoMemory)
        ⊎ ((s : Session) → IsInside in_transaction s → form_refusal s query.now ≡ Some b)) }
    ensures quiet { IfErr result IsQuiet }
{
    match normalize(alloc, query) {
        Ok(normal) => {
            if in_transaction && query.ancestor.is_none() {
                Err(Body::NeedAncestor)
            } else {
                Ok(normal)
            }
        }
        Err(QueryRefused::Bad(reason)) => Err(Body::BadQuery { reason }),
        Err(QueryRefused::TooManySubqueries { count }) => Err(Body::TooManySubqueries { count }),
        Err(QueryRefused::NoMemory) => Err(Body::NoMemory),
    }
}

/// One end of a window.
#[derive(Drop)]
enum End {
    /// No text is given.
    Nothing,
    /// The place before the first row.
    BeforeFirst,
    /// The place behind a row.
    Behind(Place),
}

/// The window of a search whose query has these branches, or the refusal of the start's text and then of the end's. Where there is no
/// single branch, neither is looked at.
fn window_of(alloc: Global, branches: &[Branch], search: &Search) -> Result<Window, Body>
    ensures ok { IfOk result (WindowRead branches.now (search_parts search.now)) }
    ensures places { IfOk result (λ w. All (ArePlacesOf w) branches.now) }
    ensures placeless { IfOk result (λ w. search.now.start ≡ None → search.now.end ≡ None → IsPlaceless w) }
    ensures refused { IfErr result (λ b. (b ≡ Body.NoMemory) ⊎ WindowRefused branches.now (search_parts search.now) b) }
    ensures quiet { IfErr result IsQuiet }
{
    match branches {
        [branch] => window_in(alloc, branch, search),
        _ => Ok(window_between(End::Nothing, End::Nothing, search.offset, search.limit)),
    }
}

/// The window of a search in its one branch.
#[tactic(auto, using(crate::proofs::Ends::start_refused, crate::proofs::Ends::end_refused))]
fn window_in(alloc: Global, branch: &Branch, search: &Search) -> Result<Window, Body>
    ensures ok { IfOk result (WindowRead (branch.now ∷ []) (search_parts search.now)) }
    ensures places { IfOk result (λ w. ArePlacesOf w branch.now) }
    ensures placeless { IfOk result (λ w. search.now.start ≡ None → search.now.end ≡ None → IsPlaceless w) }
    ensures refused { IfErr result (λ b. (b ≡ Body.NoMemory) ⊎ WindowRefused (branch.now ∷ []) (search_parts search.now) b) }
    ensures quiet { IfErr result IsQuiet }
{
    let start = end_of(alloc, branch, Field::Start, &search.start)?;
    let end = end_of(alloc, branch, Field::End, &search.end)?;
    Ok(window_between(start, end, search.offset, search.limit))
}

/// What the text of one end stands for as a cursor of the branch.
#[tactic(auto, using(crate::proofs::Ends::text_refused))]
fn end_of(
    alloc: Global,
    branch: &Branch,
    field: Field,
    text: &Option<TextString>,
) -> Result<End, Body>
    ensures ok { IfOk result (IsEnd branch.now text.now) }
    ensures nothing { IfOk result (λ e. text.now ≡ None → e ≡ End.Nothing) }
    ensures refused { IfErr result (λ b. (b ≡ Body.NoMemory) ⊎ IsEndRefused branch.now field text.now b) }
    ensures quiet { IfErr result IsQuiet }
{
    let Some(text) = text else {
        return Ok(End::Nothing);
    };
    match read(alloc, branch, text.text()) {
        Ok(Some(place)) => Ok(End::Behind(place)),
        Ok(None) => Ok(End::BeforeFirst),
        Err(refused) => Err(cursor_body(field, refused)),
    }
}

/// What is told of a text that is no cursor.
fn cursor_body(field: Field, refused: CursorRefused) -> Body
    ensures told { (result ≡ Body.NoMemory) ⊎ (cursor_refusal field (Refused refused) ≡ Some result) }
    ensures quiet { IsQuiet result }
{
    match refused {
        CursorRefused::BadCursor => Body::BadCursor { field },
        CursorRefused::CursorMismatch => Body::CursorMismatch { field },
        CursorRefused::NoMemory => Body::NoMemory,
    }
}

/// The window between two ends. An end at the place before the first row leaves nothing, so it is told as a limit of no results.
fn window_between(start: End, end: End, offset: u32, limit: Option<u32>) -> Window
    ensures { result ≡ window_between start end offset limit }
{
    let (offset, limit) = match &end {
        End::BeforeFirst => (0, Some(0)),
        End::Nothing | End::Behind(_) => (offset, limit),
    };
    Window {
        start: place_in(start),
        end: place_in(end),
        offset,
        limit,
    }
}

fn place_in(end: End) -> Option<Place>
    ensures { result ≡ place_found (told end) }
{
    match end {
        End::Behind(place) => Some(place),
        End::Nothing | End::BeforeFirst => None,
    }
}

/// A plan for each branch, or what the first without one misses.
#[tactic(auto, using(crate::proofs::Plans::plans_step, crate::proofs::Plans::missing_step))]
fn plans_of(alloc: Global, defs: &Defs, branches: &[Branch]) -> Result<Vec<ScanPlan>, Body>
    requires { All IsLawfulBranch branches.now }
    ensures ok { OnOk result (missing_refusal defs.now branches.now ≡ None) }
    ensures planned { IfOk result (λ plans. ArePlansFor defs.now branches.now plans.items) }
    ensures refused { IfErr result (λ b. (b ≡ Body.NoMemory) ⊎ (missing_refusal defs.now branches.now ≡ Some b)) }
    ensures quiet { IfErr result IsQuiet }
{
    let mut plans = Vec::new(alloc);
    for branch in branches {
        let plan = plan_of(alloc, defs, branch)?;
        if plans.push(plan).is_err() {
            return Err(Body::NoMemory);
        }
    }
    Ok(plans)
}

/// A plan for the branch, or what it misses.
fn plan_of(alloc: Global, defs: &Defs, branch: &Branch) -> Result<ScanPlan, Body>
    requires { IsLawfulBranch branch.now }
    ensures ok { OnOk result (missing_of branch.now defs.now ≡ None) }
    ensures planned { IfOk result (IsPlanFor defs.now branch.now) }
    ensures refused { IfErr result (λ b. (b ≡ Body.NoMemory) ⊎ (missing_body (missing_of branch.now defs.now) ≡ Some b)) }
    ensures quiet { IfErr result IsQuiet }
{
    match plan(alloc, branch, defs) {
        Ok(plan) => Ok(plan),
        Err(
            PlanRefused::MissingIndex {
                constraint,
                suggestion,
            },
        ) => Err(Body::MissingIndex {
            constraint,
            suggestion,
        }),
        Err(PlanRefused::NoMemory) => Err(Body::NoMemory),
    }
}
