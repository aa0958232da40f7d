//! What the reply to a search says.
ghost use Rattle.std.specs.Prelude.{◌≡◌, ℕ, List, Bool, Option, IfOk, IsTrue};
ghost use Rattle.std.specs.Option.{option_copied};
ghost use Rattle.ds_entity.specs.declared.results.Item.{Item};
ghost use Rattle.ds_entity.specs.declared.results.Seen.{Seen};
ghost use Rattle.ds_model.specs.Answers.{cursor_of};
ghost use Rattle.ds_protocol.specs.Finishing.{found};
ghost use Rattle.ds_query.specs.declared.query.Select.{Select};
ghost use Rattle.ds_output.specs.Looking.{tells_counts, tells_place};

use ds_base::{Counts, NoMemory, TryCopy};
use ds_entity::{Results, Seen};
use ds_protocol::{Search, finish};
use ds_query::{Normal, Place, RowList};
use ds_reply::Body;
use std::alloc::Global;

/// The counts that were looked at, where counts were. A refusal means out of memory.
pub fn counts_in(alloc: Global, seen: &Seen) -> Result<Counts, NoMemory>
    requires { IsTrue (tells_counts seen.now) }
    ensures { IfOk result (λ counts. seen.now ≡ Seen.Counts counts) }
{
    match seen {
        Seen::Counts(counts) => counts.copy(alloc),
        Seen::Place(_) => unreachable!(),
    }
}

/// The place that was looked at, where one was.
pub fn place_in(seen: &Seen) -> u64
    requires { IsTrue (tells_place seen.now) }
    ensures { seen.now ≡ Seen.Place result }
{
    match seen {
        Seen::Place(place) => *place,
        Seen::Counts(_) => unreachable!(),
    }
}

/// What the reply to a search says of what the store found. A refusal means out of memory.
pub fn found_body(
    alloc: Global,
    search: &Search,
    normal: &Normal,
    results: Results,
    next: Option<&Place>,
    seen: Seen,
) -> Result<Body, NoMemory>
    ensures { IfOk result (λ b. b ≡ found search.now.statement search.now.query.select results seen
        (cursor_of search.now.cursor normal.now.branches (option_copied next.entry))) }
{
    let empty = finish(alloc, search, normal, &[], RowList::new(alloc), next, seen)?;
    Ok(with_results(empty, results))
}

/// The same with these results.
fn with_results(body: Body, results: Results) -> Body
    ensures { (statement : Bool) (select : Select) (none : List Item) (seen : Seen) (cursor : Option (List ℕ))
        → body ≡ found statement select none seen cursor → result ≡ found statement select results seen cursor }
{
    match body {
        Body::Query {
            select,
            results: _none,
            seen,
            cursor,
        } => Body::Query {
            select,
            results,
            seen,
            cursor,
        },
        Body::Gql {
            select,
            results: _none,
            seen,
            cursor,
        } => Body::Gql {
            select,
            results,
            seen,
            cursor,
        },
        other => other,
    }
}
