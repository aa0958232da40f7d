//! What is left of passes at the end: their seats.
ghost use Rattle.std.specs.Prelude.{◌≡◌, ℕ, ◌+◌, ◌<◌, ◌≤◌, [], All, Contains, length};
ghost use Rattle.std.specs.Vec.{vec_capacity};
ghost use Rattle.ds_draw.specs.Draws.{draws_of};
ghost use Rattle.ds_store_passes.specs.Ending.{commits_of_all, draws_of_all};

use crate::making::Passes;
use crate::pass::Pass;
use ds_draw::{Seat, Seats};
use ds_store_hubs::Names;

/// The seats of all passes and of the keeper, for which there is room.
pub fn all_seats<J: Names>(
    commits: Vec<Seat>,
    ids: Vec<Seat>,
    passes: Passes<J>,
    commit_keeper: Seat,
    id_keeper: Seat,
) -> (Seats, Seats)
    requires empty { (commits.items ≡ []) × (ids.items ≡ []) }
    requires room { (length passes < vec_capacity commits) × (length passes < vec_capacity ids) }
    requires keeper { (commit_keeper.draws ≡ []) × (id_keeper.draws ≡ []) }
    requires words { (commit_keeper.word ≡ J.commits) × (id_keeper.word ≡ J.ids) }
    ensures many { (length result.0 ≡ length passes + 1) × (length result.1 ≡ length passes + 1) }
    ensures words { All (λ s. s.word ≡ J.commits) result.0 × All (λ s. s.word ≡ J.ids) result.1 }
    ensures draws { (draws_of result.0 ≡ commits_of_all passes) × (draws_of result.1 ≡ draws_of_all passes) }
    ensures keeper { Contains result.0 commit_keeper }
    ensures counters { (n : ℕ) → All (λ s. s.counter ≤ n) result.1 → All (λ p. p.next ≤ n) passes }
{
    let mut commits = commits;
    let mut ids = ids;
    for pass in passes.into_vec() {
        let (own, drawn) = seats_of(pass);
        commits.push_reserved(own);
        ids.push_reserved(drawn);
    }
    commits.push_reserved(commit_keeper);
    ids.push_reserved(id_keeper);
    (Seats::from(commits), Seats::from(ids))
}

/// The seats of a pass, on the commits and on the ids.
fn seats_of<J: Names>(pass: Pass<J>) -> (Seat, Seat)
    ensures commits { (result.0.word ≡ J.commits) × (result.0.draws ≡ pass.commits) }
    ensures ids { result.1 ≡ record { word = J.ids; draws = pass.draws; counter = pass.next } }
{
    let Pass {
        journal: _journal,
        shards: _shards,
        place: _,
        commits,
        ids,
        next: _,
        of: _,
    } = pass;
    (commits, ids)
}
