//! What a trial was told, and what is amiss with it.
ghost use Rattle.std.specs.Prelude.{◌≤◌};
ghost use Rattle.ds_base.specs.Limits.{most_shards};

use ds_log::{Journal, project};
use ds_store::Closed;
use std::alloc::{AllocError, Global};

/// The first id.
pub(crate) const FIRST_ID: u64 = 1 << 52;

/// What a trial was told: the commits that were acknowledged and the ids that were drawn, in any order, the greatest id counter and
/// the greatest count of each shard. It keeps the first thing that was amiss, an empty text if nothing was.
#[derive(Drop)]
pub(crate) struct Told {
    /// The first thing that was amiss, or an empty text.
    pub(crate) amiss: &'static str,
    /// The numbers of commits.
    pub(crate) commits: Vec<u64>,
    /// The drawn ids.
    pub(crate) ids: Vec<u64>,
    /// The greatest id counter.
    pub(crate) next: u64,
    /// The greatest count of each shard.
    pub(crate) counts: Vec<u64>,
}

impl Told {
    /// Nothing was told yet.
    pub(crate) fn new(alloc: Global) -> Told {
        Told {
            amiss: "",
            commits: Vec::new(alloc),
            ids: Vec::new(alloc),
            next: FIRST_ID,
            counts: Vec::new(alloc),
        }
    }

    /// Keeps what is amiss where this isn't met, unless something was amiss before.
    pub(crate) fn expect(&mut self, met: bool, amiss: &'static str) {
        if !met && self.amiss.is_empty() {
            self.amiss = amiss;
        }
    }

    /// Keeps a commit that was acknowledged.
    pub(crate) fn commit(&mut self, number: u64) {
        let kept = self.commits.push(number).is_ok();
        self.expect(kept, "no memory");
    }

    /// Keeps an id that was drawn.
    pub(crate) fn id(&mut self, id: u64) {
        let kept = self.ids.push(id).is_ok();
        self.expect(kept, "no memory");
    }

    /// Keeps an id counter that was shown.
    pub(crate) fn next(&mut self, next: u64) {
        self.next = self.next.max(next);
    }

    /// Keeps what another was told.
    pub(crate) fn join(&mut self, other: Told) {
        let Told {
            amiss,
            commits,
            ids,
            next,
            counts,
        } = other;
        self.expect(amiss.is_empty(), amiss);
        let kept = self.commits.extend_from_slice(&commits).is_ok()
            && self.ids.extend_from_slice(&ids).is_ok();
        self.expect(kept, "no memory");
        self.next(next);
        let kept = self.counts(&counts);
        self.expect(kept, "no memory");
    }

    /// Keeps the greater of each two counts. It says whether there was memory.
    pub(crate) fn counts(&mut self, counts: &[u64]) -> bool {
        for (shard, count) in counts.iter().enumerate() {
            if !self.count(shard, *count) {
                return false;
            }
        }
        true
    }

    /// Keeps a count of a shard where it is greater. It says whether there was memory.
    pub(crate) fn count(&mut self, shard: usize, count: u64) -> bool {
        raise(&mut self.counts, shard, count)
    }
}

/// Raises the count of a shard, one more than there are at most.
fn raise(counts: &mut Vec<u64>, shard: usize, count: u64) -> bool {
    if let Some(greatest) = counts.get_mut(shard) {
        *greatest = count.max(*greatest);
        return true;
    }
    counts.push(count).is_ok()
}

/// Whether the numbers, sorted, are all from the first up to, but without, the end.
fn are_all(first: u64, end: u64, numbers: &[u64]) -> bool {
    let mut next = first;
    for number in numbers {
        if *number != next {
            return false;
        }
        next = number.wrapping_add(1);
    }
    next == end
}

fn has_each_once(first: u64, end: u64, mut numbers: Vec<u64>) -> Result<bool, AllocError> {
    numbers.sort()?;
    Ok(are_all(first, end, &numbers))
}

/// Whether no count is above the number of the shard's entries in the journal.
fn are_within(
    alloc: Global,
    journal: &Journal,
    shards: u32,
    counts: &[u64],
) -> Result<bool, AllocError>
    requires { (1 ≤ shards) × (shards ≤ most_shards) }
{
    for shard in 0..shards {
        let entries = project(alloc, journal, shard, shards)?;
        let count = counts.get(shard as usize).copied().unwrap_or(0);
        if (entries.len() as u64) < count {
            return Ok(false);
        }
    }
    Ok(true)
}

/// What is amiss with a store of so many shards that was closed after all this was told; an empty text if nothing is.
pub(crate) fn amiss(
    alloc: Global,
    shards: u32,
    told: Told,
    closed: &Closed,
) -> Result<&'static str, AllocError>
    requires { (1 ≤ shards) × (shards ≤ most_shards) }
{
    let Told {
        amiss,
        commits,
        ids,
        next,
        counts,
    } = told;
    if !amiss.is_empty() {
        return Ok(amiss);
    }
    if !has_each_once(1, (closed.journal.len() as u64).wrapping_add(1), commits)? {
        return Ok("the acknowledged commits aren't those of the journal, each once");
    }
    if closed.next < next || !has_each_once(FIRST_ID, closed.next, ids)? {
        return Ok("the drawn ids aren't those below the counter, each once");
    }
    if !are_within(alloc, &closed.journal, shards, &counts)? {
        return Ok("a shard counted entries that the journal doesn't have");
    }
    Ok("")
}
