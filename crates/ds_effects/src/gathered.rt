//! The steps of a machine of events, and what an open request has gathered by those of its client.
ghost use Rattle.std.specs.Prelude.{◌≡◌, ◌<◌, None, Some, is_some, length, map, replicate, slice_index_or, slice_set, IfOk, IfSome};
ghost use Rattle.std.specs.List.{list_all};
ghost use Rattle.ds_effects.specs.Gathered.{first_place, first_unviewed, has_covered};

use ds_base::{Counts, NoMemory};
use std::alloc::Global;
use std::marker::Model;

/// One atomic step. Each is one hold of a lock, or one look at a snapshot, of a store that many clients use at once.
#[derive(Clone, Copy, PartialEq, Eq)]
pub enum Step {
    /// The journal takes a commit.
    Commit,
    /// A shard applies its next entry.
    Apply {
        /// The shard's number, counted from 0.
        shard: u32,
    },
    /// A shard is looked at.
    View {
        /// The shard's number, counted from 0.
        shard: u32,
    },
    /// The journal's length is read.
    Touch,
    /// The id counter is raised.
    Issue {
        /// By so many ids.
        count: u64,
    },
}

impl Step {
    ghost use Rattle.ds_effects.specs.Taken.{is_commit, is_issue, is_view};

    /// Whether it is a Commit.
    pub fn is_commit(&self) -> bool
        ensures { result ≡ is_commit self.now }
    {
        matches!(self, Step::Commit)
    }

    /// Whether it is an Issue of so many ids.
    pub fn is_issue(&self, ids: u64) -> bool
        ensures { result ≡ is_issue ids self.now }
    {
        matches!(self, Step::Issue { count } if *count == ids)
    }

    /// Whether it is a View of this shard.
    pub fn is_view(&self, of: u32) -> bool
        ensures { result ≡ is_view of self.now }
    {
        matches!(self, Step::View { shard } if *shard == of)
    }
}

/// What an open request has gathered.
#[derive(Drop)]
pub struct Gathered {
    place: Option<u64>,
    first: Option<u64>,
    applied: Option<u64>,
    views: Vec<Option<u64>>,
}

impl Model for Gathered {
    ghost use Rattle.ds_effects.specs.Gathered.{GatheredParts};

    ghost Value = { GatheredParts };

    ghost view = { λ g. record { place = g.place; first = g.first; applied = g.applied; views = g.views.items } };
}

impl Gathered {
    /// Nothing yet, of so many shards. A refusal means out of memory.
    pub fn nothing(alloc: Global, shards: u32) -> Result<Gathered, NoMemory>
        ensures { IfOk result (λ g. g ≡ record { place = None; first = None; applied = None; views = replicate shards None }) }
    {
        let mut views = Vec::new(alloc);
        for _shard in 0..shards {
            views.push(None)?;
        }
        Ok(Gathered {
            place: None,
            first: None,
            applied: None,
            views,
        })
    }

    /// The journal's length at the request's Touch.
    pub fn place(&self) -> Option<u64>
        ensures { result ≡ self.now.place }
    {
        self.place
    }

    /// The first of the ids that its Issue drew.
    pub fn first(&self) -> Option<u64>
        ensures { result ≡ self.now.first }
    {
        self.first
    }

    /// The count to which its Apply raised its shard's.
    pub fn applied(&self) -> Option<u64>
        ensures { result ≡ self.now.applied }
    {
        self.applied
    }

    /// A Touch: the journal has this length. The first one counts.
    pub fn touch(&mut self, length: u64)
        ensures { self.new ≡ record self.old { place = first_place length self.old.place } }
    {
        if self.place.is_none() {
            self.place = Some(length);
        }
    }

    /// An Issue: ids were drawn from this one on.
    pub fn draw(&mut self, first: u64)
        ensures { self.new ≡ record self.old { first = Some first } }
    {
        self.first = Some(first);
    }

    /// An Apply of the request's shard, which has applied so many entries now.
    pub fn apply(&mut self, count: u64)
        ensures { self.new ≡ record self.old { applied = Some count } }
    {
        self.applied = Some(count);
    }

    /// The count of a shard at its View.
    pub fn viewed(&self, shard: u32) -> Option<u64>
        requires { shard < length self.now.views }
        ensures { result ≡ slice_index_or self.now.views shard None }
    {
        self.views[shard as usize]
    }

    /// Whether a View of the shard showed at least so many entries.
    pub fn has_covered(&self, shard: u32, entries: u64) -> bool
        requires { shard < length self.now.views }
        ensures { result ≡ has_covered entries (slice_index_or self.now.views shard None) }
    {
        match self.viewed(shard) {
            Some(count) => entries <= count,
            None => false,
        }
    }

    /// A View of a shard, which has applied so many entries.
    pub fn view(&mut self, shard: u32, count: u64)
        requires { shard < length self.old.views }
        ensures { self.new ≡ record self.old { views = slice_set self.old.views shard (Some count) } }
    {
        self.views[shard as usize] = Some(count);
    }

    /// The first shard without a View.
    pub fn unviewed(&self) -> Option<usize>
        ensures first { result ≡ first_unviewed 0 self.now.views }
        ensures below { IfSome result (λ shard. shard < length self.now.views) }
    {
        first_unviewed(self.views.as_slice())
    }

    /// The viewed counts, as soon as each shard was viewed; `None` where a View is missing. A refusal means out of memory.
    pub fn counts(&self, alloc: Global) -> Result<Option<Counts>, NoMemory>
        ensures viewed { IfOk result (λ o. IfSome o (λ counts. map (λ n. Some n) counts ≡ self.now.views)) }
        ensures all { IfOk result (λ o. is_some o ≡ list_all is_some self.now.views) }
    {
        all_viewed(alloc, self.views.as_slice())
    }
}

/// The numbers, as soon as there is none missing. A refusal means out of memory.
fn all_viewed(alloc: Global, views: &[Option<u64>]) -> Result<Option<Counts>, NoMemory>
    ensures viewed { IfOk result (λ o. IfSome o (λ counts. map (λ n. Some n) counts ≡ views.now)) }
    ensures all { IfOk result (λ o. is_some o ≡ list_all is_some views.now) }
{
    let mut counts = Vec::new(alloc);
    for view in views {
        match view {
            Some(count) => counts.push(*count)?,
            None => return Ok(None),
        }
    }
    Ok(Some(Counts::from(counts)))
}

/// The first place without a number, counted from 0.
fn first_unviewed(views: &[Option<u64>]) -> Option<usize>
    ensures first { result ≡ first_unviewed 0 views.now }
    ensures below { IfSome result (λ shard. shard < length views.now) }
{
    for (shard, view) in views.iter().enumerate() {
        if view.is_none() {
            return Some(shard);
        }
    }
    None
}
