//! What a client has seen: how far it has been shown the journal, each shard and the id counter.
ghost use Rattle.std.specs.Prelude.{◌≡◌, List, None, length, take, IfOk};
ghost use Rattle.ds_log.specs.declared.Entry.{Entry};
ghost use Rattle.ds_model.specs.Sessions.{counted_place, first_session, greater_counts, last_commit, list_of, raised_at};
ghost use Rattle.ds_model.specs.Sessions.{saw_counts, saw_entries, saw_next, saw_place, saw_shard_count};
ghost use Rattle.ds_protocol.specs.Watermarks.{nothing_seen, raised_by};

use ds_base::NoMemory;
use ds_base::limits::FIRST_DRAWN_ID;
use std::alloc::Global;
use std::marker::Model;

/// The high-water mark of what a client has seen: a place in the journal, a count of entries for each shard, and the id counter. Replies
/// raise it, by the rules of our own profile for what a client may rely on, and nothing lowers it.
///
/// Contracts see it as a session outside a transaction.
#[derive(Drop)]
pub struct Watermark {
    place: u64,
    counts: Vec<u64>,
    next: u64,
}

impl Model for Watermark {
    ghost use Rattle.std.specs.Prelude.{None};
    ghost use Rattle.ds_model.specs.Sessions.{Session};

    ghost Value = { Session };

    ghost view = { λ w. record { place = w.place; counts = w.counts.items; next_id = w.next; transaction = None } };
}

impl Watermark {
    /// Nothing seen of so many shards: the id counter is the first drawn id. A refusal means out of memory.
    pub fn first(alloc: Global, shards: u32) -> Result<Watermark, NoMemory>
        ensures { IfOk result (λ w. w ≡ first_session shards) }
    {
        let mut counts = Vec::new(alloc);
        for _shard in 0..shards {
            counts.push(0)?;
        }
        Ok(Watermark {
            place: 0,
            counts,
            next: FIRST_DRAWN_ID,
        })
    }

    /// The seen place: a number of commits from the front.
    pub fn place(&self) -> u64
        ensures { result ≡ self.now.place }
    {
        self.place
    }

    /// The seen counts, shard 0 first.
    pub fn counts(&self) -> &[u64]
        ensures { result.now ≡ self.now.counts }
    {
        self.counts.as_slice()
    }

    /// The shown id counter.
    pub fn next(&self) -> u64
        ensures { result ≡ self.now.next_id }
    {
        self.next
    }

    /// A place or the number of a commit was shown.
    pub fn see_place(&mut self, place: u64)
        ensures { self.new ≡ saw_place place self.old }
    {
        self.place = self.place.max(place);
    }

    /// An id counter was shown.
    pub fn see_next(&mut self, next: u64)
        ensures { self.new ≡ saw_next next self.old }
    {
        self.next = self.next.max(next);
    }

    /// A strong read looked at so many entries of a shard, counted from 0. The place of the read is shown beside it.
    pub fn see_entries(&mut self, shard: usize, entries: u64)
        ensures { self.new ≡ saw_entries shard entries self.old }
    {
        raise_at(&mut self.counts, shard, entries);
    }

    /// A count of one shard was shown, whose last counted entry is of this commit, 0 where none is counted.
    pub fn see_count(&mut self, shard: usize, count: u64, commit: u64)
        ensures raised { self.new ≡ saw_place commit (saw_entries shard count self.old) }
        ensures saw { (lists : List (List Entry)) → commit ≡ last_commit (take count (list_of lists shard))
            → self.new ≡ saw_shard_count lists shard count self.old }
    {
        self.see_entries(shard, count);
        self.see_place(commit);
    }

    /// A count of each shard was shown; the greatest commit of their last counted entries is this one, 0 where none is counted.
    pub fn see_counts(&mut self, counts: &[u64], commit: u64)
        ensures raised { self.new ≡ saw_place commit (record self.old { counts = greater_counts self.old.counts counts.now }) }
        ensures saw { (lists : List (List Entry)) → commit ≡ counted_place lists counts.now
            → self.new ≡ saw_counts lists counts.now self.old }
    {
        raise_all(&mut self.counts, counts);
        self.see_place(commit);
    }

    /// What the other has seen, this one has seen too. Clients meet by taking the greatest of all into one, and that into each.
    pub fn raise(&mut self, other: &Watermark)
        ensures { self.new ≡ raised_by other.now self.old }
    {
        self.place = self.place.max(other.place);
        self.next = self.next.max(other.next);
        raise_all(&mut self.counts, other.counts.as_slice());
    }

    /// Nothing is seen any more, so that the greatest of several can be taken into it. It takes no memory.
    pub fn clear(&mut self)
        ensures { self.new ≡ nothing_seen (length self.old.counts) }
    {
        self.place = 0;
        self.next = 0;
        self.counts.fill(0);
    }
}

/// Raises the number at a place, if there is one, to at least `count`.
#[tactic(auto, using(crate::proofs::Raises::raised_set, std::proofs::lemmas::List::set_past))]
fn raise_at(counts: &mut [u64], shard: usize, count: u64)
    ensures { counts.new ≡ raised_at shard count counts.old }
{
    if shard < counts.len() {
        counts[shard] = counts[shard].max(count);
    }
}

/// Raises each number to at least the one at its place.
#[tactic(auto, using(crate::proofs::Raises::greater_none, crate::proofs::Raises::greater_more))]
fn raise_all(counts: &mut [u64], others: &[u64])
    ensures { counts.new ≡ greater_counts counts.old others.now }
{
    for i in 0..others.len() {
        raise_at(counts, i, others[i]);
    }
}
