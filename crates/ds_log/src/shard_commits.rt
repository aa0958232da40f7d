//! The commits of a shard's entries, by which the entries of a journal's first commits are counted.
ghost use Rattle.std.specs.Prelude.{◌≡◌, ◌+◌, ◌<◌, ◌≤◌, ◌++◌, ◌∷◌, [], List, ℕ, length, take, OnOk};
ghost use Rattle.std.specs.List.Sorted.{IsNonDecreasing};
ghost use Rattle.ds_log.specs.declared.Commit.{Commit};
ghost use Rattle.ds_log.specs.Logs.{shard_list};
ghost use Rattle.ds_log.specs.UpTo.{commits_of, count_up_to, last_number};

use ds_base::NoMemory;
use std::alloc::Global;
use std::marker::Model;

/// Of each entry of a shard the number of its commit, in the entries' order; numbers never fall. Contracts see also `spare`, how many
/// are put behind them without memory.
#[derive(Drop)]
pub struct ShardCommits {
    commits: Vec<u64>,
}

impl Model for ShardCommits {
    ghost use Rattle.std.specs.Prelude.{◌-◌};
    ghost use Rattle.std.specs.List.Sorted.{IsNonDecreasing};
    ghost use Rattle.std.specs.Vec.{vec_len, vec_capacity};
    ghost use Rattle.ds_log.specs.ShardCommits.{CommitsParts};

    ghost Value = { CommitsParts };

    ghost view = { λ s. record { commits = s.commits.items; spare = vec_capacity s.commits - vec_len s.commits } };

    ghost invariant = { λ s. IsNonDecreasing s.commits.items };
}

impl ShardCommits {
    /// Those of no entry. It takes no memory.
    pub fn new(alloc: Global) -> ShardCommits
        ensures { result.commits ≡ [] }
    {
        ShardCommits {
            commits: Vec::new(alloc),
        }
    }

    /// How many entries there are. It takes no memory.
    pub fn len(&self) -> u64
        ensures { result ≡ length self.now.commits }
    {
        self.commits.len() as u64
    }

    /// Makes room for so many calls of `push`. A refusal, which means out of memory, changes nothing.
    pub fn make_room(&mut self, entries: usize) -> Result<(), NoMemory>
        ensures ok { OnOk result (entries ≤ self.new.spare) }
        ensures kept { self.new.commits ≡ self.old.commits }
    {
        self.commits.reserve(entries)
    }

    /// Puts the number of one more entry's commit behind the others, for which there is room; it is no less than the last one.
    pub fn push(&mut self, commit: u64)
        requires room { 0 < self.old.spare }
        requires ascends { last_number self.old.commits ≤ commit }
        ensures commits { self.new.commits ≡ self.old.commits ++ commit ∷ [] }
        ensures spare { self.old.spare ≤ self.new.spare + 1 }
    {
        self.commits.push(commit).unwrap();
    }

    /// How many entries are of the first `place` commits. It bisects, and takes no memory.
    pub fn up_to(&self, place: u64) -> u64
        ensures value { result ≡ count_up_to place self.now.commits }
        ensures entries { (journal : List Commit) (shard shards : ℕ) → self.now.commits ≡ commits_of (shard_list journal shard shards)
            → result ≡ length (shard_list (take place journal) shard shards) }
    {
        count_up_to(self.commits.as_slice(), place) as u64
    }

    /// The commit of the n-th entry, counted from 1; 0 where n is 0. It takes no memory.
    pub fn commit_of(&self, n: u64) -> u64
        requires { n ≤ length self.now.commits }
        ensures { result ≡ last_number (take n self.now.commits) }
    {
        nth_number(self.commits.as_slice(), n as usize)
    }
}

/// How many of numbers that never fall are no greater than a place.
fn count_up_to(commits: &[u64], place: u64) -> usize
    requires { IsNonDecreasing commits.now }
    ensures { result ≡ count_up_to place commits.now }
{
    commits.partition_point(|commit| *commit <= place)
}

/// The n-th number, counted from 1; 0 where n is 0.
fn nth_number(commits: &[u64], n: usize) -> u64
    requires { n ≤ length commits.now }
    ensures { result ≡ last_number (take n commits.now) }
{
    if n == 0 {
        return 0;
    }
    commits[n - 1]
}
