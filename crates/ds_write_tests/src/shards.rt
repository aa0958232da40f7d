//! A journal as shards take it.
ghost use Rattle.std.specs.Prelude.{◌≡◌, ℕ, ◌≤◌, List, All, IsTrue, length};
ghost use Rattle.ds_base.specs.Limits.{most_writes};
ghost use Rattle.ds_log.specs.Logs.{shard_list};
ghost use Rattle.ds_log.specs.UpTo.{commits_of};
ghost use Rattle.ds_log.specs.declared.Commit.{Commit};

use crate::writes::{deletes, is_named, touches};
use ds_base::NoMemory;
use ds_log::{Commit, Entry, Journal, ShardCommits, project, shard_entries};
use std::alloc::Global;
use std::test::Fail;

fn commit(alloc: Global, names: &[&str]) -> Result<Commit, Fail> {
    let touched = touches(alloc, &[])?;
    let writes = deletes(alloc, names)?;
    Ok(Commit {
        client: 0,
        touched,
        writes,
    })
}

/// The names of the keys that three commits delete.
const COMMITS: [&[&str]; 3] = [&["a", "b"], &["b"], &["c", "a", "c"]];

fn journal(alloc: Global) -> Result<Journal, Fail> {
    let mut commits = Vec::new(alloc);
    for names in &COMMITS {
        let commit = commit(alloc, *names)?;
        commits.push(commit)?;
    }
    Ok(Journal::from(commits))
}

fn is_entry(entry: &Entry, commit: u64, group: &str, writes: usize) -> bool {
    entry.commit == commit && is_named(&entry.group, group) && entry.writes.len() == writes
}

fn are_entries(entries: &[Entry], wanted: &[(u64, &str, usize)]) -> bool {
    if entries.len() != wanted.len() {
        return false;
    }
    for (entry, (commit, group, writes)) in entries.iter().zip(wanted) {
        if !is_entry(entry, *commit, *group, *writes) {
            return false;
        }
    }
    true
}

/// Whether these are the entries of the journal for one of two shards.
fn gives(
    alloc: Global,
    journal: &Journal,
    shard: u32,
    wanted: &[(u64, &str, usize)],
) -> Result<bool, Fail> {
    let entries = project(alloc, journal, shard, 2)?;
    Ok(are_entries(entries.as_slice(), wanted))
}

/// Of [T,a], [T,b] and [T,c] the second has an even hash. In commit 3 the groups stand by their root keys.
fn is_shared_by_two(alloc: Global) -> Result<bool, Fail> {
    let journal = journal(alloc)?;
    let even = gives(alloc, &journal, 0, &[(1, "b", 1), (2, "b", 1)])?;
    let odd = gives(alloc, &journal, 1, &[(1, "a", 1), (3, "a", 1), (3, "c", 2)])?;
    Ok(even && odd)
}

/// The entries of one commit for a shard are those with which its list goes on.
fn gives_its_entries(alloc: Global) -> Result<bool, Fail> {
    let last = commit(alloc, &["c", "a", "c"])?;
    let odd = shard_entries(alloc, 3, &last, 1, 2)?;
    Ok(are_entries(odd.as_slice(), &[(3, "a", 1), (3, "c", 2)]))
}

/// Of the entries of commits 1, 3 and 3 one is of the first two commits.
fn counts_entries(alloc: Global) -> Result<bool, NoMemory> {
    let mut commits = ShardCommits::new(alloc);
    commits.make_room(3)?;
    commits.push(1);
    commits.push(3);
    commits.push(3);
    let counted = commits.up_to(0) == 0 && commits.up_to(2) == 1 && commits.up_to(3) == 3;
    Ok(counted && commits.commit_of(0) == 0 && commits.commit_of(2) == 3)
}

/// Whether a shard has at most 500 entries for each commit of its journal; so it is, since no commit has more writes.
fn are_few(entries: &ShardCommits, commits: u32) -> bool
    ensures { (journal : List Commit) (shard shards : ℕ) → entries.now.commits ≡ commits_of (shard_list journal shard shards)
        → length journal ≡ commits → All (λ c. length c.writes ≤ most_writes) journal → IsTrue result }
{
    entries.len() <= 500 * u64::from(commits)
}

/// Commits 1 and 3 of three gave the shard three entries.
fn has_few_entries(alloc: Global) -> Result<bool, NoMemory> {
    let mut entries = ShardCommits::new(alloc);
    entries.make_room(3)?;
    entries.push(1);
    entries.push(3);
    entries.push(3);
    Ok(are_few(&entries, 3) && !are_few(&entries, 0))
}

#[test]
fn shards_share_a_journal(rt: HostRuntime) -> Result<(), Fail> {
    assert!(rt; is_shared_by_two(rt.alloc())?);
    assert!(rt; gives_its_entries(rt.alloc())?);
    assert!(rt; counts_entries(rt.alloc())?);
    assert!(rt; has_few_entries(rt.alloc())?);
    Ok(())
}
