//! What the types of a search and of a journal keep, told by a walk over them: texts are UTF-8, byte strings are bytes, and numbers have
//! their widths. The functions change nothing; the proofs need what their contracts say.
ghost use Rattle.std.specs.Prelude.{◌≡◌, ℕ, ◌<◌, ◌^◌, All, IsUtf8, length};
ghost use Rattle.ds_base.specs.Bytes.{AreBytes};
ghost use Rattle.ds_bytes.specs.Lawful.{IsLawfulValue};
ghost use Rattle.ds_log.specs.declared.Commit.{Commit};
ghost use Rattle.ds_query.specs.declared.branch.Pair.{Pair};
ghost use Rattle.ds_journal_text.specs.Lawful.{IsLawfulWrite};
ghost use Rattle.ds_model.specs.Sessions.{list_of};
ghost use Rattle.ds_model.specs.Worlds.{shard_lists};
ghost use Rattle.ds_reply_lines.specs.LawfulResults.{HasTexts};
ghost use Rattle.ds_judging_lines.specs.Deciding.{AsksLawful, IsHeld};

use ds_base::{ByteString, IndexValue, TextString};
use ds_history::History;
use ds_journal_text::{key_is_lawful, writes_are_lawful};
use ds_log::{Commit, Journal};
use ds_query::{Branch, Pair, Select};

/// The names of a projection.
pub fn select_is_lawful(select: &Select)
    ensures { HasTexts select.now }
{
    match select {
        Select::Entities | Select::Keys => {}
        Select::Projection(names) => names_are_texts(names.as_slice()),
    }
}

fn names_are_texts(names: &[TextString])
    ensures { All IsUtf8 names.now }
{
    for name in names {
        name_is_text(name);
    }
}

fn name_is_text(name: &TextString)
    ensures { IsUtf8 name.now }
{
    let _bytes = name.bytes();
}

/// The values that branches ask.
pub fn asks_are_lawful(branches: &[Branch])
    ensures { All AsksLawful branches.now }
{
    for branch in branches {
        pairs_are_lawful(branch.equal.as_slice());
    }
}

fn pairs_are_lawful(pairs: &[Pair])
    ensures { All (λ (p : Pair). IsLawfulValue p.value) pairs.now }
{
    for pair in pairs {
        value_is_lawful(&pair.value);
    }
}

fn value_is_lawful(value: &IndexValue)
    ensures { IsLawfulValue value.now }
{
    match value {
        IndexValue::Null | IndexValue::Bool(_) => {}
        IndexValue::Num(number) => {
            let _number = *number;
        }
        IndexValue::Bytes(bytes) => bytes_are_lawful(bytes),
        IndexValue::Key(key) => key_is_lawful(key),
    }
}

fn bytes_are_lawful(bytes: &ByteString)
    ensures { AreBytes bytes.now }
{
    are_bytes(bytes.bytes());
}

fn are_bytes(bytes: &[u8])
    ensures { AreBytes bytes.now }
{}

// ---- journals

/// A journal that replies are held against: its commits and entries are counted, and what its writes keep is told. It changes nothing.
pub fn journal_is_held(history: &History<'_>, journal: &Journal)
    requires { history.now.journal ≡ journal.now }
    ensures { IsHeld history.now.shards history.now.journal }
{
    let _shards = history.shards();
    let _commits = history.commits();
    entries_are_counted(history);
    commits_are_lawful(journal.as_slice());
}

fn entries_are_counted(history: &History<'_>)
    ensures { (shard : ℕ) → shard < history.now.shards
        → length (list_of (shard_lists history.now.shards history.now.journal) shard) < 2 ^ 64 }
{
    for shard in 0..history.shards() {
        let _entries = history.entries(shard);
    }
}

fn commits_are_lawful(commits: &[Commit])
    ensures { All (λ (c : Commit). All IsLawfulWrite c.writes) commits.now }
{
    for commit in commits {
        writes_are_lawful(commit.writes.as_slice());
    }
}
