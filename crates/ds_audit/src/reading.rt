//! What the words of the command line name, and the texts that are loaded.
ghost use Rattle.std.specs.Prelude.{◌≡◌, ◌≤◌, ℕ, List, Err, None, Some, map, IfErr, IfOk, IfSome, IsSome, ◌&&◌};
ghost use Rattle.std.specs.String.{string_bytes};
ghost use Rattle.ds_base.specs.Limits.{most_shards};
ghost use Rattle.ds_journal_text.specs.Texts.{IsJournalOf};
ghost use Rattle.ds_words.specs.Form.{is_value};
ghost use Rattle.ds_audit.specs.Audits.{AreGiven, AreLoaded, AreUnloaded, IsNoJournal, IsOwn, IsUnloaded, IsUnread, UnlessFaulted};
ghost use Rattle.ds_audit.specs.Audits.{asked_by, names_asked};

use crate::status::AuditStatus;
use ds_base::{ByteString, TextString};
use ds_check::{JournalRefused, read_journal};
use ds_indexdef::{Defs, YamlRefused, read_yaml};
use ds_io::{Files, LoadFault};
use ds_log::Journal;
use ds_words::{Options, WordsRefused, read_words};
use std::alloc::Global;

/// What the words name: three files, and what a server's words say behind them.
#[derive(Drop)]
pub(crate) struct Names<'a> {
    pub(crate) input: &'a str,
    pub(crate) replies: &'a str,
    pub(crate) journal: &'a str,
    pub(crate) options: Options,
}

/// The texts of the three files.
#[derive(Drop)]
pub(crate) struct Texts {
    pub(crate) input: ByteString,
    pub(crate) replies: ByteString,
    pub(crate) journal: ByteString,
}

/// Reads the words. `Usage`: exactly where they leave their form; `NoMemory` means out of memory, where they are in it.
pub(crate) fn names_in(alloc: Global, words: &[String]) -> Result<Names<'_>, WordsRefused>
    ensures read { IfOk result (λ names. asked_by (map string_bytes words.now) ≡ Some (names_asked names)) }
    ensures shards { IfOk result (λ names. (1 ≤ names.options.shards) × (names.options.shards ≤ most_shards)) }
    ensures usage { result ≡ Err WordsRefused.Usage → asked_by (map string_bytes words.now) ≡ None }
    ensures no_memory { result ≡ Err WordsRefused.NoMemory → IsSome (asked_by (map string_bytes words.now)) }
{
    if words.len() < 3 {
        return Err(WordsRefused::Usage);
    }
    let (input, replies, journal) = (words[0].as_str(), words[1].as_str(), words[2].as_str());
    if !are_values(input, replies, journal) {
        return Err(WordsRefused::Usage);
    }
    match read_words(alloc, &words[3..]) {
        Ok(options) => Ok(Names {
            input,
            replies,
            journal,
            options,
        }),
        Err(refused) => Err(refused),
    }
}

/// Whether three words are names of files.
fn are_values(input: &str, replies: &str, journal: &str) -> bool
    ensures { result ≡ (is_value input.now && (is_value replies.now && is_value journal.now)) }
{
    is_value(input.as_bytes()) && is_value(replies.as_bytes()) && is_value(journal.as_bytes())
}

fn is_value(value: &[u8]) -> bool
    ensures { result ≡ is_value value.now }
{
    match value.first() {
        Some(first) => *first != b'-',
        None => false,
    }
}

/// Loads the three files, in their order. A status says why one isn't there.
pub(crate) fn load_texts<F: Files>(
    alloc: Global,
    names: &Names<'_>,
    files: &mut F,
) -> Result<Texts, AuditStatus>
    ensures loaded { IfOk result (λ texts. AreLoaded (names_asked names.now) (F.content files.old) texts) }
    ensures refused { IfErr result (λ status. AreUnloaded (names_asked names.now) (F.faults files.old) (F.faults files.new) status) }
    ensures contents { (other : List ℕ) → F.content files.new other ≡ F.content files.old other }
    ensures counted { (other : List ℕ) → F.faults files.old other ≤ F.faults files.new other }
    ensures unfaulted { UnlessFaulted result (F.faults files.old) (F.faults files.new) }
{
    Ok(Texts {
        input: load(alloc, files, names.input)?,
        replies: load(alloc, files, names.replies)?,
        journal: load(alloc, files, names.journal)?,
    })
}

/// Loads a file. A status says why it isn't there.
fn load<F: Files>(alloc: Global, files: &mut F, name: &str) -> Result<ByteString, AuditStatus>
    ensures loaded { IfOk result (IsOwn (F.content files.old name.now)) }
    ensures refused { IfErr result (IsUnloaded (F.faults files.old name.now) (F.faults files.new name.now)) }
    ensures contents { (other : List ℕ) → F.content files.new other ≡ F.content files.old other }
    ensures counted { (other : List ℕ) → F.faults files.old other ≤ F.faults files.new other }
    ensures unfaulted { UnlessFaulted result (F.faults files.old) (F.faults files.new) }
{
    match files.load(alloc, name) {
        Ok(text) => Ok(text),
        Err(LoadFault::Failed) => Err(AuditStatus::FileFault),
        Err(LoadFault::NoMemory) => Err(AuditStatus::NoMemory),
    }
}

/// The journal of a text. A status says why it isn't one.
pub(crate) fn journal_of(alloc: Global, text: &[u8]) -> Result<Journal, AuditStatus>
    ensures read { IfOk result (IsJournalOf text.now) }
    ensures refused { IfErr result (IsNoJournal text.now) }
{
    match read_journal(alloc, text) {
        Ok(journal) => Ok(journal),
        Err(JournalRefused::Line(line)) => Err(AuditStatus::Journal { line }),
        Err(JournalRefused::NoMemory) => Err(AuditStatus::NoMemory),
    }
}

/// The definitions of the index file, and none where no word names one. A status says why they can't be had.
pub(crate) fn definitions<F: Files>(
    alloc: Global,
    files: &mut F,
    indexes: &Option<TextString>,
) -> Result<Defs, AuditStatus>
    ensures given { IfOk result (AreGiven (F.content files.old) indexes.now) }
    ensures refused { IfErr result (IsUnread indexes.now (F.content files.old) (F.faults files.old) (F.faults files.new)) }
    ensures unfaulted { UnlessFaulted result (F.faults files.old) (F.faults files.new) }
{
    match indexes {
        Some(name) => definitions_in(alloc, files, name),
        None => Ok(Defs::new(alloc)),
    }
}

fn definitions_in<F: Files>(
    alloc: Global,
    files: &mut F,
    name: &TextString,
) -> Result<Defs, AuditStatus>
    ensures given { IfOk result (AreGiven (F.content files.old) (Some name.now)) }
    ensures refused { IfErr result (IsUnread (Some name.now) (F.content files.old) (F.faults files.old) (F.faults files.new)) }
    ensures unfaulted { UnlessFaulted result (F.faults files.old) (F.faults files.new) }
{
    let text = load(alloc, files, name.text())?;
    match read_yaml(alloc, text.bytes()) {
        Ok(defs) => Ok(defs),
        Err(YamlRefused::Line(line)) => Err(AuditStatus::IndexFile { line }),
        Err(YamlRefused::NoMemory) => Err(AuditStatus::NoMemory),
    }
}
