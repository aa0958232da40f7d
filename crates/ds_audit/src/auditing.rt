//! The audit of a run: its three files and the words of its server, and the verdict that is printed.
ghost use Rattle.std.specs.Prelude.{◌≡◌, ◌≤◌, ℕ, List, Some, map, IfErr, IfOk};
ghost use Rattle.std.specs.String.{string_bytes};
ghost use Rattle.ds_audit.specs.Audits.{AreSame, IfUnfaulted, IfUnwritten, IsAudited, IsDecided, IsUndecided, UnlessFaulted};
ghost use Rattle.ds_audit.specs.Audits.{asked_by, names_asked};
ghost use Rattle.ds_base.specs.Limits.{most_shards};

use crate::printing::print;
use crate::reading::{Names, definitions, journal_of, load_texts, names_in};
use crate::status::AuditStatus;
use ds_check::{Verdict, check};
use ds_io::{Files, Sink};
use ds_words::WordsRefused;
use std::alloc::Global;

/// Audits the run of the three named files, served with the words behind them, and prints the verdict.
///
/// `Usage`: exactly where the words leave their form. `FileFault`: only where the count of faults of the named files rose. `Journal`: at
/// the first line of the journal's text that isn't the text of a commit with the next number. `IndexFile`: at the line where the index
/// file leaves its form. `Legal` and `NotLegal`: the verdict's line was written whole. `WriteFault`: only where the output's count of
/// faults rose. `NoMemory`: lack of memory, where the words have their form. They are looked for in this order: words, files, text of the
/// journal, index file, verdict.
///
/// With all other statuses nothing is written. No file is loaded but those that the words name: a failure of any file is told by
/// `FileFault`, which one of theirs explains.
pub fn audit<F: Files, O: Sink>(
    alloc: Global,
    words: &[String],
    files: &mut F,
    output: &mut O,
) -> AuditStatus
    ensures audited { IsAudited (map string_bytes words.now) (F.content files.old) (F.faults files.old) (F.faults files.new)
        (O.held output.old) (O.held output.new) (O.faults output.old) (O.faults output.new) result }
    ensures unwritten { IfUnwritten result (output.new ≡ output.old) }
    ensures unfaulted { IfUnfaulted result (AreSame (F.faults files.old) (F.faults files.new)) }
{
    match verdict_of(alloc, words, files) {
        Ok(verdict) => print(alloc, verdict, output),
        Err(status) => status,
    }
}

/// The verdict; or why there is none.
fn verdict_of<F: Files>(
    alloc: Global,
    words: &[String],
    files: &mut F,
) -> Result<Verdict, AuditStatus>
    ensures decided { IfOk result (IsDecided (map string_bytes words.now) (F.content files.old)) }
    ensures undecided { IfErr result (IsUndecided (map string_bytes words.now) (F.content files.old) (F.faults files.old)
        (F.faults files.new)) }
    ensures unfaulted { UnlessFaulted result (F.faults files.old) (F.faults files.new) }
{
    match names_in(alloc, words) {
        Ok(names) => verdict_on(alloc, &names, files),
        Err(WordsRefused::Usage) => Err(AuditStatus::Usage),
        Err(WordsRefused::NoMemory) => Err(AuditStatus::NoMemory),
    }
}

/// The same of words that were read.
fn verdict_on<F: Files>(
    alloc: Global,
    names: &Names<'_>,
    files: &mut F,
) -> Result<Verdict, AuditStatus>
    requires least { 1 ≤ names.now.options.shards }
    requires most { names.now.options.shards ≤ most_shards }
    ensures decided { IfOk result (λ v. (words : List (List ℕ)) → asked_by words ≡ Some (names_asked names.now)
        → IsDecided words (F.content files.old) v) }
    ensures undecided { IfErr result (λ status. (words : List (List ℕ)) → asked_by words ≡ Some (names_asked names.now)
        → IsUndecided words (F.content files.old) (F.faults files.old) (F.faults files.new) status) }
    ensures unfaulted { UnlessFaulted result (F.faults files.old) (F.faults files.new) }
{
    let texts = load_texts(alloc, names, files)?;
    let journal = match journal_of(alloc, texts.journal.bytes()) {
        Ok(journal) => journal,
        Err(status) => return Err(status),
    };
    let defs = match definitions(alloc, files, &names.options.indexes) {
        Ok(defs) => defs,
        Err(status) => return Err(status),
    };
    match check(
        alloc,
        texts.input.bytes(),
        names.options.shards,
        names.options.window,
        &defs,
        &journal,
        texts.replies.bytes(),
    ) {
        Ok(verdict) => Ok(verdict),
        Err(_) => Err(AuditStatus::NoMemory),
    }
}
