//! What the words and both index files set up.
ghost use Rattle.std.specs.Prelude.{◌≡◌, ◌≤◌, ℕ, List, None, map, IfOk, IfErr, IfSome, MatchResult};
ghost use Rattle.std.specs.String.{string_bytes};
ghost use Rattle.ds_base.specs.Limits.{greatest_window, most_appliers, most_shards};
ghost use Rattle.ds_serve_cut.specs.CutSettings.{AreFileFaults, AreSetUp, IsUnsetCut, of_second, options_of_cut};
ghost use Rattle.ds_serve_cut.specs.CutWords.{cut_form};

use crate::words::cut_words;
use ds_cutting::CutStatus;
use ds_indexdef::Defs;
use ds_io::Files;
use ds_serving::{Start, read_indexes, set_up};
use ds_words::Status;
use std::alloc::Global;

/// What a run is started with whose index definitions change.
#[derive(Drop)]
pub(crate) struct CutStart {
    /// What the server's words and their index file set up.
    pub(crate) start: Start,
    /// The composite indexes of the second file.
    pub(crate) second: Defs,
    /// Behind how many rounds they take the place of the first ones, 1 to 9,999.
    pub(crate) after: u32,
}

/// Reads the words, and loads and reads the first index file, where they name one, and then the second. A status says why the run can't
/// begin.
pub(crate) fn set_up_cut<F: Files>(
    alloc: Global,
    words: &[String],
    files: &mut F,
) -> Result<CutStart, CutStatus>
    ensures ok { IfOk result (λ s. AreSetUp (map string_bytes words.now) (F.content files.old) s.start.setting s.second s.after) }
    ensures shards { IfOk result (λ s. (1 ≤ s.start.setting.shards) × (s.start.setting.shards ≤ most_shards)) }
    ensures window { IfOk result (λ s. (1 ≤ s.start.setting.window) × (s.start.setting.window ≤ greatest_window)) }
    ensures few { IfOk result (λ s. s.start.appliers ≤ most_appliers) }
    ensures refused { IfErr result (λ status.
        IsUnsetCut (cut_form (map string_bytes words.now)) (F.content files.old) (F.faults files.old) (F.faults files.new) status) }
    ensures unnamed { options_of_cut (map string_bytes words.now) ≡ None → files.new ≡ files.old }
    ensures faults { MatchResult result
        (λ _. (name : List ℕ) → F.faults files.new name ≡ F.faults files.old name)
        (λ status. IfSome (cut_form (map string_bytes words.now)) (λ w. AreFileFaults w (F.faults files.old) (F.faults files.new) status)) }
{
    let Some(cut) = cut_words(words) else {
        return Err(CutStatus::Served(Status::Usage));
    };
    let start = match set_up(alloc, cut.rest, files) {
        Ok(start) => start,
        Err(status) => return Err(CutStatus::Served(status)),
    };
    match read_indexes(alloc, files, cut.file) {
        Ok(second) => Ok(CutStart {
            start,
            second,
            after: cut.after,
        }),
        Err(status) => Err(of_second(status)),
    }
}

/// Why the second file has no definitions.
fn of_second(status: Status) -> CutStatus
    ensures { result ≡ of_second status }
{
    match status {
        Status::IndexFile { line } => CutStatus::NextFile { line },
        other => CutStatus::Served(other),
    }
}
