//! The top call, whose clause `legal` is the main theorem of a run whose index definitions change.
//!
//! `CutRuns` in the specs of `ds_cutting` has the words of its clauses: begin there with `IsLegalCutRun`.
ghost use Rattle.std.specs.Prelude.{◌≡◌, ◌≤◌, ◌⊎◌, ℕ, [], map, Some, None, IfSome, IsSome, IsSomeAnd};
ghost use Rattle.std.specs.String.{string_bytes};
ghost use Rattle.ds_base.specs.Limits.{greatest_window, most_appliers, most_input_bytes, most_shards};
ghost use Rattle.ds_cutting.specs.CutRuns.{IsFinished, IsLegalCutRun, IsUntouchedCut};
ghost use Rattle.ds_serve_cut.specs.CutSettings.{AreFileFaults, AreFine, EndsBeforeNext, IsToldWrongNext, IsUnsetCut, options_of_cut};
ghost use Rattle.ds_cutting.specs.CutSteps.{EndsBegun, IsLegalOf, cut_read_faults, cut_write_faults};
ghost use Rattle.ds_serve_cut.specs.CutWords.{cut_form};
ghost use Rattle.ds_serving.specs.Runs.{HasTaken, IsBelow, IsSteady};
ghost use Rattle.ds_serving.specs.Settings.{IsToldWrong};

use crate::running::run_opened;
use crate::setting::{CutStart, set_up_cut};
use ds_base::limits::MAX_CLIENT;
use ds_cutting::{CutRun, CutStatus, Host, Plan, nothing_run};
use ds_io::{Files, Gate, Sink, Source};
use ds_serving::{Setting, Start};
use ds_store::open;
use ds_words::Status;
use std::alloc::Global;
use std::marker::Brand;
use std::sync::Wait;
use std::thread::Threads;

/// Serves one run whose index definitions change behind round N. The words are `--next FILE --after N`, and then those of a server. It
/// serves rounds 1 to N as `ds_serve::serve` does, by the definitions of the server's index file, and beside them feeds their commits to
/// a second store, whose definitions are those of FILE. Then clients go over: the second store is fed what is left, each session goes on
/// with a pass of it that has seen no less, open transactions go on, the first store is closed, and later rounds are served by the second
/// one. With fewer rounds there is no cut.
///
/// The main theorem is `legal`: whatever the schedule, and whatever the source, the sink, the files and the gate do, the bytes that were
/// written in this call, followed by the unsent ones, are the replies of one legal run of the rounds that were run, over one journal,
/// which is given: those of the first N rounds under the first file's definitions, and those of later rounds under the second's. It also
/// says which rounds were run by how the run ended; that `cut` tells how many commits the first N rounds made, where there was a cut, and
/// none where the replies of round N weren't all taken; and when there are too many rows. There is a journal with every status.
///
/// How a run ends, and when:
///
/// - as `serve` does (`Served`), with its causes; `Usage` exactly where the words leave their form, those of the server included, and
///   `FileFault` exactly where one of both files failed to load, which its count tells;
/// - `NextFile`: the second file's text leaves its form, first at this line; it is looked for behind all that is looked for of the first;
/// - `TooManyRows`: at the cut, exactly where a put of the first N rounds has more than 20,000 index rows under the second definitions;
///   it tells the first such commit, with the rows of its first such put. No later round is run.
///
/// Where the words have their form, both files are told to have theirs, the input tells that it is below the limit and no count of faults
/// rose, the run ends `Done`, `NoMemory` or `TooManyRows` (`complete`).
pub fn serve_cut<Rt: Threads + Wait + Sync, F: Files, I: Source, O: Sink, G: Gate + Sync>(
    rt: &Rt,
    alloc: Global,
    words: &[String],
    files: &mut F,
    input: &mut I,
    output: &mut O,
    gate: &G,
) -> CutRun
    ensures legal { IfSome (cut_form (map string_bytes words.now)) (λ w. IfSome result.journal (λ journal.
        IsLegalCutRun w.words w.file w.after (F.content files.old) result.status result.cut (I.left input.old) (I.left input.new) journal
        (O.held output.old) (O.held output.new) result.unsent)) }
    ensures journal { IsSome result.journal }
    ensures unsent { (result.status ≡ CutStatus.Served Status.WriteFault) ⊎ (result.unsent ≡ []) }

    ensures usage { result.status ≡ CutStatus.Served Status.Usage → options_of_cut (map string_bytes words.now) ≡ None }
    ensures form { options_of_cut (map string_bytes words.now) ≡ None → result.status ≡ CutStatus.Served Status.Usage }
    ensures unset { IsUntouchedCut result.status
        → IsUnsetCut (cut_form (map string_bytes words.now)) (F.content files.old) (F.faults files.old) (F.faults files.new) result.status }
    ensures file_faults { IfSome (cut_form (map string_bytes words.now)) (λ w.
        AreFileFaults w (F.faults files.old) (F.faults files.new) result.status) }
    ensures no_file { options_of_cut (map string_bytes words.now) ≡ None → files.new ≡ files.old }
    ensures wrong_file { (line : ℕ)
        → IsSomeAnd (cut_form (map string_bytes words.now)) (λ w. IsToldWrong w.words (F.content files.old) line)
        → (result.status ≡ CutStatus.Served (Status.IndexFile line))
        ⊎ ((result.status ≡ CutStatus.Served Status.FileFault) ⊎ (result.status ≡ CutStatus.Served Status.NoMemory)) }
    ensures wrong_next { (line : ℕ)
        → IsSomeAnd (cut_form (map string_bytes words.now)) (λ w. IsToldWrongNext w (F.content files.old) line)
        → (result.status ≡ CutStatus.NextFile line) ⊎ EndsBeforeNext result.status }
    ensures untouched_input { IsUntouchedCut result.status → input.new ≡ input.old }
    ensures untouched_output { IsUntouchedCut result.status → output.new ≡ output.old }
    ensures untouched_journal { IsUntouchedCut result.status → (result.journal ≡ Some []) × (result.cut ≡ None) }

    ensures read_fault { I.faults input.new ≡ cut_read_faults result.status (I.faults input.old) }
    ensures write_fault { O.faults output.new ≡ cut_write_faults result.status (O.faults output.old) }
    ensures input_limit { result.status ≡ CutStatus.Served Status.InputLimit
        → HasTaken most_input_bytes (I.left input.old) (I.left input.new) }
    ensures complete { IsSome (options_of_cut (map string_bytes words.now))
        → IfSome (cut_form (map string_bytes words.now)) (λ w. AreFine w (F.content files.old) (F.faults files.old) (F.faults files.new))
        → IsBelow most_input_bytes (I.left input.old) → IsSteady (I.faults input.old) (I.faults input.new)
        → IsSteady (O.faults output.old) (O.faults output.new) → IsFinished result.status }
{
    match set_up_cut(alloc, words, files) {
        Ok(start) => serve_input(rt, alloc, start, input, output, gate),
        Err(status) => nothing_run(alloc, status),
    }
}

/// Serves an input.
fn serve_input<Rt: Threads + Wait + Sync, I: Source, O: Sink, G: Gate + Sync>(
    rt: &Rt,
    alloc: Global,
    start: CutStart,
    input: &mut I,
    output: &mut O,
    gate: &G,
) -> CutRun
    requires shards { (1 ≤ start.start.setting.shards) × (start.start.setting.shards ≤ most_shards) }
    requires window { (1 ≤ start.start.setting.window) × (start.start.setting.window ≤ greatest_window) }
    requires appliers { start.start.appliers ≤ most_appliers }
    ensures legal { IsLegalOf start.start.setting start.second start.after (I.left input.old) (I.left input.new) (O.held output.old)
        (O.held output.new) result }
    ensures ends { EndsBegun (I.faults input.old) (I.faults input.new) (O.faults output.old) (O.faults output.new) result }
{
    let CutStart {
        start,
        second,
        after,
    } = start;
    let Start { setting, appliers } = start;
    let Setting {
        shards,
        window,
        defs,
    } = setting;
    let plan = Plan {
        first: &defs,
        second: &second,
        after,
        shards,
        window,
        passes: MAX_CLIENT + 2 + appliers,
    };
    let host = Host {
        rt,
        handle: rt,
        alloc,
        gate,
    };
    match open(rt, rt, alloc, &defs, shards, plan.passes, window) {
        Ok(opened) => run_opened::<Brand, Rt, &Rt, I, O, G>(&host, &plan, opened, input, output),
        Err(_) => nothing_run(alloc, CutStatus::Served(Status::NoMemory)),
    }
}
