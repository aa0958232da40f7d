//! The top call, whose clause `legal` is the main theorem.
//!
//! `specs/Runs` has the words of its clauses: begin there with `IsLegalRun`; which rounds a run ran stands in
//! `ds_serving`'s `specs/Runs`, and what the words and the index file set up in its `specs/Settings`.
ghost use Rattle.std.specs.Prelude.{◌≡◌, ◌≤◌, ◌⊎◌, ℕ, List, Option, [], map, Some, None, IfSome, IsSome};
ghost use Rattle.std.specs.String.{string_bytes};
ghost use Rattle.ds_base.specs.Limits.{greatest_window, most_appliers, most_input_bytes, most_shards};
ghost use Rattle.ds_words.specs.Form.{options_of};
ghost use Rattle.ds_serve.specs.Runs.{IsLegalRun, IsUntouched};
ghost use Rattle.ds_serving.specs.Runs.{HasBegun, HasTaken, IsBelow, IsSteady, read_faults, write_faults};
ghost use Rattle.ds_serving.specs.Settings.{FailedToLoad, IsFine, IsSetting, IsToldWrong, NamesWrongFile, file_faults, indexes_named};

use crate::outcome::{Run, nothing_run};
use crate::running::run_opened;
use ds_base::limits::MAX_CLIENT;
use ds_io::{Files, Gate, Sink, Source};
use ds_serving::{Setting, Start, set_up};
use ds_store::open;
use ds_words::Status;
use std::alloc::Global;
use std::marker::Brand;
use std::sync::Wait;
use std::thread::Threads;

/// Serves one run: reads the words and the index file that they name, and then the input round after round; answers the lines of each,
/// the clients at once and each client's lines in their order, and writes the replies before the input is read again. The gate is
/// called around each answer. As many appliers as the words say apply entries beside it, each in a thread of its own; one that finds
/// nothing to apply sleeps until a commit wakes it. Without appliers entries wait for a settle, a strong read or an `apply`.
///
/// The main theorem is `legal`: whatever the schedule, and whatever the source, the sink, the files and the gate do, the bytes that were
/// written in this call, followed by the unsent ones, are the replies of one legal run of the rounds that were run, over the journal that
/// is given; the run's index definitions are those of the file's text, and its number of shards and its window those of the words. There
/// is a journal with every status. The bytes that were read are those that the source tells that it had, or some where it tells none, and
/// so with the file's text; a sink that doesn't tell what it holds lets nothing be said of the bytes.
///
/// How a run ends, and when:
///
/// - `Done`: the input was read to its end, and every reply was taken.
/// - `Usage`: exactly where the words leave their form. With it, as with the next two, nothing is read or written, and the journal is
///   empty.
/// - `FileFault`: exactly where the file that the words name failed to load, which its count tells. No other file is loaded.
/// - `IndexFile`: the file's text leaves its form, first at this line. Where the files tell a text that does, the run ends so, unless the
///   file failed to load or there was no memory for it (`wrong_file`).
/// - `ReadFault`: exactly where a read failed; the source counts that one fault and no other. The round that was being read isn't
///   run, and those before it are.
/// - `WriteFault`: exactly where a write or a flush failed; the sink counts that one fault and no other. `unsent` is the rest of that
///   round's replies, none where the sink took them all and failed to send them on, and no further round is run.
/// - `InputLimit`: exactly where `MAX_INPUT_BYTES` of `ds_base` were taken and every round that ended with them was run; the
///   input's end isn't asked for, and the round that was being read isn't run.
/// - `NoMemory`: there was no memory to begin, to read a round, or for a reply to each of its lines that there was none. That round
///   isn't run, and those before it are.
///
/// Where the words have their form, the file is told to have its own, the input tells that it is below the limit and no count of faults
/// rose, the run ends `Done` or `NoMemory` (`complete`).
#[tactic(auto, using(ds_serving::proofs::EndLaws::complete))]
pub fn serve<Rt: Threads + Wait + Sync, F: Files, I: Source, O: Sink, G: Gate + Sync>(
    rt: &Rt,
    alloc: Global,
    words: &[String],
    files: &mut F,
    input: &mut I,
    output: &mut O,
    gate: &G,
) -> Run
    ensures legal { IfSome result.journal (λ journal.
        IsLegalRun (map string_bytes words.now) (F.content files.old) result.status (I.left input.old) (I.left input.new) journal
        (O.held output.old) (O.held output.new) result.unsent) }
    ensures journal { IsSome result.journal }
    ensures unsent { (result.status ≡ Status.WriteFault) ⊎ (result.unsent ≡ []) }

    ensures usage { result.status ≡ Status.Usage → options_of (map string_bytes words.now) ≡ None }
    ensures form { options_of (map string_bytes words.now) ≡ None → result.status ≡ Status.Usage }
    ensures file_fault { result.status ≡ Status.FileFault
        → FailedToLoad (map string_bytes words.now) (F.faults files.old) (F.faults files.new) }
    ensures file_faults { IfSome (indexes_named (map string_bytes words.now)) (λ name.
        F.faults files.new name ≡ file_faults result.status (F.faults files.old name)) }
    ensures no_file { indexes_named (map string_bytes words.now) ≡ None → files.new ≡ files.old }
    ensures index_file { (line : ℕ) → result.status ≡ Status.IndexFile line
        → NamesWrongFile (map string_bytes words.now) (F.content files.old) line }
    ensures wrong_file { (line : ℕ) → IsToldWrong (map string_bytes words.now) (F.content files.old) line
        → (result.status ≡ Status.IndexFile line) ⊎ ((result.status ≡ Status.FileFault) ⊎ (result.status ≡ Status.NoMemory)) }
    ensures untouched_input { IsUntouched result.status → input.new ≡ input.old }
    ensures untouched_output { IsUntouched result.status → output.new ≡ output.old }
    ensures untouched_journal { IsUntouched result.status → result.journal ≡ Some [] }

    ensures read_fault { I.faults input.new ≡ read_faults result.status (I.faults input.old) }
    ensures write_fault { O.faults output.new ≡ write_faults result.status (O.faults output.old) }
    ensures input_limit { result.status ≡ Status.InputLimit → HasTaken most_input_bytes (I.left input.old) (I.left input.new) }
    ensures complete { IsSome (options_of (map string_bytes words.now))
        → IsFine (indexes_named (map string_bytes words.now)) (F.content files.old) (F.faults files.old) (F.faults files.new)
        → IsBelow most_input_bytes (I.left input.old) → IsSteady (I.faults input.old) (I.faults input.new)
        → IsSteady (O.faults output.old) (O.faults output.new)
        → (result.status ≡ Status.Done) ⊎ (result.status ≡ Status.NoMemory) }
{
    match set_up(alloc, words, files) {
        Ok(start) => serve_input(rt, alloc, start, input, output, gate),
        Err(status) => nothing_run(alloc, status),
    }
}

/// Serves an input.
fn serve_input<Rt: Threads + Wait + Sync, I: Source, O: Sink, G: Gate + Sync>(
    rt: &Rt,
    alloc: Global,
    start: Start,
    input: &mut I,
    output: &mut O,
    gate: &G,
) -> Run
    requires shards { (1 ≤ start.setting.shards) × (start.setting.shards ≤ most_shards) }
    requires window { (1 ≤ start.setting.window) × (start.setting.window ≤ greatest_window) }
    requires appliers { start.appliers ≤ most_appliers }
    ensures legal { (words : List (List ℕ)) (content : List ℕ → Option (List ℕ)) → IsSetting words content start.setting
        → IfSome result.journal (λ journal.
        IsLegalRun words content result.status (I.left input.old) (I.left input.new) journal (O.held output.old) (O.held output.new)
        result.unsent) }
    ensures journal { IsSome result.journal }
    ensures unsent { (result.status ≡ Status.WriteFault) ⊎ (result.unsent ≡ []) }
    ensures began { HasBegun result.status }
    ensures read_fault { I.faults input.new ≡ read_faults result.status (I.faults input.old) }
    ensures write_fault { O.faults output.new ≡ write_faults result.status (O.faults output.old) }
{
    let Start { setting, appliers } = start;
    let Setting {
        shards,
        window,
        defs,
    } = setting;
    let passes = MAX_CLIENT + 1 + appliers;
    match open(rt, rt, alloc, &defs, shards, passes, window) {
        Ok(opened) => run_opened::<Brand, Rt, &Rt, I, O, G>(
            rt, alloc, opened, &defs, input, output, gate,
        ),
        Err(_) => nothing_run(alloc, Status::NoMemory),
    }
}
