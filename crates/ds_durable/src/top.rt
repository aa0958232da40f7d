//! The top call, whose clauses `legal` and `every_moment` are the theorem of a kept journal.
//!
//! `specs/KeptRuns` and `specs/Moments` have the words of its clauses: begin there with `IsKeptRun` and `IsLeft`. What the words and the
//! index file set up stands in `specs/KeptSettings`, over those of `ds_serving`.
ghost use Rattle.std.specs.Prelude.{◌≡◌, ◌≤◌, ◌⊎◌, ℕ, [], map, Some, None, IfSome, IsSome, IsTrue, length};
ghost use Rattle.std.specs.String.{string_bytes};
ghost use Rattle.ds_base.specs.Limits.{greatest_window, most_appliers, most_input_bytes, most_shards};
ghost use Rattle.ds_disk.specs.Crashes.{LeavesOnly};
ghost use Rattle.ds_durable.specs.Behind.{IsRunBehind, IsRunOver};
ghost use Rattle.ds_durable.specs.KeptRuns.{HasTooManyRows, IsKeptRun, IsKeptWrong, IsUnbegun, IsUnfit, IsUnopened, MayBeUnbegun};
ghost use Rattle.ds_kept_rounds.specs.KeptEnds.{MayLeaveReplies, kept_read_faults, kept_write_faults};
ghost use Rattle.ds_durable.specs.KeptRuns.{MayTell, kept_file_faults};
ghost use Rattle.ds_durable.specs.Statuses.{status_of, status_unfit};
ghost use Rattle.ds_durable.specs.KeptSettings.{OfServer, kept_indexes_named, kept_options};
ghost use Rattle.ds_keeping.specs.Moments.{IsLeft};
ghost use Rattle.ds_io.specs.Faults.{Rose};
ghost use Rattle.ds_keep.specs.Keepers.{AllStandFor, IsHistory, IsSettled};
ghost use Rattle.ds_kept_file.specs.Files.{Kept, IsDamaged};
ghost use Rattle.ds_serving.specs.Runs.{HasTaken, IsBelow, IsSteady};
ghost use Rattle.ds_serving.specs.Settings.{FailedToLoad, IsFine, IsToldWrong, NamesWrongFile};

use crate::outcome::{KeptRun, not_served};
use crate::running::{Origin, run_opened};
use crate::words::kept_words;
use ds_base::limits::MAX_CLIENT;
use ds_disk::Disk;
use ds_io::{Files, Gate, Sink, Source};
use ds_keep::{KeepRefused, Keeper, Opened};
use ds_kept_rounds::KeptStatus;
use ds_restoring::{Unfit, check_rows};
use ds_serving::{Setting, Start, set_up};
use ds_store::open;
use ds_words::Status;
use std::alloc::Global;
use std::marker::Brand;
use std::sync::Wait;
use std::thread::Threads;

/// Serves one run over a journal that a disk keeps. It takes the words `--kept FILE`, and behind them those of the server; who calls it
/// opens FILE. It reads the index file that the words name, opens the disk, and goes on from what is kept: the store begins with the kept
/// journal and id counter, and each client has seen them. Each round of the input is read and run as the server does; then the disk gets
/// what the round committed and drew, if it did, as one batch, with two syncs; and only then the round's replies are written.
///
/// The theorem, of a disk that is honest and that nobody else writes, and of which all images stood for one journal and counter at first:
///
/// - At every moment of the call each image that a crash could leave stands for a journal that begins with the kept one and is a front of
///   the journal that is given, and for a counter not below the kept one (`every_moment`).
/// - At the end each image holds every commit whose reply is among the bytes written, and a counter above each id that such a reply drew
///   (`legal`, `RanBehind`); inside the call `send`'s condition says the same.
/// - The bytes written, with the unsent ones, are the replies of one legal run that goes on from what was kept, over the journal that is
///   given (`legal`): this holds whatever the disk is.
/// - The file isn't told to be damaged (`undamaged`).
///
/// How a run ends, and when; the causes are looked for in this order:
///
/// - `Served(Usage)`, `Served(FileFault)`, `Served(IndexFile)`: as the server does; the disk isn't touched.
/// - `DiskFault`: only where the disk's count of faults rose in this call. After a round was run whose commits could not be kept, its
///   replies aren't written, and are `unsent`.
/// - `Damaged`: what the disk keeps is damaged, at this place; it is as it was.
/// - `TooManyRows`: the first kept put with more than 20,000 rows under this index file.
/// - `Served`, with the other statuses: as the server does. `NoMemory` may come after a round too, as `DiskFault` does.
///
/// `start` tells how many commits were kept at the start, 0 where the disk wasn't opened. There is no journal where it wasn't, nor with
/// `TooManyRows`, and else only when out of memory; then nothing was read or written.
pub fn serve_kept<Rt: Threads + Wait + Sync, D: Disk, F: Files, I: Source, O: Sink, G: Gate + Sync>(
    rt: &Rt,
    alloc: Global,
    words: &[String],
    disk: &mut D,
    files: &mut F,
    input: &mut I,
    output: &mut O,
    gate: &G,
) -> KeptRun
    ensures legal { IfSome result.journal (λ journal. IsKeptRun (map string_bytes words.now) (F.content files.old) result.status
        result.start (I.left input.old) (I.left input.new) journal (O.held output.old) (O.held output.new) result.unsent
        (D.is_honest disk.old) (D.contents disk.old) (D.images disk.old) (D.images disk.new)) }
    ensures every_moment { (kept : Kept) → IsTrue (D.is_honest disk.old) → AllStandFor kept (D.images disk.old)
        → LeavesOnly D.moment D.left_since disk.old disk.new (IsLeft kept result.journal) }
    ensures undamaged { (kept : Kept) (place : ℕ) → IsTrue (D.is_honest disk.old) → AllStandFor kept (D.images disk.old)
        → result.status ≡ KeptStatus.Damaged place → ⊥ }

    ensures journal { IsSome result.journal ⊎ MayBeUnbegun result.status }
    ensures unread { result.journal ≡ None → input.new ≡ input.old }
    ensures unwritten { result.journal ≡ None → output.new ≡ output.old }
    ensures unsent { MayLeaveReplies result.status ⊎ (result.unsent ≡ []) }

    ensures usage { result.status ≡ KeptStatus.Served Status.Usage → kept_options (map string_bytes words.now) ≡ None }
    ensures form { kept_options (map string_bytes words.now) ≡ None → result.status ≡ KeptStatus.Served Status.Usage }
    ensures file_fault { result.status ≡ KeptStatus.Served Status.FileFault
        → OfServer (λ rest. FailedToLoad rest (F.faults files.old) (F.faults files.new)) (map string_bytes words.now) }
    ensures file_faults { IfSome (kept_indexes_named (map string_bytes words.now)) (λ name.
        F.faults files.new name ≡ kept_file_faults result.status (F.faults files.old name)) }
    ensures no_file { kept_indexes_named (map string_bytes words.now) ≡ None → files.new ≡ files.old }
    ensures index_file { (line : ℕ) → result.status ≡ KeptStatus.Served (Status.IndexFile line)
        → OfServer (λ rest. NamesWrongFile rest (F.content files.old) line) (map string_bytes words.now) }
    ensures wrong_file { (line : ℕ) → OfServer (λ rest. IsToldWrong rest (F.content files.old) line) (map string_bytes words.now)
        → (result.status ≡ KeptStatus.Served (Status.IndexFile line))
        ⊎ ((result.status ≡ KeptStatus.Served Status.FileFault) ⊎ (result.status ≡ KeptStatus.Served Status.NoMemory)) }
    ensures unopened { IsUnopened result.status → disk.new ≡ disk.old }
    ensures unbegun { IsUnbegun result.status → (result.journal ≡ None) × (result.start ≡ 0) }
    ensures unfit { IsUnfit result.status → result.journal ≡ None }

    ensures disk_fault { result.status ≡ KeptStatus.DiskFault → Rose (D.faults disk.old) (D.faults disk.new) }
    ensures disk_faults { D.faults disk.old ≤ D.faults disk.new }
    ensures unkept { result.status ≡ KeptStatus.DiskFault → result.journal ≡ None → result.start ≡ 0 }
    ensures honest { D.is_honest disk.new ≡ D.is_honest disk.old }
    ensures tells_damage { (kept : Kept) (place : ℕ) → IsTrue (D.is_honest disk.old) → IsDamaged (D.contents disk.old) place kept
        → MayTell place result.status }
    ensures damaged { (place : ℕ) → result.status ≡ KeptStatus.Damaged place → IsTrue (D.is_honest disk.old)
        → (kept : Kept) × IsDamaged (D.contents disk.old) place kept }
    ensures as_it_was { (place : ℕ) → result.status ≡ KeptStatus.Damaged place → IsTrue (D.is_honest disk.old)
        → (D.contents disk.new ≡ D.contents disk.old) × LeavesOnly D.moment D.left_since disk.old disk.new (D.images disk.old) }
    ensures too_many_rows { (commit count : ℕ) → result.status ≡ KeptStatus.TooManyRows commit count
        → HasTooManyRows (map string_bytes words.now) (F.content files.old) result.start commit count (D.is_honest disk.old)
        (D.contents disk.old) (D.images disk.old) }

    ensures read_fault { I.faults input.new ≡ kept_read_faults result.status (I.faults input.old) }
    ensures write_fault { O.faults output.new ≡ kept_write_faults result.status (O.faults output.old) }
    ensures input_limit { result.status ≡ KeptStatus.Served Status.InputLimit
        → HasTaken most_input_bytes (I.left input.old) (I.left input.new) }
    ensures complete { IsSome (kept_options (map string_bytes words.now))
        → IsFine (kept_indexes_named (map string_bytes words.now)) (F.content files.old) (F.faults files.old) (F.faults files.new)
        → IsBelow most_input_bytes (I.left input.old) → IsSteady (I.faults input.old) (I.faults input.new)
        → IsSteady (O.faults output.old) (O.faults output.new) → IsSteady (D.faults disk.old) (D.faults disk.new)
        → (result.status ≡ KeptStatus.Served Status.Done)
        ⊎ ((result.status ≡ KeptStatus.Served Status.NoMemory) ⊎ IsKeptWrong result.status) }
{
    let Some(kept) = kept_words(words) else {
        return not_served(alloc, KeptStatus::Served(Status::Usage), 0);
    };
    match set_up(alloc, kept.rest, files) {
        Ok(start) => serve_disk(rt, alloc, start, disk, input, output, gate),
        Err(status) => not_served(alloc, KeptStatus::Served(status), 0),
    }
}

/// Serves an input over what a disk keeps.
fn serve_disk<Rt: Threads + Wait + Sync, D: Disk, I: Source, O: Sink, G: Gate + Sync>(
    rt: &Rt,
    alloc: Global,
    start: Start,
    disk: &mut D,
    input: &mut I,
    output: &mut O,
    gate: &G,
) -> KeptRun
    requires shards { (1 ≤ start.setting.shards) × (start.setting.shards ≤ most_shards) }
    requires window { (1 ≤ start.setting.window) × (start.setting.window ≤ greatest_window) }
    requires appliers { start.appliers ≤ most_appliers }
    ensures run { IsRunOver start.setting (I.left input.old) (I.left input.new) (O.held output.old) (O.held output.new)
        (I.faults input.old) (I.faults input.new) (O.faults output.old) (O.faults output.new) (D.is_honest disk.old)
        (D.contents disk.old) (D.images disk.old) (D.images disk.new) (D.faults disk.old) (D.faults disk.new) result }
    ensures every_moment { (kept : Kept) → IsTrue (D.is_honest disk.old) → AllStandFor kept (D.images disk.old)
        → LeavesOnly D.moment D.left_since disk.old disk.new (IsLeft kept result.journal) }
    ensures as_it_was { (place : ℕ) → result.status ≡ KeptStatus.Damaged place → IsTrue (D.is_honest disk.old)
        → (D.contents disk.new ≡ D.contents disk.old) × LeavesOnly D.moment D.left_since disk.old disk.new (D.images disk.old) }
    ensures honest { D.is_honest disk.new ≡ D.is_honest disk.old }
    ensures unread { result.journal ≡ None → input.new ≡ input.old }
    ensures unwritten { result.journal ≡ None → output.new ≡ output.old }
{
    match Keeper::open(alloc, disk) {
        Ok(opened) => serve_opened(
            rt,
            alloc,
            Restart { start, opened },
            disk,
            input,
            output,
            gate,
        ),
        Err(refused) => not_served(alloc, status_of(refused), 0),
    }
}

fn status_of(refused: KeepRefused) -> KeptStatus
    ensures { result ≡ status_of refused }
{
    match refused {
        KeepRefused::Damaged { at } => KeptStatus::Damaged { at },
        KeepRefused::DiskFault => KeptStatus::DiskFault,
        KeepRefused::NoMemory => KeptStatus::Served(Status::NoMemory),
    }
}

/// What a run is started with, and what its disk keeps.
#[derive(Drop)]
struct Restart {
    start: Start,
    opened: Opened,
}

/// Serves an input over what was kept, if that fits the index file.
fn serve_opened<Rt: Threads + Wait + Sync, D: Disk, I: Source, O: Sink, G: Gate + Sync>(
    rt: &Rt,
    alloc: Global,
    restart: Restart,
    disk: &mut D,
    input: &mut I,
    output: &mut O,
    gate: &G,
) -> KeptRun
    requires shards { (1 ≤ restart.start.setting.shards) × (restart.start.setting.shards ≤ most_shards) }
    requires window { (1 ≤ restart.start.setting.window) × (restart.start.setting.window ≤ greatest_window) }
    requires appliers { restart.start.appliers ≤ most_appliers }
    requires history { IsHistory (record { journal = restart.opened.journal; next = restart.opened.next }) }
    requires numbers { (restart.opened.keeper.commits ≡ length restart.opened.journal)
        × (restart.opened.keeper.next ≡ restart.opened.next) }
    requires settled { IsTrue (D.is_honest disk.old) → IsSettled D.is_honest D.contents D.images restart.opened.keeper
        (record { journal = restart.opened.journal; next = restart.opened.next }) disk.old }
    ensures run { IsRunBehind restart.start.setting (record { journal = restart.opened.journal; next = restart.opened.next })
        (I.left input.old) (I.left input.new) (O.held output.old) (O.held output.new) (I.faults input.old) (I.faults input.new)
        (O.faults output.old) (O.faults output.new) (D.is_honest disk.old) (D.images disk.new) (D.faults disk.old)
        (D.faults disk.new) result }
    ensures any_moment { IsTrue (D.is_honest disk.old) → LeavesOnly D.moment D.left_since disk.old disk.new
        (IsLeft (record { journal = restart.opened.journal; next = restart.opened.next }) result.journal) }
    ensures honest { D.is_honest disk.new ≡ D.is_honest disk.old }
    ensures unread { result.journal ≡ None → input.new ≡ input.old }
    ensures unwritten { result.journal ≡ None → output.new ≡ output.old }
{
    let Restart {
        start,
        opened: kept,
    } = restart;
    let Start { setting, appliers } = start;
    let Setting {
        shards,
        window,
        defs,
    } = setting;
    let many = kept.keeper.kept();
    match check_rows(alloc, &defs, kept.journal.as_slice()) {
        Ok(()) => {}
        Err(unfit) => return not_served(alloc, status_unfit(unfit), many),
    }
    let passes = MAX_CLIENT + 2 + appliers;
    match open(rt, rt, alloc, &defs, shards, passes, window) {
        Ok(opened) => run_opened::<Brand, Rt, &Rt, D, I, O, G>(
            rt,
            alloc,
            Origin { opened, defs, kept },
            disk,
            input,
            output,
            gate,
        ),
        Err(_) => not_served(alloc, KeptStatus::Served(Status::NoMemory), many),
    }
}

fn status_unfit(unfit: Unfit) -> KeptStatus
    ensures { result ≡ status_unfit unfit }
{
    match unfit {
        Unfit::TooManyRows { commit, count } => KeptStatus::TooManyRows { commit, count },
        Unfit::NoMemory => KeptStatus::Served(Status::NoMemory),
    }
}
