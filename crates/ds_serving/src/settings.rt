//! What the words of the command line and the index file set up.
ghost use Rattle.std.specs.Prelude.{◌≡◌, ◌≤◌, ℕ, List, Some, None, map, IfOk, IfErr, IfSome, MatchResult};
ghost use Rattle.std.specs.Option.{option_map};
ghost use Rattle.std.specs.String.{string_bytes};
ghost use Rattle.ds_base.specs.Limits.{greatest_window, most_appliers, most_shards};
ghost use Rattle.ds_words.specs.Form.{options_of};
ghost use Rattle.ds_serving.specs.Settings.{AreGiven, AreRead, IsSetting, IsUnread, IsUnset, file_faults, indexes_named};

use ds_base::TextString;
use ds_indexdef::{Defs, YamlRefused, read_yaml};
use ds_io::{Files, LoadFault};
use ds_words::{Status, WordsRefused, read_words};
use std::alloc::Global;

/// What a server is set up with.
#[derive(Drop)]
pub struct Setting {
    /// How many shards there are, 1 to 16.
    pub shards: u32,
    /// How many entries' versions a shard keeps.
    pub window: u64,
    /// The composite indexes.
    pub defs: Defs,
}

/// What a run is started with.
#[derive(Drop)]
pub struct Start {
    pub setting: Setting,
    /// How many background appliers there are, at most 8.
    pub appliers: u32,
}

/// Reads the words, and loads and reads the index file that they name, if they name one. A status says why the run can't begin. No file's
/// content changes, and without `FileFault` no count of faults.
pub fn set_up<F: Files>(alloc: Global, words: &[String], files: &mut F) -> Result<Start, Status>
    ensures ok { IfOk result (λ s. IsSetting (map string_bytes words.now) (F.content files.old) s.setting) }
    ensures shards { IfOk result (λ s. (1 ≤ s.setting.shards) × (s.setting.shards ≤ most_shards)) }
    ensures window { IfOk result (λ s. (1 ≤ s.setting.window) × (s.setting.window ≤ greatest_window)) }
    ensures appliers { IfOk result (λ s. option_map (λ options. options.appliers) (options_of (map string_bytes words.now))
        ≡ Some s.appliers) }
    ensures few { IfOk result (λ s. s.appliers ≤ most_appliers) }
    ensures refused { IfErr result (λ status.
        IsUnset (map string_bytes words.now) (F.content files.old) (F.faults files.old) (F.faults files.new) status) }
    ensures unnamed { indexes_named (map string_bytes words.now) ≡ None → files.new ≡ files.old }
    ensures faults { IfSome (indexes_named (map string_bytes words.now)) (λ name. MatchResult result
        (λ _. F.faults files.new name ≡ F.faults files.old name)
        (λ status. F.faults files.new name ≡ file_faults status (F.faults files.old name))) }
    ensures contents { (other : List ℕ) → F.content files.new other ≡ F.content files.old other }
    ensures counts { MatchResult result (λ _. (other : List ℕ) → F.faults files.new other ≡ F.faults files.old other)
        (λ status. (status ≡ Status.FileFault → ⊥) → (other : List ℕ) → F.faults files.new other ≡ F.faults files.old other) }
{
    let options = match read_words(alloc, words) {
        Ok(options) => options,
        Err(WordsRefused::Usage) => return Err(Status::Usage),
        Err(WordsRefused::NoMemory) => return Err(Status::NoMemory),
    };
    let defs = definitions(alloc, files, &options.indexes)?;
    Ok(Start {
        setting: Setting {
            shards: options.shards,
            window: options.window,
            defs,
        },
        appliers: options.appliers,
    })
}

/// The definitions of the index file of this name, and none where there is no name.
fn definitions<F: Files>(
    alloc: Global,
    files: &mut F,
    indexes: &Option<TextString>,
) -> Result<Defs, Status>
    ensures ok { IfOk result (λ defs. AreGiven (F.content files.old) indexes.now defs) }
    ensures refused { IfErr result (λ status. IfSome indexes.now (λ name.
        IsUnread name (F.content files.old) (F.faults files.old) (F.faults files.new) status)) }
    ensures unnamed { indexes.now ≡ None → files.new ≡ files.old }
    ensures given { indexes.now ≡ None → IfErr result (λ _. ⊥) }
    ensures faults { IfSome indexes.now (λ name. MatchResult result
        (λ _. F.faults files.new name ≡ F.faults files.old name)
        (λ status. F.faults files.new name ≡ file_faults status (F.faults files.old name))) }
    ensures contents { (other : List ℕ) → F.content files.new other ≡ F.content files.old other }
    ensures counts { MatchResult result (λ _. (other : List ℕ) → F.faults files.new other ≡ F.faults files.old other)
        (λ status. (status ≡ Status.FileFault → ⊥) → (other : List ℕ) → F.faults files.new other ≡ F.faults files.old other) }
{
    match indexes {
        Some(name) => read_indexes(alloc, files, name.text()),
        None => Ok(Defs::new(alloc)),
    }
}

/// Loads and reads the index file of this name. A status says why there are no definitions: the file's text leaves its form, it failed to
/// load, or there was no memory. No file's content changes, and without `FileFault` no count of faults.
pub fn read_indexes<F: Files>(alloc: Global, files: &mut F, name: &str) -> Result<Defs, Status>
    ensures ok { IfOk result (λ defs. AreRead (F.content files.old name.now) defs) }
    ensures refused { IfErr result (λ status. IsUnread name.now (F.content files.old) (F.faults files.old) (F.faults files.new) status) }
    ensures faults { MatchResult result
        (λ _. F.faults files.new name.now ≡ F.faults files.old name.now)
        (λ status. F.faults files.new name.now ≡ file_faults status (F.faults files.old name.now)) }
    ensures contents { (other : List ℕ) → F.content files.new other ≡ F.content files.old other }
    ensures counts { MatchResult result (λ _. (other : List ℕ) → F.faults files.new other ≡ F.faults files.old other)
        (λ status. (status ≡ Status.FileFault → ⊥) → (other : List ℕ) → F.faults files.new other ≡ F.faults files.old other) }
{
    let text = match files.load(alloc, name) {
        Ok(text) => text,
        Err(LoadFault::Failed) => return Err(Status::FileFault),
        Err(LoadFault::NoMemory) => return Err(Status::NoMemory),
    };
    match read_yaml(alloc, text.bytes()) {
        Ok(defs) => Ok(defs),
        Err(YamlRefused::Line(line)) => Err(Status::IndexFile { line }),
        Err(YamlRefused::NoMemory) => Err(Status::NoMemory),
    }
}
