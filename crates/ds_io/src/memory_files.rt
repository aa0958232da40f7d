//! Files in memory.
ghost use Rattle.std.specs.Prelude.{◌≡◌, ◌≢◌, ◌≤◌, ◌||◌, not, length, IfOk, AllPairs, Some, bytes_eq, option_copied, position};
ghost use Rattle.ds_base.specs.Limits.{most_file_bytes};
ghost use Rattle.ds_io.specs.Faults.{is_failed};
ghost use Rattle.ds_io.specs.Memory.{after_call, fresh, is_due, content_at, content_of, is_loadable};

use crate::schedule::Schedule;
use crate::traits::{Files, LoadFault};
use ds_base::limits::MAX_FILE_BYTES;
use ds_base::{ByteString, ByteStrings, Names, Numbers, TextString};
use std::alloc::Global;
use std::marker::Model;

/// Files whose contents stand in memory. It tells them, and which of its calls fail. One count of faults serves all
/// names.
#[derive(Drop)]
pub struct MemoryFiles {
    names: Names,
    contents: ByteStrings,
    schedule: Schedule,
}

impl Model for MemoryFiles {
    ghost use Rattle.ds_io.specs.Memory.{FilesParts};

    ghost Value = { FilesParts };

    ghost view = { λ s. record { names = s.names; contents = s.contents; schedule = s.schedule } };
}

impl MemoryFiles {
    /// A file for each name, with the content at the same place. There are as many contents as names, and the names
    /// are different. The calls with the numbers of `fails`, where the first call is 1, fail. It takes no memory.
    pub fn make(names: Names, contents: ByteStrings, fails: Numbers) -> MemoryFiles
        requires one_each { length names ≡ length contents }
        requires different { AllPairs (λ a b. a ≢ b) names }
        ensures names { result.names ≡ names }
        ensures contents { result.contents ≡ contents }
        ensures schedule { result.schedule ≡ fresh fails }
    {
        MemoryFiles {
            names,
            contents,
            schedule: Schedule::new(fails),
        }
    }
}

// The first place of the name.
fn position_of(names: &[TextString], name: &str) -> Option<usize>
    ensures { result ≡ position (λ known. bytes_eq known name.now) names.now }
{
    names.iter().position(|known| known.text() == name)
}

// The content at the place of the name.
fn find<'a>(names: &[TextString], contents: &'a [ByteString], name: &str) -> Option<&'a ByteString>
    ensures { option_copied result ≡ content_at names.now contents.now name.now }
{
    match position_of(names, name) {
        Some(place) => contents.get(place),
        None => None,
    }
}

impl Files for MemoryFiles {
    ghost content = { content_of };

    ghost faults = { λ s _. s.schedule.faults };

    /// Gives a copy of the content of that name. `Failed`: exactly where this call is one that fails, where there is
    /// no such file, and where it has more than 2^30 bytes. `NoMemory`: lack of memory for the copy.
    fn load(&mut self, alloc: Global, name: &str) -> Result<ByteString, LoadFault>
        ensures gives_the_content { IfOk result (λ bytes. content_of self.old name.now ≡ Some bytes) }
        ensures within { IfOk result (λ bytes. length bytes ≤ most_file_bytes) }
        ensures fails_exactly { is_failed result ≡ (is_due self.old.schedule || not (is_loadable (content_of self.old name.now))) }

        ensures names { self.new.names ≡ self.old.names }
        ensures contents { self.new.contents ≡ self.old.contents }
        ensures schedule { self.new.schedule ≡ after_call self.old.schedule (is_failed result) }
        ensures faults_stay_counted { self.old.schedule.faults ≤ self.new.schedule.faults }
    {
        let due = self.schedule.begin();
        match find(self.names.as_slice(), self.contents.as_slice(), name) {
            Some(content) if !due && content.bytes().len() <= MAX_FILE_BYTES => {
                Ok(ByteString::of(alloc, content.bytes())?)
            }
            _ => {
                self.schedule.raise();
                Err(LoadFault::Failed)
            }
        }
    }
}
