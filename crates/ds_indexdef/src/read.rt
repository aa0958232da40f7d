//! Reading index files.
ghost use Rattle.std.specs.Prelude.{◌≡◌, List, Ok};
ghost use Rattle.ds_indexdef.specs.declared.IndexDef.{IndexDef};
ghost use Rattle.ds_indexdef.specs.Refusals.{GivesUnlessNoMemory};
ghost use Rattle.ds_indexdef.specs.Grammar.{StandIn, Tells};
ghost use Rattle.ds_indexdef.specs.Reading.{yaml_of};

use crate::form::read_form;
use crate::lines::first_line;
use crate::reading::Progress;
use crate::{Defs, YamlRefused};
use std::alloc::Global;

/// The definitions that stand in the text of an index file, `index.yaml`.
///
/// The text is UTF-8. Lines end at a newline or at the end. From each line a `#` that is the first character or follows a space or
/// a tab is cut with all after it; then spaces, tabs and carriage returns at both ends. Empty lines count for numbers and nothing
/// else. What is left is nothing, or follows this order, in which each line stands by itself and its indentation is ignored:
/// `indexes:`, and then entries, each of which is `- kind: NAME`, at most one of `ancestor: yes` and `ancestor: no`,
/// `properties:`, and at least one property; a property is `- name: NAME`, and at most one of `direction: asc` and
/// `direction: desc`. Spaces and tabs stand after `-` and after a colon that a word follows. A name is 1 to 1,500 bytes without
/// space, tab, newline, carriage return, single or double quote or `#`. A name isn't reserved, but `__key__` may be the last
/// property of an entry. A property stands once in an entry.
///
/// A final `__key__` ascending is dropped. A definition that is there already adds nothing, nor does one whose rows are those of a
/// built-in index: one property, or `__key__` ascending alone, without ancestor. At most 200 definitions are left.
///
/// `Line`: the first line, counted from 1, such that no text of this form begins with the lines up to it, be it only that its bytes
/// aren't UTF-8; where the text ends too early, the number of its lines and one more; of an entry that would be the 201st
/// definition, its last line. `NoMemory`: lack of memory.
///
/// The keys are those of the Datastore's own file; the order of the lines and the refusals are our own profile. Each line is read
/// once, and a property is looked up among those of its entry; an entry is compared with each definition that is there.
pub fn read_yaml(alloc: Global, text: &[u8]) -> Result<Defs, YamlRefused>
    ensures answer { GivesUnlessNoMemory result (yaml_of text.now) }
    ensures grammar { Tells result text.now }
    ensures file { (defs : List IndexDef) → StandIn text.now defs → GivesUnlessNoMemory result (Ok defs) }
{
    read_lines(alloc, text)
}

// The definitions of the text, line by line.
fn read_lines(alloc: Global, text: &[u8]) -> Result<Defs, YamlRefused>
    ensures { GivesUnlessNoMemory result (yaml_of text.now) }
{
    let mut progress = Progress::new(alloc);
    let mut rest = text;
    let mut n: u64 = 1;
    while !rest.is_empty() {
        let (line, more) = first_line(rest);
        progress = progress.step(alloc, n, read_form(alloc, line)?)?;
        rest = more;
        n += 1;
    }
    progress.finish(n)
}
