//! A load is served over memory, and what its query found is printed.
ghost use Rattle.std.specs.Prelude.{◌≡◌, None, IfOk, IfSome, map};
ghost use Rattle.std.specs.Io.KnownBytes.{Appends, Keeps};
ghost use Rattle.std.specs.String.{string_bytes};
ghost use Rattle.ds_load.specs.Input.{load_text};
ghost use Rattle.ds_load.specs.Matches.{summary_lines, summary_text};
ghost use Rattle.ds_load.specs.Telling.{IsSummary};
ghost use Rattle.ds_fill.specs.Filling.{AreReplies, exit_of, items_asked, server_words, write_faults};

use crate::word::items_asked;
use ds_base::{Buffer, ByteString, ByteStrings, Names, NoMemory, Numbers, TextString};
use ds_io::{MemoryFiles, MemorySink, MemorySource, NoGate, Sink, write_all};
use ds_load::{Summary, append_number, read_summary, write_load};
use ds_serve::{Status, serve};
use std::alloc::{AllocError, Global};
use std::sync::Wait;
use std::thread::Threads;

/// How a run ends.
#[derive(Clone, Copy, PartialEq, Eq, Debug)]
pub enum FillStatus {
    /// The summary was printed.
    Done,
    /// The words leave their form.
    Usage,
    /// The summary couldn't be printed.
    WriteFault,
    /// There was no memory, here or for one of the load's requests.
    NoMemory,
}

impl FillStatus {
    /// The number with which the program ends, 0 exactly for `Done`.
    pub fn exit_number(&self) -> u8
        ensures { result ≡ exit_of self.now }
    {
        match self {
            FillStatus::Done => 0,
            FillStatus::Usage => 1,
            FillStatus::WriteFault => 4,
            FillStatus::NoMemory => 6,
        }
    }
}

/// Serves a load of as many items as the word says, over memory, with four shards, two background appliers and the indexes for the
/// load's query, and prints what the answer to that query tells: how many items there are, how many of them match, and the last one that
/// does.
///
/// Where it ends `Done`, the bytes that were printed are a definition of the number of items alone (`summary`): whatever the schedule of
/// the four clients and the appliers, each put was committed once, and the query, behind the settle of a later round, saw them all. That is
/// read from the
/// replies and follows from the server's theorem. `Usage`: exactly where the words leave their form; nothing is printed then.
/// `WriteFault`: exactly where a write or a flush failed; the sink counts that fault and no other. `NoMemory`: lack of memory; also where
/// the settle was refused or the last reply doesn't count all items, as where a put was refused; nothing is printed then.
pub fn fill<Rt: Threads + Wait + Sync, O: Sink>(
    rt: &Rt,
    alloc: Global,
    words: &[String],
    output: &mut O,
) -> FillStatus
    ensures summary { result ≡ FillStatus.Done → IfSome (items_asked (map string_bytes words.now)) (λ n.
        Appends (O.held output.old) (O.held output.new) (summary_text n)) }
    ensures usage { result ≡ FillStatus.Usage → items_asked (map string_bytes words.now) ≡ None }
    ensures form { items_asked (map string_bytes words.now) ≡ None → result ≡ FillStatus.Usage }
    ensures untouched { result ≡ FillStatus.Usage → output.new ≡ output.old }
    ensures unprinted { result ≡ FillStatus.NoMemory → output.new ≡ output.old }
    ensures write_fault { O.faults output.new ≡ write_faults result (O.faults output.old) }
{
    let Some(items) = items_asked(words) else {
        return FillStatus::Usage;
    };
    match summary_text(rt, alloc, items) {
        Ok(text) => print(text.bytes(), output),
        Err(AllocError) => FillStatus::NoMemory,
    }
}

/// What is printed of so many items. A refusal means out of memory.
fn summary_text<Rt: Threads + Wait + Sync>(
    rt: &Rt,
    alloc: Global,
    items: u32,
) -> Result<Buffer, NoMemory>
    ensures { IfOk result (λ text. text.bytes ≡ summary_text items) }
{
    let found = served(rt, alloc, items)?;
    lines_of(alloc, items, &found)
}

/// The lines of a summary.
fn lines_of(alloc: Global, items: u32, found: &Summary) -> Result<Buffer, NoMemory>
    ensures { IfOk result (λ text. text.bytes ≡ summary_lines items found.now.matches found.now.last) }
{
    let mut text = Buffer::new(alloc);
    text.append(b"items ")?;
    append_number(u64::from(items), &mut text)?;
    text.append(b"\nmatches ")?;
    append_number(found.matches, &mut text)?;
    text.append(b"\nlast ")?;
    match found.last {
        Some(number) => append_number(number, &mut text)?,
        None => text.append(b"none")?,
    }
    text.append(b"\n")?;
    Ok(text)
}

/// What a load of so many items is told of, by a run of its own. A refusal means out of memory, here or for one of the load's requests.
fn served<Rt: Threads + Wait + Sync>(
    rt: &Rt,
    alloc: Global,
    items: u32,
) -> Result<Summary, NoMemory>
    ensures { IfOk result (IsSummary items) }
{
    let replies = replies_of(rt, alloc, items)?;
    match read_summary(alloc, items, replies.written().bytes())? {
        Some(summary) => Ok(summary),
        None => Err(AllocError),
    }
}

/// The replies to a load, all of them. A refusal means out of memory.
fn replies_of<Rt: Threads + Wait + Sync>(
    rt: &Rt,
    alloc: Global,
    items: u32,
) -> Result<MemorySink, NoMemory>
    ensures { IfOk result (λ sink. AreReplies items sink.held) }
{
    let words = server_words(alloc)?;
    let mut files = files_of(alloc)?;
    let mut input = input_of(alloc, items)?;
    let mut output = MemorySink::make(alloc, usize::MAX, Numbers::new(alloc));
    let run = serve(
        rt,
        alloc,
        words.as_slice(),
        &mut files,
        &mut input,
        &mut output,
        &NoGate,
    );
    match run.status {
        Status::Done => Ok(output),
        _ => Err(AllocError),
    }
}

/// The words for the server: an index file, and four shards, which the summary counts on, with two background appliers.
fn server_words(alloc: Global) -> Result<Vec<String>, NoMemory>
    ensures { IfOk result (λ words. map string_bytes words.items ≡ server_words) }
{
    let mut words = Vec::new(alloc);
    words.push(String::from_str(alloc, "--indexes")?)?;
    words.push(String::from_str(alloc, "index.yaml")?)?;
    words.push(String::from_str(alloc, "--shards")?)?;
    words.push(String::from_str(alloc, "4")?)?;
    words.push(String::from_str(alloc, "--appliers")?)?;
    words.push(String::from_str(alloc, "2")?)?;
    Ok(words)
}

/// The one file, with two indexes, whose rows the load's query joins.
fn files_of(alloc: Global) -> Result<MemoryFiles, NoMemory> {
    let name = TextString::of(alloc, "index.yaml")?;
    let content = ByteString::of(
        alloc,
        b"indexes:\n\
          - kind: Item\n  properties:\n  - name: a\n  - name: c\n\
          - kind: Item\n  properties:\n  - name: b\n  - name: c\n",
    )?;
    let names = Names::from(Vec::from_array(alloc, [name])?);
    let contents = ByteStrings::from(Vec::from_array(alloc, [content])?);
    Ok(MemoryFiles::make(names, contents, Numbers::new(alloc)))
}

/// The load, to be read.
fn input_of(alloc: Global, items: u32) -> Result<MemorySource, NoMemory>
    ensures { IfOk result (λ source. source.left ≡ load_text items) }
{
    let text = write_load(alloc, items)?;
    Ok(MemorySource::make(text, usize::MAX, Numbers::new(alloc)))
}

/// Prints a text, and sends it on its way.
fn print<O: Sink>(text: &[u8], output: &mut O) -> FillStatus
    ensures printed { result ≡ FillStatus.Done → Appends (O.held output.old) (O.held output.new) text.now }
    ensures no_other { result ≡ FillStatus.Usage → ⊥ }
    ensures had_memory { result ≡ FillStatus.NoMemory → ⊥ }
    ensures write_fault { O.faults output.new ≡ write_faults result (O.faults output.old) }
{
    match write_all(output, text) {
        Ok(()) => flush(output),
        Err(_) => FillStatus::WriteFault,
    }
}

/// Sends on its way what was written.
fn flush<O: Sink>(output: &mut O) -> FillStatus
    ensures kept { result ≡ FillStatus.Done → Keeps (O.held output.old) (O.held output.new) }
    ensures no_other { result ≡ FillStatus.Usage → ⊥ }
    ensures had_memory { result ≡ FillStatus.NoMemory → ⊥ }
    ensures write_fault { O.faults output.new ≡ write_faults result (O.faults output.old) }
{
    match output.flush() {
        Ok(()) => FillStatus::Done,
        Err(_) => FillStatus::WriteFault,
    }
}
