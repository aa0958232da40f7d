//! The top call.
ghost use Rattle.std.specs.Prelude.{◌≡◌, ◌<◌, ◌≤◌, Ok, length, map, IfErr, IfOk, IfSome, OnOk};
ghost use Rattle.std.specs.String.{string_bytes};
ghost use Rattle.ds_paxos.specs.Worlds.{WorldParts};
ghost use Rattle.ds_replication.specs.Printing.{world_text};
ghost use Rattle.ds_replication.specs.Scripts.{IsRefused, run_script};
ghost use Rattle.ds_replication.specs.Replicating.{EndsBy, HasText, IsPrinted, IsUnrun, most_script_bytes, members_asked, members_in, read_faults, write_faults};

use crate::printing::{text_of, write_whole};
use crate::reading::read_whole;
use crate::script::run_script;
use crate::status::ReplicaStatus;
use ds_io::{Sink, Source};
use std::alloc::Global;

/// Runs the script of the input with as many members as the word says, and prints what each holds at the end, by member, log and position.
///
/// `Usage`: exactly where the words aren't one digit from 1 to 9; then nothing is read. `InputLimit`: exactly where 67,108,864 bytes were
/// taken. `Script`: at the first line that leaves the form, or whose event can't happen. `ReadFault` and `WriteFault`: only where the count
/// of faults of the input or of the output rose. `NoMemory` means out of memory. They are looked for in this order: words, input, script,
/// output. Nothing is written but with `Done`, and with `WriteFault` a beginning of it.
pub fn replicate<I: Source, O: Sink>(
    alloc: Global,
    words: &[String],
    input: &mut I,
    output: &mut O,
) -> ReplicaStatus
    ensures ends { EndsBy (members_asked (map string_bytes words.now)) (I.left input.old) (I.left input.new)
        (I.faults input.old) (I.faults input.new) (O.held output.old) (O.held output.new) (O.faults output.old) (O.faults output.new) result }
    ensures read_fault { I.faults input.new ≡ read_faults result (I.faults input.old) }
    ensures write_fault { O.faults output.new ≡ write_faults result (O.faults output.old) }
{
    let Some(members) = members_asked(words) else {
        return ReplicaStatus::Usage;
    };
    match text_after(alloc, members, input) {
        Ok(text) => print(text.as_slice(), output),
        Err(status) => status,
    }
}

/// How many members the words ask for.
fn members_asked(words: &[String]) -> Option<u32>
    ensures value { result ≡ members_asked (map string_bytes words.now) }
    ensures within { IfSome result (λ n. (1 ≤ n) × (n ≤ 9)) }
{
    match words {
        [word] => digit_of(word.as_str().as_bytes()),
        _ => None,
    }
}

fn digit_of(word: &[u8]) -> Option<u32>
    ensures value { result ≡ members_in word.now }
    ensures within { IfSome result (λ n. (1 ≤ n) × (n ≤ 9)) }
{
    match word {
        [digit @ b'1'..=b'9'] => Some(u32::from(*digit - b'0')),
        _ => None,
    }
}

/// What is to be printed after the script of the input; or why there is nothing.
fn text_after<I: Source>(
    alloc: Global,
    members: u32,
    input: &mut I,
) -> Result<Vec<u8>, ReplicaStatus>
    requires least { 1 ≤ members }
    requires most { members ≤ 9 }
    ensures ran { IfOk result (λ text. HasText members (I.left input.old) (I.left input.new) text.items) }
    ensures unrun { IfErr result (IsUnrun members (I.left input.old) (I.left input.new) (I.faults input.old) (I.faults input.new)) }
    ensures no_fault { OnOk result (I.faults input.new ≡ I.faults input.old) }
    ensures counted { IfErr result (λ status. I.faults input.new ≡ read_faults status (I.faults input.old)) }
{
    let script = match read_whole(alloc, input) {
        Ok(script) => script,
        Err(status) => return Err(status),
    };
    match run_text(alloc, members, script.as_slice()) {
        Ok(text) => Ok(text),
        Err(status) => Err(status),
    }
}

/// What is to be printed after a script; or why there is nothing.
fn run_text(alloc: Global, members: u32, script: &[u8]) -> Result<Vec<u8>, ReplicaStatus>
    requires least { 1 ≤ members }
    requires most { members ≤ 9 }
    requires short { length script.now < most_script_bytes }
    ensures ran { IfOk result (λ text. (w : WorldParts) × (run_script members script.now ≡ Ok w) × (text.items ≡ world_text w)) }
    ensures refused { IfErr result (IsRefused (run_script members script.now)) }
{
    match run_script(alloc, members, script) {
        Ok(world) => Ok(text_of(alloc, &world)?),
        Err(status) => Err(status),
    }
}

/// Prints a text, and tells how it went.
fn print<O: Sink>(text: &[u8], output: &mut O) -> ReplicaStatus
    ensures ends { IsPrinted text.now (O.held output.old) (O.held output.new) (O.faults output.old) (O.faults output.new) result }
    ensures counted { O.faults output.new ≡ write_faults result (O.faults output.old) }
{
    if write_whole(output, text) {
        ReplicaStatus::Done
    } else {
        ReplicaStatus::WriteFault
    }
}
