//! What is held, as a text, and its writing.
ghost use Rattle.std.specs.Prelude.{◌≡◌, ◌++◌, ◌≤◌, ℕ, codes, decimal, map, take, length, IfOk, OnOk, IsFalse, IsTrue};
ghost use Rattle.std.specs.Io.KnownBytes.{Appends};
ghost use Rattle.std.specs.String.{string_bytes};
ghost use Rattle.ds_io.specs.Faults.{Rose, next_count};
ghost use Rattle.ds_paxos.specs.Holdings.{holding_of};
ghost use Rattle.ds_replication.specs.Printing.{holding_line, world_text};

use ds_base::NoMemory;
use ds_io::{Sink, write_all};
use ds_paxos::{Held, World};
use std::alloc::Global;

/// What all members hold, a line an entry. A refusal means out of memory.
pub(crate) fn text_of(alloc: Global, world: &World) -> Result<Vec<u8>, NoMemory>
    ensures { IfOk result (λ text. text.items ≡ world_text world.now) }
{
    let held = world.holdings(alloc)?;
    let mut text = Vec::new(alloc);
    for entry in held.as_slice() {
        put_line(alloc, entry, &mut text)?;
    }
    Ok(text)
}

/// Puts the line of an entry at the end. A refusal, which means out of memory, leaves some of it there.
fn put_line(alloc: Global, held: &Held<'_>, text: &mut Vec<u8>) -> Result<(), NoMemory>
    ensures { let h = held.now in OnOk result (text.new.items
        ≡ text.old.items ++ holding_line (holding_of h.member h.log h.position h.entry.now)) }
{
    let front = front_of(alloc, held.member, held.log, held.position)?;
    text.extend_from_slice(front.as_str().as_bytes())?;
    text.extend_from_slice(held.entry.bytes())?;
    text.push(b'\n')?;
    Ok(())
}

/// What stands before the entry in its line.
fn front_of(alloc: Global, member: u32, log: u32, position: u64) -> Result<String, NoMemory>
    ensures { IfOk result (λ front. string_bytes front ≡ codes "replica " ++ (decimal member ++ (codes " log " ++ (decimal log
        ++ (codes " position " ++ (decimal position ++ codes " ")))))) }
{
    format!(in alloc; "replica {member} log {log} position {position} ")
}

/// Whether the whole text was written and sent on its way; where it wasn't, the output failed, and has taken a beginning.
pub(crate) fn write_whole<O: Sink>(output: &mut O, text: &[u8]) -> bool
    ensures whole { IsTrue result → Appends (O.held output.old) (O.held output.new) text.now }
    ensures fault { IsFalse result → Rose (O.faults output.old) (O.faults output.new) }
    ensures front { IsFalse result → (sent : ℕ) × Appends (O.held output.old) (O.held output.new) (take sent text.now) }
    ensures kept { IsTrue result → O.faults output.new ≡ O.faults output.old }
    ensures counted { IsFalse result → O.faults output.new ≡ next_count (O.faults output.old) }
{
    match write_all(output, text) {
        Ok(()) => output.flush().is_ok(),
        Err(_) => false,
    }
}
