//! What the lines of a whole input ask.
ghost use Rattle.std.specs.Prelude.{◌≡◌, IfOk, Ok};
ghost use Rattle.ds_asked.specs.AskedLines.{AreAskedRounds};
ghost use Rattle.ds_rounds.specs.Reading.{IsRound, ReadsRound};
ghost use Rattle.ds_rounds.specs.Rounds.{rounds_of_input};
ghost use Rattle.std.specs.Prelude.{Some, IfSome};

use crate::lines::{Asked, asked_by_client};
use ds_base::{ByteString, NoMemory, Numbers, Sequence};
use ds_io::MemorySource;
use ds_rounds::{Round, Rounds};
use std::alloc::{AllocError, Global};

/// How many bytes are handed to the reader of rounds at a time.
const PIECE: usize = 65_536;

/// What the lines of an input ask: of each round one list for each client from 0 on, each in the order of the lines. A refusal is want of
/// memory; an input of 2^40 bytes counts as one.
pub fn asked_of_input(
    alloc: Global,
    shards: u32,
    input: &[u8],
) -> Result<Vec<Sequence<Sequence<Asked>>>, NoMemory>
    ensures { IfOk result (λ rounds. AreAskedRounds shards (rounds_of_input input.now) rounds.items) }
{
    let bytes = ByteString::of(alloc, input)?;
    let mut source = MemorySource::make(bytes, PIECE, Numbers::new(alloc));
    let mut reader = Rounds::make(alloc)?;
    let mut rounds = Vec::new(alloc);
    'rounds: while let Some(round) = next_round(&mut reader, &mut source)? {
        let lists = asked_by_client(alloc, shards, round)?;
        rounds.push(Sequence::from(lists))?;
    }
    Ok(rounds)
}

/// The next round; `None` exactly where the input has ended and no line is left. A refusal counts as out of memory.
fn next_round(reader: &mut Rounds, source: &mut MemorySource) -> Result<Option<Round>, NoMemory>
    ensures reads { IfOk result (λ found. ReadsRound reader.old reader.new (Some source.old.left) (Some source.new.left) (Ok found)) }
    ensures round { IfOk result (λ found. IfSome found IsRound) }
{
    match reader.next(source) {
        Ok(found) => Ok(found),
        Err(_) => Err(AllocError),
    }
}
