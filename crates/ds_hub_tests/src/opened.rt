//! Hubs and words for the tests.
ghost use Rattle.std.specs.Prelude.{◌≡◌, ◌^◌, ◌<◌, [], IfOk};

use ds_draw::{Drawn, Seat, Word};
use ds_hub::{Absorb, HeldWriter, Hub, NoMemory, Reader, make};
use std::alloc::{AllocError, Global};
use std::sync::Wait;

/// The state of a hub of numbers: the sum of all that it took in.
#[derive(Drop)]
pub(crate) struct Sum(pub(crate) u64);

impl Absorb<u64> for Sum {
    ghost use Rattle.std.specs.Prelude.{◌+◌, ◌%◌, ◌^◌};

    type State = u64;

    type Told = u64;

    ghost state = { λ s. s.0 };

    ghost applied = { λ total x. (total + x) % 2 ^ 64 };

    ghost asks = { λ told. told };

    ghost never_fails = { Unit {0} };

    fn absorb(&mut self, operation: &u64) -> Result<(), NoMemory> {
        self.0 = self.0.wrapping_add(*operation);
        Ok(())
    }
}

/// A hub with two readers.
#[derive(Drop)]
pub(crate) struct TwoReaders<H: Wait + Drop> {
    pub(crate) writer: HeldWriter<u64, Sum, H>,
    pub(crate) one: Reader<u64, Sum>,
    pub(crate) two: Reader<u64, Sum>,
    pub(crate) ghost of_hub: { (one.hub ≡ writer.writer.hub) × (two.hub ≡ writer.writer.hub) },
}

/// A word with a seat for the keeper and one for each client.
#[derive(Drop)]
pub(crate) struct ThreeSeats {
    pub(crate) word: Word,
    pub(crate) keeper: Seat,
    pub(crate) one: Seat,
    pub(crate) two: Seat,
    pub(crate) ghost of_word: { (keeper.word ≡ word.name) × (one.word ≡ word.name) × (two.word ≡ word.name) },
    pub(crate) ghost unused: { (keeper.draws ≡ []) × (one.draws ≡ []) × (two.draws ≡ []) },
    pub(crate) ghost all: { word.seats ≡ 3 },
}

/// Makes a hub with two readers. `Err` means out of memory.
pub(crate) fn two_readers<R: Wait, H: Wait + Drop>(
    rt: &R,
    handle: H,
    alloc: Global,
) -> Result<TwoReaders<H>, NoMemory>
    ensures { IfOk result (λ hub. (hub.writer.writer.published ≡ []) × (hub.writer.writer.pending ≡ [])) }
{
    let Hub {
        writer,
        mut readers,
    } = make(rt, alloc, Sum(0), Sum(0), 2)?;
    let writer = HeldWriter::new(handle, writer);
    let (Some(one), Some(two)) = (readers.pop(), readers.pop()) else {
        unreachable!()
    };
    Ok(TwoReaders { writer, one, two })
}

/// Makes a word with three seats. `Err` means out of memory.
pub(crate) fn three_seats(alloc: Global, first: u64) -> Result<ThreeSeats, AllocError>
    requires { first < 2 ^ 63 }
    ensures { IfOk result (λ w. w.word.first ≡ first) }
{
    let Drawn { word, mut seats } = ds_draw::make(alloc, first, 3)?;
    let (Some(two), Some(one)) = (seats.pop(), seats.pop()) else {
        unreachable!()
    };
    let Some(keeper) = seats.pop() else {
        unreachable!()
    };
    Ok(ThreeSeats {
        word,
        keeper,
        one,
        two,
    })
}
