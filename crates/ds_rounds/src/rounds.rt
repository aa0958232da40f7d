//! Reading an input round by round.
ghost use Rattle.std.specs.Prelude.{◌≡◌, ℕ, ◌+◌, ◌^◌, ◌<◌, ◌≤◌, ◌==◌, ◌⊎◌, Bool, true, nat_lt, List, [], length, IsErr, IfOk, OnOk, OnErr};
ghost use Rattle.std.specs.Prelude.{IfSome, Ok, Err, None};
ghost use Rattle.std.specs.Io.KnownBytes.{Consumes, IsAtEnd, Keeps};
ghost use Rattle.ds_base.specs.Limits.{most_input_bytes, most_round_lines};
ghost use Rattle.ds_io.specs.Faults.{next_count};
ghost use Rattle.ds_rounds.specs.Drafts.{Absorbed, IsLastOf, IsLine, IsOpen, LeavesRound, Stands, WantsMemory, number_in, so_far};
ghost use Rattle.ds_rounds.specs.Lines.{lines_in};
ghost use Rattle.ds_rounds.specs.Rounds.{NumberedLine, found_rounds, rounds_from};
ghost use Rattle.ds_rounds.specs.Reading.{IsRound, ReadsRound, faults_after, first_reader};

use crate::draft::Draft;
use crate::newline::newline;
use crate::piece::{PIECE, Piece};
use crate::round::Round;
use crate::stage::{RoundRefused, Stage};
use ds_base::limits::MAX_INPUT_BYTES;
use ds_io::{Failed, Source};
use std::alloc::{AllocError, Global};
use std::marker::Model;

/// Reads the rounds of an input from a source, one after another. It holds the bytes that were read behind the round that it
/// gave last, at most one piece of 64 KiB.
#[derive(Drop)]
pub struct Rounds {
    alloc: Global,
    piece: Piece,
    number: u64,
    taken: u64,
    stage: Stage,
}

impl Model for Rounds {
    ghost use Rattle.ds_rounds.specs.Reading.{ReaderParts, IsReader};

    ghost Value = { ReaderParts };

    ghost view = { λ r. record { number = r.number; buffered = r.piece; taken = r.taken; stage = r.stage } };

    ghost invariant = { λ r. IsReader (record { number = r.number; buffered = r.piece; taken = r.taken; stage = r.stage }) };
}

impl Rounds {
    /// A reader that has read nothing. A refusal means out of memory.
    pub fn make(alloc: Global) -> Result<Rounds, AllocError>
        ensures { IfOk result (λ reader. reader ≡ first_reader) }
    {
        Ok(Rounds {
            alloc,
            piece: Piece::new(alloc)?,
            number: 1,
            taken: 0,
            stage: Stage::Reading,
        })
    }

    /// Reads the next round. It is given as soon as it has ended, whatever more the input has: nothing is read while a whole
    /// round is in the buffer.
    ///
    /// `None` comes exactly where the input has ended and no line is left, and again with each later call. `ReadFault`: exactly
    /// where a read of this call failed. `InputLimit`: exactly where `MAX_INPUT_BYTES` were taken in all calls and no round
    /// of them is left; the end isn't asked for. `NoMemory`: lack of memory, which doesn't come once so many bytes were taken.
    ///
    /// A refused round is lost. After a refusal each further call is refused and reads nothing: with `InputLimit` where the
    /// limit is reached, and else with `NoMemory`.
    pub fn next<I: Source>(&mut self, input: &mut I) -> Result<Option<Round>, RoundRefused>
        ensures reads { ReadsRound self.old self.new (I.left input.old) (I.left input.new) result }
        ensures faults { I.faults input.new ≡ faults_after result (I.faults input.old) }
        ensures round { IfOk result (λ found. IfSome found IsRound) }

        ensures past_the_limit { self.old.taken ≡ most_input_bytes → result ≡ Err RoundRefused.InputLimit }
        ensures past_a_refusal { self.old.stage ≡ Stage.Failed → IsErr result }
    {
        match self.stage {
            Stage::Reading => self.read_round(input),
            Stage::Ended => Ok(None),
            Stage::Failed => Err(self.refused_again()),
        }
    }
}

impl Rounds {
    /// Reads the next round, where reading goes on.
    fn read_round<I: Source>(&mut self, input: &mut I) -> Result<Option<Round>, RoundRefused>
        requires { self.old.stage ≡ Stage.Reading }
        ensures reads { ReadsRound self.old self.new (I.left input.old) (I.left input.new) result }
        ensures faults { I.faults input.new ≡ faults_after result (I.faults input.old) }
        ensures round { IfOk result (λ found. IfSome found IsRound) }
        ensures past_the_limit { self.old.taken ≡ most_input_bytes → result ≡ Err RoundRefused.InputLimit }
    {
        self.stage = Stage::Failed;
        let mut draft = Draft::new(self.alloc, self.number);
        'read: while !absorb(&mut self.piece, &mut self.number, &mut draft)? {
            if self.taken == MAX_INPUT_BYTES {
                return Err(RoundRefused::InputLimit);
            }
            draft.make_room()?;
            if !fill(&mut self.piece, &mut self.taken, input)? {
                let last = last_round(draft)?;
                self.number += 1;
                self.stage = Stage::Ended;
                return Ok(last);
            }
        }
        self.stage = Stage::Reading;
        Ok(Some(draft.into_round()))
    }

    /// The refusal of each call after one.
    fn refused_again(&self) -> RoundRefused
        ensures limit { self.now.taken ≡ most_input_bytes → result ≡ RoundRefused.InputLimit }
        ensures memory { self.now.taken < most_input_bytes → result ≡ RoundRefused.NoMemory }
    {
        if self.taken == MAX_INPUT_BYTES {
            RoundRefused::InputLimit
        } else {
            RoundRefused::NoMemory
        }
    }
}

/// One read of the next bytes, and whether there were any; there are none exactly at the end. `taken` counts them. Near the
/// limit only one byte is asked for at a time: so none stands behind a round where the limit is reached, and no memory is
/// wanted from there on.
fn fill<I: Source>(piece: &mut Piece, taken: &mut u64, input: &mut I) -> Result<bool, Failed>
    requires below_the_limit { taken.old < most_input_bytes }
    requires empty { piece.old ≡ [] }
    ensures some { IfOk result (λ some. some ≡ nat_lt 0 (length piece.new)) }
    ensures told { OnOk result (Consumes (I.left input.old) (I.left input.new) piece.new) }
    ensures counted { taken.new ≡ taken.old + length piece.new }
    ensures within { taken.new ≤ most_input_bytes }
    ensures one { taken.new ≡ most_input_bytes → length piece.new ≤ 1 }
    ensures at_the_end { OnOk result (piece.new ≡ [] → IsAtEnd (I.left input.new)) }
    ensures no_fault { OnOk result (I.faults input.new ≡ I.faults input.old) }

    ensures none { OnErr result (piece.new ≡ []) }
    ensures untold { OnErr result (Keeps (I.left input.old) (I.left input.new)) }
    ensures fault { OnErr result (I.faults input.new ≡ next_count (I.faults input.old)) }
{
    let most = most_of(*taken);
    piece.fill(input, most)?;
    let n = piece.bytes().len();
    *taken += n as u64;
    Ok(n > 0)
}

/// How many bytes are asked for where so many were taken.
fn most_of(taken: u64) -> usize
    requires { taken < most_input_bytes }
    ensures some { 0 < result }
    ensures fits { result ≤ PIECE }
    ensures near { (taken + result < most_input_bytes) ⊎ (result ≡ 1) }
{
    if MAX_INPUT_BYTES - taken > PIECE as u64 {
        PIECE
    } else {
        1
    }
}

/// Moves bytes into a draft up to the end of a round, which it answers `true`, or of the bytes. `number` is the number of the
/// line that is being read. It is refused only where memory is wanted.
fn absorb(piece: &mut Piece, number: &mut u64, draft: &mut Draft) -> Result<bool, AllocError>
    requires open { IsOpen draft.old }
    requires counted { number.old ≡ number_in draft.old }
    requires fits { number.old + length piece.old + 1 < 2 ^ 64 }
    ensures leaves { IfOk result (λ ended. LeavesRound ended draft.new number.new piece.new) }
    ensures first { OnOk result (draft.old.first ≤ draft.new.first) }
    ensures rounds { IfOk result (λ ended. (rounds : Bool → List ℕ → List (List NumberedLine))
        → Stands rounds draft.old number.old piece.old → Absorbed ended rounds draft.new number.new piece.new) }
    ensures counted { number.new + length piece.new ≤ number.old + length piece.old }
    ensures rises { IfOk result (λ ended. ended ≡ true → number.old < number.new) }
    ensures err { OnErr result (WantsMemory draft.old piece.old) }
{
    'lines: while let Some(end) = newline(piece.bytes()) {
        draft.extend(&piece.bytes()[..end])?;
        piece.skip(end + 1);
        *number += 1;
        if draft.end_line()? {
            return Ok(true);
        }
    }
    draft.extend(piece.bytes())?;
    piece.clear();
    Ok(false)
}

/// The round at the end of the input; `None` where no line is left.
fn last_round(draft: Draft) -> Result<Option<Round>, AllocError>
    requires { IsOpen draft }
    ensures round { IfOk result (λ found. IfSome found (λ round. IsLastOf draft round)) }
    ensures rounds { IfOk result (λ found. (line : List ℕ) → IsLine draft line
        → rounds_from true (so_far draft) (number_in draft) (lines_in true line) ≡ found_rounds found) }
{
    let mut draft = draft;
    draft.end_input()?;
    if draft.is_empty() {
        return Ok(None);
    }
    Ok(Some(draft.into_round()))
}
