//! A client's session.
ghost use Rattle.std.specs.Prelude.{◌≡◌, ℕ, ◌+◌, ◌*◌, ◌≤◌, ◌∷◌, [], None, Some, length, IfErr, IfOk, OnOk};
ghost use Rattle.ds_base.specs.Limits.{greatest_client};
ghost use Rattle.ds_model.specs.Asked.{asked, client_of};
ghost use Rattle.ds_model.specs.Groups.{with_transaction};
ghost use Rattle.ds_model.specs.Sessions.{first_session};
ghost use Rattle.ds_rounds.specs.Lines.{IsWithinLimit, handed};
ghost use Rattle.ds_rounds.specs.Rounds.{NumberedLine};
ghost use Rattle.ds_session_state.specs.Answering.{HasAnswered};
ghost use Rattle.ds_asked.specs.AskedLines.{Asks, MayBeAnswered, was_read};
ghost use Rattle.ds_session.specs.Room.{most_no_memory};
ghost use Rattle.ds_session.specs.Meeting.{HasTaken};
ghost use Rattle.ds_session_state.specs.Sessions.{IsWithin};
ghost use Rattle.ds_session_reads.specs.Steps.{IsWithinSteps};

use crate::answering::{answer, refuse_line};
use ds_asked::{Asked, asked_line};
use ds_base::{Buffer, Counts, NoMemory};
use ds_indexdef::Defs;
use ds_io::Steps;
use ds_protocol::{OpenTransaction, Watermark};
use ds_rounds::Line;
use ds_session_state::{ReplyTo, State};
use ds_store::{Names, Pass, Store};
use std::alloc::{AllocError, Global};
use std::marker::Model;
use std::sync::Wait;
use std::sync::ledger::Ledger;
use std::thread::Threads;

/// No reply that there was no memory is longer, in bytes.
pub(crate) const MOST_NO_MEMORY: usize = 96;

/// A client's session over a running store: what the client has seen, the transaction that it has open, and the text of its replies that
/// are not written yet. It owns a pass of the store, which has seen at least as much as the client.
///
/// Contracts see `SessionParts`.
#[derive(Drop)]
pub struct Session<J: Names> {
    pub(crate) state: State<J>,
    /// So many bytes are kept for replies that there was no memory.
    pub(crate) room: usize,
}

impl<J: Names> Model for Session<J> {
    ghost use Rattle.std.specs.Prelude.{◌≤◌};
    ghost use Rattle.ds_base.specs.Limits.{greatest_client};
    ghost use Rattle.ds_session_state.specs.Sessions.{IsWithin, SessionParts};

    ghost Value = { SessionParts };

    ghost view = { λ s. record s.state { room = s.room } };

    ghost invariant = { λ s. IsWithin s.state.seen s.state.pass × (s.state.client ≤ greatest_client) × (s.room ≤ s.state.room) };
}

impl<J: Names> Session<J> {
    /// A session of a client, 0 to 15, that has seen nothing, with room for replies to so many lines that there was no memory. A refusal is
    /// lack of memory, and hands the pass back.
    pub fn make(
        alloc: Global,
        pass: Pass<J>,
        client: u32,
        lines: u32,
    ) -> Result<Session<J>, Pass<J>>
        requires { client ≤ greatest_client }
        ensures client { IfOk result (λ s. s.client ≡ client) }
        ensures pass { IfOk result (λ s. s.pass ≡ pass) }
        ensures seen { IfOk result (λ s. s.seen ≡ first_session (length pass.lists)) }
        ensures text { IfOk result (λ s. s.text ≡ []) }
        ensures room { IfOk result (λ s. lines * most_no_memory ≤ s.room) }
        ensures back { IfErr result (λ p. p ≡ pass) }
    {
        let room = lines as usize * MOST_NO_MEMORY;
        let mut text = Buffer::new(alloc);
        if text.make_room(room).is_err() {
            return Err(pass);
        }
        match Watermark::first(alloc, pass.shards()) {
            Ok(seen) => Ok(Session::with_text(alloc, pass, client, seen, text, room)),
            Err(_) => Err(pass),
        }
    }

    /// A session of a client that has seen nothing, without room for replies. It takes no memory.
    pub fn first(alloc: Global, pass: Pass<J>, client: u32, seen: Watermark) -> Session<J>
        requires client { client ≤ greatest_client }
        requires seen { seen ≡ first_session (length pass.lists) }
        ensures client { result.client ≡ client }
        ensures pass { result.pass ≡ pass }
        ensures seen { result.seen ≡ first_session (length pass.lists) }
        ensures text { result.text ≡ [] }
    {
        Session::with_text(alloc, pass, client, seen, Buffer::new(alloc), 0)
    }

    fn with_text(
        alloc: Global,
        pass: Pass<J>,
        client: u32,
        seen: Watermark,
        text: Buffer,
        room: usize,
    ) -> Session<J>
        requires client { client ≤ greatest_client }
        requires seen { seen ≡ first_session (length pass.lists) }
        requires room { room ≤ text.spare }
        ensures { result ≡ record {
          client = client;
          pass = pass;
          seen = first_session (length pass.lists);
          text = text.bytes;
          room = room;
        } }
    {
        // The proof alone needs it: the counter is at least the first id.
        let _ = pass.next();
        Session {
            state: State {
                client,
                pass,
                seen,
                transaction: OpenTransaction::none(),
                text,
                alloc,
            },
            room,
        }
    }

    /// Makes room for replies to so many lines that there was no memory. A refusal changes nothing.
    pub fn make_room(&mut self, lines: u32) -> Result<(), NoMemory>
        ensures same { self.new ≡ record self.old { room = self.new.room } }
        ensures room { OnOk result (lines * most_no_memory ≤ self.new.room) }
        ensures kept { self.old.room ≤ self.new.room }
    {
        self.make_room_for(lines as usize)
    }

    /// The same for any number of lines.
    pub fn make_room_for(&mut self, lines: usize) -> Result<(), NoMemory>
        ensures same { self.new ≡ record self.old { room = self.new.room } }
        ensures room { OnOk result (lines * most_no_memory ≤ self.new.room) }
        ensures kept { self.old.room ≤ self.new.room }
    {
        let Some(room) = lines.checked_mul(MOST_NO_MEMORY) else {
            return Err(AllocError);
        };
        self.state.text.make_room(room)?;
        self.room = self.room.max(room);
        Ok(())
    }

    /// Answers a line of this client: exactly one reply is put behind the text. There must be room for one that there was no memory, which
    /// it may use up. The store is that of the session's pass, and the definitions are the store's. A line that asks no search takes no
    /// step, but a get, whose look-up takes one at most.
    pub fn answer<R: Threads + Wait + Sync, H: Wait + Drop, L: Ledger>(
        &mut self,
        rt: &R,
        store: &Store<J, H>,
        defs: &Defs,
        number: u64,
        line: Line<'_>,
        steps: &mut Steps<L>,
    )
        requires line { IsWithinLimit line }
        requires own { client_of (asked store.now.shards) (handed line) ≡ self.old.client }
        requires definitions { defs.now ≡ J.definitions }
        requires ledger { L.parts ≡ J.ledger }
        requires room { most_no_memory ≤ self.old.room }
        ensures answered { HasAnswered J.definitions store.now.shards (Some J.window) self.old self.new
            (record { number = number; content = handed line.entry } ∷ []) }
        ensures room { self.old.room ≡ self.new.room + most_no_memory }
        ensures steps { IsWithinSteps J.definitions J.window store.now.shards number (asked store.now.shards (handed line.entry)) self.old
            self.new steps.old steps.new }
    {
        match asked_line(self.state.alloc, store.shards(), number, line) {
            Ok(asked) => self.answer_asked(rt, store, defs, asked, steps),
            Err(_) => self.say_no_memory(number),
        }
    }

    /// Answers what a line of this client asks.
    pub fn answer_asked<R: Threads + Wait + Sync, H: Wait + Drop, L: Ledger>(
        &mut self,
        rt: &R,
        store: &Store<J, H>,
        defs: &Defs,
        asked: Asked,
        steps: &mut Steps<L>,
    )
        requires answerable { MayBeAnswered store.now.shards asked }
        requires own { asked.client ≡ self.old.client }
        requires definitions { defs.now ≡ J.definitions }
        requires ledger { L.parts ≡ J.ledger }
        requires room { most_no_memory ≤ self.old.room }
        ensures answered { (line : NumberedLine) → Asks store.now.shards line asked
            → HasAnswered J.definitions store.now.shards (Some J.window) self.old self.new (line ∷ []) }
        ensures room { self.old.room ≡ self.new.room + most_no_memory }
        ensures client { self.new.client ≡ self.old.client }
        ensures counts { length self.new.seen.counts ≡ length self.old.seen.counts }
        ensures steps { IsWithinSteps J.definitions J.window store.now.shards asked.number (was_read asked) self.old self.new steps.old
            steps.new }
    {
        let keep = self.room - MOST_NO_MEMORY;
        self.room = keep;
        let Asked {
            client: _,
            number,
            request,
        } = asked;
        match request {
            Ok(request) => {
                let to = ReplyTo { number, keep };
                answer(&mut self.state, rt, store, defs, to, request.call, steps);
            }
            Err(body) => refuse_line(&mut self.state, number, body, keep),
        }
    }

    /// Says that there was no memory to read a line.
    fn say_no_memory(&mut self, number: u64)
        requires room { most_no_memory ≤ self.old.room }
        ensures answered { (line : NumberedLine) (shards : ℕ) → line.number ≡ number
            → client_of (asked shards) line.content ≡ self.old.client
            → HasAnswered J.definitions shards (Some J.window) self.old self.new (line ∷ []) }
        ensures room { self.old.room ≡ self.new.room + most_no_memory }
    {
        let keep = self.room - MOST_NO_MEMORY;
        self.room = keep;
        self.state.say_no_memory(number, keep);
    }

    /// The client takes what this one has seen, and the pass sees as much. No reply may be left from an earlier round.
    pub fn meet<R: Wait, H: Wait + Drop>(
        &mut self,
        rt: &R,
        store: &Store<J, H>,
        greatest: &Watermark,
        counts: &Counts,
    )
        requires counts { counts.now ≡ greatest.now.counts }
        requires shards { length greatest.now.counts ≡ store.now.shards }
        requires written { self.old.text ≡ [] }
        ensures taken { HasTaken greatest.now self.old self.new }
        ensures room { self.new.room ≡ self.old.room }
        ensures counts { length self.new.seen.counts ≡ length self.old.seen.counts }
    {
        let state = &mut self.state;
        store.meet(
            rt,
            &mut state.pass,
            greatest.place(),
            counts,
            greatest.next(),
        );
        state.seen.raise(greatest);
    }

    /// Where the session takes its memory. Contracts see nothing of an allocator.
    pub fn alloc(&self) -> Global {
        self.state.alloc
    }

    /// The replies that are not written yet.
    pub fn text(&self) -> &[u8]
        ensures { result.now ≡ self.now.text }
    {
        self.state.text.bytes()
    }

    /// Takes the replies out. The room that they had stays.
    pub fn clear_text(&mut self)
        ensures { self.new ≡ record self.old { text = [] } }
    {
        self.state.text.clear();
    }

    /// Gives the replies for an empty text.
    pub fn swap_text(&mut self, text: &mut Buffer)
        requires { text.old.bytes ≡ [] }
        ensures session { self.new ≡ record self.old { text = []; room = 0 } }
        ensures text { text.new.bytes ≡ self.old.text }
    {
        self.room = 0;
        std::mem::swap(&mut self.state.text, text);
    }

    /// What the client has seen, whatever its transaction.
    pub fn seen(&self) -> &Watermark
        ensures { with_transaction None result.now ≡ with_transaction None self.now.seen }
    {
        &self.state.seen
    }

    /// The session's pass. No commit in the session's text is above its place, and each id drawn there is below its id counter. It takes no
    /// memory.
    pub fn pass(&self) -> &Pass<J>
        ensures { result.now ≡ self.now.pass }
    {
        &self.state.pass
    }

    /// Uses the session up, with its text and its transaction, and gives its pass. It takes no memory.
    pub fn end(self) -> Pass<J>
        ensures { result ≡ self.pass }
    {
        let Session { state, room: _ } = self;
        let State {
            client: _,
            pass,
            seen: _seen,
            transaction: _transaction,
            text: _text,
            alloc: _,
        } = state;
        pass
    }

    /// Gives the session another pass, which has seen at least as much as its client, and hands the old one back.
    pub fn change_pass(&mut self, pass: Pass<J>) -> Pass<J>
        requires { IsWithin self.old.seen pass }
        ensures old { result ≡ self.old.pass }
        ensures new { self.new ≡ record self.old { pass = pass } }
    {
        std::mem::replace(&mut self.state.pass, pass)
    }
}
