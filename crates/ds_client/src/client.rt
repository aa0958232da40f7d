//! One client: its session, what that one has yet to take, and what its lines of a round ask.
ghost use Rattle.std.specs.Prelude.{◌≡◌, ◌*◌, ◌<◌, ◌≤◌, [], false, Some, length, OnOk};
ghost use Rattle.ds_client.specs.Clients.{HasAnsweredOwn, IsReady, StartsRound};
ghost use Rattle.ds_protocol.specs.Watermarks.{nothing_seen, raised_by};
ghost use Rattle.ds_session.specs.Meeting.{HasTaken};
ghost use Rattle.ds_session.specs.Room.{most_no_memory};
ghost use Rattle.ds_store.specs.Lower.{IsNoLower};

use crate::missed::Missed;
use ds_asked::Asked;
use ds_base::{Buffer, NoMemory};
use ds_indexdef::Defs;
use ds_io::{Gate, Steps};
use ds_protocol::Watermark;
use ds_session::Session;
use ds_store::{Ledgers, Names, Pass, Store};
use std::marker::{Brand, Model};
use std::sync::Wait;
use std::sync::ledger::{Blank, Ledger};
use std::thread::Threads;

/// A client's session, and what its lines of a round ask, in their order. What others are shown in rounds in which the client has no lines
/// is noted beside the session, which takes it before the client's next line is answered. It is public as a part of the type of a run's
/// workers alone.
///
/// Contracts see `ClientParts`: the session as it is once it has taken all.
#[derive(Drop)]
pub struct Client<J: Names> {
    session: Session<J>,
    missed: Missed,
    own: Vec<Asked>,
    /// On one of these the steps count that its lines take.
    ledgers: Ledgers<J>,
}

impl<J: Names> Model for Client<J> {
    ghost use Rattle.std.specs.Prelude.{◌≡◌, length};
    ghost use Rattle.ds_client.specs.Clients.{ClientParts, taking};

    ghost Value = { ClientParts };

    ghost view = { λ c. record { session = taking c.missed c.session; own = c.own.items } };

    ghost invariant = { λ c. length c.missed.counts ≡ length c.session.seen.counts };
}

impl<J: Names> Client<J> {
    /// A client without lines, whose session has missed nothing.
    pub fn new(session: Session<J>, missed: Missed, ledgers: Ledgers<J>) -> Client<J>
        requires { missed ≡ nothing_seen (length session.seen.counts) }
        ensures session { result.session ≡ session }
        ensures own { result.own ≡ [] }
    {
        let own = Vec::new(session.alloc());
        Client {
            session,
            missed,
            own,
            ledgers,
        }
    }

    /// Takes these lines on to answer them.
    pub fn take_on(&mut self, own: Vec<Asked>)
        ensures session { self.new.session ≡ self.old.session }
        ensures own { self.new.own ≡ own.items }
    {
        self.own = own;
    }

    /// Whether there are lines to answer.
    pub fn has_lines(&self) -> bool
        ensures { result ≡ false → self.now.own ≡ [] }
    {
        !self.own.is_empty()
    }

    /// Makes room for a reply to each line that there was no memory. A refusal means out of memory.
    pub fn make_room(&mut self) -> Result<(), NoMemory>
        ensures same { self.new.session ≡ record self.old.session { room = self.new.session.room } }
        ensures own { self.new.own ≡ self.old.own }
        ensures room { OnOk result (length self.new.own * most_no_memory ≤ self.new.session.room) }
    {
        self.session.make_room_for(self.own.len())
    }

    /// Raises a watermark by what the client has seen, whatever its transaction.
    pub fn add_to(&self, greatest: &mut Watermark)
        ensures { greatest.new ≡ raised_by self.now.session.seen greatest.old }
    {
        greatest.raise(self.session.seen());
        self.missed.add_to(greatest);
    }

    /// The client has seen what another one has. Its session takes that once there are lines to answer: no lock is taken here. No reply may
    /// be left from an earlier round.
    pub fn meet(&mut self, greatest: &Watermark)
        requires { self.old.session.text ≡ [] }
        ensures taken { HasTaken greatest.now self.old.session self.new.session }
        ensures own { self.new.own ≡ self.old.own }
        ensures room { self.new.session.room ≡ self.old.session.room }
        ensures counts { length self.new.session.seen.counts ≡ length self.old.session.seen.counts }
    {
        self.missed.add(greatest);
    }

    /// The replies that are not written yet.
    pub fn text(&self) -> &[u8]
        ensures { result.now ≡ self.now.session.text }
    {
        self.session.text()
    }

    /// Takes the replies out. The room that they had stays.
    pub fn clear_text(&mut self)
        ensures { self.new.session ≡ record self.old.session { text = [] } }
    {
        self.session.clear_text();
    }

    /// Gives the replies for an empty text.
    pub fn swap_text(&mut self, text: &mut Buffer)
        requires { text.old.bytes ≡ [] }
        ensures session { self.new.session ≡ record self.old.session { text = []; room = 0 } }
        ensures text { text.new.bytes ≡ self.old.session.text }
    {
        self.session.swap_text(text);
    }

    /// The session's pass. It takes no memory.
    pub fn pass(&self) -> &Pass<J>
        ensures { result.now ≡ self.now.session.pass }
    {
        self.session.pass()
    }

    /// Uses the client up, and gives its session's pass. It takes no memory.
    pub fn end(self) -> Pass<J>
        ensures { result ≡ self.session.pass }
    {
        let Client {
            session,
            missed: _missed,
            own: _own,
            ledgers: _ledgers,
        } = self;
        session.end()
    }

    /// The client over another store, with ledgers of it, and a pass that has seen no less than its session's; and the pass that this one
    /// had. It takes no memory.
    pub fn moved<K: Names>(self, pass: Pass<K>, ledgers: Ledgers<K>) -> (Client<K>, Pass<J>)
        requires { IsNoLower self.session.pass pass }
        ensures session { result.0.session ≡ record self.session { pass = pass } }
        ensures old { result.1 ≡ self.session.pass }
    {
        let Client {
            session,
            missed,
            own,
            ledgers: _ledgers,
        } = self;
        let (session, old) = session.moved(pass);
        let client = Client {
            session,
            missed,
            own,
            ledgers,
        };
        (client, old)
    }

    /// Answers the client's lines in their order, once its session has taken what it missed. Steps are counted for nobody.
    pub fn run<R: Threads + Wait + Sync, H: Wait + Drop, G: Gate>(
        &mut self,
        rt: &R,
        store: &Store<J, H>,
        defs: &Defs,
        gate: &G,
    )
        requires starts { StartsRound store.now.shards self.old.session self.old.own }
        requires definitions { defs.now ≡ J.definitions }
        ensures { HasAnsweredOwn J.definitions store.now.shards (Some J.window) self.old.session self.old.own self.new.session }
    {
        let own = std::mem::replace(&mut self.own, Vec::new(self.session.alloc()));
        self.missed.pass_on(rt, store, &mut self.session);
        answer_own::<J, R, H, G, Brand>(
            self.ledgers.blank(),
            rt,
            store,
            defs,
            &mut self.session,
            own,
            gate,
        );
    }
}

/// Answers the lines of a client in their order, by steps on the ledger that the blank becomes.
fn answer_own<J: Names, R: Threads + Wait + Sync, H: Wait + Drop, G: Gate, L: Ledger>(
    blank: Blank,
    rt: &R,
    store: &Store<J, H>,
    defs: &Defs,
    session: &mut Session<J>,
    own: Vec<Asked>,
    gate: &G,
)
    requires name { blank.name ≡ L.name }
    requires parts { blank.parts ≡ L.parts }
    requires counts { 0 < blank.parts }
    requires ledger { L.parts ≡ J.ledger }
    requires ready { IsReady store.now.shards session.old own.items }
    requires definitions { defs.now ≡ J.definitions }
    ensures { HasAnsweredOwn J.definitions store.now.shards (Some J.window) session.old own.items session.new }
{
    let mut steps = Steps::<L>::new(blank);
    for asked in own {
        let client = asked.client;
        let number = asked.number;
        gate.before(client, number);
        session.answer_asked(rt, store, defs, asked, &mut steps);
        gate.after(client, number);
    }
}
