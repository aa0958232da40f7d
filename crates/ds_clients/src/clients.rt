//! All clients at once: what a round does with each of them.
ghost use Rattle.std.specs.Prelude.{◌≡◌, ◌+◌, ◌*◌, ◌<◌, ◌≤◌, ◌-◌, [], All, length, map, take, vec_len, IfOk, OnErr, OnOk};
ghost use Rattle.std.specs.List.{range_with_len};
ghost use Rattle.std.specs.Vec.{vec_capacity};
ghost use Rattle.ds_base.specs.Limits.{greatest_client};
ghost use Rattle.ds_model.specs.Sessions.{first_sessions};
ghost use Rattle.ds_protocol.specs.Watermarks.{HaveCounts, greatest_of};
ghost use Rattle.ds_protocol.specs.Watermarks.{nothing_seen as no_counts};
ghost use Rattle.ds_rounds.specs.Reading.{IsRound};
ghost use Rattle.ds_rounds.specs.Rounds.{lines_of_round};
ghost use Rattle.ds_clients.specs.Clients.{AreAlike, AreReady, AreSeated, EachOf, StartsRound};
ghost use Rattle.ds_client.specs.Room.{most_no_memory};
ghost use Rattle.ds_clients.specs.Runs.{AreWritten, seen_of};
ghost use Rattle.ds_client.specs.Meeting.{HasTaken};
ghost use Rattle.ds_output.specs.Unsent.{AreEmpty};
ghost use Rattle.ds_store.specs.Passes.{nothing_seen};

use ds_asked::{Asked, asked_by_client};
use ds_base::limits::MAX_CLIENT;
use ds_base::{NoMemory, Sequence};
use ds_client::{Client, Missed, Session};
use ds_output::Texts;
use ds_protocol::Watermark;
use ds_rounds::Round;
use ds_store::{Ledgers, Names, Pass};
use std::alloc::{AllocError, Global};

/// How many clients there are.
pub(crate) const CLIENTS: usize = MAX_CLIENT as usize + 1;

/// What each client has seen at first. A refusal means out of memory.
pub(crate) fn first_marks(alloc: Global, shards: u32) -> Result<Vec<Watermark>, NoMemory>
    ensures { IfOk result (λ seen. seen.items ≡ first_sessions shards) }
{
    let mut seen = Vec::with_capacity(alloc, CLIENTS)?;
    for _client in 0..CLIENTS {
        seen.push(Watermark::first(alloc, shards)?)?;
    }
    Ok(seen)
}

/// Nothing missed, for each client. A refusal means out of memory.
pub(crate) fn none_missed(alloc: Global, shards: u32) -> Result<Vec<Missed>, NoMemory>
    ensures all { IfOk result (λ missed. All (λ m. m ≡ no_counts shards) missed.items) }
    ensures many { IfOk result (λ missed. vec_len missed ≡ greatest_client + 1) }
{
    let mut missed = Vec::with_capacity(alloc, CLIENTS)?;
    for _client in 0..CLIENTS {
        missed.push(Missed::make(alloc, shards)?)?;
    }
    Ok(missed)
}

/// A client for each of these, with a pass from the end of the list. It takes no memory, where there is room for the clients.
pub(crate) fn seated<J: Names>(
    alloc: Global,
    shards: u32,
    room: Vec<Client<J>>,
    seen: Vec<Watermark>,
    missed: Vec<Missed>,
    passes: &mut Vec<Pass<J>>,
    ledgers: &Ledgers<J>,
) -> Vec<Client<J>>
    requires seen { seen.items ≡ first_sessions shards }
    requires missed { All (λ m. m ≡ no_counts shards) missed.items × (vec_len missed ≡ greatest_client + 1) }
    requires room { (room.items ≡ []) × (greatest_client + 1 ≤ vec_capacity room) }
    requires many { greatest_client + 1 ≤ vec_len passes.old }
    requires new { All (λ p. p ≡ nothing_seen shards) passes.old.items }
    ensures clients { AreSeated shards (map (λ c. c.session) result.items) }
    ensures left { passes.new.items ≡ take (vec_len passes.old - (greatest_client + 1)) passes.old.items }
    ensures capacity { vec_capacity passes.new ≡ vec_capacity passes.old }
{
    let mut clients = room;
    let mut missed = missed;
    let mut client = 0;
    for mark in seen {
        let session = Session::first(alloc, passes.take_last(), client, mark);
        let none = missed.take_last();
        clients.push_reserved(Client::new(session, none, ledgers.again()));
        client += 1;
    }
    clients
}

/// Makes clients ready for a round in a store of so many shards: each gets what its lines ask, with room for a reply to each that there
/// was no memory, and they meet. A refusal is want of memory.
pub(crate) fn ready_clients<J: Names>(
    alloc: Global,
    shards: u32,
    clients: &mut [Client<J>],
    round: Round,
) -> Result<(), NoMemory>
    requires round { IsRound round }
    requires numbers { map (λ c. c.session.client) clients.old ≡ range_with_len 0 (greatest_client + 1) }
    requires counts { HaveCounts shards (seen_of (map (λ c. c.session) clients.old)) }
    requires written { AreWritten (map (λ c. c.session) clients.old) }
    ensures ok { OnOk result (AreReady shards (lines_of_round round) (map (λ c. c.session) clients.old)
        (map (λ c. c.session) clients.new) (map (λ c. c.own) clients.new)) }
    ensures start { OnOk result (All (λ c. StartsRound shards c.session c.own) clients.new) }
    ensures err { OnErr result (AreAlike (map (λ c. c.session) clients.old) (map (λ c. c.session) clients.new)
        × AreWritten (map (λ c. c.session) clients.new)) }
    ensures numbers { map (λ c. c.session.client) clients.new ≡ range_with_len 0 (greatest_client + 1) }
    ensures counts { HaveCounts shards (seen_of (map (λ c. c.session) clients.new)) }
{
    let lists = asked_by_client(alloc, shards, round)?;
    match prepare(alloc, shards, clients, lists) {
        Ok(greatest) => {
            meet_all(clients, &greatest);
            Ok(())
        }
        Err(_) => Err(AllocError),
    }
}

/// Gives each client what its lines ask.
fn hand_out<J: Names>(clients: &mut [Client<J>], lists: Vec<Sequence<Asked>>)
    requires { length clients.old ≡ vec_len lists }
    ensures sessions { EachOf (λ c d. d.session ≡ c.session) clients.old clients.new }
    ensures own { map (λ c. c.own) clients.new ≡ lists.items }
{
    let mut client = 0;
    for own in lists {
        clients[client].take_on(own.into_vec());
        client += 1;
    }
}

/// Gives each client what its lines ask, makes room for a reply to each line that there was no memory, and finds the greatest that any
/// client has seen. A refusal means out of memory.
fn prepare<J: Names>(
    alloc: Global,
    shards: u32,
    clients: &mut [Client<J>],
    lists: Vec<Sequence<Asked>>,
) -> Result<Watermark, NoMemory>
    requires { length clients.old ≡ vec_len lists }
    ensures same { EachOf (λ c d. d.session ≡ record c.session { room = d.session.room }) clients.old clients.new }
    ensures own { OnOk result (map (λ c. c.own) clients.new ≡ lists.items) }
    ensures room { OnOk result (All (λ c. length c.own * most_no_memory ≤ c.session.room) clients.new) }
    ensures greatest { IfOk result (λ g. g ≡ greatest_of shards (seen_of (map (λ c. c.session) clients.new))) }
{
    hand_out(clients, lists);
    make_rooms(clients)?;
    let greatest = greatest_seen(alloc, shards, clients)?;
    Ok(greatest)
}

/// Makes room for a reply to each line that there was no memory. A refusal means out of memory.
fn make_rooms<J: Names>(clients: &mut [Client<J>]) -> Result<(), NoMemory>
    ensures same { EachOf (λ c d. (d.session ≡ record c.session { room = d.session.room })
        × (d.own ≡ c.own)) clients.old clients.new }
    ensures room { OnOk result (All (λ c. length c.own * most_no_memory ≤ c.session.room) clients.new) }
{
    for client in clients {
        client.make_room()?;
    }
    Ok(())
}

/// The greatest place, counts and id counter that any client has seen. A refusal means out of memory.
fn greatest_seen<J: Names>(
    alloc: Global,
    shards: u32,
    clients: &[Client<J>],
) -> Result<Watermark, NoMemory>
    ensures { IfOk result (λ g. g ≡ greatest_of shards (seen_of (map (λ c. c.session) clients.now))) }
{
    let mut greatest = Watermark::first(alloc, shards)?;
    greatest.clear();
    for client in clients {
        client.add_to(&mut greatest);
    }
    Ok(greatest)
}

/// Each client has then seen what this one has.
pub(crate) fn meet_all<J: Names>(clients: &mut [Client<J>], greatest: &Watermark)
    requires { All (λ c. c.session.text ≡ []) clients.old }
    ensures { EachOf (λ c d. HasTaken greatest.now c.session d.session × (d.own ≡ c.own) × (d.session.room ≡ c.session.room)
        × (length d.session.seen.counts ≡ length c.session.seen.counts)) clients.old clients.new }
{
    for client in clients {
        client.meet(greatest);
    }
}

/// Takes the clients' replies out.
pub(crate) fn clear_texts<J: Names>(clients: &mut [Client<J>])
    ensures { EachOf (λ c d. d.session ≡ record c.session { text = [] }) clients.old clients.new }
{
    for client in clients {
        client.clear_text();
    }
}

/// Moves the clients' replies into empty texts.
pub(crate) fn take_texts<J: Names>(clients: &mut [Client<J>], texts: &mut Texts)
    requires many { length texts.old ≡ length clients.old }
    requires empty { AreEmpty texts.old }
    ensures texts { map (λ text. text.bytes) texts.new ≡ map (λ c. c.session.text) clients.old }
    ensures clients { EachOf (λ c d. d.session ≡ record c.session { text = []; room = 0 }) clients.old clients.new }
{
    for i in 0..clients.len() {
        clients[i].swap_text(&mut texts[i]);
    }
}
