//! Writing the replies of a round.
ghost use Rattle.std.specs.Prelude.{◌≡◌, ◌<◌, map, IfErr, OnErr, OnOk};
ghost use Rattle.std.specs.Io.KnownBytes.{Appends};
ghost use Rattle.ds_io.specs.Faults.{next_count};
ghost use Rattle.ds_clients.specs.Clients.{AreAlike, IsCutAt, WrotePart};
ghost use Rattle.ds_clients.specs.Runs.{AreWritten, texts_of};

use crate::rounds::Sessions;
use ds_client::Client;
use ds_io::{Sink, write_all};
use ds_output::Unsent;
use ds_store::Names;

/// Writes the sessions' texts, by client, and sends them on their way once. A refusal comes exactly where a write or the flush failed, and
/// carries what wasn't taken of all texts, which is nothing where the flush failed. The sessions' texts are then empty, either way. It
/// takes no memory: what wasn't taken is handed out in the texts' own buffers.
pub fn write_round<J: Names, O: Sink>(
    sessions: &mut Sessions<J>,
    output: &mut O,
) -> Result<(), Unsent>
    ensures ok { OnOk result (Appends (O.held output.old) (O.held output.new) (texts_of sessions.old)) }
    ensures err { IfErr result (WrotePart (O.held output.old) (O.held output.new) (texts_of sessions.old)) }
    ensures alike { AreAlike sessions.old sessions.new }
    ensures written { AreWritten sessions.new }
    ensures fault { OnErr result (O.faults output.new ≡ next_count (O.faults output.old)) }
    ensures no_fault { OnOk result (O.faults output.new ≡ O.faults output.old) }
{
    match write_texts(sessions.clients(), output) {
        Ok(()) => {
            sessions.clear_texts();
            match output.flush() {
                Ok(()) => Ok(()),
                Err(_) => Err(sessions.nothing_unsent()),
            }
        }
        Err(cut) => Err(sessions.take_unsent(cut)),
    }
}

/// Where a write failed: in which client's text, and how many of its bytes were taken.
#[derive(Clone, Copy)]
pub(crate) struct Cut {
    pub(crate) client: usize,
    pub(crate) taken: usize,
}

/// Writes the clients' texts, one after the other, or says where a write failed; no further one is made.
fn write_texts<J: Names, O: Sink>(clients: &[Client<J>], output: &mut O) -> Result<(), Cut>
    ensures ok { OnOk result (Appends (O.held output.old) (O.held output.new) (texts_of (map (λ c. c.session) clients.now))) }
    ensures err { IfErr result (IsCutAt (O.held output.old) (O.held output.new) (map (λ c. c.session) clients.now)) }
    ensures fault { OnErr result (O.faults output.new ≡ next_count (O.faults output.old)) }
    ensures no_fault { OnOk result (O.faults output.new ≡ O.faults output.old) }
{
    for (client, it) in clients.iter().enumerate() {
        match write_all(output, it.text()) {
            Ok(()) => {}
            Err(taken) => return Err(Cut { client, taken }),
        }
    }
    Ok(())
}
