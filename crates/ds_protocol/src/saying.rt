//! Writing one reply into room that is taken before anything is changed.
ghost use Rattle.std.specs.Prelude.{◌≡◌, ◌+◌, ◌≤◌, ◌++◌, false, length, IsTrue};
ghost use Rattle.ds_reply.specs.Replies.{reply_text};
ghost use Rattle.ds_protocol.specs.Saying.{no_memory_reply};

use ds_base::Buffer;
use ds_reply::{Body, Reply, write_reply};

fn no_memory(client: u32, number: u64) -> Reply
    ensures { result ≡ no_memory_reply client number }
{
    Reply {
        client,
        line: number,
        body: Body::NoMemory,
    }
}

/// Writes the reply to a line that there was no memory, for which there is room, and leaves `keep` bytes of room.
pub fn say_no_memory(client: u32, number: u64, keep: usize, out: &mut Buffer) -> Reply
    requires { keep + length (reply_text (no_memory_reply client number)) ≤ out.old.spare }
    ensures said { result ≡ no_memory_reply client number }
    ensures text { out.new.bytes ≡ out.old.bytes ++ reply_text result }
    ensures kept { keep ≤ out.new.spare }
{
    let reply = no_memory(client, number);
    if write_reply(&reply, out).is_err() {
        unreachable!();
    }
    reply
}

/// Writes a reply in one pass, and leaves `keep` bytes of room behind it; false, and nothing is written, where there is no memory for that.
/// It is for what may still be refused, so that the reply's length needn't be known before.
pub fn say_if_room(reply: &Reply, keep: usize, out: &mut Buffer) -> bool
    ensures text { IsTrue result → out.new.bytes ≡ out.old.bytes ++ reply_text reply.now }
    ensures kept { IsTrue result → keep ≤ out.new.spare }
    ensures same { result ≡ false → out.new.bytes ≡ out.old.bytes }
    ensures room { result ≡ false → out.old.spare ≤ out.new.spare }
{
    let before = out.bytes().len();
    if write_reply(reply, out).is_err() {
        return false;
    }
    if out.make_room(keep).is_err() {
        out.truncate(before);
        return false;
    }
    true
}
