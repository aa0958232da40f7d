//! Telling a reply: its line is put into the client's text, or that there was no memory where there is no room for it.
ghost use Rattle.std.specs.Prelude.{◌≡◌, ◌+◌, ◌≤◌, ◌++◌, false, length, IsTrue};
ghost use Rattle.ds_output.specs.Room.{HasRoomToTell};
ghost use Rattle.ds_protocol.specs.Saying.{no_memory_reply};
ghost use Rattle.ds_reply.specs.Replies.{reply_text};

use ds_base::Buffer;
use ds_protocol::{say_if_room, say_no_memory};
use ds_reply::{Body, Reply, write_reply};

/// Writes a reply, or that there was no memory where there is no room for it, and says which; `keep` bytes of room are left.
pub fn tell(client: u32, number: u64, body: Body, keep: usize, text: &mut Buffer) -> bool
    requires { keep + length (reply_text (no_memory_reply client number)) ≤ text.old.spare }
    ensures told { IsTrue result → text.new.bytes ≡ text.old.bytes ++ reply_text (record { client = client; line = number; body = body }) }
    ensures untold { result ≡ false → text.new.bytes ≡ text.old.bytes ++ reply_text (no_memory_reply client number) }
    ensures kept { keep ≤ text.new.spare }
{
    if tell_if_room(client, number, body, keep, text) {
        return true;
    }
    tell_no_memory(client, number, keep, text);
    false
}

/// Writes a reply and leaves `keep` bytes of room; false, and nothing is written, where there is no memory for that.
fn tell_if_room(client: u32, number: u64, body: Body, keep: usize, text: &mut Buffer) -> bool
    ensures told { IsTrue result → text.new.bytes ≡ text.old.bytes ++ reply_text (record { client = client; line = number; body = body }) }
    ensures kept { IsTrue result → keep ≤ text.new.spare }
    ensures same { result ≡ false → text.new.bytes ≡ text.old.bytes }
    ensures room { result ≡ false → text.old.spare ≤ text.new.spare }
{
    let reply = Reply {
        client,
        line: number,
        body,
    };
    say_if_room(&reply, keep, text)
}

/// Writes that there was no memory, for which there is room; `keep` bytes of it are left.
pub fn tell_no_memory(client: u32, number: u64, keep: usize, text: &mut Buffer)
    requires { keep + length (reply_text (no_memory_reply client number)) ≤ text.old.spare }
    ensures told { text.new.bytes ≡ text.old.bytes ++ reply_text (no_memory_reply client number) }
    ensures kept { keep ≤ text.new.spare }
{
    say_no_memory(client, number, keep, text);
}

/// Writes a reply for which there is room; `keep` bytes of it are left. It takes no memory.
pub fn tell_last(client: u32, number: u64, body: Body, keep: usize, text: &mut Buffer)
    requires { HasRoomToTell body keep text.old.spare }
    ensures told { text.new.bytes ≡ text.old.bytes ++ reply_text (record { client = client; line = number; body = body }) }
    ensures kept { keep ≤ text.new.spare }
{
    let reply = Reply {
        client,
        line: number,
        body,
    };
    if write_reply(&reply, text).is_err() {
        unreachable!();
    }
}
