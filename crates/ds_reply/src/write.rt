//! From a reply to its line.
ghost use Rattle.std.specs.Prelude.{◌≡◌, ◌≤◌, ◌+◌, ◌++◌, length, false, IsOk, OnOk, OnErr};
ghost use Rattle.ds_reply.specs.Replies.{reply_text};
ghost use Rattle.ds_json_printing.specs.Outputs.{WritesText};

use crate::bodies::members_of;
use crate::object::write_object;
use crate::reply::Reply;
use core::mem::replace_with;
use ds_base::{Buffer, NoMemory};
use ds_json_printing::{Growing, Output};
use std::alloc::AllocError;

/// Puts the reply's line at the end of `onto`: one JSON object in compact text, and a newline. It is refused for want of
/// memory alone, and never where there is the room for the line. A refusal leaves the bytes as they were, and no less room;
/// otherwise the room is lowered by the line's length at most. Each piece is put at once; where one is refused, those
/// before it are taken back.
pub fn write_reply(reply: &Reply, onto: &mut Buffer) -> Result<(), NoMemory>
    ensures ok { OnOk result (onto.new.bytes ≡ onto.old.bytes ++ reply_text reply.now) }
    ensures err { OnErr result (onto.new.bytes ≡ onto.old.bytes) }
    ensures succeeds { length (reply_text reply.now) ≤ onto.old.spare → IsOk result }
    ensures room { onto.old.spare ≤ onto.new.spare + length (reply_text reply.now) }
    ensures kept { OnErr result (onto.old.spare ≤ onto.new.spare) }
{
    let length = onto.bytes().len();
    let refused = replace_with(onto, reply, append_line);
    if refused {
        onto.truncate(length);
        return Err(AllocError);
    }
    Ok(())
}

/// Puts the line behind the buffer's bytes, and tells whether a piece of it was refused.
fn append_line(buffer: Buffer, reply: &Reply) -> (Buffer, bool)
    ensures { WritesText (reply_text reply.now) (record { buffer = buffer; refused = false })
        (record { buffer = result.0; refused = result.1 }) }
{
    let mut out = Growing {
        buffer,
        refused: false,
    };
    write_line(reply, &mut out);
    (out.buffer, out.refused)
}

/// Puts the reply's line.
fn write_line<O: Output>(reply: &Reply, out: &mut O)
    ensures { O.Writes (reply_text reply.now) out.old out.new }
{
    let members = members_of(reply);
    write_object(members.as_slice(), out);
    out.put(b"\n");
}
