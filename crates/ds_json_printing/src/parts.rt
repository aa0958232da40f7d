//! Keys as replies show them, for texts beside replies.
ghost use Rattle.std.specs.Prelude.{◌≡◌, ◌++◌, false, OnOk, OnErr};
ghost use Rattle.serde_json.specs.Written.{compact_text};
ghost use Rattle.ds_json_printing.specs.Outputs.{WritesText};
ghost use Rattle.ds_json_printing.specs.Printing.{key_data};

use crate::keys::write_key;
use crate::output::Growing;
use core::mem::replace_with;
use ds_base::{Buffer, Key, NoMemory};
use std::alloc::AllocError;

/// Puts a key at the end of `onto`, as a reply shows it: one JSON array in compact text. A refusal means out of memory, and leaves the
/// bytes as they were.
pub fn append_key(key: &Key, onto: &mut Buffer) -> Result<(), NoMemory>
    ensures ok { OnOk result (onto.new.bytes ≡ onto.old.bytes ++ compact_text (key_data key.now)) }
    ensures err { OnErr result (onto.new.bytes ≡ onto.old.bytes) }
{
    let length = onto.bytes().len();
    let refused = replace_with(onto, key, key_behind);
    if refused {
        onto.truncate(length);
        return Err(AllocError);
    }
    Ok(())
}

/// Puts the key behind the buffer's bytes, and tells whether a piece of it was refused.
fn key_behind(buffer: Buffer, key: &Key) -> (Buffer, bool)
    ensures { WritesText (compact_text (key_data key.now)) (record { buffer = buffer; refused = false })
        (record { buffer = result.0; refused = result.1 }) }
{
    let mut out = Growing {
        buffer,
        refused: false,
    };
    write_key(key, &mut out);
    (out.buffer, out.refused)
}
