//! The text of a load.
ghost use Rattle.std.specs.Prelude.{◌≡◌, ◌+◌, ◌++◌, ◌<◌, ◌^◌, decimal, IfOk, OnOk};
ghost use Rattle.ds_load.specs.Input.{line_of, load_text, put_text};

use ds_base::{Buffer, ByteString, NoMemory};
use std::alloc::Global;

/// The lines that put so many items, an empty line, and the lines of a settle and of the query. A refusal means out of memory.
pub fn write_load(alloc: Global, items: u32) -> Result<ByteString, NoMemory>
    ensures { IfOk result (λ text. text ≡ load_text items) }
{
    let mut text = Buffer::new(alloc);
    for i in 0..items {
        append_put(u64::from(i), &mut text)?;
    }
    text.append(
        b"\n{\"op\":\"settle\"}\n\
          {\"filters\":[[\"a\",\"=\",3],[\"b\",\"=\",2]],\"kind\":\"Item\",\"op\":\"query\",\
          \"orders\":[[\"c\",\"asc\"]],\"select\":[\"c\"]}\n",
    )?;
    Ok(ByteString::from(text))
}

/// The line that puts one item.
fn append_put(i: u64, text: &mut Buffer) -> Result<(), NoMemory>
    requires { i < 2 ^ 32 }
    ensures { OnOk result (text.new.bytes ≡ text.old.bytes ++ line_of (put_text i)) }
{
    text.append(b"{\"client\":")?;
    append_number(i % 4, text)?;
    text.append(b",\"entity\":{\"key\":[[\"Item\",")?;
    append_number(i + 1, text)?;
    text.append(b"]],\"properties\":{\"a\":")?;
    append_number(i % 10, text)?;
    text.append(b",\"b\":")?;
    append_number(i % 7, text)?;
    text.append(b",\"c\":")?;
    append_number(i, text)?;
    text.append(b"}},\"op\":\"put\"}\n")
}

/// Puts a number in decimal at the end. A refusal means out of memory.
pub fn append_number(number: u64, text: &mut Buffer) -> Result<(), NoMemory>
    ensures { OnOk result (text.new.bytes ≡ text.old.bytes ++ decimal number) }
{
    text.append(itoa::Buffer::new().format(number).as_bytes())
}
