//! Whether a line is the reply that says this.
ghost use Rattle.std.specs.Prelude.{◌≡◌, ◌++◌, ◌∷◌, [], IfNone, IfOk, IfSome};
ghost use Rattle.ds_reply.specs.Replies.{reply_text};
ghost use Rattle.ds_reply_lines.specs.ReplyLines.{IsSaid};

use ds_base::{Buffer, NoMemory};
use ds_reply::{Body, Reply, write_reply};
use std::alloc::Global;

/// The body, where the line is the reply of this body to that client's line of this number; `None` exactly where it isn't. A refusal is
/// lack of memory.
pub fn says(
    alloc: Global,
    client: u32,
    number: u64,
    body: Body,
    line: &[u8],
) -> Result<Option<Body>, NoMemory>
    ensures some { IfOk result (λ said. IfSome said (λ b. (b ≡ body) × IsSaid client number line.now b)) }
    ensures none { IfOk result (λ said. IfNone said (IsSaid client number line.now body → ⊥)) }
{
    let ended = ended(alloc, line)?;
    let reply = Reply {
        client,
        line: number,
        body,
    };
    let text = text_of(alloc, &reply)?;
    if text.bytes() == ended.bytes() {
        Ok(Some(reply.body))
    } else {
        Ok(None)
    }
}

/// A line with its newline.
fn ended(alloc: Global, line: &[u8]) -> Result<Buffer, NoMemory>
    ensures { IfOk result (λ text. text.bytes ≡ line.now ++ 10 ∷ []) }
{
    let mut text = Buffer::new(alloc);
    text.append(line)?;
    text.append(b"\n")?;
    Ok(text)
}

/// A reply's line.
fn text_of(alloc: Global, reply: &Reply) -> Result<Buffer, NoMemory>
    ensures { IfOk result (λ text. text.bytes ≡ reply_text reply.now) }
{
    let mut text = Buffer::new(alloc);
    write_reply(reply, &mut text)?;
    Ok(text)
}
