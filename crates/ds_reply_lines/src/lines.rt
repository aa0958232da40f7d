//! A text apart into lines.
ghost use Rattle.std.specs.Prelude.{◌≡◌, map, IfOk, option_map};
ghost use Rattle.ds_reply_lines.specs.ReplyLines.{whole_lines};

use ds_base::NoMemory;
use ds_rounds::split_line;
use std::alloc::Global;

/// The lines of a text without their newlines; `None` exactly where something stands behind the last newline. It is linear in the text. A
/// refusal means out of memory.
pub fn whole_lines(alloc: Global, text: &[u8]) -> Result<Option<Vec<&[u8]>>, NoMemory>
    ensures { IfOk result (λ found. option_map (λ lines. map (λ line. line.now) lines.items) found ≡ whole_lines text.now) }
{
    let mut lines = Vec::new(alloc);
    let mut rest = text;
    'lines: while let Some((line, behind)) = split_line(rest) {
        lines.push(line)?;
        rest = behind;
    }
    if rest.is_empty() {
        Ok(Some(lines))
    } else {
        Ok(None)
    }
}
