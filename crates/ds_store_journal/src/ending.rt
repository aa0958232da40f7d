//! What is known of passes at the end.
ghost use Rattle.std.specs.Prelude.{All, length};
ghost use Rattle.ds_store_passes.specs.Ending.{IsConfirmed};

use crate::desk::JournalDesk;
use ds_store_hubs::Names;
use ds_store_passes::Pass;
use std::sync::Wait;

/// Shows what is known of all passes once the journal's writer has confirmed them.
pub fn confirm_journal<J: Names, H: Wait + Drop, R: Wait>(
    rt: &R,
    desk: &JournalDesk<J, H>,
    passes: &[Pass<J>],
)
    ensures { All (IsConfirmed (length J.shards) desk.now.book.journal) passes.now }
{
    for pass in passes {
        confirm_pass(rt, desk, pass);
    }
}

fn confirm_pass<J: Names, H: Wait + Drop, R: Wait>(rt: &R, desk: &JournalDesk<J, H>, pass: &Pass<J>)
    ensures { IsConfirmed (length J.shards) desk.now.book.journal pass.now }
{
    desk.writer.writer.confirm(rt, &pass.journal);
}
