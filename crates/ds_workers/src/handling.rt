//! What is said of the clients that workers handle, and who handles them.
ghost use Rattle.std.specs.Prelude.{◌≡◌, false};
ghost use denote.Param.Send.{IsSync};

use std::sync::Wait;
use std::thread::Threads;

/// What handling is to contracts. A type that implements it is a tag: it has no bytes, and each pool is of one.
pub trait Handling<C> {
    ghost use Rattle.ds_workers.specs.Marks.{HistoryId};

    // The history of what a pool has handed over.
    ghost history: { HistoryId };
    // This client may be handled.
    ghost is_ready: { C → Type 0 };
    // What handling leaves of a client, the one before and the one after.
    ghost handled: { C → C → Type 0 };
}

/// Who handles clients. Workers and the thread that runs the rounds share it by reference.
pub trait Handler<C, K: Handling<C>> {
    /// Whether there is anything to do for the client. Where there is nothing, it is handled as it is.
    fn is_busy(&self, client: &C) -> bool
        requires { K.is_ready client.now }
        ensures { result ≡ false → K.handled client.now client.now };

    /// Handles the client.
    fn handle<R: Threads + Wait + Sync>(&self, rt: &R, client: &mut C)
        requires ready { K.is_ready client.old }
        requires shared { IsSync R.row }
        ensures { K.handled client.old client.new };
}
