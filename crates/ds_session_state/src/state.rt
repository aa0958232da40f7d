//! A client's state: what a line is answered from, and what it leaves.

use ds_base::Buffer;
use ds_protocol::{OpenTransaction, Watermark};
use ds_store::{Names, Pass};
use std::alloc::Global;
use std::marker::Model;

/// A client, its pass, what it has seen, its transaction, and the text of its replies. It is public as what the crates that answer a line
/// share; callers of a session see `ds_session::Session`.
#[derive(Drop)]
pub struct State<J: Names> {
    /// The client's number.
    pub client: u32,
    /// Its pass of the store.
    pub pass: Pass<J>,
    /// What the client has seen, whatever its transaction.
    pub seen: Watermark,
    /// The transaction that it has open, if it has one.
    pub transaction: OpenTransaction,
    /// The replies that are not written yet.
    pub text: Buffer,
    /// Where memory is taken.
    pub alloc: Global,
}

/// Where a reply goes: behind the text, for the line of this number, with so many bytes of room left behind it.
#[derive(Clone, Copy)]
pub struct ReplyTo {
    /// The line's number.
    pub number: u64,
    /// How many bytes of room are left behind the reply.
    pub keep: usize,
}

impl<J: Names> Model for State<J> {
    ghost use Rattle.ds_model.specs.Groups.{with_transaction};
    ghost use Rattle.ds_session_state.specs.Sessions.{SessionParts};

    ghost Value = { SessionParts };

    ghost view = { λ s. record {
      client = s.client;
      pass = s.pass;
      seen = with_transaction s.transaction.transaction s.seen;
      text = s.text.bytes;
      room = s.text.spare;
    } };
}
