//! Lines that are refused before the store is asked.
ghost use Rattle.std.specs.Prelude.{◌≡◌, ◌+◌, ◌≤◌, ◌++◌, ℕ, Some, Result, length};
ghost use Rattle.ds_protocol.specs.Saying.{no_memory_reply};
ghost use Rattle.ds_reply.specs.Replies.{reply_text};
ghost use Rattle.ds_reply.specs.declared.reply.Body.{Body};
ghost use Rattle.ds_request.specs.declared.call.Request.{Request};
ghost use Rattle.ds_session_state.specs.Replying.{HasReplied};
ghost use Rattle.ds_session_state.specs.Refusing.{IsRefusedWith};
ghost use Rattle.ds_session_state.specs.Sessions.{IsWithin};

use crate::state::State;
use ds_output::{tell, tell_no_memory};
use ds_reply::Body;
use ds_store::Names;

impl<J: Names> State<J> {
    /// Says a refusal that the line and what the client has open decide, or that there was no memory to say it.
    pub fn refuse(&mut self, number: u64, body: Body, keep: usize)
        requires within { IsWithin self.old.seen self.old.pass }
        requires room { keep + length (reply_text (no_memory_reply self.old.client number)) ≤ self.old.room }
        ensures { (read : Result Request (ℕ × Body)) (shards : ℕ) → IsRefusedWith J.definitions shards self.old.seen read body
            → HasReplied J.definitions shards (Some J.window) self.old self.new number read keep }
    {
        tell(self.client, number, body, keep, &mut self.text);
    }

    /// Says that there was no memory.
    pub fn say_no_memory(&mut self, number: u64, keep: usize)
        requires within { IsWithin self.old.seen self.old.pass }
        requires room { keep + length (reply_text (no_memory_reply self.old.client number)) ≤ self.old.room }
        ensures replied { (read : Result Request (ℕ × Body)) (shards : ℕ)
            → HasReplied J.definitions shards (Some J.window) self.old self.new number read keep }
        ensures text { self.new.text ≡ self.old.text ++ reply_text (no_memory_reply self.old.client number) }
        ensures pass { self.new.pass ≡ self.old.pass }
    {
        tell_no_memory(self.client, number, keep, &mut self.text);
    }
}
