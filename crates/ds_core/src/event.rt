//! What a machine of events is given, and what it gives.
use ds_base::Sequence;
use ds_effects::Step;
use ds_log::Journal;
use ds_reply::Reply;
use ds_request::Request;

/// One step of one client, and the request that it opens before, if it has none open.
#[derive(Drop)]
pub struct Event {
    /// The step.
    pub step: Step,
    /// The client, from 0 to 15.
    pub client: u32,
    /// The request, of this client.
    pub begins: Option<Request>,
}

/// Events in their order.
pub type Events = Sequence<Event>;

/// Requests in the order of their replies.
pub type Requests = Sequence<Request>;

/// Replies in their order.
pub type Replies = Sequence<Reply>;

/// What was asked and said, and what was committed.
#[derive(Drop)]
pub struct Transcript {
    /// The requests, in the order of their replies.
    pub requests: Requests,
    /// The replies; the line of each is its place, counted from 1.
    pub replies: Replies,
    /// The commits.
    pub journal: Journal,
}
